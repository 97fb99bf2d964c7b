//! Streams.

ghost use Rattle.std.specs.Prelude.{◌≡◌};

use crate::waits::{DEAD, all_alive, name_of, number_in, waiter, waking};
use eio_value::{NoMemory, Outcome, Value};
use std::alloc::Global;
use std::test::Fail;
use stream_core::Stream;
use wait_list::{MemSent, MemWake};

/// Two fibers wait to take; the first has entered twice.
fn wait_to_take(alloc: Global, stream: &mut Stream)
    requires { stream.old.cells ≡ 4 }
    ensures { stream.new.cells ≡ 4 }
{
    stream.take(&mut all_alive(alloc), waiter(2, 10), false);
    stream.take(&mut all_alive(alloc), waiter(1, 11), false);
    stream.take(&mut all_alive(alloc), waiter(2, 12), false);
}

/// The number that was handed to a taker.
fn handed(wake: &MemWake) -> Option<i64> {
    match &wake.told {
        MemSent::Resumed(_, Outcome::Ok(Value::Int(number))) => Some(*number),
        _ => None,
    }
}

/// Which taker gets the number 5 where these waits are dead, what it is handed, and what the adder is answered.
fn added(
    alloc: Global,
    dead: [(u32, u64); 2],
) -> Result<(Option<u64>, Option<i64>, &'static str), NoMemory> {
    let mut stream = Stream::new(alloc, 0, 4)?;
    let mut wake = waking(alloc, dead)?;
    wait_to_take(alloc, &mut stream);
    let answer = stream.add(&mut wake, waiter(3, 13), false, Value::Int(5));
    Ok((wake.woken(), handed(&wake), name_of(&answer)))
}

/// A number is there, and two fibers wait to add theirs; the first has entered twice.
fn wait_to_add(alloc: Global, stream: &mut Stream)
    requires { stream.old.cells ≡ 4 }
    ensures { stream.new.cells ≡ 4 }
{
    stream.add(&mut all_alive(alloc), waiter(0, 9), false, Value::Int(1));
    stream.add(&mut all_alive(alloc), waiter(2, 10), false, Value::Int(2));
    stream.add(&mut all_alive(alloc), waiter(1, 11), false, Value::Int(3));
    stream.add(&mut all_alive(alloc), waiter(2, 12), false, Value::Int(4));
}

/// Which adder is woken by a take where these waits are dead, and what that and another take give.
fn taken(
    alloc: Global,
    dead: [(u32, u64); 2],
) -> Result<(Option<u64>, [Option<i64>; 2]), NoMemory> {
    let mut stream = Stream::new(alloc, 1, 4)?;
    let mut wake = waking(alloc, dead)?;
    wait_to_add(alloc, &mut stream);
    let first = stream.take(&mut wake, waiter(3, 13), false);
    let second = stream.take_nonblocking(&mut all_alive(alloc));
    Ok((wake.woken(), [number_in(&first), number_in(&second)]))
}

/// What calls of a fiber answer whose context is off, and how many items are there then.
fn off(alloc: Global, stream: &mut Stream) -> ([&'static str; 3], u32)
    requires { stream.old.cells ≡ 4 }
{
    let take = stream.take(&mut all_alive(alloc), waiter(0, 10), true);
    let add = stream.add(&mut all_alive(alloc), waiter(0, 11), true, Value::Unit);
    let nothing = stream.take_nonblocking(&mut all_alive(alloc));
    (
        [name_of(&take), name_of(&add), name_of(&nothing)],
        stream.len(),
    )
}

/// What an add comes to where this wait is woken.
fn wanted(woken: Option<u64>) -> (Option<u64>, Option<i64>, &'static str) {
    match woken {
        Some(_) => (woken, Some(5), "done"),
        None => (None, None, "waits"),
    }
}

/// What the second take gives where this adder was woken by the first.
fn second(woken: Option<u64>) -> Option<i64> {
    match woken {
        Some(11) => Some(3),
        Some(_) => Some(4),
        None => None,
    }
}

/// The first row that isn't met.
fn wrong_row(alloc: Global) -> Result<Option<usize>, NoMemory> {
    for row in 0..DEAD.len() {
        let (dead, woken) = DEAD[row];
        if added(alloc, dead)? != wanted(woken)
            || taken(alloc, dead)? != (woken, [Some(1), second(woken)])
        {
            return Ok(Some(row));
        }
    }
    Ok(None)
}

#[test]
fn the_first_that_is_alive_goes_on(rt: HostRuntime) -> Result<(), Fail> {
    assert_eq!(rt; wrong_row(rt.alloc())?, None);
    Ok(())
}

#[test]
fn a_call_that_is_off_leaves_the_stream(rt: HostRuntime) -> Result<(), Fail> {
    let mut stream = Stream::new(rt.alloc(), 0, 4)?;
    assert!(rt; off(rt.alloc(), &mut stream) == (["off", "off", "nothing"], 0));
    Ok(())
}
