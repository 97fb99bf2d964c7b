//! Promises.

ghost use Rattle.std.specs.Prelude.{◌≡◌};

use crate::waits::{DEAD, all_alive, name_of, waiter, waking, woken_in};
use eio_value::{Answer, Member, NoMemory, Outcome, Plain, Raised, Value};
use promise_cell::Promise;
use std::alloc::Global;
use std::test::Fail;

/// Two fibers wait; the first has entered twice.
fn await_it(promise: &mut Promise)
    requires { promise.old.cells ≡ 4 }
    ensures { promise.new.cells ≡ 4 }
{
    promise.await_(waiter(2, 10), false);
    promise.await_(waiter(1, 11), false);
    promise.await_(waiter(2, 12), false);
}

/// The wait that is woken once it is resolved, where these are dead: as it is told, and as it is answered.
fn woken_of(alloc: Global, dead: [(u32, u64); 2]) -> Result<[Option<u64>; 2], NoMemory> {
    let mut promise = Promise::new(alloc, 4)?;
    let mut wake = waking(alloc, dead)?;
    await_it(&mut promise);
    promise.resolve(Outcome::Ok(Value::Int(5)));
    let answer = promise.next_wake(&mut wake);
    Ok([wake.woken(), woken_in(&answer)])
}

/// What calls answer before it is resolved.
fn before(alloc: Global, promise: &mut Promise) -> [&'static str; 3]
    requires { promise.old.cells ≡ 4 }
    ensures { promise.new.cells ≡ 4 }
{
    let waits = promise.await_(waiter(0, 10), false);
    let off = promise.await_(waiter(3, 11), true);
    let nothing = promise.next_wake(&mut all_alive(alloc));
    [name_of(&waits), name_of(&off), name_of(&nothing)]
}

/// The serial of the exception that a promise raises, which is resolved with it and then with a value.
fn raised(promise: &mut Promise) -> Option<u64>
    requires { promise.old.cells ≡ 4 }
{
    let failed = Raised::One(Member {
        serial: 7,
        what: Plain::EndOfFile,
    });
    let first = promise.resolve(Outcome::Err(failed));
    let second = promise.resolve(Outcome::Ok(Value::Int(5)));
    match promise.await_(waiter(1, 12), false) {
        Answer::Raised(Raised::One(member)) if first && !second => Some(member.serial),
        _ => None,
    }
}

/// The first row that isn't met.
fn wrong_row(alloc: Global) -> Result<Option<usize>, NoMemory> {
    for row in 0..DEAD.len() {
        let (dead, woken) = DEAD[row];
        if woken_of(alloc, dead)? != [woken, woken] {
            return Ok(Some(row));
        }
    }
    Ok(None)
}

#[test]
fn the_first_that_is_alive_has_the_outcome(rt: HostRuntime) -> Result<(), Fail> {
    assert_eq!(rt; wrong_row(rt.alloc())?, None);
    Ok(())
}

#[test]
fn it_is_resolved_once(rt: HostRuntime) -> Result<(), Fail> {
    let mut promise = Promise::new(rt.alloc(), 4)?;
    assert!(rt; before(rt.alloc(), &mut promise) == ["waits", "off", "nothing"]);
    assert!(rt; raised(&mut promise) == Some(7));
    Ok(())
}
