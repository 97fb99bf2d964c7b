//! Lists of waiting fibers, and the `Wake` in memory.

ghost use Rattle.std.specs.Prelude.{◌≡◌, None};
ghost use Rattle.wait_list.specs.MemSending.{sent_of};

use crate::waits::{DEAD, all_alive, waiter, waking};
use eio_value::{Answer, Job, NoMemory, Outcome, Value, Wake};
use std::alloc::Global;
use std::test::Fail;
use wait_list::{MemSent, MemWake, Queued, WaitList};

/// The fiber with this cell, in the wait with this stamp.
fn fiber(cell: u32, armed: u64) -> Queued
    ensures { result.who.cell ≡ cell }
{
    Queued {
        who: waiter(cell, armed),
        item: Value::Int(5),
        number: armed,
    }
}

/// Two fibers wait, of which the first has entered twice.
fn enter(list: &mut WaitList)
    requires { list.old.cells ≡ 3 }
    ensures { list.new.cells ≡ 3 }
{
    list.enter(fiber(2, 10));
    list.enter(fiber(1, 11));
    list.enter(fiber(2, 12));
}

/// The stamp of the wait that is woken where these are dead.
fn woken_of(alloc: Global, dead: [(u32, u64); 2]) -> Result<Option<u64>, NoMemory> {
    let mut list = WaitList::new(alloc, 3)?;
    let mut wake = waking(alloc, dead)?;
    enter(&mut list);
    list.wake_first(&mut wake, &Outcome::Ok(Value::Unit));
    Ok(wake.woken())
}

/// Whether the fiber of cell 0 waits, unless its context is off, and is told the outcome behind the others.
fn is_told(list: &mut WaitList, wake: &mut MemWake) -> bool
    requires cells { list.old.cells ≡ 3 }
    requires quiet { sent_of wake.old.told ≡ None }
    ensures cells { list.new.cells ≡ 3 }
{
    let off = matches!(list.wait(fiber(0, 13), true), Answer::Off);
    let waits = matches!(list.wait(fiber(0, 13), false), Answer::Waits);
    let woken = list.wake_first(wake, &Outcome::Ok(Value::Int(8)));
    let told =
        matches!(wake.told, MemSent::Resumed(who, Outcome::Ok(Value::Int(8))) if who.cell == 0);
    off && waits && told && matches!(woken, Some(queued) if queued.number == 13)
}

/// The stamp of the wait of the fiber that leaves by this number.
fn taken(list: &mut WaitList, number: u64) -> Option<u64> {
    match list.take_numbered(number) {
        Some(queued) => Some(queued.who.armed),
        None => None,
    }
}

/// The first row that isn't met.
fn wrong_row(alloc: Global) -> Result<Option<usize>, NoMemory> {
    for row in 0..DEAD.len() {
        let (dead, woken) = DEAD[row];
        if woken_of(alloc, dead)? != woken {
            return Ok(Some(row));
        }
    }
    Ok(None)
}

/// Whether fibers leave by their numbers, each once.
fn leave_by_numbers(list: &mut WaitList) -> bool {
    taken(list, 10) == None && taken(list, 12) == Some(12) && taken(list, 12) == None
}

/// Whether a job is started as it is told.
fn starts(wake: &mut MemWake) -> bool
    requires { sent_of wake.old.told ≡ None }
{
    let job = Job {
        executor: 1,
        node: 2,
        given: [Value::Unit; 8],
        count: 0,
        weight: 50,
    };
    wake.start(3, job, 4);
    matches!(wake.told, MemSent::Started(3, job, 4) if job.weight == 50)
}

#[test]
fn the_first_that_is_alive_is_woken(rt: HostRuntime) -> Result<(), Fail> {
    assert_eq!(rt; wrong_row(rt.alloc())?, None);
    Ok(())
}

#[test]
fn fibers_and_jobs_are_told(rt: HostRuntime) -> Result<(), Fail> {
    let mut list = WaitList::new(rt.alloc(), 3)?;
    let mut wake = waking(rt.alloc(), [(1, 11), (2, 12)])?;
    enter(&mut list);
    assert!(rt; is_told(&mut list, &mut wake));
    enter(&mut list);
    assert!(rt; leave_by_numbers(&mut list));
    assert!(rt; starts(&mut all_alive(rt.alloc())));
    Ok(())
}
