//! What the tests of shared objects have in common: waits, which of them are dead, and what calls answer.

ghost use Rattle.std.specs.Prelude.{◌≡◌, None, IfOk};
ghost use Rattle.wait_list.specs.MemSending.{sent_of};

use eio_value::{Answer, NoMemory, Value, Waiter};
use std::alloc::Global;
use wait_list::MemWake;

/// A wait that no test begins.
const NOBODY: (u32, u64) = (9, 0);

/// Two waits that are dead, each by its cell and its stamp, and the stamp of the wait that is woken then: in each test the fiber
/// of cell 2 waits with the stamp 10, that of cell 1 with 11, and that of cell 2 anew with 12.
pub const DEAD: [([(u32, u64); 2], Option<u64>); 4] = [
    ([NOBODY, NOBODY], Some(11)),
    ([(2, 10), NOBODY], Some(11)),
    ([(1, 11), NOBODY], Some(12)),
    ([(1, 11), (2, 12)], None),
];

/// A wait of the fiber with this cell, named by its stamp.
pub fn waiter(cell: u32, armed: u64) -> Waiter
    ensures { result.cell ≡ cell }
{
    Waiter {
        domain: 0,
        fiber: cell,
        cell,
        armed,
    }
}

/// These waits are dead.
pub fn waking(alloc: Global, dead: [(u32, u64); 2]) -> Result<MemWake, NoMemory>
    ensures { IfOk result (λ wake. sent_of wake.told ≡ None) }
{
    Ok(MemWake::new(Vec::from_array(alloc, dead)?))
}

/// All waits are alive.
pub fn all_alive(alloc: Global) -> MemWake
    ensures { sent_of result.told ≡ None }
{
    MemWake::new(Vec::new(alloc))
}

/// Which answer it is.
pub fn name_of(answer: &Answer) -> &'static str {
    match answer {
        Answer::Done(_) => "done",
        Answer::Waits => "waits",
        Answer::Off => "off",
        Answer::Nothing => "nothing",
        Answer::Woke(_) => "woke",
        Answer::Started { .. } => "started",
        Answer::Raised(_) => "raised",
    }
}

/// The stamp of the wait that an answer names as woken.
pub fn woken_in(answer: &Answer) -> Option<u64> {
    match answer {
        Answer::Woke(who) => Some(who.armed),
        _ => None,
    }
}

/// The number that is given.
pub fn number_in(answer: &Answer) -> Option<i64> {
    match answer {
        Answer::Done(Value::Int(number)) => Some(*number),
        _ => None,
    }
}
