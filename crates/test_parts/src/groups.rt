//! Groups.

ghost use Rattle.std.specs.Prelude.{◌≡◌, []};

use eio_value::{Member, NoMemory, Outcome, Plain, Raised, TextId, Value};
use group_core::{GroupKind, Groups, JoinStep};
use std::alloc::Global;
use std::test::Fail;

/// A raise of a text, with this serial.
fn failure(serial: u64) -> Member {
    Member {
        serial,
        what: Plain::Failure(TextId(0)),
    }
}

/// Which answer of `join` it is, with the number that is given, or the serial of what is raised.
fn told(step: JoinStep) -> (&'static str, u64) {
    match step {
        JoinStep::Wait => ("waits", 0),
        JoinStep::Give(Value::Int(number)) => ("gives", number.unsigned_abs()),
        JoinStep::Give(_) => ("gives", 0),
        JoinStep::Raise(Raised::One(member)) => ("raises", member.serial),
        JoinStep::Raise(_) => ("raises", 0),
    }
}

/// What is seen of a group of two branches.
type Seen = (
    [Option<Plain>; 2],
    Option<u32>,
    Option<Value>,
    [(&'static str, u64); 2],
);

/// The branches of a group end with these outcomes, and the fiber 3 joins it before the second one does and behind: what the ends cancel, whom the last
/// one wakes, the value that is kept, and what the joins answer.
fn end_both(groups: &mut Groups, kind: GroupKind, outcomes: [Outcome; 2]) -> Result<Seen, NoMemory>
    requires { groups.old ≡ [] }
{
    let group = groups.open(kind, 4, 2)?;
    let first = groups.branch_ends(group, outcomes[0]);
    let waits = groups.join(group, 3);
    let second = groups.branch_ends(group, outcomes[1]);
    let joined = groups.join(group, 3);
    Ok((
        [first.cancels, second.cancels],
        second.woken,
        groups.kept(group),
        [told(waits), told(joined)],
    ))
}

/// Whether this is seen.
fn sees(
    alloc: Global,
    kind: GroupKind,
    outcomes: [Outcome; 2],
    wanted: Seen,
) -> Result<bool, NoMemory> {
    let mut groups = Groups::new(alloc);
    Ok(end_both(&mut groups, kind, outcomes)? == wanted && groups.len() == 1)
}

/// Two branches that end with values.
fn values() -> [Outcome; 2] {
    [Outcome::Ok(Value::Int(7)), Outcome::Ok(Value::Int(8))]
}

/// Whether two values make a group give unit whose kind keeps none.
fn both_end(alloc: Global) -> Result<bool, NoMemory> {
    let joins = [("waits", 0), ("gives", 0)];
    let wanted = ([None, None], Some(3), None, joins);
    sees(alloc, GroupKind::Both, values(), wanted)
}

/// Whether the first value is kept and cancels the other branch, where the kind keeps one.
fn the_first_ends(alloc: Global) -> Result<bool, NoMemory> {
    let cancels = [Some(Plain::NotFirst), None];
    let joins = [("waits", 0), ("gives", 7)];
    let wanted = (cancels, Some(3), Some(Value::Int(7)), joins);
    sees(alloc, GroupKind::First, values(), wanted)
}

/// Whether an exception cancels the other branch, and is raised without the cancellation that comes of it.
fn exceptions_end(alloc: Global) -> Result<bool, NoMemory> {
    let outcomes = [
        Outcome::Err(Raised::One(failure(1))),
        Outcome::Err(Raised::Cancelled(failure(2))),
    ];
    let why = Some(failure(1).what);
    let raises = ([why, why], Some(3), None, [("waits", 0), ("raises", 1)]);
    sees(alloc, GroupKind::Any, outcomes, raises)
}

/// The context of a new group.
fn context(groups: &mut Groups) -> Result<u32, NoMemory>
    requires { groups.old ≡ [] }
{
    let group = groups.open(GroupKind::All, 4, 1)?;
    Ok(groups.context(group))
}

#[test]
fn branches_end(rt: HostRuntime) -> Result<(), Fail> {
    assert!(rt; both_end(rt.alloc())?);
    assert!(rt; the_first_ends(rt.alloc())?);
    assert!(rt; exceptions_end(rt.alloc())?);
    let mut groups = Groups::new(rt.alloc());
    assert!(rt; groups.is_empty() && context(&mut groups)? == 4);
    Ok(())
}
