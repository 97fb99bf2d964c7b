//! The ready list and the timers.

ghost use Rattle.std.specs.Prelude.{◌≡◌};
ghost use Rattle.spec_parts.specs.Timers as list;

use eio_value::Full;
use run_queue::{Ready, Timers};
use std::test::Fail;

/// Whether each of three fibers goes in, the second at the head.
fn pushed(ready: &mut Ready) -> [bool; 3] {
    [
        ready.push_back(7).is_ok(),
        ready.push_head(4).is_ok(),
        ready.push_back(9).is_ok(),
    ]
}

/// The fiber that moves next, and whether none is left then.
fn popped(ready: &mut Ready) -> (Option<u32>, bool) {
    (ready.pop(), ready.is_empty())
}

/// Whether fibers move in order, and no more go in than may.
fn fibers_move(ready: &mut Ready) -> bool {
    pushed(ready) == [true, true, false]
        && popped(ready) == (Some(4), false)
        && popped(ready) == (Some(7), true)
        && popped(ready) == (None, true)
}

/// Three fibers sleep; whether a fourth does.
fn slept(timers: &mut Timers) -> Result<bool, Full>
    requires { timers.old.timers ≡ list.no_timers }
{
    timers.add(30, 1)?;
    timers.add(10, 2)?;
    timers.add(10, 3)?;
    Ok(timers.add(5, 4).is_ok())
}

/// The earliest due time, and the fiber that is due at this one.
fn gone_off(timers: &mut Timers, now: i64) -> (Option<i64>, Option<u32>) {
    (timers.earliest(), timers.pop_due(now))
}

/// Whether timers go off in order, and one that is removed doesn't.
fn timers_go_off(timers: &mut Timers) -> Result<bool, Full>
    requires { timers.old.timers ≡ list.no_timers }
{
    Ok(
        !slept(timers)?
            && gone_off(timers, 9) == (Some(10), None)
            && gone_off(timers, 20) == (Some(10), Some(2))
            && gone_off(timers, 20) == (Some(10), Some(3))
            && gone_off(timers, 20) == (Some(30), None)
            && timers.remove(1)
            && !timers.remove(1),
    )
}

#[test]
fn they_go_in_order(rt: HostRuntime) -> Result<(), Fail> {
    let mut ready = Ready::new(rt.alloc(), 2)?;
    assert!(rt; fibers_move(&mut ready));
    let mut timers = Timers::new(rt.alloc(), 3)?;
    assert!(rt; timers_go_off(&mut timers)?);
    Ok(())
}
