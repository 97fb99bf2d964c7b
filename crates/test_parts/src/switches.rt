//! Switches.

ghost use Rattle.std.specs.Prelude.{◌≡◌, []};

use eio_value::{Member, NoMemory, Plain, Raised, TextId, Value};
use std::alloc::Global;
use std::test::Fail;
use switch_core::{CloseStep, Handler, HandlerVariables, ReleaseFault, Switches};

/// A handler that begins with this node, with one variable.
fn handler(alloc: Global, node: u32) -> Result<Handler, NoMemory> {
    let values = vec![in alloc; Value::Ctx(node)]?;
    Ok(Handler {
        node,
        env: HandlerVariables::new(values),
    })
}

/// A raise of a text.
fn failure(serial: u64) -> Raised {
    Raised::One(Member {
        serial,
        what: Plain::Failure(TextId(0)),
    })
}

/// Which step it is.
fn name_of(step: &CloseStep) -> &'static str {
    match step {
        CloseStep::Wait => "wait",
        CloseStep::CancelDaemons => "cancel daemons",
        CloseStep::RunHandler(_) => "run a handler",
        CloseStep::Return => "return",
        CloseStep::Raise(_) => "raise",
    }
}

/// What the fiber 3 finds in the close of a switch with the fiber 7, and who is woken when that one ends.
fn close_over_a_fiber(switches: &mut Switches) -> Result<(&'static str, Option<u32>), NoMemory>
    requires { switches.old ≡ [] }
{
    let sw = switches.open(0)?;
    if !switches.attach(sw, 7, false)? {
        return Ok(("refused", None));
    }
    let step = switches.close_step(sw, 3);
    Ok((name_of(&step), switches.detach(sw, 7)))
}

/// What the fiber 3 finds in the close of a switch with a daemon, and the switch's context.
fn close_over_a_daemon(switches: &mut Switches) -> Result<(&'static str, u32), NoMemory>
    requires { switches.old ≡ [] }
{
    let sw = switches.open(4)?;
    if !switches.attach(sw, 7, true)? {
        return Ok(("refused", 0));
    }
    let step = switches.close_step(sw, 3);
    Ok((name_of(&step), switches.context(sw)))
}

/// The node and the first variable of a handler.
fn told(next: Option<Handler>) -> Option<(u32, Option<Value>)> {
    let handler = next?;
    let first = handler.env.as_slice().first().copied();
    match (first, handler.env.into_values().pop()) {
        (Some(first), Some(last)) if first == last => Some((handler.node, Some(first))),
        _ => Some((handler.node, None)),
    }
}

/// The handler that the close of a switch runs where this one was registered.
fn close_over_a_handler(
    switches: &mut Switches,
    handler: Handler,
) -> Result<Option<Handler>, NoMemory>
    requires { switches.old ≡ [] }
{
    let sw = switches.open(0)?;
    let Ok(()) = switches.on_release(sw, handler) else {
        return Ok(None);
    };
    if !switches.handler_next(sw) {
        return Ok(None);
    }
    match switches.close_step(sw, 3) {
        CloseStep::RunHandler(next) => Ok(Some(next)),
        _ => Ok(None),
    }
}

/// What the close of a switch finds into which an exception was raised, and whether it then is finished, and refuses fibers and exceptions.
fn close_with_errors(switches: &mut Switches) -> Result<(&'static str, [bool; 4]), NoMemory>
    requires { switches.old ≡ [] }
{
    let sw = switches.open(0)?;
    let taken = switches.fail(sw, failure(1)).is_ok();
    // For the proof alone: a condition of `close_step`.
    if switches.is_finished(sw) {
        return Ok(("finished", [false; 4]));
    }
    let step = switches.close_step(sw, 3);
    let finished = switches.is_finished(sw);
    let refuses = switches.refuses_fibers(sw);
    let refused = switches.fail(sw, failure(2)).is_err();
    Ok((name_of(&step), [taken, finished, refuses, refused]))
}

/// The node of the handler that a finished switch gives back.
fn given_back(switches: &mut Switches, handler: Handler) -> Result<Option<u32>, NoMemory>
    requires { switches.old ≡ [] }
{
    let sw = switches.open(0)?;
    switches.close_step(sw, 3);
    match switches.on_release(sw, handler) {
        Err(ReleaseFault::Finished(back)) => Ok(Some(back.node)),
        _ => Ok(None),
    }
}

#[test]
fn fibers_are_waited_for_and_daemons_cancelled(rt: HostRuntime) -> Result<(), Fail> {
    let mut switches = Switches::new(rt.alloc());
    assert!(rt; close_over_a_fiber(&mut switches)? == ("wait", Some(3)));
    let mut others = Switches::new(rt.alloc());
    assert!(rt; close_over_a_daemon(&mut others)? == ("cancel daemons", 4));
    Ok(())
}

#[test]
fn errors_are_raised_and_then_it_is_finished(rt: HostRuntime) -> Result<(), Fail> {
    let mut switches = Switches::new(rt.alloc());
    assert!(rt; close_with_errors(&mut switches)? == ("raise", [true; 4]) && switches.len() == 1);
    Ok(())
}

#[test]
fn a_handler_runs_unless_it_is_finished(rt: HostRuntime) -> Result<(), Fail> {
    let mut switches = Switches::new(rt.alloc());
    let next = close_over_a_handler(&mut switches, handler(rt.alloc(), 5)?)?;
    assert!(rt; told(next) == Some((5, Some(Value::Ctx(5)))));
    let mut others = Switches::new(rt.alloc());
    let back = given_back(&mut others, handler(rt.alloc(), 6)?)?;
    assert!(rt; back == Some(6));
    Ok(())
}
