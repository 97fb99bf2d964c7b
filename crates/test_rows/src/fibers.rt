//! Rows of fibers, with a call in words (see [`crate::spelling`]): `first | INPUT` has the first call of the main of a script;
//! `second N | INPUT` the second one, where the first is answered with a number; `inner N | INPUT` the first call in the block that the
//! first call goes into, where that one is answered with a number; `promising N | INPUT` the first call of a fiber with that main whose end
//! resolves a promise; `branches | INPUT` has the first nodes of the branches that the first call begins; `ends` has the calls of end marks.
//!
//! Nodes, and declarations of each kind together, have numbers in reading order.

ghost use Rattle.std.specs.Prelude.{◌≤◌, length, IfOk, OnOk};
ghost use Rattle.fiber_step.specs.Placing.{ArePlaced};
ghost use Rattle.fiber_step.specs.Stepping.{HasBodiesOf};
ghost use Rattle.script_forms.specs.Flat.{nodes_of};

use crate::spelling::push_call;
use crate::trees::push_fault;
use crate::unanswered::Unanswered;
use eio_value::{Member, Outcome, Plain, Raised, Texts, Value};
use fiber_step::{Ask, End, Fiber, Mark, Variables, branch_bodies, first_node};
use script_input::input_script;
use script_lang::Script;
use std::alloc::{AllocError, Global};

/// A fiber before the main of a script; where the row is about a promising one, its end resolves the promise of this number.
fn begun(alloc: Global, kind: &str, number: i64, script: &Script) -> Result<Fiber, Unanswered>
    ensures { IfOk result (λ fiber. ArePlaced (nodes_of script.now) fiber.items) }
{
    // For the proof alone: a law of scripts, by which there is a main.
    script.is_sound();
    let main = first_node(script, 0);
    let none = Variables::new(Vec::new(alloc));
    if kind != "promising" {
        return Ok(Fiber::new(alloc, main, none)?);
    }
    let promise = u32::try_from(number).unwrap_or(0);
    Ok(Fiber::promising(alloc, promise, main, none)?)
}

/// The next call of a fiber, to which a value comes.
fn next_call(
    script: &Script,
    fiber: &mut Fiber,
    texts: &mut Texts,
    serial: &mut u64,
    value: Value,
) -> Result<Ask, Unanswered>
    requires items { ArePlaced (nodes_of script.now) fiber.old.items }
    requires texts { length script.now.texts ≤ length texts.old }
    ensures items { OnOk result (ArePlaced (nodes_of script.now) fiber.new.items) }
    ensures texts { length script.now.texts ≤ length texts.new }
    ensures bodies { IfOk result (λ call. HasBodiesOf (nodes_of script.now) call) }
{
    Ok(fiber.settle(script, texts, serial, &Outcome::Ok(value))?)
}

/// The call that a row is about.
fn call_of(
    kind: &str,
    number: i64,
    script: &Script,
    fiber: &mut Fiber,
    texts: &mut Texts,
) -> Result<Ask, Unanswered>
    requires items { ArePlaced (nodes_of script.now) fiber.old.items }
    requires texts { length script.now.texts ≤ length texts.old }
    ensures bodies { IfOk result (λ call. HasBodiesOf (nodes_of script.now) call) }
{
    let mut serial = 0;
    let first = next_call(script, fiber, texts, &mut serial, Value::Unit)?;
    match kind {
        "second" => next_call(script, fiber, texts, &mut serial, Value::Int(number)),
        "inner" => {
            let number = u32::try_from(number).map_err(|_| Unanswered)?;
            fiber.enter(script, &first, number)?;
            next_call(script, fiber, texts, &mut serial, Value::Unit)
        }
        _ => Ok(first),
    }
}

/// Shows the first nodes of the branches that a call begins.
fn push_branches(script: &Script, call: &Ask, out: &mut String) -> Result<(), Unanswered>
    requires { HasBodiesOf (nodes_of script.now) call.now }
{
    match *call {
        Ask::Branches { form, .. } => {
            let bodies = branch_bodies(script, form);
            write!(out, "{bodies:?}")?;
            Ok(())
        }
        _ => Err(Unanswered),
    }
}

/// Shows a call, or the first nodes of the branches that it begins.
fn push_called(
    kind: &str,
    script: &Script,
    texts: &Texts,
    call: &Ask,
    out: &mut String,
) -> Result<(), Unanswered>
    requires { HasBodiesOf (nodes_of script.now) call.now }
{
    match kind {
        "branches" => push_branches(script, call, out),
        _ => push_call(out, texts, call),
    }
}

/// Shows the call of a fiber that a row is about.
fn push_call_of(
    kind: &str,
    number: i64,
    script: &Script,
    fiber: &mut Fiber,
    texts: &mut Texts,
    out: &mut String,
) -> Result<(), Unanswered>
    requires items { ArePlaced (nodes_of script.now) fiber.old.items }
    requires texts { length script.now.texts ≤ length texts.old }
{
    match &call_of(kind, number, script, fiber, texts) {
        Ok(call) => push_called(kind, script, texts, call, out),
        Err(_) => Err(Unanswered),
    }
}

/// Shows the call that a row is about.
fn push_answer(
    alloc: Global,
    kind: &str,
    number: i64,
    script: &Script,
    out: &mut String,
) -> Result<(), Unanswered> {
    let mut texts = script.texts_of(alloc)?;
    let mut fiber = begun(alloc, kind, number, script)?;
    push_call_of(kind, number, script, &mut fiber, &mut texts, out)
}

/// Shows the call that a mark makes of what came, and how many variables are kept then; or nothing.
fn push_end(
    mark: &Mark,
    came: &Outcome,
    texts: &Texts,
    out: &mut String,
) -> Result<(), Unanswered> {
    out.push_str("  ")?;
    match mark.end(came) {
        Some(End { call, keep }) => {
            push_call(out, texts, &call)?;
            write!(out, ", {keep:?}\n")?;
        }
        None => out.push_str("nothing\n")?,
    }
    Ok(())
}

/// Shows the calls of end marks.
fn push_ends(alloc: Global, out: &mut String) -> Result<(), Unanswered> {
    let texts = Texts::new(alloc);
    let value = Outcome::Ok(Value::Int(7));
    let raised = Outcome::Err(Raised::One(Member {
        serial: 3,
        what: Plain::EndOfFile,
    }));
    let unlock = Mark::Unlock { mutex: 2, keep: 1 };
    let closing = Mark::Closing {
        switch: 4,
        kept: Value::Unit,
    };
    for mark in [unlock, closing, Mark::Cut { keep: 0 }] {
        push_end(&mark, &value, &texts, out)?;
        push_end(&mark, &raised, &texts, out)?;
    }
    let tried = Mark::Try {
        handler: 5,
        keep: 0,
    };
    write!(out, "  {}\n", tried.stops())?;
    Ok(())
}

/// The answer to a row.
pub(crate) fn answer(
    alloc: Global,
    kind: &str,
    word: &str,
    input: &str,
    out: &mut String,
) -> Result<(), Unanswered> {
    if kind == "ends" {
        return push_ends(alloc, out);
    }
    match input_script(alloc, input.as_bytes()) {
        Err(fault) => push_fault(alloc, fault, out),
        Ok(script) => {
            out.push_str("  ")?;
            push_answer(alloc, kind, word.parse().unwrap_or(0), &script, out)?;
            out.push('\n')?;
            Ok(())
        }
    }
}
