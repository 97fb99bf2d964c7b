//! The lines of the trace that moves write, and the numbers of statuses.

ghost use Rattle.std.specs.Prelude.{◌≡◌, []};
ghost use Rattle.trace_lines.specs.TraceTexts.{CanTrace};

use crate::log::{push_asked, push_count, push_heading};
use eio_value::{NoMemory, Operands, Texts, Value};
use std::alloc::Global;
use trace_out::{Did, Line, Said2, Status, render_trace};

/// The line of a move that did this.
fn line_of(did: Did) -> Line
    ensures { result.did ≡ did }
{
    Line {
        stamp: 1,
        domain: 0,
        fiber: 0,
        did,
        reply: Said2::Done(Value::Unit),
    }
}

/// What the line of a move adds to the trace.
fn push_move(texts: &Texts, log: &mut Vec<u8>, asked: &str, did: Did) -> Result<(), NoMemory>
    requires { CanTrace texts.now [] did }
{
    push_asked(log, asked)?;
    render_trace(texts, &[], &line_of(did), log)?;
    log.push(b'\n')?;
    Ok(())
}

/// What a clock's tick, a yield and a trace of one value write.
fn answer_moves(texts: &Texts, log: &mut Vec<u8>) -> Result<(), NoMemory> {
    let one = Operands::none().with(Value::Int(1));
    push_move(texts, log, "a tick", Did::Tick(5))?;
    push_move(texts, log, "a yield", Did::Yield)?;
    push_move(texts, log, "a trace", Did::Trace(one))
}

/// The exit status of each ending.
fn answer_statuses(log: &mut Vec<u8>) -> Result<(), NoMemory> {
    let rows = [
        ("ok", Status::Ok),
        ("raised", Status::Raised),
        ("refused", Status::Refused),
        ("deadlock", Status::Deadlock),
        ("out of steps", Status::OutOfSteps),
        ("read fault", Status::ReadFault),
        ("write fault", Status::WriteFault),
        ("no memory", Status::NoMemory),
        ("usage", Status::Usage),
        ("limit", Status::Limit),
        ("not legal", Status::NotLegal),
    ];
    for (asked, status) in rows {
        push_count(log, asked, status.code() as u64)?;
    }
    Ok(())
}

/// Appends the answers of lines and statuses.
pub fn answer(alloc: Global, log: &mut Vec<u8>) -> Result<(), NoMemory> {
    push_heading(log, "lines of the trace")?;
    let texts = Texts::new(alloc);
    answer_moves(&texts, log)?;
    push_heading(log, "statuses")?;
    answer_statuses(log)
}
