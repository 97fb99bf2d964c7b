//! The answer to an input: the trace of the script that it is with the line behind it, or the line of its refusal.
//!
//! [`respond`] says that the text and the ending are the definition's answer to these bytes.
ghost use Rattle.std.specs.Prelude.{◌≡◌, ◌<◌, ◌≤◌, IfOk};
ghost use Rattle.script_input.specs.Refusals.{line_of};
ghost use Rattle.mock_backend.specs.Due.{answer_to};
ghost use Rattle.mock_backend.specs.Faults.{HasRunCause, WritesText};

use crate::fault::RunFault;
use crate::run::run_script;
use crate::script::mocked_script;
use script_input::{InputFault, Refusal, refusal_line};
use spec_machine::Ending;
use std::alloc::Global;
use trace_out::{Sink, write_all};

/// Writes the line of a refusal.
fn answer_refusal<K: Sink>(
    alloc: Global,
    refusal: Refusal,
    sink: &mut K,
) -> Result<Ending, RunFault>
    ensures ending { IfOk result (λ ending. ending ≡ Ending.Refused) }
    ensures text { WritesText (K.held sink.old) (K.held sink.new) (line_of refusal) result }
    ensures cause { HasRunCause (K.faults sink.old) (K.faults sink.new) result }
{
    let line = refusal_line(alloc, refusal)?;
    write_all(sink, &line)?;
    Ok(Ending::Refused)
}

/// Answers an input: writes what is due to it, and returns how it ended.
///
/// # Errors
/// `WriteFault` where the sink failed, `NoMemory` where memory runs out; a front of what is due was written.
pub(crate) fn respond<K: Sink>(
    alloc: Global,
    input: &[u8],
    sink: &mut K,
    steps: u32,
) -> Result<Ending, RunFault>
    requires some { 0 < steps }
    requires most { steps ≤ 1000000 }
    ensures ending { IfOk result (λ ending. ending ≡ (answer_to steps input.now).ending) }
    ensures text { WritesText (K.held sink.old) (K.held sink.new) (answer_to steps input.now).text result }
    ensures cause { HasRunCause (K.faults sink.old) (K.faults sink.new) result }
{
    match mocked_script(alloc, input) {
        Ok(script) => run_script(alloc, &script, sink, steps),
        Err(InputFault::Refused(refusal)) => answer_refusal(alloc, refusal, sink),
        Err(InputFault::NoMemory) => Err(RunFault::NoMemory),
    }
}
