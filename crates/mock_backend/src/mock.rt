//! The command `mock`, from a source's bytes to a sink's and a status.
//!
//! [`mock_run`] says what is read, what is written and which status is answered, for every source and sink.
ghost use Rattle.std.specs.Prelude.{◌≡◌, ◌≢◌, ◌<◌, ◌≤◌, IfSome};
ghost use Rattle.spec_machine.specs.Answers.{ended};
ghost use Rattle.trace_out.specs.Outcome.{ReadsFor, WritesFor, HasItsCause};
ghost use Rattle.mock_backend.specs.Causes.{ComesExactlyOf, EndsRaised, IsStuck, RunsTo};
ghost use Rattle.mock_backend.specs.Due.{answer_to, due};

use crate::fault::RunFault;
use crate::respond::respond;
use spec_machine::Ending;
use std::alloc::Global;
use trace_out::{InputError, Sink, Source, Status, read_input};

/// The status of an ending.
fn to_status(ending: Ending) -> Status
    ensures { result ≡ ended ending }
{
    match ending {
        Ending::Ok => Status::Ok,
        Ending::Raised => Status::Raised,
        Ending::Refused => Status::Refused,
        Ending::Deadlock => Status::Deadlock,
        Ending::OutOfSteps => Status::OutOfSteps,
        Ending::Limit => Status::Limit,
        Ending::NotLegal => Status::NotLegal,
    }
}

/// Reads a script from `source`, runs it on one mocked domain for at most `steps` moves, writes its trace to `sink`,
/// and returns how it ended. It waits for nobody and always returns.
///
/// At most 262,145 bytes are read, one more than an accepted input has. `Limit` comes where more fibers or contexts would be live than may
/// be; else `OutOfSteps` exactly where `steps` moves were made and one more is possible; else nothing is left to be done, and `Raised` comes
/// where main ended with an exception, `Deadlock` where main hasn't ended. `ReadFault` comes where the source failed, and
/// then nothing was written. `WriteFault` comes where the sink failed, and `NoMemory` where memory was refused: then a front of the text
/// was written.
pub fn mock_run<S: Source, K: Sink>(
    alloc: Global,
    source: &mut S,
    sink: &mut K,
    steps: u32,
) -> Status
    requires some { 0 < steps }
    requires most { steps ≤ 1000000 }

    // What is read and written at each answer, where source and sink tell their bytes.
    ensures read { ReadsFor result (S.left source.old) (S.left source.new) }
    ensures text { IfSome (S.left source.old) (λ bytes. WritesFor result (due (answer_to steps bytes)) (K.held sink.old) (K.held sink.new)) }
    ensures unwritten { result ≡ Status.ReadFault → sink.new ≡ sink.old }

    // A fault has its cause in the device's count, which never falls.
    ensures cause { HasItsCause result (S.faults source.old) (S.faults source.new) (K.faults sink.old) (K.faults sink.new) }
    ensures source_later { S.faults source.old ≤ S.faults source.new }
    ensures sink_later { K.faults sink.old ≤ K.faults sink.new }

    // No words are read here, and no history is checked.
    ensures asked { result ≢ Status.Usage }
    ensures unchecked { result ≢ Status.NotLegal }

    // The two endings of a run that comes to rest otherwise than well, each with its cause.
    ensures raised { IfSome (S.left source.old) (λ bytes. ComesExactlyOf (RunsTo EndsRaised steps bytes) Status.Raised result) }
    ensures deadlock { IfSome (S.left source.old) (λ bytes. ComesExactlyOf (RunsTo IsStuck steps bytes) Status.Deadlock result) }
{
    let input = match read_input(alloc, source) {
        Ok(input) => input,
        Err(InputError::Fault) => return Status::ReadFault,
        Err(InputError::NoMemory) => return Status::NoMemory,
    };
    match respond(alloc, &input, sink, steps) {
        Ok(ending) => to_status(ending),
        Err(RunFault::WriteFault) => Status::WriteFault,
        Err(RunFault::NoMemory) => Status::NoMemory,
    }
}
