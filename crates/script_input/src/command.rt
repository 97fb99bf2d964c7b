//! The commands `check` and `print`, from a source's bytes to a sink's and a status.
//!
//! [`inspect_run`] says what is read, what is written and which status is answered, for every source and sink.
ghost use Rattle.std.specs.Prelude.{◌≡◌, ◌≢◌, ◌≤◌, IfSome};
ghost use Rattle.trace_out.specs.Outcome.{ReadsFor, WritesFor, HasItsCause, CanCome};
ghost use Rattle.script_input.specs.Inspections.{inspected, due};

use crate::inspection::{Inspection, answer_to};
use eio_value::NoMemory;
use std::alloc::Global;
use trace_out::{InputError, Sink, Source, Status, WriteAll, read_input, write_all};

/// Reads an input from `source`, writes what `inspection` answers to it to `sink`, and returns `Ok`, or `Refused` where the input is no
/// script. It waits for nobody and always returns.
///
/// At most 262,145 bytes are read, one more than an accepted input has, and nothing is written before they are. `ReadFault` comes where
/// the source failed, and `NoMemory` where memory was refused: then nothing was written. `WriteFault` comes where the sink failed: then
/// a front of the text was written.
pub fn inspect_run<S: Source, K: Sink>(
    alloc: Global,
    inspection: Inspection,
    source: &mut S,
    sink: &mut K,
) -> Status
    // What is read and written at each answer, where source and sink tell their bytes.
    ensures read { ReadsFor result (S.left source.old) (S.left source.new) }
    ensures text { IfSome (S.left source.old) (λ bytes. WritesFor result (due (inspected inspection bytes)) (K.held sink.old) (K.held sink.new)) }
    ensures unwritten { result ≡ Status.ReadFault → sink.new ≡ sink.old }
    ensures unspoken { result ≡ Status.NoMemory → sink.new ≡ sink.old }

    // A fault has its cause in the device's count, which never falls.
    ensures cause { HasItsCause result (S.faults source.old) (S.faults source.new) (K.faults sink.old) (K.faults sink.new) }
    ensures source_later { S.faults source.old ≤ S.faults source.new }
    ensures sink_later { K.faults sink.old ≤ K.faults sink.new }

    // No words are read here, and nothing is run.
    ensures asked { result ≢ Status.Usage }
    ensures over { CanCome result }
{
    let input = match read_input(alloc, source) {
        Ok(input) => input,
        Err(InputError::Fault) => return Status::ReadFault,
        Err(InputError::NoMemory) => return Status::NoMemory,
    };
    let answer = match answer_to(alloc, inspection, &input) {
        Ok(answer) => answer,
        Err(NoMemory) => return Status::NoMemory,
    };
    match write_all(sink, &answer.text) {
        Ok(()) => answer.status,
        Err(WriteAll::WriteFault) => Status::WriteFault,
    }
}
