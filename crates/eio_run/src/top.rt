//! The top call. It owns no rule of its own: words are read here, and a command's own crate does the rest.
ghost use Rattle.std.specs.Prelude.{◌≡◌, ◌≤◌, ◌↔◌, map, IfSome, None};
ghost use Rattle.std.specs.String.{string_bytes};
ghost use Rattle.trace_out.specs.Outcome.{ReadsFor, HasItsCause};
ghost use Rattle.mock_backend.specs.Causes.{ComesExactlyOf, EndsRaised, IsStuck};
ghost use Rattle.mock_backend.specs.Today.{built_today};
ghost use Rattle.spec_script.specs.Words.{meaning};
ghost use Rattle.eio_run.specs.Answers.{due_to, Writes, CanComeOf, MockRunsTo};

use crate::words::command_of;
use mock_backend::mock_run;
use script_input::{Inspection, inspect_run};
use spec_script::Command;
use std::alloc::Global;
use std::sync::Wait;
use std::thread::Threads;
use trace_out::{Gate, Sink, Source, Status};

/// Does what `words`, those behind the program's name, ask for: reads an input from `source`, writes what is answered to
/// `sink`, and returns how it ended.
///
/// The commands today are `mock`, which runs a script on one mocked domain, in at most as many moves as its option says; `check`, which
/// says whether the input is a script of the notation; and `print`, which writes such a script in its canonical spelling. Words without a meaning are answered by `Usage`
/// before anything is read. At most 262,145 bytes are read. The gate is never asked by these commands.
///
/// A run of `mock` has `Raised` exactly where it came to rest, main having ended with an exception, and `Deadlock` exactly where it came to
/// rest and main hasn't ended; at rest no limit was met, and no strike is owed, no fiber is ready and no timer stands.
///
/// What `print` writes spells a tree that stands for the same script, offsets aside; where it has at most 262,144 bytes it is read again
/// as that script and printed as the same bytes. That is a law over the definitions (`print_reads_again` of `law_script`).
pub fn eio_run<R: Threads + Wait + Sync, S: Source, K: Sink, G: Gate>(
    _rt: &R,
    alloc: Global,
    words: &[String],
    source: &mut S,
    sink: &mut K,
    _gate: &G,
) -> Status
    // Usage exactly where the words have no meaning, and then nothing is read or written.
    ensures usage { (result ≡ Status.Usage) ↔ (meaning built_today (map string_bytes words.now) ≡ None) }
    ensures unread { result ≡ Status.Usage → (source.new ≡ source.old) × (sink.new ≡ sink.old) }

    // What is read and written at each answer, where source and sink tell their bytes.
    ensures read { ReadsFor result (S.left source.old) (S.left source.new) }
    ensures text { IfSome (S.left source.old) (λ bytes. Writes result (due_to built_today (map string_bytes words.now) bytes) (K.held sink.old) (K.held sink.new)) }
    ensures unwritten { result ≡ Status.ReadFault → sink.new ≡ sink.old }

    // A fault has its cause in the device's count, which never falls.
    ensures cause { HasItsCause result (S.faults source.old) (S.faults source.new) (K.faults sink.old) (K.faults sink.new) }
    ensures source_later { S.faults source.old ≤ S.faults source.new }
    ensures sink_later { K.faults sink.old ≤ K.faults sink.new }

    // `check` and `print` run nothing, so that they neither raise nor stand still, nor meet a limit of steps, fibers or contexts. No
    // command of today checks a history.
    ensures over { CanComeOf (meaning built_today (map string_bytes words.now)) result }

    // The two endings of a run that comes to rest otherwise than well, each with its cause.
    ensures raised { IfSome (S.left source.old) (λ bytes. ComesExactlyOf (MockRunsTo EndsRaised (meaning built_today (map string_bytes words.now)) bytes) Status.Raised result) }
    ensures deadlock { IfSome (S.left source.old) (λ bytes. ComesExactlyOf (MockRunsTo IsStuck (meaning built_today (map string_bytes words.now)) bytes) Status.Deadlock result) }
{
    match command_of(alloc, words) {
        None => Status::Usage,
        Some(Command::Mock(steps)) => mock_run(alloc, source, sink, steps),
        Some(Command::Check) => inspect_run(alloc, Inspection::Check, source, sink),
        Some(Command::Print) => inspect_run(alloc, Inspection::Print, source, sink),
        Some(
            Command::Domains(_)
            | Command::Load(_)
            | Command::Verify(_)
            | Command::Expand
            | Command::Paths
            | Command::Migrate,
        ) => unreachable!(),
    }
}
