//! A run of a script on one mocked domain, whose trace goes out 4,096 bytes at a time, and the line behind it.
//!
//! The loop keeps: what was written, with what is held back behind it, is the trace of the moves made so far, and the moves that are left
//! lead from the state that the domain stands for where the whole run leads. [`run_script`] says what was written, how the run ended, and why.
ghost use Rattle.std.specs.Prelude.{◌≡◌, ◌<◌, ◌≤◌, ◌↔◌, ◌++◌, ℕ, List, true, length, IfOk, IfSome, OnOk};
ghost use Rattle.fiber_step.specs.Settling.{HasTextsOfOutcome};
ghost use Rattle.spec_machine.specs.Answers.{ran};
ghost use Rattle.spec_machine.specs.Mock.{Mock};
ghost use Rattle.spec_machine.specs.Trace as model;
ghost use Rattle.spec_machine.specs.Trace.{body_end, ending_in, run};
ghost use Rattle.spec_script.specs.Opening.{opening_texts};
ghost use Rattle.spec_script.specs.Scripts.{Script as Read};
ghost use Rattle.domain_core.specs.Turns.{StandsFor, Starts};
ghost use Rattle.law_domain.specs.Well.WellStates.{IsRunnable};
ghost use Rattle.mock_backend.specs.Causes.{EndsRaised, IsStuck};
ghost use Rattle.mock_backend.specs.Faults.{HasRunCause, WritesText};
ghost use Rattle.mock_backend.specs.Objects.{AreForMocked};
ghost use Rattle.mock_backend.specs.Scripts.{IsOfRun};

use crate::fault::RunFault;
use crate::local::Local;
use crate::trace::write_told;
use domain_core::{Domain, Told, Turned};
use eio_value::{NoMemory, Outcome, Texts, show_raised};
use script_code::Script;
use spec_machine::Ending;
use std::alloc::Global;
use trace_out::{Out, Sink};

/// The number of the one domain of a mocked run.
pub(crate) const MOCKED: u8 = 0;

/// How a run ends that has come to this domain.
fn ending_of(domain: &Domain) -> Ending
    ensures { (script : Read) (texts : List (List ℕ)) (m : Mock) → StandsFor script texts domain.now m.local → result ≡ ending_in script m }
{
    if domain.met_limit() {
        return Ending::Limit;
    }
    if domain.can_move() {
        return Ending::OutOfSteps;
    }
    match domain.body_end() {
        None => Ending::Deadlock,
        Some(Outcome::Ok(_)) => Ending::Ok,
        Some(Outcome::Err(_)) => Ending::Raised,
    }
}

/// The line behind the trace of a run that ended so and whose body came to this; none where the run came to its end.
fn last_line(
    texts: &Texts,
    ending: Ending,
    came: Option<Outcome>,
    line: &mut Vec<u8>,
) -> Result<(), NoMemory>
    requires texts { ending ≡ Ending.Raised → IfSome came (HasTextsOfOutcome texts.now) }
    ensures { OnOk result ((m : Mock) → m.local.texts ≡ texts.now → body_end m.local ≡ came → line.new.items ≡ model.last_line ending m) }
{
    line.clear();
    match ending {
        Ending::Ok | Ending::Refused | Ending::NotLegal => (),
        Ending::Raised => {
            if let Some(Outcome::Err(raised)) = came {
                line.push(b'!')?;
                show_raised(texts, &raised, line)?;
                line.push(b'\n')?;
            }
        }
        Ending::Deadlock => line.extend_from_slice(b"!Deadlock_detected\n")?,
        Ending::OutOfSteps => line.extend_from_slice(b"!Out_of_steps\n")?,
        Ending::Limit => line.extend_from_slice(b"!Limit\n")?,
    }
    Ok(())
}

/// Writes the line behind the trace of a run that has come to this domain, with all that is held back, and returns how the run ended.
fn end_run<K: Sink>(
    domain: &Domain,
    texts: &Texts,
    out: &mut Out,
    sink: &mut K,
    buffer: &mut Vec<u8>,
) -> Result<Ending, RunFault>
    requires come { IsOfRun texts.now domain.now }
    ensures ending { IfOk result (λ ending. (script : Read) (m : Mock) → StandsFor script texts.now domain.now m.local → ending ≡ ending_in script m) }
    ensures text { (script : Read) (m : Mock) → StandsFor script texts.now domain.now m.local → WritesText (K.held sink.old) (K.held sink.new) (out.old ++ model.last_line (ending_in script m) m) result }
    ensures cause { HasRunCause (K.faults sink.old) (K.faults sink.new) result }
{
    let ending = ending_of(domain);
    last_line(texts, ending, domain.body_end(), buffer)?;
    out.put(sink, buffer)?;
    out.flush(sink)?;
    Ok(ending)
}

/// Runs a domain that has just started for at most `steps` moves, writes their trace and the line behind it, and returns how it ended.
///
/// # Errors
/// `WriteFault` where the sink failed, `NoMemory` where memory runs out; a front of the text was written.
fn run_domain<K: Sink>(
    alloc: Global,
    script: &Script,
    domain: &mut Domain,
    texts: &mut Texts,
    objects: &mut Local,
    sink: &mut K,
    steps: u32,
) -> Result<Ending, RunFault>
    requires most { steps ≤ 1000000 }
    requires runnable { IsRunnable script.now }
    requires starts { Starts script.now 0 steps true domain.old }
    requires texts { texts.old ≡ opening_texts script.now }
    requires own { length script.now.texts ≤ length texts.old }
    requires objects { AreForMocked objects.old }
    ensures ending { IfOk result (λ ending. ending ≡ (ran script.now steps).ending) }
    ensures text { WritesText (K.held sink.old) (K.held sink.new) (ran script.now steps).text result }
    ensures raised { IfOk result (λ ending. (ending ≡ Ending.Raised) ↔ EndsRaised (run script.now steps).last.local) }
    ensures deadlock { IfOk result (λ ending. (ending ≡ Ending.Deadlock) ↔ IsStuck (run script.now steps).last.local) }
    ensures cause { HasRunCause (K.faults sink.old) (K.faults sink.new) result }
{
    let mut out = Out::new(alloc)?;
    let mut buffer = Vec::new(alloc);
    let mut told = Told::nothing();
    // The label is the loop's name in its proof.
    'running: for made in 0..steps {
        match domain.turn_told(script, texts, objects, &mut told)? {
            Turned::Moved(stamp) => {
                let names = script.names();
                write_told(&mut out, sink, texts, names, stamp, &told, &mut buffer)?
            }
            Turned::Idle | Turned::Spent | Turned::Halted => {
                return end_run(domain, texts, &mut out, sink, &mut buffer);
            }
        }
    }
    end_run(domain, texts, &mut out, sink, &mut buffer)
}

/// Runs a script for at most `steps` moves, writes its trace and the line behind it, and returns how it ended.
///
/// It ends with an exception, or in a deadlock, exactly where nothing is left to be done and no limit was met, and main has ended with an
/// exception, or hasn't ended.
///
/// # Errors
/// `WriteFault` where the sink failed, `NoMemory` where memory runs out; a front of the text was written.
pub(crate) fn run_script<K: Sink>(
    alloc: Global,
    script: &Script,
    sink: &mut K,
    steps: u32,
) -> Result<Ending, RunFault>
    requires some { 0 < steps }
    requires most { steps ≤ 1000000 }
    requires runnable { IsRunnable script.now }
    ensures ending { IfOk result (λ ending. ending ≡ (ran script.now steps).ending) }
    ensures text { WritesText (K.held sink.old) (K.held sink.new) (ran script.now steps).text result }
    ensures raised { IfOk result (λ ending. (ending ≡ Ending.Raised) ↔ EndsRaised (run script.now steps).last.local) }
    ensures deadlock { IfOk result (λ ending. (ending ≡ Ending.Deadlock) ↔ IsStuck (run script.now steps).last.local) }
    ensures cause { HasRunCause (K.faults sink.old) (K.faults sink.new) result }
{
    let mut texts = script.texts_of(alloc)?;
    let mut domain = Domain::start(alloc, script, MOCKED, steps, true)?;
    let mut objects = Local::make(alloc, texts.len());
    run_domain(
        alloc,
        script,
        &mut domain,
        &mut texts,
        &mut objects,
        sink,
        steps,
    )
}
