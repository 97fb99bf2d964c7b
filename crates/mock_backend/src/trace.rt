//! The lines of the trace.
ghost use Rattle.std.specs.Prelude.{◌≡◌, ◌++◌, ℕ, List, [], false, All, OnErr, OnOk};
ghost use Rattle.eio_value.specs.Table.{HasText};
ghost use Rattle.trace_lines.specs.TraceTexts.{CanTrace, traced};
ghost use Rattle.trace_out.specs.Causes.{AppendsFront};
ghost use Rattle.trace_out.specs.Passing.{PassesOn};
ghost use Rattle.mock_backend.specs.Faults.{HasRunCause};

use crate::fault::RunFault;
use crate::run::MOCKED;
use domain_core::Told;
use eio_value::{TextId, Texts};
use trace_out::{Did, Out, Sink, render_trace};

/// Whether a move that did this writes lines of the trace. Where none is written nothing is looked at but this.
fn writes_lines(did: &Did) -> bool
    ensures { result ≡ false → (texts : List (List ℕ)) (names : List TextId) → traced texts names did.now ≡ [] }
{
    matches!(did, Did::Trace(_) | Did::Tick(_) | Did::Mock(_))
}

/// Puts the lines of the trace that a move writes behind what is held back; most moves write none. One buffer serves all moves of a run.
///
/// # Errors
/// `WriteFault` where the sink failed, `NoMemory` where memory runs out; a front of what was held back and of the lines was written.
pub(crate) fn write_told<K: Sink>(
    out: &mut Out,
    sink: &mut K,
    texts: &Texts,
    names: &[TextId],
    stamp: u64,
    told: &Told,
    buffer: &mut Vec<u8>,
) -> Result<(), RunFault>
    requires names { All (HasText texts.now) names.now }
    requires told { CanTrace texts.now names.now told.now.did }
    ensures ok { OnOk result (PassesOn (K.held sink.old) (K.held sink.new) out.old (traced texts.now names.now told.now.did) out.new) }
    ensures err { OnErr result (AppendsFront (K.held sink.old) (K.held sink.new) (out.old ++ traced texts.now names.now told.now.did)) }
    ensures cause { HasRunCause (K.faults sink.old) (K.faults sink.new) result }
{
    if !writes_lines(&told.did) {
        return Ok(());
    }
    buffer.clear();
    render_trace(texts, names, &told.line(stamp, MOCKED), buffer)?;
    out.put(sink, buffer)?;
    Ok(())
}
