//! The lines of the trace that a move writes.
//!
//! `render_trace` appends all of them or nothing. The others append to bytes, and may have appended a part where memory
//! ends; what was there before still stands in front (`IsFront`). Which lines a move writes is said by `trace_text` of
//! specs/TraceTexts.
ghost use Rattle.std.specs.Prelude.{◌≡◌, [], ◌∷◌, ◌++◌, ◌<◌, length, take, All, OnOk, OnErr};
ghost use Rattle.std.specs.List.{flat_map};
ghost use Rattle.eio_value.specs.Appending.{IsFront};
ghost use Rattle.eio_value.specs.Escapes.{quoted};
ghost use Rattle.eio_value.specs.Table.{HasText, text_at};
ghost use Rattle.eio_value.specs.Values.{HasTextsOf, show};
ghost use Rattle.trace_lines.specs.Names.{name_at};
ghost use Rattle.trace_lines.specs.TraceTexts.{CanTrace, CanSay, HasFlowLine, flow_line, said_text, traced, trace_text};

use crate::{Did, Line};
use eio_value::{NoMemory, Said, TextId, Texts, Value, quote, show};

/// Appends the lines of the trace that this move writes; most moves write none.
///
/// # Errors
///
/// `NoMemory`; then nothing was appended.
pub fn render_trace(
    texts: &Texts,
    names: &[TextId],
    line: &Line,
    out: &mut Vec<u8>,
) -> Result<(), NoMemory>
    requires names { All (HasText texts.now) names.now }
    requires line { CanTrace texts.now names.now line.now.did }
    ensures ok { OnOk result (out.new.items ≡ out.old.items ++ trace_text texts.now names.now line.now) }
    ensures err { OnErr result (out.new.items ≡ out.old.items) }
{
    let before = out.len();
    let pushed = push_traced(texts, names, &line.did, out);
    if pushed.is_err() {
        out.truncate(before);
    }
    pushed
}

/// Appends the lines of a move that did this.
fn push_traced(
    texts: &Texts,
    names: &[TextId],
    did: &Did,
    out: &mut Vec<u8>,
) -> Result<(), NoMemory>
    requires names { All (HasText texts.now) names.now }
    requires did { CanTrace texts.now names.now did.now }
    ensures ok { OnOk result (out.new.items ≡ out.old.items ++ traced texts.now names.now did.now) }
    ensures front { IsFront out.old.items out.new.items }
{
    match did {
        Did::Trace(operands) => {
            push_bytes(b"+", out)?;
            push_values(texts, operands.as_slice(), out)?;
            push_bytes(b"\n", out)
        }
        Did::Tick(now) => {
            push_bytes(b"+mock time is now ", out)?;
            show(texts, Value::Int(*now), out)?;
            push_bytes(b"\n", out)
        }
        Did::Mock(said) => push_said(texts, names, *said, out),
        _ => Ok(()),
    }
}

/// Appends the texts of values, one behind the other.
fn push_values(texts: &Texts, values: &[Value], out: &mut Vec<u8>) -> Result<(), NoMemory>
    requires { All (HasTextsOf texts.now) values.now }
    ensures ok { OnOk result (out.new.items ≡ out.old.items ++ flat_map (show texts.now) values.now) }
    ensures front { IsFront out.old.items out.new.items }
{
    for value in values {
        show(texts, *value, out)?;
    }
    Ok(())
}

/// Appends the lines of a call on the outside.
fn push_said(texts: &Texts, names: &[TextId], said: Said, out: &mut Vec<u8>) -> Result<(), NoMemory>
    requires names { All (HasText texts.now) names.now }
    requires said { CanSay texts.now names.now said }
    ensures ok { OnOk result (out.new.items ≡ out.old.items ++ said_text texts.now names.now said) }
    ensures front { IsFront out.old.items out.new.items }
{
    match said {
        Said::Nothing => Ok(()),
        Said::Read(flow, bytes) => push_flow_line(texts, names, flow, b"read", bytes, out),
        Said::Wrote(flow, bytes) => push_flow_line(texts, names, flow, b"wrote", bytes, out),
        Said::Copied(from, to, bytes) => {
            push_flow_line(texts, names, from, b"read", bytes, out)?;
            push_flow_line(texts, names, to, b"wrote", bytes, out)
        }
    }
}

/// Appends the line that says what was done with these bytes of a flow.
fn push_flow_line(
    texts: &Texts,
    names: &[TextId],
    flow: u32,
    what: &[u8],
    bytes: TextId,
    out: &mut Vec<u8>,
) -> Result<(), NoMemory>
    requires names { All (HasText texts.now) names.now }
    requires line { HasFlowLine texts.now names.now flow bytes }
    ensures ok { OnOk result (out.new.items ≡ out.old.items ++ flow_line texts.now names.now flow what.now bytes) }
    ensures front { IsFront out.old.items out.new.items }
{
    push_bytes(b"+", out)?;
    push_bytes(name_of(texts, names, flow), out)?;
    push_bytes(b": ", out)?;
    push_done(texts, what, bytes, out)
}

/// The name of the declaration with this number.
fn name_of<'t>(texts: &'t Texts, names: &[TextId], number: u32) -> &'t [u8]
    requires names { All (HasText texts.now) names.now }
    requires number { number < length names.now }
    ensures { result.now ≡ name_at texts.now names.now number }
{
    texts.bytes(names[number as usize])
}

/// Appends what was done, and the bytes that it was done with, to the end of the line.
fn push_done(texts: &Texts, what: &[u8], bytes: TextId, out: &mut Vec<u8>) -> Result<(), NoMemory>
    requires { HasText texts.now bytes }
    ensures ok { OnOk result (out.new.items ≡ out.old.items ++ (what.now ++ 32 ∷ quoted (text_at texts.now bytes)) ++ 10 ∷ []) }
    ensures front { IsFront out.old.items out.new.items }
{
    push_bytes(what, out)?;
    push_bytes(b" ", out)?;
    quote(texts, Value::Text(bytes), out)?;
    push_bytes(b"\n", out)
}

/// Appends bytes as they are.
fn push_bytes(bytes: &[u8], out: &mut Vec<u8>) -> Result<(), NoMemory>
    ensures ok { OnOk result (out.new.items ≡ out.old.items ++ bytes.now) }
    ensures front { IsFront out.old.items out.new.items }
{
    out.extend_from_slice(bytes)?;
    Ok(())
}
