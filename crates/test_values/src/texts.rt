//! The table of texts, and how values are written by it.

ghost use Rattle.std.specs.Prelude.{◌≡◌, []};
ghost use Rattle.eio_value.specs.Values.{HasTextsOf};

use crate::log::{push_asked, push_count, push_heading, push_line};
use eio_value::{NoMemory, Operands, Texts, Value, quote, show};
use std::alloc::Global;

/// A value as it is shown, and the same within quotes where it is a text.
fn push_value(texts: &Texts, log: &mut Vec<u8>, asked: &str, value: Value) -> Result<(), NoMemory>
    requires { HasTextsOf texts.now value }
{
    push_asked(log, asked)?;
    show(texts, value, log)?;
    log.push(b' ')?;
    quote(texts, value, log)?;
    log.push(b'\n')?;
    Ok(())
}

/// What an empty table answers to two texts, one of which comes twice, and to a third once it was cut short.
fn answer_in(texts: &mut Texts, log: &mut Vec<u8>) -> Result<(), NoMemory>
    requires { texts.old ≡ [] }
{
    let plain = texts.intern(b"a")?;
    let escaped = texts.intern(b"\"\n")?;
    let again = texts.intern(b"a")?;
    push_count(log, "number of a", plain.0 as u64)?;
    push_count(log, "number of the second text", escaped.0 as u64)?;
    push_count(log, "number of a again", again.0 as u64)?;
    push_count(log, "texts", texts.len() as u64)?;
    push_line(log, "bytes of the second text", texts.bytes(escaped))?;
    push_value(texts, log, "the second text", Value::Text(escaped))?;
    texts.truncate(1);
    push_count(log, "texts, cut to one", texts.len() as u64)?;
    push_count(log, "number of b", texts.intern(b"b")?.0 as u64)
}

/// Values that hold no text.
fn answer_values(texts: &Texts, log: &mut Vec<u8>) -> Result<(), NoMemory> {
    push_value(texts, log, "an integer", Value::Int(-5))?;
    push_value(texts, log, "unit", Value::Unit)?;
    push_value(texts, log, "a context", Value::Ctx(12))?;
    push_value(texts, log, "a switch", Value::Switch(0))
}

/// How many operands there are when none, one and two were put together, and the last of them.
fn answer_operands(log: &mut Vec<u8>) -> Result<(), NoMemory> {
    let none = Operands::none();
    let one = none.with(Value::Int(-5));
    let two = one.with(Value::Unit);
    push_count(log, "no operands", none.as_slice().len() as u64)?;
    push_count(log, "one operand", one.as_slice().len() as u64)?;
    push_count(log, "two operands", two.as_slice().len() as u64)
}

/// Appends the answers of tables of texts, of values and of operands.
pub fn answer(alloc: Global, log: &mut Vec<u8>) -> Result<(), NoMemory> {
    push_heading(log, "texts and values")?;
    let mut texts = Texts::new(alloc);
    answer_in(&mut texts, log)?;
    answer_values(&texts, log)?;
    answer_operands(log)
}
