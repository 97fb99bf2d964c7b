//! Notes on standard error. Where that fails too, or memory does, nothing is left to be done.
ghost use Rattle.std.specs.Prelude.{◌≤◌, length};

#[cfg(test)]
mod tests;

use crate::line_column::{Span, line_around, place_after, shown_part};
use eio_value::NoMemory;
use std::alloc::Global;
use std::io::Eprint;
use std::str;
use trace_out::Status;

/// The most bytes that are read of an input.
const MOST_READ: usize = 262_145;

/// The commands, below the line that says that the words have no meaning.
const SYNOPSIS: &str = "eio-run: usage
  eio-run mock [--steps N]   runs the script on standard input, in at most N moves
  eio-run check              says whether standard input is a script
  eio-run print              writes the script on standard input in its canonical spelling";

/// What is said of an ending that the trace doesn't show.
fn note_of(status: Status) -> Option<&'static str> {
    match status {
        Status::Usage => Some(SYNOPSIS),
        Status::ReadFault => Some("eio-run: standard input failed"),
        Status::WriteFault => Some("eio-run: standard output failed"),
        Status::NoMemory => Some("eio-run: memory was refused"),
        _ => None,
    }
}

/// Shows why a run came to no answer, where it did.
pub(crate) fn show_ending(rt: &impl Eprint, status: Status) {
    if let Some(note) = note_of(status) {
        let _ = eprintln!(rt; "{note}");
    }
}

/// The offset at the end of the line of a refusal, where it has one.
fn offset_in(line: &[u8]) -> Option<usize> {
    let text = str::from_utf8(line).ok()?;
    text.trim_end().rsplit_once(' ')?.1.parse().ok()
}

/// A byte as it is shown: one column wide.
fn shown_byte(byte: u8) -> char {
    if byte == b' ' || byte.is_ascii_graphic() {
        byte as char
    } else {
        '.'
    }
}

/// What stands for the part of a line that isn't shown.
const CUT: &str = "..";

/// Appends some bytes of a line as they are shown.
fn push_shown(text: &mut String, bytes: &[u8]) -> Result<(), NoMemory> {
    for byte in bytes {
        text.push(shown_byte(*byte))?;
    }
    Ok(())
}

/// Appends so many blanks.
fn push_blanks(text: &mut String, count: usize) -> Result<(), NoMemory> {
    for _ in 0..count {
        text.push(' ')?;
    }
    Ok(())
}

/// Appends the part of a line that is shown, with a sign where it is cut, and below it a mark at the place.
fn push_marked(text: &mut String, input: &[u8], line: Span, at: usize) -> Result<(), NoMemory>
    requires begin { line.begin ≤ at }
    requires place { at ≤ line.end }
    requires end { line.end ≤ length input.now }
{
    let shown = shown_part(line, at);
    let front = if line.begin < shown.begin { CUT } else { "" };
    let back = if shown.end < line.end { CUT } else { "" };
    text.push_str(front)?;
    push_shown(text, &input[shown.begin..shown.end])?;
    text.push_str(back)?;
    text.push('\n')?;
    push_blanks(text, front.len())?;
    push_blanks(text, at - shown.begin)?;
    text.push('^')?;
    Ok(())
}

/// The line around an offset of the input as it is shown, below its number and the column.
fn refusal_note(alloc: Global, input: &[u8], at: usize) -> Result<String, NoMemory>
    requires at { at ≤ length input.now }
    requires most { length input.now ≤ 262145 }
{
    let place = place_after(&input[..at]);
    let line = place.line;
    let column = place.column;
    let mut text = format!(in alloc; "eio-run: refused at line {line}, column {column}\n")?;
    push_marked(&mut text, input, line_around(input, at, column), at)?;
    Ok(text)
}

/// Shows the place that the line of a refusal names in the input: its line and column, and the line with a mark.
pub(crate) fn show_refusal(rt: &(impl Eprint + AllocGlobal), input: &[u8], refusal: &[u8]) {
    let Some(at) = offset_in(refusal) else {
        return;
    };
    if input.len() < at || MOST_READ < input.len() {
        return;
    }
    if let Ok(text) = refusal_note(rt.alloc(), input, at) {
        let _ = eprintln!(rt; "{text}");
    }
}
