//! Rows of commands: `run WORDS | INPUT`, with what is written, indented by four, and the status below it.
//!
//! The input comes, and the text is taken, in pieces of 1, 7 and 4,096 bytes; where the answers differ, each is shown. In a row
//! `run WORDS | READ FAILS WRITE FAILS | INPUT` four numbers say how the devices are: the most bytes of a read, the number of the read that
//! fails, and the same of writes; 0 where none fails. `run WORDS < FILE` has its input in a file of `data/`, and `run WORDS < FILE > FILE`
//! also what has to be written.

ghost use Rattle.std.specs.Prelude.{◌≤◌};

use crate::pieces::split_at_bar;
use crate::unanswered::Unanswered;
use eio_run::eio_run;
use std::alloc::{AllocError, Global};
use std::rt::Files;
use std::sync::Wait;
use std::thread::Threads;
use std::{fs, str};
use trace_out::{MemSink, MemSource, OpenGate, Status};

/// More room, in bytes, than any text here needs.
const ROOM: usize = 1_048_576;

/// How a source and a sink in memory are.
#[derive(Clone, Copy)]
struct Devices {
    read_most: usize,
    read_fails: u64,
    write_most: usize,
    write_fails: u64,
}

/// Devices that don't fail, with pieces of at most so many bytes.
fn sound(most: usize) -> Devices {
    Devices {
        read_most: most,
        read_fails: 0,
        write_most: most,
        write_fails: 0,
    }
}

/// The devices that four numbers describe.
fn devices_in(text: &str) -> Option<Devices> {
    let mut numbers = text.split_whitespace();
    Some(Devices {
        read_most: numbers.next()?.parse().ok()?,
        read_fails: numbers.next()?.parse().ok()?,
        write_most: numbers.next()?.parse().ok()?,
        write_fails: numbers.next()?.parse().ok()?,
    })
}

/// Puts the words of a command line behind others.
fn push_words(words: &mut Vec<String>, alloc: Global, line: &str) -> Result<(), Unanswered> {
    for word in line.split_whitespace() {
        words.push(String::from_str(alloc, word)?)?;
    }
    Ok(())
}

/// The words of a command line.
fn words_of(alloc: Global, line: &str) -> Result<Vec<String>, Unanswered> {
    let mut words = Vec::new(alloc);
    push_words(&mut words, alloc, line)?;
    Ok(words)
}

/// A source of an input.
fn source_of(alloc: Global, input: &str, devices: Devices) -> Result<MemSource, AllocError> {
    let left = input.as_bytes().to_vec(alloc)?;
    let failing = [devices.read_fails].to_vec(alloc)?;
    Ok(MemSource {
        left,
        most: devices.read_most.max(1),
        failing,
        calls: 0,
        faults: 0,
    })
}

/// An empty sink.
fn sink_of(alloc: Global, devices: Devices) -> Result<MemSink, Unanswered> {
    let failing = [devices.write_fails].to_vec(alloc)?;
    Ok(MemSink::new(alloc, ROOM, devices.write_most, failing)?)
}

/// Shows what was written.
fn push_held(out: &mut String, held: &str, wanted: Option<&str>) -> Result<(), AllocError> {
    if wanted == Some(held) {
        return out.push_str("    what the file has\n");
    }
    for line in held.lines() {
        write!(out, "    {line}\n")?;
    }
    Ok(())
}

/// Shows the status, whether the last line was cut, and how many bytes of the input are left where some are.
fn push_end(out: &mut String, status: Status, held: &str, left: usize) -> Result<(), AllocError> {
    write!(out, "  {status:?}")?;
    if !held.is_empty() && !held.ends_with('\n') {
        out.push_str(" in mid-line")?;
    }
    if left != 0 {
        write!(out, ", {left} bytes left")?;
    }
    out.push('\n')
}

/// Shows the answer of a run.
fn push_answer(
    out: &mut String,
    held: &[u8],
    wanted: Option<&str>,
    status: Status,
    left: usize,
) -> Result<(), AllocError> {
    let held = str::from_utf8(held).unwrap_or("no UTF-8");
    push_held(out, held, wanted)?;
    push_end(out, status, held, left)
}

/// What an input is answered with these devices.
fn answer_with<R: Threads + Wait + Sync + AllocGlobal>(
    rt: &R,
    words: &[String],
    input: &str,
    wanted: Option<&str>,
    devices: Devices,
) -> Result<String, Unanswered> {
    let mut source = source_of(rt.alloc(), input, devices)?;
    let mut sink = sink_of(rt.alloc(), devices)?;
    let status = eio_run(rt, rt.alloc(), words, &mut source, &mut sink, &OpenGate);
    let mut text = String::new(rt.alloc());
    push_answer(&mut text, sink.held(), wanted, status, source.left.len())?;
    Ok(text)
}

/// Shows the answers to an input in pieces of different sizes, where they differ.
fn push_answers<R: Threads + Wait + Sync + AllocGlobal>(
    rt: &R,
    words: &[String],
    input: &str,
    wanted: Option<&str>,
    out: &mut String,
) -> Result<(), Unanswered> {
    let first = answer_with(rt, words, input, wanted, sound(4096))?;
    out.push_str(&first)?;
    for most in [7, 1] {
        let text = answer_with(rt, words, input, wanted, sound(most))?;
        if text.as_str() != first.as_str() {
            write!(out, "  in pieces of {most}:\n{text}")?;
        }
    }
    Ok(())
}

/// The answer to an input, which the numbers of the devices may stand before.
fn answer_to_input<R: Threads + Wait + Sync + AllocGlobal>(
    rt: &R,
    words: &[String],
    rest: &str,
    out: &mut String,
) -> Result<(), Unanswered> {
    if !rest.contains('|') {
        return push_answers(rt, words, rest, None, out);
    }
    let (numbers, input) = split_at_bar(rest);
    let devices = devices_in(numbers).ok_or(Unanswered)?;
    let text = answer_with(rt, words, input, None, devices)?;
    out.push_str(&text)?;
    Ok(())
}

/// The answer to the input in a file, where what has to be written may be in another one.
fn answer_to_file<R: Threads + Wait + Sync + Files + AllocGlobal>(
    rt: &R,
    words: &[String],
    files: &str,
    out: &mut String,
) -> Result<(), Unanswered> {
    let Some((from, to)) = files.split_once('>') else {
        let input = fs::read_to_string(rt, files.trim())?;
        return push_answers(rt, words, &input, None, out);
    };
    let input = fs::read_to_string(rt, from.trim())?;
    let wanted = fs::read_to_string(rt, to.trim())?;
    push_answers(rt, words, &input, Some(wanted.as_str()), out)
}

/// The answer to a row.
pub(crate) fn answer<R: Threads + Wait + Sync + Files + AllocGlobal>(
    rt: &R,
    row: &str,
    out: &mut String,
) -> Result<(), Unanswered> {
    match row.split_once('<') {
        Some((line, files)) => {
            let words = words_of(rt.alloc(), line)?;
            answer_to_file(rt, &words, files, out)
        }
        None => {
            let (line, rest) = split_at_bar(row);
            let words = words_of(rt.alloc(), line)?;
            answer_to_input(rt, &words, rest, out)
        }
    }
}
