//! Sources and sinks: in memory, over readers and writers, and over those that fail.

use crate::log::{push_asked, push_count, push_heading, push_line, push_number};
use eio_value::NoMemory;
use std::alloc::Global;
use std::io;
use std::io::{ErrorKind, Read, Write};
use trace_out::{
    Failed, InputError, MemSink, MemSource, Sink, Source, StdSink, StdSource, read_input, write_all,
};

/// A reader and a writer that fail.
#[derive(Drop)]
struct Broken;

impl Read for Broken {
    fn read(&mut self, _buf: &mut [u8]) -> io::Result<usize> {
        Err(io::Error::from(ErrorKind::BrokenPipe))
    }
}

impl Write for Broken {
    fn write(&mut self, _buf: &[u8]) -> io::Result<usize> {
        Err(io::Error::from(ErrorKind::BrokenPipe))
    }

    fn flush(&mut self) -> io::Result<()> {
        Ok(())
    }
}

/// A writer that takes nothing.
#[derive(Drop)]
struct Stuck;

impl Write for Stuck {
    fn write(&mut self, _buf: &[u8]) -> io::Result<usize> {
        Ok(0)
    }

    fn flush(&mut self) -> io::Result<()> {
        Ok(())
    }
}

/// Five reads of at most three bytes: the bytes of each and a bar, or an exclamation mark.
fn push_reads<S: Source>(source: &mut S, log: &mut Vec<u8>) -> Result<(), NoMemory> {
    for _ in 0..5 {
        let mut piece = [0u8; 3];
        match source.read(&mut piece) {
            Ok(count) => {
                log.extend_from_slice(&piece[..count])?;
                log.push(b'|')?;
            }
            Err(Failed) => log.push(b'!')?,
        }
    }
    Ok(())
}

/// A bar for each byte that was taken, and a stop.
fn push_bars(log: &mut Vec<u8>, count: usize) -> Result<(), NoMemory> {
    for _ in 0..count {
        log.push(b'|')?;
    }
    log.push(b'.')?;
    Ok(())
}

/// Five writes of the letters that are left: a bar for each byte that one takes, and then a stop, or an
/// exclamation mark.
fn push_writes<K: Sink>(sink: &mut K, log: &mut Vec<u8>) -> Result<(), NoMemory> {
    let mut rest = b"abcdefghijklmnopqrstuvwxyz".as_slice();
    for _ in 0..5 {
        if rest.is_empty() {
            return Ok(());
        }
        match sink.write(rest) {
            Ok(count) => {
                push_bars(log, count)?;
                rest = &rest[count..];
            }
            Err(Failed) => log.push(b'!')?,
        }
    }
    Ok(())
}

/// What five reads give of this source, how many calls there were and how many failed.
fn answer_source(asked: &str, source: &mut MemSource, log: &mut Vec<u8>) -> Result<(), NoMemory> {
    push_asked(log, asked)?;
    push_reads(source, log)?;
    log.extend_from_slice(b" calls ")?;
    push_number(log, source.calls)?;
    log.extend_from_slice(b" faults ")?;
    push_number(log, source.faults)?;
    log.push(b'\n')?;
    Ok(())
}

/// A source in memory of these bytes, in pieces of at most so many, where one call fails.
fn source_of(alloc: Global, bytes: &str, most: usize, fails: u64) -> Result<MemSource, NoMemory> {
    Ok(MemSource {
        left: bytes.as_bytes().to_vec(alloc)?,
        most: most.max(1),
        failing: [fails].to_vec(alloc)?,
        calls: 0,
        faults: 0,
    })
}

/// Sources in memory: the bytes, the most bytes of a read and the read that fails.
fn answer_sources(alloc: Global, log: &mut Vec<u8>) -> Result<(), NoMemory> {
    let rows = [
        ("no bytes", "", 4, 0),
        ("abcdefg by 4", "abcdefg", 4, 0),
        ("abcdefg by 2", "abcdefg", 2, 0),
        ("abcdefg by 4, call 1 fails", "abcdefg", 4, 1),
        ("abcdefg by 4, call 3 fails", "abcdefg", 4, 3),
        ("ab by 4, call 2 fails", "ab", 4, 2),
    ];
    for (asked, bytes, most, fails) in rows {
        let mut source = source_of(alloc, bytes, most, fails)?;
        answer_source(asked, &mut source, log)?;
    }
    Ok(())
}

/// What five writes do to this sink, and what it holds then.
fn answer_sink(asked: &str, sink: &mut MemSink, log: &mut Vec<u8>) -> Result<(), NoMemory> {
    push_asked(log, asked)?;
    push_writes(sink, log)?;
    log.push(b' ')?;
    log.extend_from_slice(sink.held())?;
    log.push(b'\n')?;
    Ok(())
}

/// Sinks in memory: the room, the most bytes of a write and the write that fails.
fn answer_sinks(alloc: Global, log: &mut Vec<u8>) -> Result<(), NoMemory> {
    let rows = [
        ("room 26 by 8", 26, 8, 0),
        ("room 26 by 3, call 2 fails", 26, 3, 2),
        ("room 7 by 4", 7, 4, 0),
        ("room 7 by none", 7, 0, 0),
        ("no room by 4", 0, 4, 0),
    ];
    for (asked, room, most, fails) in rows {
        let mut sink = MemSink::new(alloc, room, most, [fails].to_vec(alloc)?)?;
        answer_sink(asked, &mut sink, log)?;
    }
    Ok(())
}

/// Writes seven bytes, and tells whether all were written, and what the sink holds then.
fn answer_whole(asked: &str, sink: &mut MemSink, log: &mut Vec<u8>) -> Result<(), NoMemory> {
    push_asked(log, asked)?;
    let answer = match write_all(sink, b"+abcdef") {
        Ok(()) => "whole ",
        Err(_) => "front ",
    };
    log.extend_from_slice(answer.as_bytes())?;
    log.extend_from_slice(sink.held())?;
    log.push(b'\n')?;
    Ok(())
}

/// Writes all bytes to sinks in memory: the room, the most bytes of a write and the write that fails.
fn answer_wholes(alloc: Global, log: &mut Vec<u8>) -> Result<(), NoMemory> {
    let rows = [
        ("+abcdef, room 9 by 4", 9, 4, 0),
        ("+abcdef, room 7 by 1", 7, 1, 0),
        ("+abcdef, room 9 by 4, call 2 fails", 9, 4, 2),
        ("+abcdef, room 6 by 4", 6, 4, 0),
        ("+abcdef, room 9 by none", 9, 0, 0),
    ];
    for (asked, room, most, fails) in rows {
        let mut sink = MemSink::new(alloc, room, most, [fails].to_vec(alloc)?)?;
        answer_whole(asked, &mut sink, log)?;
    }
    Ok(())
}

/// A reader of seven bytes, and one that fails, whose count of faults is near the greatest number.
fn answer_readers(log: &mut Vec<u8>) -> Result<(), NoMemory> {
    let mut letters = StdSource {
        from: b"abcdefg".as_slice(),
        faults: 0,
    };
    push_asked(log, "a reader of abcdefg")?;
    push_reads(&mut letters, log)?;
    log.push(b'\n')?;
    push_count(log, "its faults", letters.faults)?;
    let mut broken = StdSource {
        from: Broken,
        faults: u64::MAX - 3,
    };
    push_asked(log, "a reader that fails")?;
    push_reads(&mut broken, log)?;
    log.push(b'\n')?;
    push_count(
        log,
        "its faults, no more than can be counted",
        broken.faults,
    )
}

/// How this writer takes seven bytes, and how often it failed.
fn answer_writer<W: Write>(
    asked: &str,
    sink: &mut StdSink<W>,
    log: &mut Vec<u8>,
) -> Result<(), NoMemory> {
    push_asked(log, asked)?;
    let answer = match write_all(sink, b"+abcdef") {
        Ok(()) => "whole, faults ",
        Err(_) => "front, faults ",
    };
    log.extend_from_slice(answer.as_bytes())?;
    push_number(log, sink.faults)?;
    log.push(b'\n')?;
    Ok(())
}

/// Writers: one that takes all, one that fails and one that takes nothing.
fn answer_writers(alloc: Global, log: &mut Vec<u8>) -> Result<(), NoMemory> {
    let mut letters = StdSink {
        to: Vec::new(alloc),
        faults: 0,
    };
    answer_writer("a writer", &mut letters, log)?;
    push_line(log, "its bytes", &letters.to)?;
    let mut broken = StdSink {
        to: Broken,
        faults: 0,
    };
    answer_writer("a writer that fails", &mut broken, log)?;
    let mut stuck = StdSink {
        to: Stuck,
        faults: 0,
    };
    answer_writer("a writer that takes nothing", &mut stuck, log)
}

/// Two inputs of one source: the second meets a call that fails.
fn answer_inputs(source: &mut MemSource, alloc: Global, log: &mut Vec<u8>) -> Result<(), NoMemory> {
    for asked in ["an input", "the input behind it, whose read fails"] {
        match read_input(alloc, source) {
            Ok(input) => push_line(log, asked, &input)?,
            Err(InputError::Fault) => push_line(log, asked, b"fault")?,
            Err(InputError::NoMemory) => return Err(NoMemory),
        }
    }
    push_count(log, "reads", source.calls)?;
    push_count(log, "faults", source.faults)
}

/// Appends the answers of sources and sinks.
pub fn answer(alloc: Global, log: &mut Vec<u8>) -> Result<(), NoMemory> {
    push_heading(log, "sources in memory, five reads of at most three bytes")?;
    answer_sources(alloc, log)?;
    push_heading(
        log,
        "sinks in memory, five writes of the letters that are left",
    )?;
    answer_sinks(alloc, log)?;
    push_heading(log, "all bytes to a sink in memory")?;
    answer_wholes(alloc, log)?;
    push_heading(log, "readers and writers")?;
    answer_readers(log)?;
    answer_writers(alloc, log)?;
    push_heading(log, "inputs to their end")?;
    let mut source = source_of(alloc, "abcdefg", 3, 5)?;
    answer_inputs(&mut source, alloc, log)
}
