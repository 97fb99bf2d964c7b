//! From the words of the command line to an exit status.

#[cfg(test)]
mod tests;

use crate::keeping::{KeepingSink, KeepingSource};
use crate::notes;
use eio_run::eio_run;
use std::io::{Eprint, Input, Print};
use std::process::ExitCode;
use std::rt::Env;
use std::sync::Wait;
use std::thread::Threads;
use std::{env, io};
use trace_out::{OpenGate, Status, StdSink, StdSource};

/// How a run ends whose words can't be read: one that isn't UTF-8 has no meaning, and else memory is wanting.
fn unread(error: &io::Error) -> Status {
    match error.kind() {
        io::ErrorKind::InvalidData => Status::Usage,
        _ => Status::NoMemory,
    }
}

/// The words behind the program's name, or how a run without them ends.
fn words_of(rt: &(impl Env + AllocGlobal)) -> Result<Vec<String>, Status> {
    let mut words = Vec::new(rt.alloc());
    let arguments = env::args(rt).map_err(|error| unread(&error))?;
    for word in arguments.skip(1) {
        words.push(word).map_err(|_refused| Status::NoMemory)?;
    }
    Ok(words)
}

/// Does what the words of the command line ask for, and gives the exit status.
pub fn run_words<R>(rt: &R) -> ExitCode
where
    R: Threads + Wait + Sync + Env + Input + Print + Eprint + AllocGlobal,
{
    let mut source = KeepingSource {
        source: StdSource {
            from: rt.reader(),
            faults: 0,
        },
        kept: Vec::new(rt.alloc()),
        is_whole: true,
    };
    let mut sink = KeepingSink {
        sink: StdSink {
            to: io::writer(rt),
            faults: 0,
        },
        kept: Vec::new(rt.alloc()),
    };
    let status = match words_of(rt) {
        Ok(words) => eio_run(rt, rt.alloc(), &words, &mut source, &mut sink, &OpenGate),
        Err(status) => status,
    };
    match status {
        Status::Refused if source.is_whole => notes::show_refusal(rt, &source.kept, &sink.kept),
        _ => notes::show_ending(rt, status),
    }
    ExitCode::from(status.code())
}
