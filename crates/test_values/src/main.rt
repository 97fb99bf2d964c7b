//! What no clause says of values and devices: that their calls get through where there is memory, and what
//! is answered at values from outside.
//!
//! Each line tells what is asked and what is answered. The wanted answers stand in the file `stdout`, in the order of
//! the modules.
#![tactic(auto)]

mod devices;
mod exceptions;
mod lines;
mod log;
mod texts;

use eio_value::NoMemory;
use std::alloc::Global;
use std::io;
use std::process::ExitCode;
use trace_out::{StdSink, write_all};

/// Appends the answers of all modules.
fn answer_all(alloc: Global, log: &mut Vec<u8>) -> Result<(), NoMemory> {
    texts::answer(alloc, log)?;
    exceptions::answer(alloc, log)?;
    lines::answer(alloc, log)?;
    devices::answer(alloc, log)
}

fn main(rt: HostRuntime) -> ExitCode {
    let mut log = Vec::new(rt.alloc());
    let answered = answer_all(rt.alloc(), &mut log);
    let mut sink = StdSink {
        to: io::writer(&rt),
        faults: 0,
    };
    match (answered, write_all(&mut sink, &log)) {
        (Ok(()), Ok(())) => ExitCode::SUCCESS,
        _ => ExitCode::FAILURE,
    }
}
