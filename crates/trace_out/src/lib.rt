//! What a run reads from and writes to: sources, sinks and gates.
//!
//! A run reaches the outside through two traits alone. A `Source` may tell which bytes are left and a
//! `Sink` which bytes it holds, and each counts its faults, so that a contract can name what was read,
//! what was written and which device was at fault. The devices in memory tell all and fail where they
//! are told to; those over std's readers and writers tell nothing.
//!
//! The definitions that the clauses cite stand in specs/: `Causes` (faults, and fronts that were
//! written), `Devices` (the sink in memory as a record, the numbers of calls), `Input` (what was read of an input),
//! `Outcome` (what a command reads and writes by the status that it answers), `Passing` (what a buffer has passed on).
#![tactic(auto)]

mod buffer;
mod gate;
mod input;
mod mem_sink;
mod mem_source;
mod sink;
mod source;
mod std_io;
mod writing;

pub use buffer::Out;
pub use gate::{Gate, OpenGate};
pub use input::{InputError, read_input};
pub use mem_sink::MemSink;
pub use mem_source::MemSource;
pub use sink::Sink;
pub use source::Source;
pub use std_io::{StdSink, StdSource};
pub use trace_lines::{Did, Line, Said2, Status, render_trace};
pub use writing::{WriteAll, write_all};

/// A read or a write that failed. What it left is said by the clauses of the call that answers it.
#[derive(Clone, Copy, Debug)]
pub struct Failed;
