//! Rows of tests: a script, or a part of one, and what the library answers to it.
//!
//! The program reads rows from standard input, one a line, and writes each of them with its answer below it. The file `stdin` has the
//! rows, and `stdout` what has to be written. The answers there weren't taken from this program: they were worked out by hand from the
//! rules, or another program by the same rules gave them. A row begins with the word of its kind, which a module answers: `run`
//! ([`commands`]); `tree`, `spelled` and `build` ([`trees`]); `script`, `again`, `refused`, `parts`, `text` and `generate` ([`scripts`]);
//! `first`, `second`, `inner`, `branches`, `promising` and `ends` ([`fibers`]). What stands in braces is repeated ([`pieces`]).
#![tactic(auto)]

mod commands;
mod fibers;
mod pieces;
mod scripts;
mod spelling;
mod trees;
mod unanswered;

use domain_core::Domain;
use fiber_step::Fiber;
use mock_backend::Local;
use std::alloc::Global;
use std::io;
use std::io::Print;
use std::rt::Files;
use std::sync::Wait;
use std::thread::Threads;
use trace_out::Line;
use unanswered::Unanswered;

/// Only of types that may move to another thread.
fn may_move<T: Send>() {}

/// The answer to the rows of a kind that run no command.
fn answer_to_part(
    alloc: Global,
    kind: &str,
    rest: &str,
    out: &mut String,
) -> Result<(), Unanswered> {
    let (word, input) = pieces::split_at_bar(rest);
    match kind {
        "tree" | "spelled" | "build" => trees::answer(alloc, kind, input, out),
        "first" | "second" | "inner" | "branches" | "promising" | "ends" => {
            fibers::answer(alloc, kind, word, input, out)
        }
        _ => scripts::answer(alloc, kind, word, input, out),
    }
}

/// Writes a row, and the answer to it below.
fn show<R: Threads + Wait + Sync + Files + Print + AllocGlobal>(
    rt: &R,
    row: &str,
) -> io::Result<()> {
    println!(rt; "{row}")?;
    if row.is_empty() || row.starts_with('#') {
        return Ok(());
    }
    let mut out = String::new(rt.alloc());
    match answer(rt, row, &mut out) {
        Ok(()) => print!(rt; "{out}"),
        Err(Unanswered) => println!(rt; "{out}  no answer"),
    }
}

/// The answer to a row.
fn answer<R: Threads + Wait + Sync + Files + AllocGlobal>(
    rt: &R,
    row: &str,
    out: &mut String,
) -> Result<(), Unanswered> {
    let whole = pieces::written_out(rt.alloc(), row)?;
    let (kind, rest) = whole.split_once(' ').unwrap_or((whole.as_str(), ""));
    match kind {
        "run" => commands::answer(rt, rest, out),
        _ => answer_to_part(rt.alloc(), kind, rest, out),
    }
}

fn main(rt: HostRuntime) -> io::Result<()> {
    may_move::<Domain>();
    may_move::<Fiber>();
    may_move::<Line>();
    may_move::<Local>();
    let rows = io::read_to_string(rt.alloc(), rt.reader())?;
    for row in rows.lines() {
        show(&rt, row)?;
    }
    Ok(())
}
