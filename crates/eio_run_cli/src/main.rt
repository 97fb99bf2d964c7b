//! The program `eio-run`. What it does is said in `cli_program`.
#![tactic(auto)]

use std::process::ExitCode;

fn main(rt: HostRuntime) -> ExitCode {
    cli_program::run_words(&rt)
}
