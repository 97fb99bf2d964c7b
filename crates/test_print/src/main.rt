//! The program `eio-run` once more, for a stored run with the word `print`.
#![tactic(auto)]

use std::process::ExitCode;

fn main(rt: HostRuntime) -> ExitCode {
    cli_program::run_words(&rt)
}
