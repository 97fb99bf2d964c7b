//! The body of the program `eio-run`: the words of the command line, standard input and standard output, handed to the top call.
//!
//! Nothing is decided here but that a word that isn't UTF-8 has no meaning. What is read, written and answered is said by the
//! contract of `eio_run`; that the words and the status are passed on is shown by stored runs alone, those of the programs whose
//! `main` is [`run_words`]. Standard error has notes for people, which nothing promises.
#![tactic(auto)]

mod keeping;
mod line_column;
mod notes;
mod program;

pub use program::run_words;
