//! The top call of the program: from words and an input to a trace and a status.
//!
//! [`eio_run`] carries the headline: its clauses `usage`, `text`, `read` and `cause` say what is read, what is written and
//! which status is answered, for every list of words, every source and every sink; `raised` and `deadlock` say why a run ends otherwise
//! than well.
#![tactic(auto)]

mod rest;
mod steps;
mod top;
mod words;

pub use top::eio_run;
