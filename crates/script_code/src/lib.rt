//! A script as fibers run it: its nodes by their numbers, and the table of texts that it starts with.
//!
//! Invariant: the tree beside it is read as this script. The theorems are the clauses of [`Script::new`], which makes one of what was
//! read, and of the calls on its parts; a fiber needs no more of reading than these.
#![tactic(auto)]

mod features;
mod opening;
mod script;
mod table;

pub use script::{Parts, Script};
