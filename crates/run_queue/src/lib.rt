//! The two lists by which a domain's scheduler goes: the fibers that can move, and the timers of those that sleep.
//!
//! Each is made with the most that may stand in it, and takes all its memory then. Each is seen as `spec_parts` defines it
//! (`ReadyList`, `Timers`), with that number beside it; the theorems are the clauses of the methods.
#![tactic(auto)]

mod laws;
mod ready;
mod timers;

pub use laws::timers_go_off_in_order;
pub use ready::Ready;
pub use timers::Timers;
