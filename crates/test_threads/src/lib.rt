//! What no clause says of the parts that threads share: that there is memory for them, that calls in several threads end, and that
//! waits which race on threads are won once each.
//!
//! These are the tests of `resume_cells` and `turn_lock`. They stand in a crate of their own since a crate with tests is proved twice.
//! Nothing stands on this crate.
#![tactic(auto)]

#[cfg(test)]
mod cells;
#[cfg(test)]
mod turns;
