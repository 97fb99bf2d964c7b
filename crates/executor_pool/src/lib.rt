//! Executors: a queue of submitted jobs, workers in domains that run them, and the fibers that wait for their ends.
//!
//! An [`Exec`] is seen as its row in `spec_parts`. Whether a submitter still waits isn't known here, since its wait may have been decided elsewhere;
//! the end of a job asks the one fiber that waits for it, through any `eio_value::Wake`, and goes on without it where that came too late. The
//! theorems are the clauses of the methods. All memory is taken by the constructor.
//!
//! What holds under any calls of the row as it is defined is stated in specs/Working, and stands in src/laws.rt: no worker has more to do than it
//! can, and jobs start in order.
#![tactic(auto)]

mod crew;
mod exec;
mod laws;

pub use exec::Exec;
pub use laws::{start_in_order, weights_are_bounded};
