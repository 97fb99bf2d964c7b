//! Semaphores, mutexes and pools.
//!
//! Each is a [`Sem`], a [`Lock`] or a [`Pool`]: its data, and a list of the fibers that wait for it. Whether a fiber in that list still waits isn't
//! known here, since its wait may have been decided elsewhere; a call that wakes asks the fibers in order, through any `eio_value::Wake`, and the
//! dead to which it comes leave the list. So a call gives the step of the object's row in `spec_parts`, on the row without those dead. The theorems
//! are the clauses of the methods (`Meets`, where a call takes a `Wake`). All memory is taken by the constructors.
//!
//! What holds under any calls of the rows as they are defined is stated in specs/, and stands in src/laws.rt.
#![tactic(auto)]

mod laws;
mod lock;
mod pool;
mod sem;
mod waiting;

pub use laws::{counts_what_is_left, locked_in_turn, used_in_turn};
pub use lock::Lock;
pub use pool::Pool;
pub use sem::Sem;
