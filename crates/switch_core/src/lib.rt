//! The switches of one domain: which fibers are attached to each, what was raised into it, its release handlers, and who
//! waits in its `close`.
//!
//! Contracts see [`Switches`] as the definition's list of switches, by number. Each call is the definition's function of the
//! same name on the switch that it names, and leaves the others as they were: the theorems are the clauses of the methods of
//! [`Switches`]. A call that is refused, for whatever reason, leaves all switches as they were.
#![tactic(auto)]

mod answers;
mod fibers;
mod handler;
mod switch;
mod switches;

pub use answers::{CloseStep, Finished, ReleaseFault};
pub use handler::{Handler, HandlerVariables};
pub use switches::Switches;
