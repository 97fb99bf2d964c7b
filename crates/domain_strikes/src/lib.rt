//! The strikes that a domain owes for its cancellations: one for each waiting fiber that a cancellation reaches, in order of number.
//!
//! A domain makes them before anything else, so a cancellation that strikes anybody finds none owed. Only `new` takes memory. The theorems are the clauses
//! of the methods of [`Strikes`], by `spec_machine`'s `Duty` and `spec_parts`'s `Contexts`.
#![tactic(auto)]

mod strikes;
mod waiting_laws;

pub use strikes::{Strike, Strikes};
pub use waiting_laws::{
    calls_go_in_step, contexts_go_in_step, domains_go_in_step, fibers_go_in_step,
    strikes_go_in_step, struck_by_number, waiting_goes_in_step, waiting_is_by_standing,
};
