//! The engine: one domain of fibers, moved one line at a time over any objects.
//!
//! A [`Domain`] is proved once over any [`Extras`](eio_value::Extras): plain objects of a mocked domain, or those that domains
//! on threads share. What it keeps stands for a domain of the definitions (`StandsFor`, specs/Turns), and one
//! [`Domain::turn`] is one of its moves (`DomainMoves` of `spec_machine`), with the calls on the objects by which it came, in order, and
//! their answers (`Turns`). Fibers and contexts that have ended are forgotten.
//!
//! Built are the forms of exceptions, cancellation, switches and groups (`HasBuiltForms` of `law_domain`). What holds between two moves of such a
//! script is `StandsWell` of `law_domain`, and that each move keeps it is a law of the definitions; the calls of fibers rest on what follows
//! from it (`specs/Conditions`).
#![tactic(auto)]

mod answers;
mod calls;
mod closing;
mod context_calls;
mod domain;
mod ending;
mod fiber;
mod fibers;
mod group_calls;
mod parts;
mod standing;
mod strikes;
mod switch_calls;
mod told;
mod turn;

pub use domain::Domain;
pub use told::Told;
pub use turn::{Turn, Turned};
