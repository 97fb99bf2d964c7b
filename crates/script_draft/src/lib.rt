//! What a script is read with: a place in its tree, what was made of it so far, and the names in scope.
//!
//! Invariant: a step of reading gives what the definitions' step of the same name gives, and makes what that makes: the clauses
//! of the calls of [`Cursor`], [`Draft`] and [`Scope`] say it, in the words of `specs/Readings`.
#![tactic(auto)]

mod cursor;
mod draft;
mod kind;
mod limited;
mod scope;

pub use cursor::{Cursor, Number, Text, Word};
pub use draft::{Draft, Finished};
pub use kind::Kind;
pub use limited::number_within;
pub use scope::{Named, Scope, named_in};
