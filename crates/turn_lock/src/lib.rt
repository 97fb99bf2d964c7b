//! A value that threads take in turns, and the one history that it stands for.
//!
//! A [`Turn`] is a ticket lock round one value. Threads reach it through passes, each of which enters, has the value, and
//! leaves with one entry more. Whenever nobody holds the turn, the value stands for the whole list of entries, in the order
//! in which the turns were given on ([`Kept`] says what "stands for" means of a value). So every thread that enters finds a
//! value that one thread could have made, by entries that begin with all that its pass had seen: `enter`, clauses `value`
//! and `seen`. Where the turn is closed, each pass's entries are just those of its own calls of `leave`, in its order, and
//! there are no others: `close`.
//!
//! Nothing is said of who comes when, nor that anybody does.
#![tactic(auto)]

mod crossing;
mod kept;
pub mod numbers;
mod rule;
mod turn;
mod view;

pub use crossing::crosses_threads;
pub use kept::{Kept, Names};
pub use turn::{Pass, PassOf, Turn};
