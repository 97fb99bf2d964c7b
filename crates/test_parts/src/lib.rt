//! What no clause says of the parts of a domain: that their calls get their memory, what they answer on small examples, and which of
//! them may move to another thread.
//!
//! These are the tests of the crates of parts that aren't shared objects, a file a crate. They stand in a crate of their own since a
//! crate with tests is proved twice. Nothing stands on this crate.
#![tactic(auto)]

mod moving;

pub use moving::parts_may_move;

#[cfg(test)]
mod contexts;
#[cfg(test)]
mod flows;
#[cfg(test)]
mod groups;
#[cfg(test)]
mod paths;
#[cfg(test)]
mod queues;
#[cfg(test)]
mod strikes;
#[cfg(test)]
mod switches;
