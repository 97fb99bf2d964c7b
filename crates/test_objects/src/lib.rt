//! What no clause says of the shared objects: that their constructors get their memory, what calls answer on small examples, and that
//! each may move to another thread.
//!
//! These are the tests of `wait_list` and of the crates over it, a file a crate. They stand in a crate of their own since a crate with
//! tests is proved twice. Nothing stands on this crate.
#![tactic(auto)]

mod moving;

pub use moving::objects_may_move;

#[cfg(test)]
mod executors;
#[cfg(test)]
mod objects;
#[cfg(test)]
mod promises;
#[cfg(test)]
mod resources;
#[cfg(test)]
mod streams;
#[cfg(test)]
mod wait_lists;
#[cfg(test)]
mod waits;
