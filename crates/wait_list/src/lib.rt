//! The fibers that wait in one list of a shared object, under every such object.
//!
//! An object has its data and one or two of these lists ([`WaitList`]). Whether a fiber that stands in one still waits isn't known
//! here: its wait may have been decided elsewhere. So a call asks the fibers in order, through any `eio_value::Wake`, and drops the dead
//! that it comes to ([`WaitList::wake_first`]). A cell stands in a list at most once, and so at most as many fibers as there are
//! cells: their room is taken by the constructor, and no other call takes memory.
//!
//! Contracts see a list as its fibers in the form that rows have in `spec_parts`, with the number of cells beside it. The theorems are
//! the clauses of the methods. [`MemWake`] is a `Wake` in memory that is told which waits are dead.
#![tactic(auto)]

mod list;
mod mem_wake;
mod queued;

pub use list::WaitList;
pub use mem_wake::{MemSent, MemWake};
pub use queued::Queued;
