//! The groups of one domain: the branches of each `both`, `all`, `first` or `any`, how many haven't ended, what was raised in
//! them, the value that is kept, and who waits in `join`.
//!
//! Contracts see [`Groups`] as the definition's list of groups, by number. `branch_ends` and `join` are the definition's
//! functions of these names on the group that they name, and leave the others as they were: the theorems are the clauses of
//! the methods of [`Groups`]. Where there is no memory for a new group, all groups stay as they were.
#![tactic(auto)]

mod answers;
mod group;
mod groups;
mod kind;

pub use answers::{BranchEnded, JoinStep};
pub use groups::Groups;
pub use kind::GroupKind;
