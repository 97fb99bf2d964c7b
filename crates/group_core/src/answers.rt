//! What the calls on groups answer.

use eio_value::{Plain, Raised, Value};

/// What the end of a branch brings.
#[derive(Clone, Copy)]
pub struct BranchEnded {
    /// Why the group's context is cancelled, if it is.
    pub cancels: Option<Plain>,
    /// The fiber that waited in `join`, where this was the last branch.
    pub woken: Option<u32>,
}

/// What a call of `join` finds.
#[derive(Clone, Copy)]
pub enum JoinStep {
    /// Branches are left: wait for the last of them.
    Wait,
    /// All have ended, and the group gives this value.
    Give(Value),
    /// All have ended, and the group raises this.
    Raise(Raised),
}
