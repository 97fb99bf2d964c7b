//! What a fiber was made for, and how it stands.

use eio_value::Value;

/// What a fiber was made for, which says what its end does.
#[derive(Clone, Copy)]
pub enum Role {
    /// A body of the script.
    Body,
    /// A fiber of this switch.
    Switched { switch: u32, daemon: bool },
    /// A branch of this group.
    Branch { group: u32 },
}

/// A call that is made again once the fibers that it waits for have ended.
#[derive(Clone, Copy)]
pub enum Again {
    /// `close` of this switch, whose body came to this value.
    Close { switch: u32, kept: Value },
    /// The end of a form with branches.
    Join { group: u32 },
}

/// How a fiber goes on with its next move, to which no exception came.
#[derive(Clone, Copy)]
pub enum Next {
    /// With the value that its call was answered.
    GoesOn(Value),
    /// After a `yield`, by looking whether it was cancelled.
    LooksUp,
    /// By raising that its context is off, in which its call would have waited.
    FindsOff,
    CallsAgain(Again),
}

/// How a fiber stands that hasn't ended.
#[derive(Clone, Copy)]
pub enum Standing {
    Ready(Next),
    /// It goes on with an exception, which is kept under this key.
    Throws(usize),
    /// It waits for other fibers.
    Parked(Again),
    /// It waits to be cancelled.
    AwaitsCancel,
}
