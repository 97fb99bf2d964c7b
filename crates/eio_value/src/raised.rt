//! What a fiber raises, and how it ends.

use crate::{Member, Members, Value};

/// What a fiber raises.
#[derive(Clone, Copy)]
pub enum Raised {
    One(Member),
    /// The fiber's context was cancelled, for this reason.
    Cancelled(Member),
    /// Several exceptions came together.
    Many(Members),
}

/// How a block, a fiber or a promise ends.
#[derive(Clone, Copy)]
pub enum Outcome {
    Ok(Value),
    Err(Raised),
}
