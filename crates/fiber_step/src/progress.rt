//! What one turn of a settling comes to.

use crate::ask::Ask;
use eio_value::{Plain, Value};

/// What one turn of a settling comes to.
#[derive(Clone, Copy)]
pub(crate) enum Progress {
    /// Work goes on with this value.
    GoesOn(Value),
    /// It is the fiber's next call.
    Calls(Ask),
    /// This is raised anew, under the number of the next raise.
    Raises(Plain),
}
