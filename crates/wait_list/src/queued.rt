//! A fiber that waits, with what it waits with.

use eio_value::{Value, Waiter};

/// A fiber that waits in a call on a shared object.
#[derive(Clone, Copy)]
pub struct Queued {
    pub who: Waiter,
    /// What the fiber gives away, where it waits to give something; else unit.
    pub item: Value,
    /// The number of the job that it submitted, where it waits for one; else 0.
    pub number: u64,
}
