//! Which parts may move to another thread: one that may not gets no proof here.

use cancel_tree::Contexts;
use domain_strikes::Strikes;
use run_queue::{Ready, Timers};

/// Only of a type that may move to another thread.
fn may_move<T: Send>() {}

/// Each of these parts may move to another thread.
pub fn parts_may_move() {
    may_move::<Contexts>();
    may_move::<Ready>();
    may_move::<Strikes>();
    may_move::<Timers>();
}
