//! Which objects may move to another thread: one that may not gets no proof here.

use executor_pool::Exec;
use promise_cell::Promise;
use resource_pool::{Lock, Pool, Sem};
use stream_core::Stream;
use wait_list::WaitList;

/// Only of a type that may move to another thread.
fn may_move<T: Send>() {}

/// Each of these objects may move to another thread.
pub fn objects_may_move() {
    may_move::<Exec>();
    may_move::<Lock>();
    may_move::<Pool>();
    may_move::<Promise>();
    may_move::<Sem>();
    may_move::<Stream>();
    may_move::<WaitList>();
}
