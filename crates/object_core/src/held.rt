//! The six cores.

use executor_pool::Exec;
use promise_cell::Promise;
use resource_pool::{Lock, Pool, Sem};
use stream_core::Stream;

/// A core of any kind.
#[derive(Drop)]
pub(crate) enum Held {
    Stream(Stream),
    Promise(Promise),
    Semaphore(Sem),
    Mutex(Lock),
    Pool(Pool),
    Executor(Exec),
}
