//! How an object is declared.

/// A shared object as a script declares it.
#[derive(Clone, Copy)]
pub enum Declared<'a> {
    /// A stream of this capacity.
    Stream(u32),
    Promise,
    /// A semaphore of which so many can be acquired.
    Semaphore(u32),
    Mutex,
    /// A pool in which so many resources can be made.
    Pool(u32),
    /// An executor with a worker in each of these domains.
    Executor(&'a [u8]),
}
