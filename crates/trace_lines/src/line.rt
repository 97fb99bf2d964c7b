//! Lines: what one move of a domain did, and what it was answered.

use eio_value::{Operands, Outcome, Raised, Said, TextId, Value};

/// One move of a domain.
#[derive(Clone, Copy)]
pub struct Line {
    /// Its place in the order of all lines; where two lines have one stamp, the lower domain comes first.
    pub stamp: u64,
    pub domain: u8,
    /// The fiber that called; of an obligation the one whose call made it; of a received message the one that goes
    /// on, or the new one.
    pub fiber: u32,
    pub did: Did,
    pub reply: Said2,
}

/// What a move did: the call of a fiber, an obligation of the domain, or a message that it took.
///
/// Contexts, switches and fibers have their numbers in the domain, objects their numbers in order of declaration.
#[derive(Clone, Copy)]
pub enum Did {
    /// These values were traced.
    Trace(Operands),
    /// A turn of a loop began.
    Turn,
    Yield,
    Check,
    AwaitCancel,
    Sub,
    Protect,
    /// The block of this context ended.
    Leave(u32),
    /// This context was cancelled, with a failure of this text.
    Cancel(u32, TextId),
    Switch,
    /// A fiber was forked onto this switch.
    Fork(u32),
    ForkDaemon(u32),
    /// The same, with the promise that its end resolves.
    ForkPromise(u32, u32),
    /// This switch was failed with this text.
    Fail(u32, TextId),
    OnRelease(u32),
    Close(u32),
    /// Branches were made, in this context.
    Both(u32),
    All(u32),
    First(u32),
    Any(u32),
    /// The caller's own branch of the group of this context ended.
    Join(u32),
    Add(u32, Value),
    Take(u32),
    TakeNonblocking(u32),
    Length(u32),
    Resolve(u32, Outcome),
    TryResolve(u32, Value),
    Await(u32),
    Acquire(u32),
    Release(u32),
    Lock(u32),
    TryLock(u32),
    Unlock(u32),
    Poison(u32),
    Use(u32),
    /// This resource was given back to a pool.
    Put(u32, u32),
    /// A job of this weight was handed to an executor.
    Submit(u32, u8),
    /// The job of an executor with this number ended.
    Done(u32, u64),
    /// A waiting fiber was struck, since its context was cancelled.
    Strike { domain: u8, fiber: u32 },
    /// The next fiber that waits for a promise or a poisoned mutex was woken.
    Wake(u32),
    /// The next job of an executor was started.
    Start(u32),
    /// A fiber was resumed by a message.
    Got,
    /// A job was received: of this executor, with this number.
    GotJob(u32, u64),
    /// A fiber ended.
    End,
    /// A limit was met, and the domain is halted.
    Limit,
    /// The mock clock went on to this time.
    Tick(i64),
    /// A call on the mocked outside: on the clock, a flow, a reader, a writer or a directory.
    Mock(Said),
}

/// What a line's call was answered.
#[derive(Clone, Copy)]
pub enum Said2 {
    Done(Value),
    Raised(Raised),
    /// The fiber went to the back of the ready list.
    Back,
    /// The fiber waits.
    Waits,
    /// The call would have waited, but the fiber's context is cancelled.
    Off,
    /// There was nothing to do.
    Nothing,
    /// A release handler runs.
    Handler,
    /// This fiber was made, or woken.
    Fiber { domain: u8, fiber: u32 },
    /// The job with this number was started in that domain.
    Started { domain: u8, number: u64 },
    /// A strike cancelled the wait.
    Won,
    /// A strike came too late.
    Lost,
}
