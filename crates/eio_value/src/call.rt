//! Calls on the shared objects of a script, and their answers.

use crate::{Job, Message, Outcome, Raised, Value, Waiter};

/// A call on a shared object.
///
/// The first number is the object's, in order of declaration; of `Submit` it stands in the job.
#[derive(Clone, Copy)]
pub enum Call {
    /// Adds an item to a stream.
    Add(u32, Value),
    /// Takes the oldest item of a stream.
    Take(u32),
    /// Takes the oldest item of a stream, if there is one.
    TakeNonblocking(u32),
    /// The number of items in a stream.
    Length(u32),
    /// Resolves a promise.
    Resolve(u32, Outcome),
    /// Resolves a promise with a value, if it isn't resolved.
    TryResolve(u32, Value),
    /// Waits until a promise is resolved.
    Await(u32),
    /// Wakes the next fiber that waits for a promise or a poisoned mutex.
    NextWake(u32),
    /// Takes one from a semaphore.
    Acquire(u32),
    /// Gives one back to a semaphore.
    Release(u32),
    /// Locks a mutex.
    Lock(u32),
    /// Locks a mutex, if it is free.
    TryLock(u32),
    /// Unlocks a mutex.
    Unlock(u32),
    /// Poisons a mutex: nobody can lock it again.
    Poison(u32),
    /// Takes a resource of a pool.
    Use(u32),
    /// Gives this resource back to a pool.
    Put(u32, u32),
    /// Hands a job to its executor.
    Submit(Job),
    /// Starts the next job of an executor that a worker is free for.
    NextStart(u32),
    /// The job of an executor with this number has ended.
    Done(u32, u64, Outcome),
}

/// What a call on a shared object answers.
#[derive(Clone, Copy)]
pub enum Answer {
    Done(Value),
    /// The fiber waits.
    Waits,
    /// The call would wait, but the fiber's context is cancelled.
    Off,
    /// There was nothing to do: no item to take, nobody to wake, no job to start.
    Nothing,
    /// This fiber was woken.
    Woke(Waiter),
    /// The job with this number was started in that domain.
    Started { domain: u8, number: u64 },
    Raised(Raised),
}

/// An answer, its place in the order of all calls, and what it sends to the caller's own domain.
#[derive(Clone, Copy)]
pub struct Answered {
    pub answer: Answer,
    /// Greater than the stamp that the call was given.
    pub stamp: u64,
    /// The message for a fiber of the caller's own domain, or for the domain itself.
    pub mine: Option<Message>,
}

/// Whether this call has woken the fiber that waits, or came too late.
#[derive(Clone, Copy)]
pub enum Woken {
    /// It has woken the fiber.
    Won,
    /// The wait had been decided before.
    Lost,
}

/// Whether this strike has cancelled a wait, and its place in the order of all calls.
#[derive(Clone, Copy)]
pub enum Struck {
    /// The fiber no longer waits, and raises `Cancelled`.
    Won { stamp: u64 },
    /// The fiber was woken before, and keeps its answer.
    Lost { stamp: u64 },
}
