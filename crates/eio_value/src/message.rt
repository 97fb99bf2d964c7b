//! What one domain sends to another.

use crate::{Outcome, Value};

/// A fiber that waits in a call on a shared object.
#[derive(Clone, Copy)]
pub struct Waiter {
    /// The domain of the fiber.
    pub domain: u8,
    /// The number of the fiber in its domain.
    pub fiber: u32,
    /// The resume word through which the fiber is woken.
    pub cell: u32,
    /// The stamp that names this one wait among all waits of that resume word.
    pub armed: u64,
}

/// A block that was submitted to an executor.
#[derive(Clone, Copy)]
pub struct Job {
    /// The number of the executor, in order of declaration.
    pub executor: u32,
    /// The block, by its number in the script.
    pub node: u32,
    /// The values of the captured variables, in order; those from `count` on mean nothing.
    pub given: [Value; 8],
    /// How many variables were captured, at most 8.
    pub count: u8,
    /// How many hundredths of a worker the job takes, 1 to 100.
    pub weight: u8,
}

/// What a domain finds in its post.
#[derive(Clone, Copy)]
pub enum Message {
    /// This fiber goes on, with this outcome of its call.
    Resume {
        who: Waiter,
        outcome: Outcome,
        stamp: u64,
    },
    /// The domain runs this job, which its executor has numbered so.
    Start {
        job: Job,
        number: u64,
        stamp: u64,
    },
}
