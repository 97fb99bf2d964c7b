//! A shared object of any kind: a stream, a promise, a semaphore, a mutex, a pool or an executor.
//!
//! An [`ObjectCore`] is one of the six cores of the crates below, made as it is [`Declared`], and seen as its row in `spec_parts` with the number of
//! cells beside it. [`ObjectCore::call`] makes any call on it, and its theorem is the clause `meets`: the call gives what the row's step gives on
//! the row without the dead to which it came (`Meets`; of the end of a job, which asks one fiber alone, `MeetsOne`). So who has objects of all kinds
//! has one function and one clause. The kind of the row is that of the core (the invariant), and no call changes it. By the law [`dead_step_alike`]
//! such a call is the definitions' call on the row without the dead.
#![tactic(auto)]

mod calls;
mod declared;
mod held;
mod laws;
mod object;

pub use declared::Declared;
pub use laws::dead_step_alike;
pub use object::ObjectCore;
