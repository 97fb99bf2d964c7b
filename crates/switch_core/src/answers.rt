//! What the calls on switches answer.

use crate::Handler;
use eio_value::Raised;

/// The switch has finished: it takes no exception any more.
#[derive(Clone, Copy, Debug)]
pub struct Finished;

/// Why a release handler was not registered. The handler comes back.
#[derive(Drop)]
pub enum ReleaseFault {
    /// The switch has finished.
    Finished(Handler),
    NoMemory(Handler),
}

/// What a call of `close` finds to do.
#[derive(Drop)]
pub enum CloseStep {
    /// Fibers that are no daemons are attached: wait for the last of them.
    Wait,
    /// Only daemons are attached: cancel them, and wait for the last of them.
    CancelDaemons,
    /// Nobody is attached and this handler is next.
    RunHandler(Handler),
    /// The switch has finished, without errors.
    Return,
    /// The switch has finished with these errors.
    Raise(Raised),
}
