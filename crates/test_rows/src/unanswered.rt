//! Why a row has no answer.

use eio_value::NoMemory;
use std::alloc::{AllocError, AllocFailed};
use std::io;

/// A row has no answer: memory was refused, a file can't be read, or the row is none.
#[derive(Clone, Copy)]
pub(crate) struct Unanswered;

impl From<AllocError> for Unanswered {
    fn from(_refused: AllocError) -> Unanswered {
        Unanswered
    }
}

impl<T: Drop> From<AllocFailed<T>> for Unanswered {
    fn from(_refused: AllocFailed<T>) -> Unanswered {
        Unanswered
    }
}

impl From<NoMemory> for Unanswered {
    fn from(_refused: NoMemory) -> Unanswered {
        Unanswered
    }
}

impl From<io::Error> for Unanswered {
    fn from(_fault: io::Error) -> Unanswered {
        Unanswered
    }
}
