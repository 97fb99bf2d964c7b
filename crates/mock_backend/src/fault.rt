//! Why a run stops before its end.
ghost use Rattle.std.specs.Prelude.{◌≡◌};
ghost use Rattle.mock_backend.specs.declared.fault.RunFault.TheVariants.{WriteFault, NoMemory as OutOfMemory};

use eio_value::NoMemory;
use std::alloc::{AllocError, AllocFailed};
use trace_out::WriteAll;

/// Why a run stopped before its end. What was written by then is a front of its text.
#[derive(Clone, Copy)]
pub(crate) enum RunFault {
    /// The sink failed.
    WriteFault,
    /// Memory was refused.
    NoMemory,
}

impl From<WriteAll> for RunFault {
    ghost from_gives = { λ _ fault. fault ≡ WriteFault };

    fn from(_fault: WriteAll) -> RunFault {
        RunFault::WriteFault
    }
}

impl From<NoMemory> for RunFault {
    ghost from_gives = { λ _ fault. fault ≡ OutOfMemory };

    fn from(_refused: NoMemory) -> RunFault {
        RunFault::NoMemory
    }
}

impl From<AllocError> for RunFault {
    ghost from_gives = { λ _ fault. fault ≡ OutOfMemory };

    fn from(_refused: AllocError) -> RunFault {
        RunFault::NoMemory
    }
}

impl<T: Drop> From<AllocFailed<T>> for RunFault {
    ghost from_gives = { λ _ fault. fault ≡ OutOfMemory };

    fn from(_refused: AllocFailed<T>) -> RunFault {
        RunFault::NoMemory
    }
}
