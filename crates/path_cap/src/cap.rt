//! Capabilities, and why calls through them fail.

ghost use Rattle.std.specs.Prelude.{◌≡◌};

use eio_value::{NoMemory, PathFault};
use std::alloc::{AllocError, AllocFailed};
use thiserror::Error;

/// The capability of a directory: its number. `Cap(0)` is that of the root.
///
/// Whoever has one reaches that directory and what lies below it. A call through a capability whose directory was removed, or was
/// never made, finds nothing.
#[derive(Clone, Copy, Debug, PartialEq, Eq)]
pub struct Cap(pub u32);

/// Why a call on a path failed.
#[derive(Clone, Copy, Debug, Error)]
pub enum CapFault {
    /// The path is refused.
    #[error("path refused: {0:?}")]
    Path(PathFault),
    /// There was no memory.
    #[error("out of memory")]
    NoMemory,
}

impl From<NoMemory> for CapFault {
    ghost use Rattle.std.specs.Prelude.{◌≡◌};
    ghost use Rattle.path_cap.specs.declared.cap.CapFault.TheVariants as fault;

    ghost from_gives = { λ _ given. given ≡ fault.NoMemory };

    fn from(_refused: NoMemory) -> CapFault {
        CapFault::NoMemory
    }
}

impl From<AllocError> for CapFault {
    ghost use Rattle.std.specs.Prelude.{◌≡◌};
    ghost use Rattle.path_cap.specs.declared.cap.CapFault.TheVariants as fault;

    ghost from_gives = { λ _ given. given ≡ fault.NoMemory };

    fn from(_refused: AllocError) -> CapFault {
        CapFault::NoMemory
    }
}

impl<T: Drop> From<AllocFailed<T>> for CapFault {
    ghost use Rattle.std.specs.Prelude.{◌≡◌};
    ghost use Rattle.path_cap.specs.declared.cap.CapFault.TheVariants as fault;

    ghost from_gives = { λ _ given. given ≡ fault.NoMemory };

    fn from(_refused: AllocFailed<T>) -> CapFault {
        CapFault::NoMemory
    }
}
