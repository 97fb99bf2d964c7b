//! Why a tree is no script.

ghost use Rattle.std.specs.Prelude.{◌≡◌};

use eio_value::NoMemory;
use std::alloc::{AllocError, AllocFailed};
use thiserror::Error;

/// Why a tree is no script, each fault with its place: the offset of the refused node in the input's bytes.
#[derive(Clone, Copy, Debug, Error)]
pub enum ScriptFault {
    /// A node that fits no form of its position.
    #[error("no form fits at {0}")]
    Shape(u32),
    /// A word that is used as a name, and isn't in scope with the kind that is wanted.
    #[error("unknown name at {0}")]
    Name(u32),
    /// A new name that is taken.
    #[error("name taken at {0}")]
    Twice(u32),
    /// A number outside its limits, or the first item too many.
    #[error("out of limits at {0}")]
    Size(u32),
    /// There was no memory, or what the script has can't be numbered with 32 bits.
    #[error("out of memory")]
    NoMemory,
}

impl From<NoMemory> for ScriptFault {
    ghost use Rattle.std.specs.Prelude.{◌≡◌};
    ghost use Rattle.script_forms.specs.declared.fault.ScriptFault.TheVariants.{NoMemory};

    ghost from_gives = { λ _ fault. fault ≡ NoMemory };

    fn from(_error: NoMemory) -> ScriptFault {
        ScriptFault::NoMemory
    }
}

impl From<AllocError> for ScriptFault {
    ghost use Rattle.std.specs.Prelude.{◌≡◌};
    ghost use Rattle.script_forms.specs.declared.fault.ScriptFault.TheVariants.{NoMemory};

    ghost from_gives = { λ _ fault. fault ≡ NoMemory };

    fn from(_error: AllocError) -> ScriptFault {
        ScriptFault::NoMemory
    }
}

impl<T: Drop> From<AllocFailed<T>> for ScriptFault {
    ghost use Rattle.std.specs.Prelude.{◌≡◌};
    ghost use Rattle.script_forms.specs.declared.fault.ScriptFault.TheVariants.{NoMemory};

    ghost from_gives = { λ _ fault. fault ≡ NoMemory };

    fn from(_error: AllocFailed<T>) -> ScriptFault {
        ScriptFault::NoMemory
    }
}
