//! Why bytes spell no tree.

ghost use Rattle.std.specs.Prelude.{◌≡◌};

use std::alloc::{AllocError, AllocFailed};
use thiserror::Error;

/// Why bytes spell no tree, each fault with its place: an offset in the input's bytes.
#[derive(Clone, Copy, Debug, Error)]
pub enum TreeFault {
    /// A byte that begins nothing and ends nothing, or a run that begins with `_`.
    #[error("unexpected byte at {0}")]
    Byte(u32),
    /// The input ends too early: at the quote of the open text, else at the last open paren, else at the input's end.
    #[error("unclosed at {0}")]
    Unclosed(u32),
    /// A `)` where no list is open, or a byte behind the whole tree.
    #[error("stray byte at {0}")]
    Stray(u32),
    /// A run that begins with a digit or `-` and is no number.
    #[error("no number at {0}")]
    Number(u32),
    /// A word or a text that is too long.
    #[error("too long at {0}")]
    LongText(u32),
    /// A `(` where as many lists are open as may be.
    #[error("too many open lists at {0}")]
    Deep(u32),
    /// There was no memory.
    #[error("out of memory")]
    NoMemory,
}

impl From<AllocError> for TreeFault {
    ghost use Rattle.std.specs.Prelude.{◌≡◌};
    ghost use Rattle.script_tree.specs.declared.fault.TreeFault.TheVariants.{NoMemory};

    ghost from_gives = { λ _ fault. fault ≡ NoMemory };

    fn from(_error: AllocError) -> TreeFault {
        TreeFault::NoMemory
    }
}

impl<T: Drop> From<AllocFailed<T>> for TreeFault {
    ghost use Rattle.std.specs.Prelude.{◌≡◌};
    ghost use Rattle.script_tree.specs.declared.fault.TreeFault.TheVariants.{NoMemory};

    ghost from_gives = { λ _ fault. fault ≡ NoMemory };

    fn from(_error: AllocFailed<T>) -> TreeFault {
        TreeFault::NoMemory
    }
}
