//! Why an input gives no tree or no script.
ghost use Rattle.std.specs.Prelude.{◌≡◌};

use crate::refusal::{Kind, Refusal};
use eio_value::NoMemory;
use script_lang::ScriptFault;
use script_tree::TreeFault;
use std::alloc::AllocError;

/// Why an input gives no tree or no script.
#[derive(Clone, Copy, Debug)]
pub enum InputFault {
    /// It is refused.
    Refused(Refusal),
    /// Memory was refused.
    NoMemory,
}

/// The refusal of this kind at a place.
pub(crate) fn refused(kind: Kind, at: u32) -> InputFault
    ensures { result ≡ InputFault.Refused (record { kind = kind; at = at }) }
{
    InputFault::Refused(Refusal { kind, at })
}

impl From<TreeFault> for InputFault {
    ghost use Rattle.std.specs.Prelude.{◌≡◌};
    ghost use Rattle.script_input.specs.Refusals.{of_tree_fault};

    ghost from_gives = { λ fault made. made ≡ of_tree_fault fault };

    fn from(fault: TreeFault) -> InputFault {
        match fault {
            TreeFault::Byte(at) => refused(Kind::Byte, at),
            TreeFault::Unclosed(at) => refused(Kind::Unclosed, at),
            TreeFault::Stray(at) => refused(Kind::Stray, at),
            TreeFault::Number(at) => refused(Kind::Number, at),
            TreeFault::LongText(at) => refused(Kind::LongText, at),
            TreeFault::Deep(at) => refused(Kind::Deep, at),
            TreeFault::NoMemory => InputFault::NoMemory,
        }
    }
}

impl From<ScriptFault> for InputFault {
    ghost use Rattle.std.specs.Prelude.{◌≡◌};
    ghost use Rattle.script_input.specs.Refusals.{of_script_fault};

    ghost from_gives = { λ fault made. made ≡ of_script_fault fault };

    fn from(fault: ScriptFault) -> InputFault {
        match fault {
            ScriptFault::Shape(at) => refused(Kind::Shape, at),
            ScriptFault::Name(at) => refused(Kind::Name, at),
            ScriptFault::Twice(at) => refused(Kind::Twice, at),
            ScriptFault::Size(at) => refused(Kind::Size, at),
            ScriptFault::NoMemory => InputFault::NoMemory,
        }
    }
}

impl From<NoMemory> for InputFault {
    ghost use Rattle.std.specs.Prelude.{◌≡◌};
    ghost use Rattle.script_input.specs.declared.fault.InputFault.TheVariants.{NoMemory as OutOfMemory};

    ghost from_gives = { λ _ made. made ≡ OutOfMemory };

    fn from(_refused: NoMemory) -> InputFault {
        InputFault::NoMemory
    }
}

impl From<AllocError> for InputFault {
    ghost use Rattle.std.specs.Prelude.{◌≡◌};
    ghost use Rattle.script_input.specs.declared.fault.InputFault.TheVariants.{NoMemory as OutOfMemory};

    ghost from_gives = { λ _ made. made ≡ OutOfMemory };

    fn from(_refused: AllocError) -> InputFault {
        InputFault::NoMemory
    }
}
