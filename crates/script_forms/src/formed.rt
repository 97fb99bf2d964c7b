//! A form that was read, as a command looks at it before it runs the script.

use spec_script::Feature;
use std::marker::Model;

/// A form that was read.
#[derive(Drop)]
pub struct Formed {
    /// The offset of its list in the input.
    pub at: u32,
    /// What brings it.
    pub feature: Feature,
    /// Whether it is for the mocked domain alone.
    pub mocked: bool,
}

impl Model for Formed {
    ghost use Rattle.spec_script.specs.Reads.{Formed as Form};

    ghost Value = { Form };

    ghost view = { λ inside. record { at = inside.at; feature = inside.feature; mocked = inside.mocked } };
}
