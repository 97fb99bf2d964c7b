//! At most eight values in order, without memory.
//!
//! The places of an array are filled from the front, and a number says how many are; all places behind
//! them hold `Unit`, so that two rows of the same values are equal. Clauses see the values as their list.
ghost use Rattle.std.specs.Prelude.{◌≡◌, ◌<◌, ◌≤◌, [], ◌∷◌, ◌++◌, length};

use crate::Value;
use std::marker::Model;

/// The operands of a call: at most eight values, in order.
#[derive(Clone, Copy)]
pub struct Operands {
    places: [Value; 8],
    count: usize,
}

impl Model for Operands {
    ghost use Rattle.std.specs.Prelude.{List};
    ghost use Rattle.eio_value.specs.declared.value.Value.{Value as Item};

    ghost Value = { List Item };

    ghost use Rattle.eio_value.specs.OperandsInside.{operands_of, IsFilled, filled, filled-operands_of};

    ghost view = { operands_of };

    ghost invariant = { IsFilled };

    ghost inverse = { filled };

    ghost inverse_ok = { filled-operands_of };
}

impl Operands {
    /// No operand.
    pub fn none() -> Operands
        ensures { result ≡ [] }
    {
        Operands {
            places: [Value::Unit; 8],
            count: 0,
        }
    }

    /// One more, behind the others.
    pub fn with(self, operand: Value) -> Operands
        requires { length self < 8 }
        ensures { result ≡ self ++ operand ∷ [] }
    {
        let mut places = self.places;
        places[self.count] = operand;
        Operands {
            places,
            count: self.count + 1,
        }
    }

    /// The operands, in order.
    pub fn as_slice(&self) -> &[Value]
        ensures operands { result.now ≡ self.now }
        ensures most { length self.now ≤ 8 }
    {
        &self.places[..self.count]
    }
}
