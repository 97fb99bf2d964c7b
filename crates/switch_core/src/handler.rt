//! Release handlers, as a switch keeps them.

ghost use Rattle.std.specs.Prelude.{◌≡◌};

use eio_value::Value;
use std::marker::Model;

/// The values of variables, in order, seen as their list.
#[derive(Drop)]
pub struct HandlerVariables {
    values: Vec<Value>,
}

impl Model for HandlerVariables {
    ghost use Rattle.std.specs.Prelude.{List};
    ghost use Rattle.eio_value.specs.declared.value.Value.{Value as Item};

    ghost Value = { List Item };

    ghost view = { λ inside. inside.values.items };
}

impl HandlerVariables {
    /// These values.
    pub fn new(values: Vec<Value>) -> HandlerVariables
        ensures { result ≡ values.items }
    {
        HandlerVariables { values }
    }

    /// The values, in order.
    pub fn as_slice(&self) -> &[Value]
        ensures { result.now ≡ self.now }
    {
        self.values.as_slice()
    }

    /// The values, in order, handed over without a copy.
    pub fn into_values(self) -> Vec<Value>
        ensures { result.items ≡ self }
    {
        self.values
    }
}

/// A release handler: its block, by the node that it begins with, and the values of the variables when it was registered.
#[derive(Drop)]
pub struct Handler {
    pub node: u32,
    pub env: HandlerVariables,
}

impl Model for Handler {
    ghost use Rattle.spec_parts.specs.Switches as model;

    ghost Value = { model.Handler };

    ghost view = { λ inside. record { block = inside.node; values = inside.env } };
}
