//! The variables of a fiber: a list in which a slot is a place.

ghost use Rattle.std.specs.Prelude.{◌≡◌};

use eio_value::{NoMemory, Value};
use std::marker::Model;

/// The variables of a fiber, by their slots.
#[derive(Drop)]
pub struct Variables {
    list: Vec<Value>,
}

impl Model for Variables {
    ghost use Rattle.std.specs.Prelude.{List};
    ghost use Rattle.eio_value.specs.declared.value.Value.{Value as Held};

    ghost Value = { List Held };

    ghost view = { λ inside. inside.list.items };
}

impl Variables {
    ghost use Rattle.std.specs.Prelude.{◌++◌, [], ◌∷◌, take, length, IfOk, OnErr, OnOk};
    ghost use Rattle.spec_fiber.specs.Evaluation.{value_at, held_context, held_switch, held_number};

    /// These variables.
    pub fn new(list: Vec<Value>) -> Variables
        ensures { result ≡ list.items }
    {
        Variables { list }
    }

    /// All of them, in order.
    pub fn as_slice(&self) -> &[Value]
        ensures { result.now ≡ self.now }
    {
        self.list.as_slice()
    }

    /// Keeps the first slots alone.
    pub fn cut(&mut self, keep: usize)
        ensures { self.new ≡ take keep self.old }
    {
        self.list.truncate(keep);
    }

    /// How many slots there are.
    pub fn len(&self) -> usize
        ensures { result ≡ length self.now }
    {
        self.list.len()
    }

    /// One more, in the next slot.
    ///
    /// # Errors
    /// [`NoMemory`] where memory runs out; then they are as they were.
    pub fn push(&mut self, value: Value) -> Result<(), NoMemory>
        ensures ok { OnOk result (self.new ≡ self.old ++ value ∷ []) }
        ensures err { OnErr result (self.new ≡ self.old) }
    {
        self.list.push(value)?;
        Ok(())
    }

    /// A copy of them.
    ///
    /// # Errors
    /// [`NoMemory`] where memory runs out.
    pub(crate) fn try_clone(&self) -> Result<Variables, NoMemory>
        ensures { IfOk result (λ it. it ≡ self.now) }
    {
        let list = self.list.as_slice().to_vec(*self.list.allocator())?;
        Ok(Variables { list })
    }

    /// The value of a slot. One that there is not is unit.
    pub fn value(&self, slot: u32) -> Value
        ensures { result ≡ value_at self.now slot }
    {
        let found = self.list.get(slot as usize);
        found.copied().unwrap_or(Value::Unit)
    }

    /// The number of the context that a slot holds, and 0 where it holds none.
    pub fn context(&self, slot: u32) -> u32
        ensures { result ≡ held_context self.now slot }
    {
        match self.value(slot) {
            Value::Ctx(number) => number,
            _ => 0,
        }
    }

    /// The number of the switch that a slot holds, and 0 where it holds none.
    pub fn switch(&self, slot: u32) -> u32
        ensures { result ≡ held_switch self.now slot }
    {
        match self.value(slot) {
            Value::Switch(number) => number,
            _ => 0,
        }
    }

    /// The number of the reader, the writer or the directory that a slot holds, and 0 where it holds none.
    pub fn number(&self, slot: u32) -> u64
        ensures { result ≡ held_number self.now slot }
    {
        match self.value(slot) {
            Value::Int(number) if number >= 0 => number as u64,
            _ => 0,
        }
    }
}
