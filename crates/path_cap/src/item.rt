//! An entry of a directory: a name and what it stands for. Clauses see it as the definition's entry.

ghost use Rattle.std.specs.Prelude.{◌≡◌};

use eio_value::Bytes;
use std::marker::Model;

/// What a name stands for.
#[derive(Drop)]
pub enum HeldNode {
    /// A file and its content.
    File(Bytes),
    /// A link and the path that it leads to.
    Link(Bytes),
    /// The directory of this number.
    Inner(u32),
}

/// A name, and what it stands for.
#[derive(Drop)]
pub struct Item {
    name: Bytes,
    node: HeldNode,
}

impl Model for Item {
    ghost use Rattle.spec_parts.specs.Directories.{Entry};

    ghost Value = { Entry };

    ghost use Rattle.path_cap.specs.Nodes.{held_of};

    ghost view = { λ inside. record { name = inside.name; held = held_of inside.node } };
}

impl Item {
    ghost use Rattle.path_cap.specs.Nodes.{held_of};

    pub fn new(name: Bytes, node: HeldNode) -> Item
        ensures { result ≡ record { name = name; held = held_of node } }
    {
        Item { name, node }
    }

    pub fn name(&self) -> &[u8]
        ensures { result.now ≡ self.now.name }
    {
        self.name.as_slice()
    }

    pub fn node(&self) -> &HeldNode
        ensures { held_of result.now ≡ self.now.held }
    {
        &self.node
    }
}
