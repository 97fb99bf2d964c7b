//! A directory: its entries in the order of their names' bytes, and whether it was removed. Clauses see it as the definition's
//! directory. That the names stay in order is the law `names_stay_in_order`.

ghost use Rattle.std.specs.Prelude.{◌≡◌, ◌==◌, length, [], true, false, map, option_map, IfOk, OnOk, OnErr};
ghost use Rattle.spec_parts.specs.Directories.{held_by, with_entry, without_entry};
ghost use Rattle.path_cap.specs.Nodes.{held_of};

use crate::item::{HeldNode, Item};
use eio_value::NoMemory;
use std::alloc::Global;
use std::cmp::Ordering;
use std::marker::Model;

#[derive(Drop)]
pub struct Directory {
    entries: Vec<Item>,
    removed: bool,
}

impl Model for Directory {
    ghost use Rattle.spec_parts.specs.Directories as model;

    ghost Value = { model.Directory };

    ghost view = { λ inside. record { entries = inside.entries.items; removed = inside.removed } };
}

impl Directory {
    /// A directory without entries.
    pub fn new(alloc: Global) -> Directory
        ensures { result ≡ record { entries = []; removed = false } }
    {
        Directory {
            entries: Vec::new(alloc),
            removed: false,
        }
    }

    pub fn is_removed(&self) -> bool
        ensures { result ≡ self.now.removed }
    {
        self.removed
    }

    pub fn is_empty(&self) -> bool
        ensures { result ≡ (length self.now.entries == 0) }
    {
        self.entries.is_empty()
    }

    /// What a name stands for.
    pub fn held(&self, name: &[u8]) -> Option<&HeldNode>
        ensures { option_map (λ node. held_of node.now) result ≡ held_by self.now.entries name.now }
    {
        let found = self.entries.iter().find(|item| item.name() == name)?;
        Some(found.node())
    }

    /// The names, in order.
    pub fn names(&self, alloc: Global) -> Result<Vec<Vec<u8>>, NoMemory>
        ensures { IfOk result (λ names. map (λ name. name.items) names.items ≡ map (λ entry. entry.name) self.now.entries) }
    {
        let mut names = Vec::new(alloc);
        for item in &self.entries {
            names.push(Vec::from_slice(alloc, item.name())?)?;
        }
        Ok(names)
    }

    /// Puts an entry in order, in place of one of its name where there is one.
    pub fn put(&mut self, item: Item) -> Result<(), NoMemory>
        ensures ok { OnOk result (self.new ≡ record { entries = with_entry item self.old.entries; removed = self.old.removed }) }
        ensures err { OnErr result (self.new ≡ self.old) }
    {
        put_in_order(&mut self.entries, item)
    }

    /// Takes out what has this name.
    pub fn take_out(&mut self, name: &[u8])
        ensures { self.new ≡ record { entries = without_entry name.now self.old.entries; removed = self.old.removed } }
    {
        self.entries.retain(|item| item.name() != name);
    }

    /// From now on it is removed, without entries.
    pub fn remove(&mut self)
        ensures { self.new ≡ record { entries = []; removed = true } }
    {
        self.entries.clear();
        self.removed = true;
    }
}

/// Puts an item before the first one whose name is behind its own, or in place of the one with its name.
fn put_in_order(entries: &mut Vec<Item>, item: Item) -> Result<(), NoMemory>
    ensures ok { OnOk result (entries.new.items ≡ with_entry item entries.old.items) }
    ensures err { OnErr result (entries.new.items ≡ entries.old.items) }
{
    for at in 0..entries.len() {
        match item.name().cmp(&entries[at].name()) {
            Ordering::Less => {
                entries.insert(at, item)?;
                return Ok(());
            }
            Ordering::Equal => {
                entries[at] = item;
                return Ok(());
            }
            Ordering::Greater => {}
        }
    }
    entries.push(item)?;
    Ok(())
}
