//! Making a tree of declared entries. The theorem is the clause of [`DirTree::new`].

ghost use Rattle.std.specs.Prelude.{◌≡◌, ◌≤◌, ◌<◌, ◌+◌, ◌^◌, length, IfOk, OnOk};
ghost use Rattle.eio_value.specs.Directory.{entry_count, item_count};
ghost use Rattle.eio_value.specs.EntriesInside.{directory_of, item_of};
ghost use Rattle.spec_parts.specs.Directories.{declared_tree, placed, placed_item};

use crate::item::HeldNode;
use crate::tree::DirTree;
use eio_value::{Bytes, Entry, NoMemory};
use std::alloc::Global;

/// A copy of bytes.
fn copied(alloc: Global, bytes: &Bytes) -> Result<Bytes, NoMemory>
    ensures { IfOk result (λ copy. copy ≡ bytes.now) }
{
    Ok(Bytes::new(Vec::from_slice(alloc, bytes.as_slice())?))
}

impl DirTree {
    /// The tree of a declared directory. The root is what was declared, and has the number 0.
    pub fn new(alloc: Global, entries: &[Entry]) -> Result<DirTree, NoMemory>
        requires { entry_count (directory_of entries.now) < 2 ^ 32 }
        ensures { IfOk result (λ tree. tree ≡ declared_tree (directory_of entries.now)) }
    {
        let mut tree = DirTree::with_root(alloc)?;
        tree.place_all(alloc, entries, 0)?;
        Ok(tree)
    }

    /// Puts entries into a directory, in order.
    #[cycle(place)]
    fn place_all(&mut self, alloc: Global, entries: &[Entry], at: u32) -> Result<(), NoMemory>
        requires { length self.old + entry_count (directory_of entries.now) ≤ 2 ^ 32 }
        ensures ok { OnOk result (self.new ≡ placed (directory_of entries.now) at self.old) }
        ensures len { OnOk result (length self.new ≤ length self.old + entry_count (directory_of entries.now)) }
    {
        for entry in entries {
            self.place(alloc, entry, at)?;
        }
        Ok(())
    }

    /// Puts an entry into a directory, and what stands in it below.
    #[cycle(place)]
    fn place(&mut self, alloc: Global, entry: &Entry, at: u32) -> Result<(), NoMemory>
        requires { length self.old + item_count (item_of entry.now) ≤ 2 ^ 32 }
        ensures ok { OnOk result (self.new ≡ placed_item (item_of entry.now) at self.old) }
        ensures len { OnOk result (length self.new ≤ length self.old + item_count (item_of entry.now)) }
    {
        match entry {
            Entry::File(name, content) => {
                let node = HeldNode::File(copied(alloc, content)?);
                self.put(at, copied(alloc, name)?, node)
            }
            Entry::Link(name, target) => {
                let node = HeldNode::Link(copied(alloc, target)?);
                self.put(at, copied(alloc, name)?, node)
            }
            Entry::Sub(name, inner) => {
                let number = self.next_number();
                self.put_directory(alloc, at, copied(alloc, name)?)?;
                self.place_all(alloc, inner.as_slice(), number)
            }
        }
    }
}
