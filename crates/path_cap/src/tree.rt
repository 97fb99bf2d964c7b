//! A tree of directories, each with a number: its place. Clauses see it as the definition's tree.

ghost use Rattle.std.specs.Prelude.{◌≡◌, ◌==◌, ◌∷◌, [], ◌<◌, ◌^◌, length, map, option_map, slice_get, IfOk, OnOk, OnErr};
ghost use Rattle.std.specs.Option.{option_copied};
ghost use Rattle.spec_parts.specs.Directories as model;
ghost use Rattle.spec_parts.specs.Directories.{directory_at, held_by};
ghost use Rattle.path_cap.specs.Leading.{content_in};
ghost use Rattle.path_cap.specs.Nodes.{held_of};

use crate::directory::Directory;
use crate::item::{HeldNode, Item};
use eio_value::{Bytes, NoMemory};
use std::alloc::Global;
use std::marker::Model;

/// A tree of directories, files and links. The first directory is the root.
#[derive(Drop)]
pub struct DirTree {
    directories: Vec<Directory>,
}

impl Model for DirTree {
    ghost use Rattle.spec_parts.specs.Directories.{Tree};

    ghost Value = { Tree };

    ghost view = { λ inside. inside.directories.items };
}

impl DirTree {
    /// A tree of an empty root.
    pub(crate) fn with_root(alloc: Global) -> Result<DirTree, NoMemory>
        ensures { IfOk result (λ tree. tree ≡ model.directory [] ∷ []) }
    {
        let mut directories = Vec::new(alloc);
        directories.push(Directory::new(alloc))?;
        Ok(DirTree { directories })
    }

    /// How many directories were made, those that were removed among them.
    pub fn directory_count(&self) -> usize
        ensures { result ≡ length self.now }
    {
        self.directories.len()
    }

    /// The number that the next directory gets.
    pub(crate) fn next_number(&self) -> u32
        requires { length self.now < 2 ^ 32 }
        ensures { result ≡ length self.now }
    {
        self.directories.len() as u32
    }

    /// The directory of a number, where there is one.
    pub(crate) fn directory(&self, number: u32) -> Option<&Directory>
        ensures { option_copied result ≡ slice_get self.now number }
    {
        self.directories.get(number as usize)
    }

    /// Whether a directory was removed; one that was never made counts as removed.
    pub(crate) fn is_removed(&self, number: u32) -> bool
        ensures { result ≡ (directory_at self.now number).removed }
    {
        match self.directory(number) {
            Some(directory) => directory.is_removed(),
            None => true,
        }
    }

    /// What a name stands for in a directory.
    pub(crate) fn held(&self, number: u32, name: &[u8]) -> Option<&HeldNode>
        ensures { option_map (λ node. held_of node.now) result ≡ held_by (directory_at self.now number).entries name.now }
    {
        self.directory(number)?.held(name)
    }

    /// The content of the file that stands under a name in a directory; of anything else none.
    pub(crate) fn content(&self, number: u32, name: &[u8]) -> &[u8]
        ensures { result.now ≡ content_in (held_by (directory_at self.now number).entries name.now) }
    {
        match self.held(number, name) {
            Some(HeldNode::File(content)) => content.as_slice(),
            _ => &[],
        }
    }

    /// The names in a directory, in order; in one that was never made none.
    pub(crate) fn names(&self, alloc: Global, number: u32) -> Result<Vec<Vec<u8>>, NoMemory>
        ensures { IfOk result (λ names. map (λ name. name.items) names.items ≡ model.names (directory_at self.now number)) }
    {
        match self.directory(number) {
            Some(directory) => directory.names(alloc),
            None => Ok(Vec::new(alloc)),
        }
    }

    /// Whether a directory has no entries.
    pub(crate) fn is_empty(&self, number: u32) -> bool
        ensures { result ≡ (length (directory_at self.now number).entries == 0) }
    {
        match self.directory(number) {
            Some(directory) => directory.is_empty(),
            None => true,
        }
    }

    /// From now on a name stands for this in a directory.
    pub(crate) fn put(&mut self, number: u32, name: Bytes, node: HeldNode) -> Result<(), NoMemory>
        ensures ok { OnOk result (self.new ≡ model.put number name (held_of node) self.old) }
        ensures err { OnErr result (self.new ≡ self.old) }
    {
        let at = number as usize;
        if at >= self.directories.len() {
            return Ok(());
        }
        self.directories[at].put(Item::new(name, node))
    }

    /// Makes a directory, which has the next number, under a name in another.
    pub(crate) fn put_directory(
        &mut self,
        alloc: Global,
        number: u32,
        name: Bytes,
    ) -> Result<(), NoMemory>
        requires { length self.old < 2 ^ 32 }
        ensures ok { OnOk result (self.new ≡ model.put_directory number name self.old) }
        ensures err { OnErr result (self.new ≡ self.old) }
    {
        let next = self.next_number();
        self.directories.push(Directory::new(alloc))?;
        let made = self.put(number, name, HeldNode::Inner(next));
        if made.is_err() {
            self.directories.pop();
        }
        made
    }

    /// From now on a directory hasn't this name.
    pub(crate) fn take_out(&mut self, number: u32, name: &[u8])
        ensures { self.new ≡ model.dropped number name.now self.old }
    {
        let at = number as usize;
        if at < self.directories.len() {
            self.directories[at].take_out(name);
        }
    }

    /// Removes a directory, which stands under a name in another.
    pub(crate) fn remove_directory(&mut self, number: u32, name: &[u8], inner: u32)
        ensures { self.new ≡ model.removed_directory number name.now inner self.old }
    {
        self.take_out(number, name);
        let at = inner as usize;
        if at < self.directories.len() {
            self.directories[at].remove();
        }
    }
}
