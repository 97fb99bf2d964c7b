//! What stands in a scripted directory.
//!
//! Clauses see `Entries` as a directory of the definitions (`Directory`), and so an `Entry` as a file,
//! a link, or a name with such a directory.
ghost use Rattle.std.specs.Prelude.{◌≡◌};

use crate::Bytes;
use std::marker::Model;

/// One entry of a directory. Each begins with its name.
#[cycle(entry)]
#[derive(Drop)]
pub enum Entry {
    /// A file and its content.
    File(Bytes, Bytes),
    /// A link and the path that it leads to.
    Link(Bytes, Bytes),
    /// A directory and what stands in it.
    Sub(Bytes, Entries),
}

/// The entries of a directory, in order.
#[cycle(entry)]
#[derive(Drop)]
pub struct Entries {
    list: Vec<Entry>,
}

impl Model for Entries {
    ghost use Rattle.eio_value.specs.Directory.{Directory, entry_count};
    ghost use Rattle.eio_value.specs.DirectoryCode.{directory_code};

    ghost Value = { Directory };

    ghost coded = { directory_code };

    ghost use Rattle.eio_value.specs.EntriesInside.{directory_of};

    ghost view = { λ inside. directory_of inside.list.items };

    ghost size = { entry_count };

    ghost use Rattle.eio_value.specs.EntriesFall.{most_le-entry_count};

    ghost size_decreases = { λ inside h. most_le-entry_count inside.list.items };
}

impl Entries {
    ghost use Rattle.eio_value.specs.EntriesInside.{directory_of};

    /// These entries.
    pub fn new(list: Vec<Entry>) -> Entries
        ensures { result ≡ directory_of list.items }
    {
        Entries { list }
    }

    /// The entries, in order.
    pub fn as_slice(&self) -> &[Entry]
        ensures { directory_of result.now ≡ self.now }
    {
        self.list.as_slice()
    }
}
