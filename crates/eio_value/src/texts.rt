//! A table of texts, in which equal texts have equal numbers.
//!
//! Clauses see it as the list of its texts, where the number of a text is its place. The texts stand in
//! a set that keeps the order of insertion, once each: the set finds a text by its hash, and a number
//! is an index of the set. That no text stands there twice, and that the hashes lead to the texts, are
//! invariants of the set.
ghost use Rattle.std.specs.Prelude.{◌≡◌, ◌-◌, ◌<◌, ◌^◌, ◌↔◌, [], length, take, IsTrue, IfOk, OnErr};

use crate::{NoMemory, TextId};
use indexmap::IndexSet;
use std::alloc::Global;
use std::marker::Model;

/// A table of texts, in which equal texts have equal numbers.
#[derive(Drop)]
pub struct Texts {
    /// What the table and its texts are allocated by.
    alloc: Global,
    texts: IndexSet<Vec<u8>>,
}

impl Model for Texts {
    ghost use Rattle.std.specs.Prelude.{ℕ, List, map};

    ghost Value = { List (List ℕ) };

    ghost view = { λ inside. map (λ text. text.items) inside.texts.keys };
}

impl Texts {
    ghost use Rattle.eio_value.specs.Table.{AreDifferent, HasText, text_at, intern};

    /// No text.
    pub fn new(alloc: Global) -> Texts
        ensures { result ≡ [] }
    {
        Texts {
            alloc,
            texts: IndexSet::new(alloc),
        }
    }

    /// How many texts there are. No text stands there twice.
    pub fn len(&self) -> usize
        ensures length { result ≡ length self.now }
        ensures different { AreDifferent self.now }
    {
        self.texts.len()
    }

    /// Whether there is no text.
    pub fn is_empty(&self) -> bool
        ensures { IsTrue result ↔ (self.now ≡ []) }
    {
        self.texts.is_empty()
    }

    /// The number of this text, new or old. A text that is in the table leaves it as it is.
    ///
    /// # Errors
    ///
    /// `NoMemory` where the text is new and can't be stored; then the table is as it was.
    pub fn intern(&mut self, bytes: &[u8]) -> Result<TextId, NoMemory>
        requires { length self.old < 2 ^ 32 - 1 }
        ensures ok { IfOk result (λ id. record { id = id; texts = self.new } ≡ intern self.old bytes.now) }
        ensures err { OnErr result (self.new ≡ self.old) }
    {
        if let Some(at) = self.texts.get_index_of(bytes) {
            return Ok(TextId(at as u32));
        }
        let text = bytes.to_vec(self.alloc)?;
        let (at, _) = self.texts.insert_full(text)?;
        Ok(TextId(at as u32))
    }

    /// Keeps the first so many texts alone, with their numbers; where it has no more than those, it stays as it is.
    pub fn truncate(&mut self, len: usize)
        ensures { self.new ≡ take len self.old }
    {
        self.texts.truncate(len);
    }

    /// The text with this number.
    pub fn bytes(&self, id: TextId) -> &[u8]
        requires { HasText self.now id }
        ensures { result.now ≡ text_at self.now id }
    {
        self.texts.as_slice()[id.0 as usize].as_slice()
    }
}
