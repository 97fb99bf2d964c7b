//! Trees that code makes, part by part in reading order. What is made stands in no input: each place is 0.

ghost use Rattle.std.specs.Prelude.{◌≡◌, [], ◌∷◌, ◌++◌, OnOk};
ghost use Rattle.script_tree.specs.Pieces.{Words, Numbers, Texts, Opens, Closes, IsWhole, tree_of};

use crate::tree::{Tree, TreeDraft, TreeNode};
use eio_value::NoMemory;
use std::alloc::Global;
use std::marker::Model;

/// The pieces of a tree that is being made; a list is open from [`TreeBuilder::open`] to its [`TreeBuilder::close`].
#[derive(Drop)]
pub struct TreeBuilder {
    alloc: Global,
    draft: TreeDraft,
}

impl Model for TreeBuilder {
    ghost use Rattle.std.specs.Prelude.{List};
    ghost use Rattle.script_tree.specs.Pieces.{Piece};

    ghost Value = { List Piece };

    ghost view = { λ builder. builder.draft };
}

impl TreeBuilder {
    /// Nothing yet.
    pub fn new(alloc: Global) -> TreeBuilder
        ensures { result ≡ [] }
    {
        TreeBuilder {
            alloc,
            draft: TreeDraft::new(alloc),
        }
    }

    /// One more word.
    ///
    /// # Errors
    /// [`NoMemory`] where memory runs out.
    pub fn word(&mut self, word: &[u8]) -> Result<(), NoMemory>
        ensures { OnOk result (self.new ≡ self.old ++ Words 0 word.now ∷ []) }
    {
        let word = word.to_vec(self.alloc)?;
        self.draft.push(TreeNode::Word { at: 0, word })?;
        Ok(())
    }

    /// One more number.
    ///
    /// # Errors
    /// [`NoMemory`] where memory runs out.
    pub fn number(&mut self, number: i64) -> Result<(), NoMemory>
        ensures { OnOk result (self.new ≡ self.old ++ Numbers 0 number ∷ []) }
    {
        self.draft.push(TreeNode::Number { at: 0, number })?;
        Ok(())
    }

    /// One more text, by the bytes that it stands for.
    ///
    /// # Errors
    /// [`NoMemory`] where memory runs out.
    pub fn text(&mut self, text: &[u8]) -> Result<(), NoMemory>
        ensures { OnOk result (self.new ≡ self.old ++ Texts 0 text.now ∷ []) }
    {
        let text = text.to_vec(self.alloc)?;
        self.draft.push(TreeNode::Text { at: 0, text })?;
        Ok(())
    }

    /// Opens a list.
    ///
    /// # Errors
    /// [`NoMemory`] where memory runs out.
    pub fn open(&mut self) -> Result<(), NoMemory>
        ensures { OnOk result (self.new ≡ self.old ++ Opens 0 ∷ []) }
    {
        self.draft.push(TreeNode::Open { at: 0 })?;
        Ok(())
    }

    /// Opens a list that begins with a word.
    ///
    /// # Errors
    /// [`NoMemory`] where memory runs out.
    pub fn form(&mut self, word: &[u8]) -> Result<(), NoMemory>
        ensures { OnOk result (self.new ≡ self.old ++ Opens 0 ∷ Words 0 word.now ∷ []) }
    {
        self.open()?;
        self.word(word)
    }

    /// Closes the list that was opened last.
    ///
    /// # Errors
    /// [`NoMemory`] where memory runs out.
    pub fn close(&mut self) -> Result<(), NoMemory>
        ensures { OnOk result (self.new ≡ self.old ++ Closes ∷ []) }
    {
        self.draft.push(TreeNode::Close)?;
        Ok(())
    }

    /// The tree that the pieces spell, once they are those of one tree and no more.
    pub fn finish(self) -> Tree
        requires { IsWhole self }
        ensures { result ≡ tree_of self }
    {
        self.draft.into_tree()
    }
}
