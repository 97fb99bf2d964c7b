//! A tree as the row of its pieces in reading order. A list is the piece where it opens, the pieces of its trees, and the
//! piece where it closes. Contracts see a [`Tree`] as the definition's tree itself: that its pieces spell one tree and no
//! more, and that its numbers fit into 64 bits, is its invariant, which [`TreeDraft::into_tree`] asks for once.

ghost use Rattle.std.specs.Prelude.{◌≡◌, [], ◌∷◌, ◌++◌, OnOk};
ghost use Rattle.script_tree.specs.Fitting.{Fits};
ghost use Rattle.script_tree.specs.Pieces.{piece_of};

use std::alloc::{AllocError, Global};
use std::marker::Model;

/// A word, a number or a text, or the beginning or the end of a list; `at` is the offset of its first byte in the input.
#[derive(Drop)]
pub enum TreeNode {
    Word { at: u32, word: Vec<u8> },
    Number { at: u32, number: i64 },
    Text { at: u32, text: Vec<u8> },
    Open { at: u32 },
    Close,
}

/// A tree of words, numbers, texts and lists, each with its place.
#[derive(Drop)]
pub struct Tree {
    nodes: Vec<TreeNode>,
}

impl Model for Tree {
    ghost use Rattle.std.specs.Prelude.{map};
    ghost use Rattle.std.specs.List.{AllByRecursion as Each};
    ghost use Rattle.spec_script.specs.Trees as model;
    ghost use Rattle.script_tree.specs.Fitting.{Fits};
    ghost use Rattle.script_tree.specs.Pieces.{IsWhole, piece_of, tree_of};
    ghost use Rattle.script_tree.specs.TreeCode.{tree_code};

    ghost Value = { model.Tree };

    ghost coded = { tree_code };

    ghost view = { λ tree. tree_of (map piece_of tree.nodes.items) };

    ghost invariant = { λ tree. IsWhole (map piece_of tree.nodes.items) × Each Fits (map piece_of tree.nodes.items) };
}

impl Tree {
    ghost use Rattle.std.specs.Prelude.{◌≡◌, map};
    ghost use Rattle.std.specs.List.{AllByRecursion as Each};
    ghost use Rattle.script_tree.specs.Fitting.{Fits};
    ghost use Rattle.script_tree.specs.Pieces.{piece_of, pieces};

    /// Its pieces, in reading order.
    pub fn nodes(&self) -> &[TreeNode]
        ensures { map piece_of result.now ≡ pieces self.now }
    {
        &self.nodes
    }

    /// A law: its numbers fit into 64 bits.
    pub fn numbers_fit(&self)
        ensures { Each Fits (pieces self.now) }
    {
        let _ = &self.nodes;
    }
}

/// The pieces of a tree that is still being read.
#[derive(Drop)]
pub(crate) struct TreeDraft {
    nodes: Vec<TreeNode>,
}

impl Model for TreeDraft {
    ghost use Rattle.std.specs.Prelude.{List, map};
    ghost use Rattle.script_tree.specs.Pieces.{Piece, piece_of};

    ghost Value = { List Piece };

    ghost use Rattle.std.specs.List.{AllByRecursion as Each};
    ghost use Rattle.script_tree.specs.Fitting.{Fits};

    ghost view = { λ draft. map piece_of draft.nodes.items };

    ghost invariant = { λ draft. Each Fits (map piece_of draft.nodes.items) };
}

impl TreeDraft {
    ghost use Rattle.std.specs.Prelude.{◌≡◌, [], ◌∷◌, ◌++◌, OnOk};
    ghost use Rattle.script_tree.specs.Pieces.{IsWhole, piece_of, tree_of};

    /// No pieces yet.
    pub(crate) fn new(alloc: Global) -> TreeDraft
        ensures { result ≡ [] }
    {
        TreeDraft {
            nodes: Vec::new(alloc),
        }
    }

    /// One more piece, behind the others.
    pub(crate) fn push(&mut self, node: TreeNode) -> Result<(), AllocError>
        ensures { OnOk result (self.new ≡ self.old ++ piece_of node ∷ []) }
    {
        fits(&node);
        self.nodes.push(node)?;
        Ok(())
    }

    /// The tree that the pieces spell, once they are whole.
    pub(crate) fn into_tree(self) -> Tree
        requires { IsWhole self }
        ensures { result ≡ tree_of self }
    {
        let TreeDraft { nodes } = self;
        Tree { nodes }
    }
}

/// The number of a node fits into 64 bits, as one that was read.
fn fits(node: &TreeNode)
    ensures { Fits (piece_of node.now) }
{
    if let TreeNode::Number { number, .. } = node {
        let _number = *number;
    }
}
