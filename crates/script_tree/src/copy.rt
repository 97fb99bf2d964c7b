//! A copy of a tree, piece by piece. The theorem is the clause of [`Tree::copy`].

ghost use Rattle.std.specs.Prelude.{◌≡◌, ◌∷◌, ◌++◌, [], map, IfOk};
ghost use Rattle.script_tree.specs.Pieces.{piece_of};

use crate::tree::{Tree, TreeDraft, TreeNode};
use eio_value::NoMemory;
use std::alloc::Global;

impl Tree {
    /// A tree of the same pieces, with the same places.
    ///
    /// # Errors
    /// [`NoMemory`] where memory runs out.
    pub fn copy(&self, alloc: Global) -> Result<Tree, NoMemory>
        ensures { IfOk result (λ tree. tree ≡ self.now) }
    {
        let draft = pieces_of(alloc, self.nodes())?;
        Ok(draft.into_tree())
    }
}

/// The same pieces, in the same order.
fn pieces_of(alloc: Global, nodes: &[TreeNode]) -> Result<TreeDraft, NoMemory>
    ensures { IfOk result (λ draft. draft ≡ map piece_of nodes.now) }
{
    let mut draft = TreeDraft::new(alloc);
    for node in nodes {
        draft.push(copy_of(alloc, node)?)?;
    }
    Ok(draft)
}

/// The same piece.
fn copy_of(alloc: Global, node: &TreeNode) -> Result<TreeNode, NoMemory>
    ensures { IfOk result (λ copy. piece_of copy ≡ piece_of node.now) }
{
    Ok(match node {
        TreeNode::Word { at, word } => TreeNode::Word {
            at: *at,
            word: word.as_slice().to_vec(alloc)?,
        },
        TreeNode::Number { at, number } => TreeNode::Number {
            at: *at,
            number: *number,
        },
        TreeNode::Text { at, text } => TreeNode::Text {
            at: *at,
            text: text.as_slice().to_vec(alloc)?,
        },
        TreeNode::Open { at } => TreeNode::Open { at: *at },
        TreeNode::Close => TreeNode::Close,
    })
}
