//! Rows of trees: `tree | INPUT` with the pieces of the input's tree, each with its place, and a word and a text by their length;
//! `spelled | INPUT` with the tree in its canonical spelling; and `build` with a tree that is made piece by piece.

use crate::unanswered::Unanswered;
use script_input::{InputFault, input_tree, refusal_line};
use script_tree::{Tree, TreeBuilder, TreeNode, write_tree};
use std::alloc::{AllocError, Global};
use std::str;

/// Shows why an input is refused.
pub(crate) fn push_fault(
    alloc: Global,
    fault: InputFault,
    out: &mut String,
) -> Result<(), Unanswered> {
    match fault {
        InputFault::NoMemory => Err(Unanswered),
        InputFault::Refused(refusal) => {
            let line = refusal_line(alloc, refusal)?;
            push_bytes(&line, out)
        }
    }
}

/// Shows a line.
fn push_bytes(line: &[u8], out: &mut String) -> Result<(), Unanswered> {
    let line = str::from_utf8(line).map_err(|_| Unanswered)?;
    write!(out, "  {line}")?;
    Ok(())
}

/// Shows a piece.
fn push_piece(piece: &TreeNode, out: &mut String) -> Result<(), AllocError> {
    match piece {
        TreeNode::Word { at, word } => write!(out, " word {} of {}", *at, word.len()),
        TreeNode::Number { at, number } => write!(out, " number {} {}", *at, *number),
        TreeNode::Text { at, text } => write!(out, " text {} of {}", *at, text.len()),
        TreeNode::Open { at } => write!(out, " open {}", *at),
        TreeNode::Close => out.push_str(" close"),
    }
}

/// Shows the pieces of a tree.
fn push_pieces(tree: &Tree, out: &mut String) -> Result<(), AllocError> {
    out.push_str("  tree")?;
    for piece in tree.nodes() {
        push_piece(piece, out)?;
    }
    out.push('\n')
}

/// Shows a tree in its canonical spelling.
pub(crate) fn push_spelling(
    alloc: Global,
    tree: &Tree,
    out: &mut String,
) -> Result<(), Unanswered> {
    let mut spelling = Vec::new(alloc);
    write_tree(tree, &mut spelling)?;
    push_bytes(&spelling, out)
}

/// Makes the pieces of a tree.
#[tactic(auto, unfolding(script_tree::specs::Pieces::pieces, script_tree::specs::Pieces::row_pieces, script_tree::specs::Pieces::tree_of))]
fn built(alloc: Global) -> Result<Tree, Unanswered> {
    let mut tree = TreeBuilder::new(alloc);
    tree.open()?;
    tree.form(b"trace")?;
    tree.text(b"done\n")?;
    tree.close()?;
    tree.number(-7)?;
    tree.word(b"x")?;
    tree.close()?;
    Ok(tree.finish())
}

/// The answer to a row.
pub(crate) fn answer(
    alloc: Global,
    kind: &str,
    input: &str,
    out: &mut String,
) -> Result<(), Unanswered> {
    if kind == "build" {
        return push_spelling(alloc, &built(alloc)?, out);
    }
    match input_tree(alloc, input.as_bytes()) {
        Err(fault) => push_fault(alloc, fault, out),
        Ok(tree) => match kind {
            "tree" => Ok(push_pieces(&tree, out)?),
            _ => push_spelling(alloc, &tree, out),
        },
    }
}
