//! Writing: a tree in its canonical spelling, piece by piece. The theorem is the clauses of [`write_tree`].
//!
//! Each call appends to `out`. Where memory runs out on the way, what stood in `out` before still stands at its front, and
//! [`write_tree`] cuts off the rest.

ghost use Rattle.std.specs.Prelude.{◌≡◌, ◌≤◌, ◌+◌, [], ◌∷◌, ◌++◌, length, map, IsOk, OnOk, OnErr, vec_len, vec_capacity, false};
ghost use Rattle.spec_script.specs.Bytes.{line_feed};
ghost use Rattle.spec_script.specs.Spelling.{item_spelling, text_spelling};
ghost use Rattle.spec_script.specs.Canonical.{document};
ghost use Rattle.script_tree.specs.Pieces.{piece_of};
ghost use Rattle.script_tree.specs.Spelled as spelled;
ghost use Rattle.script_tree.specs.Fronts.{IsFront};

use crate::tree::{Tree, TreeNode};
use eio_value::NoMemory;
use itoa::Buffer;

/// Appends a tree in its canonical spelling, and a line feed.
///
/// # Errors
/// [`NoMemory`] where memory runs out, for lack of room in `out` alone; `out` is then as it was.
pub fn write_tree(tree: &Tree, out: &mut Vec<u8>) -> Result<(), NoMemory>
    ensures ok { OnOk result (out.new.items ≡ out.old.items ++ document tree.now) }
    ensures err { OnErr result (out.new.items ≡ out.old.items) }
    ensures room { vec_len out.old + length (document tree.now) ≤ vec_capacity out.old → IsOk result }
    ensures capacity { vec_capacity out.old ≤ vec_capacity out.new }
{
    let len = out.len();
    let written = push_document(tree.nodes(), out);
    if written.is_err() {
        out.truncate(len);
    }
    written
}

/// Appends pieces and a line feed.
fn push_document(nodes: &[TreeNode], out: &mut Vec<u8>) -> Result<(), NoMemory>
    ensures ok { OnOk result (out.new.items ≡ out.old.items ++ (spelled.spelled false (map piece_of nodes.now) ++ line_feed ∷ [])) }
    ensures err { OnErr result (IsFront out.old.items out.new.items) }
    ensures room { vec_len out.old + length (spelled.spelled false (map piece_of nodes.now) ++ line_feed ∷ []) ≤ vec_capacity out.old → IsOk result }
    ensures capacity { vec_capacity out.old ≤ vec_capacity out.new }
{
    push_pieces(nodes, out)?;
    out.push(b'\n')?;
    Ok(())
}

/// Appends pieces, with a space before each tree that has one before it in its list.
fn push_pieces(nodes: &[TreeNode], out: &mut Vec<u8>) -> Result<(), NoMemory>
    ensures ok { OnOk result (out.new.items ≡ out.old.items ++ spelled.spelled false (map piece_of nodes.now)) }
    ensures err { OnErr result (IsFront out.old.items out.new.items) }
    ensures room { vec_len out.old + length (spelled.spelled false (map piece_of nodes.now)) ≤ vec_capacity out.old → IsOk result }
    ensures capacity { vec_capacity out.old ≤ vec_capacity out.new }
{
    let mut behind_tree = false;
    for node in nodes {
        push_gap(is_space_due(behind_tree, node), out)?;
        push_piece(node, out)?;
        behind_tree = ends_tree(node);
    }
    Ok(())
}

/// Whether a space is due before a piece, behind a tree of its list or not.
fn is_space_due(behind_tree: bool, node: &TreeNode) -> bool
    ensures { result ≡ spelled.is_space_due behind_tree (piece_of node.now) }
{
    behind_tree && !matches!(node, TreeNode::Close)
}

/// Whether a tree ends with a piece.
fn ends_tree(node: &TreeNode) -> bool
    ensures { result ≡ spelled.ends_tree (piece_of node.now) }
{
    !matches!(node, TreeNode::Open { .. })
}

/// Appends the space before a piece, where it is due.
fn push_gap(is_due: bool, out: &mut Vec<u8>) -> Result<(), NoMemory>
    ensures ok { OnOk result (out.new.items ≡ out.old.items ++ spelled.gap_if is_due) }
    ensures err { OnErr result (out.new.items ≡ out.old.items) }
    ensures room { vec_len out.old + length (spelled.gap_if is_due) ≤ vec_capacity out.old → IsOk result }
    ensures capacity { vec_capacity out.old ≤ vec_capacity out.new }
{
    if is_due {
        out.push(b' ')?;
    }
    Ok(())
}

/// Appends a piece.
fn push_piece(node: &TreeNode, out: &mut Vec<u8>) -> Result<(), NoMemory>
    ensures ok { OnOk result (out.new.items ≡ out.old.items ++ spelled.piece_spelling (piece_of node.now)) }
    ensures err { OnErr result (IsFront out.old.items out.new.items) }
    ensures room { vec_len out.old + length (spelled.piece_spelling (piece_of node.now)) ≤ vec_capacity out.old → IsOk result }
    ensures capacity { vec_capacity out.old ≤ vec_capacity out.new }
{
    match node {
        TreeNode::Word { word, .. } => push_bytes(word, out),
        TreeNode::Number { number, .. } => push_bytes(
            Buffer::new().format(*number).as_bytes(),
            out,
        ),
        TreeNode::Text { text, .. } => push_text(text, out),
        TreeNode::Open { .. } => push_bytes(b"(", out),
        TreeNode::Close => push_bytes(b")", out),
    }
}

/// Appends bytes.
fn push_bytes(bytes: &[u8], out: &mut Vec<u8>) -> Result<(), NoMemory>
    ensures ok { OnOk result (out.new.items ≡ out.old.items ++ bytes.now) }
    ensures err { OnErr result (IsFront out.old.items out.new.items) }
    ensures room { vec_len out.old + length bytes.now ≤ vec_capacity out.old → IsOk result }
    ensures capacity { vec_capacity out.old ≤ vec_capacity out.new }
{
    out.extend_from_slice(bytes)?;
    Ok(())
}

/// Appends a text in quotes.
fn push_text(text: &[u8], out: &mut Vec<u8>) -> Result<(), NoMemory>
    ensures ok { OnOk result (out.new.items ≡ out.old.items ++ text_spelling text.now) }
    ensures err { OnErr result (IsFront out.old.items out.new.items) }
    ensures room { vec_len out.old + length (text_spelling text.now) ≤ vec_capacity out.old → IsOk result }
    ensures capacity { vec_capacity out.old ≤ vec_capacity out.new }
{
    out.push(b'"')?;
    for item in text {
        push_item(*item, out)?;
    }
    out.push(b'"')?;
    Ok(())
}

/// Appends an item of a text: as an escape, or as itself.
fn push_item(item: u8, out: &mut Vec<u8>) -> Result<(), NoMemory>
    ensures ok { OnOk result (out.new.items ≡ out.old.items ++ item_spelling item) }
    ensures err { OnErr result (IsFront out.old.items out.new.items) }
    ensures room { vec_len out.old + length (item_spelling item) ≤ vec_capacity out.old → IsOk result }
    ensures capacity { vec_capacity out.old ≤ vec_capacity out.new }
{
    match item {
        b'\n' => push_bytes(b"\\n", out),
        b'\r' => push_bytes(b"\\r", out),
        b'\t' => push_bytes(b"\\t", out),
        b'"' | b'\\' => push_bytes(&[b'\\', item], out),
        _ => push_bytes(&[item], out),
    }
}
