//! Reading: trees in one another, from the left. The theorem is the clauses `ok` and `fault` of [`read_tree`].

ghost use Rattle.std.specs.Prelude.{◌≡◌, ◌≤◌, ◌<◌, ◌+◌, length, drop, slice_index, true, Ok, IfOk, IfErr};
ghost use Rattle.spec_script.specs.Reading.{reading, tree_at, list_by, text_at, run_at};
ghost use Rattle.spec_script.specs.Bytes.{is_run_byte};
ghost use Rattle.script_tree.specs.Views.{from, Gives, Fails};
ghost use Rattle.script_tree.specs.Growing.{grown, grows};

use crate::fault::TreeFault;
use crate::gap::after_gap;
use crate::run::{is_run_byte, parse_run, run_len};
use crate::text::read_text;
use crate::tree::{Tree, TreeDraft, TreeNode};
use std::alloc::Global;

/// The most lists that may be open in one another.
const MOST_LISTS: u32 = 64;

/// Reads the tree that an input spells.
///
/// # Errors
/// The one fault of the input, with its place, where it spells no tree; [`TreeFault::NoMemory`] where memory runs out.
pub fn read_tree(alloc: Global, bytes: &[u8]) -> Result<Tree, TreeFault>
    requires most { length bytes.now ≤ 262144 }
    ensures ok { IfOk result (λ tree. reading bytes.now ≡ Ok tree) }
    ensures fault { IfErr result (λ fault. Fails fault (reading bytes.now)) }
{
    let mut draft = TreeDraft::new(alloc);
    let begin = after_gap(bytes, 0);
    let next = push_tree(alloc, bytes, begin, MOST_LISTS, &mut draft)?;
    let end = after_gap(bytes, next);
    if end < bytes.len() {
        return Err(TreeFault::Stray(end as u32));
    }
    Ok(draft.into_tree())
}

/// The text that begins at a quote, as one more piece; the place behind it.
fn push_text(
    alloc: Global,
    bytes: &[u8],
    at: usize,
    draft: &mut TreeDraft,
) -> Result<usize, TreeFault>
    requires within { at < length bytes.now }
    requires most { length bytes.now ≤ 262144 }
    ensures within { IfOk result (λ next. next ≤ length bytes.now) }
    ensures behind { IfOk result (λ next. at < next) }
    ensures text { Gives (grown bytes.now draft.new) result (grows draft.old (text_at at (drop (at + 1) bytes.now))) }
{
    let text = read_text(alloc, bytes, at)?;
    let node = TreeNode::Text {
        at: at as u32,
        text: text.items,
    };
    draft.push(node)?;
    Ok(text.next)
}

/// The word or number that begins at a run byte, as one more piece; the place behind it.
fn push_run(
    alloc: Global,
    bytes: &[u8],
    at: usize,
    draft: &mut TreeDraft,
) -> Result<usize, TreeFault>
    requires within { at < length bytes.now }
    requires run { is_run_byte (slice_index bytes.now at) ≡ true }
    requires most { length bytes.now ≤ 262144 }
    ensures within { IfOk result (λ next. next ≤ length bytes.now) }
    ensures behind { IfOk result (λ next. at < next) }
    ensures run { Gives (grown bytes.now draft.new) result (grows draft.old (run_at at (drop at bytes.now))) }
{
    let rest = bytes.split_at(at).1;
    let len = run_len(rest);
    let run = parse_run(alloc, rest.split_at(len).0, at as u32)?;
    draft.push(run.into_node(at as u32))?;
    Ok(at + len)
}

/// The tree that begins at a place, as further pieces, where so many lists may be opened in one another; the place behind
/// it.
#[cycle(trees)]
fn push_tree(
    alloc: Global,
    bytes: &[u8],
    at: usize,
    lists: u32,
    draft: &mut TreeDraft,
) -> Result<usize, TreeFault>
    requires within { at ≤ length bytes.now }
    requires most { length bytes.now ≤ 262144 }
    ensures within { IfOk result (λ next. next ≤ length bytes.now) }
    ensures behind { IfOk result (λ next. at < next) }
    ensures tree { Gives (grown bytes.now draft.new) result (grows draft.old (tree_at lists (from bytes.now at))) }
{
    if at == bytes.len() {
        return Err(TreeFault::Unclosed(at as u32));
    }
    if bytes[at] == b'(' {
        if lists == 0 {
            return Err(TreeFault::Deep(at as u32));
        }
        return push_list(alloc, bytes, at, lists - 1, draft);
    }
    if bytes[at] == b')' {
        return Err(TreeFault::Stray(at as u32));
    }
    if bytes[at] == b'"' {
        return push_text(alloc, bytes, at, draft);
    }
    if is_run_byte(bytes[at]) {
        return push_run(alloc, bytes, at, draft);
    }
    Err(TreeFault::Byte(at as u32))
}

/// The list that begins at a paren, as further pieces, where so many lists may be opened in it; the place behind it.
#[cycle(trees)]
fn push_list(
    alloc: Global,
    bytes: &[u8],
    paren: usize,
    lists: u32,
    draft: &mut TreeDraft,
) -> Result<usize, TreeFault>
    requires within { paren < length bytes.now }
    requires most { length bytes.now ≤ 262144 }
    ensures within { IfOk result (λ next. next ≤ length bytes.now) }
    ensures behind { IfOk result (λ next. paren < next) }
    ensures list { Gives (grown bytes.now draft.new) result (grows draft.old (list_by (tree_at lists) paren (drop (paren + 1) bytes.now))) }
{
    draft.push(TreeNode::Open { at: paren as u32 })?;
    let mut at = after_gap(bytes, paren + 1);
    while at < bytes.len() {
        if bytes[at] == b')' {
            draft.push(TreeNode::Close)?;
            return Ok(at + 1);
        }
        let next = push_tree(alloc, bytes, at, lists, draft)?;
        at = after_gap(bytes, next);
    }
    Err(TreeFault::Unclosed(paren as u32))
}
