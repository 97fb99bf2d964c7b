//! Statements without a call and without blocks: `raise` and `trace`, and those that are a word alone. The theorem is the clause
//! `reads` of each.

#![tactic(auto, using(script_draft::proofs::Counts::some_ahead, script_draft::proofs::Counts::none_ahead, script_draft::proofs::Counts::count_past))]

ghost use Rattle.std.specs.Prelude.{◌≡◌, true, ◌+◌, ◌≤◌, ℕ, Bool, IfOk, length, slice_set};
ghost use Rattle.spec_script.specs.Forms as forms;
ghost use Rattle.spec_script.specs.Statements as model;
ghost use Rattle.spec_script.specs.Trees.{Tree, And};
ghost use Rattle.spec_script.specs.Expressions as expressions;
ghost use Rattle.spec_script.specs.Reads as reads;
ghost use Rattle.script_draft.specs.Ahead.{ahead, has_tree, tree_ahead, tree_count, IsPast, IsBehind};
ghost use Rattle.script_forms.specs.Heads.{head_of};
ghost use Rattle.script_draft.specs.Readings.{Makes, States, Traces};

use crate::expressions::item;
use eio_value::TextId;
use script_draft::{Cursor, Draft, Scope};
use script_forms::{Node, ScriptFault};

/// The most operands of a `trace`.
const MOST_TRACED: usize = 8;

/// A form that is its word alone, as this node.
///
/// # Errors
/// None; the result is that of the other forms.
pub(crate) fn bare_form(
    cursor: &mut Cursor,
    draft: &mut Draft,
    node: Node,
    opened: u32,
) -> Result<(), ScriptFault>
    requires items { tree_count (ahead cursor.old) ≡ 0 }
    requires opened { length draft.old.nodes ≡ opened + 1 }
    ensures ok { result ≡ Ok tt }
    ensures behind { IsBehind cursor.old cursor.new }
    ensures filled { draft.new ≡ record draft.old { nodes = slice_set draft.old.nodes opened node } }
{
    draft.fill(opened, node);
    cursor.close();
    Ok(())
}

/// `(raise TEXT)`
pub(crate) fn raise_form(
    cursor: &mut Cursor,
    draft: &mut Draft,
    scope: &Scope,
    opened: u32,
) -> Result<(), ScriptFault>
    requires items { tree_count (ahead cursor.old) ≡ 1 }
    requires opened { length draft.old.nodes ≡ opened + 1 }
    ensures behind { IfOk result (λ _. IsBehind cursor.old cursor.new) }
    ensures reads { (last : Bool) (at : ℕ) (word : Tree) → States result (model.form scope.now last at forms.RaiseHead (And word (ahead cursor.old))) scope.now opened draft.old draft.new }
{
    let text = failure(cursor, draft)?;
    draft.fill(opened, Node::Raise(text));
    cursor.close();
    Ok(())
}

/// `(trace EXPRESSION*)`
pub(crate) fn trace_form(
    cursor: &mut Cursor,
    draft: &mut Draft,
    scope: &Scope,
    opened: u32,
) -> Result<(), ScriptFault>
    requires items { 0 ≤ tree_count (ahead cursor.old) }
    requires opened { length draft.old.nodes ≡ opened + 1 }
    ensures behind { IfOk result (λ _. IsBehind cursor.old cursor.new) }
    ensures reads { (last : Bool) (at : ℕ) (word : Tree) → States result (model.form scope.now last at forms.TraceHead (And word (ahead cursor.old))) scope.now opened draft.old draft.new }
{
    let operands = traced(cursor, draft, scope)?;
    draft.fill(opened, Node::Trace(operands));
    Ok(())
}

/// `(sleep EXPRESSION)`
pub(crate) fn sleep_form(
    cursor: &mut Cursor,
    draft: &mut Draft,
    scope: &Scope,
    opened: u32,
) -> Result<(), ScriptFault>
    requires items { tree_count (ahead cursor.old) ≡ 1 }
    requires opened { length draft.old.nodes ≡ opened + 1 }
    ensures behind { IfOk result (λ _. IsBehind cursor.old cursor.new) }
    ensures reads { (last : Bool) (at : ℕ) (word : Tree) → States result (model.form scope.now last at forms.SleepHead (And word (ahead cursor.old))) scope.now opened draft.old draft.new }
{
    item(cursor, draft, scope, false)?;
    draft.fill(opened, Node::Sleep);
    cursor.close();
    Ok(())
}

/// The operands of a `trace`, up to the end of its list, and how many they are.
fn traced(cursor: &mut Cursor, draft: &mut Draft, scope: &Scope) -> Result<u8, ScriptFault>
    ensures behind { IfOk result (λ _. IsBehind cursor.old cursor.new) }
    ensures reads { Traces result (expressions.traced scope.now 0 (ahead cursor.old)) draft.old draft.new }
{
    let mut operands = 0;
    while cursor.has_tree() {
        item(cursor, draft, scope, operands >= MOST_TRACED)?;
        operands += 1;
    }
    cursor.close();
    Ok(operands as u8)
}

/// The text that comes next, with which a fiber may fail.
pub(crate) fn failure(cursor: &mut Cursor, draft: &mut Draft) -> Result<TextId, ScriptFault>
    requires { has_tree cursor.old ≡ true }
    ensures past { IfOk result (λ _. IsPast cursor.old cursor.new) }
    ensures reads { Makes (λ id. id) result (reads.failure_of (tree_ahead cursor.old)) draft.old draft.new }
{
    let text = cursor.text()?;
    let id = draft.failure(text.text)?;
    Ok(id)
}
