//! Statements without a block, by their heads.

ghost use Rattle.std.specs.Prelude.{◌≡◌, ◌+◌, ℕ, Bool, IfOk, length};
ghost use Rattle.spec_script.specs.Forms as forms;
ghost use Rattle.spec_script.specs.Statements as model;
ghost use Rattle.spec_script.specs.Trees.{Tree, And};
ghost use Rattle.script_draft.specs.Ahead.{ahead, tree_count, IsBehind};
ghost use Rattle.script_forms.specs.Heads.{head_of, arity_of, shape_of, Fits};
ghost use Rattle.script_draft.specs.Readings.{States};
ghost use Rattle.script_forms.specs.declared.heads.Shape.TheVariants.{Leaf};

use crate::calls::{cancel_form, fail_form, object_form, object_form_with};
use crate::mock_forms::{copy_form, path_form, put_form, reader_form, save_form, take_bytes_form};
use crate::silent_forms::{bare_form, raise_form, sleep_form, trace_form};
use script_draft::{Cursor, Draft, Scope};
use script_forms::{Head, Node, ScriptFault};

/// The rest of a statement without a block, behind its word; its node has this number.
pub(crate) fn leaf_form(
    cursor: &mut Cursor,
    draft: &mut Draft,
    scope: &Scope,
    head: Head,
    opened: u32,
) -> Result<(), ScriptFault>
    requires items { Fits (arity_of head) (tree_count (ahead cursor.old)) }
    requires leaf { shape_of head ≡ Leaf }
    requires opened { length draft.old.nodes ≡ opened + 1 }
    ensures behind { IfOk result (λ _. IsBehind cursor.old cursor.new) }
    ensures reads { (last : Bool) (at : ℕ) (word : Tree) → States result (model.form scope.now last at (head_of head) (And word (ahead cursor.old))) scope.now opened draft.old draft.new }
{
    match head {
        Head::Raise => raise_form(cursor, draft, scope, opened),
        Head::Trace => trace_form(cursor, draft, scope, opened),
        Head::Cancel => cancel_form(cursor, draft, scope, opened),
        Head::Fail => fail_form(cursor, draft, scope, opened),
        Head::Object(call) => object_form(cursor, draft, scope, call, opened),
        Head::ObjectWith(call) => object_form_with(cursor, draft, scope, call, opened),
        Head::Sleep => sleep_form(cursor, draft, scope, opened),
        Head::Reader(call) => reader_form(cursor, draft, scope, call, opened),
        Head::TakeBytes => take_bytes_form(cursor, draft, scope, opened),
        Head::Copy => copy_form(cursor, draft, scope, opened),
        Head::Put => put_form(cursor, draft, scope, opened),
        Head::Path(call) => path_form(cursor, draft, scope, call, opened),
        Head::Save { only_new } => save_form(cursor, draft, scope, only_new, opened),
        Head::Yield => bare_form(cursor, draft, Node::Yield, opened),
        Head::Check => bare_form(cursor, draft, Node::Check, opened),
        Head::AwaitCancel => bare_form(cursor, draft, Node::AwaitCancel, opened),
        Head::Now => bare_form(cursor, draft, Node::Now, opened),
        _ => unreachable!(),
    }
}
