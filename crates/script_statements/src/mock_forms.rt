//! Statements for the mocked domain alone, without a block: readers and writers, flows, paths. The theorem is the clause `reads` of each.

#![tactic(auto, using(script_draft::proofs::Counts::some_ahead, script_draft::proofs::Counts::none_ahead, script_draft::proofs::Counts::count_past))]

ghost use Rattle.std.specs.Prelude.{◌≡◌, ◌+◌, ◌≤◌, ℕ, Bool, IfOk, length};
ghost use Rattle.spec_script.specs.Forms as forms;
ghost use Rattle.spec_script.specs.Statements as model;
ghost use Rattle.spec_script.specs.Trees.{Tree, And};
ghost use Rattle.script_draft.specs.Ahead.{ahead, tree_count, IsBehind};
ghost use Rattle.script_draft.specs.Readings.{States};
ghost use Rattle.script_forms.specs.Calls.{reader_call_of, path_call_of};

use crate::expressions::item;
use script_draft::{Cursor, Draft, Kind, Scope};
use script_forms::{Node, PathCall, ReaderCall, ScriptFault};

/// `(line READER)`, `(take-all READER)`, `(char READER)`, `(at-end READER)`
pub(crate) fn reader_form(
    cursor: &mut Cursor,
    draft: &mut Draft,
    scope: &Scope,
    call: ReaderCall,
    opened: u32,
) -> Result<(), ScriptFault>
    requires items { tree_count (ahead cursor.old) ≡ 1 }
    requires opened { length draft.old.nodes ≡ opened + 1 }
    ensures behind { IfOk result (λ _. IsBehind cursor.old cursor.new) }
    ensures reads { (last : Bool) (at : ℕ) (word : Tree) → States result (model.form scope.now last at (forms.ReaderHead (reader_call_of call)) (And word (ahead cursor.old))) scope.now opened draft.old draft.new }
{
    let reader = scope.used(Kind::Reader, cursor)?;
    draft.fill(opened, Node::OnReader { call, reader });
    cursor.close();
    Ok(())
}

/// `(take-bytes READER EXPRESSION)`
pub(crate) fn take_bytes_form(
    cursor: &mut Cursor,
    draft: &mut Draft,
    scope: &Scope,
    opened: u32,
) -> Result<(), ScriptFault>
    requires items { tree_count (ahead cursor.old) ≡ 2 }
    requires opened { length draft.old.nodes ≡ opened + 1 }
    ensures behind { IfOk result (λ _. IsBehind cursor.old cursor.new) }
    ensures reads { (last : Bool) (at : ℕ) (word : Tree) → States result (model.form scope.now last at forms.TakeBytesHead (And word (ahead cursor.old))) scope.now opened draft.old draft.new }
{
    let reader = scope.used(Kind::Reader, cursor)?;
    item(cursor, draft, scope, false)?;
    draft.fill(opened, Node::TakeBytes { reader });
    cursor.close();
    Ok(())
}

/// `(copy FLOW FLOW)`
pub(crate) fn copy_form(
    cursor: &mut Cursor,
    draft: &mut Draft,
    scope: &Scope,
    opened: u32,
) -> Result<(), ScriptFault>
    requires items { tree_count (ahead cursor.old) ≡ 2 }
    requires opened { length draft.old.nodes ≡ opened + 1 }
    ensures behind { IfOk result (λ _. IsBehind cursor.old cursor.new) }
    ensures reads { (last : Bool) (at : ℕ) (word : Tree) → States result (model.form scope.now last at forms.CopyHead (And word (ahead cursor.old))) scope.now opened draft.old draft.new }
{
    let from = scope.used(Kind::Flow, cursor)?;
    let to = scope.used(Kind::Flow, cursor)?;
    draft.fill(opened, Node::Copy { from, to });
    cursor.close();
    Ok(())
}

/// `(put WRITER EXPRESSION)`
pub(crate) fn put_form(
    cursor: &mut Cursor,
    draft: &mut Draft,
    scope: &Scope,
    opened: u32,
) -> Result<(), ScriptFault>
    requires items { tree_count (ahead cursor.old) ≡ 2 }
    requires opened { length draft.old.nodes ≡ opened + 1 }
    ensures behind { IfOk result (λ _. IsBehind cursor.old cursor.new) }
    ensures reads { (last : Bool) (at : ℕ) (word : Tree) → States result (model.form scope.now last at forms.PutHead (And word (ahead cursor.old))) scope.now opened draft.old draft.new }
{
    let writer = scope.used(Kind::Writer, cursor)?;
    item(cursor, draft, scope, false)?;
    draft.fill(opened, Node::Put { writer });
    cursor.close();
    Ok(())
}

/// `(load DIRECTORY EXPRESSION)`, `(mkdir DIRECTORY EXPRESSION)` and so on.
pub(crate) fn path_form(
    cursor: &mut Cursor,
    draft: &mut Draft,
    scope: &Scope,
    call: PathCall,
    opened: u32,
) -> Result<(), ScriptFault>
    requires items { tree_count (ahead cursor.old) ≡ 2 }
    requires opened { length draft.old.nodes ≡ opened + 1 }
    ensures behind { IfOk result (λ _. IsBehind cursor.old cursor.new) }
    ensures reads { (last : Bool) (at : ℕ) (word : Tree) → States result (model.form scope.now last at (forms.PathHead (path_call_of call)) (And word (ahead cursor.old))) scope.now opened draft.old draft.new }
{
    let directory = scope.directory(cursor)?;
    item(cursor, draft, scope, false)?;
    draft.fill(opened, Node::OnPath { call, directory });
    cursor.close();
    Ok(())
}

/// `(save DIRECTORY EXPRESSION EXPRESSION)`, `(save-new DIRECTORY EXPRESSION EXPRESSION)`
pub(crate) fn save_form(
    cursor: &mut Cursor,
    draft: &mut Draft,
    scope: &Scope,
    only_new: bool,
    opened: u32,
) -> Result<(), ScriptFault>
    requires items { tree_count (ahead cursor.old) ≡ 3 }
    requires opened { length draft.old.nodes ≡ opened + 1 }
    ensures behind { IfOk result (λ _. IsBehind cursor.old cursor.new) }
    ensures reads { (last : Bool) (at : ℕ) (word : Tree) → States result (model.form scope.now last at (forms.SaveHead only_new) (And word (ahead cursor.old))) scope.now opened draft.old draft.new }
{
    let directory = scope.directory(cursor)?;
    item(cursor, draft, scope, false)?;
    item(cursor, draft, scope, false)?;
    draft.fill(
        opened,
        Node::Save {
            only_new,
            directory,
        },
    );
    cursor.close();
    Ok(())
}
