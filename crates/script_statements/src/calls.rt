//! Statements that are a call without a block: cancellation, failures of switches, and calls on declared objects. The theorem is the
//! clause `reads` of each.

#![tactic(auto, using(script_draft::proofs::Counts::some_ahead, script_draft::proofs::Counts::none_ahead, script_draft::proofs::Counts::count_past))]

ghost use Rattle.std.specs.Prelude.{◌≡◌, ◌+◌, ◌≤◌, ℕ, Bool, IfOk, length};
ghost use Rattle.spec_script.specs.Forms as forms;
ghost use Rattle.spec_script.specs.Statements as model;
ghost use Rattle.spec_script.specs.Trees.{Tree, And};
ghost use Rattle.script_draft.specs.Ahead.{ahead, tree_count, IsBehind};
ghost use Rattle.spec_script.specs.Kinds as kinds;
ghost use Rattle.script_draft.specs.Names.{kind_of};
ghost use Rattle.script_draft.specs.Readings.{States};
ghost use Rattle.script_forms.specs.Calls.{object_call_of, object_call_with_of};

use crate::expressions::item;
use crate::silent_forms::failure;
use script_draft::{Cursor, Draft, Kind, Scope};
use script_forms::{Node, ObjectCall, ObjectCallWith, ScriptFault};

/// `(cancel CONTEXT TEXT)`
pub(crate) fn cancel_form(
    cursor: &mut Cursor,
    draft: &mut Draft,
    scope: &Scope,
    opened: u32,
) -> Result<(), ScriptFault>
    requires items { tree_count (ahead cursor.old) ≡ 2 }
    requires opened { length draft.old.nodes ≡ opened + 1 }
    ensures behind { IfOk result (λ _. IsBehind cursor.old cursor.new) }
    ensures reads { (last : Bool) (at : ℕ) (word : Tree) → States result (model.form scope.now last at forms.CancelHead (And word (ahead cursor.old))) scope.now opened draft.old draft.new }
{
    let context = scope.used(Kind::Context, cursor)?;
    let text = failure(cursor, draft)?;
    draft.fill(opened, Node::Cancel { context, text });
    cursor.close();
    Ok(())
}

/// `(fail SWITCH TEXT)`
pub(crate) fn fail_form(
    cursor: &mut Cursor,
    draft: &mut Draft,
    scope: &Scope,
    opened: u32,
) -> Result<(), ScriptFault>
    requires items { tree_count (ahead cursor.old) ≡ 2 }
    requires opened { length draft.old.nodes ≡ opened + 1 }
    ensures behind { IfOk result (λ _. IsBehind cursor.old cursor.new) }
    ensures reads { (last : Bool) (at : ℕ) (word : Tree) → States result (model.form scope.now last at forms.FailHead (And word (ahead cursor.old))) scope.now opened draft.old draft.new }
{
    let switch = scope.used(Kind::Switch, cursor)?;
    let text = failure(cursor, draft)?;
    draft.fill(opened, Node::Fail { switch, text });
    cursor.close();
    Ok(())
}

/// `(take STREAM)`, `(length STREAM)`, `(await PROMISE)`, `(lock MUTEX)` and so on.
pub(crate) fn object_form(
    cursor: &mut Cursor,
    draft: &mut Draft,
    scope: &Scope,
    call: ObjectCall,
    opened: u32,
) -> Result<(), ScriptFault>
    requires items { tree_count (ahead cursor.old) ≡ 1 }
    requires opened { length draft.old.nodes ≡ opened + 1 }
    ensures behind { IfOk result (λ _. IsBehind cursor.old cursor.new) }
    ensures reads { (last : Bool) (at : ℕ) (word : Tree) → States result (model.form scope.now last at (forms.ObjectHead (object_call_of call)) (And word (ahead cursor.old))) scope.now opened draft.old draft.new }
{
    let object = scope.used(object_kind(call), cursor)?;
    draft.fill(opened, Node::OnObject { call, object });
    cursor.close();
    Ok(())
}

/// `(add STREAM EXPRESSION)`, `(resolve PROMISE EXPRESSION)`, `(try-resolve PROMISE EXPRESSION)`
pub(crate) fn object_form_with(
    cursor: &mut Cursor,
    draft: &mut Draft,
    scope: &Scope,
    call: ObjectCallWith,
    opened: u32,
) -> Result<(), ScriptFault>
    requires items { tree_count (ahead cursor.old) ≡ 2 }
    requires opened { length draft.old.nodes ≡ opened + 1 }
    ensures behind { IfOk result (λ _. IsBehind cursor.old cursor.new) }
    ensures reads { (last : Bool) (at : ℕ) (word : Tree) → States result (model.form scope.now last at (forms.ObjectHeadWith (object_call_with_of call)) (And word (ahead cursor.old))) scope.now opened draft.old draft.new }
{
    let object = scope.used(object_kind_with(call), cursor)?;
    item(cursor, draft, scope, false)?;
    draft.fill(opened, Node::OnObjectWith { call, object });
    cursor.close();
    Ok(())
}

/// What a call on an object is made on.
fn object_kind(call: ObjectCall) -> Kind
    ensures { kind_of result ≡ kinds.object_kind (object_call_of call) }
{
    match call {
        ObjectCall::Take | ObjectCall::TakeNonblocking | ObjectCall::Length => Kind::Stream,
        ObjectCall::Await => Kind::Promise,
        ObjectCall::Acquire | ObjectCall::Release => Kind::Semaphore,
        ObjectCall::Lock | ObjectCall::TryLock | ObjectCall::Unlock => Kind::Mutex,
    }
}

/// What a call with an operand is made on.
fn object_kind_with(call: ObjectCallWith) -> Kind
    ensures { kind_of result ≡ kinds.object_kind_with (object_call_with_of call) }
{
    match call {
        ObjectCallWith::Add => Kind::Stream,
        ObjectCallWith::Resolve | ObjectCallWith::TryResolve => Kind::Promise,
    }
}
