//! Statements and the blocks of statements in them. The theorem is the clause `reads` of [`statements`].
#![tactic(auto, using(script_draft::proofs::Counts::some_ahead, script_draft::proofs::Counts::none_ahead, script_draft::proofs::Counts::count_past))]

ghost use Rattle.std.specs.Prelude.{◌≡◌, ◌+◌, ◌↔◌, ℕ, Bool, List, true, IsTrue, IfOk, length};
ghost use Rattle.spec_script.specs.Reads.{◌>>>◌};
ghost use Rattle.spec_script.specs.Syntax.{Branches};
ghost use Rattle.spec_script.specs.Forms as forms;
ghost use Rattle.spec_script.specs.Statements as model;
ghost use Rattle.spec_script.specs.Trees.{Tree, And};
ghost use Rattle.script_draft.specs.Ahead.{ahead, has_tree, tree_ahead, tree_count, IsPast, IsBehind};
ghost use Rattle.script_statements.specs.Blocks.{is_last, Blocked, Values, Opened, Comes};
ghost use Rattle.script_forms.specs.Calls.{group_of};
ghost use Rattle.script_forms.specs.Flat.{flat_statements};
ghost use Rattle.script_forms.specs.Heads.{head_of, form_seen, arity_of, shape_of, Fits};
ghost use Rattle.script_draft.specs.Readings.{Grows, States};
ghost use Rattle.script_forms.specs.declared.heads.Shape.TheVariants as shape;

use crate::bodies::open_body;
use crate::expressions::item;
use crate::leaves::leaf_form;
use script_draft::{Cursor, Draft, Kind, Scope};
use script_forms::{
    Arity, Form, Group, Head, Node, Numbers, ScriptFault, Shape, arity_of, form_of, shape_of,
};
use spec_script::Feature;

/// The most branches of a form.
const MOST_BRANCHES: usize = 64;

/// The statements of a block, up to the end of its list.
///
/// # Errors
/// The fault of the first refused node.
#[cycle(statements)]
pub fn statements<'t, 'd>(
    cursor: &mut Cursor<'t>,
    draft: &mut Draft,
    scope: &Scope<'t, 'd>,
) -> Result<(), ScriptFault>
    ensures behind { IfOk result (λ _. IsBehind cursor.old cursor.new) }
    ensures reads { Grows result (model.statements scope.now (ahead cursor.old)) flat_statements draft.old draft.new }
{
    let mut inside = scope.inner()?;
    while cursor.has_tree() {
        statement(cursor, draft, &mut inside)?;
    }
    draft.push(Node::End)?;
    cursor.close();
    Ok(())
}

/// The statement that comes next; the names behind it are left in `scope`.
#[cycle(statements)]
fn statement<'t, 'd>(
    cursor: &mut Cursor<'t>,
    draft: &mut Draft,
    scope: &mut Scope<'t, 'd>,
) -> Result<(), ScriptFault>
    requires { has_tree cursor.old ≡ true }
    ensures past { IfOk result (λ _. IsPast cursor.old cursor.new) }
    ensures reads { States result (model.statement scope.old (is_last (ahead cursor.old)) (tree_ahead cursor.old)) scope.new (length draft.old.nodes) draft.old draft.new }
{
    let at = cursor.place();
    let is_last = cursor.count(2) == 1;
    let Some(word) = cursor.enter() else {
        return Err(ScriptFault::Shape(at));
    };
    let Some(it) = form_of(word.word) else {
        return Err(ScriptFault::Shape(at));
    };
    let opened = form_node(cursor, draft, at, &it)?;
    form(cursor, draft, scope, is_last, at, it.head, opened)
}

/// The node of a form, whose place is filled once the form was read.
fn form_node(cursor: &Cursor, draft: &mut Draft, at: u32, it: &Form) -> Result<u32, ScriptFault>
    ensures place { IfOk result (λ opened. opened ≡ length draft.old.nodes) }
    ensures reads { (word : List ℕ) → Opened result (model.form_node at (form_seen word it.now) (ahead cursor.now)) draft.old draft.new }
{
    draft.form(at, feature_of(cursor, it), it.mocked)?;
    Ok(draft.open()?)
}

/// The rest of a statement behind its word; its node has this number.
#[cycle(statements)]
fn form<'t, 'd>(
    cursor: &mut Cursor<'t>,
    draft: &mut Draft,
    scope: &mut Scope<'t, 'd>,
    is_last: bool,
    at: u32,
    head: Head,
    opened: u32,
) -> Result<(), ScriptFault>
    requires { length draft.old.nodes ≡ opened + 1 }
    ensures behind { IfOk result (λ _. IsBehind cursor.old cursor.new) }
    ensures reads { (word : Tree) → States result (model.form scope.old is_last at (head_of head) (And word (ahead cursor.old))) scope.new opened draft.old draft.new }
{
    if !is_fitting(cursor, head) {
        return Err(ScriptFault::Shape(at));
    }
    match shape_of(head) {
        Shape::Let => let_form(cursor, draft, scope, opened),
        Shape::Give => {
            if !is_last {
                return Err(ScriptFault::Shape(at));
            }
            give_form(cursor, draft, scope, opened)
        }
        Shape::If => if_form(cursor, draft, scope, opened),
        Shape::Try => try_form(cursor, draft, scope, opened),
        Shape::Branches(group) => branches_form(cursor, draft, scope, group, opened),
        Shape::Body => body_form(cursor, draft, scope, head, opened),
        Shape::Leaf => leaf_form(cursor, draft, scope, head, opened),
    }
}

/// Whether as many items stand behind the word of a form as it wants.
fn is_fitting(cursor: &Cursor, head: Head) -> bool
    ensures { IsTrue result ↔ Fits (arity_of head) (tree_count (ahead cursor.now)) }
{
    match arity_of(head) {
        Arity::Exactly(count) => cursor.count(count + 1) == count,
        Arity::AtLeast(count) => cursor.count(count) == count,
    }
}

/// `(let NAME VALUE)`
#[cycle(statements)]
fn let_form<'t, 'd>(
    cursor: &mut Cursor<'t>,
    draft: &mut Draft,
    scope: &mut Scope<'t, 'd>,
    opened: u32,
) -> Result<(), ScriptFault>
    requires items { tree_count (ahead cursor.old) ≡ 2 }
    requires opened { length draft.old.nodes ≡ opened + 1 }
    ensures behind { IfOk result (λ _. IsBehind cursor.old cursor.new) }
    ensures reads { (last : Bool) (at : ℕ) (word : Tree) → States result (model.form scope.old last at forms.LetHead (And word (ahead cursor.old))) scope.new opened draft.old draft.new }
{
    let mut behind = scope.inner()?;
    behind.bring(Kind::Variable, cursor)?;
    let node = value(cursor, draft, scope)?;
    draft.fill(opened, node);
    cursor.close();
    *scope = behind;
    Ok(())
}

/// What a `let` binds, and the node of the `let`: a form that gives a value, or an expression.
#[cycle(statements)]
fn value<'t, 'd>(
    cursor: &mut Cursor<'t>,
    draft: &mut Draft,
    scope: &Scope<'t, 'd>,
) -> Result<Node, ScriptFault>
    requires { has_tree cursor.old ≡ true }
    ensures past { IfOk result (λ _. IsPast cursor.old cursor.new) }
    ensures reads { Values result (model.value scope.now (tree_ahead cursor.old)) draft.old draft.new }
{
    let at = cursor.place();
    let Some(it) = form_coming(cursor) else {
        item(cursor, draft, scope, false)?;
        return Ok(Node::Let);
    };
    if !it.gives {
        return Err(ScriptFault::Shape(at));
    }
    cursor.enter();
    let opened = form_node(cursor, draft, at, &it)?;
    let mut inside = scope.inner()?;
    form(cursor, draft, &mut inside, true, at, it.head, opened)?;
    Ok(Node::LetForm)
}

/// `(if EXPRESSION BLOCK BLOCK)`
#[cycle(statements)]
fn if_form<'t, 'd>(
    cursor: &mut Cursor<'t>,
    draft: &mut Draft,
    scope: &Scope<'t, 'd>,
    opened: u32,
) -> Result<(), ScriptFault>
    requires items { tree_count (ahead cursor.old) ≡ 3 }
    requires opened { length draft.old.nodes ≡ opened + 1 }
    ensures behind { IfOk result (λ _. IsBehind cursor.old cursor.new) }
    ensures reads { (last : Bool) (at : ℕ) (word : Tree) → States result (model.form scope.now last at forms.IfHead (And word (ahead cursor.old))) scope.now opened draft.old draft.new }
{
    item(cursor, draft, scope, false)?;
    let then_block = draft.next();
    block(cursor, draft, scope, false)?;
    let else_block = draft.next();
    block(cursor, draft, scope, false)?;
    let after = draft.next();
    draft.fill(
        opened,
        Node::If {
            then_block,
            else_block,
            after,
        },
    );
    cursor.close();
    Ok(())
}

/// `(try BLOCK NAME BLOCK)`
#[cycle(statements)]
fn try_form<'t, 'd>(
    cursor: &mut Cursor<'t>,
    draft: &mut Draft,
    scope: &Scope<'t, 'd>,
    opened: u32,
) -> Result<(), ScriptFault>
    requires items { tree_count (ahead cursor.old) ≡ 3 }
    requires opened { length draft.old.nodes ≡ opened + 1 }
    ensures behind { IfOk result (λ _. IsBehind cursor.old cursor.new) }
    ensures reads { (last : Bool) (at : ℕ) (word : Tree) → States result (model.form scope.now last at forms.TryHead (And word (ahead cursor.old))) scope.now opened draft.old draft.new }
{
    let tried = draft.next();
    block(cursor, draft, scope, false)?;
    let mut inner = scope.inner()?;
    inner.bring(Kind::Variable, cursor)?;
    let handler = draft.next();
    block(cursor, draft, &inner, false)?;
    let after = draft.next();
    draft.fill(
        opened,
        Node::Try {
            tried,
            handler,
            after,
        },
    );
    cursor.close();
    Ok(())
}

/// `(both BLOCK BLOCK)`, `(first BLOCK BLOCK)`, `(all BLOCK*)`, `(any BLOCK*)`
#[cycle(statements)]
fn branches_form<'t, 'd>(
    cursor: &mut Cursor<'t>,
    draft: &mut Draft,
    scope: &Scope<'t, 'd>,
    group: Group,
    opened: u32,
) -> Result<(), ScriptFault>
    requires { length draft.old.nodes ≡ opened + 1 }
    ensures behind { IfOk result (λ _. IsBehind cursor.old cursor.new) }
    ensures reads { States result (model.branches scope.now 0 (ahead cursor.old) >>> λ blocks. model.stated scope.now (Branches (group_of group) blocks)) scope.now opened draft.old draft.new }
{
    let mut blocks = Vec::new(draft.alloc());
    while cursor.has_tree() {
        blocks.push(draft.next())?;
        block(cursor, draft, scope, blocks.len() > MOST_BRANCHES)?;
    }
    let after = draft.next();
    draft.fill(
        opened,
        Node::Branches {
            group,
            blocks: Numbers::new(blocks),
            after,
        },
    );
    cursor.close();
    Ok(())
}

/// A form whose last items are the statements of one block.
#[cycle(statements)]
fn body_form<'t, 'd>(
    cursor: &mut Cursor<'t>,
    draft: &mut Draft,
    scope: &Scope<'t, 'd>,
    head: Head,
    opened: u32,
) -> Result<(), ScriptFault>
    requires items { Fits (arity_of head) (tree_count (ahead cursor.old)) }
    requires body { shape_of head ≡ shape.Body }
    requires opened { length draft.old.nodes ≡ opened + 1 }
    ensures behind { IfOk result (λ _. IsBehind cursor.old cursor.new) }
    ensures reads { (last : Bool) (at : ℕ) (word : Tree) → States result (model.form scope.now last at (head_of head) (And word (ahead cursor.old))) scope.now opened draft.old draft.new }
{
    let it = open_body(cursor, draft, scope, head)?;
    let body = draft.next();
    statements(cursor, draft, &it.inner)?;
    let after = draft.next();
    draft.fill(opened, it.form.into_node(body, after));
    Ok(())
}

/// The block that comes next; `full` says that as many stand before it as may be.
#[cycle(statements)]
fn block<'t, 'd>(
    cursor: &mut Cursor<'t>,
    draft: &mut Draft,
    scope: &Scope<'t, 'd>,
    full: bool,
) -> Result<(), ScriptFault>
    requires { has_tree cursor.old ≡ true }
    ensures past { IfOk result (λ _. IsPast cursor.old cursor.new) }
    ensures reads { Blocked result (model.block scope.now full (tree_ahead cursor.old)) draft.old draft.new }
{
    let place = cursor.place();
    let Some(at) = cursor.open() else {
        return Err(ScriptFault::Shape(place));
    };
    if full {
        return Err(ScriptFault::Size(at));
    }
    statements(cursor, draft, scope)
}

/// `(give EXPRESSION)`, which ends a block.
fn give_form(
    cursor: &mut Cursor,
    draft: &mut Draft,
    scope: &Scope,
    opened: u32,
) -> Result<(), ScriptFault>
    requires items { tree_count (ahead cursor.old) ≡ 1 }
    requires opened { length draft.old.nodes ≡ opened + 1 }
    ensures behind { IfOk result (λ _. IsBehind cursor.old cursor.new) }
    ensures reads { (at : ℕ) (word : Tree) → States result (model.form scope.now true at forms.GiveHead (And word (ahead cursor.old))) scope.now opened draft.old draft.new }
{
    item(cursor, draft, scope, false)?;
    draft.fill(opened, Node::Give);
    cursor.close();
    Ok(())
}

/// The form that the list begins that comes next, if it begins one.
fn form_coming(cursor: &Cursor) -> Option<Form>
    ensures { Comes result (tree_ahead cursor.now) }
{
    form_of(cursor.form_ahead()?.word)
}

/// The feature that brings a form, the cursor being behind its word.
fn feature_of(cursor: &Cursor, it: &Form) -> Feature
    ensures { (word : List ℕ) → result ≡ forms.feature_of (form_seen word it.now) (ahead cursor.now) }
{
    match it.head {
        Head::Trace => trace_feature(cursor),
        _ => it.feature,
    }
}

/// The feature that brings a `trace`: the first forms have one or more texts.
fn trace_feature(cursor: &Cursor) -> Feature
    ensures { result ≡ forms.trace_feature (ahead cursor.now) }
{
    if !cursor.has_tree() {
        return Feature::Exceptions;
    }
    if cursor.are_texts() {
        Feature::FirstForms
    } else {
        Feature::Exceptions
    }
}
