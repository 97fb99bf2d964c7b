//! Reading of scripts: `(eio VERSION DECLARATION* (main STATEMENT*) (domain STATEMENT*)*)`. The theorem is the clauses of [`read_script`].
#![tactic(auto, using(script_draft::proofs::Counts::some_ahead, script_draft::proofs::Counts::none_ahead, script_draft::proofs::Counts::count_past))]

ghost use Rattle.std.specs.Prelude.{◌≡◌, ◌+◌, ◌<◌, ◌≤◌, IfOk, IfErr, codes, is_some, length, true, false};
ghost use Rattle.spec_script.specs.Declarations as declared;
ghost use Rattle.spec_script.specs.Scripts.{script_of, items_behind, body_scope, domains_in, first_place, version_of};
ghost use Rattle.spec_script.specs.Trees.{Trees};
ghost use Rattle.script_draft.specs.Ahead.{ahead, has_tree, tree_ahead, IsPast};
ghost use Rattle.script_statements.specs.Blocks.{Blocked};
ghost use Rattle.script_declarations.specs.DeclarationsRead.{declared_of, IsAtMain, is_main};
ghost use Rattle.script_draft.specs.Drafts.{nothing_drafted};
ghost use Rattle.script_forms.specs.declared.fault.ScriptFault.TheVariants as variant;
ghost use Rattle.script_forms.specs.Faults.{Fails};
ghost use Rattle.script_lang.specs.Outlines.{IsOutlined};
ghost use Rattle.script_lang.specs.ScriptsRead.{domain_of, one_if, Bodied, Roots, Names};

use eio_value::{NoMemory, TextId};
use script_code::{Parts, Script};
use script_declarations::declarations::{Declared, declarations as read_declarations, is_at_end};
use script_draft::{Cursor, Draft, Finished, Scope};
use script_forms::{Decl, ScriptFault, is_word, limits_of};
use script_statements::statements::statements;
use script_tree::Tree;
use spec_script::Limits;
use std::alloc::Global;

/// The script that a tree stands for.
///
/// # Errors
/// The fault of the first refused node, in reading order, with its offset.
pub fn read_script(alloc: Global, tree: &Tree) -> Result<Script, ScriptFault>
    ensures ok { IfOk result (λ script. script_of tree.now ≡ Ok script) }
    ensures fault { IfErr result (λ fault. Fails fault (script_of tree.now)) }
{
    let mut draft = Draft::new(alloc);
    let outline = read_outline(tree, &mut draft)?;
    let parts = parts_of(outline, draft.finish());
    Ok(Script::new(alloc, parts)?)
}

/// What is read of a script beside its draft.
#[derive(Drop)]
struct Outline {
    tree: Tree,
    version: u32,
    names: Vec<TextId>,
    declarations: Vec<Decl>,
    /// The numbers of the first nodes of the bodies.
    bodies: Vec<u32>,
    /// The place of the first body behind main.
    first_domain: Option<u32>,
}

/// The parts of a script, of what was read beside its draft and of that.
fn parts_of(outline: Outline, made: Finished) -> Parts
    ensures { result ≡ record { tree = outline.tree; version = outline.version; names = outline.names; declarations = outline.declarations; nodes = made.nodes; bodies = outline.bodies; texts = made.texts; failures = made.failures; formed = made.formed; first_domain = outline.first_domain } }
{
    Parts {
        tree: outline.tree,
        version: outline.version,
        names: outline.names,
        declarations: outline.declarations,
        nodes: made.nodes,
        bodies: outline.bodies,
        texts: made.texts,
        failures: made.failures,
        formed: made.formed,
        first_domain: outline.first_domain,
    }
}

/// What a tree holds of a script beside what goes into the draft, in which nothing stands yet.
fn read_outline(tree: &Tree, draft: &mut Draft) -> Result<Outline, ScriptFault>
    requires { draft.old ≡ nothing_drafted }
    ensures tree { IfOk result (λ outline. outline.tree ≡ tree.now) }
    ensures read { IfOk result (λ outline. IsOutlined outline draft.new) }
    ensures fault { IfErr result (λ fault. Fails fault (script_of tree.now)) }
{
    let mut cursor = Cursor::new(tree.nodes());
    let found = root(&mut cursor)?;
    let limits = limits_of(found.version);
    let declared = read_declarations(&mut cursor, draft, limits, found.bodies)?;
    let bodies = bodies_behind(&cursor, draft, limits, &declared)?;
    Ok(outline_of(tree, draft.alloc(), found.version, declared, bodies)?)
}

/// The bodies behind these declarations, of which main comes next.
fn bodies_behind<'t>(
    cursor: &Cursor<'t>,
    draft: &mut Draft,
    limits: Limits,
    declared: &Declared<'t>,
) -> Result<Bodies, ScriptFault>
    requires { is_main (tree_ahead cursor.now) ≡ true }
    ensures { Bodied result limits (declared_of declared.now) (ahead cursor.now) draft.old draft.new }
{
    let scope = Scope::new(draft.alloc(), &declared.scope);
    let mut rest = cursor.again();
    read_bodies(&mut rest, draft, limits, &scope)
}

/// What was read from this tree.
fn outline_of(
    tree: &Tree,
    alloc: Global,
    version: u32,
    declared: Declared,
    bodies: Bodies,
) -> Result<Outline, NoMemory>
    ensures { IfOk result (λ outline. outline ≡ record { tree = tree.now; version = version; names = declared.entry.names; declarations = declared.entry.declarations; bodies = bodies.numbers; first_domain = bodies.first_domain }) }
{
    Ok(Outline {
        tree: tree.copy(alloc)?,
        version,
        names: declared.names,
        declarations: declared.declarations,
        bodies: bodies.numbers,
        first_domain: bodies.first_domain,
    })
}

/// What stands before the declarations of a script.
#[derive(Clone, Copy)]
pub(crate) struct Heading {
    /// The version of the notation.
    pub(crate) version: u32,
    /// How many bodies a worker may name.
    pub(crate) bodies: u32,
}

/// What stands before the declarations.
fn root(cursor: &mut Cursor) -> Result<Heading, ScriptFault>
    requires { has_tree cursor.old ≡ true }
    ensures { Roots result (script_of (tree_ahead cursor.old)) (ahead cursor.new) }
{
    let at = cursor.place();
    let Some(head) = cursor.enter() else {
        return Err(ScriptFault::Shape(at));
    };
    if !is_word(head.word, b"eio") {
        return Err(ScriptFault::Shape(at));
    }
    let Some(number) = cursor.number_ahead() else {
        return Err(ScriptFault::Shape(at));
    };
    cursor.pass();
    let Some(bodies) = bodies_named(cursor)? else {
        return Err(ScriptFault::Shape(at));
    };
    let Some(version) = version_of(number.number) else {
        return Err(ScriptFault::Shape(number.at));
    };
    Ok(Heading { version, bodies })
}

/// The version that a number stands for, if it is one that is read.
fn version_of(number: i64) -> Option<u32>
    ensures { result ≡ version_of number }
{
    if number == 1 { Some(1) } else { None }
}

/// How many bodies a worker may name: the first list that begins with `main`, and each that begins with `domain` behind it. None
/// where there is no `main`.
fn bodies_named(cursor: &Cursor) -> Result<Option<u32>, ScriptFault>
    ensures { Names result (ahead cursor.now) }
{
    let mut look = cursor.again();
    find_main(&mut look);
    if !look.has_tree() {
        return Ok(None);
    }
    skip(&mut look);
    Ok(Some(count_domains(&mut look)?))
}

/// Passes what stands before the first list that begins with `main`.
fn find_main(cursor: &mut Cursor)
    ensures { IsAtMain cursor.old cursor.new }
{
    while !is_at_end(cursor) {
        skip(cursor);
    }
}

/// How many bodies there are with main, which was passed.
fn count_domains(cursor: &mut Cursor) -> Result<u32, ScriptFault>
    ensures count { IfOk result (λ count. count ≡ domains_in (ahead cursor.old) + 1) }
    ensures fault { IfErr result (λ fault. fault ≡ variant.NoMemory) }
{
    let mut count: u32 = 1;
    while cursor.has_tree() {
        count = count_with(cursor, count)?;
        skip(cursor);
    }
    Ok(count)
}

/// How many bodies there are with the tree that comes next, if it is one.
fn count_with(cursor: &Cursor, count: u32) -> Result<u32, ScriptFault>
    ensures count { IfOk result (λ more. more ≡ count + one_if (is_some (items_behind (codes "domain") (tree_ahead cursor.now)))) }
    ensures fault { IfErr result (λ fault. fault ≡ variant.NoMemory) }
{
    if !is_headed(cursor, b"domain") {
        return Ok(count);
    }
    if count == u32::MAX {
        return Err(ScriptFault::NoMemory);
    }
    Ok(count + 1)
}

/// Whether the tree that comes next is a list that begins with this word.
fn is_headed(cursor: &Cursor, word: &[u8]) -> bool
    ensures { result ≡ is_some (items_behind word.now (tree_ahead cursor.now)) }
{
    match cursor.form_ahead() {
        Some(head) => is_word(head.word, word),
        None => false,
    }
}

/// Passes the tree that comes next.
fn skip(cursor: &mut Cursor)
    requires { has_tree cursor.old ≡ true }
    ensures { IsPast cursor.old cursor.new }
{
    if cursor.open().is_none() {
        cursor.pass();
        return;
    }
    while cursor.has_tree() {
        skip(cursor);
    }
    cursor.close();
}

/// The bodies of a script.
#[derive(Drop)]
pub(crate) struct Bodies {
    /// The number of the first node of each.
    pub(crate) numbers: Vec<u32>,
    /// The place of the first behind main.
    pub(crate) first_domain: Option<u32>,
}

/// The bodies, of which main comes next; as many as `limits` says at most.
fn read_bodies<'t, 'd>(
    cursor: &mut Cursor<'t>,
    draft: &mut Draft,
    limits: Limits,
    scope: &Scope<'t, 'd>,
) -> Result<Bodies, ScriptFault>
    requires { is_main (tree_ahead cursor.old) ≡ true }
    ensures { (declared : declared.Declared) → scope.now ≡ body_scope declared → Bodied result limits declared (ahead cursor.old) draft.old draft.new }
{
    let mut numbers = Vec::new(draft.alloc());
    numbers.push(draft.next())?;
    cursor.enter();
    statements(cursor, draft, scope)?;
    let first_domain = first_place(cursor);
    while cursor.has_tree() {
        let full = numbers.len() >= limits.bodies as usize;
        numbers.push(draft.next())?;
        domain(cursor, draft, scope, full)?;
    }
    Ok(Bodies {
        numbers,
        first_domain,
    })
}

/// The place of the tree that comes next, if one does.
fn first_place(cursor: &Cursor) -> Option<u32>
    ensures { result ≡ first_place (ahead cursor.now) }
{
    if !cursor.has_tree() {
        return None;
    }
    Some(cursor.place())
}

/// The body behind main that comes next; `full` says that as many stand before it as may be.
fn domain<'t, 'd>(
    cursor: &mut Cursor<'t>,
    draft: &mut Draft,
    scope: &Scope<'t, 'd>,
    full: bool,
) -> Result<(), ScriptFault>
    requires { has_tree cursor.old ≡ true }
    ensures past { IfOk result (λ _. IsPast cursor.old cursor.new) }
    ensures reads { Blocked result (domain_of scope.now full (tree_ahead cursor.old)) draft.old draft.new }
{
    let place = cursor.place();
    let Some(head) = cursor.enter() else {
        return Err(ScriptFault::Shape(place));
    };
    if !is_word(head.word, b"domain") {
        return Err(ScriptFault::Shape(place));
    }
    if full {
        return Err(ScriptFault::Size(place));
    }
    statements(cursor, draft, scope)
}
