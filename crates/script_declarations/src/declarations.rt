//! The declarations of a script, which stand before its `main`. The theorem is the clause `reads` of [`declarations`].
#![tactic(auto, using(script_draft::proofs::Counts::some_ahead, script_draft::proofs::Counts::none_ahead, script_draft::proofs::Counts::count_past))]

ghost use Rattle.std.specs.Prelude.{◌≡◌, ◌+◌, ℕ, IfOk, IfErr, true, not, nat_lt, is_some, length, option_map};
ghost use Rattle.spec_script.specs.Declarations as model;
ghost use Rattle.spec_script.specs.Reads as reads;
ghost use Rattle.spec_script.specs.Scopes.{named_in};
ghost use Rattle.spec_script.specs.Trees as trees;
ghost use Rattle.script_draft.specs.Ahead.{ahead, has_tree, tree_ahead, tree_count, IsPast, IsBehind};
ghost use Rattle.script_forms.specs.Declaring.{declaration_of};
ghost use Rattle.script_declarations.specs.DeclarationsRead.{declared_of, form_of, kind_in, mocked_in, feature_in, takes, items_read, named_read, worker_read, ends, before_main, IsAtMain};
ghost use Rattle.script_draft.specs.Names.{kind_of, named_of};
ghost use Rattle.script_draft.specs.Readings.{Finds, Makes};

use crate::entries::entries;
use crate::flow_steps::flow_steps;
use eio_value::{NoMemory, TextId};
use script_draft::{Cursor, Draft, Kind, Named, Number, Word, named_in, number_within};
use script_forms::{Decl, Numbers, ScriptFault, begun};
use spec_script::{Feature, Limits};
use std::alloc::Global;

/// The most workers of an executor.
const MOST_WORKERS: usize = 16;

/// What a declaration's word declares.
#[derive(Clone, Copy)]
pub(crate) enum Object {
    Stream,
    Promise,
    Semaphore,
    Mutex,
    Pool,
    Executor,
    Flow,
    Dir,
}

/// What words declare.
const OBJECTS: [(&[u8], Object); 8] = [
    (b"stream", Object::Stream),
    (b"promise", Object::Promise),
    (b"semaphore", Object::Semaphore),
    (b"mutex", Object::Mutex),
    (b"pool", Object::Pool),
    (b"executor", Object::Executor),
    (b"flow", Object::Flow),
    (b"dir", Object::Dir),
];

/// What a word declares, if anything.
#[tactic(auto, using(crate::proofs::ObjectsFound::object_found))]
fn object_of(word: &[u8]) -> Option<Object>
    ensures { option_map form_of result ≡ model.declaration_form_of word.now }
{
    begun(&OBJECTS, word)
}

/// What a name stands for that is declared so.
fn kind_of(object: Object) -> Kind
    ensures { result ≡ kind_in object }
{
    match object {
        Object::Stream => Kind::Stream,
        Object::Promise => Kind::Promise,
        Object::Semaphore => Kind::Semaphore,
        Object::Mutex => Kind::Mutex,
        Object::Pool => Kind::Pool,
        Object::Executor => Kind::Executor,
        Object::Flow => Kind::Flow,
        Object::Dir => Kind::Directory,
    }
}

/// The feature that brings a declaration.
fn feature_of(object: Object) -> Feature
    ensures { result ≡ feature_in object }
{
    match object {
        Object::Stream | Object::Promise => Feature::StreamsAndPromises,
        Object::Semaphore | Object::Mutex | Object::Pool => Feature::Resources,
        Object::Executor => Feature::Executors,
        Object::Flow => Feature::Flows,
        Object::Dir => Feature::Paths,
    }
}

/// Whether a declaration is for the mocked domain alone.
fn is_mocked(object: Object) -> bool
    ensures { result ≡ mocked_in object }
{
    matches!(object, Object::Flow | Object::Dir)
}

/// Whether a declaration has that many items behind its word, its name among them.
fn takes(object: Object, count: usize) -> bool
    ensures { result ≡ takes object count }
{
    match object {
        Object::Promise | Object::Mutex => count == 1,
        Object::Stream | Object::Semaphore | Object::Pool => count == 2,
        Object::Executor => count >= 2,
        Object::Flow | Object::Dir => count >= 1,
    }
}

/// What was declared so far, in order.
#[derive(Drop)]
pub struct Declared<'t> {
    /// The names in the table of texts.
    pub names: Vec<TextId>,
    /// What the names stand for.
    pub declarations: Vec<Decl>,
    /// The names in scope.
    pub scope: Vec<Named<'t>>,
}

impl<'t> Declared<'t> {
    ghost use Rattle.std.specs.Prelude.{◌≡◌, not, nat_lt, is_some, length, map, OnOk};
    ghost use Rattle.spec_script.specs.Declarations as model;
    ghost use Rattle.spec_script.specs.Scopes.{named_in};
    ghost use Rattle.script_forms.specs.Declaring.{declaration_of};
    ghost use Rattle.script_declarations.specs.DeclarationsRead.{declared_of};
    ghost use Rattle.script_draft.specs.Names.{kind_of, named_of};

    /// Nothing yet.
    fn new(alloc: Global) -> Declared<'t>
        ensures { declared_of result ≡ model.nothing_declared }
    {
        Declared {
            names: Vec::new(alloc),
            declarations: Vec::new(alloc),
            scope: Vec::new(alloc),
        }
    }

    /// Whether as many declarations were read as may be.
    fn is_full(&self, limits: Limits) -> bool
        ensures { result ≡ not (nat_lt (length (declared_of self.now).declarations) limits.declarations) }
    {
        self.declarations.len() >= limits.declarations as usize
    }

    /// Whether a name is taken.
    fn has(&self, name: &[u8]) -> bool
        ensures { result ≡ is_some (named_in (declared_of self.now).scope name.now) }
    {
        named_in(&self.scope, name).is_some()
    }

    /// One declaration more.
    fn push(&mut self, kind: Kind, name: &'t [u8], id: TextId, it: Decl) -> Result<(), NoMemory>
        ensures { OnOk result (declared_of self.new ≡ model.with_declaration (declared_of self.old) (kind_of kind) name.now id (declaration_of it)) }
    {
        let Ok(number) = u32::try_from(self.declarations.len()) else {
            return Err(NoMemory);
        };
        self.names.push(id)?;
        self.declarations.push(it)?;
        self.scope.push(Named { name, kind, number })?;
        Ok(())
    }
}

/// Whether the declarations end here, before a list that begins with `main` or at the end of the list.
pub fn is_at_end(cursor: &Cursor) -> bool
    ensures { result ≡ ends (ahead cursor.now) }
{
    match cursor.form_ahead() {
        Some(head) => head.word == b"main".as_slice(),
        None => !cursor.has_tree(),
    }
}

/// The declarations up to the first list that begins with `main`; as many as `limits` says at most. `bodies` is how many
/// bodies a worker may name.
///
/// # Errors
/// The fault of the first refused declaration.
pub fn declarations<'t>(
    cursor: &mut Cursor<'t>,
    draft: &mut Draft,
    limits: Limits,
    bodies: u32,
) -> Result<Declared<'t>, ScriptFault>
    ensures end { IfOk result (λ _. IsAtMain cursor.old cursor.new) }
    ensures reads { Makes declared_of result (model.declarations_behind limits bodies model.nothing_declared (before_main (ahead cursor.old))) draft.old draft.new }
{
    let mut declared = Declared::new(draft.alloc());
    while !is_at_end(cursor) {
        declaration(cursor, draft, limits, bodies, &mut declared)?;
    }
    Ok(declared)
}

/// The declaration that comes next.
fn declaration<'t>(
    cursor: &mut Cursor<'t>,
    draft: &mut Draft,
    limits: Limits,
    bodies: u32,
    declared: &mut Declared<'t>,
) -> Result<(), ScriptFault>
    requires { has_tree cursor.old ≡ true }
    ensures past { IfOk result (λ _. IsPast cursor.old cursor.new) }
    ensures reads { Makes (λ _. declared_of declared.new) result (model.declaration limits bodies (declared_of declared.old) (tree_ahead cursor.old)) draft.old draft.new }
{
    let at = cursor.place();
    match cursor.enter() {
        Some(head) => form(cursor, draft, limits, bodies, declared, &head),
        None => Err(ScriptFault::Shape(at)),
    }
}

/// The rest of a declaration, behind its word.
fn form<'t>(
    cursor: &mut Cursor<'t>,
    draft: &mut Draft,
    limits: Limits,
    bodies: u32,
    declared: &mut Declared<'t>,
    head: &Word<'t>,
) -> Result<(), ScriptFault>
    ensures behind { IfOk result (λ _. IsBehind cursor.old cursor.new) }
    ensures reads { (place : ℕ) → Makes (λ _. declared_of declared.new) result (model.declaration limits bodies (declared_of declared.old) (trees.Branch head.now.at (trees.And (trees.Word place head.now.word.now) (ahead cursor.old)))) draft.old draft.new }
{
    let Some(it) = object_of(head.word) else {
        return Err(ScriptFault::Shape(head.at));
    };
    if !takes(it, cursor.count(3)) {
        return Err(ScriptFault::Shape(head.at));
    }
    if declared.is_full(limits) {
        return Err(ScriptFault::Size(head.at));
    }
    draft.form(head.at, feature_of(it), is_mocked(it))?;
    named(cursor, draft, bodies, declared, it)
}

/// The name of a declaration, and what stands behind it.
fn named<'t>(
    cursor: &mut Cursor<'t>,
    draft: &mut Draft,
    bodies: u32,
    declared: &mut Declared<'t>,
    object: Object,
) -> Result<(), ScriptFault>
    requires { takes object (tree_count (ahead cursor.old)) ≡ true }
    ensures behind { IfOk result (λ _. IsBehind cursor.old cursor.new) }
    ensures reads { Makes (λ _. declared_of declared.new) result (named_read (kind_of (kind_in object)) bodies (declared_of declared.old) (ahead cursor.old)) draft.old draft.new }
{
    let name = cursor.word()?;
    if declared.has(name.word) {
        return Err(ScriptFault::Twice(name.at));
    }
    let id = draft.text(name.word)?;
    let it = operands(cursor, draft, bodies, object)?;
    declared.push(kind_of(object), name.word, id, it)?;
    Ok(())
}

/// What stands behind the name of a declaration.
fn operands(
    cursor: &mut Cursor,
    draft: &mut Draft,
    bodies: u32,
    object: Object,
) -> Result<Decl, ScriptFault>
    requires { takes object (tree_count (ahead cursor.old) + 1) ≡ true }
    ensures behind { IfOk result (λ _. IsBehind cursor.old cursor.new) }
    ensures reads { Makes declaration_of result (items_read (kind_of (kind_in object)) bodies (ahead cursor.old)) draft.old draft.new }
{
    match object {
        Object::Stream => only_number(cursor, 0, 1024).map(Decl::Stream),
        Object::Semaphore => only_number(cursor, 0, 1_000_000).map(Decl::Semaphore),
        Object::Pool => only_number(cursor, 1, 64).map(Decl::Pool),
        Object::Promise => {
            cursor.close();
            Ok(Decl::Promise)
        }
        Object::Mutex => {
            cursor.close();
            Ok(Decl::Mutex)
        }
        Object::Executor => workers(cursor, draft.alloc(), bodies).map(Decl::Executor),
        Object::Flow => flow_steps(cursor, draft).map(Decl::Flow),
        Object::Dir => entries(cursor, draft).map(Decl::Dir),
    }
}

/// The number that stands alone up to the end of the list.
fn only_number(cursor: &mut Cursor, least: u32, most: u32) -> Result<u32, ScriptFault>
    requires { tree_count (ahead cursor.old) ≡ 1 }
    ensures behind { IfOk result (λ _. IsBehind cursor.old cursor.new) }
    ensures reads { Finds (λ number. number) result (reads.number_within (record { least = least; most = most }) (tree_ahead cursor.old)) }
{
    let number = number_within(cursor, least, most)?;
    cursor.close();
    Ok(number)
}

/// The workers of an executor, up to the end of its list.
fn workers(cursor: &mut Cursor, alloc: Global, bodies: u32) -> Result<Numbers, ScriptFault>
    ensures behind { IfOk result (λ _. IsBehind cursor.old cursor.new) }
    ensures reads { Finds (λ numbers. numbers) result (model.workers bodies 0 (ahead cursor.old)) }
{
    let mut numbers = Vec::new(alloc);
    while cursor.has_tree() {
        let number = cursor.number()?;
        numbers.push(worker(&number, numbers.len(), bodies)?)?;
    }
    cursor.close();
    Ok(Numbers::new(numbers))
}

/// The body that a worker names, where so many workers stand before it.
fn worker(number: &Number, before: usize, bodies: u32) -> Result<u32, ScriptFault>
    ensures { Finds (λ body. body) result (worker_read bodies before number.now.at number.now.number) }
{
    match u32::try_from(number.number) {
        Ok(body) if before < MOST_WORKERS && body < bodies => Ok(body),
        _ => Err(ScriptFault::Size(number.at)),
    }
}
