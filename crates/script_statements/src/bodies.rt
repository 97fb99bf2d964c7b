//! Forms whose last items are the statements of one block: what is read of them before it. The theorem is the clause `reads` of
//! [`open_body`].
#![tactic(auto, using(script_draft::proofs::Counts::some_ahead, script_draft::proofs::Counts::none_ahead, script_draft::proofs::Counts::count_past))]

ghost use Rattle.std.specs.Prelude.{◌≡◌, ◌≤◌, ℕ, Bool, IfOk, IfErr};
ghost use Rattle.spec_script.specs.Forms as forms;
ghost use Rattle.spec_script.specs.Kinds.{SwitchKind};
ghost use Rattle.spec_script.specs.Scopes as scopes;
ghost use Rattle.spec_script.specs.Statements as model;
ghost use Rattle.spec_script.specs.Trees.{Tree, And};
ghost use Rattle.script_draft.specs.Ahead.{ahead, tree_ahead, tree_count, IsPast, IsWithin};
ghost use Rattle.script_statements.specs.Bodies.{Opens, Names, Forks};
ghost use Rattle.script_draft.specs.Drafts.{Drafted};
ghost use Rattle.script_forms.specs.Heads.{head_of, arity_of, shape_of, Fits};
ghost use Rattle.script_draft.specs.Names.{kind_of};
ghost use Rattle.script_forms.specs.declared.heads.Shape.TheVariants.{Body};
ghost use Rattle.script_forms.specs.declared.fault.ScriptFault.TheVariants.{NoMemory};

use crate::captures::captured;
use crate::expressions::item;
use script_draft::{Cursor, Draft, Kind, Scope, number_within};
use script_forms::{Directory, Forking, Head, Node, Numbers, ScriptFault};

/// A form with one block, which stands last, without the block.
#[derive(Drop)]
pub(crate) enum BodyForm {
    Repeat,
    Loop,
    Sub,
    Protect,
    Switch,
    Fork(Forking, u32),
    OnRelease(u32),
    UseRw(u32),
    UsePool(u32),
    Submit(u32, u8, Numbers),
    BufRead(u32, u32),
    BufWrite(u32),
    OpenDir(Directory),
}

impl BodyForm {
    ghost use Rattle.std.specs.Prelude.{◌≡◌};
    ghost use Rattle.script_statements.specs.Bodies.{node_of_body};

    /// Its node, with the number of its block and that behind all that belongs to it.
    pub(crate) fn into_node(self, body: u32, after: u32) -> Node
        ensures { result ≡ node_of_body self body after }
    {
        match self {
            BodyForm::Repeat => Node::Repeat { body, after },
            BodyForm::Loop => Node::Loop { body, after },
            BodyForm::Sub => Node::Sub { body, after },
            BodyForm::Protect => Node::Protect { body, after },
            BodyForm::Switch => Node::Switch { body, after },
            BodyForm::Fork(forking, switch) => Node::Fork {
                forking,
                switch,
                body,
                after,
            },
            BodyForm::OnRelease(switch) => Node::OnRelease {
                switch,
                handler: body,
                after,
            },
            BodyForm::UseRw(mutex) => Node::UseRw { mutex, body, after },
            BodyForm::UsePool(pool) => Node::UsePool { pool, body, after },
            BodyForm::Submit(executor, weight, captured) => Node::Submit {
                executor,
                weight,
                captured,
                job: body,
                after,
            },
            BodyForm::BufRead(flow, limit) => Node::BufRead {
                flow,
                limit,
                body,
                after,
            },
            BodyForm::BufWrite(flow) => Node::BufWrite { flow, body, after },
            BodyForm::OpenDir(directory) => Node::OpenDir {
                directory,
                body,
                after,
            },
        }
    }
}

/// A form with one block, and the names that its block sees.
#[derive(Drop)]
pub(crate) struct Opened<'t, 'd> {
    pub(crate) form: BodyForm,
    pub(crate) inner: Scope<'t, 'd>,
}

/// What stands before the block of a form, behind its word.
pub(crate) fn open_body<'t, 'd>(
    cursor: &mut Cursor<'t>,
    draft: &mut Draft,
    scope: &Scope<'t, 'd>,
    head: Head,
) -> Result<Opened<'t, 'd>, ScriptFault>
    requires items { Fits (arity_of head) (tree_count (ahead cursor.old)) }
    requires body { shape_of head ≡ Body }
    ensures within { IfOk result (λ _. IsWithin cursor.old cursor.new) }
    ensures reads { (last : Bool) (at : ℕ) (word : Tree) → Opens result (model.form scope.now last at (head_of head) (And word (ahead cursor.old))) scope.now (ahead cursor.new) draft.old draft.new }
{
    match head {
        Head::Loop => plain_body(scope, BodyForm::Loop),
        Head::Protect => plain_body(scope, BodyForm::Protect),
        Head::Sub => naming_body(cursor, scope, Kind::Context, BodyForm::Sub),
        Head::Switch => naming_body(cursor, scope, Kind::Switch, BodyForm::Switch),
        Head::Repeat => repeat_body(cursor, draft, scope),
        Head::Fork => fork_body(cursor, scope, Forking::Plain),
        Head::ForkDaemon => fork_body(cursor, scope, Forking::Daemon),
        Head::ForkPromise => fork_promise_body(cursor, scope),
        Head::OnRelease => release_body(cursor, scope),
        Head::UseRw => use_rw_body(cursor, scope),
        Head::UsePool => use_pool_body(cursor, scope),
        Head::Submit => submit_body(cursor, scope),
        Head::BufRead => buf_read_body(cursor, scope),
        Head::BufWrite => buf_write_body(cursor, scope),
        Head::OpenDir => open_dir_body(cursor, draft, scope),
        _ => unreachable!(),
    }
}

/// `(loop STATEMENT*)`, `(protect STATEMENT*)`
fn plain_body<'t, 'd>(scope: &Scope<'t, 'd>, form: BodyForm) -> Result<Opened<'t, 'd>, ScriptFault>
    ensures ok { IfOk result (λ it. (it.form ≡ form) × (it.inner ≡ scope.now)) }
    ensures fault { IfErr result (λ fault. fault ≡ NoMemory) }
{
    Ok(Opened {
        form,
        inner: scope.inner()?,
    })
}

/// `(sub NAME STATEMENT*)`, `(switch NAME STATEMENT*)`: a block with a name of its own.
fn naming_body<'t, 'd>(
    cursor: &mut Cursor<'t>,
    scope: &Scope<'t, 'd>,
    kind: Kind,
    form: BodyForm,
) -> Result<Opened<'t, 'd>, ScriptFault>
    requires { 1 ≤ tree_count (ahead cursor.old) }
    ensures past { IfOk result (λ _. IsPast cursor.old cursor.new) }
    ensures form { IfOk result (λ it. it.form ≡ form) }
    ensures name { Names result (kind_of kind) scope.now (tree_ahead cursor.old) }
{
    let inner = scope.with_name(kind, cursor)?;
    Ok(Opened { form, inner })
}

/// `(repeat NAME EXPRESSION STATEMENT*)`
fn repeat_body<'t, 'd>(
    cursor: &mut Cursor<'t>,
    draft: &mut Draft,
    scope: &Scope<'t, 'd>,
) -> Result<Opened<'t, 'd>, ScriptFault>
    requires { 2 ≤ tree_count (ahead cursor.old) }
    ensures within { IfOk result (λ _. IsWithin cursor.old cursor.new) }
    ensures reads { (last : Bool) (at : ℕ) (word : Tree) → Opens result (model.form scope.now last at forms.RepeatHead (And word (ahead cursor.old))) scope.now (ahead cursor.new) draft.old draft.new }
{
    let inner = scope.with_name(Kind::Variable, cursor)?;
    item(cursor, draft, scope, false)?;
    Ok(Opened {
        form: BodyForm::Repeat,
        inner,
    })
}

/// `(fork SWITCH STATEMENT*)`, `(fork-daemon SWITCH STATEMENT*)`
fn fork_body<'t, 'd>(
    cursor: &mut Cursor<'t>,
    scope: &Scope<'t, 'd>,
    forking: Forking,
) -> Result<Opened<'t, 'd>, ScriptFault>
    requires { 1 ≤ tree_count (ahead cursor.old) }
    ensures past { IfOk result (λ _. IsPast cursor.old cursor.new) }
    ensures inner { IfOk result (λ it. it.inner ≡ scope.now) }
    ensures reads { Forks forking result (scopes.used SwitchKind scope.now (tree_ahead cursor.old)) }
{
    let switch = scope.used(Kind::Switch, cursor)?;
    Ok(Opened {
        form: BodyForm::Fork(forking, switch),
        inner: scope.inner()?,
    })
}

/// `(fork-promise SWITCH PROMISE STATEMENT*)`
fn fork_promise_body<'t, 'd>(
    cursor: &mut Cursor<'t>,
    scope: &Scope<'t, 'd>,
) -> Result<Opened<'t, 'd>, ScriptFault>
    requires { 2 ≤ tree_count (ahead cursor.old) }
    ensures within { IfOk result (λ _. IsWithin cursor.old cursor.new) }
    ensures reads { (d : Drafted) (last : Bool) (at : ℕ) (word : Tree) → Opens result (model.form scope.now last at forms.ForkPromiseHead (And word (ahead cursor.old))) scope.now (ahead cursor.new) d d }
{
    let switch = scope.used(Kind::Switch, cursor)?;
    let promise = scope.used(Kind::Promise, cursor)?;
    Ok(Opened {
        form: BodyForm::Fork(Forking::Promising(promise), switch),
        inner: scope.inner()?,
    })
}

/// `(on-release SWITCH STATEMENT*)`
fn release_body<'t, 'd>(
    cursor: &mut Cursor<'t>,
    scope: &Scope<'t, 'd>,
) -> Result<Opened<'t, 'd>, ScriptFault>
    requires { 1 ≤ tree_count (ahead cursor.old) }
    ensures within { IfOk result (λ _. IsWithin cursor.old cursor.new) }
    ensures reads { (d : Drafted) (last : Bool) (at : ℕ) (word : Tree) → Opens result (model.form scope.now last at forms.OnReleaseHead (And word (ahead cursor.old))) scope.now (ahead cursor.new) d d }
{
    let switch = scope.used(Kind::Switch, cursor)?;
    Ok(Opened {
        form: BodyForm::OnRelease(switch),
        inner: scope.inner()?,
    })
}

/// `(use-rw MUTEX STATEMENT*)`
fn use_rw_body<'t, 'd>(
    cursor: &mut Cursor<'t>,
    scope: &Scope<'t, 'd>,
) -> Result<Opened<'t, 'd>, ScriptFault>
    requires { 1 ≤ tree_count (ahead cursor.old) }
    ensures within { IfOk result (λ _. IsWithin cursor.old cursor.new) }
    ensures reads { (d : Drafted) (last : Bool) (at : ℕ) (word : Tree) → Opens result (model.form scope.now last at forms.UseRwHead (And word (ahead cursor.old))) scope.now (ahead cursor.new) d d }
{
    let mutex = scope.used(Kind::Mutex, cursor)?;
    Ok(Opened {
        form: BodyForm::UseRw(mutex),
        inner: scope.inner()?,
    })
}

/// `(use-pool POOL NAME STATEMENT*)`
fn use_pool_body<'t, 'd>(
    cursor: &mut Cursor<'t>,
    scope: &Scope<'t, 'd>,
) -> Result<Opened<'t, 'd>, ScriptFault>
    requires { 2 ≤ tree_count (ahead cursor.old) }
    ensures within { IfOk result (λ _. IsWithin cursor.old cursor.new) }
    ensures reads { (d : Drafted) (last : Bool) (at : ℕ) (word : Tree) → Opens result (model.form scope.now last at forms.UsePoolHead (And word (ahead cursor.old))) scope.now (ahead cursor.new) d d }
{
    let pool = scope.used(Kind::Pool, cursor)?;
    let inner = scope.with_name(Kind::Variable, cursor)?;
    Ok(Opened {
        form: BodyForm::UsePool(pool),
        inner,
    })
}

/// `(submit EXECUTOR WEIGHT (VARIABLE*) STATEMENT*)`
fn submit_body<'t, 'd>(
    cursor: &mut Cursor<'t>,
    scope: &Scope<'t, 'd>,
) -> Result<Opened<'t, 'd>, ScriptFault>
    requires { 3 ≤ tree_count (ahead cursor.old) }
    ensures within { IfOk result (λ _. IsWithin cursor.old cursor.new) }
    ensures reads { (d : Drafted) (last : Bool) (at : ℕ) (word : Tree) → Opens result (model.form scope.now last at forms.SubmitHead (And word (ahead cursor.old))) scope.now (ahead cursor.new) d d }
{
    let executor = scope.used(Kind::Executor, cursor)?;
    let weight = number_within(cursor, 1, 100)?;
    let job = captured(cursor, scope)?;
    Ok(Opened {
        form: BodyForm::Submit(executor, weight as u8, job.slots),
        inner: job.inner,
    })
}

/// `(buf-read NAME FLOW LIMIT STATEMENT*)`
fn buf_read_body<'t, 'd>(
    cursor: &mut Cursor<'t>,
    scope: &Scope<'t, 'd>,
) -> Result<Opened<'t, 'd>, ScriptFault>
    requires { 3 ≤ tree_count (ahead cursor.old) }
    ensures within { IfOk result (λ _. IsWithin cursor.old cursor.new) }
    ensures reads { (d : Drafted) (last : Bool) (at : ℕ) (word : Tree) → Opens result (model.form scope.now last at forms.BufReadHead (And word (ahead cursor.old))) scope.now (ahead cursor.new) d d }
{
    let inner = scope.with_name(Kind::Reader, cursor)?;
    let flow = scope.used(Kind::Flow, cursor)?;
    let limit = number_within(cursor, 1, 65536)?;
    Ok(Opened {
        form: BodyForm::BufRead(flow, limit),
        inner,
    })
}

/// `(buf-write NAME FLOW STATEMENT*)`
fn buf_write_body<'t, 'd>(
    cursor: &mut Cursor<'t>,
    scope: &Scope<'t, 'd>,
) -> Result<Opened<'t, 'd>, ScriptFault>
    requires { 2 ≤ tree_count (ahead cursor.old) }
    ensures within { IfOk result (λ _. IsWithin cursor.old cursor.new) }
    ensures reads { (d : Drafted) (last : Bool) (at : ℕ) (word : Tree) → Opens result (model.form scope.now last at forms.BufWriteHead (And word (ahead cursor.old))) scope.now (ahead cursor.new) d d }
{
    let inner = scope.with_name(Kind::Writer, cursor)?;
    let flow = scope.used(Kind::Flow, cursor)?;
    Ok(Opened {
        form: BodyForm::BufWrite(flow),
        inner,
    })
}

/// `(open-dir DIRECTORY EXPRESSION NAME STATEMENT*)`
fn open_dir_body<'t, 'd>(
    cursor: &mut Cursor<'t>,
    draft: &mut Draft,
    scope: &Scope<'t, 'd>,
) -> Result<Opened<'t, 'd>, ScriptFault>
    requires { 3 ≤ tree_count (ahead cursor.old) }
    ensures within { IfOk result (λ _. IsWithin cursor.old cursor.new) }
    ensures reads { (last : Bool) (at : ℕ) (word : Tree) → Opens result (model.form scope.now last at forms.OpenDirHead (And word (ahead cursor.old))) scope.now (ahead cursor.new) draft.old draft.new }
{
    let directory = scope.directory(cursor)?;
    item(cursor, draft, scope, false)?;
    let inner = scope.with_name(Kind::Capability, cursor)?;
    Ok(Opened {
        form: BodyForm::OpenDir(directory),
        inner,
    })
}
