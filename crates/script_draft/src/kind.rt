//! What a name can stand for.

ghost use Rattle.std.specs.Prelude.{◌≡◌};
ghost use Rattle.spec_script.specs.Kinds.{kind_number, is_same_kind};
ghost use Rattle.script_draft.specs.Names.{kind_of};

/// What a name can stand for: something of a block, or something declared.
#[derive(Clone, Copy)]
pub enum Kind {
    Variable,
    Context,
    Switch,
    Reader,
    Writer,
    Capability,
    Stream,
    Promise,
    Semaphore,
    Mutex,
    Pool,
    Executor,
    Flow,
    Directory,
}

/// A number for each kind, by which they are told apart.
fn kind_number(kind: Kind) -> u8
    ensures { result ≡ kind_number (kind_of kind) }
{
    match kind {
        Kind::Variable => 0,
        Kind::Context => 1,
        Kind::Switch => 2,
        Kind::Reader => 3,
        Kind::Writer => 4,
        Kind::Capability => 5,
        Kind::Stream => 6,
        Kind::Promise => 7,
        Kind::Semaphore => 8,
        Kind::Mutex => 9,
        Kind::Pool => 10,
        Kind::Executor => 11,
        Kind::Flow => 12,
        Kind::Directory => 13,
    }
}

/// Whether both are the same.
pub(crate) fn is_same_kind(a: Kind, b: Kind) -> bool
    ensures { result ≡ is_same_kind (kind_of a) (kind_of b) }
{
    kind_number(a) == kind_number(b)
}
