//! The words of forms: what each begins, how many items stand behind it, and which form is read where.

ghost use Rattle.std.specs.Prelude.{◌≡◌, IsTrue, map, option_map};
ghost use Rattle.std.specs.Str.{bytes_eq};
ghost use Rattle.spec_script.specs.Forms.{form_of};
ghost use Rattle.script_forms.specs.Heads.{form_seen, arity_of, shape_of};
ghost use Rattle.script_forms.specs.Words.{begun, seen};

use crate::node::{Group, ObjectCall, ObjectCallWith, PathCall, ReaderCall};
use spec_script::Feature;

/// What a statement's word begins; those that are read alike have one head.
#[derive(Clone, Copy)]
pub enum Head {
    Let,
    If,
    Give,
    Raise,
    Try,
    Repeat,
    Loop,
    Trace,
    Yield,
    Check,
    AwaitCancel,
    Sub,
    Protect,
    Cancel,
    Switch,
    Fork,
    ForkDaemon,
    ForkPromise,
    Fail,
    OnRelease,
    Pair(Group),
    Row(Group),
    Object(ObjectCall),
    ObjectWith(ObjectCallWith),
    UseRw,
    UsePool,
    Submit,
    Sleep,
    Now,
    BufRead,
    Reader(ReaderCall),
    TakeBytes,
    Copy,
    BufWrite,
    Put,
    OpenDir,
    Path(PathCall),
    Save { only_new: bool },
}

/// A form; one that gives a value may stand in `let`.
#[derive(Clone, Copy)]
pub struct Form {
    /// What its word begins.
    pub head: Head,
    /// Whether it gives a value.
    pub gives: bool,
    /// Whether it is for the mocked domain alone.
    pub mocked: bool,
    /// What brings it.
    pub feature: Feature,
}

/// How many items stand behind a form's word.
#[derive(Clone, Copy)]
pub enum Arity {
    Exactly(usize),
    AtLeast(usize),
}

/// How a form is read.
#[derive(Clone, Copy)]
pub enum Shape {
    Let,
    Give,
    If,
    Try,
    /// A row of blocks.
    Branches(Group),
    /// Its last items are the statements of one block.
    Body,
    /// It has no block.
    Leaf,
}

/// What the words of forms begin: the head, whether it gives a value, whether it is for the mocked domain alone, and its feature.
const FORMS: [(&[u8], (Head, bool, bool, Feature)); 59] = [
    (b"let", (Head::Let, false, false, Feature::Exceptions)),
    (b"if", (Head::If, false, false, Feature::Exceptions)),
    (b"give", (Head::Give, false, false, Feature::Exceptions)),
    (b"raise", (Head::Raise, false, false, Feature::Exceptions)),
    (b"try", (Head::Try, true, false, Feature::Exceptions)),
    (b"repeat", (Head::Repeat, false, false, Feature::Exceptions)),
    (b"loop", (Head::Loop, false, false, Feature::Exceptions)),
    (b"trace", (Head::Trace, false, false, Feature::FirstForms)),
    (b"yield", (Head::Yield, false, false, Feature::FirstForms)),
    (b"check", (Head::Check, false, false, Feature::Exceptions)),
    (
        b"await-cancel",
        (Head::AwaitCancel, false, false, Feature::Exceptions),
    ),
    (b"sub", (Head::Sub, true, false, Feature::Exceptions)),
    (
        b"protect",
        (Head::Protect, true, false, Feature::Exceptions),
    ),
    (b"cancel", (Head::Cancel, false, false, Feature::Exceptions)),
    (b"switch", (Head::Switch, true, false, Feature::FirstForms)),
    (b"fork", (Head::Fork, false, false, Feature::FirstForms)),
    (
        b"fork-daemon",
        (Head::ForkDaemon, false, false, Feature::Switches),
    ),
    (
        b"fork-promise",
        (Head::ForkPromise, false, false, Feature::StreamsAndPromises),
    ),
    (b"fail", (Head::Fail, false, false, Feature::Switches)),
    (
        b"on-release",
        (Head::OnRelease, false, false, Feature::Switches),
    ),
    (
        b"both",
        (Head::Pair(Group::Both), false, false, Feature::Groups),
    ),
    (
        b"all",
        (Head::Row(Group::All), false, false, Feature::Groups),
    ),
    (
        b"first",
        (Head::Pair(Group::First), true, false, Feature::Groups),
    ),
    (
        b"any",
        (Head::Row(Group::Any), true, false, Feature::Groups),
    ),
    (
        b"add",
        (
            Head::ObjectWith(ObjectCallWith::Add),
            false,
            false,
            Feature::StreamsAndPromises,
        ),
    ),
    (
        b"take",
        (
            Head::Object(ObjectCall::Take),
            true,
            false,
            Feature::StreamsAndPromises,
        ),
    ),
    (
        b"take-nonblocking",
        (
            Head::Object(ObjectCall::TakeNonblocking),
            true,
            false,
            Feature::StreamsAndPromises,
        ),
    ),
    (
        b"length",
        (
            Head::Object(ObjectCall::Length),
            true,
            false,
            Feature::StreamsAndPromises,
        ),
    ),
    (
        b"resolve",
        (
            Head::ObjectWith(ObjectCallWith::Resolve),
            false,
            false,
            Feature::StreamsAndPromises,
        ),
    ),
    (
        b"try-resolve",
        (
            Head::ObjectWith(ObjectCallWith::TryResolve),
            true,
            false,
            Feature::StreamsAndPromises,
        ),
    ),
    (
        b"await",
        (
            Head::Object(ObjectCall::Await),
            true,
            false,
            Feature::StreamsAndPromises,
        ),
    ),
    (
        b"acquire",
        (
            Head::Object(ObjectCall::Acquire),
            false,
            false,
            Feature::Resources,
        ),
    ),
    (
        b"release",
        (
            Head::Object(ObjectCall::Release),
            false,
            false,
            Feature::Resources,
        ),
    ),
    (
        b"lock",
        (
            Head::Object(ObjectCall::Lock),
            false,
            false,
            Feature::Resources,
        ),
    ),
    (
        b"try-lock",
        (
            Head::Object(ObjectCall::TryLock),
            true,
            false,
            Feature::Resources,
        ),
    ),
    (
        b"unlock",
        (
            Head::Object(ObjectCall::Unlock),
            false,
            false,
            Feature::Resources,
        ),
    ),
    (b"use-rw", (Head::UseRw, true, false, Feature::Resources)),
    (
        b"use-pool",
        (Head::UsePool, true, false, Feature::Resources),
    ),
    (b"submit", (Head::Submit, true, false, Feature::Executors)),
    (b"sleep", (Head::Sleep, false, true, Feature::Resources)),
    (b"now", (Head::Now, true, true, Feature::Resources)),
    (b"buf-read", (Head::BufRead, true, true, Feature::Flows)),
    (
        b"line",
        (Head::Reader(ReaderCall::Line), true, true, Feature::Flows),
    ),
    (b"take-bytes", (Head::TakeBytes, true, true, Feature::Flows)),
    (
        b"take-all",
        (
            Head::Reader(ReaderCall::TakeAll),
            true,
            true,
            Feature::Flows,
        ),
    ),
    (
        b"char",
        (Head::Reader(ReaderCall::Char), true, true, Feature::Flows),
    ),
    (
        b"at-end",
        (Head::Reader(ReaderCall::AtEnd), true, true, Feature::Flows),
    ),
    (b"copy", (Head::Copy, false, true, Feature::Flows)),
    (b"buf-write", (Head::BufWrite, true, true, Feature::Flows)),
    (b"put", (Head::Put, false, true, Feature::Flows)),
    (b"open-dir", (Head::OpenDir, true, true, Feature::Paths)),
    (
        b"load",
        (Head::Path(PathCall::Load), true, true, Feature::Paths),
    ),
    (
        b"save",
        (Head::Save { only_new: false }, false, true, Feature::Paths),
    ),
    (
        b"save-new",
        (Head::Save { only_new: true }, false, true, Feature::Paths),
    ),
    (
        b"mkdir",
        (Head::Path(PathCall::Mkdir), false, true, Feature::Paths),
    ),
    (
        b"read-dir",
        (Head::Path(PathCall::ReadDir), true, true, Feature::Paths),
    ),
    (
        b"unlink",
        (Head::Path(PathCall::Unlink), false, true, Feature::Paths),
    ),
    (
        b"rmdir",
        (Head::Path(PathCall::Rmdir), false, true, Feature::Paths),
    ),
    (
        b"kind",
        (Head::Path(PathCall::Kind), true, true, Feature::Paths),
    ),
];

/// The form that a word begins, if it begins one.
pub fn form_of(word: &[u8]) -> Option<Form>
    ensures { option_map (form_seen word.now) result ≡ form_of word.now }
{
    let Some((head, gives, mocked, feature)) = begun(&FORMS, word) else {
        return None;
    };
    Some(Form {
        head,
        gives,
        mocked,
        feature,
    })
}

/// What a word begins by a table of words, if anything.
pub fn begun<T: Copy>(mut table: &[(&[u8], T)], word: &[u8]) -> Option<T>
    ensures { result ≡ begun word.now (map seen table.entry.now) }
{
    while let [row, rest @ ..] = table {
        if row.0 == word {
            return Some(row.1);
        }
        table = rest;
    }
    None
}

/// Whether a word is this one.
#[tactic(auto, using(crate::proofs::FormsFound::same_word))]
pub fn is_word(word: &[u8], this: &[u8]) -> bool
    ensures test { result ≡ bytes_eq this.now word.now }
    ensures same { IsTrue result → word.now ≡ this.now }
{
    this == word
}

/// How many items stand behind the word of a form.
pub fn arity_of(head: Head) -> Arity
    ensures { result ≡ arity_of head }
{
    match head {
        Head::Yield | Head::Check | Head::AwaitCancel | Head::Now => Arity::Exactly(0),
        Head::Give | Head::Raise | Head::Sleep | Head::Object(_) | Head::Reader(_) =>
            Arity::Exactly(1),
        Head::Let
        | Head::Cancel
        | Head::Fail
        | Head::Pair(_)
        | Head::ObjectWith(_)
        | Head::TakeBytes
        | Head::Copy
        | Head::Put
        | Head::Path(_) => Arity::Exactly(2),
        Head::If | Head::Try | Head::Save { .. } => Arity::Exactly(3),
        Head::Loop | Head::Trace | Head::Protect | Head::Row(_) => Arity::AtLeast(0),
        Head::Sub | Head::Switch | Head::Fork | Head::ForkDaemon | Head::OnRelease | Head::UseRw =>
            Arity::AtLeast(1),
        Head::Repeat | Head::ForkPromise | Head::UsePool | Head::BufWrite => Arity::AtLeast(2),
        Head::Submit | Head::BufRead | Head::OpenDir => Arity::AtLeast(3),
    }
}

/// How a form is read.
pub fn shape_of(head: Head) -> Shape
    ensures { result ≡ shape_of head }
{
    match head {
        Head::Let => Shape::Let,
        Head::Give => Shape::Give,
        Head::If => Shape::If,
        Head::Try => Shape::Try,
        Head::Pair(group) | Head::Row(group) => Shape::Branches(group),
        Head::Repeat
        | Head::Loop
        | Head::Sub
        | Head::Protect
        | Head::Switch
        | Head::Fork
        | Head::ForkDaemon
        | Head::ForkPromise
        | Head::OnRelease
        | Head::UseRw
        | Head::UsePool
        | Head::Submit
        | Head::BufRead
        | Head::BufWrite
        | Head::OpenDir => Shape::Body,
        _ => Shape::Leaf,
    }
}
