//! Paths: calls on one tree, one after another, each with what it answers.

use eio_value::{Bytes, Entry, NoMemory, PathFault};
use path_cap::{Cap, CapFault, DirTree};
use spec_parts::PathKind;
use std::alloc::Global;
use std::test::Fail;

/// The most directories that a tree may have before one more is made.
const MOST_DIRECTORIES: usize = 4_294_967_295;

#[derive(Clone, Copy)]
enum Call {
    Kind,
    LinkTarget,
    Load,
    Mkdir,
    OpenDir,
    ReadDir,
    Rmdir,
    Save,
    SaveNew,
    Unlink,
}

/// What a call is to answer.
#[derive(Clone, Copy)]
enum Wanted {
    Done,
    /// These bytes.
    Text(&'static str),
    /// No link.
    NoLink,
    /// A link stands there.
    Link,
    /// The capability of this directory.
    Opened(u32),
    /// Names of one byte each, in this order.
    Names(&'static str),
    Fault(PathFault),
}

use PathFault::{
    AlreadyExists, IsDirectory, NotDirectory, NotEmpty, NotFound, PermissionDenied, TooManyLinks,
};
use Wanted::{Done, Fault, Link, Names, NoLink, Opened, Text};

/// Calls through capabilities, with their paths and answers. What is saved is `x`.
const ROWS: [(Call, u32, &str, Wanted); 28] = [
    (Call::Mkdir, 0, "e", Done),
    (Call::Mkdir, 0, "e", Fault(AlreadyExists)),
    (Call::Save, 0, "e", Fault(IsDirectory)),
    (Call::Save, 0, "n", Done),
    (Call::SaveNew, 0, "n", Fault(AlreadyExists)),
    (Call::Load, 0, "./e//../n", Text("x")),
    (Call::Unlink, 0, "n", Done),
    (Call::Load, 0, "n", Fault(NotFound)),
    (Call::Save, 0, "p/f", Fault(NotFound)),
    (Call::Save, 0, "e/f", Done),
    (Call::Rmdir, 0, "e", Fault(NotEmpty)),
    (Call::Kind, 0, "l", Link),
    (Call::LinkTarget, 0, "l", Text("..")),
    (Call::LinkTarget, 0, "n", NoLink),
    (Call::Load, 0, "l", Fault(PermissionDenied)),
    (Call::OpenDir, 0, "e", Opened(1)),
    (Call::Load, 1, "../n", Fault(PermissionDenied)),
    (Call::Load, 1, "f", Text("x")),
    (Call::Load, 0, "a", Fault(TooManyLinks)),
    (Call::Load, 0, "e/f/g", Fault(NotDirectory)),
    (Call::SaveNew, 0, "b", Done),
    (Call::ReadDir, 0, "", Names("abel")),
    (Call::Unlink, 0, "e", Fault(IsDirectory)),
    (Call::Unlink, 1, "f", Done),
    (Call::Rmdir, 1, "", Fault(PermissionDenied)),
    (Call::Rmdir, 0, "e", Done),
    (Call::ReadDir, 1, ".", Fault(NotFound)),
    (Call::Kind, 0, "e", Fault(NotFound)),
];

fn bytes(alloc: Global, text: &str) -> Result<Bytes, NoMemory> {
    Ok(Bytes::new(Vec::from_slice(alloc, text.as_bytes())?))
}

/// A tree with a link to itself, `a`, and one that leads up, `l`.
#[tactic(auto, unfolding(eio_value::specs::Directory::entry_count))]
fn tree_of_links(alloc: Global) -> Result<DirTree, NoMemory> {
    let up = Entry::Link(bytes(alloc, "l")?, bytes(alloc, "..")?);
    let itself = Entry::Link(bytes(alloc, "a")?, bytes(alloc, "a")?);
    DirTree::new(alloc, &[up, itself])
}

fn is_fault(fault: CapFault, wanted: Wanted) -> bool {
    match (fault, wanted) {
        (CapFault::Path(fault), Fault(wanted)) => fault == wanted,
        _ => false,
    }
}

fn is_done(given: Result<(), CapFault>, wanted: Wanted) -> bool {
    match given {
        Ok(()) => matches!(wanted, Done),
        Err(fault) => is_fault(fault, wanted),
    }
}

fn is_text(given: &[u8], wanted: Wanted) -> bool {
    match wanted {
        Text(text) => given == text.as_bytes(),
        _ => false,
    }
}

fn is_content(given: Result<Vec<u8>, CapFault>, wanted: Wanted) -> bool {
    match given {
        Ok(content) => is_text(content.as_slice(), wanted),
        Err(fault) => is_fault(fault, wanted),
    }
}

fn is_target(given: Result<Option<Vec<u8>>, NoMemory>, wanted: Wanted) -> bool {
    match given {
        Ok(Some(target)) => is_text(target.as_slice(), wanted),
        Ok(None) => matches!(wanted, NoLink),
        Err(NoMemory) => false,
    }
}

fn is_kind(given: Result<PathKind, CapFault>, wanted: Wanted) -> bool {
    match given {
        Ok(kind) => matches!((kind, wanted), (PathKind::Link, Link)),
        Err(fault) => is_fault(fault, wanted),
    }
}

fn is_opened(given: Result<Cap, CapFault>, wanted: Wanted) -> bool {
    match given {
        Ok(cap) => matches!(wanted, Opened(number) if cap == Cap(number)),
        Err(fault) => is_fault(fault, wanted),
    }
}

/// Whether these are names of one byte each.
fn are_letters(names: &[Vec<u8>], letters: &[u8]) -> bool {
    if names.len() != letters.len() {
        return false;
    }
    for place in 0..names.len() {
        if names[place].as_slice() != [letters[place]].as_slice() {
            return false;
        }
    }
    true
}

fn are_names(given: Result<Vec<Vec<u8>>, CapFault>, wanted: Wanted) -> bool {
    match (given, wanted) {
        (Ok(names), Names(text)) => are_letters(names.as_slice(), text.as_bytes()),
        (Ok(_), _) => false,
        (Err(fault), wanted) => is_fault(fault, wanted),
    }
}

/// Whether a call answers what is wanted.
fn answers(
    alloc: Global,
    tree: &mut DirTree,
    call: Call,
    cap: Cap,
    path: &[u8],
    wanted: Wanted,
) -> bool {
    match call {
        Call::Kind => is_kind(tree.kind(alloc, cap, path), wanted),
        Call::LinkTarget => is_target(tree.link_target(alloc, cap, path), wanted),
        Call::Load => is_content(tree.load(alloc, cap, path), wanted),
        Call::Mkdir if MOST_DIRECTORIES < tree.directory_count() => false,
        Call::Mkdir => is_done(tree.mkdir(alloc, cap, path), wanted),
        Call::OpenDir => is_opened(tree.open_dir(alloc, cap, path), wanted),
        Call::ReadDir => are_names(tree.read_dir(alloc, cap, path), wanted),
        Call::Rmdir => is_done(tree.rmdir(alloc, cap, path), wanted),
        Call::Save => is_done(tree.save(alloc, cap, path, b"x", false), wanted),
        Call::SaveNew => is_done(tree.save(alloc, cap, path, b"x", true), wanted),
        Call::Unlink => is_done(tree.unlink(alloc, cap, path), wanted),
    }
}

/// The first row that isn't met.
fn wrong_row(alloc: Global, tree: &mut DirTree) -> Option<usize> {
    for place in 0..ROWS.len() {
        let (call, cap, path, wanted) = ROWS[place];
        if !answers(alloc, tree, call, Cap(cap), path.as_bytes(), wanted) {
            return Some(place);
        }
    }
    None
}

#[test]
fn calls_answer(rt: HostRuntime) -> Result<(), Fail> {
    let mut tree = tree_of_links(rt.alloc())?;
    assert_eq!(rt; wrong_row(rt.alloc(), &mut tree), None);
    Ok(())
}
