//! The entries of declared directories. The theorem is the clause `reads` of [`entries`].
#![tactic(auto, using(script_draft::proofs::Counts::some_ahead, script_draft::proofs::Counts::none_ahead, script_draft::proofs::Counts::count_past))]

ghost use Rattle.std.specs.Prelude.{◌≡◌, [], true, IfOk, option_map};
ghost use Rattle.std.specs.List.{list_any, list_all};
ghost use Rattle.std.specs.Str.{bytes_eq};
ghost use Rattle.eio_value.specs.EntriesInside.{item_of};
ghost use Rattle.spec_script.specs.Entries as model;
ghost use Rattle.script_draft.specs.Ahead.{ahead, has_tree, tree_ahead, tree_count, IsPast, IsBehind};
ghost use Rattle.script_declarations.specs.EntriesRead.{head_of, takes, names_in, own_name, named};
ghost use Rattle.script_draft.specs.Readings.{Makes};

use eio_value::{Bytes, Entries, Entry};
use script_draft::{Cursor, Draft};
use script_forms::ScriptFault;

/// The most bytes of the name of an entry.
const MOST_NAME_BYTES: usize = 64;

/// What the word of an entry begins.
#[derive(Clone, Copy)]
pub(crate) enum EntryHead {
    File,
    Link,
    Sub,
}

/// What a word begins, if it begins an entry.
fn entry_head(word: &[u8]) -> Option<EntryHead>
    ensures { option_map head_of result ≡ model.entry_head word.now }
{
    match word {
        b"file" => Some(EntryHead::File),
        b"link" => Some(EntryHead::Link),
        b"sub" => Some(EntryHead::Sub),
        _ => None,
    }
}

/// Whether an entry has that many items behind its word.
fn takes(head: EntryHead, count: usize) -> bool
    ensures { result ≡ takes head count }
{
    match head {
        EntryHead::File | EntryHead::Link => count == 2,
        EntryHead::Sub => count >= 1,
    }
}

/// Whether a byte may stand in the name of an entry.
fn is_name_byte(byte: u8) -> bool
    ensures { result ≡ model.is_name_byte byte }
{
    33 <= byte && byte <= 126 && byte != b'/'
}

/// Whether all these bytes may stand in the name of an entry.
fn are_name_bytes(bytes: &[u8]) -> bool
    ensures { result ≡ list_all model.is_name_byte bytes.now }
{
    bytes.iter().all(|byte| is_name_byte(*byte))
}

/// Whether an entry may have this name.
fn is_entry_name(name: &[u8]) -> bool
    ensures { result ≡ model.is_entry_name name.now }
{
    let is_short = 1 <= name.len() && name.len() <= MOST_NAME_BYTES;
    is_short && are_name_bytes(name) && name != b".".as_slice() && name != b"..".as_slice()
}

/// The name of an entry.
fn own_name(entry: &Entry) -> &[u8]
    ensures { result.now ≡ own_name entry.now }
{
    match entry {
        Entry::File(name, _) => name.as_slice(),
        Entry::Link(name, _) => name.as_slice(),
        Entry::Sub(name, _) => name.as_slice(),
    }
}

/// Whether one of these entries has this name.
fn is_taken(name: &[u8], before: &[Entry]) -> bool
    ensures { result ≡ list_any (bytes_eq name.now) (names_in before.now) }
{
    for entry in before {
        if name == own_name(entry) {
            return true;
        }
    }
    false
}

/// The entries of a directory, up to the end of its list.
///
/// # Errors
/// The fault of the first refused entry.
#[cycle(entries)]
pub(crate) fn entries(cursor: &mut Cursor, draft: &mut Draft) -> Result<Entries, ScriptFault>
    ensures behind { IfOk result (λ _. IsBehind cursor.old cursor.new) }
    ensures reads { Makes (λ these. these) result (model.entries [] (ahead cursor.old)) draft.old draft.new }
{
    let mut list = Vec::new(draft.alloc());
    while cursor.has_tree() {
        let next = entry(cursor, draft, &list)?;
        list.push(next)?;
    }
    cursor.close();
    Ok(Entries::new(list))
}

/// The entry that comes next, behind these of the same directory.
#[cycle(entries)]
fn entry(cursor: &mut Cursor, draft: &mut Draft, before: &[Entry]) -> Result<Entry, ScriptFault>
    requires { has_tree cursor.old ≡ true }
    ensures past { IfOk result (λ _. IsPast cursor.old cursor.new) }
    ensures reads { Makes item_of result (model.entry (names_in before.now) (tree_ahead cursor.old)) draft.old draft.new }
{
    let at = cursor.place();
    let Some(word) = cursor.enter() else {
        return Err(ScriptFault::Shape(at));
    };
    let Some(head) = entry_head(word.word) else {
        return Err(ScriptFault::Shape(at));
    };
    if !takes(head, cursor.count(3)) {
        return Err(ScriptFault::Shape(at));
    }
    draft.entry(at)?;
    named(cursor, draft, before, head)
}

/// The name of an entry, and what stands behind it.
#[cycle(entries)]
fn named(
    cursor: &mut Cursor,
    draft: &mut Draft,
    before: &[Entry],
    head: EntryHead,
) -> Result<Entry, ScriptFault>
    requires { takes head (tree_count (ahead cursor.old)) ≡ true }
    ensures behind { IfOk result (λ _. IsBehind cursor.old cursor.new) }
    ensures reads { Makes item_of result (named (names_in before.now) head (ahead cursor.old)) draft.old draft.new }
{
    let name = entry_name(cursor, draft, before)?;
    match head {
        EntryHead::File => Ok(Entry::File(name, content(cursor, draft)?)),
        EntryHead::Link => Ok(Entry::Link(name, content(cursor, draft)?)),
        EntryHead::Sub => Ok(Entry::Sub(name, entries(cursor, draft)?)),
    }
}

/// The name of an entry, which comes next and none of these has. It stands in the table too.
fn entry_name(
    cursor: &mut Cursor,
    draft: &mut Draft,
    before: &[Entry],
) -> Result<Bytes, ScriptFault>
    requires { has_tree cursor.old ≡ true }
    ensures past { IfOk result (λ _. IsPast cursor.old cursor.new) }
    ensures reads { Makes (λ name. name) result (model.entry_name (names_in before.now) (tree_ahead cursor.old)) draft.old draft.new }
{
    let text = cursor.text()?;
    if !is_entry_name(text.text) {
        return Err(ScriptFault::Shape(text.at));
    }
    if is_taken(text.text, before) {
        return Err(ScriptFault::Twice(text.at));
    }
    draft.text(text.text)?;
    Ok(Bytes::new(text.text.to_vec(draft.alloc())?))
}

/// The text that stands alone up to the end of the list. It stands in the table too.
fn content(cursor: &mut Cursor, draft: &mut Draft) -> Result<Bytes, ScriptFault>
    requires { tree_count (ahead cursor.old) ≡ 1 }
    ensures behind { IfOk result (λ _. IsBehind cursor.old cursor.new) }
    ensures reads { Makes (λ bytes. bytes) result (model.content_of (tree_ahead cursor.old)) draft.old draft.new }
{
    let text = cursor.text()?;
    draft.text(text.text)?;
    let bytes = text.text.to_vec(draft.alloc())?;
    cursor.close();
    Ok(Bytes::new(bytes))
}
