//! How values and exceptions are written.
//!
//! The public calls append all of a text or nothing. The others append to bytes, and may have appended a
//! part where memory ends; what was there before still stands in front (`IsFront`).
ghost use Rattle.std.specs.Prelude.{◌≡◌, ◌∷◌, ◌++◌, take, OnOk, OnErr, All, codes};
ghost use Rattle.std.specs.List.{flat_map};
ghost use Rattle.eio_value.specs.Appending.{IsFront};
ghost use Rattle.eio_value.specs.Escapes.{quoted};
ghost use Rattle.eio_value.specs.Values.{HasTextsOf, show, quote};
ghost use Rattle.eio_value.specs.Exceptions.{HasTextsOfPlain, HasTextsOfRaised, misuse_text, fault_text, plain_text, members_text, raised_text};

use crate::escapes::{push_bytes, push_escaped, push_quoted};
use crate::{Member, Misuse, NoMemory, PathFault, Plain, Raised, Texts, Value};
use itoa::Buffer;

/// Appends the text of a value.
///
/// # Errors
///
/// `NoMemory`; then nothing was appended.
pub fn show(texts: &Texts, value: Value, out: &mut Vec<u8>) -> Result<(), NoMemory>
    requires { HasTextsOf texts.now value }
    ensures ok { OnOk result (out.new.items ≡ out.old.items ++ show texts.now value) }
    ensures err { OnErr result (out.new.items ≡ out.old.items) }
{
    let before = out.len();
    let pushed = push_value(texts, value, out);
    cut_after(pushed, before, out)
}

/// Appends the text of a value, a text in quotes.
///
/// # Errors
///
/// `NoMemory`; then nothing was appended.
pub fn quote(texts: &Texts, value: Value, out: &mut Vec<u8>) -> Result<(), NoMemory>
    requires { HasTextsOf texts.now value }
    ensures ok { OnOk result (out.new.items ≡ out.old.items ++ quote texts.now value) }
    ensures err { OnErr result (out.new.items ≡ out.old.items) }
{
    let before = out.len();
    let pushed = match value {
        Value::Text(id) => push_quoted(texts.bytes(id), out),
        _ => push_value(texts, value, out),
    };
    cut_after(pushed, before, out)
}

/// Appends the text of what is raised.
///
/// # Errors
///
/// `NoMemory`; then nothing was appended.
pub fn show_raised(texts: &Texts, raised: &Raised, out: &mut Vec<u8>) -> Result<(), NoMemory>
    requires { HasTextsOfRaised texts.now raised.now }
    ensures ok { OnOk result (out.new.items ≡ out.old.items ++ raised_text texts.now raised.now) }
    ensures err { OnErr result (out.new.items ≡ out.old.items) }
{
    let before = out.len();
    let pushed = push_raised(texts, raised, out);
    cut_after(pushed, before, out)
}

/// Cuts what a call has appended that failed.
fn cut_after(pushed: Result<(), NoMemory>, before: usize, out: &mut Vec<u8>) -> Result<(), NoMemory>
    ensures same { result ≡ pushed }
    ensures ok { OnOk pushed (out.new.items ≡ out.old.items) }
    ensures err { OnErr pushed (out.new.items ≡ take before out.old.items) }
{
    if pushed.is_err() {
        out.truncate(before);
    }
    pushed
}

/// Appends the text of a value.
fn push_value(texts: &Texts, value: Value, out: &mut Vec<u8>) -> Result<(), NoMemory>
    requires { HasTextsOf texts.now value }
    ensures ok { OnOk result (out.new.items ≡ out.old.items ++ show texts.now value) }
    ensures front { IsFront out.old.items out.new.items }
{
    let mut digits = Buffer::new();
    match value {
        Value::Unit => push_bytes(b"()", out),
        Value::Int(number) => push_bytes(digits.format(number).as_bytes(), out),
        Value::Text(id) => push_escaped(texts.bytes(id), false, out),
        Value::Ctx(number) => {
            push_bytes(b"#", out)?;
            push_bytes(digits.format(number).as_bytes(), out)
        }
        Value::Switch(number) => {
            push_bytes(b"%", out)?;
            push_bytes(digits.format(number).as_bytes(), out)
        }
    }
}

/// Appends the text of what is raised.
fn push_raised(texts: &Texts, raised: &Raised, out: &mut Vec<u8>) -> Result<(), NoMemory>
    requires { HasTextsOfRaised texts.now raised.now }
    ensures ok { OnOk result (out.new.items ≡ out.old.items ++ raised_text texts.now raised.now) }
    ensures front { IsFront out.old.items out.new.items }
{
    match raised {
        Raised::One(member) => push_plain(texts, &member.what, out),
        Raised::Cancelled(member) => {
            push_bytes(b"Cancelled: ", out)?;
            push_plain(texts, &member.what, out)
        }
        Raised::Many(members) => {
            push_bytes(b"Multiple [", out)?;
            push_members(texts, members.as_slice(), out)?;
            push_bytes(if members.is_cut() { b"; ...]" } else { b"]" }, out)
        }
    }
}

/// Appends the texts of members, with `; ` between.
fn push_members(texts: &Texts, members: &[Member], out: &mut Vec<u8>) -> Result<(), NoMemory>
    requires { All (λ member. HasTextsOfPlain texts.now member.what) members.now }
    ensures ok { OnOk result (out.new.items ≡ out.old.items ++ members_text texts.now members.now) }
    ensures front { IsFront out.old.items out.new.items }
{
    match members {
        [] => Ok(()),
        [first, others @ ..] => {
            push_plain(texts, &first.what, out)?;
            push_others(texts, others, out)
        }
    }
}

/// Appends the texts of members, with `; ` before each.
fn push_others(texts: &Texts, others: &[Member], out: &mut Vec<u8>) -> Result<(), NoMemory>
    requires { All (λ member. HasTextsOfPlain texts.now member.what) others.now }
    ensures ok { OnOk result (out.new.items ≡ out.old.items ++ flat_map (λ member. codes "; " ++ plain_text texts.now member.what) others.now) }
    ensures front { IsFront out.old.items out.new.items }
{
    for member in others {
        push_bytes(b"; ", out)?;
        push_plain(texts, &member.what, out)?;
    }
    Ok(())
}

/// Appends the text of a single exception.
fn push_plain(texts: &Texts, what: &Plain, out: &mut Vec<u8>) -> Result<(), NoMemory>
    requires { HasTextsOfPlain texts.now what.now }
    ensures ok { OnOk result (out.new.items ≡ out.old.items ++ plain_text texts.now what.now) }
    ensures front { IsFront out.old.items out.new.items }
{
    match what {
        Plain::Failure(id) => push_named(b"Failure", texts.bytes(*id), out),
        Plain::Invalid(why) => push_named(b"Invalid_argument", misuse_name(*why), out),
        Plain::Path(fault, id) => push_named(fault_name(*fault), texts.bytes(*id), out),
        Plain::EndOfFile => push_bytes(b"End_of_file", out),
        Plain::BufferLimit => push_bytes(b"Buffer_limit_exceeded", out),
        Plain::Poisoned => push_bytes(b"Poisoned", out),
        Plain::Exit => push_bytes(b"Exit", out),
        Plain::NotFirst => push_bytes(b"Not_first", out),
    }
}

/// Appends a name, a space and a text in quotes.
fn push_named(name: &[u8], text: &[u8], out: &mut Vec<u8>) -> Result<(), NoMemory>
    ensures ok { OnOk result (out.new.items ≡ out.old.items ++ (name.now ++ 32 ∷ quoted text.now)) }
    ensures front { IsFront out.old.items out.new.items }
{
    push_bytes(name, out)?;
    push_bytes(b" ", out)?;
    push_quoted(text, out)
}

/// What a misuse is called.
fn misuse_name(why: Misuse) -> &'static [u8]
    ensures { result.now ≡ misuse_text why }
{
    match why {
        Misuse::SwitchFinished => b"Switch finished!",
        Misuse::Overflow => b"Overflow",
        Misuse::NotNumber => b"Not a number",
        Misuse::NotText => b"Not a text",
        Misuse::Resolved => b"Promise already resolved",
        Misuse::NotLocked => b"Mutex not locked",
        Misuse::Closed => b"Closed",
        Misuse::ContextFinished => b"Cancellation context finished!",
    }
}

/// What a fault of a path is called.
fn fault_name(fault: PathFault) -> &'static [u8]
    ensures { result.now ≡ fault_text fault }
{
    match fault {
        PathFault::PermissionDenied => b"Permission_denied",
        PathFault::NotFound => b"Not_found",
        PathFault::AlreadyExists => b"Already_exists",
        PathFault::NotDirectory => b"Not_directory",
        PathFault::IsDirectory => b"Is_directory",
        PathFault::NotEmpty => b"Not_empty",
        PathFault::TooManyLinks => b"Too_many_links",
    }
}
