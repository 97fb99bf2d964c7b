//! Calls in words: the name of the call, then its operands in the order of their fields.
//!
//! Values are spelled as the notation spells them, and texts by their bytes. A block is named by the number of its first node.

use crate::unanswered::Unanswered;
use eio_value::{Operands, Outcome, Plain, Raised, TextId, Texts, Value};
use fiber_step::{Ask, DirectoryRef};
use script_lang::{Forking, Group, ObjectCall, ObjectCallWith, PathCall, ReaderCall};
use std::str;

/// Puts a call in words behind a text.
pub(crate) fn push_call(out: &mut String, texts: &Texts, ask: &Ask) -> Result<(), Unanswered> {
    match ask {
        Ask::Yield => out.push_str("yield")?,
        Ask::Check => out.push_str("check")?,
        Ask::AwaitCancel => out.push_str("await-cancel")?,
        Ask::Turn => out.push_str("turn")?,
        Ask::Now => out.push_str("now")?,
        Ask::Sleep(time) => write!(out, "sleep {time}")?,
        Ask::Use { pool } => write!(out, "use {pool}")?,
        Ask::Copy { from, to } => write!(out, "copy {from} {to}")?,
        _ => push_block(out, texts, ask)?,
    }
    Ok(())
}

/// A call that goes into a block; or another one.
fn push_block(out: &mut String, texts: &Texts, ask: &Ask) -> Result<(), Unanswered> {
    match ask {
        Ask::Sub { body } => write!(out, "sub {body}")?,
        Ask::Protect { body } => write!(out, "protect {body}")?,
        Ask::Switch { body } => write!(out, "switch {body}")?,
        Ask::OnRelease { switch, handler } => write!(out, "on-release {switch} {handler}")?,
        Ask::Branches { group, form } => write!(out, "{} {form}", group_word(group))?,
        Ask::OpenReader { flow, limit, body } => write!(out, "open-reader {flow} {limit} {body}")?,
        Ask::OpenWriter { flow, body } => write!(out, "open-writer {flow} {body}")?,
        Ask::OpenDirectory { place, path, body } => {
            push_path(out, texts, "open-dir", place, path)?;
            write!(out, " {body}")?;
        }
        _ => push_named(out, texts, ask)?,
    }
    Ok(())
}

/// A call on what a name stands for; or another one.
fn push_named(out: &mut String, texts: &Texts, ask: &Ask) -> Result<(), Unanswered> {
    match ask {
        Ask::Cancel { context, text } => {
            write!(out, "cancel {context} ")?;
            push_text(out, texts, text)
        }
        Ask::Fail { switch, text } => {
            write!(out, "fail {switch} ")?;
            push_text(out, texts, text)
        }
        Ask::Fork {
            forking,
            switch,
            body,
        } => {
            push_forking(out, forking)?;
            write!(out, " {switch} {body}")?;
            Ok(())
        }
        Ask::OnReader { call, reader } => Ok(write!(out, "{} {reader}", reader_word(call))?),
        Ask::TakeBytes { reader, count } => Ok(write!(out, "take-bytes {reader} {count}")?),
        Ask::PutText { writer, text } => {
            write!(out, "put {writer} ")?;
            push_text(out, texts, text)
        }
        _ => push_declared(out, texts, ask),
    }
}

/// A call with operands or on what is declared; or another one.
fn push_declared(out: &mut String, texts: &Texts, ask: &Ask) -> Result<(), Unanswered> {
    match ask {
        Ask::Trace(operands) => {
            out.push_str("trace")?;
            push_operands(out, texts, operands)
        }
        Ask::OnObject { call, object } => Ok(write!(out, "{} {object}", object_word(call))?),
        Ask::OnObjectWith {
            call,
            object,
            operand,
        } => {
            write!(out, "{} {object}", object_with_word(call))?;
            push_value(out, texts, operand)
        }
        Ask::Submit {
            executor,
            weight,
            given,
            job,
        } => {
            write!(out, "submit {executor} {weight}")?;
            push_operands(out, texts, given)?;
            write!(out, " {job}")?;
            Ok(())
        }
        _ => push_filed(out, texts, ask),
    }
}

/// A call on a path; or another one.
fn push_filed(out: &mut String, texts: &Texts, ask: &Ask) -> Result<(), Unanswered> {
    match ask {
        Ask::OnPath { call, place, path } => push_path(out, texts, path_word(call), place, path),
        Ask::Save {
            only_new,
            place,
            path,
            content,
        } => {
            let word = if *only_new { "save-new" } else { "save" };
            push_path(out, texts, word, place, path)?;
            out.push_str(" ")?;
            push_text(out, texts, content)
        }
        _ => push_end(out, texts, ask),
    }
}

/// A call at the end of a block; or another one.
fn push_end(out: &mut String, texts: &Texts, ask: &Ask) -> Result<(), Unanswered> {
    match ask {
        Ask::Leave {
            context,
            late,
            outcome,
        } => {
            write!(out, "leave {context} {late}")?;
            push_outcome(out, texts, outcome)
        }
        Ask::Close {
            switch,
            failed,
            kept,
        } => {
            write!(out, "close {switch}")?;
            push_value(out, texts, kept)?;
            match failed {
                Some(raised) => push_raised(out, texts, raised),
                None => Ok(()),
            }
        }
        Ask::Join { group, .. } => Ok(write!(out, "join {group}")?),
        Ask::ShutReader { reader, outcome } => {
            write!(out, "shut-reader {reader}")?;
            push_outcome(out, texts, outcome)
        }
        Ask::ShutWriter { writer, outcome } => {
            write!(out, "shut-writer {writer}")?;
            push_outcome(out, texts, outcome)
        }
        _ => push_last(out, texts, ask),
    }
}

/// A call at the end of a lock, of a use or of a fiber.
fn push_last(out: &mut String, texts: &Texts, ask: &Ask) -> Result<(), Unanswered> {
    match ask {
        Ask::UnlockEnd { mutex, value } => {
            write!(out, "unlock-end {mutex}")?;
            push_value(out, texts, value)
        }
        Ask::PoisonEnd { mutex, raised } => {
            write!(out, "poison-end {mutex}")?;
            push_raised(out, texts, raised)
        }
        Ask::PutEnd {
            pool,
            resource,
            outcome,
        } => {
            write!(out, "put-end {pool} {resource}")?;
            push_outcome(out, texts, outcome)
        }
        Ask::ResolveEnd { promise, outcome } => {
            write!(out, "resolve-end {promise}")?;
            push_outcome(out, texts, outcome)
        }
        Ask::End(outcome) => {
            out.push_str("end")?;
            push_outcome(out, texts, outcome)
        }
        _ => Err(Unanswered),
    }
}

/// How a block or a fiber ends.
fn push_outcome(out: &mut String, texts: &Texts, outcome: &Outcome) -> Result<(), Unanswered> {
    match outcome {
        Outcome::Ok(value) => push_value(out, texts, value),
        Outcome::Err(raised) => push_raised(out, texts, raised),
    }
}

/// What is raised, with the number of its raise.
fn push_raised(out: &mut String, texts: &Texts, raised: &Raised) -> Result<(), Unanswered> {
    match raised {
        Raised::One(member) => {
            write!(out, " raises {} ", member.serial)?;
            push_exception(out, texts, &member.what)
        }
        Raised::Cancelled(member) => {
            write!(out, " cancelled {} ", member.serial)?;
            push_exception(out, texts, &member.what)
        }
        Raised::Many(_) => Err(Unanswered),
    }
}

/// An exception.
fn push_exception(out: &mut String, texts: &Texts, what: &Plain) -> Result<(), Unanswered> {
    match what {
        Plain::Failure(text) => push_text(out, texts, text),
        Plain::Invalid(misuse) => Ok(write!(out, "Invalid({misuse:?})")?),
        Plain::EndOfFile => Ok(out.push_str("EndOfFile")?),
        _ => Err(Unanswered),
    }
}

/// Values.
fn push_operands(out: &mut String, texts: &Texts, operands: &Operands) -> Result<(), Unanswered> {
    for operand in operands.as_slice() {
        push_value(out, texts, operand)?;
    }
    Ok(())
}

/// A value behind a space, as the notation spells it where it can.
fn push_value(out: &mut String, texts: &Texts, value: &Value) -> Result<(), Unanswered> {
    match value {
        Value::Unit => out.push_str(" (unit)")?,
        Value::Int(number) => write!(out, " {number}")?,
        Value::Text(text) => {
            out.push_str(" ")?;
            push_text(out, texts, text)?;
        }
        Value::Ctx(number) => write!(out, " context {number}")?,
        Value::Switch(number) => write!(out, " switch {number}")?,
    }
    Ok(())
}

/// A text in quotes, by its bytes.
fn push_text(out: &mut String, texts: &Texts, text: &TextId) -> Result<(), Unanswered> {
    if texts.len() <= text.0 as usize {
        return Err(Unanswered);
    }
    let text = str::from_utf8(texts.bytes(*text)).map_err(|_| Unanswered)?;
    write!(out, "\"{text}\"")?;
    Ok(())
}

/// A call on a path in a directory.
fn push_path(
    out: &mut String,
    texts: &Texts,
    word: &str,
    place: &DirectoryRef,
    path: &TextId,
) -> Result<(), Unanswered> {
    match place {
        DirectoryRef::Declared(number) => write!(out, "{word} declared {number} ")?,
        DirectoryRef::Opened(number) => write!(out, "{word} opened {number} ")?,
    }
    push_text(out, texts, path)
}

/// How a fiber is forked.
fn push_forking(out: &mut String, forking: &Forking) -> Result<(), Unanswered> {
    match forking {
        Forking::Plain => out.push_str("fork")?,
        Forking::Daemon => out.push_str("fork-daemon")?,
        Forking::Promising(promise) => write!(out, "fork-promise {promise}")?,
    }
    Ok(())
}

/// The word of a form with branches.
fn group_word(group: &Group) -> &'static str {
    match group {
        Group::Both => "both",
        Group::All => "all",
        Group::First => "first",
        Group::Any => "any",
    }
}

/// The word of a call on an object.
fn object_word(call: &ObjectCall) -> &'static str {
    match call {
        ObjectCall::Take => "take",
        ObjectCall::TakeNonblocking => "take-nonblocking",
        ObjectCall::Length => "length",
        ObjectCall::Await => "await",
        ObjectCall::Acquire => "acquire",
        ObjectCall::Release => "release",
        ObjectCall::Lock => "lock",
        ObjectCall::TryLock => "try-lock",
        ObjectCall::Unlock => "unlock",
    }
}

/// The word of a call on an object with an operand.
fn object_with_word(call: &ObjectCallWith) -> &'static str {
    match call {
        ObjectCallWith::Add => "add",
        ObjectCallWith::Resolve => "resolve",
        ObjectCallWith::TryResolve => "try-resolve",
    }
}

/// The word of a call on a reader.
fn reader_word(call: &ReaderCall) -> &'static str {
    match call {
        ReaderCall::Line => "line",
        ReaderCall::TakeAll => "take-all",
        ReaderCall::Char => "char",
        ReaderCall::AtEnd => "at-end",
    }
}

/// The word of a call on a path.
fn path_word(call: &PathCall) -> &'static str {
    match call {
        PathCall::Load => "load",
        PathCall::Mkdir => "mkdir",
        PathCall::ReadDir => "read-dir",
        PathCall::Unlink => "unlink",
        PathCall::Rmdir => "rmdir",
        PathCall::Kind => "kind",
    }
}
