//! The table of texts with which a script starts: its own texts, and behind them those that a `try` can bind, so that a script
//! without flows and paths makes no text while it runs. The theorem is the clause of [`opening`].
//!
//! The loop keeps: the table is the definition's for the failures so far, and each failure's text stands in it.

ghost use Rattle.std.specs.Prelude.{◌≡◌, ◌++◌, fold, map, IfOk, OnOk, codes};
ghost use Rattle.eio_value.specs.Exceptions.{HasTextsOfPlain, plain_text};
ghost use Rattle.spec_script.specs.Opening.{textless, with_bound, with_text};
ghost use Rattle.script_forms.specs.Failures.{HasFailures};
ghost use Rattle.script_code.specs.Opened.{opened_texts};
ghost use Rattle.eio_value.specs.declared.plain.Plain.TheVariants.{Failure};

use eio_value::{Member, Misuse, NoMemory, Plain, Raised, TextId, Texts, show_raised};
use std::alloc::Global;

/// The exceptions that hold no text.
const TEXTLESS: [Plain; 13] = [
    Plain::Invalid(Misuse::SwitchFinished),
    Plain::Invalid(Misuse::Overflow),
    Plain::Invalid(Misuse::NotNumber),
    Plain::Invalid(Misuse::NotText),
    Plain::Invalid(Misuse::Resolved),
    Plain::Invalid(Misuse::NotLocked),
    Plain::Invalid(Misuse::Closed),
    Plain::Invalid(Misuse::ContextFinished),
    Plain::EndOfFile,
    Plain::BufferLimit,
    Plain::Poisoned,
    Plain::Exit,
    Plain::NotFirst,
];

/// The opening table, by a script's own texts and those with which a fiber may fail.
///
/// # Errors
/// [`NoMemory`] where memory runs out, or the numbers of 32 bits.
pub(crate) fn opening(alloc: Global, texts: Texts, failures: &[TextId]) -> Result<Texts, NoMemory>
    requires { HasFailures texts failures.now }
    ensures { IfOk result (λ table. table ≡ opened_texts texts failures.now) }
{
    let mut table = texts;
    bind_failures(alloc, &mut table, failures)?;
    for what in &TEXTLESS {
        bind(alloc, &mut table, *what)?;
    }
    Ok(table)
}

/// Puts the texts into the table that a `try` can bind for these failures.
fn bind_failures(alloc: Global, table: &mut Texts, failures: &[TextId]) -> Result<(), NoMemory>
    requires { HasFailures table.old failures.now }
    ensures { OnOk result (table.new ≡ fold with_bound table.old (map Failure failures.now)) }
{
    for text in failures {
        bind(alloc, table, Plain::Failure(*text))?;
    }
    Ok(())
}

/// Puts the texts into the table that a `try` can bind for this exception: alone, as the reason of a cancellation, and as the
/// first of several.
fn bind(alloc: Global, table: &mut Texts, what: Plain) -> Result<(), NoMemory>
    requires { HasTextsOfPlain table.old what }
    ensures { OnOk result (table.new ≡ with_bound table.old what) }
{
    let raised = Raised::One(Member { serial: 0, what });
    let mut alone = Vec::new(alloc);
    show_raised(table, &raised, &mut alone)?;
    let text = alone.as_slice();
    put(table, text)?;
    put_between(alloc, table, b"Cancelled: ", text, b"")?;
    put_between(alloc, table, b"Multiple [", text, b"; ...]")
}

/// Puts a text between two others into the table.
fn put_between(
    alloc: Global,
    table: &mut Texts,
    before: &[u8],
    text: &[u8],
    behind: &[u8],
) -> Result<(), NoMemory>
    ensures { OnOk result (table.new ≡ with_text table.old (before.now ++ text.now ++ behind.now)) }
{
    let mut whole = Vec::new(alloc);
    whole.extend_from_slice(before)?;
    whole.extend_from_slice(text)?;
    whole.extend_from_slice(behind)?;
    put(table, whole.as_slice())
}

/// Puts a text into the table, where it isn't there.
fn put(table: &mut Texts, text: &[u8]) -> Result<(), NoMemory>
    ensures { OnOk result (table.new ≡ with_text table.old text.now) }
{
    if table.len() >= u32::MAX as usize {
        return Err(NoMemory);
    }
    table.intern(text)?;
    Ok(())
}
