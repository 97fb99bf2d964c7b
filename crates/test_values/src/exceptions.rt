//! What exceptions become together, and how they are written.

ghost use Rattle.std.specs.Prelude.{◌≡◌, []};
ghost use Rattle.eio_value.specs.Exceptions.{HasTextsOfRaised};

use crate::log::{push_asked, push_heading};
use eio_value::{
    Member, Misuse, NoMemory, PathFault, Plain, Raised, Texts, combine, reason, show_raised,
};
use std::alloc::Global;

/// The exception of this raise.
fn member(serial: u64, what: Plain) -> Member
    ensures { result ≡ record { serial = serial; what = what } }
{
    Member { serial, what }
}

/// What this becomes in the text of a run.
fn push_raised(
    texts: &Texts,
    log: &mut Vec<u8>,
    asked: &str,
    raised: &Raised,
) -> Result<(), NoMemory>
    requires { HasTextsOfRaised texts.now raised.now }
{
    push_asked(log, asked)?;
    show_raised(texts, raised, log)?;
    log.push(b'\n')?;
    Ok(())
}

/// Four exceptions by an empty table, some by themselves, and what all become together.
fn answer_in(texts: &mut Texts, log: &mut Vec<u8>) -> Result<(), NoMemory>
    requires { texts.old ≡ [] }
{
    let text = texts.intern(b"a")?;
    let failure = Raised::One(member(1, Plain::Failure(text)));
    let poisoned = Raised::One(member(2, Plain::Poisoned));
    let path = Plain::Path(PathFault::NotFound, text);
    let cancelled = Raised::Cancelled(member(3, path));
    let misuse = Raised::One(member(4, Plain::Invalid(Misuse::NotLocked)));
    let all = combine(combine(failure, poisoned), combine(cancelled, misuse));
    push_raised(texts, log, "a failure", &failure)?;
    push_raised(texts, log, "a cancellation by a path's fault", &cancelled)?;
    push_raised(texts, log, "an unlocked mutex", &misuse)?;
    push_raised(texts, log, "all of them", &all)?;
    let first = Raised::One(member(5, reason(&all)));
    push_raised(texts, log, "the reason of all", &first)
}

/// Appends the answers of exceptions.
pub fn answer(alloc: Global, log: &mut Vec<u8>) -> Result<(), NoMemory> {
    push_heading(log, "exceptions")?;
    let mut texts = Texts::new(alloc);
    answer_in(&mut texts, log)
}
