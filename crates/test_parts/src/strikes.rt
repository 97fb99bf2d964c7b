//! The strikes that a cancellation owes.

ghost use Rattle.std.specs.Prelude.{◌≡◌, []};
ghost use Rattle.spec_parts.specs.ContextCalls as calls;

use cancel_tree::Contexts;
use domain_strikes::{Strike, Strikes};
use eio_value::{Full, Plain};
use std::test::Fail;

/// Who makes a strike, and on whom.
fn told(strike: Option<Strike>) -> Option<(u32, u32)> {
    match strike {
        Some(strike) => Some((strike.maker, strike.fiber)),
        None => None,
    }
}

/// Whether a call of the fiber 3, which cancels a context in which the fiber 7 waits, owes one strike.
fn strikes_one(strikes: &mut Strikes, contexts: &mut Contexts) -> Result<bool, Full>
    requires none { strikes.old ≡ [] }
    requires new { contexts.old ≡ calls.no_contexts }
{
    let top = contexts.root()?;
    // For the proof alone: a condition of `wait`.
    if !contexts.is_live(top) {
        return Err(Full);
    }
    contexts.wait(top, 7);
    strikes.cancel(contexts, 3, top, Plain::EndOfFile);
    let owed = !strikes.is_empty();
    let made = told(strikes.pop()) == Some((3, 7));
    Ok(owed && made && strikes.is_empty() && told(strikes.pop()) == None)
}

#[test]
fn strikes_who_waits(rt: HostRuntime) -> Result<(), Fail> {
    let mut strikes = Strikes::new(rt.alloc())?;
    let mut contexts = Contexts::new(rt.alloc())?;
    assert!(rt; strikes_one(&mut strikes, &mut contexts)?);
    Ok(())
}
