//! Contexts, and the fibers that wait in them.
//!
//! Whether a context is live is asked, for the proof alone, before each call that has this as a condition: no clause of the calls
//! before says it in these words.

ghost use Rattle.std.specs.Prelude.{◌≡◌, ◌+◌, ◌-◌, ◌<◌, ◌≤◌, ◌^◌, true, length, vec_len, vec_capacity};
ghost use Rattle.spec_parts.specs.ContextCalls as calls;
ghost use Rattle.spec_parts.specs.Contexts as model;

use cancel_tree::Contexts;
use eio_value::{Full, Plain};
use std::alloc::Global;
use std::test::Fail;

/// A context below this one, protected or not.
fn below(contexts: &mut Contexts, top: u32, protected: bool) -> Result<u32, Full>
    requires countable { length contexts.old.made < 2 ^ 32 - 1 }
    requires live { model.is_live contexts.old.made top ≡ true }
    ensures { contexts.new.waiting ≡ contexts.old.waiting }
{
    if protected {
        contexts.protect(top)
    } else {
        contexts.sub(top)
    }
}

/// Cancels a context in which the fiber 5 waits, over one, protected or not, in which 7 does. Appends those that are struck, and gives
/// the number of the context below.
fn cancel_above(
    contexts: &mut Contexts,
    protected: bool,
    struck: &mut Vec<u32>,
) -> Result<u32, Full>
    requires none { contexts.old ≡ calls.no_contexts }
    requires room { vec_len struck.old + 1024 ≤ vec_capacity struck.old }
{
    let top = contexts.root()?;
    if !contexts.is_live(top) || contexts.is_full() {
        return Err(Full);
    }
    let below = below(contexts, top, protected)?;
    if !contexts.is_live(top) || !contexts.is_live(below) {
        return Err(Full);
    }
    contexts.wait(below, 7);
    if !contexts.is_live(top) {
        return Err(Full);
    }
    contexts.wait(top, 5);
    contexts.strike(top, Plain::EndOfFile, struck);
    Ok(below)
}

/// Whether a second cancellation of a context takes effect, by which reason it is off then, and its parent.
fn state(contexts: &mut Contexts, c: u32) -> (bool, Option<Plain>, Option<u32>) {
    let took = contexts.cancel(c, Plain::NotFirst);
    if !contexts.is_live(c) {
        return (took, None, None);
    }
    (took, contexts.is_off(c), contexts.parent(c))
}

/// The first two of these.
fn two(fibers: &[u32]) -> [Option<u32>; 2] {
    [fibers.first().copied(), fibers.get(1).copied()]
}

/// Whether a context is cancelled with the one below it, unless that is protected: these fibers are struck, and the one below is off by this reason.
fn cancels(
    alloc: Global,
    protected: bool,
    fibers: [Option<u32>; 2],
    why: Plain,
) -> Result<bool, Fail> {
    let mut contexts = Contexts::new(alloc)?;
    let mut struck = Vec::with_capacity(alloc, 1024)?;
    let below = cancel_above(&mut contexts, protected, &mut struck)?;
    let is_struck = two(struck.as_slice()) == fibers;
    Ok(is_struck && state(&mut contexts, below) == (protected, Some(why), Some(0)))
}

#[test]
fn cancels_below_but_not_the_protected(rt: HostRuntime) -> Result<(), Fail> {
    let both = [Some(5), Some(7)];
    assert!(rt; cancels(rt.alloc(), false, both, Plain::EndOfFile)?);
    assert!(rt; cancels(rt.alloc(), true, [Some(5), None], Plain::NotFirst)?);
    Ok(())
}

/// Ends a context in which nobody waits any more, and appends who is reached while the fiber 7 waits there. Whether it is live then, whether it can be
/// cancelled, and the number of the next.
fn end_one(contexts: &mut Contexts, reached: &mut Vec<u32>) -> Result<(bool, bool, u32), Full>
    requires none { contexts.old ≡ calls.no_contexts }
    requires room { vec_len reached.old + 1024 ≤ vec_capacity reached.old }
{
    let top = contexts.root()?;
    if !contexts.is_live(top) {
        return Err(Full);
    }
    contexts.wait(top, 7);
    contexts.members(top, reached);
    contexts.unwait(7);
    if !contexts.is_live(top) {
        return Err(Full);
    }
    contexts.end(top);
    let live = contexts.is_live(top);
    let took = contexts.cancel(top, Plain::EndOfFile);
    Ok((live, took, contexts.root()?))
}

#[test]
fn ended_is_not_live(rt: HostRuntime) -> Result<(), Fail> {
    let mut contexts = Contexts::new(rt.alloc())?;
    let mut reached = Vec::with_capacity(rt.alloc(), 1024)?;
    let ended = end_one(&mut contexts, &mut reached)?;
    assert!(rt; ended == (false, false, 1) && two(reached.as_slice()) == [Some(7), None]);
    Ok(())
}
