//! A worked caller: a list of numbers that threads push to in turns.
//!
//! Memory is taken before the turn, so no thread holds the turn where memory is refused. The list is the history itself.

ghost use Rattle.std.specs.Prelude.{◌≡◌, ◌∷◌, [], ◌++◌, ◌<◌, true, false, Option, Some, OnOk, OnErr, IfSome, IfNone};
ghost use Rattle.turn_lock.specs.Passes.{left_with};
ghost use Rattle.turn_lock.specs.History.{entries};
ghost use Rattle.turn_lock.specs.Pushing.{HasPushed};

use crate::{Kept, Names, Pass, Turn};
use eio_value::NoMemory;
use std::alloc::Global;
use std::collections::LinkedList;
use std::marker::{Brand, Model};
use std::sync::Wait;

/// Numbers in the order in which they were pushed.
#[derive(Drop)]
pub struct Numbers {
    items: LinkedList<u64>,
}

impl Model for Numbers {
    ghost use Rattle.std.specs.Prelude.{ℕ, List};

    ghost Value = { List ℕ };

    ghost view = { λ inside. inside.items };
}

impl Kept for Numbers {
    type Entry = u64;

    ghost stands = { λ numbers _first log. numbers ≡ entries log };
}

impl Numbers {
    /// No numbers.
    pub fn new(alloc: Global) -> Numbers
        ensures { result ≡ [] }
    {
        Numbers {
            items: LinkedList::new(alloc),
        }
    }

    /// The first number, which is taken out.
    pub fn pop(&mut self) -> Option<u64>
        ensures some { IfSome result (λ number. self.old ≡ number ∷ self.new) }
        ensures none { IfNone result ((self.old ≡ []) × (self.new ≡ [])) }
    {
        self.items.pop_front()
    }
}

/// Gives the turn on with this number more.
fn give<N: Names<u64>>(
    turn: &Turn<Numbers>,
    pass: &mut Pass<Numbers>,
    numbers: Numbers,
    number: u64,
)
    requires turn { pass.old.turn ≡ turn.now.id }
    requires held { pass.old.holds ≡ true }
    requires pushed { numbers ≡ entries pass.old.seen ++ number ∷ [] }
    requires named { N.entry ≡ Some number }
    ensures { pass.new ≡ left_with pass.old (Some number) }
{
    turn.leave::<N>(pass, numbers);
}

/// Pushes a number behind all that were pushed before.
///
/// # Errors
/// [`NoMemory`]; nothing was done then, and the turn was not waited for.
pub fn push<R: Wait>(
    rt: &R,
    alloc: Global,
    turn: &Turn<Numbers>,
    pass: &mut Pass<Numbers>,
    number: u64,
) -> Result<(), NoMemory>
    requires turn { pass.old.turn ≡ turn.now.id }
    requires free { pass.old.holds ≡ false }
    ensures ok { OnOk result (HasPushed number pass.old pass.new) }
    ensures err { OnErr result (pass.new ≡ pass.old) }
{
    let mut one = LinkedList::new(alloc);
    one.push_back(number)?;
    let mut numbers = turn.enter(rt, pass);
    let Ok(()) = numbers.items.append(&mut one) else {
        unreachable!();
    };
    give::<Brand>(turn, pass, numbers, number);
    Ok(())
}
