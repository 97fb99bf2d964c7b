//! The waiting fibers, in order of their numbers.
//!
//! A fiber's place is found by halving, and those on its shorter side move by one. There is room for as many as may wait, so that
//! only `new` takes memory. The invariant is `AreInOrder`. The theorems are the clauses of the methods of [`Waiters`], by
//! `spec_parts`'s `ContextCalls`.

ghost use Rattle.std.specs.Prelude.{◌≡◌, ◌<◌, ◌≤◌, [], length, map, true, false, IfOk};
ghost use Rattle.spec_parts.specs.ContextCalls.{put_in, taken_out};
ghost use Rattle.cancel_tree.specs.Waits.{waits};

use eio_value::NoMemory;
use std::alloc::Global;
use std::collections::VecDeque;
use std::marker::Model;

/// The most fibers that may wait.
const MOST_WAITING: usize = 1024;

/// A waiting fiber, and the context that it runs in.
#[derive(Clone, Copy)]
pub(crate) struct Entered {
    pub(crate) fiber: u32,
    pub(crate) context: u32,
}

/// The waiting fibers of a domain.
#[derive(Drop)]
pub(crate) struct Waiters {
    entered: VecDeque<Entered>,
}

impl Model for Waiters {
    ghost use Rattle.std.specs.Prelude.{List, map};
    ghost use Rattle.std.specs.VecDeque.{deque_capacity};
    ghost use Rattle.spec_parts.specs.Contexts.{Waiting};

    ghost Value = { List Waiting };

    ghost use Rattle.cancel_tree.specs.Entered.{waiting_of, AreInOrder};

    ghost view = { λ w. map waiting_of w.entered.items };

    ghost invariant = { λ w. AreInOrder w.entered.items (deque_capacity w.entered) };
}

impl Waiters {
    ghost use Rattle.std.specs.Prelude.{◌≡◌, ◌<◌, ◌≤◌, [], length, map, true, false, IfOk};
    ghost use Rattle.spec_parts.specs.ContextCalls.{put_in, taken_out};
    ghost use Rattle.cancel_tree.specs.Waits.{waits};
    ghost use Rattle.cancel_tree.specs.Entered.{waiting_of};

    /// Nobody waits, and there is room for as many as may.
    pub(crate) fn new(alloc: Global) -> Result<Waiters, NoMemory>
        ensures { IfOk result (λ waiters. waiters ≡ []) }
    {
        let entered = VecDeque::with_capacity(alloc, MOST_WAITING)?;
        Ok(Waiters { entered })
    }

    /// The fiber waits, in this context.
    pub(crate) fn enter(&mut self, fiber: u32, context: u32)
        requires out { waits fiber self.old ≡ false }
        requires room { length self.old < 1024 }
        ensures { self.new ≡ put_in (record { fiber = fiber; context = context }) self.old }
    {
        let index = self.entered.partition_point(|other| other.fiber < fiber);
        self.entered
            .insert(index, Entered { fiber, context })
            .unwrap();
    }

    /// The fiber no longer waits.
    pub(crate) fn leave(&mut self, fiber: u32)
        requires { waits fiber self.old ≡ true }
        ensures { self.new ≡ taken_out fiber self.old }
    {
        let index = self.entered.partition_point(|other| other.fiber < fiber);
        self.entered.remove(index);
    }

    /// All of them.
    pub(crate) fn entered(&self) -> &VecDeque<Entered>
        ensures all { map waiting_of result.now.items ≡ self.now }
        ensures few { length result.now.items ≤ 1024 }
    {
        &self.entered
    }
}
