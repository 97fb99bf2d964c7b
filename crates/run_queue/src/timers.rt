//! The timers: when each sleeping fiber is due.
//!
//! They stand in order of due time and, where that is the same, in order of making (`IsInOrder`), so that the first is the next
//! to go off. A new timer's place is found by halving, and the timers on its shorter side move by one; the first goes in constant
//! time; `remove` looks at each. The queue has room for the most that may stand, so that only `new` takes memory.
//! The theorems are the clauses of the methods of [`Timers`], by `spec_parts`'s `Timers`.

ghost use Rattle.std.specs.Prelude.{◌≡◌, ◌↔◌, ◌<◌, ◌+◌, ◌-◌, ◌^◌, false, IsErr, IsTrue, IfOk, OnOk, OnErr};
ghost use Rattle.spec_parts.specs.Timers as list;

use eio_value::{Full, NoMemory};
use std::alloc::Global;
use std::collections::VecDeque;
use std::marker::Model;

/// When it is due, its number in order of making, and the fiber that sleeps.
#[derive(Clone, Copy)]
struct Timer {
    due: i64,
    number: u64,
    fiber: u32,
}

/// The timers of a domain.
#[derive(Drop)]
pub struct Timers {
    /// In order, with room for `most`.
    standing: VecDeque<Timer>,
    /// How many were made.
    made: u64,
    /// The most that may stand.
    most: usize,
}

impl Model for Timers {
    ghost use Rattle.std.specs.Prelude.{map, ◌≤◌};
    ghost use Rattle.std.specs.VecDeque.{deque_capacity};
    ghost use Rattle.run_queue.specs.Lists.{TimerList};

    ghost Value = { TimerList };

    ghost use Rattle.run_queue.specs.Order.{timer_of, IsInOrder};

    ghost view = { λ t. record { timers = record { standing = map timer_of t.standing.items; made = t.made }; most = t.most } };

    ghost invariant = { λ t. (t.most ≤ deque_capacity t.standing) × IsInOrder t.standing.items };
}

impl Timers {
    /// No timers, with room for so many. No other call takes memory.
    pub fn new(alloc: Global, most: usize) -> Result<Timers, NoMemory>
        ensures { IfOk result (λ timers. timers ≡ record { timers = list.no_timers; most = most }) }
    {
        let standing = VecDeque::with_capacity(alloc, most)?;
        Ok(Timers {
            standing,
            made: 0,
            most,
        })
    }

    /// The fiber sleeps until this time. It goes behind those that are due no later.
    pub fn add(&mut self, due: i64, fiber: u32) -> Result<(), Full>
        requires awake { list.sleeps fiber self.old.timers ≡ false }
        requires countable { self.old.timers.made < 2 ^ 64 - 1 }
        ensures full { IsErr result ↔ IsTrue (list.is_full self.old.most self.old.timers) }
        ensures ok { OnOk result (self.new ≡ record self.old { timers = list.add due fiber self.old.timers }) }
        ensures err { OnErr result (self.new ≡ self.old) }
    {
        if self.standing.len() >= self.most {
            return Err(Full);
        }
        let timer = Timer {
            due,
            number: self.made,
            fiber,
        };
        let place = self.standing.partition_point(|other| other.due <= due);
        self.standing.insert(place, timer).unwrap();
        self.made += 1;
        Ok(())
    }

    /// The earliest due time; `None` where no timer stands.
    pub fn earliest(&self) -> Option<i64>
        ensures { result ≡ list.earliest self.now.timers }
    {
        match self.standing.front() {
            Some(timer) => Some(timer.due),
            None => None,
        }
    }

    /// The first fiber that is due at this time has its timer taken; `None` where none is due.
    pub fn pop_due(&mut self, now: i64) -> Option<u32>
        ensures fiber { result ≡ (list.pop_due now self.old.timers).fiber }
        ensures others { self.new ≡ record self.old { timers = (list.pop_due now self.old.timers).timers } }
    {
        match self.standing.front() {
            Some(timer) if timer.due <= now => {}
            _ => return None,
        }
        match self.standing.pop_front() {
            Some(timer) => Some(timer.fiber),
            None => None,
        }
    }

    /// The fiber's timer goes, before its time; whether it had one.
    pub fn remove(&mut self, fiber: u32) -> bool
        ensures slept { result ≡ list.sleeps fiber self.old.timers }
        ensures others { self.new ≡ record self.old { timers = list.remove fiber self.old.timers } }
    {
        let before = self.standing.len();
        self.standing.retain(|timer| timer.fiber != fiber);
        self.standing.len() < before
    }
}
