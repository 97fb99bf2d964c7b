//! A semaphore: how many are left to acquire, and the fibers that wait for one.
//!
//! A fiber waits only where none is left, and a release counts one more only where no waiter is alive. As waiters are entered behind and asked from
//! the front, the one that has waited longest gets the next. The theorems are the clauses of the methods of [`Sem`], by `spec_parts`'s `Semaphores`;
//! what its count is after any calls is the law [`counts_what_is_left`](crate::counts_what_is_left).

ghost use Rattle.std.specs.Prelude.{◌≡◌, ◌↔◌, ◌<◌, ◌≤◌, ℕ, Bool, true, length, None, IfOk};
ghost use Rattle.eio_value.specs.declared.call.Answer.TheVariants as answer;
ghost use Rattle.eio_value.specs.declared.call.Call.TheVariants as call;
ghost use Rattle.eio_value.specs.declared.message.Waiter.{Waiter as Wait};
ghost use Rattle.law_parts.specs.Waits.{HasEachCellOnce};
ghost use Rattle.spec_parts.specs.Data.{Semaphore};
ghost use Rattle.spec_parts.specs.Objects.{called};
ghost use Rattle.spec_parts.specs.Semaphores.{semaphore, greatest_count};
ghost use Rattle.wait_list.specs.Meeting.{Meets};

use crate::waiting::wait;
use eio_value::{Answer, NoMemory, Outcome, Value, Waiter, Wake};
use std::alloc::Global;
use std::marker::Model;
use wait_list::WaitList;

/// A semaphore.
#[derive(Drop)]
pub struct Sem {
    /// How many are left to acquire.
    count: u32,
    /// Who waits for one, the oldest first.
    waiters: WaitList,
}

impl Model for Sem {
    ghost use Rattle.spec_parts.specs.Data.{Semaphore};
    ghost use Rattle.wait_list.specs.Lists.{Core, core_of};

    ghost Value = { Core };

    ghost view = { λ sem. core_of (Semaphore sem.count) sem.waiters };
}

impl Sem {
    /// A semaphore of which so many can be acquired, for fibers with cells below `cells`. No other call takes memory.
    ///
    /// # Errors
    /// [`NoMemory`].
    pub fn new(alloc: Global, count: u32, cells: u32) -> Result<Sem, NoMemory>
        ensures { IfOk result (λ sem. sem ≡ record { row = semaphore count; cells = cells }) }
    {
        let waiters = WaitList::new(alloc, cells)?;
        Ok(Sem { count, waiters })
    }

    /// Takes one: `Done(())`. Where none is left the fiber waits for one, `Waits`; or, where its context is cancelled, it has taken nothing and `Off` is
    /// answered, with the semaphore as it was.
    ///
    /// # Cancellation
    /// A fiber that is cancelled while it waits has acquired nothing, and has lost its place: a release that comes to it wakes the next one
    /// (clause `releases` of [`release`](Sem::release)). One that a release has woken before keeps what it acquired.
    pub fn acquire(&mut self, who: Waiter, off: bool) -> Answer
        requires cell { who.cell < self.old.cells }
        ensures acquires { (object serial : ℕ) → called self.old.row who off serial (call.Acquire object) ≡ record { row = self.new.row; answer = result; sent = None } }
        ensures off { result ≡ answer.Off → (off ≡ true) × (self.new ≡ self.old) }
        ensures cells { self.new.cells ≡ self.old.cells }
    {
        if self.count > 0 {
            self.count -= 1;
            return Answer::Done(Value::Unit);
        }
        wait(&mut self.waiters, who, off)
    }

    /// Gives one back, `Done(())`: the first waiter that is alive has acquired it and is woken, or one more is left. `Nothing` where the count is
    /// `u32`'s greatest number, and only there; then nothing has changed.
    pub fn release<W: Wake>(&mut self, wake: &mut W) -> Answer
        requires quiet { W.sent wake.old ≡ None }
        ensures releases { (who : Wait) (off : Bool) (object serial : ℕ) → Meets (W.knows wake.old) (W.knows wake.new) (W.tells wake.old) self.old.row who off serial (call.Release object) (record { row = self.new.row; answer = result; sent = W.sent wake.new }) }
        ensures nothing { (result ≡ answer.Nothing) ↔ (self.old.row.values ≡ Semaphore greatest_count) }
        ensures unchanged { result ≡ answer.Nothing → (self.new ≡ self.old) × (wake.new ≡ wake.old) }
        ensures cells { self.new.cells ≡ self.old.cells }
        ensures same { W.tells wake.new ≡ W.tells wake.old }
        ensures goes { W.goes_on wake.old wake.new }
    {
        if self.count == u32::MAX {
            return Answer::Nothing;
        }
        match self.waiters.wake_first(wake, &Outcome::Ok(Value::Unit)) {
            Some(_) => {}
            None => self.count += 1,
        }
        Answer::Done(Value::Unit)
    }

    /// No cell waits twice, and no more fibers than there are cells.
    pub fn each_cell_once(&self)
        ensures once { HasEachCellOnce self.now.row }
        ensures few { length self.now.row.takers ≤ self.now.cells }
    {
        self.waiters.each_cell_once()
    }
}
