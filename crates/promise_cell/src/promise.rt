//! A promise.
//!
//! Until it is resolved fibers are entered and nobody is woken; from then on nobody is entered, and each `next_wake` takes out the dead to which
//! it comes and the first that is alive. The theorems are the clauses of the methods of [`Promise`], by `spec_parts`'s `Promises`.

ghost use Rattle.std.specs.Prelude.{◌≡◌, ◌↔◌, ◌<◌, ◌≤◌, length, ℕ, Bool, true, false, [], None, IfOk, IsSome};
ghost use Rattle.std.specs.List.{All};
ghost use Rattle.eio_value.specs.declared.call.Call.TheVariants as call;
ghost use Rattle.eio_value.specs.declared.message.Waiter.{Waiter as Wait};
ghost use Rattle.eio_value.specs.declared.value.Value.{Value as Given};
ghost use Rattle.eio_value.specs.Waking.{IsKnown};
ghost use Rattle.law_parts.specs.Waits.{HasEachCellOnce};
ghost use Rattle.promise_cell.specs.Outcomes.{outcome_in, resolve_answer, try_answer};
ghost use Rattle.spec_parts.specs.Objects.{called};
ghost use Rattle.spec_parts.specs.Promises as promises;
ghost use Rattle.spec_parts.specs.Skipping.{waiters};
ghost use Rattle.wait_list.specs.Meeting.{Meets};

use eio_value::{Answer, NoMemory, Outcome, Value, Waiter, Wake};
use std::alloc::Global;
use std::marker::Model;
use wait_list::{Queued, WaitList};

/// A promise, with the fibers that wait for its outcome.
#[derive(Drop)]
pub struct Promise {
    /// Set once, and never changed.
    outcome: Option<Outcome>,
    /// Who waits for it, the oldest first.
    waiting: WaitList,
}

impl Model for Promise {
    ghost use Rattle.spec_parts.specs.Data as held;
    ghost use Rattle.wait_list.specs.Lists.{Core, core_of};

    ghost Value = { Core };

    ghost view = { λ promise. core_of (held.Promise promise.outcome) promise.waiting };
}

impl Promise {
    /// A promise that isn't resolved, for fibers with cells below `cells`. No other call takes memory.
    ///
    /// # Errors
    /// [`NoMemory`].
    pub fn new(alloc: Global, cells: u32) -> Result<Promise, NoMemory>
        ensures { IfOk result (λ promise. promise ≡ record { row = promises.promise; cells = cells }) }
    {
        let waiting = WaitList::new(alloc, cells)?;
        Ok(Promise {
            outcome: None,
            waiting,
        })
    }

    /// The outcome, once there is one: `Done` or `Raised`. Until then the fiber waits for it, `Waits`; or, where its context is
    /// off, `Off` is answered and nothing has changed (`off`).
    ///
    /// # Cancellation
    /// A fiber that is cancelled while it waits has lost its place alone: the outcome isn't changed by waiting (`waits`), nor by being
    /// told (`awaits`), so a later call has it all the same. One that [`next_wake`](Promise::next_wake) has woken before has the outcome.
    pub fn await_(&mut self, who: Waiter, off: bool) -> Answer
        requires cell { who.cell < self.old.cells }
        ensures awaits { (object serial : ℕ) → called self.old.row who off serial (call.Await object) ≡ record { row = self.new.row; answer = result; sent = None } }
        ensures waits { result ≡ Answer.Waits → (off ≡ false) × (self.new.row.values ≡ self.old.row.values) }
        ensures off { result ≡ Answer.Off → (off ≡ true) × (self.new ≡ self.old) }
        ensures cells { self.new.cells ≡ self.old.cells }
    {
        match &self.outcome {
            Some(Outcome::Ok(value)) => Answer::Done(*value),
            Some(Outcome::Err(raised)) => Answer::Raised(*raised),
            None => {
                let queued = Queued {
                    who,
                    item: Value::Unit,
                    number: 0,
                };
                self.waiting.wait(queued, off)
            }
        }
    }

    /// Sets the outcome. False exactly where it was resolved before, and then nothing has changed.
    pub fn resolve(&mut self, value: Outcome) -> bool
        ensures resolves { (who : Wait) (off : Bool) (object serial : ℕ) → called self.old.row who off serial (call.Resolve object value) ≡ record { row = self.new.row; answer = resolve_answer result serial; sent = None } }
        ensures tries { (given : Given) → value ≡ Outcome.Ok given → (who : Wait) (off : Bool) (object serial : ℕ) → called self.old.row who off serial (call.TryResolve object given) ≡ record { row = self.new.row; answer = try_answer result; sent = None } }
        ensures once { (result ≡ false) ↔ IsSome (outcome_in self.old.row.values) }
        ensures unchanged { result ≡ false → self.new ≡ self.old }
        ensures cells { self.new.cells ≡ self.old.cells }
    {
        if self.outcome.is_some() {
            return false;
        }
        self.outcome = Some(value);
        true
    }

    /// Wakes the first fiber that is alive, with the outcome: `Woke`. `Nothing` exactly where nobody is alive or it isn't resolved. Where it
    /// is, the fibers were all dead and are gone (`dead`); where it isn't, nobody was asked (`unresolved`).
    pub fn next_wake<W: Wake>(&mut self, wake: &mut W) -> Answer
        requires quiet { W.sent wake.old ≡ None }
        ensures wakes { (who : Wait) (off : Bool) (object serial : ℕ) → Meets (W.knows wake.old) (W.knows wake.new) (W.tells wake.old) self.old.row who off serial (call.NextWake object) (record { row = self.new.row; answer = result; sent = W.sent wake.new }) }
        ensures nothing { (result ≡ Answer.Nothing) ↔ (W.sent wake.new ≡ None) }
        ensures dead { result ≡ Answer.Nothing → IsSome (outcome_in self.old.row.values) → All (IsKnown (W.knows wake.new)) (waiters self.old.row.takers) × (self.new.row ≡ record self.old.row { takers = [] }) }
        ensures unresolved { outcome_in self.old.row.values ≡ None → (self.new ≡ self.old) × (wake.new ≡ wake.old) }
        ensures cells { self.new.cells ≡ self.old.cells }
        ensures same { W.tells wake.new ≡ W.tells wake.old }
        ensures goes { W.goes_on wake.old wake.new }
    {
        let Some(outcome) = &self.outcome else {
            return Answer::Nothing;
        };
        match self.waiting.wake_first(wake, outcome) {
            Some(woken) => Answer::Woke(woken.who),
            None => Answer::Nothing,
        }
    }

    /// Each cell stands among the waiting fibers at most once, and no more wait than there are cells.
    pub fn each_cell_once(&self)
        ensures once { HasEachCellOnce self.now.row }
        ensures few { length self.now.row.takers ≤ self.now.cells }
    {
        self.waiting.each_cell_once();
    }
}
