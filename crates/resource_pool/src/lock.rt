//! A mutex: whether it is free, held or poisoned, and the fibers that wait for it.
//!
//! An unlock passes it on to the first waiter that is alive, and frees it only where there is none. Once it is poisoned nobody gets it, and
//! whoever waits is woken with `Poisoned`, one fiber a call. The theorems are the clauses of the methods of [`Lock`], by `spec_parts`'s `Mutexes`;
//! that at most one fiber has it, whatever is called, is the law [`locked_in_turn`](crate::locked_in_turn).

ghost use Rattle.std.specs.Prelude.{◌≡◌, ◌≢◌, ◌↔◌, ◌<◌, ◌≤◌, ℕ, Bool, true, length, [], None, IfOk};
ghost use Rattle.std.specs.List.{All};
ghost use Rattle.eio_value.specs.declared.call.Answer.TheVariants as answer;
ghost use Rattle.eio_value.specs.declared.call.Call.TheVariants as call;
ghost use Rattle.eio_value.specs.declared.message.Waiter.{Waiter as Wait};
ghost use Rattle.eio_value.specs.declared.plain.Misuse.TheVariants as misuse;
ghost use Rattle.eio_value.specs.declared.plain.Plain.TheVariants as plain;
ghost use Rattle.eio_value.specs.Waking.{IsKnown};
ghost use Rattle.law_parts.specs.Waits.{HasEachCellOnce};
ghost use Rattle.spec_parts.specs.declared.hold.Hold.TheVariants.{Free, Held, Poisoned};
ghost use Rattle.spec_parts.specs.Data.{Mutex};
ghost use Rattle.spec_parts.specs.Mutexes.{mutex, raises_poisoned};
ghost use Rattle.spec_parts.specs.Objects.{called};
ghost use Rattle.spec_parts.specs.Row.{raise, done};
ghost use Rattle.spec_parts.specs.Skipping.{waiters};
ghost use Rattle.wait_list.specs.Meeting.{Meets};

use crate::waiting::wait;
use eio_value::{Answer, Member, Misuse, NoMemory, Outcome, Plain, Raised, Value, Waiter, Wake};
use spec_parts::Hold;
use std::alloc::Global;
use std::marker::Model;
use wait_list::WaitList;

/// A mutex.
#[derive(Drop)]
pub struct Lock {
    hold: Hold,
    /// Who waits for it, the oldest first.
    waiters: WaitList,
}

impl Model for Lock {
    ghost use Rattle.spec_parts.specs.Data.{Mutex};
    ghost use Rattle.wait_list.specs.Lists.{Core, core_of};

    ghost Value = { Core };

    ghost view = { λ lock. core_of (Mutex lock.hold) lock.waiters };
}

/// An exception, raised with this serial.
fn raise(serial: u64, what: Plain) -> Raised
    ensures { result ≡ raise serial what }
{
    Raised::One(Member { serial, what })
}

impl Lock {
    /// A free mutex, for fibers with cells below `cells`. No other call takes memory.
    ///
    /// # Errors
    /// [`NoMemory`].
    pub fn new(alloc: Global, cells: u32) -> Result<Lock, NoMemory>
        ensures { IfOk result (λ lock. lock ≡ record { row = mutex; cells = cells }) }
    {
        let waiters = WaitList::new(alloc, cells)?;
        Ok(Lock {
            hold: Hold::Free,
            waiters,
        })
    }

    /// Takes the mutex, `Done(())`, where it is free, and raises `Poisoned` with this serial where it is poisoned, whether the fiber's context is
    /// cancelled or not. Where it is held the fiber waits, `Waits`; or, where its context is cancelled, `Off` is answered and the mutex is as it was.
    ///
    /// # Cancellation
    /// A fiber that is cancelled while it waits hasn't got the mutex, and has lost its place: an unlock that comes to it passes the mutex on to the
    /// next one (clause `unlocks` of [`unlock`](Lock::unlock)). One that an unlock has woken before has the mutex, and has to unlock it.
    pub fn lock(&mut self, who: Waiter, off: bool, serial: u64) -> Answer
        requires cell { who.cell < self.old.cells }
        ensures locks { (object : ℕ) → called self.old.row who off serial (call.Lock object) ≡ record { row = self.new.row; answer = result; sent = None } }
        ensures off { result ≡ answer.Off → (off ≡ true) × (self.new ≡ self.old) }
        ensures poisoned { (result ≡ raises_poisoned serial) ↔ (self.old.row.values ≡ Mutex Poisoned) }
        ensures cells { self.new.cells ≡ self.old.cells }
    {
        match self.hold {
            Hold::Free => {
                self.hold = Hold::Held;
                Answer::Done(Value::Unit)
            }
            Hold::Held => wait(&mut self.waiters, who, off),
            Hold::Poisoned => Answer::Raised(raise(serial, Plain::Poisoned)),
        }
    }

    /// Takes the mutex where it is free, `Done(Int(1))`, answers `Done(Int(0))` where it is held, and raises `Poisoned` with this serial where it is
    /// poisoned.
    pub fn try_lock(&mut self, serial: u64) -> Answer
        ensures tries { (who : Wait) (off : Bool) (object : ℕ) → called self.old.row who off serial (call.TryLock object) ≡ record { row = self.new.row; answer = result; sent = None } }
        ensures poisoned { (result ≡ raises_poisoned serial) ↔ (self.old.row.values ≡ Mutex Poisoned) }
        ensures cells { self.new.cells ≡ self.old.cells }
    {
        match self.hold {
            Hold::Free => {
                self.hold = Hold::Held;
                Answer::Done(Value::Int(1))
            }
            Hold::Held => Answer::Done(Value::Int(0)),
            Hold::Poisoned => Answer::Raised(raise(serial, Plain::Poisoned)),
        }
    }

    /// Passes the mutex on to the first waiter that is alive, or frees it: `Done(())`. Where it is poisoned `Poisoned` is raised with this serial,
    /// and where it is free `NotLocked`; the mutex is then as it was.
    pub fn unlock<W: Wake>(&mut self, wake: &mut W, serial: u64) -> Answer
        requires quiet { W.sent wake.old ≡ None }
        ensures unlocks { (who : Wait) (off : Bool) (object : ℕ) → Meets (W.knows wake.old) (W.knows wake.new) (W.tells wake.old) self.old.row who off serial (call.Unlock object) (record { row = self.new.row; answer = result; sent = W.sent wake.new }) }
        ensures poisoned { (result ≡ raises_poisoned serial) ↔ (self.old.row.values ≡ Mutex Poisoned) }
        ensures free { (result ≡ answer.Raised (raise serial (plain.Invalid misuse.NotLocked))) ↔ (self.old.row.values ≡ Mutex Free) }
        ensures unchanged { self.old.row.values ≢ Mutex Held → (self.new ≡ self.old) × (wake.new ≡ wake.old) }
        ensures cells { self.new.cells ≡ self.old.cells }
        ensures same { W.tells wake.new ≡ W.tells wake.old }
        ensures goes { W.goes_on wake.old wake.new }
    {
        match self.hold {
            Hold::Free => Answer::Raised(raise(serial, Plain::Invalid(Misuse::NotLocked))),
            Hold::Held => self.pass_on(wake),
            Hold::Poisoned => Answer::Raised(raise(serial, Plain::Poisoned)),
        }
    }

    /// The first waiter that is alive gets the mutex; where there is none it is free.
    fn pass_on<W: Wake>(&mut self, wake: &mut W) -> Answer
        requires quiet { W.sent wake.old ≡ None }
        requires held { self.old.row.values ≡ Mutex Held }
        ensures unlocks { (who : Wait) (off : Bool) (object serial : ℕ) → Meets (W.knows wake.old) (W.knows wake.new) (W.tells wake.old) self.old.row who off serial (call.Unlock object) (record { row = self.new.row; answer = result; sent = W.sent wake.new }) }
        ensures done { result ≡ done }
        ensures cells { self.new.cells ≡ self.old.cells }
        ensures same { W.tells wake.new ≡ W.tells wake.old }
        ensures goes { W.goes_on wake.old wake.new }
    {
        match self.waiters.wake_first(wake, &Outcome::Ok(Value::Unit)) {
            Some(_) => {}
            None => self.hold = Hold::Free,
        }
        Answer::Done(Value::Unit)
    }

    /// Nobody can lock the mutex again. Whoever waits still stands here, and is woken by [`next_wake`](Lock::next_wake).
    pub fn poison(&mut self)
        ensures poisons { (who : Wait) (off : Bool) (object serial : ℕ) → (called self.old.row who off serial (call.Poison object)).row ≡ self.new.row }
        ensures cells { self.new.cells ≡ self.old.cells }
    {
        self.hold = Hold::Poisoned;
    }

    /// Wakes the first waiter that is alive with `Poisoned`, raised with this serial: `Woke`. `Nothing` where nobody is, or where the mutex isn't
    /// poisoned; then all is as it was, but for the dead.
    pub fn next_wake<W: Wake>(&mut self, wake: &mut W, serial: u64) -> Answer
        requires quiet { W.sent wake.old ≡ None }
        ensures wakes { (who : Wait) (off : Bool) (object : ℕ) → Meets (W.knows wake.old) (W.knows wake.new) (W.tells wake.old) self.old.row who off serial (call.NextWake object) (record { row = self.new.row; answer = result; sent = W.sent wake.new }) }
        ensures nothing { (result ≡ answer.Nothing) ↔ (W.sent wake.new ≡ None) }
        ensures dead { result ≡ answer.Nothing → self.old.row.values ≡ Mutex Poisoned → All (IsKnown (W.knows wake.new)) (waiters self.old.row.takers) × (self.new.row ≡ record self.old.row { takers = [] }) }
        ensures unchanged { self.old.row.values ≢ Mutex Poisoned → (self.new ≡ self.old) × (wake.new ≡ wake.old) }
        ensures cells { self.new.cells ≡ self.old.cells }
        ensures same { W.tells wake.new ≡ W.tells wake.old }
        ensures goes { W.goes_on wake.old wake.new }
    {
        match self.hold {
            Hold::Free | Hold::Held => Answer::Nothing,
            Hold::Poisoned => self.wake_poisoned(wake, serial),
        }
    }

    /// The first waiter that is alive gets `Poisoned`.
    fn wake_poisoned<W: Wake>(&mut self, wake: &mut W, serial: u64) -> Answer
        requires quiet { W.sent wake.old ≡ None }
        requires poisoned { self.old.row.values ≡ Mutex Poisoned }
        ensures wakes { (who : Wait) (off : Bool) (object : ℕ) → Meets (W.knows wake.old) (W.knows wake.new) (W.tells wake.old) self.old.row who off serial (call.NextWake object) (record { row = self.new.row; answer = result; sent = W.sent wake.new }) }
        ensures nothing { (result ≡ answer.Nothing) ↔ (W.sent wake.new ≡ None) }
        ensures dead { result ≡ answer.Nothing → self.old.row.values ≡ Mutex Poisoned → All (IsKnown (W.knows wake.new)) (waiters self.old.row.takers) × (self.new.row ≡ record self.old.row { takers = [] }) }
        ensures cells { self.new.cells ≡ self.old.cells }
        ensures same { W.tells wake.new ≡ W.tells wake.old }
        ensures goes { W.goes_on wake.old wake.new }
    {
        let poisoned = Outcome::Err(raise(serial, Plain::Poisoned));
        match self.waiters.wake_first(wake, &poisoned) {
            Some(woken) => Answer::Woke(woken.who),
            None => Answer::Nothing,
        }
    }

    /// No cell waits twice, and no more fibers than there are cells.
    pub fn each_cell_once(&self)
        ensures once { HasEachCellOnce self.now.row }
        ensures few { length self.now.row.takers ≤ self.now.cells }
    {
        self.waiters.each_cell_once()
    }
}
