//! What a domain asks of the shared objects of its script.
//!
//! A domain is proved once over any value that keeps these promises: plain objects of a mocked domain, objects behind locks,
//! and those that are left once all threads have ended. What a call does stands in the relations `calls`, `strikes` and
//! `receives`, which each implementation says in full; the other clauses are what a domain needs to know of any of them.

ghost use Rattle.std.specs.Prelude.{◌≡◌, ℕ, ◌+◌, ◌-◌, ◌^◌, ◌<◌, ◌≤◌, Bool, true, Option};
ghost use Rattle.eio_value.specs.declared.call.Answered.{Answered};
ghost use Rattle.eio_value.specs.declared.call.Call.{Call};
ghost use Rattle.eio_value.specs.declared.call.Struck.{Struck};
ghost use Rattle.eio_value.specs.declared.message.Message.{Message};
ghost use Rattle.eio_value.specs.declared.message.Waiter.{Waiter};
ghost use Rattle.eio_value.specs.Fitting.{FitsCall, FitsAnswered, FitsMessage};
ghost use Rattle.eio_value.specs.Waits.{Terms, bounds_of, HasObject, Open, may_wait, waits, CanEnter, IsForOpen, open_answered, open_struck, open_behind, Jobs, WasGiven, MayStart, with_job, struck_stamp, seen_in};

use crate::{Answered, Call, Message, Struck, Waiter};

/// The shared objects of a script, as one domain calls them.
pub trait Objects {
    /// What a call does: before, by whom, whether its context is off, at which stamp, with the number of the raise that it may
    /// make, which call, what it is answered, after.
    ghost calls: { Self → Waiter → Bool → ℕ → ℕ → Call → Answered → Self → Type 0 };

    /// What a strike does: before, on which wait, at which stamp, whether it has won, after.
    ghost strikes: { Self → Waiter → ℕ → Struck → Self → Type 0 };

    /// What a look for a message does: before, what was found, after.
    ghost receives: { Self → Option Message → Self → Type 0 };

    /// What never changes.
    ghost terms: { Self → Terms };

    /// How many texts there are.
    ghost texts: { Self → ℕ };

    /// The greatest stamp that an answer or a message has brought to this domain.
    ghost seen: { Self → ℕ };

    /// Which waits of this domain are open.
    ghost is_open: { Self → Open };

    /// Which jobs were given to this domain.
    ghost jobs: { Self → Jobs };

    /// A call of this waiter, whose context is off or isn't; `serial` is the number of the raise that the call may make.
    ///
    /// Where it answers `Waits`, a cancellation is a strike: where that wins, the call has done nothing.
    fn call(&mut self, who: Waiter, off: bool, stamp: u64, serial: u64, call: Call) -> Answered
        requires object { HasObject (terms self.old) call }
        requires fits { FitsCall (bounds_of (terms self.old) (texts self.old)) call }
        requires given { WasGiven (jobs self.old) call }
        requires stamps { seen self.old ≤ stamp }
        requires early { stamp < 2 ^ 60 - 4 }
        requires armed { who.armed ≡ stamp + 1 }
        requires enters { may_wait call ≡ true → CanEnter (terms self.old) (is_open self.old) who }
        ensures does { calls self.old who off stamp serial call result self.new }
        ensures same { terms self.new ≡ terms self.old }
        ensures texts { texts self.old ≤ texts self.new }
        ensures fits { FitsAnswered (bounds_of (terms self.old) (texts self.new)) result }
        ensures later { stamp < result.stamp }
        ensures early { result.stamp < 2 ^ 61 }
        ensures seen { seen self.new ≡ result.stamp }
        ensures waits { waits result.answer ≡ true → may_wait call ≡ true }
        ensures waited { IsForOpen (is_open self.old) result.mine }
        ensures starts { MayStart call result.mine }
        ensures opens { (other : Waiter) → is_open self.new other ≡ open_answered who result (is_open self.old) other }
        ensures gives { (executor number : ℕ) → jobs self.new executor number ≡ with_job result.mine (jobs self.old) executor number };

    /// Cancels an open wait, unless it was woken before.
    fn strike(&mut self, who: Waiter, stamp: u64) -> Struck
        requires open { is_open self.old who ≡ true }
        requires stamps { seen self.old ≤ stamp }
        requires early { stamp < 2 ^ 60 - 4 }
        ensures does { strikes self.old who stamp result self.new }
        ensures same { terms self.new ≡ terms self.old }
        ensures texts { texts self.old ≤ texts self.new }
        ensures later { stamp < struck_stamp result }
        ensures early { struck_stamp result < 2 ^ 61 }
        ensures seen { seen self.new ≡ struck_stamp result }
        ensures opens { (other : Waiter) → is_open self.new other ≡ open_struck who result (is_open self.old) other }
        ensures gives { (executor number : ℕ) → jobs self.new executor number ≡ jobs self.old executor number };

    /// Takes a message that has come for this domain; `None` where none was there.
    fn receive(&mut self) -> Option<Message>
        ensures does { receives self.old result self.new }
        ensures same { terms self.new ≡ terms self.old }
        ensures texts { texts self.old ≤ texts self.new }
        ensures fits { FitsMessage (bounds_of (terms self.old) (texts self.new)) result }
        ensures early { seen_in result 0 < 2 ^ 61 }
        ensures seen { seen self.new ≡ seen_in result (seen self.old) }
        ensures waited { IsForOpen (is_open self.old) result }
        ensures opens { (other : Waiter) → is_open self.new other ≡ open_behind result (is_open self.old) other }
        ensures gives { (executor number : ℕ) → jobs self.new executor number ≡ with_job result (jobs self.old) executor number };
}
