//! How a call on a shared object wakes the fiber that it finds waiting.
//!
//! An object doesn't know whether a fiber in its lists still waits: the wait may have been decided elsewhere, by a cancellation
//! or by another wake. It asks by waking it, and goes on to the next where that came too late. So one object serves a mocked
//! domain, where every waiter is alive, and domains on threads, where a wake is one step on a resume word.

ghost use Rattle.std.specs.Prelude.{◌≡◌, ℕ, Bool, true, Option, Some, None};
ghost use Rattle.eio_value.specs.Sending.{Sent, Starts};
ghost use Rattle.eio_value.specs.Waking.{Test, Keeps, Wakes};

use crate::{Job, Outcome, Waiter, Woken};

/// Wakes fibers and starts jobs, one for each value: a call on an object sends at most one message.
pub trait Wake {
    /// Which waits were found decided. One that this value woke itself stands in `sent` alone.
    ghost knows: { Self → Test };

    /// Whether the value tells which waits are alive, because it knows all that are decided.
    ghost tells: { Self → Bool };

    /// What was sent.
    ghost sent: { Self → Option Sent };

    /// How a value goes on from call to call: what each type says of all its calls besides.
    ghost goes_on: { Self → Self → Type 0 };

    /// Wakes this waiter with the outcome of its call, unless its wait was decided before.
    fn wake(&mut self, who: Waiter, outcome: Outcome) -> Woken
        requires { sent self.old ≡ None }
        ensures wakes { Wakes (knows self.old) (knows self.new) who outcome result (sent self.new) }
        ensures keeps { Keeps (knows self.old) (knows self.new) }
        ensures told { tells self.old ≡ true → Keeps (knows self.new) (knows self.old) }
        ensures same { tells self.new ≡ tells self.old }
        ensures goes { goes_on self.old self.new };

    /// Starts this job in that domain, under its number in its executor.
    fn start(&mut self, domain: u8, job: Job, number: u64)
        requires { sent self.old ≡ None }
        ensures sent { sent self.new ≡ Some (Starts (record { domain = domain; job = job; number = number })) }
        ensures keeps { Keeps (knows self.old) (knows self.new) }
        ensures told { tells self.old ≡ true → Keeps (knows self.new) (knows self.old) }
        ensures same { tells self.new ≡ tells self.old }
        ensures goes { goes_on self.old self.new };

    ghost stays: { (w : Self) → goes_on w w };

    ghost follows: { (a b c : Self) → goes_on a b → goes_on b c → goes_on a c };
}
