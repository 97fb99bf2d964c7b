//! The answers that calls share: a fiber that calls goes on at the head of the ready list with a value or an exception, goes to its
//! back, or waits; or a limit is met. Each is the step of the definitions (`Makes`).

ghost use Rattle.std.specs.Prelude.{◌≡◌, ◌<◌, length, OnOk};
ghost use Rattle.spec_machine.specs.Domain.{ForOthers};
ghost use Rattle.spec_machine.specs.Steps as steps;
ghost use Rattle.domain_core.specs.Answering.{Makes, SameCounts};
ghost use Rattle.domain_core.specs.Conditions.{IsAwake};
ghost use Rattle.domain_core.specs.Keyed.{call_of};

use crate::domain::Domain;
use crate::standing::{Again, Next, Standing};
use crate::told::Told;
use eio_value::{NoMemory, Plain, Raised, Value};
use trace_lines::{Did, Said2};

impl Domain {
    /// The move in the place of a call that would pass a limit: the domain is halted.
    pub(crate) fn halt(&mut self, fiber: u32, told: &mut Told)
        ensures makes { Makes (steps.halts fiber) self.old told.new self.new }
        ensures same { SameCounts self.old self.new }
    {
        self.halted = true;
        *told = Told {
            fiber,
            did: Did::Limit,
            reply: Said2::Done(Value::Unit),
        };
    }

    /// The call gives this value.
    pub(crate) fn give(&mut self, fiber: u32, did: Did, value: Value, told: &mut Told)
        requires awake { IsAwake self.old fiber }
        requires room { length self.old.ready < 1024 }
        ensures makes { Makes (steps.gives did value fiber) self.old told.new self.new }
        ensures same { SameCounts self.old self.new }
    {
        self.to_head(fiber, Next::GoesOn(value));
        *told = Told {
            fiber,
            did,
            reply: Said2::Done(value),
        };
    }

    /// The call raises what was raised before.
    ///
    /// # Errors
    /// [`NoMemory`] where memory runs out; the domain isn't used again then.
    pub(crate) fn raise_again(
        &mut self,
        fiber: u32,
        did: Did,
        raised: &Raised,
        told: &mut Told,
    ) -> Result<(), NoMemory>
        requires awake { IsAwake self.old fiber }
        requires room { length self.old.ready < 1024 }
        ensures makes { OnOk result (Makes (steps.raises_again did raised.now fiber) self.old told.new self.new) }
        ensures same { OnOk result (SameCounts self.old self.new) }
    {
        self.throw_at_head(fiber, raised)?;
        *told = Told {
            fiber,
            did,
            reply: Said2::Raised(*raised),
        };
        Ok(())
    }

    /// The call raises this anew.
    ///
    /// # Errors
    /// [`NoMemory`] where memory, or the numbers for raises, run out; the domain isn't used again then.
    pub(crate) fn raise(
        &mut self,
        fiber: u32,
        did: Did,
        what: Plain,
        told: &mut Told,
    ) -> Result<(), NoMemory>
        requires awake { IsAwake self.old fiber }
        requires room { length self.old.ready < 1024 }
        ensures makes { OnOk result (Makes (steps.raises did what fiber) self.old told.new self.new) }
        ensures same { OnOk result (SameCounts self.old self.new) }
    {
        let member = self.new_raise(what)?;
        self.raise_again(fiber, did, &Raised::One(member), told)
    }

    /// The call raises anew that its context is off, for this reason.
    ///
    /// # Errors
    /// [`NoMemory`] where memory, or the numbers for raises, run out; the domain isn't used again then.
    pub(crate) fn raise_cancelled(
        &mut self,
        fiber: u32,
        did: Did,
        why: Plain,
        told: &mut Told,
    ) -> Result<(), NoMemory>
        requires awake { IsAwake self.old fiber }
        requires room { length self.old.ready < 1024 }
        ensures makes { OnOk result (Makes (steps.raises_cancelled did why fiber) self.old told.new self.new) }
        ensures same { OnOk result (SameCounts self.old self.new) }
    {
        let member = self.new_raise(why)?;
        self.raise_again(fiber, did, &Raised::Cancelled(member), told)
    }

    /// The fiber waits for others, and then makes this call again.
    pub(crate) fn wait_for(&mut self, fiber: u32, did: Did, again: Again, told: &mut Told)
        requires awake { IsAwake self.old fiber }
        ensures makes { Makes (steps.waits did (ForOthers (call_of again)) fiber) self.old told.new self.new }
        ensures same { SameCounts self.old self.new }
    {
        self.fibers.stand(fiber, Standing::Parked(again));
        *told = Told {
            fiber,
            did,
            reply: Said2::Waits,
        };
    }

    /// The call would have waited, but the fiber's context is off: it raises that with its next move.
    pub(crate) fn go_off(&mut self, fiber: u32, did: Did, told: &mut Told)
        requires awake { IsAwake self.old fiber }
        requires room { length self.old.ready < 1024 }
        ensures makes { Makes (steps.goes_off did fiber) self.old told.new self.new }
        ensures same { SameCounts self.old self.new }
    {
        self.to_back(fiber, Next::FindsOff);
        *told = Told {
            fiber,
            did,
            reply: Said2::Off,
        };
    }
}
