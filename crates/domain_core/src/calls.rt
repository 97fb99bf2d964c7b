//! The calls that need nothing but the fiber and its context. Each contract of a call, here and in the files beside, says that the call
//! is the definition's, whatever domain is stood for (`Answers`). What it may rely on is one record in the words of what is kept: `MayAnswer` with the
//! script (`specs/Moving`), and without one `CanCall`, which holds at any call (`specs/Conditions`), beside what is the call's own.

ghost use Rattle.std.specs.Prelude.{◌≡◌, ◌<◌, false, length, OnOk};
ghost use Rattle.cancel_tree.specs.Waits.{waits};
ghost use Rattle.spec_script.specs.Scripts.{Script as Read};
ghost use Rattle.domain_core.specs.Answering.{Answers, SameCounts};
ghost use Rattle.domain_core.specs.Conditions.{CanCall};

use crate::domain::Domain;
use crate::standing::{Next, Standing};
use crate::told::Told;
use eio_value::{NoMemory, Operands, Value};
use fiber_step::Ask;
use trace_lines::{Did, Said2};

impl Domain {
    /// `trace`.
    pub(crate) fn trace(&mut self, fiber: u32, operands: Operands, told: &mut Told)
        requires can { CanCall self.old fiber }
        ensures answers { (script : Read) → Answers script (Ask.Trace operands) fiber self.old told.new self.new }
        ensures same { SameCounts self.old self.new }
    {
        self.give(fiber, Did::Trace(operands), Value::Unit, told);
    }

    /// A turn of a loop begins.
    pub(crate) fn turn_begins(&mut self, fiber: u32, told: &mut Told)
        requires can { CanCall self.old fiber }
        ensures answers { (script : Read) → Answers script Ask.Turn fiber self.old told.new self.new }
        ensures same { SameCounts self.old self.new }
    {
        self.give(fiber, Did::Turn, Value::Unit, told);
    }

    /// `yield`.
    pub(crate) fn yield_now(&mut self, fiber: u32, told: &mut Told)
        requires can { CanCall self.old fiber }
        ensures answers { (script : Read) → Answers script Ask.Yield fiber self.old told.new self.new }
        ensures same { SameCounts self.old self.new }
    {
        self.to_back(fiber, Next::LooksUp);
        *told = Told {
            fiber,
            did: Did::Yield,
            reply: Said2::Back,
        };
    }

    /// `check`: raises where the fiber's context is off.
    ///
    /// # Errors
    /// [`NoMemory`] where memory, or the numbers for raises, run out; the domain isn't used again then.
    pub(crate) fn check(&mut self, fiber: u32, told: &mut Told) -> Result<(), NoMemory>
        requires can { CanCall self.old fiber }
        ensures answers { OnOk result ((script : Read) → Answers script Ask.Check fiber self.old told.new self.new) }
        ensures same { OnOk result (SameCounts self.old self.new) }
    {
        match self.off_for(fiber) {
            Some(why) => self.raise_cancelled(fiber, Did::Check, why, told),
            None => {
                self.give(fiber, Did::Check, Value::Unit, told);
                Ok(())
            }
        }
    }

    /// `await-cancel`: waits until the fiber's context is cancelled.
    pub(crate) fn await_cancel(&mut self, fiber: u32, told: &mut Told)
        requires can { CanCall self.old fiber }
        requires apart { waits fiber self.old.contexts.waiting ≡ false }
        requires few { length self.old.contexts.waiting < 1024 }
        ensures answers { (script : Read) → Answers script Ask.AwaitCancel fiber self.old told.new self.new }
        ensures same { SameCounts self.old self.new }
    {
        if self.off_for(fiber).is_some() {
            self.go_off(fiber, Did::AwaitCancel, told);
            return;
        }
        let context = self.fibers.at(fiber).context;
        self.contexts.wait(context, fiber);
        self.fibers.stand(fiber, Standing::AwaitsCancel);
        *told = Told {
            fiber,
            did: Did::AwaitCancel,
            reply: Said2::Waits,
        };
    }
}
