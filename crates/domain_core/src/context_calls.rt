//! The calls on contexts: the blocks of `sub` and `protect`, their ends, and `cancel`.

ghost use Rattle.std.specs.Prelude.{◌<◌, ◌^◌, OnOk};
ghost use Rattle.spec_script.specs.Scripts.{Script as Read};
ghost use Rattle.domain_core.specs.Answering.{Answers, SameCounts};
ghost use Rattle.domain_core.specs.Conditions.{CanCall, MayEndContext};
ghost use Rattle.domain_core.specs.Moving.{MayAnswer};

use crate::domain::Domain;
use crate::standing::Next;
use crate::told::Told;
use eio_value::{Misuse, NoMemory, Outcome, Plain, TextId, Value};
use fiber_step::Ask;
use script_code::Script;
use trace_lines::{Did, Said2};

impl Domain {
    /// `sub`: the fiber goes into the block in a new context, unless its own is off.
    ///
    /// # Errors
    /// [`NoMemory`] where memory, or the numbers for raises, run out; the domain isn't used again then.
    pub(crate) fn sub(
        &mut self,
        script: &Script,
        fiber: u32,
        body: u32,
        told: &mut Told,
    ) -> Result<(), NoMemory>
        requires may { MayAnswer script.now fiber (Ask.Sub body) self.old }
        ensures answers { OnOk result (Answers script.now (Ask.Sub body) fiber self.old told.new self.new) }
        ensures same { OnOk result (SameCounts self.old self.new) }
    {
        if let Some(why) = self.off_for(fiber) {
            return self.raise_cancelled(fiber, Did::Sub, why, told);
        }
        let Some(context) = self.new_sub(fiber) else {
            self.halt(fiber, told);
            return Ok(());
        };
        self.enter(script, fiber, &Ask::Sub { body }, context, context)?;
        *told = Told {
            fiber,
            did: Did::Sub,
            reply: Said2::Done(Value::Ctx(context)),
        };
        Ok(())
    }

    /// `protect`: the fiber goes into the block in a new context, down to which no cancellation comes.
    ///
    /// # Errors
    /// [`NoMemory`] where memory runs out; the domain isn't used again then.
    pub(crate) fn protect(
        &mut self,
        script: &Script,
        fiber: u32,
        body: u32,
        told: &mut Told,
    ) -> Result<(), NoMemory>
        requires may { MayAnswer script.now fiber (Ask.Protect body) self.old }
        ensures answers { OnOk result (Answers script.now (Ask.Protect body) fiber self.old told.new self.new) }
        ensures same { OnOk result (SameCounts self.old self.new) }
    {
        let Some(context) = self.new_protected(fiber) else {
            self.halt(fiber, told);
            return Ok(());
        };
        self.enter(script, fiber, &Ask::Protect { body }, context, context)?;
        *told = Told {
            fiber,
            did: Did::Protect,
            reply: Said2::Done(Value::Ctx(context)),
        };
        Ok(())
    }

    /// The end of a block of a context: what came to it passes on, but for the value of a handler of a switch that had finished.
    ///
    /// # Errors
    /// [`NoMemory`] where memory, or the numbers for raises, run out; the domain isn't used again then.
    pub(crate) fn leave(
        &mut self,
        fiber: u32,
        context: u32,
        late: bool,
        outcome: Outcome,
        told: &mut Told,
    ) -> Result<(), NoMemory>
        requires can { CanCall self.old fiber }
        requires may { MayEndContext self.old context }
        ensures answers { OnOk result ((script : Read) → Answers script (Ask.Leave context late outcome) fiber self.old told.new self.new) }
        ensures same { OnOk result (SameCounts self.old self.new) }
    {
        let did = Did::Leave(context);
        self.leave_context(fiber, context);
        match outcome {
            Outcome::Err(raised) => self.raise_again(fiber, did, &raised, told),
            Outcome::Ok(_) if late => {
                self.raise(fiber, did, Plain::Invalid(Misuse::SwitchFinished), told)
            }
            Outcome::Ok(value) => {
                self.to_head(fiber, Next::GoesOn(value));
                *told = Told {
                    fiber,
                    did,
                    reply: Said2::Done(Value::Unit),
                };
                Ok(())
            }
        }
    }

    /// `cancel` of a context, unless it has ended.
    ///
    /// # Errors
    /// [`NoMemory`] where memory, or the numbers for raises, run out; the domain isn't used again then.
    pub(crate) fn cancel(
        &mut self,
        fiber: u32,
        context: u32,
        text: TextId,
        told: &mut Told,
    ) -> Result<(), NoMemory>
        requires can { CanCall self.old fiber }
        ensures answers { OnOk result ((script : Read) → Answers script (Ask.Cancel context text) fiber self.old told.new self.new) }
        ensures same { OnOk result (SameCounts self.old self.new) }
    {
        let did = Did::Cancel(context, text);
        if !self.contexts.is_live(context) {
            return self.raise(fiber, did, Plain::Invalid(Misuse::ContextFinished), told);
        }
        self.cancel_context(fiber, context, Plain::Failure(text));
        self.give(fiber, did, Value::Unit, told);
        Ok(())
    }
}
