//! `close`, which a fiber calls at the end of a switch's block, and again whenever it was woken there: until nobody is attached to the
//! switch and no handler is left.

ghost use Rattle.std.specs.Prelude.{Contains, OnOk};
ghost use Rattle.fiber_step.specs.Numbering.Beginnings.{BeginsBlock};
ghost use Rattle.law_domain.specs.Kinded.KindedStates.{handlers_of};
ghost use Rattle.eio_value.specs.declared.raised.Outcome.TheVariants as outcome;
ghost use Rattle.spec_machine.specs.SwitchMoves.{runs};
ghost use Rattle.spec_parts.specs.Switches.{switch_at};
ghost use Rattle.script_forms.specs.Flat.{nodes_of};
ghost use Rattle.spec_fiber.specs.Asks as asks;
ghost use Rattle.domain_strikes.specs.Owing.{StrikesAtOnce};
ghost use Rattle.domain_core.specs.Answering.{Answers, MakesUnder, SameCounts, closes_on};
ghost use Rattle.domain_core.specs.Conditions.{CanEnter, HandlersBegin, KeptMayClose};
ghost use Rattle.domain_core.specs.Moving.{MayAnswer};

use crate::domain::Domain;
use crate::standing::{Again, Next};
use crate::told::Told;
use eio_value::{NoMemory, Plain, Raised, Value};
use fiber_step::{Ask, Variables};
use script_code::Script;
use switch_core::{CloseStep, Handler};
use trace_lines::{Did, Said2};

impl Domain {
    /// `close`: an exception that came is given to the switch first. Then the fiber waits for those that are attached, the daemons last, which it
    /// cancels; it runs the next handler; or the switch has finished, its context ends, and it gives the value of its block or raises its errors.
    /// A limit is met before all this where a handler is next and there is no room for its context.
    ///
    /// # Errors
    /// [`NoMemory`] where memory runs out; the domain isn't used again then.
    pub(crate) fn close(
        &mut self,
        script: &Script,
        fiber: u32,
        switch: u32,
        failed: Option<Raised>,
        kept: Value,
        told: &mut Told,
    ) -> Result<(), NoMemory>
        requires may { MayAnswer script.now fiber (Ask.Close switch failed kept) self.old }
        ensures answers { OnOk result (Answers script.now (Ask.Close switch failed kept) fiber self.old told.new self.new) }
        ensures same { OnOk result (SameCounts self.old self.new) }
    {
        if self.switches.handler_next(switch) && self.contexts.is_full() {
            self.halt(fiber, told);
            return Ok(());
        }
        self.fails_with(fiber, switch, failed);
        self.close_on(script, fiber, switch, kept, told)
    }

    /// What the switch finds to do, once it has what came.
    fn close_on(
        &mut self,
        script: &Script,
        fiber: u32,
        switch: u32,
        kept: Value,
        told: &mut Told,
    ) -> Result<(), NoMemory>
        requires enters { CanEnter (nodes_of script.now) self.old fiber }
        requires once { StrikesAtOnce self.old.owed self.old.contexts (switch_at self.old.switches switch).context }
        requires may { KeptMayClose self.old switch }
        requires handlers { HandlersBegin script.now self.old switch }
        ensures makes { OnOk result (MakesUnder (nodes_of script.now) (closes_on script.now switch kept fiber) self.old told.new self.new) }
        ensures same { OnOk result (SameCounts self.old self.new) }
    {
        let did = Did::Close(switch);
        let context = self.switches.context(switch);
        match self.switches.close_step(switch, fiber) {
            CloseStep::Wait => {
                self.wait_for(fiber, did, Again::Close { switch, kept }, told);
                Ok(())
            }
            CloseStep::CancelDaemons => {
                self.cancel_context(fiber, context, Plain::Exit);
                self.wait_for(fiber, did, Again::Close { switch, kept }, told);
                Ok(())
            }
            CloseStep::RunHandler(handler) => {
                self.run_handler(script, fiber, switch, kept, handler, told)
            }
            CloseStep::Return => {
                self.leave_context(fiber, context);
                self.give(fiber, did, kept, told);
                Ok(())
            }
            CloseStep::Raise(errors) => {
                self.leave_context(fiber, context);
                self.raise_again(fiber, did, &errors, told)
            }
        }
    }

    /// The handler runs in a protected context of the fiber, with the variables of its registration.
    fn run_handler(
        &mut self,
        script: &Script,
        fiber: u32,
        switch: u32,
        kept: Value,
        handler: Handler,
        told: &mut Told,
    ) -> Result<(), NoMemory>
        requires enters { CanEnter (nodes_of script.now) self.old fiber }
        requires handler { BeginsBlock script.now handler.block }
        ensures makes { OnOk result (MakesUnder (nodes_of script.now) (runs script.now (asks.Close switch None kept) switch handler fiber) self.old told.new self.new) }
        ensures same { OnOk result (SameCounts self.old self.new) }
    {
        // For the proof alone: a law of scripts, by which the handler's block stands at its node.
        script.is_sound();
        let Some(context) = self.new_protected(fiber) else {
            self.halt(fiber, told);
            return Ok(());
        };
        let ask = Ask::Close {
            switch,
            failed: None,
            kept,
        };
        let values = Variables::new(handler.env.into_values());
        self.fibers.go_to(fiber, context);
        self.fibers
            .handle(fiber, &ask, context, handler.node, values)?;
        self.to_head(fiber, Next::GoesOn(Value::Unit));
        *told = Told {
            fiber,
            did: Did::Close(switch),
            reply: Said2::Handler,
        };
        Ok(())
    }
}
