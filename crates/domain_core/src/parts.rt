//! What calls are made of: how a fiber stands and in which context, what is cancelled and who is woken, and what is raised. Each
//! part is that of the definitions, whatever domain is stood for (`Becomes`), and its other clauses say what it leaves alone.

ghost use Rattle.std.specs.Prelude.{◌≡◌, ◌⊎◌, ◌<◌, ◌+◌, ◌-◌, ◌^◌, ◌++◌, ◌∷◌, [], ℕ, length, Option, Some, None, IfOk, OnOk, IfSome, IfNone};
ghost use Rattle.eio_value.specs.declared.raised.Outcome.TheVariants as outcome;
ghost use Rattle.spec_machine.specs.ContextMoves.{leaves, sub_of, protected_of};
ghost use Rattle.spec_machine.specs.Domain as model;
ghost use Rattle.spec_machine.specs.Domain.{to_head, to_back, off_for};
ghost use Rattle.spec_machine.specs.Steps.{cancels};
ghost use Rattle.spec_machine.specs.SwitchMoves.{fails, fails_with, woken_if};
ghost use Rattle.domain_strikes.specs.Owing.{StrikesAtOnce};
ghost use Rattle.spec_parts.specs.ContextCalls.{Cancel, called};
ghost use Rattle.spec_parts.specs.Switches.{switch_at};
ghost use Rattle.domain_core.specs.Answering.{Becomes, BecomesUnder, HoldsOf, Raises, SameCounts, SameFibers, enters_block};
ghost use Rattle.domain_core.specs.Conditions.{IsAwake, IsParked, LeavesScopes, MayEndContext, RunsInLive};
ghost use Rattle.domain_core.specs.Keyed.{next_of};
ghost use Rattle.domain_core.specs.Stepping.{IsPlacedAt};
ghost use Rattle.fiber_step.specs.Standing.{ask_of};
ghost use Rattle.fiber_step.specs.Stepping.{HasBodiesOf};
ghost use Rattle.script_forms.specs.Flat.{nodes_of};

use crate::domain::Domain;
use crate::standing::{Next, Standing};
use eio_value::{Member, NoMemory, Plain, Raised, Value, reason};
use fiber_step::Ask;
use script_code::Script;

impl Domain {
    /// The fiber goes on so with its next move, and stands first in the ready list.
    pub(crate) fn to_head(&mut self, fiber: u32, next: Next)
        requires awake { IsAwake self.old fiber }
        requires room { length self.old.ready < 1024 }
        ensures becomes { Becomes (to_head (next_of next) fiber) self.old self.new }
        ensures ready { self.new.ready ≡ fiber ∷ self.old.ready }
        ensures awake { (g : ℕ) → IsAwake self.old g → IsAwake self.new g }
        ensures same { SameCounts self.old self.new }
    {
        self.fibers.stand(fiber, Standing::Ready(next));
        self.ready.push_head_reserved(fiber);
    }

    /// The same, but last.
    pub(crate) fn to_back(&mut self, fiber: u32, next: Next)
        requires awake { IsAwake self.old fiber }
        requires room { length self.old.ready < 1024 }
        ensures becomes { Becomes (to_back (next_of next) fiber) self.old self.new }
        ensures ready { self.new.ready ≡ self.old.ready ++ fiber ∷ [] }
        ensures awake { (g : ℕ) → IsAwake self.old g → IsAwake self.new g }
        ensures contexts { self.new.contexts ≡ self.old.contexts }
        ensures groups { self.new.groups ≡ self.old.groups }
        ensures same { SameCounts self.old self.new }
    {
        self.fibers.stand(fiber, Standing::Ready(next));
        self.ready.push_back_reserved(fiber);
    }

    /// The fiber raises this with its next move, and stands first in the ready list.
    ///
    /// # Errors
    /// [`NoMemory`] where memory runs out; the domain isn't used again then.
    pub(crate) fn throw_at_head(&mut self, fiber: u32, raised: &Raised) -> Result<(), NoMemory>
        requires awake { IsAwake self.old fiber }
        requires room { length self.old.ready < 1024 }
        ensures becomes { OnOk result (Becomes (to_head (model.GoesOn (outcome.Err raised.now)) fiber) self.old self.new) }
        ensures same { OnOk result (SameCounts self.old self.new) }
    {
        self.fibers.throw(fiber, raised)?;
        self.ready.push_head_reserved(fiber);
        Ok(())
    }

    /// The reason by which the context is off that the fiber runs in.
    pub(crate) fn off_for(&self, fiber: u32) -> Option<Plain>
        requires awake { IsAwake self.now fiber }
        requires live { RunsInLive self.now fiber }
        ensures { HoldsOf self.now (λ l. result ≡ off_for l fiber) }
    {
        self.contexts.is_off(self.fibers.at(fiber).context)
    }

    /// A new context below that of the fiber; `None` where as many live as may, and then nothing was made.
    pub(crate) fn new_sub(&mut self, fiber: u32) -> Option<u32>
        requires awake { IsAwake self.old fiber }
        requires live { RunsInLive self.old fiber }
        requires few { length self.old.contexts.made < 2 ^ 32 - 1 }
        ensures number { HoldsOf self.old (λ l. result ≡ (sub_of l fiber).number) }
        ensures becomes { IfSome result (λ made. Becomes (λ l. record l { contexts = (sub_of l fiber).contexts }) self.old self.new) }
        ensures none { IfNone result (self.new ≡ self.old) }
        ensures fibers { SameFibers self.old self.new }
        ensures switches { self.new.switches ≡ self.old.switches }
        ensures groups { self.new.groups ≡ self.old.groups }
        ensures same { SameCounts self.old self.new }
    {
        let above = self.fibers.at(fiber).context;
        self.contexts.sub(above).ok()
    }

    /// The same, where no cancellation comes down to it.
    pub(crate) fn new_protected(&mut self, fiber: u32) -> Option<u32>
        requires awake { IsAwake self.old fiber }
        requires live { RunsInLive self.old fiber }
        requires few { length self.old.contexts.made < 2 ^ 32 - 1 }
        ensures number { HoldsOf self.old (λ l. result ≡ (protected_of l fiber).number) }
        ensures becomes { IfSome result (λ made. Becomes (λ l. record l { contexts = (protected_of l fiber).contexts }) self.old self.new) }
        ensures none { IfNone result (self.new ≡ self.old) }
        ensures fibers { SameFibers self.old self.new }
        ensures same { SameCounts self.old self.new }
    {
        let above = self.fibers.at(fiber).context;
        self.contexts.protect(above).ok()
    }

    /// The fiber goes into the block of its call, which was answered with this number, in this context, and stands first in the ready list.
    ///
    /// # Errors
    /// [`NoMemory`] where memory runs out; the domain isn't used again then.
    pub(crate) fn enter(
        &mut self,
        script: &Script,
        fiber: u32,
        ask: &Ask,
        number: u32,
        context: u32,
    ) -> Result<(), NoMemory>
        requires awake { IsAwake self.old fiber }
        requires room { length self.old.ready < 1024 }
        requires bodies { HasBodiesOf (nodes_of script.now) ask.now }
        requires placed { IsPlacedAt (nodes_of script.now) fiber self.old.fibers }
        ensures becomes { OnOk result (BecomesUnder (nodes_of script.now) (enters_block (ask_of (nodes_of script.now) ask.now) number context fiber) self.old self.new) }
        ensures ready { OnOk result (self.new.ready ≡ fiber ∷ self.old.ready) }
        ensures same { OnOk result (SameCounts self.old self.new) }
    {
        self.fibers.go_to(fiber, context);
        self.fibers.enter(fiber, script, ask, number)?;
        self.to_head(fiber, Next::GoesOn(Value::Unit));
        Ok(())
    }

    /// The context ends, and the fiber runs again in the one above it.
    pub(crate) fn leave_context(&mut self, fiber: u32, context: u32)
        requires awake { IsAwake self.old fiber }
        requires may { MayEndContext self.old context }
        ensures becomes { Becomes (leaves context fiber) self.old self.new }
        ensures awake { IsAwake self.new fiber }
        ensures ready { self.new.ready ≡ self.old.ready }
        ensures same { SameCounts self.old self.new }
    {
        let above = self.contexts.parent(context).unwrap_or(0);
        self.contexts.end(context);
        self.fibers.go_to(fiber, above);
    }

    /// A call of the fiber `maker` cancels the context, and the strikes that come of it are owed.
    pub(crate) fn cancel_context(&mut self, maker: u32, context: u32, why: Plain)
        requires once { StrikesAtOnce self.old.owed self.old.contexts context }
        ensures becomes { Becomes (cancels maker context why) self.old self.new }
        ensures contexts { self.new.contexts ≡ called (Cancel context why) self.old.contexts }
        ensures fibers { SameFibers self.old self.new }
        ensures switches { self.new.switches ≡ self.old.switches }
        ensures groups { self.new.groups ≡ self.old.groups }
        ensures ends { (c : ℕ) → MayEndContext self.old c → MayEndContext self.new c }
        ensures same { SameCounts self.old self.new }
    {
        self.owed.cancel(&mut self.contexts, maker, context, why);
    }

    /// What was raised is given to the switch, if it isn't finished, and cancels its context.
    pub(crate) fn fails(&mut self, maker: u32, switch: u32, raised: &Raised)
        requires opened { switch < length self.old.switches }
        requires owes { self.old.owed ≡ [] }
        ensures becomes { Becomes (fails maker switch raised.now) self.old self.new }
        ensures leaves { LeavesScopes self.old self.new }
        ensures once { StrikesAtOnce self.new.owed self.new.contexts (switch_at self.old.switches switch).context }
        ensures same { SameCounts self.old self.new }
    {
        if self.switches.fail(switch, *raised).is_ok() {
            let context = self.switches.context(switch);
            self.cancel_context(maker, context, reason(raised));
        }
    }

    /// The same of what may have been raised.
    pub(crate) fn fails_with(&mut self, maker: u32, switch: u32, failed: Option<Raised>)
        requires opened { switch < length self.old.switches }
        requires owes { self.old.owed ≡ [] }
        ensures becomes { Becomes (fails_with maker switch failed) self.old self.new }
        ensures leaves { LeavesScopes self.old self.new }
        ensures once { StrikesAtOnce self.new.owed self.new.contexts (switch_at self.old.switches switch).context }
        ensures same { SameCounts self.old self.new }
    {
        if let Some(raised) = failed {
            self.fails(maker, switch, &raised);
        }
    }

    /// A fiber that waits for others goes to the back of the ready list, and makes its call again.
    pub(crate) fn wake(&mut self, fiber: Option<u32>)
        requires room { length self.old.ready < 1024 }
        ensures becomes { Becomes (woken_if fiber) self.old self.new }
        ensures awake { (g : ℕ) → IsAwake self.old g → IsAwake self.new g }
        ensures ready { (self.new.ready ≡ self.old.ready) ⊎ ((g : ℕ) × IsParked self.old g × (length self.new.ready ≡ length self.old.ready + 1)) }
        ensures contexts { self.new.contexts ≡ self.old.contexts }
        ensures groups { self.new.groups ≡ self.old.groups }
        ensures same { SameCounts self.old self.new }
    {
        let Some(fiber) = fiber else {
            return;
        };
        // Not one pattern with the one below: where that doesn't fit, the proof wouldn't know in which way.
        let Some(standing) = self.fibers.standing(fiber) else {
            return;
        };
        if let Standing::Parked(again) = standing {
            self.to_back(fiber, Next::CallsAgain(again));
        }
    }

    /// A new raise of this exception.
    ///
    /// # Errors
    /// [`NoMemory`] where there are no more numbers for raises.
    pub(crate) fn new_raise(&mut self, what: Plain) -> Result<Member, NoMemory>
        ensures raises { IfOk result (λ made. Raises what made self.old self.new) }
        ensures is { OnOk result (self.new ≡ record self.old { serial = self.old.serial + 1 }) }
    {
        let serial = self.serial;
        self.serial = serial.checked_add(1).ok_or(NoMemory)?;
        Ok(Member { serial, what })
    }
}
