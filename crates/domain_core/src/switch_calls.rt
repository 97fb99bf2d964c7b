//! The calls on switches, but for `close`: `switch`, forks, `fail` and `on-release`.

ghost use Rattle.std.specs.Prelude.{◌≡◌, ◌<◌, ◌+◌, ◌-◌, ◌≤◌, ◌^◌, ℕ, List, [], false, length, count_by, is_some, IfOk, OnOk};
ghost use Rattle.spec_parts.specs.Switches.{switch_at, refuses_fibers, refuses_forks};
ghost use Rattle.fiber_step.specs.Having.{HasStatements};
ghost use Rattle.spec_machine.specs.SwitchMoves.{did_fork as did_of};
ghost use Rattle.script_forms.specs.Calls.{forking_of};
ghost use Rattle.script_forms.specs.Flat.{nodes_of};
ghost use Rattle.script_forms.specs.declared.node.Node.{Node as Begun};
ghost use Rattle.spec_script.specs.Scripts.{Script as Read};
ghost use Rattle.domain_core.specs.Answering.{Answers, Becomes, BecomesUnder, SameCounts, SameFibers, forking_by, forks, registers};
ghost use Rattle.domain_core.specs.Conditions.{CanCall, HasLiveContexts, IsAwake};
ghost use Rattle.domain_core.specs.Moving.{MayAnswer};

use crate::domain::Domain;
use crate::fibers::MOST_FIBERS;
use crate::standing::{Next, Role};
use crate::told::Told;
use eio_value::{Misuse, NoMemory, Plain, Raised, TextId, Value};
use fiber_step::{Ask, Fiber as Frames, Variables};
use script_code::Script;
use script_forms::Forking;
use switch_core::{Handler, HandlerVariables};
use trace_lines::{Did, Said2};

impl Domain {
    /// `switch`: the fiber goes into the block of a new switch, in a new context, unless its own is off.
    ///
    /// # Errors
    /// [`NoMemory`] where memory, or the numbers for raises, run out; the domain isn't used again then.
    pub(crate) fn open_switch(
        &mut self,
        script: &Script,
        fiber: u32,
        body: u32,
        told: &mut Told,
    ) -> Result<(), NoMemory>
        requires may { MayAnswer script.now fiber (Ask.Switch body) self.old }
        ensures answers { OnOk result (Answers script.now (Ask.Switch body) fiber self.old told.new self.new) }
        ensures same { OnOk result (SameCounts self.old self.new) }
    {
        if let Some(why) = self.off_for(fiber) {
            return self.raise_cancelled(fiber, Did::Switch, why, told);
        }
        let Some(context) = self.new_sub(fiber) else {
            self.halt(fiber, told);
            return Ok(());
        };
        let switch = self.switches.open(context)?;
        self.enter(script, fiber, &Ask::Switch { body }, switch, context)?;
        *told = Told {
            fiber,
            did: Did::Switch,
            reply: Said2::Done(Value::Switch(switch)),
        };
        Ok(())
    }

    /// Whether nothing is forked onto this switch: it has finished, runs its handlers, or its context is off.
    fn refuses_forks(&self, switch: u32) -> bool
        requires opened { switch < length self.now.switches }
        requires contexts { HasLiveContexts self.now }
        ensures { result ≡ refuses_forks self.now.contexts.made (switch_at self.now.switches switch) }
    {
        self.switches.refuses_fibers(switch)
            || self
                .contexts
                .is_off(self.switches.context(switch))
                .is_some()
    }

    /// `fork`: the new fiber stands first in the ready list, the caller second. A switch that has finished, runs its handlers or is off
    /// takes none.
    ///
    /// # Errors
    /// [`NoMemory`] where memory runs out; the domain isn't used again then.
    pub(crate) fn fork(
        &mut self,
        fiber: u32,
        daemon: bool,
        switch: u32,
        body: u32,
        told: &mut Told,
    ) -> Result<(), NoMemory>
        requires can { CanCall self.old fiber }
        requires opened { switch < length self.old.switches }
        ensures answers { OnOk result ((script : Read) → HasStatements (nodes_of script) body → Answers script (Ask.Fork (forking_by daemon) switch body) fiber self.old told.new self.new) }
        ensures same { OnOk result (SameCounts self.old self.new) }
    {
        let did = did_fork(daemon, switch);
        if self.refuses_forks(switch) {
            self.to_head(fiber, Next::GoesOn(Value::Unit));
            *told = Told {
                fiber,
                did,
                reply: Said2::Nothing,
            };
            return Ok(());
        }
        if self.fibers.live() >= MOST_FIBERS {
            self.halt(fiber, told);
            return Ok(());
        }
        let new = self.make(fiber, daemon, switch, body)?;
        self.to_head(fiber, Next::GoesOn(Value::Unit));
        self.to_head(new, Next::GoesOn(Value::Unit));
        *told = Told {
            fiber,
            did,
            reply: Said2::Fiber {
                domain: self.number,
                fiber: new,
            },
        };
        Ok(())
    }

    /// A new fiber of this switch, with the variables of the caller; it stands in no list yet.
    fn make(&mut self, maker: u32, daemon: bool, switch: u32, body: u32) -> Result<u32, NoMemory>
        requires can { CanCall self.old maker }
        requires room { count_by is_some self.old.fibers < 1024 }
        requires opened { switch < length self.old.switches }
        requires takes { refuses_fibers (switch_at self.old.switches switch) ≡ false }
        ensures number { IfOk result (λ new. new ≡ length self.old.fibers) }
        ensures awake { OnOk result ((g : ℕ) → IsAwake self.old g → IsAwake self.new g) }
        ensures new { IfOk result (λ new. IsAwake self.new new) }
        ensures ready { OnOk result (self.new.ready ≡ self.old.ready) }
        ensures made { OnOk result ((nodes : List Begun) → HasStatements nodes body → BecomesUnder nodes (forks maker switch daemon body nodes) self.old self.new) }
        ensures same { OnOk result (SameCounts self.old self.new) }
    {
        let variables = self.fibers.at(maker).frames.variables();
        let values = variables.as_slice().to_vec(self.alloc)?;
        let frames = Frames::new(self.alloc, body, Variables::new(values))?;
        let context = self.switches.context(switch);
        let new = self
            .fibers
            .add(context, Role::Switched { switch, daemon }, frames)?;
        self.switches.attach(switch, new, daemon)?;
        Ok(new)
    }

    /// `fail`: a failure with this text is given to the switch, unless it has finished.
    ///
    /// # Errors
    /// [`NoMemory`] where memory, or the numbers for raises, run out; the domain isn't used again then.
    pub(crate) fn fail(
        &mut self,
        fiber: u32,
        switch: u32,
        text: TextId,
        told: &mut Told,
    ) -> Result<(), NoMemory>
        requires can { CanCall self.old fiber }
        requires opened { switch < length self.old.switches }
        ensures answers { OnOk result ((script : Read) → Answers script (Ask.Fail switch text) fiber self.old told.new self.new) }
        ensures same { OnOk result (SameCounts self.old self.new) }
    {
        let did = Did::Fail(switch, text);
        if self.switches.is_finished(switch) {
            return self.raise(fiber, did, Plain::Invalid(Misuse::SwitchFinished), told);
        }
        let member = self.new_raise(Plain::Failure(text))?;
        self.fails(fiber, switch, &Raised::One(member));
        self.give(fiber, did, Value::Unit, told);
        Ok(())
    }

    /// `on-release`: the handler is registered; on a switch that has finished it runs at once, in a protected context.
    ///
    /// # Errors
    /// [`NoMemory`] where memory runs out; the domain isn't used again then.
    pub(crate) fn on_release(
        &mut self,
        script: &Script,
        fiber: u32,
        switch: u32,
        handler: u32,
        told: &mut Told,
    ) -> Result<(), NoMemory>
        requires may { MayAnswer script.now fiber (Ask.OnRelease switch handler) self.old }
        ensures answers { OnOk result (Answers script.now (Ask.OnRelease switch handler) fiber self.old told.new self.new) }
        ensures same { OnOk result (SameCounts self.old self.new) }
    {
        let did = Did::OnRelease(switch);
        if !self.switches.is_finished(switch) {
            self.register(fiber, switch, handler)?;
            self.give(fiber, did, Value::Unit, told);
            return Ok(());
        }
        let Some(context) = self.new_protected(fiber) else {
            self.halt(fiber, told);
            return Ok(());
        };
        self.enter(
            script,
            fiber,
            &Ask::OnRelease { switch, handler },
            context,
            context,
        )?;
        *told = Told {
            fiber,
            did,
            reply: Said2::Handler,
        };
        Ok(())
    }

    /// The handler is registered with the fiber's variables, on a switch that hasn't finished.
    fn register(&mut self, fiber: u32, switch: u32, handler: u32) -> Result<(), NoMemory>
        requires awake { IsAwake self.old fiber }
        requires opened { switch < length self.old.switches }
        requires unfinished { (switch_at self.old.switches switch).finished ≡ false }
        ensures registers { OnOk result (Becomes (registers fiber switch handler) self.old self.new) }
        ensures fibers { OnOk result (SameFibers self.old self.new) }
        ensures same { OnOk result (SameCounts self.old self.new) }
    {
        let variables = self.fibers.at(fiber).frames.variables();
        let values = variables.as_slice().to_vec(self.alloc)?;
        let handler = Handler {
            node: handler,
            env: HandlerVariables::new(values),
        };
        match self.switches.on_release(switch, handler) {
            Ok(()) => Ok(()),
            Err(_) => Err(NoMemory),
        }
    }
}

/// What a line tells of a fork.
fn did_fork(daemon: bool, switch: u32) -> Did
    ensures { result ≡ did_of (forking_of (forking_by daemon)) switch }
{
    if daemon {
        Did::ForkDaemon(switch)
    } else {
        Did::Fork(switch)
    }
}
