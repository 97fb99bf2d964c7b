//! One switch. Contracts see a [`Switch`] as the definition's switch; its methods are the definition's functions, and nothing
//! has to hold between its fields. What holds of a switch after any calls is stated in src/laws.

ghost use Rattle.std.specs.Prelude.{◌≡◌, ◌↔◌, ◌∷◌, [], Some, IfErr, IsTrue, OnOk, OnErr, IfOk, None, false};
ghost use Rattle.spec_parts.specs.Errors.{joined};
ghost use Rattle.spec_parts.specs.Switches as model;
ghost use Rattle.spec_parts.specs.Switches.{opened, refuses_fibers, attach, detach, wake_closer, fail, on_release, due_batch, fresh_beside, last_handler, all_but_last, finish, release, close_step, runs_handler};
ghost use Rattle.switch_core.specs.Attaching.{IsAttached};
ghost use Rattle.switch_core.specs.Answers.{handler_in, step_of};

use crate::fibers::Fibers;
use crate::{CloseStep, Finished, Handler, ReleaseFault};
use eio_value::{NoMemory, Raised, combine};
use std::alloc::Global;
use std::marker::Model;
use std::mem;

/// Which fiber waits in `close`, and for whom.
#[derive(Clone, Copy)]
pub(crate) enum Closer {
    Nobody,
    ForFibers(u32),
    ForDaemons(u32),
}

/// A switch, by the numbers of its context and its fibers.
#[derive(Drop)]
pub(crate) struct Switch {
    context: u32,
    /// The attached fibers that have not ended, the daemons apart.
    fibers: Fibers,
    daemons: Fibers,
    /// What was raised into it, together.
    errors: Option<Raised>,
    /// The handlers whose turn it is; the last one runs first.
    batch: Vec<Handler>,
    /// Those whose turn comes when the batch is empty.
    fresh: Vec<Handler>,
    /// A handler was handed out.
    running: bool,
    closer: Closer,
    finished: bool,
}

impl Model for Switch {
    ghost use Rattle.spec_parts.specs.Switches as model;
    ghost use Rattle.switch_core.specs.Closers.{closer_of};

    ghost Value = { model.Switch };

    ghost view = { λ inside. record {
      context = inside.context;
      fibers = inside.fibers;
      daemons = inside.daemons;
      errors = inside.errors;
      batch = inside.batch.items;
      fresh = inside.fresh.items;
      running = inside.running;
      closer = closer_of inside.closer;
      finished = inside.finished;
    } };
}

impl Switch {
    /// A new switch over a context.
    pub(crate) fn open(alloc: Global, context: u32) -> Switch
        ensures { result ≡ opened context }
    {
        Switch {
            context,
            fibers: Fibers::new(alloc),
            daemons: Fibers::new(alloc),
            errors: None,
            batch: Vec::new(alloc),
            fresh: Vec::new(alloc),
            running: false,
            closer: Closer::Nobody,
            finished: false,
        }
    }

    pub(crate) fn context(&self) -> u32
        ensures { result ≡ self.now.context }
    {
        self.context
    }

    pub(crate) fn is_finished(&self) -> bool
        ensures { result ≡ self.now.finished }
    {
        self.finished
    }

    /// Whether it takes no fibers: it is finished or runs its handlers.
    pub(crate) fn refuses_fibers(&self) -> bool
        ensures { result ≡ refuses_fibers self.now }
    {
        self.finished || self.running
    }

    /// Attaches a fiber, unless the switch is finished or runs its handlers.
    pub(crate) fn attach(&mut self, fiber: u32, daemon: bool) -> Result<bool, NoMemory>
        requires { ¬ IsAttached fiber self.old }
        ensures ok { IfOk result (λ taken. record { taken = taken; switch = self.new } ≡ attach fiber daemon self.old) }
        ensures refused { (result ≡ Ok false) ↔ IsTrue (refuses_fibers self.old) }
        ensures err { OnErr result (self.new ≡ self.old) }
    {
        if self.refuses_fibers() {
            return Ok(false);
        }
        if daemon {
            self.daemons.push(fiber)?;
        } else {
            self.fibers.push(fiber)?;
        }
        Ok(true)
    }

    /// Takes a fiber off. The fiber that waited for it, as the last one, waits no longer, and is returned.
    pub(crate) fn detach(&mut self, fiber: u32) -> Option<u32>
        requires { IsAttached fiber self.old }
        ensures { record { woken = result; switch = self.new } ≡ detach fiber self.old }
    {
        self.fibers.remove(fiber);
        self.daemons.remove(fiber);
        self.wake_closer()
    }

    /// The fiber that waits in `close` waits no longer where nobody is left that it waits for, and is returned.
    fn wake_closer(&mut self) -> Option<u32>
        ensures { record { woken = result; switch = self.new } ≡ wake_closer self.old.closer self.old }
    {
        match self.closer {
            Closer::ForFibers(closer) if self.fibers.is_empty() => self.wake(closer),
            Closer::ForDaemons(closer) if self.daemons.is_empty() => self.wake(closer),
            _ => None,
        }
    }

    /// Nobody waits in `close` any longer; the one that did is returned.
    fn wake(&mut self, closer: u32) -> Option<u32>
        ensures woken { result ≡ Some closer }
        ensures switch { self.new ≡ record self.old { closer = model.Nobody } }
    {
        self.closer = Closer::Nobody;
        Some(closer)
    }

    /// Joins an exception to the errors.
    pub(crate) fn fail(&mut self, raised: Raised) -> Result<(), Finished>
        ensures ok { OnOk result (fail raised self.old ≡ Some self.new) }
        ensures err { OnErr result ((fail raised self.old ≡ None) × (self.new ≡ self.old)) }
    {
        if self.finished {
            return Err(Finished);
        }
        self.errors = Some(joined(self.errors, raised));
        Ok(())
    }

    /// Registers a handler, as the last of the fresh batch.
    pub(crate) fn on_release(&mut self, handler: Handler) -> Result<(), ReleaseFault>
        ensures ok { OnOk result (on_release handler self.old ≡ Some self.new) }
        ensures err { OnErr result (self.new ≡ self.old) }
        ensures finished { (result ≡ Err (ReleaseFault.Finished handler)) ↔ (on_release handler self.old ≡ None) }
        ensures back { IfErr result (λ fault. handler_in fault ≡ handler) }
    {
        if self.finished {
            return Err(ReleaseFault::Finished(handler));
        }
        let pushed = self.fresh.push(handler);
        pushed.map_err(|refused| ReleaseFault::NoMemory(refused.value))
    }

    /// What `close` finds to do, called by this fiber.
    pub(crate) fn close_step(&mut self, closer: u32) -> CloseStep
        ensures { record { step = step_of result; switch = self.new } ≡ close_step closer self.old }
    {
        if !self.fibers.is_empty() {
            self.closer = Closer::ForFibers(closer);
            return CloseStep::Wait;
        }
        if !self.daemons.is_empty() {
            self.closer = Closer::ForDaemons(closer);
            return CloseStep::CancelDaemons;
        }
        self.release()
    }

    /// Hands out the next handler; or there is none, and the switch is finished.
    fn release(&mut self) -> CloseStep
        ensures { record { step = step_of result; switch = self.new } ≡ release (last_handler (due_batch self.old)) self.old }
    {
        match self.next_handler() {
            Some(handler) => {
                self.running = true;
                self.closer = Closer::Nobody;
                CloseStep::RunHandler(handler)
            }
            None => self.finish(),
        }
    }

    /// Takes the last handler of the batch whose turn it is.
    fn next_handler(&mut self) -> Option<Handler>
        ensures handler { result ≡ last_handler (due_batch self.old) }
        ensures switch { self.new ≡ record self.old { batch = all_but_last (due_batch self.old); fresh = fresh_beside self.old } }
    {
        if self.batch.is_empty() {
            mem::swap(&mut self.batch, &mut self.fresh);
        }
        self.batch.pop()
    }

    /// Nothing is left: the switch is finished, and its errors are raised if there are any.
    fn finish(&mut self) -> CloseStep
        ensures { record { step = step_of result; switch = self.new } ≡ finish self.old }
    {
        self.closer = Closer::Nobody;
        self.finished = true;
        match self.errors {
            Some(errors) => CloseStep::Raise(errors),
            None => CloseStep::Return,
        }
    }

    /// Whether `close` would run a handler now.
    pub(crate) fn runs_handler(&self) -> bool
        ensures { result ≡ runs_handler self.now }
    {
        self.fibers.is_empty()
            && self.daemons.is_empty()
            && !(self.batch.is_empty() && self.fresh.is_empty())
    }
}

/// What errors become by one more exception.
fn joined(errors: Option<Raised>, raised: Raised) -> Raised
    ensures { result ≡ joined errors raised }
{
    match errors {
        Some(errors) => combine(errors, raised),
        None => raised,
    }
}
