//! All switches of a domain, by number. What each call does to the switch that it names is the definition's function of the
//! same name; all others stay as they were.

ghost use Rattle.std.specs.Prelude.{◌≡◌, ◌<◌, ◌-◌, ◌^◌, ◌↔◌, [], ◌∷◌, ◌++◌, length, None, Some, false, IfOk, IfErr, IsTrue, OnOk, OnErr, IsSomeAnd};
ghost use Rattle.spec_parts.specs.Switches.{opened, switch_at, with_switch, refuses_fibers, attach, detach, fail, on_release, close_step, runs_handler};
ghost use Rattle.switch_core.specs.Answers.{handler_in, step_of};
ghost use Rattle.switch_core.specs.Attaching.{IsAttached};

use crate::switch::Switch;
use crate::{CloseStep, Finished, Handler, ReleaseFault};
use eio_value::{NoMemory, Raised};
use std::alloc::Global;
use std::marker::Model;

/// The switches that were opened, by number, from 0.
#[derive(Drop)]
pub struct Switches {
    /// What their lists are allocated by.
    alloc: Global,
    switches: Vec<Switch>,
}

impl Model for Switches {
    ghost use Rattle.std.specs.Prelude.{List};
    ghost use Rattle.spec_parts.specs.Switches as model;

    ghost Value = { List model.Switch };

    ghost view = { λ inside. inside.switches.items };
}

impl Switches {
    /// No switch.
    pub fn new(alloc: Global) -> Switches
        ensures { result ≡ [] }
    {
        Switches {
            alloc,
            switches: Vec::new(alloc),
        }
    }

    /// A new switch over a context, and its number.
    pub fn open(&mut self, context: u32) -> Result<u32, NoMemory>
        requires { length self.old < 2 ^ 32 - 1 }
        ensures number { IfOk result (λ sw. sw ≡ length self.old) }
        ensures ok { OnOk result (self.new ≡ self.old ++ opened context ∷ []) }
        ensures err { OnErr result (self.new ≡ self.old) }
    {
        let number = self.switches.len();
        self.switches.push(Switch::open(self.alloc, context))?;
        Ok(number as u32)
    }

    /// How many were opened.
    pub fn len(&self) -> usize
        ensures { result ≡ length self.now }
    {
        self.switches.len()
    }

    /// Whether none was opened.
    pub fn is_empty(&self) -> bool
        ensures { IsTrue result ↔ (self.now ≡ []) }
    {
        self.switches.is_empty()
    }

    /// The context of a switch.
    pub fn context(&self, sw: u32) -> u32
        requires { sw < length self.now }
        ensures { result ≡ (switch_at self.now sw).context }
    {
        self.switches[sw as usize].context()
    }

    /// Whether a switch has finished.
    pub fn is_finished(&self, sw: u32) -> bool
        requires { sw < length self.now }
        ensures { result ≡ (switch_at self.now sw).finished }
    {
        self.switches[sw as usize].is_finished()
    }

    /// Whether a switch takes no fibers: it is finished or runs its handlers.
    pub fn refuses_fibers(&self, sw: u32) -> bool
        requires { sw < length self.now }
        ensures { result ≡ refuses_fibers (switch_at self.now sw) }
    {
        self.switches[sw as usize].refuses_fibers()
    }

    /// Attaches a fiber, as a daemon or not, and answers whether it did: a switch that is finished or runs its handlers
    /// takes none.
    ///
    /// # Errors
    /// [`NoMemory`]; the switches are then as they were.
    pub fn attach(&mut self, sw: u32, fiber: u32, daemon: bool) -> Result<bool, NoMemory>
        requires opened { sw < length self.old }
        requires apart { ¬ IsAttached fiber (switch_at self.old sw) }
        ensures taken { IfOk result (λ taken. taken ≡ (attach fiber daemon (switch_at self.old sw)).taken) }
        ensures refused { (result ≡ Ok false) ↔ IsTrue (refuses_fibers (switch_at self.old sw)) }
        ensures ok { OnOk result (self.new ≡ with_switch sw (attach fiber daemon (switch_at self.old sw)).switch self.old) }
        ensures err { OnErr result (self.new ≡ self.old) }
    {
        self.switches[sw as usize].attach(fiber, daemon)
    }

    /// Takes off a fiber that has ended. Where this was the last one that a fiber waited for in `close`, that fiber is
    /// answered, and waits no longer.
    pub fn detach(&mut self, sw: u32, fiber: u32) -> Option<u32>
        requires opened { sw < length self.old }
        requires attached { IsAttached fiber (switch_at self.old sw) }
        ensures woken { result ≡ (detach fiber (switch_at self.old sw)).woken }
        ensures switches { self.new ≡ with_switch sw (detach fiber (switch_at self.old sw)).switch self.old }
    {
        self.switches[sw as usize].detach(fiber)
    }

    /// Joins an exception to the errors.
    ///
    /// # Errors
    /// [`Finished`] where the switch is finished, and only there; the switches are then as they were.
    pub fn fail(&mut self, sw: u32, raised: Raised) -> Result<(), Finished>
        requires { sw < length self.old }
        ensures ok { OnOk result (IsSomeAnd (fail raised (switch_at self.old sw)) (λ switch. self.new ≡ with_switch sw switch self.old)) }
        ensures refused { OnErr result (fail raised (switch_at self.old sw) ≡ None) }
        ensures err { OnErr result (self.new ≡ self.old) }
    {
        self.switches[sw as usize].fail(raised)
    }

    /// Registers a release handler.
    ///
    /// # Errors
    /// `Finished` where the switch is finished, and only there; else `NoMemory`. The handler comes back, and the switches are
    /// as they were.
    pub fn on_release(&mut self, sw: u32, handler: Handler) -> Result<(), ReleaseFault>
        requires { sw < length self.old }
        ensures ok { OnOk result (IsSomeAnd (on_release handler (switch_at self.old sw)) (λ switch. self.new ≡ with_switch sw switch self.old)) }
        ensures finished { (result ≡ Err (ReleaseFault.Finished handler)) ↔ (on_release handler (switch_at self.old sw) ≡ None) }
        ensures back { IfErr result (λ fault. handler_in fault ≡ handler) }
        ensures err { OnErr result (self.new ≡ self.old) }
    {
        self.switches[sw as usize].on_release(handler)
    }

    /// What the `close` of an unfinished switch finds to do, called by this fiber.
    pub fn close_step(&mut self, sw: u32, closer: u32) -> CloseStep
        requires opened { sw < length self.old }
        requires unfinished { (switch_at self.old sw).finished ≡ false }
        ensures step { step_of result ≡ (close_step closer (switch_at self.old sw)).step }
        ensures switches { self.new ≡ with_switch sw (close_step closer (switch_at self.old sw)).switch self.old }
    {
        self.switches[sw as usize].close_step(closer)
    }

    /// Whether `close_step` of an unfinished switch would run a handler now.
    pub fn handler_next(&self, sw: u32) -> bool
        requires opened { sw < length self.now }
        requires unfinished { (switch_at self.now sw).finished ≡ false }
        ensures { result ≡ runs_handler (switch_at self.now sw) }
    {
        self.switches[sw as usize].runs_handler()
    }
}
