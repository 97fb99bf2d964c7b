//! A domain: its fibers, its ready list and the strikes that it owes, its contexts, switches and groups.
//!
//! Contracts see what is kept of it (`KeptDomain`), which stands for a domain of the definitions (`StandsFor`). The theorem on a
//! turn is the contract of [`Domain::turn`].

ghost use Rattle.std.specs.Prelude.{◌≡◌, ◌<◌, ◌≤◌, ℕ, List, [], IfOk, length};
ghost use Rattle.spec_machine.specs.Mock as mock;
ghost use Rattle.spec_machine.specs.Trace as trace;
ghost use Rattle.spec_machine.specs.Domain.{DomainState};
ghost use Rattle.script_forms.specs.declared.node.Node.{Node};
ghost use Rattle.law_domain.specs.Well.WellStates.{IsRunnable};
ghost use Rattle.domain_core.specs.Mirrors.{Mirrors};
ghost use Rattle.domain_core.specs.Turns.{Starts};

use crate::fibers::{BODY_FIBER, Fibers, MOST_FIBERS};
use cancel_tree::Contexts;
use domain_strikes::Strikes;
use eio_value::{NoMemory, Outcome};
use group_core::Groups;
use run_queue::Ready;
use script_code::Script;
use std::alloc::Global;
use std::marker::Model;
use switch_core::Switches;

/// One domain of fibers.
#[derive(Drop)]
pub struct Domain {
    pub(crate) alloc: Global,
    pub(crate) number: u8,
    pub(crate) fibers: Fibers,
    /// What the body came to, once it has ended.
    pub(crate) came: Option<Outcome>,
    pub(crate) ready: Ready,
    pub(crate) owed: Strikes,
    pub(crate) contexts: Contexts,
    pub(crate) switches: Switches,
    pub(crate) groups: Groups,
    /// The number of the next raise.
    pub(crate) serial: u64,
    /// That of the last line.
    pub(crate) stamp: u64,
    /// How many lines were made, at most `budget`.
    pub(crate) lines: u32,
    pub(crate) budget: u32,
    /// A limit was met.
    pub(crate) halted: bool,
    /// Its outside is mocked.
    pub(crate) mocked: bool,
}

impl Model for Domain {
    ghost use Rattle.std.specs.Prelude.{◌≡◌, ◌≤◌};
    ghost use Rattle.domain_core.specs.KeptCode.{domain_code};
    ghost use Rattle.domain_core.specs.Keeping.{KeptDomain};

    ghost Value = { KeptDomain };

    ghost coded = { domain_code };

    ghost view = { λ d. record {
      number = d.number;
      fibers = d.fibers;
      came = d.came;
      ready = d.ready.fibers;
      owed = d.owed;
      contexts = d.contexts;
      switches = d.switches;
      groups = d.groups;
      serial = d.serial;
      stamp = d.stamp;
      lines = d.lines;
      budget = d.budget;
      halted = d.halted;
      mocked = d.mocked;
    } };

    ghost invariant = { λ d. (d.ready.most ≡ 1024) × (d.budget ≤ 1000000) × (d.lines ≤ d.budget) };
}

impl Domain {
    /// A domain whose body is about to run. The number of the domain is that of its body; it may make so many lines, at least one and at
    /// most 1,000,000.
    ///
    /// # Errors
    /// [`NoMemory`] where memory runs out.
    pub fn start(
        alloc: Global,
        script: &Script,
        body: u8,
        budget: u32,
        mocked: bool,
    ) -> Result<Domain, NoMemory>
        requires body { body < length script.now.bodies }
        requires some { 0 < budget }
        requires most { budget ≤ 1000000 }
        requires runnable { IsRunnable script.now }
        ensures { IfOk result (Starts script.now body budget mocked) }
    {
        let mut ready = Ready::new(alloc, MOST_FIBERS)?;
        ready.push_back_reserved(BODY_FIBER);
        let owed = Strikes::new(alloc)?;
        let mut contexts = Contexts::new(alloc)?;
        let root = contexts.root().unwrap();
        let fibers = Fibers::of_body(alloc, script, body, root)?;
        Ok(Domain {
            alloc,
            number: body,
            fibers,
            came: None,
            ready,
            owed,
            contexts,
            switches: Switches::new(alloc),
            groups: Groups::new(alloc),
            serial: (body as u64) << 56,
            stamp: 0,
            lines: 0,
            budget,
            halted: false,
            mocked,
        })
    }

    /// Whether something is left to be done, a message aside: no limit was met, and a strike is owed or a fiber can move.
    pub fn can_move(&self) -> bool
        ensures { (nodes : List Node) (texts : List (List ℕ)) (l : DomainState) → Mirrors nodes texts self.now l → l.timers.standing ≡ [] → result ≡ mock.can_move l }
    {
        !self.halted && !(self.owed.is_empty() && self.ready.is_empty())
    }

    /// What the body came to, if it has ended.
    pub fn body_end(&self) -> Option<Outcome>
        ensures { (nodes : List Node) (texts : List (List ℕ)) (l : DomainState) → Mirrors nodes texts self.now l → result ≡ trace.body_end l }
    {
        self.came
    }

    /// Whether a limit was met, so that the domain is halted.
    pub fn met_limit(&self) -> bool
        ensures { (nodes : List Node) (texts : List (List ℕ)) (l : DomainState) → Mirrors nodes texts self.now l → result ≡ l.halted }
    {
        self.halted
    }
}
