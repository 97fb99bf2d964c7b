//! The end of a fiber.

ghost use Rattle.std.specs.Prelude.{◌≡◌, ◌<◌, ℕ, [], length};
ghost use Rattle.spec_machine.specs.Steps.{reply_of};
ghost use Rattle.spec_machine.specs.SwitchMoves.{detached, given_up};
ghost use Rattle.spec_parts.specs.Switches.{switch_at};
ghost use Rattle.spec_script.specs.Scripts.{Script as Read};
ghost use Rattle.switch_core.specs.Attaching.{IsAttached};
ghost use Rattle.domain_core.specs.Answering.{Answers, Becomes, SameCounts};
ghost use Rattle.domain_core.specs.Conditions.{CanCall, LeavesScopes, MayEnd};

use crate::domain::Domain;
use crate::standing::Role;
use crate::told::Told;
use eio_value::{Outcome, Raised};
use fiber_step::Ask;
use trace_lines::{Did, Said2};

impl Domain {
    /// The end of a fiber. That of the body ends its context; a fiber of a switch leaves that, which gets what it raised; and a branch leaves its
    /// group.
    pub(crate) fn end(&mut self, fiber: u32, outcome: &Outcome, told: &mut Told)
        requires can { CanCall self.old fiber }
        requires may { MayEnd self.old fiber }
        ensures answers { (script : Read) → Answers script (Ask.End outcome.now) fiber self.old told.new self.new }
        ensures same { SameCounts self.old self.new }
    {
        let ended = self.fibers.at(fiber);
        let (context, role) = (ended.context, ended.role);
        self.fibers.end(fiber);
        match role {
            Role::Body => {
                self.came = Some(*outcome);
                self.contexts.end(context);
            }
            Role::Switched { switch, daemon } => self.detach(fiber, switch, daemon, outcome),
            Role::Branch { group } => self.branch_ends(fiber, group, outcome),
        }
        *told = Told {
            fiber,
            did: Did::End,
            reply: reply_to(outcome),
        };
    }

    /// An attached fiber has ended so: it leaves its switch, and who waits there for it and nobody else goes to the back of the ready list.
    fn detach(&mut self, fiber: u32, switch: u32, daemon: bool, outcome: &Outcome)
        requires opened { switch < length self.old.switches }
        requires attached { IsAttached fiber (switch_at self.old.switches switch) }
        requires owes { self.old.owed ≡ [] }
        requires room { length self.old.ready < 1024 }
        ensures becomes { Becomes (detached switch daemon outcome.now fiber) self.old self.new }
        ensures same { SameCounts self.old self.new }
    {
        self.give_up(fiber, switch, daemon, outcome);
        let woken = self.switches.detach(switch, fiber);
        self.wake(woken);
    }

    /// What a fiber has raised is given to its switch; that a daemon was cancelled is dropped.
    fn give_up(&mut self, fiber: u32, switch: u32, daemon: bool, outcome: &Outcome)
        requires opened { switch < length self.old.switches }
        requires owes { self.old.owed ≡ [] }
        ensures becomes { Becomes (given_up fiber switch daemon outcome.now) self.old self.new }
        ensures leaves { LeavesScopes self.old self.new }
        ensures same { SameCounts self.old self.new }
    {
        let Outcome::Err(raised) = outcome else {
            return;
        };
        if daemon && matches!(raised, Raised::Cancelled(_)) {
            return;
        }
        self.fails(fiber, switch, raised);
    }
}

/// What a line tells of what came.
fn reply_to(outcome: &Outcome) -> Said2
    ensures { result ≡ reply_of outcome.now }
{
    match *outcome {
        Outcome::Ok(value) => Said2::Done(value),
        Outcome::Err(raised) => Said2::Raised(raised),
    }
}
