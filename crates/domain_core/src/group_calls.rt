//! The calls on groups: the making of branches, and `join` at the end of the caller's own.

ghost use Rattle.std.specs.Prelude.{◌≡◌, ◌<◌, ◌+◌, ◌-◌, ◌≤◌, ◌^◌, ◌++◌, ◌∷◌, ℕ, List, [], Some, length, count_by, is_some, IfOk, OnOk};
ghost use Rattle.std.specs.List.{AllByRecursion as Each};
ghost use Rattle.law_domain.specs.Sound.SoundStates.{own_branches};
ghost use Rattle.fiber_step.specs.Having.{HasStatements};
ghost use Rattle.group_core.specs.Kinds.{kind_of as kind_in};
ghost use Rattle.spec_machine.specs.Domain.{OfGroup, fiber_at, made};
ghost use Rattle.spec_machine.specs.GroupMoves as groups;
ghost use Rattle.spec_machine.specs.GroupMoves.{branch_ended, own_ended};
ghost use Rattle.spec_parts.specs.Groups.{group_at};
ghost use Rattle.script_forms.specs.Calls.{group_of};
ghost use Rattle.script_forms.specs.Flat.{nodes_of};
ghost use Rattle.script_code.specs.Standing.{block_at};
ghost use Rattle.script_forms.specs.declared.node.Node.{Node as Begun};
ghost use Rattle.spec_script.specs.Scripts.{Script as Read};
ghost use Rattle.spec_fiber.specs.Replies.{begun};
ghost use Rattle.domain_core.specs.Answering.{Answers, Becomes, BecomesUnder, SameCounts, SameFibers, gathers, heads_with};
ghost use Rattle.domain_core.specs.Conditions.{CanCall, IsAwake, LeavesGroups, MayEndContext, KeptMayJoin};
ghost use Rattle.domain_core.specs.Keeping.{KeptFiber};
ghost use Rattle.domain_core.specs.Moving.{MayAnswer};
ghost use Rattle.domain_core.specs.Stepping.{IsPlacedAt};

use crate::domain::Domain;
use crate::fibers::MOST_FIBERS;
use crate::standing::{Again, Role};
use crate::told::Told;
use eio_value::{NoMemory, Outcome, Plain};
use fiber_step::{Ask, Fiber as Frames, Variables, branch_bodies};
use group_core::{GroupKind, JoinStep};
use script_code::Script;
use script_forms::Group;
use trace_lines::{Did, Said2};

impl Domain {
    /// `both`, `all`, `first` or `any`: a fiber for each branch but the last, which the caller runs, all in one new context; unless the
    /// caller's own is off. The new fibers stand in order before all others, the caller behind them.
    ///
    /// # Errors
    /// [`NoMemory`] where memory, or the numbers for raises, run out; the domain isn't used again then.
    pub(crate) fn branches(
        &mut self,
        script: &Script,
        fiber: u32,
        group: Group,
        form: u32,
        told: &mut Told,
    ) -> Result<(), NoMemory>
        requires may { MayAnswer script.now fiber (Ask.Branches group form) self.old }
        ensures answers { OnOk result (Answers script.now (Ask.Branches group form) fiber self.old told.new self.new) }
        ensures same { OnOk result (SameCounts self.old self.new) }
    {
        if let Some(why) = self.off_for(fiber) {
            let did = did_branch(group, self.fibers.at(fiber).context);
            return self.raise_cancelled(fiber, did, why, told);
        }
        let bodies = branch_bodies(script, form);
        let others = &bodies[..bodies.len() - 1];
        if self.fibers.live() + others.len() > MOST_FIBERS {
            self.halt(fiber, told);
            return Ok(());
        }
        let Some(context) = self.new_sub(fiber) else {
            self.halt(fiber, told);
            return Ok(());
        };
        let first = self.fibers.made() as u32;
        let number = self.gather(fiber, group, context, others)?;
        self.enter(
            script,
            fiber,
            &Ask::Branches { group, form },
            number,
            context,
        )?;
        self.put_before_all(first, others.len() as u32);
        *told = Told {
            fiber,
            did: did_branch(group, context),
            reply: first_of(self.number, first, others.len()),
        };
        Ok(())
    }

    /// A new group over this context, with a fiber for each of these blocks, and the caller's own branch beside them. The new fibers stand in no
    /// list yet.
    fn gather(
        &mut self,
        maker: u32,
        group: Group,
        context: u32,
        bodies: &[u32],
    ) -> Result<u32, NoMemory>
        requires awake { IsAwake self.old maker }
        requires room { count_by is_some self.old.fibers + length bodies.now ≤ 1024 }
        requires few_groups { length self.old.groups < 2 ^ 32 - 1 }
        requires few_fibers { length self.old.fibers + length bodies.now < 2 ^ 32 - 1 }
        ensures number { IfOk result (λ number. number ≡ length self.old.groups) }
        ensures made { OnOk result ((nodes : List Begun) → Each (HasStatements nodes) bodies.now → BecomesUnder nodes (gathers maker (groups.kind_of (group_of group)) context bodies.now nodes) self.old self.new) }
        ensures awake { OnOk result ((g : ℕ) → IsAwake self.old g → IsAwake self.new g) }
        ensures placed { OnOk result ((nodes : List Begun) → IsPlacedAt nodes maker self.old.fibers → IsPlacedAt nodes maker self.new.fibers) }
        ensures count { OnOk result (length self.new.fibers ≡ length self.old.fibers + length bodies.now) }
        ensures ready { OnOk result (self.new.ready ≡ self.old.ready) }
        ensures same { OnOk result (SameCounts self.old self.new) }
    {
        let branches = bodies.len() as u32 + 1;
        let number = self.groups.open(kind_of(group), context, branches)?;
        for body in bodies {
            self.make_branch(maker, number, context, *body)?;
        }
        Ok(number)
    }

    /// A new fiber for a branch, with the variables of the caller; it stands in no list yet.
    fn make_branch(
        &mut self,
        maker: u32,
        group: u32,
        context: u32,
        body: u32,
    ) -> Result<(), NoMemory>
        requires awake { IsAwake self.old maker }
        requires room { count_by is_some self.old.fibers < 1024 }
        requires few { length self.old.fibers < 2 ^ 32 - 1 }
        ensures made { OnOk result ((nodes : List Begun) → HasStatements nodes body
            → BecomesUnder nodes (λ l. made context (OfGroup group) (begun (block_at nodes body) (fiber_at l.fibers maker).variables) l) self.old self.new) }
        ensures fibers { OnOk result ((new : KeptFiber) × (self.new.fibers ≡ self.old.fibers ++ Some new ∷ [])) }
        ensures groups { OnOk result (self.new.groups ≡ self.old.groups) }
        ensures ready { OnOk result (self.new.ready ≡ self.old.ready) }
        ensures same { OnOk result (SameCounts self.old self.new) }
    {
        let variables = self.fibers.at(maker).frames.variables();
        let values = variables.as_slice().to_vec(self.alloc)?;
        let frames = Frames::new(self.alloc, body, Variables::new(values))?;
        self.fibers.add(context, Role::Branch { group }, frames)?;
        Ok(())
    }

    /// So many fibers from this number on stand in order before all others.
    fn put_before_all(&mut self, first: u32, count: u32)
        requires room { length self.old.ready + count ≤ 1024 }
        requires few { first + count < 2 ^ 32 }
        ensures becomes { Becomes (heads_with first count) self.old self.new }
        ensures same { SameCounts self.old self.new }
    {
        for fiber in (first..first + count).rev() {
            self.ready.push_head_reserved(fiber);
        }
    }

    /// A branch of a group has ended so: that may cancel the others, and the last one wakes who waits in `join`.
    pub(crate) fn branch_ends(&mut self, fiber: u32, group: u32, outcome: &Outcome)
        requires made { group < length self.old.groups }
        requires owes { self.old.owed ≡ [] }
        requires room { length self.old.ready < 1024 }
        ensures becomes { Becomes (branch_ended group outcome.now fiber) self.old self.new }
        ensures leaves { LeavesGroups self.old self.new }
        ensures left { (group_at self.new.groups group).left ≡ (group_at self.old.groups group).left - 1 }
        ensures same { SameCounts self.old self.new }
    {
        let ended = self.groups.branch_ends(group, *outcome);
        let context = self.groups.context(group);
        self.cancel_if(fiber, context, ended.cancels);
        self.wake(ended.woken);
    }

    /// The context is cancelled, if there is a reason.
    fn cancel_if(&mut self, maker: u32, context: u32, why: Option<Plain>)
        requires owes { self.old.owed ≡ [] }
        ensures becomes { Becomes (groups.cancels_if maker context why) self.old self.new }
        ensures fibers { SameFibers self.old self.new }
        ensures groups { self.new.groups ≡ self.old.groups }
        ensures ends { (c : ℕ) → MayEndContext self.old c → MayEndContext self.new c }
        ensures same { SameCounts self.old self.new }
    {
        if let Some(why) = why {
            self.cancel_context(maker, context, why);
        }
    }

    /// The caller's own branch has ended, if it has.
    fn own_ends(&mut self, fiber: u32, group: u32, own: Option<Outcome>)
        requires made { group < length self.old.groups }
        requires owes { self.old.owed ≡ [] }
        requires room { length self.old.ready < 1024 }
        ensures becomes { Becomes (own_ended group own fiber) self.old self.new }
        ensures leaves { LeavesGroups self.old self.new }
        ensures left { (group_at self.new.groups group).left ≡ (group_at self.old.groups group).left - own_branches (is_some own) }
        ensures same { SameCounts self.old self.new }
    {
        if let Some(outcome) = own {
            self.branch_ends(fiber, group, &outcome);
        }
    }

    /// `join`: waits until the last branch has ended; then the group's context ends, and it gives its value or raises its errors.
    ///
    /// # Errors
    /// [`NoMemory`] where memory runs out; the domain isn't used again then.
    pub(crate) fn join(
        &mut self,
        fiber: u32,
        group: u32,
        own: Option<Outcome>,
        told: &mut Told,
    ) -> Result<(), NoMemory>
        requires can { CanCall self.old fiber }
        requires may { KeptMayJoin self.old group own }
        ensures answers { OnOk result ((script : Read) → Answers script (Ask.Join group own) fiber self.old told.new self.new) }
        ensures same { OnOk result (SameCounts self.old self.new) }
    {
        self.own_ends(fiber, group, own);
        let context = self.groups.context(group);
        let did = Did::Join(context);
        match self.groups.join(group, fiber) {
            JoinStep::Wait => {
                self.wait_for(fiber, did, Again::Join { group }, told);
                Ok(())
            }
            JoinStep::Give(value) => {
                self.leave_context(fiber, context);
                self.give(fiber, did, value, told);
                Ok(())
            }
            JoinStep::Raise(raised) => {
                self.leave_context(fiber, context);
                self.raise_again(fiber, did, &raised, told)
            }
        }
    }
}

/// What a line tells of branches that are made in this context.
fn did_branch(group: Group, context: u32) -> Did
    ensures { result ≡ groups.did_branch (group_of group) context }
{
    match group {
        Group::Both => Did::Both(context),
        Group::All => Did::All(context),
        Group::First => Did::First(context),
        Group::Any => Did::Any(context),
    }
}

/// The kind of group that a form makes.
fn kind_of(group: Group) -> GroupKind
    ensures { kind_in result ≡ groups.kind_of (group_of group) }
{
    match group {
        Group::Both => GroupKind::Both,
        Group::All => GroupKind::All,
        Group::First => GroupKind::First,
        Group::Any => GroupKind::Any,
    }
}

/// The first of so many new fibers, if there is one.
fn first_of(domain: u8, first: u32, count: usize) -> Said2
    ensures { result ≡ groups.first_of domain first count }
{
    if count == 0 {
        Said2::Nothing
    } else {
        Said2::Fiber {
            domain,
            fiber: first,
        }
    }
}
