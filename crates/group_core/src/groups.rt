//! All groups of a domain, by number. What `branch_ends` and `join` do to the group that they name is what the definition's
//! functions of these names do; all others stay as they were.

ghost use Rattle.std.specs.Prelude.{◌≡◌, ◌<◌, ◌^◌, ◌↔◌, [], ◌∷◌, ◌++◌, length, IfOk, IsTrue, OnOk, OnErr};
ghost use Rattle.spec_parts.specs.Groups.{gathered, group_at, with_group, branch_ends, join};
ghost use Rattle.group_core.specs.Answers.{step_of};
ghost use Rattle.group_core.specs.Kinds.{kind_of};

use crate::group::Group;
use crate::{BranchEnded, GroupKind, JoinStep};
use eio_value::{NoMemory, Outcome, Value};
use std::alloc::Global;
use std::marker::Model;

/// The groups that were made, by number, from 0.
#[derive(Drop)]
pub struct Groups {
    groups: Vec<Group>,
}

impl Model for Groups {
    ghost use Rattle.std.specs.Prelude.{List};
    ghost use Rattle.spec_parts.specs.Groups as model;

    ghost Value = { List model.Group };

    ghost view = { λ inside. inside.groups.items };
}

impl Groups {
    /// No group.
    pub fn new(alloc: Global) -> Groups
        ensures { result ≡ [] }
    {
        Groups {
            groups: Vec::new(alloc),
        }
    }

    /// A new group over a context, with this many branches, and its number. The caller's own branch is among them.
    ///
    /// # Errors
    /// [`NoMemory`]; the groups are then as they were.
    pub fn open(&mut self, kind: GroupKind, context: u32, branches: u32) -> Result<u32, NoMemory>
        requires { length self.old < 2 ^ 32 }
        ensures number { IfOk result (λ group. group ≡ length self.old) }
        ensures ok { OnOk result (self.new ≡ self.old ++ gathered (kind_of kind) context branches ∷ []) }
        ensures err { OnErr result (self.new ≡ self.old) }
    {
        let number = self.groups.len();
        self.groups.push(Group::gathered(kind, context, branches))?;
        Ok(number as u32)
    }

    /// How many were made.
    pub fn len(&self) -> usize
        ensures { result ≡ length self.now }
    {
        self.groups.len()
    }

    /// Whether none was made.
    pub fn is_empty(&self) -> bool
        ensures { IsTrue result ↔ (self.now ≡ []) }
    {
        self.groups.is_empty()
    }

    /// The context of a group.
    pub fn context(&self, group: u32) -> u32
        requires { group < length self.now }
        ensures { result ≡ (group_at self.now group).context }
    {
        self.groups[group as usize].context()
    }

    /// The value that a group keeps, if one is kept yet.
    pub fn kept(&self, group: u32) -> Option<Value>
        requires { group < length self.now }
        ensures { result ≡ (group_at self.now group).kept }
    {
        self.groups[group as usize].kept()
    }

    /// A branch of a group ends with this outcome. That may cancel the group's context, for a reason; the last branch wakes the
    /// fiber that waits in `join`, which then waits no longer.
    pub fn branch_ends(&mut self, group: u32, outcome: Outcome) -> BranchEnded
        requires { group < length self.old }
        ensures cancels { result.cancels ≡ (branch_ends outcome (group_at self.old group)).cancels }
        ensures woken { result.woken ≡ (branch_ends outcome (group_at self.old group)).woken }
        ensures groups { self.new ≡ with_group group (branch_ends outcome (group_at self.old group)).group self.old }
    {
        self.groups[group as usize].branch_ends(outcome)
    }

    /// What `join` finds, called by this fiber: it waits until all branches have ended, and then has their result.
    pub fn join(&mut self, group: u32, joiner: u32) -> JoinStep
        requires { group < length self.old }
        ensures step { step_of result ≡ (join joiner (group_at self.old group)).step }
        ensures groups { self.new ≡ with_group group (join joiner (group_at self.old group)).group self.old }
    {
        self.groups[group as usize].join(joiner)
    }
}
