//! One group. Contracts see a [`Group`] as the definition's group; its methods are the definition's functions, and nothing has
//! to hold between its fields.

ghost use Rattle.std.specs.Prelude.{◌≡◌, Option, None};
ghost use Rattle.eio_value.specs.declared.plain.Plain.{Plain};
ghost use Rattle.spec_parts.specs.Errors.{joined};
ghost use Rattle.spec_parts.specs.Groups.{gathered, kept_value, outcome_in, wake_joiner, branch_ends, given_or, raised_or, weighty, result_of, join};
ghost use Rattle.group_core.specs.Answers.{ended_with, step_of};
ghost use Rattle.group_core.specs.Kinds.{kind_of};

use crate::{BranchEnded, GroupKind, JoinStep};
use eio_value::{Outcome, Plain, Raised, Value, combine, reason};
use std::marker::Model;

/// A group, by the numbers of its context and of the fiber that joins it.
#[derive(Drop)]
pub(crate) struct Group {
    kind: GroupKind,
    context: u32,
    /// How many branches haven't ended, the caller's own among them.
    left: u32,
    /// What was raised in branches, together.
    errors: Option<Raised>,
    /// The value of the branch that finished first, where the kind keeps one.
    kept: Option<Value>,
    /// The fiber that waits in `join`.
    joiner: Option<u32>,
}

impl Model for Group {
    ghost use Rattle.spec_parts.specs.Groups as model;
    ghost use Rattle.group_core.specs.Kinds.{kind_of};

    ghost Value = { model.Group };

    ghost view = { λ inside. record {
      kind = kind_of inside.kind;
      context = inside.context;
      left = inside.left;
      errors = inside.errors;
      kept = inside.kept;
      joiner = inside.joiner;
    } };
}

impl Group {
    /// A new group over a context, with this many branches.
    pub(crate) fn gathered(kind: GroupKind, context: u32, branches: u32) -> Group
        ensures { result ≡ gathered (kind_of kind) context branches }
    {
        Group {
            kind,
            context,
            left: branches,
            errors: None,
            kept: None,
            joiner: None,
        }
    }

    pub(crate) fn context(&self) -> u32
        ensures { result ≡ self.now.context }
    {
        self.context
    }

    pub(crate) fn kept(&self) -> Option<Value>
        ensures { result ≡ self.now.kept }
    {
        self.kept
    }

    /// A branch ends: there is one fewer, and the last one wakes the fiber that waits in `join`.
    pub(crate) fn branch_ends(&mut self, outcome: Outcome) -> BranchEnded
        ensures { ended_with self.new result.cancels result.woken ≡ branch_ends outcome self.old }
    {
        self.left = self.left.saturating_sub(1);
        let cancels = self.outcome_in(outcome);
        let woken = self.wake_joiner();
        BranchEnded { cancels, woken }
    }

    /// Takes in the outcome of a branch, and tells why the other branches are cancelled, if they are.
    fn outcome_in(&mut self, outcome: Outcome) -> Option<Plain>
        ensures { ended_with self.new result None ≡ outcome_in outcome self.old }
    {
        match outcome {
            Outcome::Err(raised) => {
                self.errors = Some(joined(self.errors, raised));
                Some(reason(&raised))
            }
            Outcome::Ok(value) if self.kind.keeps_a_value() => self.keep(value),
            Outcome::Ok(_) => None,
        }
    }

    /// Keeps the first value, which cancels the others; a later one is dropped.
    fn keep(&mut self, value: Value) -> Option<Plain>
        ensures { ended_with self.new result None ≡ kept_value value self.old }
    {
        if self.kept.is_some() {
            return None;
        }
        self.kept = Some(value);
        Some(Plain::NotFirst)
    }

    /// Where no branch is left, the fiber that waits in `join` waits no longer, and is returned.
    fn wake_joiner(&mut self) -> Option<u32>
        ensures { (cancels : Option Plain) → ended_with self.new cancels result ≡ wake_joiner (ended_with self.old cancels None) }
    {
        if self.left == 0 {
            self.joiner.take()
        } else {
            None
        }
    }

    /// What `join` finds, called by this fiber: it waits while branches are left.
    pub(crate) fn join(&mut self, joiner: u32) -> JoinStep
        ensures { record { step = step_of result; group = self.new } ≡ join joiner self.old }
    {
        if self.left > 0 {
            self.joiner = Some(joiner);
            return JoinStep::Wait;
        }
        self.result_of()
    }

    /// What the group gives or raises, once all branches have ended.
    fn result_of(&self) -> JoinStep
        ensures { step_of result ≡ result_of self.now }
    {
        let unit = raised_or(self.errors, JoinStep::Give(Value::Unit));
        if self.kind.keeps_a_value() {
            raised_or(weighty(self.errors), given_or(self.kept, unit))
        } else {
            unit
        }
    }
}

/// What errors become by one more exception.
fn joined(errors: Option<Raised>, raised: Raised) -> Raised
    ensures { result ≡ joined errors raised }
{
    match errors {
        Some(errors) => combine(errors, raised),
        None => raised,
    }
}

/// Errors that aren't a mere cancellation.
fn weighty(errors: Option<Raised>) -> Option<Raised>
    ensures { result ≡ weighty errors }
{
    match errors {
        Some(Raised::Cancelled(_)) => None,
        _ => errors,
    }
}

/// These errors are raised, if there are any; else this is the step.
fn raised_or(errors: Option<Raised>, step: JoinStep) -> JoinStep
    ensures { step_of result ≡ raised_or errors (step_of step) }
{
    match errors {
        Some(errors) => JoinStep::Raise(errors),
        None => step,
    }
}

/// This value is given, if there is one; else this is the step.
fn given_or(value: Option<Value>, step: JoinStep) -> JoinStep
    ensures { step_of result ≡ given_or value (step_of step) }
{
    match value {
        Some(value) => JoinStep::Give(value),
        None => step,
    }
}
