//! What a statement comes to, before anything is changed for it.
//!
//! A statement is past with a value, goes into a block, calls, or raises. The marks that a block leaves behind are those of
//! whoever goes into it.

ghost use Rattle.std.specs.Prelude.{length};
ghost use Rattle.fiber_step.specs.Having.{BeginsStatement};
ghost use Rattle.fiber_step.specs.Stepping.{IsStepOf};
ghost use Rattle.script_forms.specs.Flat.{nodes_of};

use crate::ask::Ask;
use crate::calls::{call_at_once, call_with_block, call_with_job};
use crate::operand_calls::{call_on_path, call_with_operands};
use crate::silent::{block_at_once, branching, step_within};
use crate::variables::Variables;
use eio_value::{Misuse, TextId, Value};
use script_code::Script;
use script_forms::Node;

/// What a statement comes to.
#[derive(Clone, Copy)]
pub enum Step {
    /// It is past, with a value.
    Past(Value),
    /// It is past, and names a value in the next slot.
    Named(Value),
    /// It names what the form behind it gives.
    Form,
    /// It goes into a block.
    Block { body: u32 },
    /// It goes into a block, and with an exception of that into a second one.
    Tried { tried: u32, handler: u32 },
    /// The first turn of a `loop` begins.
    Looped { body: u32 },
    /// The first turn of a `repeat` begins, with so many left behind it.
    Repeated { left: u64, body: u32 },
    /// It locks a mutex for a block.
    Locks { mutex: u32, body: u32 },
    /// It takes a resource of a pool for a block.
    Uses { pool: u32, body: u32 },
    Raises(TextId),
    Calls(Ask),
}

/// What a statement comes to, and the number of the node with which its block goes on.
#[derive(Clone, Copy)]
pub struct Stepped {
    pub step: Step,
    pub after: u32,
}

/// What the statement that begins at a node comes to, or what is raised in its place.
///
/// Operands are evaluated from the left, and the first exception ends it.
pub(crate) fn step_at(
    script: &Script,
    number: u32,
    variables: &Variables,
) -> Result<Stepped, Misuse>
    requires { BeginsStatement (nodes_of script.now) number }
    ensures { IsStepOf (nodes_of script.now) (length script.now.texts) number variables.now result }
{
    match *script.node(number) {
        Node::Yield
        | Node::Check
        | Node::AwaitCancel
        | Node::Now
        | Node::Cancel { .. }
        | Node::Fail { .. }
        | Node::OnObject { .. }
        | Node::OnReader { .. }
        | Node::Copy { .. } => Ok(call_at_once(script, number, variables)),
        Node::Sub { .. }
        | Node::Protect { .. }
        | Node::Switch { .. }
        | Node::BufRead { .. }
        | Node::BufWrite { .. } => Ok(call_with_block(script, number)),
        Node::Fork { .. } | Node::OnRelease { .. } | Node::Submit { .. } => {
            Ok(call_with_job(script, number, variables))
        }
        Node::Branches { .. } => Ok(branching(script, number)),
        Node::Try { .. } | Node::Loop { .. } | Node::UseRw { .. } | Node::UsePool { .. } => {
            Ok(block_at_once(script, number))
        }
        Node::Trace(_)
        | Node::OnObjectWith { .. }
        | Node::Sleep
        | Node::TakeBytes { .. }
        | Node::Put { .. } => call_with_operands(script, number, variables),
        Node::OpenDir { .. } | Node::OnPath { .. } | Node::Save { .. } => {
            call_on_path(script, number, variables)
        }
        Node::Let
        | Node::LetForm
        | Node::If { .. }
        | Node::Give
        | Node::Raise(_)
        | Node::Repeat { .. } => step_within(script, number, variables),
        // Neither an expression nor the end of a block begins a statement.
        _ => unreachable!(),
    }
}
