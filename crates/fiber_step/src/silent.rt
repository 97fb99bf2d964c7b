//! Statements that go on within the fiber: values, names, and the blocks of branching, catching and repeating.

ghost use Rattle.std.specs.Prelude.{◌≡◌, if◌then◌else◌, length, List};
ghost use Rattle.eio_value.specs.declared.value.Value.{Value as Item};
ghost use Rattle.fiber_step.specs.Calling.{IsOfKind, has_marks, is_group, is_silent};
ghost use Rattle.fiber_step.specs.Having.{BeginsStatement};
ghost use Rattle.fiber_step.specs.Stepping.{IsStepped, IsStepOf, HasFewLeft, repeats_step, unbranched};
ghost use Rattle.script_forms.specs.Flat.{nodes_of};
ghost use Rattle.spec_fiber.specs.Silent.{is_zero};

use crate::ask::Ask;
use crate::evaluation::{evaluate, evaluate_number};
use crate::step::{Step, Stepped};
use crate::variables::Variables;
use eio_value::{Misuse, Value};
use script_code::Script;
use script_forms::{Group, Node};

/// The step of a statement that goes into a block with nothing evaluated before.
pub(crate) fn block_at_once(script: &Script, number: u32) -> Stepped
    requires statement { BeginsStatement (nodes_of script.now) number }
    requires kind { IsOfKind has_marks (nodes_of script.now) number }
    ensures { (variables : List Item) → IsStepped (nodes_of script.now) (length script.now.texts) number variables result }
{
    let (step, after) = match *script.node(number) {
        Node::Try {
            tried,
            handler,
            after,
        } => (Step::Tried { tried, handler }, after),
        Node::Loop { body, after } => (Step::Looped { body }, after),
        Node::UseRw { mutex, body, after } => (Step::Locks { mutex, body }, after),
        Node::UsePool { pool, body, after } => (Step::Uses { pool, body }, after),
        _ => unreachable!(),
    };
    Stepped { step, after }
}

/// The step of a form with branches.
pub(crate) fn branching(script: &Script, number: u32) -> Stepped
    requires statement { BeginsStatement (nodes_of script.now) number }
    requires kind { IsOfKind is_group (nodes_of script.now) number }
    ensures { (variables : List Item) → IsStepped (nodes_of script.now) (length script.now.texts) number variables result }
{
    let Node::Branches {
        group,
        blocks,
        after,
    } = script.node(number)
    else {
        unreachable!();
    };
    let step = if blocks.as_slice().is_empty() {
        without_branches(*group)
    } else {
        Step::Calls(Ask::Branches {
            group: *group,
            form: number,
        })
    };
    Stepped {
        step,
        after: *after,
    }
}

/// The step of a form that has no branches. An `all` is past at once, and an `any` awaits its cancellation; the others always
/// have branches.
fn without_branches(group: Group) -> Step
    ensures { result ≡ unbranched group }
{
    match group {
        Group::Any => Step::Calls(Ask::AwaitCancel),
        _ => Step::Past(Value::Unit),
    }
}

/// The step of a statement that names or gives a value, branches, raises or repeats.
pub(crate) fn step_within(
    script: &Script,
    number: u32,
    variables: &Variables,
) -> Result<Stepped, Misuse>
    requires statement { BeginsStatement (nodes_of script.now) number }
    requires kind { IsOfKind is_silent (nodes_of script.now) number }
    ensures { IsStepOf (nodes_of script.now) (length script.now.texts) number variables.now result }
{
    let (step, after) = match *script.node(number) {
        Node::Let => {
            let named = evaluate(script, number + 1, variables)?;
            (Step::Named(named.value), named.behind)
        }
        Node::LetForm => (Step::Form, number + 1),
        Node::If {
            then_block,
            else_block,
            after,
        } => {
            let test = evaluate_number(script, number + 1, variables)?;
            let body = chosen(test.number, then_block, else_block);
            (Step::Block { body }, after)
        }
        Node::Give => {
            let given = evaluate(script, number + 1, variables)?;
            (Step::Past(given.value), given.behind)
        }
        Node::Raise(text) => (Step::Raises(text), number + 1),
        Node::Repeat { body, after } => {
            let times = evaluate_number(script, number + 1, variables)?;
            let step = repeated(times.number, body);
            (step, after)
        }
        _ => unreachable!(),
    };
    Ok(Stepped { step, after })
}

/// The block that a test chooses: truth is any number but 0.
fn chosen(test: i64, then_block: u32, else_block: u32) -> u32
    ensures { result ≡ (if is_zero test then else_block else then_block) }
{
    if test == 0 { else_block } else { then_block }
}

/// The step of a `repeat` of so many turns. Without turns it is past.
fn repeated(times: i64, body: u32) -> Step
    ensures step { result ≡ repeats_step times body }
    ensures few { HasFewLeft result }
{
    if times > 0 {
        let left = (times - 1) as u64;
        Step::Repeated { left, body }
    } else {
        Step::Past(Value::Unit)
    }
}
