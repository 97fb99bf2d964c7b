//! Statements that call with no operand to be evaluated.

ghost use Rattle.std.specs.Prelude.{◌≡◌, ◌≤◌, length, map, List};
ghost use Rattle.eio_value.specs.declared.value.Value.{Value as Item};
ghost use Rattle.fiber_step.specs.Calling.{IsOfKind, is_bare, has_own_block, hands_on};
ghost use Rattle.fiber_step.specs.Having.{BeginsStatement};
ghost use Rattle.fiber_step.specs.Stepping.{IsStepped};
ghost use Rattle.script_forms.specs.Flat.{nodes_of};
ghost use Rattle.spec_script.specs.Limits.{most_captured};
ghost use Rattle.spec_fiber.specs.Evaluation.{value_at};

use crate::ask::Ask;
use crate::step::{Step, Stepped};
use crate::variables::Variables;
use eio_value::Operands;
use script_code::Script;
use script_forms::Node;

/// The step of a statement that calls, and has neither operands nor blocks.
pub(crate) fn call_at_once(script: &Script, number: u32, variables: &Variables) -> Stepped
    requires statement { BeginsStatement (nodes_of script.now) number }
    requires kind { IsOfKind is_bare (nodes_of script.now) number }
    ensures { IsStepped (nodes_of script.now) (length script.now.texts) number variables.now result }
{
    let call = match *script.node(number) {
        Node::Yield => Ask::Yield,
        Node::Check => Ask::Check,
        Node::AwaitCancel => Ask::AwaitCancel,
        Node::Now => Ask::Now,
        Node::Cancel { context, text } => Ask::Cancel {
            context: variables.context(context),
            text,
        },
        Node::Fail { switch, text } => Ask::Fail {
            switch: variables.switch(switch),
            text,
        },
        Node::OnObject { call, object } => Ask::OnObject { call, object },
        Node::OnReader { call, reader } => Ask::OnReader {
            call,
            reader: variables.number(reader),
        },
        Node::Copy { from, to } => Ask::Copy { from, to },
        _ => unreachable!(),
    };
    Stepped {
        step: Step::Calls(call),
        after: number + 1,
    }
}

/// The step of a statement whose call goes into its block.
pub(crate) fn call_with_block(script: &Script, number: u32) -> Stepped
    requires statement { BeginsStatement (nodes_of script.now) number }
    requires kind { IsOfKind has_own_block (nodes_of script.now) number }
    ensures { (variables : List Item) → IsStepped (nodes_of script.now) (length script.now.texts) number variables result }
{
    let (call, after) = match *script.node(number) {
        Node::Sub { body, after } => (Ask::Sub { body }, after),
        Node::Protect { body, after } => (Ask::Protect { body }, after),
        Node::Switch { body, after } => (Ask::Switch { body }, after),
        Node::BufRead {
            flow,
            limit,
            body,
            after,
        } => (Ask::OpenReader { flow, limit, body }, after),
        Node::BufWrite { flow, body, after } => (Ask::OpenWriter { flow, body }, after),
        _ => unreachable!(),
    };
    let step = Step::Calls(call);
    Stepped { step, after }
}

/// The step of a statement whose call hands a block on.
pub(crate) fn call_with_job(script: &Script, number: u32, variables: &Variables) -> Stepped
    requires statement { BeginsStatement (nodes_of script.now) number }
    requires kind { IsOfKind hands_on (nodes_of script.now) number }
    ensures { IsStepped (nodes_of script.now) (length script.now.texts) number variables.now result }
{
    let (call, after) = match script.node(number) {
        Node::Fork {
            forking,
            switch,
            body,
            after,
        } => {
            let switch = variables.switch(*switch);
            (Ask::forking(*forking, switch, *body), *after)
        }
        Node::OnRelease {
            switch,
            handler,
            after,
        } => {
            let switch = variables.switch(*switch);
            let handler = *handler;
            (Ask::OnRelease { switch, handler }, *after)
        }
        Node::Submit {
            executor,
            weight,
            captured,
            job,
            after,
        } => {
            let given = values_of(captured.as_slice(), variables);
            (Ask::submitting(*executor, *weight, given, *job), *after)
        }
        _ => unreachable!(),
    };
    let step = Step::Calls(call);
    Stepped { step, after }
}

/// The values of some slots.
fn values_of(slots: &[u32], variables: &Variables) -> Operands
    requires { length slots.now ≤ most_captured }
    ensures { result ≡ map (value_at variables.now) slots.now }
{
    let mut values = Operands::none();
    for slot in slots {
        values = values.with(variables.value(*slot));
    }
    values
}
