//! Statements that call with operands. An operand that raises ends the statement.

ghost use Rattle.std.specs.Prelude.{◌≡◌, length};
ghost use Rattle.fiber_step.specs.Calling.{IsOfKind, has_operands, is_of_path};
ghost use Rattle.fiber_step.specs.Having.{BeginsStatement};
ghost use Rattle.fiber_step.specs.Standing.{place_of};
ghost use Rattle.fiber_step.specs.Stepping.{IsStepOf};
ghost use Rattle.script_forms.specs.Calls.{directory_of};
ghost use Rattle.script_forms.specs.Flat.{nodes_of};
ghost use Rattle.spec_fiber.specs.Silent.{place_in};

use crate::ask::{Ask, DirectoryRef};
use crate::evaluation::{evaluate, evaluate_all, evaluate_number, evaluate_text};
use crate::step::{Step, Stepped};
use crate::variables::Variables;
use eio_value::Misuse;
use script_code::Script;
use script_forms::{Directory, Node};

/// The step of a statement that calls with operands of any kind.
pub(crate) fn call_with_operands(
    script: &Script,
    number: u32,
    variables: &Variables,
) -> Result<Stepped, Misuse>
    requires statement { BeginsStatement (nodes_of script.now) number }
    requires kind { IsOfKind has_operands (nodes_of script.now) number }
    ensures { IsStepOf (nodes_of script.now) (length script.now.texts) number variables.now result }
{
    let (call, after) = match *script.node(number) {
        Node::Trace(count) => {
            let traced = evaluate_all(script, count, number + 1, variables)?;
            (Ask::Trace(traced.values), traced.behind)
        }
        Node::OnObjectWith { call, object } => {
            let given = evaluate(script, number + 1, variables)?;
            (Ask::on_object(call, object, given.value), given.behind)
        }
        Node::Sleep => {
            let time = evaluate_number(script, number + 1, variables)?;
            (Ask::Sleep(time.number), time.behind)
        }
        Node::TakeBytes { reader } => {
            let most = evaluate_number(script, number + 1, variables)?;
            let reader = variables.number(reader);
            let count = most.number;
            (Ask::TakeBytes { reader, count }, most.behind)
        }
        Node::Put { writer } => {
            let written = evaluate_text(script, number + 1, variables)?;
            let writer = variables.number(writer);
            let text = written.text;
            (Ask::PutText { writer, text }, written.behind)
        }
        _ => unreachable!(),
    };
    let step = Step::Calls(call);
    Ok(Stepped { step, after })
}

/// The step of a statement that calls with a path.
pub(crate) fn call_on_path(
    script: &Script,
    number: u32,
    variables: &Variables,
) -> Result<Stepped, Misuse>
    requires statement { BeginsStatement (nodes_of script.now) number }
    requires kind { IsOfKind is_of_path (nodes_of script.now) number }
    ensures { IsStepOf (nodes_of script.now) (length script.now.texts) number variables.now result }
{
    let (call, after) = match *script.node(number) {
        Node::OpenDir {
            directory,
            body,
            after,
        } => {
            let path = evaluate_text(script, number + 1, variables)?.text;
            let place = place(directory, variables);
            (Ask::OpenDirectory { place, path, body }, after)
        }
        Node::OnPath { call, directory } => {
            let named = evaluate_text(script, number + 1, variables)?;
            let place = place(directory, variables);
            let path = named.text;
            (Ask::OnPath { call, place, path }, named.behind)
        }
        Node::Save {
            only_new,
            directory,
        } => {
            let named = evaluate_text(script, number + 1, variables)?;
            let saved = evaluate_text(script, named.behind, variables)?;
            let place = place(directory, variables);
            let call = Ask::saving(only_new, place, named.text, saved.text);
            (call, saved.behind)
        }
        _ => unreachable!(),
    };
    let step = Step::Calls(call);
    Ok(Stepped { step, after })
}

/// The directory that a statement names.
fn place(directory: Directory, variables: &Variables) -> DirectoryRef
    ensures { place_of result ≡ place_in variables.now (directory_of directory) }
{
    match directory {
        Directory::Declared(number) => DirectoryRef::Declared(number),
        Directory::Opened(slot) => DirectoryRef::Opened(variables.number(slot)),
    }
}
