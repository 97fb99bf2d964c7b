//! What `check` and `print` answer to an input.
ghost use Rattle.std.specs.Prelude.{◌≡◌, Ok, IfOk, IfErr, OnOk, IsOk, codes, false};
ghost use Rattle.spec_script.specs.Canonical.{document};
ghost use Rattle.spec_script.specs.Inputs.{checked, printed, input_script};
ghost use Rattle.spec_script.specs.Refusals.{NoScript, or_refused};
ghost use Rattle.spec_script.specs.Scripts.{script_of};
ghost use Rattle.script_input.specs.Refusals.{Refuses};
ghost use Rattle.script_input.specs.Inspections.{inspected, due, due_of};

use crate::fault::InputFault;
use crate::input;
use crate::refusal::refusal_line;
use eio_value::NoMemory;
use script_tree::{Tree, write_tree};
use std::alloc::Global;
use trace_out::Status;

/// A command that runs nothing.
#[derive(Clone, Copy)]
pub enum Inspection {
    /// Says whether the input is a script.
    Check,
    /// Writes the tree of a script in its canonical spelling.
    Print,
}

/// What is written for an input, and the status.
#[derive(Drop)]
pub struct Answer {
    pub text: Vec<u8>,
    pub status: Status,
}

/// What `check` writes for a script.
fn check_text(alloc: Global, bytes: &[u8]) -> Result<Vec<u8>, InputFault>
    ensures ok { IfOk result (λ text. checked bytes.now ≡ record { text = text.items; is_refused = false }) }
    ensures fault { IfErr result (λ fault. Refuses fault (input_script bytes.now)) }
{
    input::input_script(alloc, bytes)?;
    let text = Vec::from_slice(alloc, b"ok\n")?;
    Ok(text)
}

/// What `print` writes for a script.
fn print_text(alloc: Global, bytes: &[u8]) -> Result<Vec<u8>, InputFault>
    ensures ok { IfOk result (λ text. printed bytes.now ≡ record { text = text.items; is_refused = false }) }
    ensures fault { IfErr result (λ fault. Refuses fault (input_script bytes.now)) }
{
    let tree = input::input_tree(alloc, bytes)?;
    tree_text(alloc, &tree)
}

/// What `print` writes for the tree of a script.
fn tree_text(alloc: Global, tree: &Tree) -> Result<Vec<u8>, InputFault>
    ensures text { IfOk result (λ text. text.items ≡ document tree.now) }
    ensures script { OnOk result (IsOk (script_of tree.now)) }
    ensures fault { IfErr result (λ fault. Refuses fault (or_refused NoScript (script_of tree.now))) }
{
    input::tree_script(alloc, tree)?;
    let mut text = Vec::new(alloc);
    write_tree(tree, &mut text)?;
    Ok(text)
}

/// What a command writes for a script.
fn text_of(alloc: Global, inspection: Inspection, bytes: &[u8]) -> Result<Vec<u8>, InputFault>
    ensures ok { IfOk result (λ text. inspected inspection bytes.now ≡ record { text = text.items; is_refused = false }) }
    ensures fault { IfErr result (λ fault. Refuses fault (input_script bytes.now)) }
{
    match inspection {
        Inspection::Check => check_text(alloc, bytes),
        Inspection::Print => print_text(alloc, bytes),
    }
}

/// What a command answers to an input: its text for a script, or the line of the refusal.
pub(crate) fn answer_to(
    alloc: Global,
    inspection: Inspection,
    bytes: &[u8],
) -> Result<Answer, NoMemory>
    ensures { IfOk result (λ answer. due_of answer ≡ due (inspected inspection bytes.now)) }
{
    match text_of(alloc, inspection, bytes) {
        Ok(text) => Ok(Answer {
            text,
            status: Status::Ok,
        }),
        Err(InputFault::Refused(refusal)) => {
            let text = refusal_line(alloc, refusal)?;
            Ok(Answer {
                text,
                status: Status::Refused,
            })
        }
        Err(InputFault::NoMemory) => Err(NoMemory),
    }
}
