//! Rows of scripts: `script | INPUT` says whether the input is a script; `again | INPUT` has the tree of the script that was read, in its
//! canonical spelling, and how many bodies it has when it is read again; `refused | INPUT` where the first form stands that is for the
//! mocked domain alone, the first body behind main, the first form that isn't one of the first forms, and the first that comes with the
//! features behind streams; `parts | INPUT` what the script says of its parts; `text TEXT | INPUT` whether the text is one of those that
//! its run may need; `generate` has the script that `load` runs, of two forks.

ghost use Rattle.std.specs.Prelude.{◌≤◌};

use crate::trees::{push_fault, push_spelling};
use crate::unanswered::Unanswered;
use eio_value::{TextId, Texts};
use script_input::input_script;
use script_lang::{Decl, Node, ObjectCallWith, Script, generate, read_script};
use spec_script::Feature;
use std::alloc::{AllocError, Global};

/// The features up to streams and promises.
const UP_TO_STREAMS: [Feature; 5] = [
    Feature::FirstForms,
    Feature::Exceptions,
    Feature::Switches,
    Feature::Groups,
    Feature::StreamsAndPromises,
];

/// Shows the script when its tree is read again.
fn push_again(alloc: Global, script: &Script, out: &mut String) -> Result<(), Unanswered> {
    let tree = script.to_tree(alloc)?;
    push_spelling(alloc, &tree, out)?;
    let again = read_script(alloc, &tree).map_err(|_| Unanswered)?;
    write!(out, "  {} bodies\n", again.bodies())?;
    Ok(())
}

/// Shows where the forms stand that commands refuse.
fn push_refused(script: &Script, out: &mut String) -> Result<(), AllocError> {
    let mock = script.mock_only();
    let domain = script.domain_only();
    let first = script.unbuilt(&[Feature::FirstForms]);
    let streams = script.unbuilt(&UP_TO_STREAMS);
    write!(out, "  {mock:?} {domain:?} {first:?} {streams:?}\n")
}

/// A word for what is declared.
fn declared_word(declaration: &Decl) -> &'static str {
    match declaration {
        Decl::Stream(4) => " stream 4",
        _ => " other",
    }
}

/// A word for the first node of a body.
fn node_word(node: &Node) -> &'static str {
    match node {
        Node::LetForm => "let",
        Node::OnObjectWith {
            call: ObjectCallWith::Add,
            object: 0,
        } => "add 0",
        _ => "other",
    }
}

/// Shows the number of the first node of a body, and the node.
fn push_body(script: &Script, number: u8, out: &mut String) -> Result<(), AllocError> {
    // For the proof alone: `push_parts` goes over the bodies that there are.
    if script.bodies() <= number {
        return Ok(());
    }
    let first = script.body(number);
    let word = node_word(script.node(first));
    write!(out, ", {first} {word}")
}

/// Only of types that threads may share.
fn may_be_shared<T: Sync>(_shared: &T) {}

/// Shows what a script, which threads may share, says of its parts.
fn push_parts(script: &Script, out: &mut String) -> Result<(), AllocError> {
    may_be_shared(script);
    write!(out, "  {} names,", script.names().len())?;
    for declaration in script.declarations() {
        out.push_str(declared_word(declaration))?;
    }
    for number in 0..script.bodies() {
        push_body(script, number, out)?;
    }
    out.push('\n')
}

/// Whether a table has a text.
fn has(texts: &Texts, text: &[u8]) -> bool {
    for number in 0..texts.len() {
        if let Ok(number) = u32::try_from(number)
            && texts.bytes(TextId(number)) == text
        {
            return true;
        }
    }
    false
}

/// Says whether a text is one of those of a script, and how many these are.
fn push_has(
    alloc: Global,
    script: &Script,
    text: &str,
    out: &mut String,
) -> Result<(), Unanswered> {
    let texts = script.texts_of(alloc)?;
    let is_there = has(&texts, text.as_bytes());
    write!(out, "  {is_there}, of {}\n", texts.len())?;
    Ok(())
}

/// Shows the generated script of two forks.
fn push_generated(alloc: Global, out: &mut String) -> Result<(), Unanswered> {
    let script = generate(alloc, 2)?;
    push_spelling(alloc, &script.to_tree(alloc)?, out)
}

/// What a script is answered.
fn push_answer(
    alloc: Global,
    kind: &str,
    word: &str,
    script: &Script,
    out: &mut String,
) -> Result<(), Unanswered> {
    match kind {
        "script" => Ok(out.push_str("  read\n")?),
        "again" => push_again(alloc, script, out),
        "refused" => Ok(push_refused(script, out)?),
        "parts" => Ok(push_parts(script, out)?),
        "text" => push_has(alloc, script, word, out),
        _ => Err(Unanswered),
    }
}

/// The answer to a row.
pub(crate) fn answer(
    alloc: Global,
    kind: &str,
    word: &str,
    input: &str,
    out: &mut String,
) -> Result<(), Unanswered> {
    if kind == "generate" {
        return push_generated(alloc, out);
    }
    match input_script(alloc, input.as_bytes()) {
        Err(fault) => push_fault(alloc, fault, out),
        Ok(script) => push_answer(alloc, kind, word, &script, out),
    }
}
