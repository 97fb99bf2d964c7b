//! The tree and the script of an input. Of several refusals the first is answered: the size of the input, its tree, its script.
ghost use Rattle.std.specs.Prelude.{◌≡◌, Ok, IfOk, IfErr};
ghost use Rattle.spec_script.specs.Refusals as refusals;
ghost use Rattle.spec_script.specs.Refusals.{NoScript, or_refused};
ghost use Rattle.spec_script.specs.Inputs as inputs;
ghost use Rattle.spec_script.specs.Scripts.{script_of};
ghost use Rattle.script_input.specs.Refusals.{Refuses};

use crate::fault::{InputFault, refused};
use crate::refusal::Kind;
use script_lang::{Script, read_script};
use script_tree::{Tree, read_tree};
use std::alloc::Global;

/// The most bytes that an input may have.
const MOST_BYTES: usize = 262_144;

/// The tree that an input spells.
///
/// # Errors
/// The refusal of the input, which is too long or spells no tree; `NoMemory` where memory runs out.
pub fn input_tree(alloc: Global, bytes: &[u8]) -> Result<Tree, InputFault>
    ensures ok { IfOk result (λ tree. refusals.input_tree bytes.now ≡ Ok tree) }
    ensures fault { IfErr result (λ fault. Refuses fault (refusals.input_tree bytes.now)) }
{
    if MOST_BYTES < bytes.len() {
        return Err(refused(Kind::Size, MOST_BYTES as u32));
    }
    let tree = read_tree(alloc, bytes)?;
    Ok(tree)
}

/// The script that an input is.
///
/// # Errors
/// The refusal of the input, which is too long, spells no tree, or spells one that is no script; `NoMemory` where memory runs out.
pub fn input_script(alloc: Global, bytes: &[u8]) -> Result<Script, InputFault>
    ensures ok { IfOk result (λ script. inputs.input_script bytes.now ≡ Ok script) }
    ensures fault { IfErr result (λ fault. Refuses fault (inputs.input_script bytes.now)) }
{
    let tree = input_tree(alloc, bytes)?;
    tree_script(alloc, &tree)
}

/// The script that a tree is.
///
/// # Errors
/// The refusal of a tree that is no script; `NoMemory` where memory runs out.
pub(crate) fn tree_script(alloc: Global, tree: &Tree) -> Result<Script, InputFault>
    ensures ok { IfOk result (λ script. script_of tree.now ≡ Ok script) }
    ensures fault { IfErr result (λ fault. Refuses fault (or_refused NoScript (script_of tree.now))) }
{
    let script = read_script(alloc, tree)?;
    Ok(script)
}
