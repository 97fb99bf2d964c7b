//! The script that the command `load` runs, of n forks on one switch: each adds its number to a stream, yields, and adds it once more;
//! behind them one fiber takes and traces all that they add. The theorem is the clause of [`generate`].
//!
//! Each call that makes a part of the tree puts the pieces of that part behind the others.

#![tactic(auto, unfolding(script_tree::specs::Pieces::pieces, script_tree::specs::Pieces::row_pieces))]

ghost use Rattle.std.specs.Prelude.{◌≡◌, ◌≤◌, ◌*◌, [], ◌∷◌, ◌++◌, codes, IfOk, OnOk, Ok};
ghost use Rattle.spec_script.specs.Generator.{word, number, row_of, branch, generated_fork, generated_forks, generated_taker, generated_switch, generated};
ghost use Rattle.spec_script.specs.Limits.{most_load};
ghost use Rattle.spec_script.specs.Scripts.{script_of};
ghost use Rattle.spec_script.specs.Trees.{Text};
ghost use Rattle.script_tree.specs.Pieces.{pieces, row_pieces};
ghost use Rattle.script_forms.specs.declared.fault.ScriptFault.TheVariants as variant;

use crate::reader::read_script;
use eio_value::NoMemory;
use script_code::Script;
use script_forms::ScriptFault;
use script_tree::{Tree, TreeBuilder};
use std::alloc::Global;

/// The script of so many forks, of which there are 1 to 1,000.
///
/// # Errors
/// [`NoMemory`] where memory runs out.
pub fn generate(alloc: Global, forks: u32) -> Result<Script, NoMemory>
    requires { (1 ≤ forks) × (forks ≤ most_load) }
    ensures { IfOk result (λ script. script_of (generated forks) ≡ Ok script) }
{
    let tree = generated_tree(alloc, forks)?;
    match read_script(alloc, &tree) {
        Ok(script) => Ok(script),
        Err(fault) => Err(no_memory(fault)),
    }
}

/// The fault that is left where a tree is a script's.
fn no_memory(fault: ScriptFault) -> NoMemory
    requires { fault ≡ variant.NoMemory }
{
    match fault {
        ScriptFault::NoMemory => NoMemory,
        _ => unreachable!(),
    }
}

/// The tree of that script.
fn generated_tree(alloc: Global, forks: u32) -> Result<Tree, NoMemory>
    requires { forks ≤ most_load }
    ensures { IfOk result (λ tree. tree ≡ generated forks) }
{
    let mut tree = TreeBuilder::new(alloc);
    tree.form(b"eio")?;
    tree.number(1)?;
    push_stream(&mut tree)?;
    tree.form(b"main")?;
    push_switch(&mut tree, forks)?;
    tree.close()?;
    tree.close()?;
    Ok(tree.finish())
}

/// The stream, which has room for 4.
fn push_stream(tree: &mut TreeBuilder) -> Result<(), NoMemory>
    ensures { OnOk result (tree.new ≡ tree.old ++ pieces (branch (word (codes "stream") ∷ word (codes "q") ∷ number 4 ∷ []))) }
{
    tree.form(b"stream")?;
    tree.word(b"q")?;
    tree.number(4)?;
    tree.close()?;
    Ok(())
}

/// The switch with all that runs on it.
fn push_switch(tree: &mut TreeBuilder, forks: u32) -> Result<(), NoMemory>
    requires { forks ≤ most_load }
    ensures { OnOk result (tree.new ≡ tree.old ++ pieces (generated_switch forks)) }
{
    tree.form(b"switch")?;
    tree.word(b"s")?;
    push_forks(tree, forks)?;
    push_taker(tree, 2 * forks)?;
    push_done(tree)?;
    tree.close()?;
    Ok(())
}

/// The forks, of the numbers from 0.
fn push_forks(tree: &mut TreeBuilder, forks: u32) -> Result<(), NoMemory>
    ensures { OnOk result (tree.new ≡ tree.old ++ row_pieces (row_of (generated_forks forks 0))) }
{
    for at in 0..forks {
        push_fork(tree, at)?;
    }
    Ok(())
}

/// The fork of this number.
fn push_fork(tree: &mut TreeBuilder, at: u32) -> Result<(), NoMemory>
    ensures { OnOk result (tree.new ≡ tree.old ++ pieces (generated_fork at)) }
{
    tree.form(b"fork")?;
    tree.word(b"s")?;
    push_add(tree, at)?;
    tree.form(b"yield")?;
    tree.close()?;
    push_add(tree, at)?;
    tree.close()?;
    Ok(())
}

/// Adds a number to the stream.
fn push_add(tree: &mut TreeBuilder, at: u32) -> Result<(), NoMemory>
    ensures { OnOk result (tree.new ≡ tree.old ++ pieces (branch (word (codes "add") ∷ word (codes "q") ∷ number at ∷ []))) }
{
    tree.form(b"add")?;
    tree.word(b"q")?;
    tree.number(i64::from(at))?;
    tree.close()?;
    Ok(())
}

/// Takes and traces so many times.
fn push_taker(tree: &mut TreeBuilder, times: u32) -> Result<(), NoMemory>
    ensures { OnOk result (tree.new ≡ tree.old ++ pieces (generated_taker times)) }
{
    tree.form(b"repeat")?;
    tree.word(b"k")?;
    tree.number(i64::from(times))?;
    push_taking(tree)?;
    tree.form(b"trace")?;
    tree.word(b"x")?;
    tree.close()?;
    tree.close()?;
    Ok(())
}

/// Takes what the stream holds first.
fn push_taking(tree: &mut TreeBuilder) -> Result<(), NoMemory>
    ensures { OnOk result (tree.new ≡ tree.old ++ pieces (branch (word (codes "let") ∷ word (codes "x") ∷ branch (word (codes "take") ∷ word (codes "q") ∷ []) ∷ []))) }
{
    tree.form(b"let")?;
    tree.word(b"x")?;
    tree.form(b"take")?;
    tree.word(b"q")?;
    tree.close()?;
    tree.close()?;
    Ok(())
}

/// Traces that all is done.
fn push_done(tree: &mut TreeBuilder) -> Result<(), NoMemory>
    ensures { OnOk result (tree.new ≡ tree.old ++ pieces (branch (word (codes "trace") ∷ Text 0 (codes "done") ∷ []))) }
{
    tree.form(b"trace")?;
    tree.text(b"done")?;
    tree.close()?;
    Ok(())
}
