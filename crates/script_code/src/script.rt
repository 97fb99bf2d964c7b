//! A script that was read: its nodes with the table of texts that it starts with, and the tree that it was read from.
//!
//! Invariant: the tree is read as this script, and the nodes are those of its bodies, one body behind the other from node 0.
//! The theorems are the clauses of the calls on its parts and those of [`Script::new`].

ghost use Rattle.std.specs.Prelude.{◌≡◌};

use crate::opening::opening;
use crate::table::copy_of;
use eio_value::{NoMemory, TextId, Texts};
use script_forms::{Decl, Formed, Node, limits_of};
use script_tree::Tree;
use spec_script::Limits;
use std::alloc::Global;
use std::marker::Model;

/// A script.
#[derive(Drop)]
pub struct Script {
    /// What it was read from.
    tree: Tree,
    version: u32,
    names: Vec<TextId>,
    declarations: Vec<Decl>,
    nodes: Vec<Node>,
    /// The numbers of the first nodes of the bodies.
    bodies: Vec<u32>,
    /// The texts of the script, and those behind them that a `try` can bind.
    table: Texts,
    own_texts: usize,
    /// The texts with which a fiber may fail.
    failures: Vec<TextId>,
    formed: Vec<Formed>,
    first_domain: Option<u32>,
}

impl Model for Script {
    ghost use Rattle.spec_script.specs.Scripts as model;
    ghost use Rattle.script_code.specs.ScriptCode.{script_code};

    ghost Value = { model.Script };

    ghost coded = { script_code };

    ghost use Rattle.script_code.specs.ScriptInside.{view_of, IsWhole};

    ghost view = { view_of };

    ghost invariant = { IsWhole };
}

/// What was read of a script.
#[derive(Drop)]
pub struct Parts {
    /// What it was read from.
    pub tree: Tree,
    /// The version of the notation.
    pub version: u32,
    /// The names of what it declares, in order.
    pub names: Vec<TextId>,
    /// What it declares, in order.
    pub declarations: Vec<Decl>,
    /// Its nodes, one body behind the other.
    pub nodes: Vec<Node>,
    /// The numbers of the first nodes of the bodies.
    pub bodies: Vec<u32>,
    /// Its own texts.
    pub texts: Texts,
    /// The texts with which a fiber may fail.
    pub failures: Vec<TextId>,
    /// Its forms, in reading order.
    pub formed: Vec<Formed>,
    /// The place of the first body behind main.
    pub first_domain: Option<u32>,
}

impl Script {
    ghost use Rattle.std.specs.Prelude.{◌≡◌, ◌<◌, ◌≤◌, ◌^◌, Ok, Some, length, map, slice_get, IfOk};
    ghost use Rattle.spec_script.specs.Limits.{limits_of};
    ghost use Rattle.spec_script.specs.Opening.{opening_texts};
    ghost use Rattle.spec_script.specs.Scripts.{Script as Read, script_of};
    ghost use Rattle.law_script.specs.Scripts.Soundness.{IsSound};
    ghost use Rattle.script_forms.specs.Declaring.{declaration_of};
    ghost use Rattle.script_forms.specs.Flat.{nodes_of};
    ghost use Rattle.script_code.specs.Numbered.{HasNumbers};
    ghost use Rattle.script_code.specs.ScriptInside.{IsRead, IsScriptOf};
    ghost use Rattle.script_code.specs.Standing.{block_at, GoesOn, Stands};
    ghost use Rattle.script_code.specs.Texted.{HasDeclaredTexts, HasTextOfNode};

    /// The script that was read.
    ///
    /// # Errors
    /// [`NoMemory`] where memory runs out, or the numbers of 32 bits.
    pub fn new(alloc: Global, parts: Parts) -> Result<Script, NoMemory>
        requires { IsRead parts }
        ensures { (script : Read) → IsScriptOf script parts → IfOk result (λ it. it ≡ script) }
    {
        let own_texts = parts.texts.len();
        let table = opening(alloc, parts.texts, &parts.failures)?;
        Ok(Script {
            tree: parts.tree,
            version: parts.version,
            names: parts.names,
            declarations: parts.declarations,
            nodes: parts.nodes,
            bodies: parts.bodies,
            table,
            own_texts,
            failures: parts.failures,
            formed: parts.formed,
            first_domain: parts.first_domain,
        })
    }

    /// The forms, in reading order.
    pub(crate) fn formed(&self) -> &[Formed]
        ensures { result.now ≡ self.now.formed }
    {
        &self.formed
    }

    /// The place of the first body behind main.
    pub(crate) fn first_domain(&self) -> Option<u32>
        ensures { result ≡ self.now.first_domain }
    {
        self.first_domain
    }

    /// The version of the notation that it is written in.
    pub fn version(&self) -> u32
        ensures { result ≡ self.now.version }
    {
        self.version
    }

    /// How many of a thing it may have, and its runs.
    pub fn limits(&self) -> Limits
        ensures { result ≡ limits_of self.now.version }
    {
        limits_of(self.version)
    }

    /// The names of what it declares, in order.
    pub fn names(&self) -> &[TextId]
        ensures names { result.now ≡ self.now.names }
        ensures texts { HasDeclaredTexts self.now }
    {
        &self.names
    }

    /// What it declares, in order.
    pub fn declarations(&self) -> &[Decl]
        ensures { map declaration_of result.now ≡ self.now.declarations }
    {
        &self.declarations
    }

    /// How many bodies it has; main is the first.
    pub fn bodies(&self) -> u8
        ensures bodies { result ≡ length self.now.bodies }
        ensures few { length (nodes_of self.now) < 2 ^ 32 }
    {
        self.bodies.len() as u8
    }

    /// The number of the first node of a body.
    pub fn body(&self, number: u8) -> u32
        requires { number < length self.now.bodies }
        ensures body { slice_get self.now.bodies number ≡ Some (block_at (nodes_of self.now) result) }
        ensures node { result < length (nodes_of self.now) }
    {
        self.bodies[number as usize]
    }

    /// The node of this number.
    pub fn node(&self, number: u32) -> &Node
        requires { number < length (nodes_of self.now) }
        ensures node { slice_get (nodes_of self.now) number ≡ Some result.now }
        ensures stands { Stands (nodes_of self.now) number result.now }
        ensures text { HasTextOfNode (length self.now.texts) result.now }
        ensures goes_on { GoesOn (length (nodes_of self.now)) number result.now }
        ensures few { length (nodes_of self.now) < 2 ^ 32 }
    {
        &self.nodes[number as usize]
    }

    /// A law: it is sound. Each of its names stands for what its place wants, and each number is within its limits; and each
    /// block has the number of the node that it begins with.
    pub fn is_sound(&self)
        ensures sound { IsSound self.now }
        ensures numbers { HasNumbers self.now }
    {
        self.tree.numbers_fit();
    }

    /// A copy of the table of texts that it starts with: its own texts, in which its numbers of texts count, and those that a `try`
    /// can bind.
    ///
    /// # Errors
    /// [`NoMemory`] where memory runs out.
    pub fn texts_of(&self, alloc: Global) -> Result<Texts, NoMemory>
        ensures table { IfOk result (λ texts. texts ≡ opening_texts self.now) }
        ensures own { IfOk result (λ texts. length self.now.texts ≤ length texts) }
    {
        copy_of(alloc, &self.table)
    }

    /// A tree that is read as this script.
    ///
    /// # Errors
    /// [`NoMemory`] where memory runs out.
    pub fn to_tree(&self, alloc: Global) -> Result<Tree, NoMemory>
        ensures { IfOk result (λ tree. script_of tree ≡ Ok self.now) }
    {
        self.tree.copy(alloc)
    }
}
