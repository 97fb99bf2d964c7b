//! What is made of a script while it is read: its nodes, its texts, and what stands beside them.
//!
//! Contracts see it as a `Drafted` of specs/. That its nodes can be numbered with 32 bits, and that the texts with which a fiber may
//! fail stand in its table (`HasFailures`), is its invariant.

ghost use Rattle.std.specs.Prelude.{◌≡◌, ◌+◌, ◌<◌, [], ◌∷◌, ◌++◌, length, slice_set, OnOk, IfOk};

use eio_value::{NoMemory, TextId, Texts};
use script_forms::{Formed, Node, ScriptFault};
use spec_script::Feature;
use std::alloc::Global;
use std::marker::Model;

/// What was made of a whole script.
#[derive(Drop)]
pub struct Finished {
    /// In reading order.
    pub nodes: Vec<Node>,
    /// The script's own texts.
    pub texts: Texts,
    /// The texts with which a fiber may fail.
    pub failures: Vec<TextId>,
    /// The forms, in reading order.
    pub formed: Vec<Formed>,
}

/// The most steps of all flows together.
const MOST_STEPS: u32 = 1024;

/// The most entries of all directories together.
const MOST_ENTRIES: u32 = 1024;

/// What is made of a script so far.
#[derive(Drop)]
pub struct Draft {
    /// What all of it is allocated by.
    alloc: Global,
    nodes: Vec<Node>,
    texts: Texts,
    /// The texts with which a fiber may fail.
    failures: Vec<TextId>,
    formed: Vec<Formed>,
    /// How many steps all flows have, and how many entries all directories.
    steps: u32,
    entries: u32,
}

impl Model for Draft {
    ghost use Rattle.std.specs.Prelude.{◌<◌, ◌^◌, length};
    ghost use Rattle.script_draft.specs.Drafts.{Drafted};

    ghost Value = { Drafted };

    ghost view = { λ inside. record { nodes = inside.nodes.items; texts = inside.texts; failures = inside.failures.items; formed = inside.formed.items; steps = inside.steps; entries = inside.entries } };

    ghost use Rattle.script_forms.specs.Failures.{HasFailures};

    ghost invariant = { λ inside. (length inside.nodes.items < 2 ^ 32) × HasFailures inside.texts inside.failures.items };
}

impl Draft {
    ghost use Rattle.std.specs.Prelude.{◌≡◌, ◌+◌, ◌<◌, ◌^◌, [], ◌∷◌, ◌++◌, length, slice_set, OnOk, IfOk};
    ghost use Rattle.eio_value.specs.Table.{intern};
    ghost use Rattle.script_draft.specs.Drafts.{nothing_drafted};
    ghost use Rattle.script_forms.specs.Failures.{HasFailures};
    ghost use Rattle.spec_script.specs.Reads.{one_step, one_entry};
    ghost use Rattle.script_draft.specs.Readings.{Makes};
    ghost use Rattle.script_forms.specs.declared.node.Node.TheVariants.{End};

    /// Nothing yet.
    pub fn new(alloc: Global) -> Draft
        ensures { result ≡ nothing_drafted }
    {
        Draft {
            alloc,
            nodes: Vec::new(alloc),
            texts: Texts::new(alloc),
            failures: Vec::new(alloc),
            formed: Vec::new(alloc),
            steps: 0,
            entries: 0,
        }
    }

    /// What all of it is allocated by.
    pub fn alloc(&self) -> Global {
        self.alloc
    }

    /// The number that the next node has.
    pub fn next(&self) -> u32
        ensures { result ≡ length self.now.nodes }
    {
        self.nodes.len() as u32
    }

    /// One more node.
    pub fn push(&mut self, node: Node) -> Result<(), NoMemory>
        ensures { OnOk result (self.new ≡ record self.old { nodes = self.old.nodes ++ node ∷ [] }) }
    {
        if self.nodes.len() >= u32::MAX as usize {
            return Err(NoMemory);
        }
        self.nodes.push(node)?;
        Ok(())
    }

    /// A place for one more node, by its number, which is filled once what belongs to the node was read.
    pub fn open(&mut self) -> Result<u32, NoMemory>
        ensures place { IfOk result (λ at. at ≡ length self.old.nodes) }
        ensures opened { OnOk result (self.new ≡ record self.old { nodes = self.old.nodes ++ End ∷ [] }) }
    {
        let at = self.next();
        self.push(Node::End)?;
        Ok(at)
    }

    /// Fills the place of this number.
    pub fn fill(&mut self, at: u32, node: Node)
        requires { at < length self.old.nodes }
        ensures { self.new ≡ record self.old { nodes = slice_set self.old.nodes at node } }
    {
        self.nodes[at as usize] = node;
    }

    /// One more form.
    pub fn form(&mut self, at: u32, feature: Feature, mocked: bool) -> Result<(), NoMemory>
        ensures { OnOk result (self.new ≡ record self.old { formed = self.old.formed ++ record { at = at; feature = feature; mocked = mocked } ∷ [] }) }
    {
        self.formed.push(Formed {
            at,
            feature,
            mocked,
        })?;
        Ok(())
    }

    /// The number of a text in the table, new or old.
    pub fn text(&mut self, bytes: &[u8]) -> Result<TextId, NoMemory>
        ensures number { IfOk result (λ id. id ≡ (intern self.old.texts bytes.now).id) }
        ensures table { OnOk result (self.new ≡ record self.old { texts = (intern self.old.texts bytes.now).texts }) }
    {
        if self.texts.len() >= u32::MAX as usize {
            return Err(NoMemory);
        }
        self.texts.intern(bytes)
    }

    /// The number of a text with which a fiber may fail, new or old.
    pub fn failure(&mut self, bytes: &[u8]) -> Result<TextId, NoMemory>
        ensures number { IfOk result (λ id. id ≡ (intern self.old.texts bytes.now).id) }
        ensures listed { IfOk result (λ id. self.new ≡ record self.old { texts = (intern self.old.texts bytes.now).texts; failures = self.old.failures ++ id ∷ [] }) }
    {
        let id = self.text(bytes)?;
        self.failures.push(id)?;
        Ok(id)
    }

    /// One more step of a flow, whose place is `at`.
    ///
    /// # Errors
    /// `Size` where as many steps were read as may be.
    pub fn step(&mut self, at: u32) -> Result<(), ScriptFault>
        ensures { Makes (λ unit. unit) result (one_step at) self.old self.new }
    {
        if self.steps >= MOST_STEPS {
            return Err(ScriptFault::Size(at));
        }
        self.steps += 1;
        Ok(())
    }

    /// One more entry of a directory, whose place is `at`.
    ///
    /// # Errors
    /// `Size` where as many entries were read as may be.
    pub fn entry(&mut self, at: u32) -> Result<(), ScriptFault>
        ensures { Makes (λ unit. unit) result (one_entry at) self.old self.new }
    {
        if self.entries >= MOST_ENTRIES {
            return Err(ScriptFault::Size(at));
        }
        self.entries += 1;
        Ok(())
    }

    /// What was made, once all was read.
    pub fn finish(self) -> Finished
        ensures nodes { result.nodes.items ≡ self.nodes }
        ensures few { length self.nodes < 2 ^ 32 }
        ensures texts { result.texts ≡ self.texts }
        ensures failures { result.failures.items ≡ self.failures }
        ensures listed { HasFailures self.texts self.failures }
        ensures formed { result.formed.items ≡ self.formed }
    {
        let Draft {
            nodes,
            texts,
            failures,
            formed,
            ..
        } = self;
        Finished {
            nodes,
            texts,
            failures,
            formed,
        }
    }
}
