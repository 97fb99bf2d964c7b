//! How a fiber goes into the block of a call that was answered.

ghost use Rattle.std.specs.Prelude.{◌≡◌, ◌<◌, ◌≤◌, length, map, List, OnOk, OnErr};
ghost use Rattle.std.specs.List.{AllByRecursion as Each};
ghost use Rattle.fiber_step.specs.Entering.{HasBranches};
ghost use Rattle.fiber_step.specs.Having.{HasStatements};
ghost use Rattle.fiber_step.specs.Placing.{ArePlaced};
ghost use Rattle.fiber_step.specs.Stepping.{HasBranchBodies, HasBodiesOf};
ghost use Rattle.fiber_step.specs.Framing.{position_of};
ghost use Rattle.fiber_step.specs.Standing.{ask_of, branches_at};
ghost use Rattle.script_forms.specs.Flat.{nodes_of};
ghost use Rattle.script_code.specs.Standing.{block_at};
ghost use Rattle.script_forms.specs.declared.node.Node.{Node as Begun};
ghost use Rattle.spec_fiber.specs.Replies as model;
ghost use Rattle.spec_fiber.specs.Silent.{blocks_of};

use crate::ask::Ask;
use crate::fiber::Fiber;
use crate::mark::Mark;
use crate::variables::Variables;
use eio_value::{NoMemory, Value};
use script_code::Script;
use script_forms::Node;

/// The blocks of the branches of a form, in the order that they stand in, each by the node that it begins with. The last one is
/// the one that the caller runs.
pub fn branch_bodies(script: &Script, form: u32) -> &[u32]
    requires some { HasBranches (nodes_of script.now) form }
    requires begin { HasBranchBodies (nodes_of script.now) form }
    ensures blocks { map (block_at (nodes_of script.now)) result.now ≡ blocks_of (branches_at (nodes_of script.now) form) }
    ensures begin { Each (HasStatements (nodes_of script.now)) result.now }
    ensures some { 1 ≤ length result.now }
{
    match script.node(form) {
        Node::Branches { blocks, .. } => blocks.as_slice(),
        _ => unreachable!(),
    }
}

/// The block that the caller runs of the branches of a form.
fn own_branch(script: &Script, form: u32) -> u32
    requires some { HasBranches (nodes_of script.now) form }
    requires begin { HasBranchBodies (nodes_of script.now) form }
    ensures block { block_at (nodes_of script.now) result ≡ model.own_branch (blocks_of (branches_at (nodes_of script.now) form)) }
    ensures begins { HasStatements (nodes_of script.now) result }
{
    match script.node(form) {
        Node::Branches { blocks, .. } => match blocks.as_slice().last() {
            Some(own) => *own,
            None => unreachable!(),
        },
        _ => unreachable!(),
    }
}

impl Fiber {
    /// Goes before the block of a call that was answered with this number: of the new context, switch, group, reader, writer or
    /// directory. Other calls have no block to go into.
    ///
    /// # Errors
    /// [`NoMemory`] where memory runs out; then the fiber is as it was.
    pub fn enter(&mut self, script: &Script, ask: &Ask, number: u32) -> Result<(), NoMemory>
        requires bodies { HasBodiesOf (nodes_of script.now) ask.now }
        requires items { ArePlaced (nodes_of script.now) self.old.items }
        ensures ok { OnOk result (position_of (nodes_of script.now) self.new ≡ model.entered (ask_of (nodes_of script.now) ask.now) number (position_of (nodes_of script.now) self.old).work self.old.variables) }
        ensures items { OnOk result (ArePlaced (nodes_of script.now) self.new.items) }
        ensures err { OnErr result (self.new ≡ self.old) }
    {
        let keep = self.variables().len();
        let named = Value::Int(number as i64);
        match *ask {
            Ask::Sub { body } => {
                self.go_into_with(Value::Ctx(number), Mark::leaving(number, false, keep), body)
            }
            Ask::Protect { body } => self.go_into(Mark::leaving(number, false, keep), body),
            Ask::OnRelease { handler, .. } => {
                self.go_into(Mark::leaving(number, true, keep), handler)
            }
            Ask::Switch { body } => {
                let switch = number;
                self.go_into_with(Value::Switch(switch), Mark::Close { switch, keep }, body)
            }
            Ask::Branches { form, .. } => {
                let group = number;
                self.go_into(Mark::Join { group, keep }, own_branch(script, form))
            }
            Ask::OpenReader { body, .. } => {
                let reader = number;
                self.go_into_with(named, Mark::ShutReader { reader, keep }, body)
            }
            Ask::OpenWriter { body, .. } => {
                let writer = number;
                self.go_into_with(named, Mark::ShutWriter { writer, keep }, body)
            }
            Ask::OpenDirectory { body, .. } => {
                self.go_into_with(named, Mark::Cut { keep }, body)
            }
            _ => Ok(()),
        }
    }

    /// Goes before a handler of the switch that this call closes, in a context of this number, with the variables that the handler
    /// was registered with. Another call leaves the fiber as it is.
    ///
    /// # Errors
    /// [`NoMemory`] where memory runs out; then the fiber is as it was.
    pub fn handle(
        &mut self,
        ask: &Ask,
        context: u32,
        handler: u32,
        registered: Variables,
    ) -> Result<(), NoMemory>
        ensures ok { OnOk result ((nodes : List Begun) → position_of nodes self.new ≡ model.handled (ask_of nodes ask.now) context (block_at nodes handler) registered (position_of nodes self.old).work self.old.variables) }
        ensures items { OnOk result ((nodes : List Begun) → ArePlaced nodes self.old.items → HasStatements nodes handler → ArePlaced nodes self.new.items) }
        ensures err { OnErr result (self.new ≡ self.old) }
    {
        let Ask::Close { switch, kept, .. } = *ask else {
            return Ok(());
        };
        let keep = registered.len();
        self.go_into_handler(
            Mark::Closing { switch, kept },
            Mark::Leave {
                context,
                late: false,
                keep,
            },
            handler,
            registered,
        )
    }
}
