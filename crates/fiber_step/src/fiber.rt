//! A fiber between two calls: what it still has to do, and its variables.
//!
//! Work goes by the numbers of the script's nodes, the next item last. Where a fiber stands is said under the nodes of its
//! script (`position_of`).

ghost use Rattle.std.specs.Prelude.{◌≡◌, List};
ghost use Rattle.fiber_step.specs.Having.{HasStatements};
ghost use Rattle.fiber_step.specs.Framing.{position_of};
ghost use Rattle.fiber_step.specs.Placing.{ArePlaced};
ghost use Rattle.script_code.specs.Standing.{block_at};
ghost use Rattle.script_forms.specs.declared.node.Node.{Node};
ghost use Rattle.spec_fiber.specs.Replies.{begun, begun_promising};

use crate::item::Item;
use crate::mark::Mark;
use crate::variables::Variables;
use eio_value::{NoMemory, Value};
use std::alloc::Global;
use std::marker::Model;
use std::mem::replace;

/// The next item of work, taken.
#[derive(Clone, Copy)]
pub(crate) enum Taken {
    /// There is none.
    Nothing,
    Mark(Mark),
    /// The end of a handler: the fiber's own variables are back.
    Restored,
}

/// A fiber, by the numbers of the nodes of its script.
#[derive(Drop)]
pub struct Fiber {
    /// The next item last.
    work: Vec<Item>,
    variables: Variables,
}

impl Model for Fiber {
    ghost use Rattle.fiber_step.specs.Framing.{KeptFrames};

    ghost Value = { KeptFrames };

    ghost view = { λ inside. record { items = inside.work.items; variables = inside.variables } };
}

impl Fiber {
    ghost use Rattle.std.specs.Prelude.{length, IfOk, OnOk, OnErr};
    ghost use Rattle.fiber_step.specs.Turning.{Takes, cut_to, gone_into, handling, naming, with_mark};

    /// A fiber that has a block to run.
    ///
    /// # Errors
    /// [`NoMemory`] where memory runs out.
    pub fn new(alloc: Global, body: u32, variables: Variables) -> Result<Fiber, NoMemory>
        ensures position { IfOk result (λ it. (nodes : List Node) → position_of nodes it ≡ begun (block_at nodes body) variables) }
        ensures items { IfOk result (λ it. (nodes : List Node) → HasStatements nodes body → ArePlaced nodes it.items) }
    {
        let mut work = Vec::new(alloc);
        work.push(Item::Mark(Mark::Run(body)))?;
        Ok(Fiber { work, variables })
    }

    /// The same where its end resolves a promise first.
    ///
    /// # Errors
    /// [`NoMemory`] where memory runs out.
    pub fn promising(
        alloc: Global,
        promise: u32,
        body: u32,
        variables: Variables,
    ) -> Result<Fiber, NoMemory>
        ensures position { IfOk result (λ it. (nodes : List Node) → position_of nodes it ≡ begun_promising promise (block_at nodes body) variables) }
        ensures items { IfOk result (λ it. (nodes : List Node) → HasStatements nodes body → ArePlaced nodes it.items) }
    {
        let mut work = Vec::new(alloc);
        work.push(Item::Mark(Mark::Resolve { promise }))?;
        work.push(Item::Mark(Mark::Run(body)))?;
        Ok(Fiber { work, variables })
    }

    /// Its variables.
    pub fn variables(&self) -> &Variables
        ensures { result.now ≡ self.now.variables }
    {
        &self.variables
    }

    /// What its parts are allocated by.
    pub(crate) fn alloc(&self) -> Global {
        *self.work.allocator()
    }

    /// A copy of it.
    ///
    /// # Errors
    /// [`NoMemory`] where memory runs out.
    pub(crate) fn try_clone(&self) -> Result<Fiber, NoMemory>
        ensures { IfOk result (λ it. it ≡ self.now) }
    {
        let mut work = Vec::new(self.alloc());
        for item in self.work.as_slice() {
            work.push(item.try_clone()?)?;
        }
        let variables = self.variables.try_clone()?;
        Ok(Fiber { work, variables })
    }

    /// How many variables are in scope.
    pub(crate) fn slots(&self) -> usize
        ensures { result ≡ length self.now.variables }
    {
        self.variables.len()
    }

    /// Keeps the first variables alone.
    pub(crate) fn cut(&mut self, keep: usize)
        ensures { self.new ≡ cut_to keep self.old }
    {
        self.variables.cut(keep);
    }

    /// One more variable, in the next slot.
    ///
    /// # Errors
    /// [`NoMemory`] where memory runs out.
    pub(crate) fn name(&mut self, value: Value) -> Result<(), NoMemory>
        ensures { OnOk result (self.new ≡ naming value self.old) }
    {
        self.variables.push(value)
    }

    /// One more item, which is the next.
    ///
    /// # Errors
    /// [`NoMemory`] where memory runs out.
    pub(crate) fn push(&mut self, mark: Mark) -> Result<(), NoMemory>
        ensures { OnOk result (self.new ≡ with_mark mark self.old) }
    {
        self.work.push(Item::Mark(mark))?;
        Ok(())
    }

    /// Takes the next item. At the end of a handler the fiber's own variables are moved back.
    pub(crate) fn take(&mut self) -> Taken
        ensures { Takes self.old self.new result }
    {
        match self.work.pop() {
            None => Taken::Nothing,
            Some(Item::Mark(mark)) => Taken::Mark(mark),
            Some(Item::Restore(variables)) => {
                self.variables = variables;
                Taken::Restored
            }
        }
    }

    /// Goes before a block, with a mark at its end.
    ///
    /// # Errors
    /// [`NoMemory`] where memory runs out; then the fiber is as it was.
    pub(crate) fn go_into(&mut self, end: Mark, body: u32) -> Result<(), NoMemory>
        ensures ok { OnOk result (self.new ≡ gone_into end body self.old) }
        ensures err { OnErr result (self.new ≡ self.old) }
    {
        self.work.push(Item::Mark(end))?;
        if self.work.push(Item::Mark(Mark::Run(body))).is_err() {
            self.work.pop();
            return Err(NoMemory);
        }
        Ok(())
    }

    /// The same with a name in the next slot.
    ///
    /// # Errors
    /// [`NoMemory`] where memory runs out; then the fiber is as it was.
    pub(crate) fn go_into_with(
        &mut self,
        named: Value,
        end: Mark,
        body: u32,
    ) -> Result<(), NoMemory>
        ensures ok { OnOk result (self.new ≡ gone_into end body (naming named self.old)) }
        ensures err { OnErr result (self.new ≡ self.old) }
    {
        let before = self.variables.len();
        self.variables.push(named)?;
        if self.go_into(end, body).is_err() {
            self.variables.cut(before);
            return Err(NoMemory);
        }
        Ok(())
    }

    /// Goes before a handler of a switch that closes, which has the variables that it was registered with; the fiber's own are
    /// back behind it, and the switch closes on with the value of its body.
    ///
    /// # Errors
    /// [`NoMemory`] where memory runs out; then the fiber is as it was.
    pub(crate) fn go_into_handler(
        &mut self,
        closing: Mark,
        end: Mark,
        handler: u32,
        registered: Variables,
    ) -> Result<(), NoMemory>
        ensures ok { OnOk result (self.new ≡ handling closing end handler registered self.old) }
        ensures err { OnErr result (self.new ≡ self.old) }
    {
        self.work.reserve(4)?;
        let own = replace(&mut self.variables, registered);
        self.work.push_reserved(Item::Mark(closing));
        self.work.push_reserved(Item::Restore(own));
        self.work.push_reserved(Item::Mark(end));
        self.work.push_reserved(Item::Mark(Mark::Run(handler)));
        Ok(())
    }
}
