//! The contexts of a domain and the fibers that wait in them, as callers see them.
//!
//! Seen as `spec_parts`'s `Contexts`: all contexts that were made, by number, and the waiting fibers in order of number. Of a
//! context that has ended nothing is kept, so it is seen as what stands under a number that no context has; `forgets_nothing_live`
//! says that no call of the definitions tells the difference. The theorems are the clauses of the methods of [`Contexts`].

ghost use Rattle.std.specs.Prelude.{◌≡◌, ◌<◌, ◌≤◌, ◌+◌, ◌-◌, ◌^◌, ◌++◌, length, true, false, IfOk, vec_len, vec_capacity};
ghost use Rattle.std.specs.Result.{result_ok};
ghost use Rattle.spec_parts.specs.Contexts as contexts;
ghost use Rattle.spec_parts.specs.ContextCalls as calls;
ghost use Rattle.cancel_tree.specs.Ended.{left_by_end};
ghost use Rattle.cancel_tree.specs.Endings.{HasNoLiveChild};
ghost use Rattle.cancel_tree.specs.Waits.{waits, waits_in};

use crate::tree::Tree;
use crate::waiters::Waiters;
use eio_value::{Full, NoMemory, Plain};
use std::alloc::Global;
use std::marker::Model;

/// The contexts of a domain, and its waiting fibers.
///
/// At most 4,096 contexts live and at most 1,024 fibers wait at a time. A context is a number, and no number is used again.
#[derive(Drop)]
pub struct Contexts {
    tree: Tree,
    waiters: Waiters,
}

impl Model for Contexts {
    ghost use Rattle.spec_parts.specs.ContextCalls as calls;

    ghost Value = { calls.Contexts };

    ghost view = { λ c. record { made = c.tree; waiting = c.waiters } };
}

impl Contexts {
    /// No contexts, and room for as many as may live and for as many fibers as may wait. No other call takes memory.
    pub fn new(alloc: Global) -> Result<Contexts, NoMemory>
        ensures { IfOk result (λ made. made ≡ calls.no_contexts) }
    {
        let tree = Tree::new(alloc)?;
        let waiters = Waiters::new(alloc)?;
        Ok(Contexts { tree, waiters })
    }

    /// A new context without a parent.
    pub fn root(&mut self) -> Result<u32, Full>
        requires { length self.old.made < 2 ^ 32 - 1 }
        ensures number { result_ok result ≡ (contexts.root self.old.made).number }
        ensures after { self.new ≡ calls.called calls.Root self.old }
    {
        self.tree.make(None, false)
    }

    /// A new context, which is off where its parent is.
    pub fn sub(&mut self, parent: u32) -> Result<u32, Full>
        requires countable { length self.old.made < 2 ^ 32 - 1 }
        requires live { contexts.is_live self.old.made parent ≡ true }
        ensures number { result_ok result ≡ (contexts.sub parent self.old.made).number }
        ensures after { self.new ≡ calls.called (calls.Sub parent) self.old }
    {
        self.tree.make(Some(parent), false)
    }

    /// A new context, which isn't reached by what is cancelled above it.
    pub fn protect(&mut self, parent: u32) -> Result<u32, Full>
        requires countable { length self.old.made < 2 ^ 32 - 1 }
        requires live { contexts.is_live self.old.made parent ≡ true }
        ensures number { result_ok result ≡ (contexts.protect parent self.old.made).number }
        ensures after { self.new ≡ calls.called (calls.Protect parent) self.old }
    {
        self.tree.make(Some(parent), true)
    }

    /// Whether the context was made and hasn't ended.
    pub fn is_live(&self, c: u32) -> bool
        ensures { result ≡ contexts.is_live self.now.made c }
    {
        self.tree.is_live(c)
    }

    /// Whether as many contexts live as may: no other can be made.
    pub fn is_full(&self) -> bool
        ensures { result ≡ contexts.is_full self.now.made }
    {
        self.tree.is_full()
    }

    /// The reason by which the context is off.
    pub fn is_off(&self, c: u32) -> Option<Plain>
        requires { contexts.is_live self.now.made c ≡ true }
        ensures { result ≡ contexts.off self.now.made c }
    {
        self.tree.off(c)
    }

    /// The parent of the context; `None` for one without a parent.
    pub fn parent(&self, c: u32) -> Option<u32>
        requires { contexts.is_live self.now.made c ≡ true }
        ensures { result ≡ (contexts.context_at self.now.made c).parent }
    {
        self.tree.parent(c)
    }

    /// Cancels the context for this reason, if it is live and isn't off; whether it did.
    pub fn cancel(&mut self, c: u32, why: Plain) -> bool
        ensures took { result ≡ contexts.takes_effect self.old.made c }
        ensures after { self.new ≡ calls.called (calls.Cancel c why) self.old }
    {
        self.tree.cancel(c, why)
    }

    /// The fiber waits, in this context.
    pub fn wait(&mut self, c: u32, fiber: u32)
        requires live { contexts.is_live self.old.made c ≡ true }
        requires out { waits fiber self.old.waiting ≡ false }
        requires room { length self.old.waiting < 1024 }
        ensures { self.new ≡ calls.called (calls.Wait c fiber) self.old }
    {
        self.waiters.enter(fiber, c)
    }

    /// The fiber no longer waits.
    pub fn unwait(&mut self, fiber: u32)
        requires { waits fiber self.old.waiting ≡ true }
        ensures { self.new ≡ calls.called (calls.Unwait fiber) self.old }
    {
        self.waiters.leave(fiber)
    }

    /// Appends the waiting fibers that a cancellation of the context reaches, in order of number.
    pub fn members(&self, c: u32, out: &mut Vec<u32>)
        requires { vec_len out.old + 1024 ≤ vec_capacity out.old }
        ensures reached { out.new.items ≡ out.old.items ++ calls.members self.now c }
        ensures capacity { vec_capacity out.old ≤ vec_capacity out.new }
    {
        for waiting in self.waiters.entered().iter() {
            if self.tree.goes_up_to(waiting.context, c) {
                out.push_reserved(waiting.fiber);
            }
        }
    }

    /// Cancels the context for this reason, and appends the waiting fibers that this strikes, in order of number: those that it
    /// reaches, where it takes effect, else none.
    pub fn strike(&mut self, c: u32, why: Plain, out: &mut Vec<u32>)
        requires room { vec_len out.old + 1024 ≤ vec_capacity out.old }
        ensures after { self.new ≡ calls.called (calls.Cancel c why) self.old }
        ensures struck { out.new.items ≡ out.old.items ++ contexts.to_be_struck self.old.made self.old.waiting c }
        ensures capacity { vec_capacity out.old ≤ vec_capacity out.new }
    {
        if self.cancel(c, why) {
            self.members(c, out);
        }
    }

    /// The context ends. Its number stays its own.
    pub fn end(&mut self, c: u32)
        requires live { contexts.is_live self.old.made c ≡ true }
        requires childless { HasNoLiveChild self.old.made c }
        requires idle { waits_in c self.old.waiting ≡ false }
        ensures { self.new ≡ left_by_end c self.old }
    {
        self.tree.end(c)
    }
}
