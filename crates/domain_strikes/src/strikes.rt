//! The strikes that are owed.

ghost use Rattle.std.specs.Prelude.{◌≡◌, ◌↔◌, [], ◌∷◌, ◌++◌, map, IfOk, IfSome, IfNone, IsTrue};
ghost use Rattle.spec_parts.specs.Contexts as model;
ghost use Rattle.spec_parts.specs.ContextCalls as calls;
ghost use Rattle.spec_machine.specs.Steps.{strike_by};
ghost use Rattle.domain_strikes.specs.Owing.{StrikesAtOnce};

use cancel_tree::Contexts;
use eio_value::{NoMemory, Plain};
use std::alloc::Global;
use std::marker::Model;

/// The most fibers that may wait, and so be struck for one cancellation.
const MOST_STRUCK: usize = 1024;

/// A strike that is made: on a fiber, for a call of another one.
#[derive(Clone, Copy)]
pub struct Strike {
    pub maker: u32,
    pub fiber: u32,
}

/// The strikes that a domain owes, the one that is made next first.
#[derive(Drop)]
pub struct Strikes {
    /// The fiber whose call made the cancellation.
    maker: u32,
    /// Those that it reached.
    fibers: Vec<u32>,
    /// How many of them were struck.
    struck: usize,
}

impl Model for Strikes {
    ghost use Rattle.std.specs.Prelude.{◌≤◌, List, vec_capacity};
    ghost use Rattle.spec_machine.specs.Domain.{Duty};
    ghost use Rattle.domain_strikes.specs.Owing.{owed_by};

    ghost Value = { List Duty };

    ghost view = { λ strikes. owed_by strikes.maker strikes.fibers.items strikes.struck };

    ghost invariant = { λ strikes. 1024 ≤ vec_capacity strikes.fibers };
}

impl Strikes {
    /// None is owed, and there is room for as many as one cancellation may strike.
    pub fn new(alloc: Global) -> Result<Strikes, NoMemory>
        ensures { IfOk result (λ strikes. strikes ≡ []) }
    {
        Ok(Strikes {
            maker: 0,
            fibers: Vec::with_capacity(alloc, MOST_STRUCK)?,
            struck: 0,
        })
    }

    /// Whether none is owed.
    pub fn is_empty(&self) -> bool
        ensures { IsTrue result ↔ (self.now ≡ []) }
    {
        self.struck >= self.fibers.len()
    }

    /// A call of this fiber cancels the context for this reason, and the strikes that come of it are owed.
    pub fn cancel(&mut self, contexts: &mut Contexts, maker: u32, c: u32, why: Plain)
        requires once { StrikesAtOnce self.old contexts.old c }
        ensures after { contexts.new ≡ calls.called (calls.Cancel c why) contexts.old }
        ensures owed { self.new ≡ self.old ++ map (strike_by maker) (model.to_be_struck contexts.old.made contexts.old.waiting c) }
    {
        if self.is_empty() {
            self.maker = maker;
            self.struck = 0;
            self.fibers.clear();
            contexts.strike(c, why, &mut self.fibers);
        } else {
            contexts.cancel(c, why);
        }
    }

    /// The strike that is made next; `None` where none is owed.
    pub fn pop(&mut self) -> Option<Strike>
        ensures some { IfSome result (λ strike. self.old ≡ strike_by strike.maker strike.fiber ∷ self.new) }
        ensures none { IfNone result (self.old ≡ []) }
        ensures still { IfNone result (self.new ≡ []) }
    {
        let fiber = *self.fibers.get(self.struck)?;
        self.struck += 1;
        Some(Strike {
            maker: self.maker,
            fiber,
        })
    }
}
