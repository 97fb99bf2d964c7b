//! The fibers that are attached to a switch, in the order of attaching.
//!
//! A map has each fiber with the time of its attaching, so a fiber is found and taken off in logarithmic time. Contracts see
//! the row of fibers in the order of attaching (`fibers_of`); no code needs that row. The invariant is that the next time lies
//! behind all that stand in the map.

ghost use Rattle.std.specs.Prelude.{◌≡◌, ◌↔◌, [], ◌∷◌, ◌++◌, Contains, IsTrue, OnOk, OnErr};
ghost use Rattle.spec_parts.specs.Switches.{without};

use std::alloc::{AllocError, Global};
use std::collections::BTreeMap;
use std::marker::Model;

/// Fibers by number, seen as their row in the order of attaching. No fiber stands in it twice.
#[derive(Drop)]
pub(crate) struct Fibers {
    /// When each was attached.
    times: BTreeMap<u32, u64>,
    /// When the next one is.
    next: u64,
}

impl Model for Fibers {
    ghost use Rattle.std.specs.Prelude.{ℕ, List};
    ghost use Rattle.switch_core.specs.Attached.{fibers_of, AreTimed};

    ghost Value = { List ℕ };

    ghost view = { λ inside. fibers_of inside.times.entries };

    ghost invariant = { λ inside. AreTimed inside.times.entries inside.next };
}

impl Fibers {
    /// No fiber.
    pub(crate) fn new(alloc: Global) -> Fibers
        ensures { result ≡ [] }
    {
        Fibers {
            times: BTreeMap::new(alloc),
            next: 0,
        }
    }

    pub(crate) fn is_empty(&self) -> bool
        ensures { IsTrue result ↔ (self.now ≡ []) }
    {
        self.times.is_empty()
    }

    /// One more fiber, behind the others. An error also where no time is left, after 2^64 - 1 calls.
    pub(crate) fn push(&mut self, fiber: u32) -> Result<(), AllocError>
        requires { ¬ Contains self.old fiber }
        ensures ok { OnOk result (self.new ≡ self.old ++ fiber ∷ []) }
        ensures err { OnErr result (self.new ≡ self.old) }
    {
        let now = self.next;
        if now == u64::MAX {
            return Err(AllocError);
        }
        self.times.insert(fiber, now)?;
        self.next = now + 1;
        Ok(())
    }

    /// The others, in their order.
    pub(crate) fn remove(&mut self, fiber: u32)
        ensures { self.new ≡ without fiber self.old }
    {
        self.times.remove(&fiber);
    }
}
