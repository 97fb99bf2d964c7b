//! The ready list: the fibers that can move, the one that moves next first.
//!
//! A ring whose capacity is the most that may stand in it, so that a push fails exactly where the list is full; a caller that
//! knows that there is room has a push without an error. Each call takes constant time. The theorems are the clauses of the methods of
//! [`Ready`], by `spec_parts`'s `ReadyList`.

ghost use Rattle.std.specs.Prelude.{◌≡◌, ◌↔◌, ◌<◌, [], length, IsErr, IsTrue, IfOk, OnOk, OnErr};
ghost use Rattle.spec_parts.specs.ReadyList as list;

use circular_buffer::HeapCircularBuffer;
use eio_value::{Full, NoMemory};
use std::alloc::Global;
use std::marker::Model;

/// The ready list of a domain.
#[derive(Drop)]
pub struct Ready {
    fibers: HeapCircularBuffer<u32>,
}

impl Model for Ready {
    ghost use Rattle.run_queue.specs.Lists.{ReadyList};

    ghost Value = { ReadyList };

    ghost view = { λ ready. record { fibers = ready.fibers.items; most = ready.fibers.capacity } };
}

impl Ready {
    /// An empty list, with room for so many fibers. No other call takes memory.
    pub fn new(alloc: Global, most: usize) -> Result<Ready, NoMemory>
        ensures { IfOk result (λ ready. ready ≡ record { fibers = []; most = most }) }
    {
        let fibers = HeapCircularBuffer::with_capacity(alloc, most)?;
        Ok(Ready { fibers })
    }

    /// The fiber goes behind all others.
    pub fn push_back(&mut self, fiber: u32) -> Result<(), Full>
        ensures full { IsErr result ↔ IsTrue (list.is_full self.old.most self.old.fibers) }
        ensures ok { OnOk result (self.new ≡ record self.old { fibers = list.push_back fiber self.old.fibers }) }
        ensures err { OnErr result (self.new ≡ self.old) }
    {
        match self.fibers.try_push_back(fiber) {
            Ok(()) => Ok(()),
            Err(_) => Err(Full),
        }
    }

    /// The fiber goes before all others.
    pub fn push_head(&mut self, fiber: u32) -> Result<(), Full>
        ensures full { IsErr result ↔ IsTrue (list.is_full self.old.most self.old.fibers) }
        ensures ok { OnOk result (self.new ≡ record self.old { fibers = list.push_head fiber self.old.fibers }) }
        ensures err { OnErr result (self.new ≡ self.old) }
    {
        match self.fibers.try_push_front(fiber) {
            Ok(()) => Ok(()),
            Err(_) => Err(Full),
        }
    }

    /// The fiber goes behind all others, where the list isn't full.
    pub fn push_back_reserved(&mut self, fiber: u32)
        requires room { length self.old.fibers < self.old.most }
        ensures { self.new ≡ record self.old { fibers = list.push_back fiber self.old.fibers } }
    {
        self.fibers.push_back(fiber);
    }

    /// The fiber goes before all others, where the list isn't full.
    pub fn push_head_reserved(&mut self, fiber: u32)
        requires room { length self.old.fibers < self.old.most }
        ensures { self.new ≡ record self.old { fibers = list.push_head fiber self.old.fibers } }
    {
        self.fibers.push_front(fiber);
    }

    /// The fiber that moves next leaves the list; `None` where it is empty.
    pub fn pop(&mut self) -> Option<u32>
        ensures fiber { result ≡ (list.pop self.old.fibers).fiber }
        ensures others { self.new ≡ record self.old { fibers = (list.pop self.old.fibers).others } }
    {
        self.fibers.pop_front()
    }

    /// Whether no fiber stands in it.
    pub fn is_empty(&self) -> bool
        ensures { IsTrue result ↔ (self.now.fibers ≡ []) }
    {
        self.fibers.is_empty()
    }
}
