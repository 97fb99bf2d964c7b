//! A stream.
//!
//! Its items stand in a ring of its capacity, and its two lists have room for each cell, so only `new` takes memory. Nobody waits to add
//! where somebody waits to take (`HasOneSide`): a call enters its fiber only once it has found nobody alive on the other side, and then
//! that list is empty. As fibers are entered behind and asked from the front, items leave in the order in which they were accepted, and
//! who has waited longest comes first. The theorems are the clauses of the methods of [`Stream`], by `spec_parts`'s `Streams`; that items
//! leave in order, whatever is called, is the law `items_in_order` of `law_parts`.

ghost use Rattle.std.specs.Prelude.{◌≡◌, ◌↔◌, ◌+◌, ◌<◌, ◌≤◌, ℕ, Bool, true, false, pos, [], ◌∷◌, length, None, IfOk};
ghost use Rattle.std.specs.List.{All};
ghost use Rattle.eio_value.specs.declared.call.Call.TheVariants as call;
ghost use Rattle.eio_value.specs.declared.message.Waiter.{Waiter as Wait};
ghost use Rattle.eio_value.specs.Waking.{IsKnown};
ghost use Rattle.law_parts.specs.Items.{items};
ghost use Rattle.law_parts.specs.Waits.{HasEachCellOnce};
ghost use Rattle.spec_parts.specs.Objects.{called};
ghost use Rattle.spec_parts.specs.Row.{int};
ghost use Rattle.spec_parts.specs.Skipping.{waiters};
ghost use Rattle.spec_parts.specs.Streams as streams;
ghost use Rattle.stream_core.specs.Taking.{taken_answer};
ghost use Rattle.wait_list.specs.Meeting.{Meets};

use circular_buffer::HeapCircularBuffer;
use eio_value::{Answer, NoMemory, Outcome, Value, Waiter, Wake};
use std::alloc::Global;
use std::marker::Model;
use wait_list::{Queued, WaitList};

/// A stream, with the fibers that wait to take from it and those that wait to add.
#[derive(Drop)]
pub struct Stream {
    /// The oldest first, in a ring of the stream's capacity.
    items: HeapCircularBuffer<Value>,
    /// Who waits to take; nobody where somebody waits to add.
    takers: WaitList,
    /// Who waits to add, each with its item; nobody where somebody waits to take.
    adders: WaitList,
}

impl Model for Stream {
    ghost use Rattle.spec_parts.specs.Data as held;
    ghost use Rattle.wait_list.specs.Lists.{Core};

    ghost Value = { Core };

    ghost use Rattle.stream_core.specs.Whole.{IsWhole};

    ghost view = { λ stream. record { row = record { values = held.Stream stream.items.capacity stream.items.items; takers = stream.takers.waiting; adders = stream.adders.waiting }; cells = stream.takers.cells } };

    ghost invariant = { λ stream. IsWhole stream.items.items stream.items.capacity stream.takers stream.adders };
}

impl Stream {
    /// An empty stream of this capacity, for fibers with cells below `cells`. No other call takes memory.
    ///
    /// # Errors
    /// [`NoMemory`].
    pub fn new(alloc: Global, capacity: u32, cells: u32) -> Result<Stream, NoMemory>
        ensures { IfOk result (λ stream. stream ≡ record { row = streams.stream capacity; cells = cells }) }
    {
        let items = HeapCircularBuffer::with_capacity(alloc, capacity as usize)?;
        let takers = WaitList::new(alloc, cells)?;
        let adders = WaitList::new(alloc, cells)?;
        Ok(Stream {
            items,
            takers,
            adders,
        })
    }

    /// Adds an item, `Done(())`: hands it to the first taker that is alive, or else appends it where there is room. Where there is none
    /// the fiber waits with the item, `Waits`; or, where its context is off, `Off` is answered and nothing has changed but that the
    /// takers, which were all dead, are gone (`off`, `dead`).
    ///
    /// # Cancellation
    /// The items are as before while the fiber waits (`waits`). So one that is cancelled there has added nothing, and has lost its place: a take
    /// that comes to it goes on to the next adder (`takes` of [`take`](Stream::take)). One that a take has woken before has added its item.
    pub fn add<W: Wake>(&mut self, wake: &mut W, who: Waiter, off: bool, item: Value) -> Answer
        requires cell { who.cell < self.old.cells }
        requires quiet { W.sent wake.old ≡ None }
        ensures adds { (object serial : ℕ) → Meets (W.knows wake.old) (W.knows wake.new) (W.tells wake.old) self.old.row who off serial (call.Add object item) (record { row = self.new.row; answer = result; sent = W.sent wake.new }) }
        ensures waits { result ≡ Answer.Waits → (off ≡ false) × (self.new.row.values ≡ self.old.row.values) × (W.sent wake.new ≡ None) }
        ensures off { result ≡ Answer.Off → (off ≡ true) × (self.new.row ≡ record self.old.row { takers = [] }) × (W.sent wake.new ≡ None) }
        ensures dead { result ≡ Answer.Off → All (IsKnown (W.knows wake.new)) (waiters self.old.row.takers) }
        ensures cells { self.new.cells ≡ self.old.cells }
        ensures same { W.tells wake.new ≡ W.tells wake.old }
        ensures goes { W.goes_on wake.old wake.new }
    {
        if let Some(_) = self.takers.wake_first(wake, &Outcome::Ok(item)) {
            return Answer::Done(Value::Unit);
        }
        if let Ok(()) = self.items.try_push_back(item) {
            return Answer::Done(Value::Unit);
        }
        let queued = Queued {
            who,
            item,
            number: 0,
        };
        self.adders.wait(queued, off)
    }

    /// Takes the oldest item, `Done`; the first adder that is alive has then added its own. With no item, that adder's is taken. Where no adder
    /// is alive either, the fiber waits for an item, `Waits`; or, where its context is off, `Off` is answered and nothing has changed but
    /// that the adders, which were all dead, are gone (`off`, `dead`).
    ///
    /// # Cancellation
    /// Nothing is taken while the fiber waits (`waits`). So one that is cancelled there has taken nothing, and has lost its place: an add that
    /// comes to it hands its item to the next taker (`adds` of [`add`](Stream::add)). One that an add has woken before has the item.
    pub fn take<W: Wake>(&mut self, wake: &mut W, who: Waiter, off: bool) -> Answer
        requires cell { who.cell < self.old.cells }
        requires quiet { W.sent wake.old ≡ None }
        ensures takes { (object serial : ℕ) → Meets (W.knows wake.old) (W.knows wake.new) (W.tells wake.old) self.old.row who off serial (call.Take object) (record { row = self.new.row; answer = result; sent = W.sent wake.new }) }
        ensures waits { result ≡ Answer.Waits → (off ≡ false) × (self.new.row.values ≡ self.old.row.values) × (W.sent wake.new ≡ None) }
        ensures off { result ≡ Answer.Off → (off ≡ true) × (self.new.row ≡ record self.old.row { adders = [] }) × (W.sent wake.new ≡ None) }
        ensures dead { result ≡ Answer.Off → All (IsKnown (W.knows wake.new)) (waiters self.old.row.adders) }
        ensures cells { self.new.cells ≡ self.old.cells }
        ensures same { W.tells wake.new ≡ W.tells wake.old }
        ensures goes { W.goes_on wake.old wake.new }
    {
        let _ = &self.items;
        if let Some(item) = self.next_item(wake) {
            return Answer::Done(item);
        }
        let queued = Queued {
            who,
            item: Value::Unit,
            number: 0,
        };
        self.takers.wait(queued, off)
    }

    /// Takes the oldest item as [`take`](Stream::take) does, but never waits: `Nothing` exactly where no item is there and no adder is alive.
    /// Then nothing has changed but that the adders, which were all dead, are gone (`dead`).
    pub fn take_nonblocking<W: Wake>(&mut self, wake: &mut W) -> Answer
        requires quiet { W.sent wake.old ≡ None }
        ensures takes { (who : Wait) (off : Bool) (object serial : ℕ) → Meets (W.knows wake.old) (W.knows wake.new) (W.tells wake.old) self.old.row who off serial (call.TakeNonblocking object) (record { row = self.new.row; answer = result; sent = W.sent wake.new }) }
        ensures nothing { result ≡ Answer.Nothing ↔ ((items self.old.row.values ≡ []) × (W.sent wake.new ≡ None)) }
        ensures dead { result ≡ Answer.Nothing → All (IsKnown (W.knows wake.new)) (waiters self.old.row.adders) × (self.new.row ≡ record self.old.row { adders = [] }) }
        ensures cells { self.new.cells ≡ self.old.cells }
        ensures same { W.tells wake.new ≡ W.tells wake.old }
        ensures goes { W.goes_on wake.old wake.new }
    {
        let _ = &self.items;
        match self.next_item(wake) {
            Some(item) => Answer::Done(item),
            None => Answer::Nothing,
        }
    }

    /// The oldest item, or with none the item of the first adder that is alive; that adder is woken, and where there was an item its own comes in.
    fn next_item<W: Wake>(&mut self, wake: &mut W) -> Option<Value>
        requires quiet { W.sent wake.old ≡ None }
        ensures takes { (who : Wait) (off : Bool) (object serial : ℕ) → Meets (W.knows wake.old) (W.knows wake.new) (W.tells wake.old) self.old.row who off serial (call.TakeNonblocking object) (record { row = self.new.row; answer = taken_answer result; sent = W.sent wake.new }) }
        ensures cells { self.new.cells ≡ self.old.cells }
        ensures same { W.tells wake.new ≡ W.tells wake.old }
        ensures goes { W.goes_on wake.old wake.new }
    {
        let adder = self.adders.wake_first(wake, &Outcome::Ok(Value::Unit));
        match (self.items.pop_front(), adder) {
            (Some(item), Some(adder)) => {
                if let Err(_) = self.items.try_push_back(adder.item) {
                    unreachable!()
                }
                Some(item)
            }
            (Some(item), None) => Some(item),
            (None, Some(adder)) => Some(adder.item),
            (None, None) => None,
        }
    }

    /// How many items it holds.
    pub fn len(&self) -> u32
        ensures len { result ≡ length (items self.now.row.values) }
        ensures step { (who : Wait) (off : Bool) (object serial : ℕ) → called self.now.row who off serial (call.Length object) ≡ record { row = self.now.row; answer = Answer.Done (int result); sent = None } }
    {
        self.items.len() as u32
    }

    /// Each cell stands in the two lists at most once, and no more fibers wait than there are cells.
    pub fn each_cell_once(&self)
        ensures once { HasEachCellOnce self.now.row }
        ensures few { length self.now.row.takers + length self.now.row.adders ≤ self.now.cells }
    {
        self.takers.each_cell_once();
        self.adders.each_cell_once();
    }
}
