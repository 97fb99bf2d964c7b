//! A list of waiting fibers.
//!
//! It is a queue with a mark for each cell, whether that cell stands in it (`Holds`). So an older entry of a cell is looked for only where
//! there is one; but for that and `take_numbered`, each call takes constant time for each fiber that leaves. The theorems are the clauses
//! of the methods of [`WaitList`].

ghost use Rattle.std.specs.Prelude.{◌≡◌, ◌<◌, ◌≤◌, true, false, [], ◌∷◌, ◌++◌, ◌==◌, length, map, drop, find, slice_get, None, IfOk};
ghost use Rattle.std.specs.List.{position};
ghost use Rattle.spec_parts.specs.Row.{but_first};
ghost use Rattle.std.specs.VecDeque.{deque_capacity};
ghost use Rattle.wait_list.specs.Finding.{Finds, WakesFirst};
ghost use Rattle.wait_list.specs.Standing.{found_of, queued_of};
ghost use Rattle.wait_list.specs.Waits.{EachCellOnce, has_number, others};

use crate::Queued;
use eio_value::{Answer, NoMemory, Outcome, Wake, Woken};
use std::alloc::Global;
use std::collections::VecDeque;
use std::marker::Model;

/// The fibers that wait in one list of a shared object, the oldest first.
#[derive(Drop)]
pub struct WaitList {
    queue: VecDeque<Queued>,
    /// By cell, whether it stands in the queue.
    marks: Vec<bool>,
}

impl Model for WaitList {
    ghost use Rattle.std.specs.Prelude.{map, length};
    ghost use Rattle.std.specs.VecDeque.{deque_capacity};
    ghost use Rattle.wait_list.specs.Lists.{WaitingList};

    ghost Value = { WaitingList };

    ghost use Rattle.wait_list.specs.Standing.{queued_of, Holds};

    ghost view = { λ list. record { waiting = map queued_of list.queue.items; cells = length list.marks.items } };

    ghost invariant = { λ list. Holds (map queued_of list.queue.items) list.marks.items (deque_capacity list.queue) };
}

/// The fibers with this cell leave the queue.
fn drop_cell(queue: &mut VecDeque<Queued>, cell: u32)
    ensures items { map queued_of queue.new.items ≡ others cell (map queued_of queue.old.items) }
    ensures room { deque_capacity queue.new ≡ deque_capacity queue.old }
{
    queue.retain(|other| other.who.cell != cell);
}

/// Where the first fiber with this number stands in a queue.
fn place_of(queue: &VecDeque<Queued>, number: u64) -> Option<usize>
    ensures { result ≡ position (λ queued. queued.number == number) queue.now.items }
{
    queue.iter().position(|queued| queued.number == number)
}

impl WaitList {
    /// Nobody waits; so many cells are there. No other call takes memory.
    pub fn new(alloc: Global, cells: u32) -> Result<WaitList, NoMemory>
        ensures { IfOk result (λ list. list ≡ record { waiting = []; cells = cells }) }
    {
        let queue = VecDeque::with_capacity(alloc, cells as usize)?;
        let marks = vec![in alloc; false; cells as usize]?;
        Ok(WaitList { queue, marks })
    }

    /// The fiber stands last; an older entry of its cell leaves.
    pub fn enter(&mut self, queued: Queued)
        requires cell { queued.who.cell < self.old.cells }
        ensures { self.new ≡ record self.old { waiting = others queued.who.cell self.old.waiting ++ queued_of queued ∷ [] } }
    {
        let cell = queued.who.cell;
        if self.marks[cell as usize] {
            drop_cell(&mut self.queue, cell);
        }
        self.marks[cell as usize] = true;
        self.queue.push_back_reserved(queued);
    }

    /// The fiber waits, `Waits`: it stands last, and an older entry of its cell leaves. Where its context is off it doesn't, `Off`, and nothing
    /// has changed.
    pub fn wait(&mut self, queued: Queued, off: bool) -> Answer
        requires cell { queued.who.cell < self.old.cells }
        ensures off { off ≡ true → (result ≡ Answer.Off) × (self.new ≡ self.old) }
        ensures waits { off ≡ false → (result ≡ Answer.Waits) × (self.new ≡ record self.old { waiting = others queued.who.cell self.old.waiting ++ queued_of queued ∷ [] }) }
    {
        if off {
            return Answer::Off;
        }
        self.enter(queued);
        Answer::Waits
    }

    /// The oldest leaves.
    fn pop(&mut self) -> Option<Queued>
        ensures first { found_of result ≡ slice_get self.old.waiting 0 }
        ensures others { self.new ≡ record self.old { waiting = drop 1 self.old.waiting } }
    {
        let first = self.queue.pop_front()?;
        self.marks[first.who.cell as usize] = false;
        Some(first)
    }

    /// Asks the fibers in order. The dead leave; the first that is alive leaves too, is woken with this outcome and is answered.
    pub fn wake_first<W: Wake>(&mut self, wake: &mut W, outcome: &Outcome) -> Option<Queued>
        requires quiet { W.sent wake.old ≡ None }
        ensures finds { Finds (W.knows wake.old) (W.knows wake.new) (W.tells wake.old) self.old.waiting (WakesFirst outcome.now (found_of result) self.new.waiting (W.sent wake.new)) }
        ensures cells { self.new.cells ≡ self.old.cells }
        ensures same { W.tells wake.new ≡ W.tells wake.old }
        ensures goes { W.goes_on wake.old wake.new }
    {
        while let Some(queued) = self.pop() {
            match wake.wake(queued.who, *outcome) {
                Woken::Won => return Some(queued),
                Woken::Lost => {}
            }
        }
        None
    }

    /// The first fiber that waits with this number leaves and is answered.
    pub fn take_numbered(&mut self, number: u64) -> Option<Queued>
        ensures found { found_of result ≡ find (has_number number) self.old.waiting }
        ensures left { self.new ≡ record self.old { waiting = but_first (has_number number) self.old.waiting } }
    {
        let place = place_of(&self.queue, number)?;
        let found = self.queue.remove(place)?;
        self.marks[found.who.cell as usize] = false;
        Some(found)
    }

    /// Each cell stands at most once, and no more fibers than there are cells.
    pub fn each_cell_once(&self)
        ensures once { EachCellOnce self.now.waiting }
        ensures few { length self.now.waiting ≤ self.now.cells }
    {
        let _ = &self.marks;
    }
}
