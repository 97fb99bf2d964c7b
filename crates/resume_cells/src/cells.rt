//! The cells: waits are begun, woken and cancelled, each by one atomic step.
//!
//! The theorems are the clauses of the methods of [`Cells`]. What each step does to the log of all marks, and that it keeps the rule,
//! stands in proofs/Deciding; what a caller learns is what its seat then knows.

ghost use Rattle.std.specs.Prelude.{◌≡◌, ◌≢◌, ◌/◌, ◌^◌, ◌<◌, ◌≤◌, false, IfOk, length, vec_len};
ghost use Rattle.std.specs.Mem.Slots.{slots_items, slots_len, IsFull};
ghost use Rattle.resume_cells.specs.declared.view.Deed.TheVariants.{Wake, Cancel};
ghost use Rattle.resume_cells.specs.Histories.{Histories};
ghost use Rattle.resume_cells.specs.Known.{CanArm, IsLast, SaysWoken, knows, waiting};
ghost use Rattle.resume_cells.specs.Outcomes.{IfWon, IfLost, outcome_of};
ghost use Rattle.resume_cells.specs.Seats.{AreAll, Owns, new_seats, told_all, with_mark, with_found};
ghost use Rattle.resume_cells.specs.Views.{arm_of, decision_of};

use crate::rule::{Begins, Cancels, Law, Plan, Wakes};
use crate::seat::{deal, take_in};
use crate::{CellSeat, View};
use atomic_table::{Closed, Table};
use eio_value::{NoMemory, Waiter};
use std::alloc::Global;
use std::collections::VecDeque;
use std::marker::Model;

// What a word has beside 4 times its stamp.
const WAITING: u64 = 1;

const WOKEN: u64 = 2;

const CANCELLED: u64 = 3;

/// The cells, numbered from 0, shared by the threads that have the seats. They are seen as how many they are, how many seats they have and how many
/// cells each seat owns (`AllCells`): seat s owns that many cells from s times that number on. Where the seats don't part the
/// cells evenly, those left over are nobody's, and no wait begins there.
#[derive(Drop)]
pub struct Cells {
    table: Table<(), View, Plan, Law, Global>,
    /// The room into which the words are read when the cells are closed; as many as there are cells.
    words: Vec<u64>,
}

impl Model for Cells {
    ghost use Rattle.std.specs.Prelude.{◌≡◌, ◌<◌, vec_len};
    ghost use Rattle.resume_cells.specs.Seats.{AllCells};

    ghost Value = { AllCells };

    ghost view = { λ c. record { table = c.table.shared.table_id; count = c.table.shared.key.cells; seats = c.table.shared.key.seats; each = c.table.shared.key.each } };

    ghost invariant = { λ c. (c.table.shared.table_id.words ≡ c.table.shared.key.cells) × (c.table.shared.table_id.slots ≡ 0) × (vec_len c.words ≡ c.table.shared.key.cells) × (0 < c.table.shared.key.cells) × (0 < c.table.shared.key.seats) };
}

/// What came of a call that decides a wait.
#[derive(Clone, Copy)]
pub enum Decided {
    /// The wait is decided now, by this call.
    Won,
    /// The cell's word was this one, below 2^62, and not that of this wait undecided.
    ///
    /// Where its stamp, a fourth of it, isn't below the wait's, the wait was decided before, with a stamp that isn't above the word's.
    Lost(u64),
}

/// What a call came to that found this word.
fn outcome(word: u64, waiting: u64) -> Decided
    ensures { result ≡ outcome_of word waiting }
{
    if word == waiting {
        Decided::Won
    } else {
        Decided::Lost(word)
    }
}

/// Writes the closed cells' words over as many others.
fn copy(closed: &Closed<(), Global>, words: &mut [u64])
    requires { (slots_len closed.now.words ≡ length words.old) × IsFull closed.now.words }
    ensures { words.new ≡ slots_items closed.now.words }
{
    for i in 0..words.len() {
        words[i] = closed.word(i);
    }
}

impl Cells {
    /// So many cells, and so many seats of them in the order of their numbers. No other call takes memory.
    pub fn make(alloc: Global, cells: u32, seats: u8) -> Result<(Cells, Vec<CellSeat>), NoMemory>
        requires some { (0 < seats) × (seats ≤ cells) }
        ensures cells { IfOk result (λ made. (made.0.count ≡ cells) × (made.0.seats ≡ seats) × (made.0.each ≡ cells / seats)) }
        ensures seats { IfOk result (λ made. made.1.items ≡ new_seats made.0.table made.0.each 0 seats) }
    {
        let plan = Plan {
            cells: cells as usize,
            seats: usize::from(seats),
            each: (cells / u32::from(seats)) as usize,
        };
        let words = vec![in alloc; 0; plan.cells]?;
        let (table, mut first) = Table::of_words(alloc, words.as_slice(), &plan)?;
        let mut dealt = deal(alloc, &table.shared, &mut first, seats)?;
        dealt.insert(0, CellSeat { seat: first })?;
        Ok((Cells { table, words }, dealt))
    }

    /// A wait begins, with this stamp: the cell's word becomes waiting.
    ///
    /// The seat owns the cell, and knows its last wait decided, if it had one, below the stamp.
    pub fn arm(&self, seat: &mut CellSeat, cell: u32, stamp: u64)
        requires seat { seat.old.table ≡ self.now.table }
        requires cell { cell < self.now.count }
        requires owns { Owns seat.old cell }
        requires free { CanArm seat.old.told cell stamp }
        requires stamp { stamp < 2 ^ 60 }
        ensures armed { seat.new ≡ with_mark seat.old (arm_of cell stamp) }
    {
        let shared = &self.table.shared;
        shared.swap::<Begins>(&mut seat.seat, cell as usize, 4 * stamp + WAITING);
    }

    /// Wakes whoever waits, if the wait isn't decided yet.
    ///
    /// A wait that the seat knows decided isn't won.
    pub fn wake(&self, seat: &mut CellSeat, who: Waiter, stamp: u64) -> Decided
        requires seat { seat.old.table ≡ self.now.table }
        requires cell { who.cell < self.now.count }
        requires stamp { (who.armed < stamp) × (stamp < 2 ^ 60) }
        ensures won { IfWon result (seat.new ≡ with_mark seat.old (decision_of Wake who.cell who.armed stamp)) }
        ensures fresh { IfWon result (knows seat.old.told who.cell who.armed ≡ false) }
        ensures lost { IfLost result (λ word. (seat.new ≡ with_found seat.old who.cell word) × (word ≢ waiting who.armed)) }
        ensures bounded { IfLost result (λ word. word < 2 ^ 62) }
    {
        let waiting = 4 * who.armed + WAITING;
        let shared = &self.table.shared;
        let word = shared.compare_exchange::<Wakes>(
            &mut seat.seat,
            who.cell as usize,
            waiting,
            4 * stamp + WOKEN,
        );
        outcome(word, waiting)
    }

    /// Cancels the last wait of a cell of the seat's own, if it isn't decided yet.
    ///
    /// The seat didn't cancel it before. So where this call is lost, the word that it found says woken.
    pub fn cancel(&self, seat: &mut CellSeat, who: Waiter, stamp: u64) -> Decided
        requires seat { seat.old.table ≡ self.now.table }
        requires cell { who.cell < self.now.count }
        requires owns { Owns seat.old who.cell }
        requires last { IsLast seat.old.told who.cell who.armed }
        requires stamp { (who.armed < stamp) × (stamp < 2 ^ 60) }
        ensures won { IfWon result (seat.new ≡ with_mark seat.old (decision_of Cancel who.cell who.armed stamp)) }
        ensures fresh { IfWon result (knows seat.old.told who.cell who.armed ≡ false) }
        ensures lost { IfLost result (λ word. (seat.new ≡ with_found seat.old who.cell word) × (word ≢ waiting who.armed)) }
        ensures bounded { IfLost result (λ word. word < 2 ^ 62) }
        ensures woken { IfLost result (λ word. SaysWoken who.armed word) }
    {
        let undecided = 4 * who.armed + WAITING;
        let shared = &self.table.shared;
        let word = shared.compare_exchange::<Cancels>(
            &mut seat.seat,
            who.cell as usize,
            undecided,
            4 * stamp + CANCELLED,
        );
        outcome(word, undecided)
    }

    /// The words as they are in the end. All seats come back, in the order of their numbers.
    ///
    /// Each cell has a history, in which each wait but the last is decided, and its word shows the last mark. The marks are just those that
    /// the seats made, and each word that a seat found stood at some time.
    pub fn close(self, seats: Vec<CellSeat>) -> Vec<u64>
        requires all { AreAll self seats.items }
        ensures words { vec_len result ≡ self.count }
        ensures histories { Histories self.each result.items (told_all seats.items) }
    {
        let mut others = VecDeque::from(seats);
        let Some(first) = others.pop_front() else {
            unreachable!()
        };
        let mut first = first.seat;
        take_in(&self.table.shared, &mut first, others);
        let Cells { table, mut words } = self;
        let closed = table.close_with(first);
        copy(&closed, &mut words);
        closed.free();
        words
    }
}
