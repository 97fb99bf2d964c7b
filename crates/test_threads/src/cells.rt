//! Resume words: each call gets through, and waits which race on threads are won once each.

ghost use Rattle.std.specs.Prelude.{◌≡◌, ◌≤◌, true};
ghost use Rattle.resume_cells.specs.Views.{nothing_told};
ghost use Rattle.test_threads.specs.Racing.{AreOf, AreWaiting, IsFirstNew};

use eio_value::{NoMemory, Waiter};
use resume_cells::{CellSeat, Cells, Decided};
use std::alloc::{AllocError, Global};
use std::collections::VecDeque;
use std::test::Fail;
use std::thread;
use std::thread::Threads;

/// How many waits race.
const WAITS: u32 = 1_000;

/// Whoever waits in this cell, with this stamp.
fn waiter(cell: u32, armed: u64) -> Waiter
    ensures { (result.cell ≡ cell) × (result.armed ≡ armed) }
{
    Waiter {
        domain: 0,
        fiber: 0,
        cell,
        armed,
    }
}

fn is_won(decided: Decided) -> bool {
    matches!(decided, Decided::Won)
}

fn lost_to(decided: Decided) -> Option<u64> {
    match decided {
        Decided::Won => None,
        Decided::Lost(word) => Some(word),
    }
}

/// Begins, wakes and cancels waits of two seats: the words that the four calls find which come too late; `None` where another does.
fn decide(cells: &Cells, first: &mut CellSeat, second: &mut CellSeat) -> Option<[u64; 4]>
    requires count { cells.now.count ≡ 4 }
    requires first { first.old ≡ record { table = cells.now.table; number = 0; each = 2; told = nothing_told } }
    requires second { second.old ≡ record { table = cells.now.table; number = 1; each = 2; told = nothing_told } }
    ensures first { (first.new.table ≡ cells.now.table) × (first.new.number ≡ 0) }
    ensures second { (second.new.table ≡ cells.now.table) × (second.new.number ≡ 1) }
{
    cells.arm(first, 0, 1);
    cells.arm(first, 1, 1);
    cells.arm(second, 2, 7);
    let woken = cells.wake(second, waiter(0, 1), 2);
    let late = lost_to(cells.cancel(first, waiter(0, 1), 3))?;
    let cancelled = cells.cancel(first, waiter(1, 1), 4);
    if !is_won(woken) || !matches!(cancelled, Decided::Won) {
        return None;
    }
    let later = lost_to(cells.wake(second, waiter(1, 1), 5))?;
    let free = lost_to(cells.wake(second, waiter(3, 1), 5))?;
    cells.arm(first, 1, 9);
    let anew = lost_to(cells.wake(second, waiter(1, 1), 10))?;
    Some([late, later, free, anew])
}

#[test]
fn words_show_the_last_mark(rt: HostRuntime) -> Result<(), Fail> {
    let (cells, seats) = Cells::make(rt.alloc(), 4, 2)?;
    let mut seats = VecDeque::from(seats);
    let (Some(mut first), Some(mut second)) = (seats.pop_front(), seats.pop_front()) else {
        unreachable!()
    };
    let found = decide(&cells, &mut first, &mut second);
    assert!(rt; found == Some([4 * 2 + 2, 4 * 4 + 3, 0, 4 * 9 + 1]));
    let words = cells.close(vec![in rt.alloc(); first, second]?);
    assert!(rt; words.as_slice() == [4 * 2 + 2, 4 * 9 + 1, 4 * 7 + 1, 0].as_slice());
    Ok(())
}

/// A thread's part in a race: it decides each of the waits, or comes too late.
#[derive(Drop)]
struct Racer<'a> {
    cells: &'a Cells,
    seat: CellSeat,
    cancels: bool,
    ghost fits: { seat.table ≡ cells.now.table },
    ghost room: { 1000 ≤ cells.now.count },
    ghost waits: { cancels ≡ true → AreWaiting 1000 seat 0 },
}

impl Racer<'_> {
    /// Whether each wait was won.
    fn run(self, alloc: Global) -> Result<Vec<bool>, AllocError> {
        if self.cancels {
            cancel_all(alloc, self.cells, self.seat)
        } else {
            wake_all(alloc, self.cells, self.seat)
        }
    }
}

fn arm_all(cells: &Cells, seat: &mut CellSeat)
    requires fits { (seat.old.table ≡ cells.now.table) × (1000 ≤ cells.now.count) }
    requires new { IsFirstNew 1000 seat.old }
    ensures same { seat.new.table ≡ seat.old.table }
    ensures waits { AreWaiting 1000 seat.new 0 }
{
    for cell in 0..WAITS {
        cells.arm(seat, cell, 1);
    }
}

fn cancel_all(alloc: Global, cells: &Cells, mut seat: CellSeat) -> Result<Vec<bool>, AllocError>
    requires fits { (seat.table ≡ cells.now.table) × (1000 ≤ cells.now.count) }
    requires waits { AreWaiting 1000 seat 0 }
{
    let mut won = Vec::new(alloc);
    for cell in 0..WAITS {
        won.push(is_won(cells.cancel(&mut seat, waiter(cell, 1), 2)))?;
    }
    Ok(won)
}

fn wake_all(alloc: Global, cells: &Cells, mut seat: CellSeat) -> Result<Vec<bool>, AllocError>
    requires fits { (seat.table ≡ cells.now.table) × (1000 ≤ cells.now.count) }
{
    let mut won = Vec::new(alloc);
    for cell in 0..WAITS {
        won.push(is_won(cells.wake(&mut seat, waiter(cell, 1), 2)))?;
    }
    Ok(won)
}

/// The owner of the waits, who cancels them, and so many others, who wake them.
fn racers_of(
    alloc: Global,
    cells: &Cells,
    owner: CellSeat,
    mut others: VecDeque<CellSeat>,
    wakers: usize,
) -> Result<Vec<Racer>, NoMemory>
    requires room { 1000 ≤ cells.now.count }
    requires owner { (owner.table ≡ cells.now.table) × AreWaiting 1000 owner 0 }
    requires others { AreOf cells.now.table others.items }
{
    let mut racers = Vec::new(alloc);
    racers.push(Racer {
        cells,
        seat: owner,
        cancels: true,
    })?;
    while let Some(seat) = others.pop_front() {
        if racers.len() <= wakers {
            racers.push(Racer {
                cells,
                seat,
                cancels: false,
            })?;
        }
    }
    Ok(racers)
}

/// Waits of one seat are cancelled by it and woken by so many others, each on a thread of its own; what each won.
fn race<R: Threads + Sync>(
    rt: &R,
    alloc: Global,
    wakers: usize,
) -> Result<Vec<Result<Vec<bool>, AllocError>>, NoMemory> {
    let (cells, seats) = Cells::make(alloc, 5 * WAITS, 5)?;
    let mut seats = VecDeque::from(seats);
    let Some(mut first) = seats.pop_front() else {
        unreachable!()
    };
    arm_all(&cells, &mut first);
    let racers = racers_of(alloc, &cells, first, seats, wakers)?;
    Ok(thread::map_vec(rt, racers, &|racer: Racer| racer.run(alloc))?)
}

/// One more for each wait that was won; false where there are more or fewer of them than waits.
fn count(winners: &mut Vec<u32>, won: &[bool]) -> bool {
    if won.len() != winners.len() {
        return false;
    }
    for (count, won) in winners.iter_mut().zip(won) {
        *count = u32::saturating_add(*count, u32::from(*won));
    }
    true
}

/// Whether each wait is won by one racer.
fn each_is_won_once<R: Threads + Sync>(rt: &R, alloc: Global, wakers: usize) -> Result<bool, Fail> {
    let mut winners = vec![in alloc; 0; WAITS as usize]?;
    let mut racers = race(rt, alloc, wakers)?;
    while let Some(won) = racers.pop() {
        if !count(&mut winners, won?.as_slice()) {
            return Ok(false);
        }
    }
    Ok(winners.iter().all(|count| *count == 1))
}

#[test]
fn one_wins_each_wait(rt: HostRuntime) -> Result<(), Fail> {
    assert!(rt; each_is_won_once(&rt, rt.alloc(), 1)?);
    assert!(rt; each_is_won_once(&rt, rt.alloc(), 4)?);
    Ok(())
}
