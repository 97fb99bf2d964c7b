//! The seats, and how they are dealt and taken in again.
//!
//! The first seat, of number 0, deals the others as the cells are made, and takes them in, in the order of their numbers, as they are closed.

ghost use Rattle.std.specs.Prelude.{◌≡◌, ◌-◌, ◌<◌, true, [], IfOk, OnOk};
ghost use Rattle.resume_cells.specs.Seats.{AreNumbered, new_seats, told_all};
ghost use Rattle.resume_cells.specs.Views.{first_view};

use crate::View;
use crate::rule::{Deals, Law, Plan, TakesIn};
use atomic_table::{Seat, Shared};
use std::alloc::{AllocError, Global};
use std::collections::VecDeque;
use std::marker::Model;

/// What a thread makes its steps with. It has no bytes, and is seen as the marks that it made and the words that it found (`Seated`).
///
/// It is still a seat of its own: it took in no other.
#[derive(Drop)]
pub struct CellSeat {
    pub(crate) seat: Seat<(), View>,
}

impl Model for CellSeat {
    ghost use Rattle.std.specs.Prelude.{◌≡◌, true, []};
    ghost use Rattle.resume_cells.specs.Seats.{Seated, seated};

    ghost Value = { Seated };

    ghost view = { λ s. seated s.seat.table_id s.seat.me.0 };

    ghost invariant = { λ s. (s.seat.me.0.live ≡ true) × (s.seat.me.0.known ≡ []) × (s.seat.me.1 ≡ []) };
}

/// Deals the other seats of so many, with the numbers from 1 on.
pub(crate) fn deal(
    alloc: Global,
    shared: &Shared<(), View, Plan, Law>,
    first: &mut Seat<(), View>,
    seats: u8,
) -> Result<Vec<CellSeat>, AllocError>
    requires fits { (first.old.table_id ≡ shared.now.table_id) × (0 < shared.now.table_id.words) × (seats ≡ shared.now.key.seats) }
    requires some { 0 < seats }
    requires new { first.old.me ≡ (first_view shared.now.key.each, []) }
    ensures same { first.new.table_id ≡ first.old.table_id }
    ensures first { OnOk result (first.new.me ≡ (record (first_view shared.now.key.each) { dealt = seats }, [])) }
    ensures seats { IfOk result (λ v. v.items ≡ new_seats shared.now.table_id shared.now.key.each 1 (seats - 1)) }
{
    let mut others = Vec::with_capacity(alloc, usize::from(seats))?;
    for _number in 1..seats {
        others.push(CellSeat {
            seat: shared.split_seat::<Deals>(first),
        })?;
    }
    Ok(others)
}

/// Takes in the other seats, in the order of their numbers.
pub(crate) fn take_in(
    shared: &Shared<(), View, Plan, Law>,
    first: &mut Seat<(), View>,
    mut others: VecDeque<CellSeat>,
)
    requires fits { (first.old.table_id ≡ shared.now.table_id) × (0 < shared.now.table_id.words) }
    requires first { (first.old.me.0.live ≡ true) × (first.old.me.0.number ≡ 0) × (first.old.me.0.known ≡ []) }
    requires others { AreNumbered shared.now.table_id 1 others.items }
    ensures same { (first.new.table_id ≡ first.old.table_id) × (first.new.me.1 ≡ first.old.me.1) }
    ensures known { first.new.me.0 ≡ record first.old.me.0 { known = told_all others.items } }
{
    while let Some(other) = others.pop_front() {
        shared.join_seat::<TakesIn>(first, other.seat);
    }
}
