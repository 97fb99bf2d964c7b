//! The turn and its passes.
//!
//! A pass draws a ticket, looks until its number is the one that is served, and takes the value out of the one slot. To
//! leave, it puts the value back and counts the number that is served up by one; that step adds the entry to the history,
//! which exists in the proof alone.
//!
//! The invariant (`Kept` in specs/Rule): the number that is served is the length of the history; the tickets that are out
//! are different, none is below that number, and with it they make up the next number. The slot has a value that stands
//! for the history while nobody holds the turn; else one pass holds it, has seen the whole history, and the slot is out
//! with it. Every pass has seen a front of the history. No two passes have one number, and the entries of a number are
//! those that its pass has made.

ghost use Rattle.std.specs.Prelude.{◌≡◌, ℕ, ◌+◌, ◌<◌, ◌≤◌, true, false, List, [], ◌∷◌, ◌++◌, ◌^◌, Option, Some, None, IfOk, All, length, vec_len, vec_capacity};
ghost use Rattle.turn_lock.specs.History.{entries_by, StartsWith};
ghost use Rattle.turn_lock.specs.Passes.{AreFresh, Adds, left_with};
ghost use Rattle.turn_lock.specs.Closing.{Closes};
ghost use Rattle.turn_lock.specs.Rule.{first_view};
ghost use Rattle.turn_lock.specs.Gathering.{Gathers, IsIdle, ended_of, own_of};
ghost use Rattle.turn_lock.specs.Steps.{Takes};

use crate::rule::{Deal, Draw, Law, Leave, Look, TakeIn};
use crate::view::View;
use crate::{Kept, Names};
use atomic_table::{Seat, Table};
use eio_value::NoMemory;
use std::alloc::Global;
use std::marker::Model;
use std::sync::Wait;
use std::{hint, thread};

/// The word that counts the tickets that were drawn.
const DRAWN: usize = 0;

/// The word that counts the turns that were given on. Threads that wait read it, so it lies 128 bytes from the other.
const SERVED: usize = 16;

/// How many words there are; those between the two lie idle.
const WORDS: usize = 17;

/// How often a pass looks before it leaves the processor to others.
const SPINS: u32 = 100;

/// The ticket that is never served.
const MOST: u64 = 1 << 62;

/// A pass of a turn whose value is a `V` with entries `E`. It takes no bytes.
#[derive(Drop)]
pub struct PassOf<V, E> {
    seat: Seat<Option<V>, View<E>>,
}

impl<V, E> Model for PassOf<V, E> {
    ghost use Rattle.turn_lock.specs.Passes.{PassView, IsAtRest};

    ghost Value = { PassView E };

    ghost view = { λ inside. record {
      turn = inside.seat.table_id;
      number = inside.seat.me.0.number;
      seen = inside.seat.me.0.seen;
      mine = inside.seat.me.0.mine;
      holds = inside.seat.me.0.holds;
    } };

    ghost invariant = { λ inside. IsAtRest inside.seat.me };
}

impl<V, E> PassOf<V, E> {
    /// The seat of a pass that does not hold the turn.
    fn into_seat(self) -> Seat<Option<V>, View<E>>
        requires { self.holds ≡ false }
        ensures turn { result.table_id ≡ self.turn }
        ensures idle { IsIdle result.me }
        ensures knows { own_of result.me.0 ≡ ended_of self }
    {
        self.seat
    }
}

/// A pass of a turn over `V`.
pub type Pass<V> = PassOf<V, <V as Kept>::Entry>;

/// A value that passes take in turns.
#[derive(Drop)]
pub struct Turn<V: Kept> {
    table: Table<Option<V>, View<V::Entry>, u64, Law<V>, Global>,
}

impl<V: Kept> Model for Turn<V> {
    ghost use Rattle.std.specs.Prelude.{◌≡◌, ◌<◌};
    ghost use Rattle.turn_lock.specs.Passes.{TurnView};

    ghost Value = { TurnView };

    ghost view = { λ inside. record { id = inside.table.shared.table_id; passes = inside.table.shared.key } };

    ghost invariant = { λ inside. (inside.table.shared.table_id.words ≡ 17) × (inside.table.shared.table_id.slots ≡ 1) × (0 < inside.table.shared.key) };
}

/// A seat at the table under the turn.
type SeatOf<V> = Seat<Option<V>, View<<V as Kept>::Entry>>;

impl<V: Kept> Turn<V> {
    /// A turn over a value that stands for no entries yet, and all its passes, in the order of their numbers, from 0.
    ///
    /// # Errors
    /// [`NoMemory`]; the value is then let go.
    pub fn make(alloc: Global, value: V, passes: u8) -> Result<(Turn<V>, Vec<Pass<V>>), NoMemory>
    where
        V: Drop,
        requires some { 0 < passes }
        requires empty { V.stands value 0 [] }
        ensures turn { IfOk result (λ made. made.0.passes ≡ passes) }
        ensures passes { IfOk result (λ made. (vec_len made.1 ≡ passes) × AreFresh made.0.id 0 made.1.items) }
        ensures theirs { IfOk result (λ made. All (λ p. p.turn ≡ made.0.id) made.1.items) }
        ensures free { IfOk result (λ made. All (λ p. p.holds ≡ false) made.1.items) }
    {
        let mut dealt = Vec::with_capacity(alloc, usize::from(passes))?;
        let mut slots = Vec::with_capacity(alloc, 1)?;
        slots.push_reserved(Some(value));
        let Ok((table, seat)) = Table::new(alloc, &[0; WORDS], slots, &u64::from(passes)) else {
            return Err(NoMemory);
        };
        let turn = Turn { table };
        turn.deal(seat, passes, &mut dealt);
        Ok((turn, dealt))
    }

    /// Makes the passes of the first seat, in order.
    fn deal(&self, first: SeatOf<V>, passes: u8, dealt: &mut Vec<Pass<V>>)
        requires seat { first.table_id ≡ self.now.id }
        requires first { first.me ≡ (first_view passes, []) }
        requires some { 0 < passes }
        requires room { (dealt.old.items ≡ []) × (passes ≤ vec_capacity dealt.old) }
        ensures passes { (vec_len dealt.new ≡ passes) × AreFresh self.now.id 0 dealt.new.items }
        ensures theirs { All (λ p. p.turn ≡ self.now.id) dealt.new.items }
        ensures free { All (λ p. p.holds ≡ false) dealt.new.items }
    {
        let mut seat = first;
        for _made in 0..passes - 1 {
            let next = self.table.shared.split_seat::<Deal>(&mut seat);
            dealt.push_reserved(PassOf { seat });
            seat = next;
        }
        dealt.push_reserved(PassOf { seat });
    }

    /// Waits for its turn, and gives the value, which stands for all that this pass has then seen.
    ///
    /// It waits as long as others have the turn or drew their tickets before, and for good where the turn was given on 2^62
    /// times. A thread that waits here can't be called away: its ticket stands, and those behind it wait for it.
    pub fn enter<R: Wait>(&self, rt: &R, pass: &mut Pass<V>) -> V
        requires turn { pass.old.turn ≡ self.now.id }
        requires free { pass.old.holds ≡ false }
        ensures value { V.stands result 0 pass.new.seen }
        ensures seen { StartsWith pass.new.seen pass.old.seen }
        ensures own { entries_by pass.new.number pass.new.seen ≡ pass.new.mine }
        ensures few { length pass.new.seen < 2 ^ 62 }
        ensures same { pass.new ≡ record pass.old { seen = pass.new.seen; holds = true } }
    {
        let ticket = self
            .table
            .shared
            .fetch_add::<Draw>(&mut pass.seat, DRAWN, 1);
        self.wait_turn(rt, &mut pass.seat, ticket);
        let Some(value) = self.table.shared.exchange(&mut pass.seat, 0, None) else {
            unreachable!();
        };
        value
    }

    /// Looks until the ticket is served.
    fn wait_turn<R: Wait>(&self, rt: &R, seat: &mut SeatOf<V>, ticket: u64)
        requires turn { seat.old.table_id ≡ self.now.id }
        requires waits { (seat.old.me.0.waits ≡ true) × (seat.old.me.0.holds ≡ false) × (seat.old.me.0.ticket ≡ ticket) }
        ensures turn { seat.new.table_id ≡ seat.old.table_id }
        ensures takes { Takes (λ x. V.stands x 0) seat.old.me seat.new.me }
    {
        let mut looks = 0;
        for _ in rt.forever() {
            let found = self.table.shared.load::<Look<V>>(seat, SERVED);
            if found == ticket && found < MOST {
                return;
            }
            if looks < SPINS {
                looks += 1;
                hint::spin_loop();
            } else {
                thread::yield_now();
            }
        }
        unreachable!()
    }

    /// Gives the turn on. The value stands for all that was seen and one entry more, which `N` names. It neither waits nor
    /// takes memory.
    pub fn leave<N: Names<V::Entry>>(&self, pass: &mut Pass<V>, value: V)
        requires turn { pass.old.turn ≡ self.now.id }
        requires held { pass.old.holds ≡ true }
        requires adds { Adds (λ x. V.stands x 0) pass.old.number pass.old.seen value N.entry }
        ensures given { pass.new ≡ left_with pass.old N.entry }
    {
        let hole = self.table.shared.exchange(&mut pass.seat, 0, Some(value));
        let None = hole else { unreachable!() };
        self.table
            .shared
            .fetch_add::<Leave<N>>(&mut pass.seat, SERVED, 1);
    }

    /// Ends the turn, and gives the value, which stands for the whole history.
    pub fn close(self, passes: Vec<Pass<V>>) -> V
        requires all { vec_len passes ≡ self.passes }
        requires turn { All (λ p. p.turn ≡ self.id) passes.items }
        requires free { All (λ p. p.holds ≡ false) passes.items }
        ensures closes { Closes (λ x. V.stands x 0) passes.items result }
    {
        let seat = self.gather(passes);
        let Turn { table } = self;
        let mut closed = table.close_with(seat);
        let Some(value) = closed.take(0) else {
            unreachable!();
        };
        closed.free();
        value
    }

    /// Makes one seat of all passes, which then knows what each knew.
    fn gather(&self, mut passes: Vec<Pass<V>>) -> SeatOf<V>
        requires some { 0 < vec_len passes }
        requires turn { All (λ p. p.turn ≡ self.now.id) passes.items }
        requires free { All (λ p. p.holds ≡ false) passes.items }
        ensures seat { result.table_id ≡ self.now.id }
        ensures gathers { Gathers passes.items result.me.0 }
    {
        let Some(last) = passes.pop() else {
            unreachable!();
        };
        let mut seat = last.into_seat();
        while let Some(pass) = passes.pop() {
            self.table
                .shared
                .join_seat::<TakeIn>(&mut seat, pass.into_seat());
        }
        seat
    }
}
