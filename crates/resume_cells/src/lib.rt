//! Resume words: through them fibers that wait are woken by other threads, or cancelled by their own, and never both.
//!
//! Each cell has one word: 0 before its first wait, and then 4 times a stamp plus 1 (a wait has begun), 2 (it was woken) or 3 (it was
//! cancelled). A seat's owner begins and cancels waits on cells of its own, and any seat wakes; each of these is one atomic step. So of a wake and a
//! cancellation that race one is `Won`, and the other finds the word that the winner left.
//!
//! What is known across threads stands in the seats. A seat is a value of no bytes that is seen as the marks that it made and the words that it
//! found. The rule (specs/Rule) says that at any time there is one log of all marks, in which each cell has a history as
//! `spec_parts` defines it (`ResumeWords`), that fits all words and all seats; each step keeps it. It shows once the cells are closed: the theorem is the
//! clause `histories` of [`Cells::close`], and what it means for waits and winners is said by the laws (src/laws.rt).
#![tactic(auto)]

mod cells;
mod laws;
mod rule;
mod seat;
mod view;

pub use cells::{Cells, Decided};
pub use laws::{
    found_decided_stays, found_is_decided, one_winner, own_cells_lie_together, rules_agree,
    waits_are_decided_once,
};
pub use seat::CellSeat;
pub use view::{Deed, Found, Mark, SeatLog, View};
