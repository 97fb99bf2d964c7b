//! What a seat knows. No value of these types is made: they exist in proofs alone.

use std::collections::LinkedList;

/// What a mark does to the wait of its cell.
pub enum Deed {
    /// It begins the wait.
    Arm,
    /// It decides the wait: the fiber goes on.
    Wake,
    /// It decides the wait: the fiber was cancelled.
    Cancel,
}

/// A wait was begun or decided.
pub struct Mark {
    pub cell: u64,
    pub deed: Deed,
    /// The stamp that names the wait.
    pub armed: u64,
    /// The mark's own stamp; an arm's is that of its wait.
    pub stamp: u64,
}

/// A cell's word, as it was found at some step.
pub struct Found {
    pub cell: u64,
    pub word: u64,
}

/// What a seat made and found, the newest first.
pub struct SeatLog {
    pub marks: LinkedList<Mark>,
    pub finds: LinkedList<Found>,
}

/// What a seat knows.
pub struct View {
    /// Which seat it is.
    pub number: u64,
    /// Whether it is a seat still, and wasn't taken in by the first one.
    pub live: bool,
    /// How many cells each seat owns.
    pub each: u64,
    /// What it made and found.
    pub own: SeatLog,
    /// Of the first seat: how many seats were made.
    pub dealt: u64,
    /// Of the first seat: what those made and found that it took in, in the order of their numbers.
    pub known: LinkedList<SeatLog>,
}
