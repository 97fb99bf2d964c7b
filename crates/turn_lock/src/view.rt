//! What a pass knows. It is for the proof alone: no value of these types is made.

use std::collections::LinkedList;

/// What a pass knows of the history, of the turn and of the other passes.
pub struct View<E> {
    /// Which of the passes it is.
    pub number: u64,
    /// It was not taken in by another.
    pub live: bool,
    /// How many passes it is to deal, with the numbers behind its own.
    pub ahead: u64,
    /// The front of the history that it has seen: entries, each beside the number of the pass that made it.
    pub seen: LinkedList<(u64, E)>,
    /// The entries that it made.
    pub mine: LinkedList<E>,
    /// It has drawn a ticket, and not given the turn on.
    pub waits: bool,
    /// Its ticket, while it waits.
    pub ticket: u64,
    /// Its ticket is served.
    pub holds: bool,
    /// The passes that it has taken in.
    pub ended: LinkedList<Ended<E>>,
}

/// What a pass knew when it was taken in.
pub struct Ended<E> {
    pub number: u64,
    pub seen: LinkedList<(u64, E)>,
    pub mine: LinkedList<E>,
}
