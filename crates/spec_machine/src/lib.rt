//! The written machine: what one domain is and how it moves, what it shares with others, the mocked outside, and what a
//! run on one mocked domain writes and ends with.
//!
//! Everything is defined in `specs/`, on plain lists and numbers, and computes. A domain moves by two total functions: what it asks
//! from outside (`asks`), and how it goes on by what came (`after`). This file has the small enum that the definitions share
//! with code.
#![tactic(auto)]

/// How a run ends, or that its input was refused, or that a history which was checked is none of its script.
#[derive(Clone, Copy, Debug, PartialEq, Eq)]
pub enum Ending {
    /// Main has ended with a value.
    Ok,
    /// Main has ended with an exception.
    Raised,
    Refused,
    /// Nothing can move, and main hasn't ended.
    Deadlock,
    /// As many moves were made as may be, and one more is possible.
    OutOfSteps,
    /// More fibers, contexts or jobs were asked for than there may be.
    Limit,
    /// No run ends so: a history was checked, and is none of its script.
    NotLegal,
}
