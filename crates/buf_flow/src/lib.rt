//! Flows of bytes: a scripted flow, what is read of a flow, and what is to be written to one.
//!
//! A [`MockFlow`] gives its steps one after another. A [`BufRead`] holds what was read of a flow and isn't
//! given yet, and answers by these bytes alone, however they were cut into pieces. A [`BufWrite`] holds what
//! was put and isn't written yet.
//!
//! The definitions that the clauses cite are those of flows, readers and writers in `spec_parts`; how answers in
//! code stand for theirs is said in specs/ (`FlowReads`, `Items`). The laws are stated there too: `Cuts` (pieces of
//! the same bytes), `Histories` (pieces and calls in any order), `Moves` (calls over a flow).
#![tactic(auto)]

mod flow;
mod laws;
mod line;
mod queue;
mod read;
mod searched;
mod write;

pub use flow::{FlowRead, MockFlow};
pub use laws::{calls_end_by_bytes_to_come, cuts_alike, decided_stays, histories_alike};
pub use read::{BufRead, Item};
pub use write::BufWrite;
