//! What each part of a run does: shared objects, resume words, contexts, switches, groups, lists of fibers, flows and directories.
//!
//! Everything is defined in `specs/`, one subject a file, on plain lists and numbers, and computes: a part is a row of data, and
//! a call on it gives an answer and the row after. `Row` has the form that all shared objects have. This file has the small
//! enums that the definitions share with code. The rules are run by the prover on worked rows in `test_spec_parts`; laws over
//! them stand in `law_parts`.
#![tactic(auto)]

mod hold;
mod path_kind;

pub use hold::Hold;
pub use path_kind::PathKind;
