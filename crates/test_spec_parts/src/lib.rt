//! Worked rows of `spec_parts`: lists of calls with what they answer and leave, run by the prover on the definitions.
//!
//! Each row is a lemma of `proofs/`, proved by computing its left side. A row that is false fails the check. Nothing stands on
//! this crate; the answers were worked out by hand.
#![tactic(auto)]
