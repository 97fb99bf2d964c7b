//! Worked rows of `spec_fiber`: scripts with the calls that their main makes under given replies, run by the prover on the definitions.
//!
//! Each row is a lemma of `proofs/`, proved by computing its left side. A row that is false fails the check. Nothing stands on
//! this crate; the calls were worked out by hand from the rules.
#![tactic(auto)]
