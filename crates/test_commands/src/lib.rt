//! Worked rows: inputs and whole commands with the answers that they must have, run by the prover on the definitions.
//!
//! Each row is a lemma of `proofs/`, proved by computing its left side. A row that is false fails the check. Nothing
//! stands on this crate; the answers were worked out by hand or by an independent reading of the rules.
//!
//! The prover stops before 1,023 forks that all end and before the limit of live contexts, which the rows of `test_rows` have; and
//! before `load 1000`, the limit of queued jobs and scripts with much more than 40 KB besides gaps, which no test has.
#![tactic(auto)]
