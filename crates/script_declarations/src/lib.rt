//! Reading of declarations, with the steps of flows and the entries of directories.
//!
//! Invariant: what was declared so far is what the definitions declare of the same trees, and where the code refuses one, the
//! definitions refuse it at the same place. The theorem is the clause `reads` of [`declarations::declarations`].
#![tactic(auto)]

pub mod declarations;
mod entries;
mod flow_steps;
