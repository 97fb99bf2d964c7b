//! Reading of statements, with their expressions and blocks, into a draft.
//!
//! Invariant: the nodes that a block puts behind those of the draft are the definitions' block, flat, and where the code refuses it,
//! the definitions refuse it at the same place. The theorem is the clause `reads` of [`statements::statements`].
#![tactic(auto)]

mod bodies;
mod calls;
mod captures;
mod expressions;
mod leaves;
mod mock_forms;
mod silent_forms;
pub mod statements;
