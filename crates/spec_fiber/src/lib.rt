//! What a fiber calls next, and how an exception unwinds its work, for every form of the notation.
//!
//! Everything is defined in `specs/`, on plain lists and numbers, and computes. A fiber has a list of work: statements still to do, and
//! marks that stand at the ends of blocks. Its silent statements run up to its next call, which is an `Ask` with evaluated operands.
//! Nothing bounds the steps from outside: a block is finite, and each turn of a loop is a call. The rules are run by the prover on
//! worked rows in `test_spec_fiber`.
#![tactic(auto)]
