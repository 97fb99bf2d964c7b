//! Laws of legal runs and histories, each as the contract of an empty public function: of runs on several domains, of waits in them,
//! and of scripts that run on one mocked domain as well.
//!
//! A law is stated in `specs/`, in the folder of its module, and what proves it stands in that of `proofs/`.
#![tactic(auto)]

mod both_laws;
mod legal_laws;
mod wait_laws;

pub use both_laws::{mock_runs_of_both_are_legal, runs_of_both_are_of_domains};
pub use legal_laws::{parts_extend, parts_make_a_legal_run};
pub use wait_laws::{
    items_in_order_in_runs, mock_moves_are_moves, mock_runs_are_legal, off_leaves_all,
    strikes_take_one,
};
