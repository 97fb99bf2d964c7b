//! Laws of scripts, each as the contract of an empty public function: of their notation as trees, and of their reading.
//!
//! A law is stated in `specs/`, in the folder of its module, and what proves it stands in that of `proofs/`.
#![tactic(auto)]

mod script_laws;
mod tree_laws;

pub use script_laws::{
    generated_is_a_script, places_dont_count, print_reads_again, read_scripts_are_sound,
    shared_scripts_have_no_mocked_form,
};
pub use tree_laws::{
    canonical_has_no_places, canonical_is_read, read_is_spelled, read_is_within, spelled_is_read,
};
