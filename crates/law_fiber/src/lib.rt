//! Laws of one fiber, each as the contract of an empty public function: of its next call, and of the kinds and the texts of what it
//! holds.
//!
//! A law is stated in `specs/`, in the folder of its module, and what proves it stands in that of `proofs/`.
#![tactic(auto)]

mod call_laws;
mod kind_laws;
mod text_laws;

pub use call_laws::{fibers_stay_alike, jobs_see_captured, next_call_sees_scope};
pub use kind_laws::{kinds_stay, kinds_stay_between};
pub use text_laws::{bound_texts_stand, known_stay, read_scripts_have_texts, texts_stay};
