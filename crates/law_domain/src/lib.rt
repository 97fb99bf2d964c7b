//! Laws of one domain, each as the contract of an empty public function: of what it is between two moves, of its finished scopes,
//! of the kinds and the texts of what it holds, and of the forms that it runs.
//!
//! A law is stated in `specs/`, in the folder of its module, and what proves it stands in that of `proofs/`.
#![tactic(auto)]

mod form_laws;
mod kind_laws;
mod scope_laws;
mod sound_laws;
mod text_laws;
mod well_laws;

pub use form_laws::{built_features_alone, group_forms_alone};
pub use kind_laws::{calls_are_kinded, moves_keep_kinds, named_were_made, opening_is_kinded};
pub use scope_laws::{groups_leave_nothing, handlers_end, leaves_nothing, releases_once};
pub use sound_laws::{
    built_forms_settle, fibers_run_in_live_contexts, moves_keep_sound, moves_may_call,
    opening_is_sound, ready_list_has_room, scopes_end_alone, scopes_settle, switches_are_sound,
};
pub use text_laws::{keeps_texted, known_have_texts, openings_are_texted, prepares_keep_texted};
pub use well_laws::{moves_call_well, moves_keep_well, moves_tell_known, opening_stands_well};
