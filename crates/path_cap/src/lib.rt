//! Paths below capabilities.
//!
//! A capability names a directory of a tree. A path call goes through a capability, and its path leads nowhere but at or below that
//! directory, whatever links and dots it has. The theorems stand in `laws`.
#![tactic(auto)]

mod cap;
mod changing;
mod components;
mod directory;
mod item;
mod laws;
mod making;
mod reading;
mod tree;
mod walk;

pub use cap::{Cap, CapFault};
pub use laws::{
    changes_stay_below, leads_stay_below, names_stay_in_order, refused_changes_nothing,
};
pub use tree::DirTree;
