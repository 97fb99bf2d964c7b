//! The cancellation contexts of a domain, and the fibers that wait in them.
#![tactic(auto)]

mod cancelling;
mod contexts;
mod forgetting;
mod kept;
mod tree;
mod waiters;

pub use cancelling::cancels_once;
pub use contexts::Contexts;
pub use forgetting::forgets_nothing_live;
