//! The command `mock` over the engine: a script runs on one domain whose outside is mocked, and its trace goes out 4,096 bytes at a time.
//!
//! [`mock_run`] goes from a source's bytes to a sink's and a status. [`script`] makes the script of an input, or finds why it is refused;
//! [`run`] turns a [`Domain`](domain_core::Domain) until it stands still, over the objects of [`local`]; [`respond`] joins these. Each says
//! in its contract what the definitions of `spec_script` and `spec_machine` give.
#![tactic(auto)]

mod fault;
mod laws;
mod local;
mod mock;
mod respond;
mod run;
mod script;
mod trace;

pub use laws::turns_are_moves;
pub use local::{Declared, Local};
pub use mock::mock_run;
