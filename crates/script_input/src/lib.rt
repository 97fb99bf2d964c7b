//! What an input is: the tree that it spells and the script that the tree stands for, or why it is refused and at which place; and
//! the commands `check` and `print`, which say so.
//!
//! [`inspect_run`] goes from a source's bytes to a sink's and a status: [`inspection`] finds what is answered to an input, by the
//! reading of [`input`] and the lines of [`refusal`]. Each says in its contract what the definitions of `spec_script` give.
#![tactic(auto)]

mod command;
mod fault;
mod input;
mod inspection;
mod refusal;

pub use command::inspect_run;
pub use fault::InputFault;
pub use input::{input_script, input_tree};
pub use inspection::Inspection;
pub use refusal::{Kind, Refusal, refusal_line};
