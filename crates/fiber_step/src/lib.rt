//! What a fiber does between two calls, for every form of the notation.
#![tactic(auto)]

mod ask;
mod block_laws;
mod bodies;
mod calls;
mod entering;
mod evaluation;
mod fiber;
mod item;
mod laws;
mod mark;
mod operand_calls;
mod passing;
mod progress;
mod settling;
mod silent;
mod statements;
mod step;
mod throw;
mod unwind;
mod variables;

pub use ask::{Ask, DirectoryRef};
pub use block_laws::{blocks_by_node, blocks_by_number, numbers_rise};
pub use bodies::first_node;
pub use entering::branch_bodies;
pub use fiber::Fiber;
pub use item::Item;
pub use laws::{blocks_keep_variables, ends_stop, marks_agree};
pub use mark::{End, Mark};
pub use variables::Variables;
