//! Trees of the notation: bytes become a tree of words, numbers, texts and lists, each with its place, and a tree becomes the
//! bytes of its canonical spelling.
#![tactic(auto)]

mod builder;
mod copy;
mod fault;
mod gap;
mod reader;
mod run;
mod text;
mod tree;
mod write;

pub use builder::TreeBuilder;
pub use fault::TreeFault;
pub use reader::read_tree;
pub use tree::{Tree, TreeNode};
pub use write::write_tree;
