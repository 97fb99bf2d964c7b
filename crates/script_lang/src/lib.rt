//! The script language: the reading of scripts from a tree.
//!
//! The theorems are the clauses of [`read_script`] and of [`generate`]; those of a script's own calls stand in `script_code`.
#![tactic(auto)]

mod generator;
mod reader;

pub use generator::generate;
pub use reader::read_script;
pub use script_code::Script;
pub use script_forms::{
    Decl, Directory, FlowSteps, Forking, Group, Node, Numbers, ObjectCall, ObjectCallWith,
    Operator, PathCall, ReaderCall, ScriptFault,
};
