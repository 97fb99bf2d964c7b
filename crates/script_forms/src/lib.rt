//! What a script is made of: its nodes, what it declares, the words of its forms, and why a tree is no script.
//!
//! Invariant: a word's form is that of the definitions, as the clauses of [`form_of`], [`arity_of`] and [`shape_of`] say. A node
//! and a declaration are plain values; `specs/Flat` says which nodes a script of the definitions is in code.
#![tactic(auto)]

mod declaration;
mod fault;
mod formed;
mod heads;
mod limits;
mod node;

pub use declaration::{Decl, FlowSteps};
pub use fault::ScriptFault;
pub use formed::Formed;
pub use heads::{Arity, Form, Head, Shape, arity_of, begun, form_of, is_word, shape_of};
pub use limits::limits_of;
pub use node::{
    Directory, Forking, Group, Node, Numbers, ObjectCall, ObjectCallWith, Operator, PathCall,
    ReaderCall,
};
