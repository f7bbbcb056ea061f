//! What is written for bound expressions.
//!
//! The recursion (`exprs`) goes down a tree by its nodes: a node's parts are written first, and what is written for the node takes them
//! as parts of its own. Whatever is asked of the bound tree beside that stands in functions outside of the recursion.
#![tactic(auto)]

mod arguments;
mod calls;
mod exprs;
mod loose;
mod members;
mod parts;
mod uses;

pub use arguments::{is_property, is_property_kind};
pub use exprs::{target_exp, written_exp};
