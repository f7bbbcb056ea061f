//! What the names, the texts and the lines of modules are that were read: names are identifiers, texts can stand in comments,
//! and lines are within the limits of the grammar.
#![tactic(auto)]

mod laws;

pub use laws::{decoded_singly, named_grammar, named_module, named_project, shallow_grammar};
