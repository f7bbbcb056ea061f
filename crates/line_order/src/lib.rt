//! In which order the lines of a module stand that was read.
#![tactic(auto)]

mod laws;

pub use laws::{ordered_grammar, ordered_module};
