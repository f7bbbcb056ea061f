//! What one declaration line of Visual Basic 6 is.
#![tactic(auto)]

mod declaration;
mod events;
mod heads;
mod lists;
mod options;
mod outlines;
mod starts;
mod variables;
mod wholes;
mod words;

pub use declaration::{one_declaration, read_declaration};
pub use starts::{Spot, begins_declaration};
