//! What one statement of a procedure is.
#![tactic(auto)]

mod drawing;
mod forms;
mod fronts;
mod kept;
mod meanings;
mod parts;
mod pieces;
mod printing;
mod words;

pub use meanings::one_form;
pub use pieces::{FormFail, Piece, read_statement};
