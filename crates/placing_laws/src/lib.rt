//! Laws on where procedures and their lines are written.
#![tactic(auto)]

mod laws;

pub use laws::{labels_are_found, lines_are_written, no_further_lines, procedures_are_written};
