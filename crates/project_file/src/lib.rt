//! The reading of project files: what the lines of a project file say, or its first fault.
#![tactic(auto)]

mod lines;
mod project_line;
mod reading;

pub use reading::{one_project_answer, read_project};
