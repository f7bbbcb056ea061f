//! The module of support functions that is written beside the modules of a project.
#![tactic(auto)]

mod fixed;
mod laws;
mod making;
mod parts;
mod procedures;
mod row;
mod step;
mod support;
mod table;
mod used;
mod walk;

pub use fixed::{FIXED, fixed_function};
pub use laws::{needed_are_the_least, support_can_be_written};
pub use row::SupportRow;
pub use support::support_module;
