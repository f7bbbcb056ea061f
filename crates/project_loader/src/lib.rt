//! The project that a folder holds, or its first fault.
#![tactic(auto)]

mod laws;
mod loading;
mod modules;
mod texts;

pub use laws::{held_or_fault, no_fault_where_held, one_first_fault, one_held_project};
pub use loading::{LoadFail, load_project};
