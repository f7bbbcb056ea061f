//! From logical lines to the module: statements, code lines and nesting, or the first fault.
#![tactic(auto)]

mod building;
mod class_head;
mod cuts;
mod forms;
mod frame;
mod module;
mod nesting;
mod reading;
mod texts;
mod words;

pub use module::{one_module_answer, read_module, read_owned_module};
