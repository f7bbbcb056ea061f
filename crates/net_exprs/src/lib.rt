//! Reads names, types and expressions of written projects, and proves that what is written stands for one tree.
#![tactic(auto)]

mod characters;
mod expressions;
mod fail;
mod literals;
mod names;
mod nests;
mod numerals;
mod openings;
mod stages;
mod starts;
mod suffixes;
mod types;

pub use expressions::{read_arguments, read_expression};
pub use fail::PhraseFail;
pub use names::{read_label, read_name};
pub use types::{read_rank, read_type};
