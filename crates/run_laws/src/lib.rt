//! Runs of clean procedures, and lines by themselves, do the same as what is written for them.
#![tactic(auto)]

mod laws;

pub use laws::{same_lines, same_runs};
