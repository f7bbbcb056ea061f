//! What is written for a program corresponds to it, part by part.
#![tactic(auto)]

mod laws;

pub use laws::files_correspond;
