//! The set of issues of a project, from the marks of all passes.
//!
//! A mark is a set of rules at a code line, at the head of a procedure or at a declaration, and each of these has a place.
//! The places are listed once; then the issues of all marks are put behind the further ones, in any order and with
//! repetitions, sorted, and kept once each.
#![tactic(auto)]

mod found;
mod issues;
mod places;

pub use found::push_set;
pub use issues::{as_set, issues_of};
