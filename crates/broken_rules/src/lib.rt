//! The rules that a project breaks.
//!
//! Its declarations are found, its lines are bound, and five analyses go over what is bound (`passes`). Each of these marks
//! code lines and declarations with the rules that they break. Lines that have no number break theirs by their forms alone
//! (`further`). The issues are all of these, each once.
#![tactic(auto)]

mod further;
mod passes;

pub use further::further_issues;
pub use passes::{Analysed, Found, bound_project, broken_rules, findings, issues_found};
