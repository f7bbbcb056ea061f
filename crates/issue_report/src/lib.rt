//! The reports on an upgrade, and what is said of each fault and of each rule.
#![tactic(auto)]

mod lines;
mod reports;
mod texts;
mod verdict;

pub use reports::{report, report2};
pub use texts::{fault_text, rule_text};
pub use verdict::{Part, Verdict, VerdictWord};
