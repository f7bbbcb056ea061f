//! From a project to what is written for it, its issues, and how many of its procedures are clean.
//!
//! Declarations are found and lines are bound, five analyses go over what is bound, and what they find decides what is written
//! (`upgrade`). The tree that is written becomes files, and the issues a report (`files`).
#![tactic(auto)]

mod files;
mod upgrade;

pub use files::{UpgradedFiles, upgraded_files};
pub use upgrade::{Upgraded, upgrade_project};
