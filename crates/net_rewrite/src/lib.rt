//! What is written for a project: its modules, each with its members in order.
//!
//! A procedure is written as a member (`members`); the parts of a property stand together at the place of the first one
//! (`properties`), unless they don't fit together. Each module is numbered on from the one before it (`modules`). The module of
//! support functions is made of what these use (`project`).
#![tactic(auto)]

mod members;
mod modules;
mod project;
mod properties;
mod starts;

pub use project::rewrite;
