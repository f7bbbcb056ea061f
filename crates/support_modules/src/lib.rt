//! The module of support functions.
#![tactic(auto)]

mod extents;
mod fields;
mod flags;
mod functions;
mod needed;
mod parts;
mod paths;

pub use needed::support_module;
