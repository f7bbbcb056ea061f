//! The files that issues stand in.
#![tactic(auto)]

mod laws;

pub use laws::places_are_named;
