//! Laws that join the analyses: what one of them hands to another is what the facts of the project tell.
#![tactic(auto)]

mod laws;

pub use laws::quiet_is_read;
