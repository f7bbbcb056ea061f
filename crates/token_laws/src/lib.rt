//! That a text has one answer, and that each token is the longest at its place.
#![tactic(auto)]

mod laws;

pub use laws::{longest_token, one_answer, placed_tokens, spread_tokens};
