//! How agreements of two computations compose.
#![tactic(auto)]

mod laws;

pub use laws::{call_lasts, frame_lasts};
