//! Tables of pairs of nodes, and which nodes the chains of their pairs lead to. A count of the pairs that were read
//! bounds the work.
#![tactic(auto)]

mod arrows;
mod partition;
mod reach;
mod steps;
mod worklist;

pub use arrows::Arrows;
pub use partition::parts;
pub use reach::spread;
pub use steps::Steps;
