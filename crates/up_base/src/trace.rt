//! What a run of a program shows.

use crate::Wide;

/// A text that a run shows.
#[derive(Drop)]
pub enum Output {
    /// What the program printed, line end included where it printed one.
    Printed(Wide),
    /// What an input box asked.
    Asked(Wide),
    /// What a message box said.
    Boxed(Wide),
}

/// How a run ends.
#[derive(Clone, Copy, Debug, PartialEq, Eq)]
pub enum Outcome {
    /// The program came to its end.
    Ended,
    /// An error of this number was raised that no handler took.
    Raised(u32),
    /// The steps that were allowed are spent.
    StepsSpent,
    /// The program did what the meaning of runs doesn't speak of.
    Outside,
}

/// What a run shows, in order, and how it ends.
#[derive(Drop)]
pub struct Trace {
    pub outputs: Vec<Output>,
    pub outcome: Outcome,
}
