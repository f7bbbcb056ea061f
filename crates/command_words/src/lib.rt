//! The reading of command words: which command they ask for, by clap's simple commands.
#![tactic(auto)]

mod asked;
mod behind;
mod forms;
mod reading;
mod texts;

pub use asked::{Asked, Words, WordsFail};
pub use reading::read_words;
