//! What several forms of lines are made of, each with one reader over a slice of tokens.
#![tactic(auto)]

mod answer;
mod arguments;
mod cases;
mod chains;
mod cuts;
mod expressions;
mod lists;
mod parts;
mod redims;
mod tokens;
mod words;

pub use answer::{Part, PartFail, both};
pub use chains::{Link, callee_length, is_callee, is_target, last_link};
pub use cuts::{Separator, parted};
pub use expressions::{before_word, callee, expression, target};
pub use lists::{fitted, items};
pub use parts::{label, name_of};
pub use tokens::copied;
pub use words::is_key;
