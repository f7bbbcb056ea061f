//! The logical lines and tokens of Visual Basic 6.
#![tactic(auto)]

mod content;
mod faults;
mod lex_fail;
mod lexeme;
mod lexing;
mod numbers;
mod physical;
mod reading;
mod signs;
mod texts;
mod units;
mod words;

pub use lex_fail::LexFail;
pub use lexing::logical_lines;
