//! Names bound: what each code line of a project means.
//!
//! A line is a list of expressions, each with what the line does with it (`parts`). Three things are made of that list: the
//! words that could be variables (`words`), the bound expressions with their types (`typed_parts`), and, for an expression
//! without a type, what is kept of it as it is written (`settling`). `bind` looks at all lines twice. At first it finds the
//! local variables that no line declares (`locals`) and declares them behind all others (`declaring`). Then it binds each line
//! in its blocks (`bodies`).
#![tactic(auto)]

mod binding;
mod bodies;
mod declaring;
mod homes;
mod inside;
mod line_rules;
mod lines;
mod locals;
mod mentions;
mod parts;
mod settling;
mod typed_parts;
mod words;

pub use binding::bind;
