//! Reads expressions: the longest one that begins at a place of a list of tokens.
#![tactic(auto)]

mod expression;
mod fail;
mod parts;
mod reader;
mod scan;
mod token_class;

pub use expression::{
    ExprRead, front_expression, front_length, longest_before_stop, one_expression, read_expr,
};
pub use fail::ExprFail;
pub use token_class::{Class, class_at};
