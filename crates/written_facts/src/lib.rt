//! What the analyses tell of a program, gathered for what is written.
//!
//! Lower bounds and ranks come as lists of arrays, and are kept as one list by variable (`shapes`). The marks of all passes become one
//! set for each code line and each declaration (`marks`). Statements that declare nothing and are no code lines break their rules
//! by their form alone (`statements`).
#![tactic(auto)]

mod facts;
mod marks;
mod shapes;
mod statements;

pub use facts::written_facts;
