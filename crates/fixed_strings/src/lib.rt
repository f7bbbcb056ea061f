//! Fixed strings: how long they are, and where one may not stand (rule 12): static ones, arrays of them, parameters and results, a
//! result of a user type that holds one, and one that is given to a reference parameter that isn't quiet.
//!
//! A declaration is judged by its owner and its type (`specs/Declaring.antt`). Which user types hold a fixed string is told by chains
//! from a type to those of its fields. A line is judged by the arguments of its calls (`specs/Given.antt`), and which parameters are quiet
//! is taken from the facts on references.
#![tactic(auto)]

mod analysis;
mod declaring;
mod given;
mod lengths;
mod statements;
mod types;

pub use analysis::analyse_fixed;
