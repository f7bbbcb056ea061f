//! Clean procedures: those from which no chain of mentions leads to a procedure or a declaration with a line that breaks a rule.
//!
//! Procedures, variables, constants and user types are points, which are numbered in one space (`specs/Numbers.antt`). One
//! walk over the lines and the declarations gives the pairs of numbers of which the first point mentions the second, and a
//! procedure leads to the first member of its module whose name captures others. The marks of all passes give the numbers
//! of the points that break a rule. From which procedures chains of pairs lead to such a number is then told at once.
//! Nothing leads on from an Option or a Def line, so it has no number: what leads to one that breaks a rule counts as
//! broken itself. A statement is broken where one of its declarations is, and broken statements are looked up in a set.
#![tactic(auto)]

mod analysis;
mod broken;
mod captured;
mod classes;
mod declared;
mod lines;
mod numbers;
mod options;
mod reaching;
mod statements;
mod uses;

pub use analysis::clean_procedures;
