//! What is written for code lines: each gives one line.
//!
//! A line is written by its form (`lines`): one that opens, parts or closes a block (`blocks`), a jump or a label (`labels`),
//! or another statement, of which an assignment (`puts`), a Debug.Print (`printing`), a Case (`cases`), and ReDim and Erase
//! (`resizing`) have modules of their own. A line that breaks a rule by which it is replaced becomes a call that stands for
//! it, or goes on opening, parting or closing its block (`flagged`).
#![tactic(auto)]

mod blocks;
mod cases;
mod flagged;
mod labels;
mod lines;
mod parts;
mod printing;
mod puts;
mod resizing;

pub use flagged::{counter_name, is_flagged_for};
pub use labels::labels_of;
pub use lines::written_line;
pub use puts::{array_copy, last_of, rank_of};
pub use resizing::{empty_extents, extent};
