//! Handlers and jumps: which procedures go on after an error, which heads of blocks may raise in them (rule 14), and which jumps
//! aren't allowed (rule 15).
//!
//! Each rule is a test on one code line and its procedure (`specs/Heads.antt`, `specs/Jumps.antt`). The code goes twice over the lines
//! of a procedure with a stack of the heads of the blocks that are open. The first time it notes each label with the heads
//! round it, the second time it compares those of each jump with those of its label.
#![tactic(auto)]

mod analysis;
mod blocks;
mod heads;
mod jumps;
mod labels;
mod resuming;
mod rows;

pub use analysis::analyse_handlers;
