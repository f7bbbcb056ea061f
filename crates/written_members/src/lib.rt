//! What is written for the members of a module.
//!
//! `Site` is where something is written: the module and the procedure, with what the analyses tell of the program, and a table of
//! what each statement declares (`Statements`), so that no statement searches the project. The members of a module are placed
//! first (`placed_members`): each with its numbers and its comments. For each form of member there is a function that puts what
//! is written for it behind the members so far. A name that is no name of .NET, or a number that no literal has room for, is
//! answered as want of memory: no project has one.
#![tactic(auto)]

mod bodies;
mod code_line;
mod comment_lines;
mod comments;
mod constants;
mod declared;
mod groups;
mod heads;
mod numbers;
mod placing;
mod prologues;
mod site;
mod statements;
mod variables;

pub use bodies::procedure_with;
pub use comment_lines::{push_member_comments, push_member_texts, push_member_upgrade};
pub use comments::{Comment, texts, upgrade_texts};
pub use declared::push_line_members;
pub use groups::push_group_members;
pub use heads::{
    head_of, index_params, is_function, params_of, property_type, result_type, set_head,
    written_visibility,
};
pub use placing::{Numbers, Placed, behind_member, behind_members, last_comments, placed_members};
pub use site::Site;
pub use statements::{ConstRef, Statements, VarRef};
