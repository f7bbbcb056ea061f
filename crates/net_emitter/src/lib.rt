//! The files that stand for a project of Visual Basic .NET.
#![tactic(auto)]

mod characters;
mod comments;
mod declarations;
mod expressions;
mod files;
mod layout;
mod lines;
mod literals;
mod names;
mod words;

pub use declarations::{
    write_close, write_comment_line, write_dim_line, write_field_line, write_head_line,
    write_member, write_promise, write_structure_head,
};
pub use files::{emit, write_ending, write_opening};
pub use layout::{begin_line, end_line, write_line};
pub use lines::write_line_of;
