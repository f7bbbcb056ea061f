//! Which trees of Visual Basic .NET projects can be written.
#![tactic(auto)]

mod blocks;
mod comments;
mod declarations;
mod depth;
mod expressions;
mod lines;
mod literals;
mod project;
mod spelling;

pub use blocks::{fits_in, pass};
pub use comments::is_comment;
pub use declarations::{
    are_writable_params, can_be_declared, closes, is_get, is_set, is_writable_dim,
    is_writable_field, is_writable_head, is_writable_member,
};
pub use lines::is_writable_line;
pub use project::{is_note, is_support, is_writable, is_writable_module};
pub use spelling::is_identifier;
