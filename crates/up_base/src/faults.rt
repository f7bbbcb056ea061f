//! The faults for which a project is refused, by their numbers: NEVER_CLOSED is said as F12.

/// The folder has no file of the project's name.
pub const NO_PROJECT: u8 = 1;

/// The folder has no file of an entry's name.
pub const NO_MODULE: u8 = 2;

/// A file, a line or the project has more than its limit allows.
pub const TOO_LONG: u8 = 3;

/// A line of the project file is not of its form.
pub const MALFORMED_ENTRY: u8 = 4;

/// An entry's name is used twice or reserved.
pub const NAME_USED: u8 = 5;

/// A byte has no character, or is a control byte.
pub const NO_CHARACTER: u8 = 6;

/// A line is continued where it can't be.
pub const MISPLACED_CONTINUATION: u8 = 7;

/// A literal is not closed on its line.
pub const OPEN_LITERAL: u8 = 8;

/// A character begins no token.
pub const NO_TOKEN: u8 = 9;

/// A line is of no form.
pub const NO_FORM: u8 = 10;

/// A line closes what is not open.
pub const NOT_OPEN: u8 = 11;

/// The block that a line opens is never closed.
pub const NEVER_CLOSED: u8 = 12;

/// A directive of conditional compilation.
pub const DIRECTIVE: u8 = 13;

/// Expressions or blocks are nested deeper than 64.
pub const TOO_DEEP: u8 = 14;

/// The head of a class file is not of its form.
pub const MALFORMED_HEAD: u8 = 15;
