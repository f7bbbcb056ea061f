//! Tokens and logical lines.

use up_base::{Name, Place, Sequence, Wide};

/// A type-declaration character behind a name, named for its type.
#[derive(Clone, Copy, Debug, PartialEq, Eq)]
pub enum Suffix {
    /// No such character.
    Absent,
    /// `%`
    Integer,
    /// `&`
    Long,
    /// `@`
    Currency,
    /// `$`
    Str,
    /// `!`
    Single,
    /// `#`
    Double,
}

/// A sign.
#[derive(Clone, Copy, Debug, PartialEq, Eq)]
pub enum Sign {
    /// `(`
    OpenParen,
    /// `)`
    CloseParen,
    /// `,`
    Comma,
    /// `;`
    Semicolon,
    /// `:`
    Colon,
    /// `.`
    Dot,
    /// `!`
    Bang,
    /// `=`
    Equal,
    /// `<`
    Less,
    /// `>`
    Greater,
    /// `<=`
    LessEqual,
    /// `>=`
    GreaterEqual,
    /// `<>`
    NotEqual,
    /// `:=`
    ColonEqual,
    /// `+`
    Plus,
    /// `-`
    Minus,
    /// `*`
    Star,
    /// `/`
    Slash,
    /// `\`
    Backslash,
    /// `^`
    Caret,
    /// `&`
    Ampersand,
    /// `#`
    Hash,
}

/// A literal. A `bool` says whether it is spelt in hexadecimal or octal.
#[derive(Drop)]
pub enum Literal6 {
    /// An Integer.
    Int(i16, bool),
    /// A Long.
    Long(i32, bool),
    /// A Currency, in ten-thousandths.
    Cur(i64),
    /// A decimal number without a type of its own, in ten-thousandths.
    Plain(i64),
    /// A number of a floating type.
    Floating,
    Date,
    /// A text between quotes, as UTF-16 units without the quotes.
    Str(Wide),
}

/// What a token is.
#[derive(Drop)]
pub enum TokenKind {
    /// A word with its suffix.
    Word(Name, Suffix),
    /// A word in brackets with its suffix: a name, and never a keyword.
    Bracketed(Name, Suffix),
    Lit(Literal6),
    Sign(Sign),
}

/// A token of a logical line.
#[derive(Drop)]
pub struct Token {
    pub kind: TokenKind,
    /// The physical line on which it begins, from 1.
    pub line: u32,
    /// Where it begins in the text of its logical line, in units from 0.
    pub from: u32,
    /// Where it ends there: the place behind its last unit.
    pub to: u32,
}

/// A list of tokens.
pub type Tokens = Sequence<Token>;

/// A logical line: physical lines that are joined where one is continued.
#[derive(Drop)]
pub struct Line {
    /// Its first physical line.
    pub place: Place,
    /// Its text in UTF-16 units, where each continuation is one blank.
    pub text: Wide,
    pub tokens: Tokens,
    /// What stands behind the apostrophe or the word Rem.
    pub comment: Option<Wide>,
}

/// A list of logical lines.
pub type Lines = Sequence<Line>;
