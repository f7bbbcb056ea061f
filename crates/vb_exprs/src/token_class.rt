//! What a token is in an expression.
ghost use Rattle.std.specs.Prelude.{◌≡◌, [], MatchOption, option_map, map, find, nat_eq};
ghost use Rattle.std.specs.Cmp.Lexicographic.{pointwise};
ghost use Rattle.up_base.specs.Names.{lower_case};
ghost use Rattle.vb_tree.specs.Expressions.{keyword_of, symbol_of, word_symbol, sign_symbol};
ghost use Rattle.vb_exprs.specs.TokenClass.{class_of, keyword_class, rows_with, rows_by_letter};

use up_base::Name;
use vb_tree::{BinOp, Sign, Suffix, Token, TokenKind};

/// What a token is in an expression, without its text.
#[derive(Clone, Copy)]
pub enum Class {
    Literal,
    Naming,
    Constant,
    Me,
    New,
    TypeOf,
    AddressOf,
    ByVal,
    Not,
    /// An operator between two operands, and whether it is a word.
    Operator(BinOp, bool),
    /// A reserved word that begins and joins no expression.
    Reserved,
    /// A full stop, or an exclamation mark.
    Access(bool),
    Opening,
    Closing,
    Comma,
    Assign,
    Hash,
    Other,
}

// The reserved words in small letters, each with what it is, by their first letters from a to z.
static BY_LETTER: [&[(&[u8], Class)]; 26] = [
    &[
        (b"addressof", Class::AddressOf),
        (b"and", Class::Operator(BinOp::And, true)),
        (b"as", Class::Reserved),
    ],
    &[(b"byref", Class::Reserved), (b"byval", Class::ByVal)],
    &[
        (b"call", Class::Reserved),
        (b"case", Class::Reserved),
        (b"const", Class::Reserved),
    ],
    &[
        (b"declare", Class::Reserved),
        (b"dim", Class::Reserved),
        (b"do", Class::Reserved),
    ],
    &[
        (b"each", Class::Reserved),
        (b"else", Class::Reserved),
        (b"elseif", Class::Reserved),
        (b"empty", Class::Constant),
        (b"end", Class::Reserved),
        (b"enum", Class::Reserved),
        (b"eqv", Class::Operator(BinOp::Eqv, true)),
        (b"erase", Class::Reserved),
        (b"event", Class::Reserved),
        (b"exit", Class::Reserved),
    ],
    &[
        (b"false", Class::Constant),
        (b"for", Class::Reserved),
        (b"friend", Class::Reserved),
        (b"function", Class::Reserved),
    ],
    &[
        (b"global", Class::Reserved),
        (b"gosub", Class::Reserved),
        (b"goto", Class::Reserved),
    ],
    &[],
    &[
        (b"if", Class::Reserved),
        (b"imp", Class::Operator(BinOp::Imp, true)),
        (b"implements", Class::Reserved),
        (b"in", Class::Reserved),
        (b"is", Class::Operator(BinOp::Is, true)),
    ],
    &[],
    &[],
    &[
        (b"let", Class::Reserved),
        (b"like", Class::Operator(BinOp::Like, true)),
        (b"loop", Class::Reserved),
        (b"lset", Class::Reserved),
    ],
    &[
        (b"me", Class::Me),
        (b"mod", Class::Operator(BinOp::Mod, true)),
    ],
    &[
        (b"new", Class::New),
        (b"next", Class::Reserved),
        (b"not", Class::Not),
        (b"nothing", Class::Constant),
        (b"null", Class::Constant),
    ],
    &[
        (b"on", Class::Reserved),
        (b"option", Class::Reserved),
        (b"optional", Class::Reserved),
        (b"or", Class::Operator(BinOp::Or, true)),
    ],
    &[
        (b"paramarray", Class::Reserved),
        (b"preserve", Class::Reserved),
        (b"private", Class::Reserved),
        (b"public", Class::Reserved),
    ],
    &[],
    &[
        (b"raiseevent", Class::Reserved),
        (b"redim", Class::Reserved),
        (b"rem", Class::Reserved),
        (b"resume", Class::Reserved),
        (b"return", Class::Reserved),
        (b"rset", Class::Reserved),
    ],
    &[
        (b"select", Class::Reserved),
        (b"set", Class::Reserved),
        (b"static", Class::Reserved),
        (b"stop", Class::Reserved),
        (b"sub", Class::Reserved),
    ],
    &[
        (b"then", Class::Reserved),
        (b"to", Class::Reserved),
        (b"true", Class::Constant),
        (b"type", Class::Reserved),
        (b"typeof", Class::TypeOf),
    ],
    &[(b"until", Class::Reserved)],
    &[],
    &[
        (b"wend", Class::Reserved),
        (b"while", Class::Reserved),
        (b"with", Class::Reserved),
        (b"withevents", Class::Reserved),
    ],
    &[(b"xor", Class::Operator(BinOp::Xor, true))],
    &[],
    &[],
];

fn table() -> &'static [&'static [(&'static [u8], Class)]]
    ensures { map (λ rows. map (λ r. (r.0.now, r.1)) rows.now) result.now ≡ rows_by_letter }
{
    &BY_LETTER
}

// The reserved words that begin with a letter, if there are any.
fn rows_with(letter: u8) -> Option<&'static [(&'static [u8], Class)]>
    ensures { MatchOption result (rows_with letter ≡ []) (λ rows. map (λ r. (r.0.now, r.1)) rows.now ≡ rows_with letter) }
{
    if letter < b'a' {
        return None;
    }
    match table().get(usize::from(letter - b'a')) {
        Some(rows) => Some(rows),
        None => None,
    }
}

// What the first row of a word says.
fn row_of(rows: &[(&[u8], Class)], word: &[u8]) -> Option<Class>
    ensures { result ≡ option_map (λ r. r.1) (find (λ r. pointwise nat_eq word.now r.0.now) rows.now) }
{
    rows.iter().find(|row| word == row.0).map(|row| row.1)
}

// What a word in small letters is, if it is reserved.
fn keyword(lower: &[u8]) -> Option<Class>
    ensures { result ≡ option_map keyword_class (keyword_of lower.now) }
{
    let [first, ..] = lower else {
        return None;
    };
    match rows_with(*first) {
        Some(rows) => row_of(rows, lower),
        None => None,
    }
}

/// What a word with its suffix is.
pub fn word_class(name: &Name, suffix: Suffix) -> Class
    ensures { result ≡ class_of (word_symbol (keyword_of (lower_case name.now)) name.now suffix) }
{
    match keyword(name.lower_bytes()) {
        None => Class::Naming,
        Some(class) => match suffix {
            Suffix::Absent => class,
            _ => Class::Reserved,
        },
    }
}

fn sign_class(sign: Sign) -> Class
    ensures { result ≡ class_of (sign_symbol sign) }
{
    match sign {
        Sign::OpenParen => Class::Opening,
        Sign::CloseParen => Class::Closing,
        Sign::Comma => Class::Comma,
        Sign::Dot => Class::Access(false),
        Sign::Bang => Class::Access(true),
        Sign::Equal => Class::Operator(BinOp::Equal, false),
        Sign::Less => Class::Operator(BinOp::Less, false),
        Sign::Greater => Class::Operator(BinOp::Greater, false),
        Sign::LessEqual => Class::Operator(BinOp::LessEqual, false),
        Sign::GreaterEqual => Class::Operator(BinOp::GreaterEqual, false),
        Sign::NotEqual => Class::Operator(BinOp::NotEqual, false),
        Sign::ColonEqual => Class::Assign,
        Sign::Plus => Class::Operator(BinOp::Add, false),
        Sign::Minus => Class::Operator(BinOp::Sub, false),
        Sign::Star => Class::Operator(BinOp::Mul, false),
        Sign::Slash => Class::Operator(BinOp::Div, false),
        Sign::Backslash => Class::Operator(BinOp::IntDiv, false),
        Sign::Caret => Class::Operator(BinOp::Pow, false),
        Sign::Ampersand => Class::Operator(BinOp::Concat, false),
        Sign::Hash => Class::Hash,
        Sign::Semicolon | Sign::Colon => Class::Other,
    }
}

/// What a token is.
pub fn class_at(token: &Token) -> Class
    ensures { result ≡ class_of (symbol_of token.now.kind) }
{
    match &token.kind {
        TokenKind::Word(name, suffix) => word_class(name, *suffix),
        TokenKind::Bracketed(_, _) => Class::Naming,
        TokenKind::Lit(_) => Class::Literal,
        TokenKind::Sign(sign) => sign_class(*sign),
    }
}
