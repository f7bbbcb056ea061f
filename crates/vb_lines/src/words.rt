//! Tests of single tokens.
ghost use Rattle.std.specs.Prelude.{◌≡◌, ◌&&◌, not, nat_eq, map};
ghost use Rattle.std.specs.List.{list_any};
ghost use Rattle.std.specs.Cmp.Lexicographic.{pointwise};
ghost use Rattle.up_base.specs.Names.{lower_case};
ghost use Rattle.vb_tree.specs.Expressions.{keywords};
ghost use Rattle.vb_lines.specs.Statements.{is_free};
ghost use Rattle.vb_tree.specs.LogicalLines.{is_word, is_colon, is_access, is_line_number};

use up_base::Name;
use vb_tree::{Literal6, Sign, Suffix, TokenKind};

/// Whether a token is a word, given in small letters.
pub(crate) fn is_word(kind: &TokenKind, word: &[u8]) -> bool
    ensures { result ≡ is_word word.now kind.now }
{
    match kind {
        TokenKind::Word(name, Suffix::Absent) => name.lower_bytes() == word,
        _ => false,
    }
}

/// Whether a token is a colon.
pub(crate) fn is_colon(kind: &TokenKind) -> bool
    ensures { result ≡ is_colon kind.now }
{
    match kind {
        TokenKind::Sign(Sign::Colon) => true,
        _ => false,
    }
}

/// Whether a token is a full stop or an exclamation mark, behind which each word is a name.
pub(crate) fn is_access(kind: &TokenKind) -> bool
    ensures { result ≡ is_access kind.now }
{
    match kind {
        TokenKind::Sign(Sign::Dot) => true,
        TokenKind::Sign(Sign::Bang) => true,
        _ => false,
    }
}

/// Whether a token is a decimal number that may be a label.
pub(crate) fn is_line_number(kind: &TokenKind) -> bool
    ensures { result ≡ is_line_number kind.now }
{
    match kind {
        TokenKind::Lit(Literal6::Int(_, radix)) => !*radix,
        TokenKind::Lit(Literal6::Long(_, radix)) => !*radix,
        _ => false,
    }
}

const RESERVED: [&[u8]; 74] = [
    b"addressof",
    b"and",
    b"as",
    b"byref",
    b"byval",
    b"call",
    b"case",
    b"const",
    b"declare",
    b"dim",
    b"do",
    b"each",
    b"else",
    b"elseif",
    b"empty",
    b"end",
    b"enum",
    b"eqv",
    b"erase",
    b"event",
    b"exit",
    b"false",
    b"for",
    b"friend",
    b"function",
    b"global",
    b"gosub",
    b"goto",
    b"if",
    b"imp",
    b"implements",
    b"in",
    b"is",
    b"let",
    b"like",
    b"loop",
    b"lset",
    b"me",
    b"mod",
    b"new",
    b"next",
    b"not",
    b"nothing",
    b"null",
    b"on",
    b"option",
    b"optional",
    b"or",
    b"paramarray",
    b"preserve",
    b"private",
    b"public",
    b"raiseevent",
    b"redim",
    b"rem",
    b"resume",
    b"return",
    b"rset",
    b"select",
    b"set",
    b"static",
    b"stop",
    b"sub",
    b"then",
    b"to",
    b"true",
    b"type",
    b"typeof",
    b"until",
    b"wend",
    b"while",
    b"with",
    b"withevents",
    b"xor",
];

// The reserved words in small letters.
fn reserved() -> &'static [&'static [u8]]
    ensures { map (λ r. r.now) result.now ≡ map (λ k. k.0) keywords }
{
    &RESERVED
}

fn is_among(words: &[&[u8]], word: &[u8]) -> bool
    ensures { result ≡ list_any (λ w. pointwise nat_eq word.now w.now) words.now }
{
    words.iter().any(|w| word == *w)
}

/// Whether a word is no reserved one.
pub(crate) fn is_free(name: &Name) -> bool
    ensures { result ≡ is_free name.now }
{
    !is_among(reserved(), name.lower_bytes())
}
