//! Lines that are kept as their tokens.
ghost use Rattle.std.specs.Prelude.{◌≡◌, false};
ghost use Rattle.statement_forms.specs.Fronts.{is_sign_of, part_sign, is_column_word, has_column, keeps_any, keeps_file, keeps_more, begins_part, begins_procedure, keeps_first, keeps, is_name_of, draws};

use crate::fronts::{behind_debug, is_access};
use form_parts::is_key;
use vb_tree::{Sign, Token, TokenKind};

fn is_column_word(token: &Token) -> bool
    ensures { result ≡ is_column_word token.now }
{
    is_key(token, b"tab") || is_key(token, b"spc")
}

/// Whether the word Tab or Spc stands in the tokens other than behind `.` or `!`.
pub fn has_column(tokens: &[Token]) -> bool
    ensures { result ≡ has_column false tokens.now }
{
    let mut named = false;
    for token in tokens {
        if !named && is_column_word(token) {
            return true;
        }
        named = is_access(token);
    }
    false
}

fn keeps_any(token: &Token) -> bool
    ensures { result ≡ keeps_any token.now }
{
    is_key(token, b"gosub")
        || is_key(token, b"return")
        || is_key(token, b"stop")
        || is_key(token, b"lset")
        || is_key(token, b"rset")
        || is_key(token, b"raiseevent")
}

fn keeps_file(token: &Token) -> bool
    ensures { result ≡ keeps_file token.now }
{
    is_key(token, b"close")
        || is_key(token, b"error")
        || is_key(token, b"get")
        || is_key(token, b"input")
        || is_key(token, b"kill")
        || is_key(token, b"line")
        || is_key(token, b"load")
        || is_key(token, b"lock")
}

fn keeps_more(token: &Token) -> bool
    ensures { result ≡ keeps_more token.now }
{
    is_key(token, b"name")
        || is_key(token, b"open")
        || is_key(token, b"print")
        || is_key(token, b"put")
        || is_key(token, b"seek")
        || is_key(token, b"unload")
        || is_key(token, b"unlock")
        || is_key(token, b"write")
}

// Whether a `=`, a full stop or a parenthesis stands first.
fn begins_part(tokens: &[Token]) -> bool
    ensures { result ≡ begins_part tokens.now }
{
    match tokens {
        [first, ..] => matches!(
            &first.kind,
            TokenKind::Sign(Sign::Equal | Sign::Dot | Sign::OpenParen)
        ),
        [] => false,
    }
}

// Whether the word of a procedure stands first.
fn begins_procedure(tokens: &[Token]) -> bool
    ensures { result ≡ begins_procedure tokens.now }
{
    match tokens {
        [first, ..] => {
            is_key(first, b"sub") || is_key(first, b"function") || is_key(first, b"property")
        }
        [] => false,
    }
}

// Whether the first word is one whose line is kept.
fn keeps_first(tokens: &[Token]) -> bool
    ensures { result ≡ keeps_first tokens.now }
{
    match tokens {
        [first, rest @ ..] => {
            keeps_any(first)
                || (is_key(first, b"end") && !begins_procedure(rest))
                || ((keeps_file(first) || keeps_more(first)) && !begins_part(rest))
        }
        [] => false,
    }
}

/// Whether a line is kept for its first words.
pub fn keeps(tokens: &[Token]) -> bool
    ensures { result ≡ keeps tokens.now }
{
    keeps_first(tokens) || behind_debug(tokens, b"assert").is_some()
}

// Whether a word has this name, in brackets or not and in any case.
fn is_name_of(token: &Token, word: &[u8]) -> bool
    ensures { result ≡ is_name_of word.now token.now.kind }
{
    match &token.kind {
        TokenKind::Word(name, _) => name.lower_bytes() == word,
        TokenKind::Bracketed(name, _) => name.lower_bytes() == word,
        _ => false,
    }
}

/// Whether a token names a member that draws.
pub fn draws(token: &Token) -> bool
    ensures { result ≡ draws token.now }
{
    is_name_of(token, b"circle")
        || is_name_of(token, b"line")
        || is_name_of(token, b"print")
        || is_name_of(token, b"pset")
        || is_name_of(token, b"scale")
}
