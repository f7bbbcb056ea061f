//! What stands at the front and at the end of statements.
ghost use Rattle.std.specs.Prelude.{◌≡◌, Some};
ghost use Rattle.statement_forms.specs.Answer.{tail_now, each_now};
ghost use Rattle.statement_forms.specs.Fronts.{behind_key, is_found, past_word, is_ending, before_last, behind_debug, is_mid, mid_list, named_each, each_parts, is_sign_of, dot_sign, access_sign};

use form_parts::{is_key, name_of};
use up_base::Name;
use vb_tree::{Sign, Suffix, Token, TokenKind};

/// A last token: the word Then, a semicolon or a closing parenthesis.
#[derive(Clone, Copy)]
pub enum Ending {
    Then,
    Semicolon,
    Closing,
}

/// What stands behind the keyword at the front, given in small letters.
pub fn behind_key<'a>(tokens: &'a [Token], word: &[u8]) -> Option<&'a [Token]>
    ensures { tail_now result ≡ behind_key word.now tokens.now }
{
    let [first, rest @ ..] = tokens else {
        return None;
    };
    if !is_key(first, word) {
        return None;
    }
    Some(rest)
}

/// Whether the keyword stands at the front.
pub fn begins_with(tokens: &[Token], word: &[u8]) -> bool
    ensures { result ≡ is_found (behind_key word.now tokens.now) }
{
    match behind_key(tokens, word) {
        Some(_) => true,
        None => false,
    }
}

/// The tokens without the keyword at their front.
pub fn past_word<'a>(tokens: &'a [Token], word: &[u8]) -> &'a [Token]
    ensures { result.now ≡ past_word word.now tokens.now }
{
    match behind_key(tokens, word) {
        Some(rest) => rest,
        None => tokens,
    }
}

fn is_ending(ending: Ending, token: &Token) -> bool
    ensures { result ≡ is_ending ending token.now }
{
    match ending {
        Ending::Then => is_key(token, b"then"),
        Ending::Semicolon => matches!(&token.kind, TokenKind::Sign(Sign::Semicolon)),
        Ending::Closing => matches!(&token.kind, TokenKind::Sign(Sign::CloseParen)),
    }
}

/// What stands before the last token, where that is the one that is asked for.
pub fn before_last(tokens: &[Token], ending: Ending) -> Option<&[Token]>
    ensures { tail_now result ≡ before_last (is_ending ending) tokens.now }
{
    let (last, front) = tokens.split_last()?;
    if !is_ending(ending, last) {
        return None;
    }
    Some(front)
}

/// Whether a token is a full stop.
pub fn is_dot(token: &Token) -> bool
    ensures { result ≡ is_sign_of dot_sign token.now.kind }
{
    matches!(&token.kind, TokenKind::Sign(Sign::Dot))
}

/// Whether a token is a full stop or an exclamation mark.
pub fn is_access(token: &Token) -> bool
    ensures { result ≡ is_sign_of access_sign token.now.kind }
{
    matches!(&token.kind, TokenKind::Sign(Sign::Dot | Sign::Bang))
}

/// What stands behind Debug, a full stop and the keyword.
pub fn behind_debug<'a>(tokens: &'a [Token], word: &[u8]) -> Option<&'a [Token]>
    ensures { tail_now result ≡ behind_debug word.now tokens.now }
{
    let [first, second, third, rest @ ..] = tokens else {
        return None;
    };
    if !(is_key(first, b"debug") && is_dot(second) && is_key(third, word)) {
        return None;
    }
    Some(rest)
}

// Whether a token is the word Mid or Mid$.
fn is_mid(token: &Token) -> bool
    ensures { result ≡ is_mid token.now.kind }
{
    match &token.kind {
        TokenKind::Word(name, Suffix::Absent) => name.lower_bytes() == b"mid".as_slice(),
        TokenKind::Word(name, Suffix::Str) => name.lower_bytes() == b"mid".as_slice(),
        _ => false,
    }
}

/// The tokens between the parentheses behind Mid.
pub fn mid_list(tokens: &[Token]) -> Option<&[Token]>
    ensures { tail_now result ≡ mid_list tokens.now }
{
    let [first, second, rest @ ..] = tokens else {
        return None;
    };
    if !is_mid(first) {
        return None;
    }
    let TokenKind::Sign(Sign::OpenParen) = &second.kind else {
        return None;
    };
    before_last(rest, Ending::Closing)
}

// A name and the tokens behind In.
fn named_each(tokens: &[Token]) -> Option<(&Name, Suffix, &[Token])>
    ensures { each_now result ≡ named_each tokens.now }
{
    let [first, rest @ ..] = tokens else {
        return None;
    };
    let (name, suffix) = name_of(first)?;
    let items = behind_key(rest, b"in")?;
    Some((name, suffix, items))
}

/// The name of a `For Each` and the tokens behind In.
pub fn each_parts(tokens: &[Token]) -> Option<(&Name, Suffix, &[Token])>
    ensures { each_now result ≡ each_parts tokens.now }
{
    let rest = behind_key(tokens, b"for")?;
    let named = behind_key(rest, b"each")?;
    named_each(named)
}
