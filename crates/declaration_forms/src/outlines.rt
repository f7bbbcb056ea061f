//! What declarations have in common: a name, and perhaps parentheses and a type behind it.
ghost use Rattle.std.specs.Prelude.{◌≡◌, ◌+◌, ◌-◌, ◌≤◌, ◌<◌, ◌^◌, map, nat_eq};
ghost use Rattle.std.specs.List.{list_any};
ghost use Rattle.std.specs.Cmp.Lexicographic.{pointwise};
ghost use Rattle.form_parts.specs.Cuts.{open_after};
ghost use Rattle.form_parts.specs.Now.{both_now, name_now};
ghost use Rattle.declaration_forms.specs.Now.{tokens_now, twice_now, outline_now};
ghost use Rattle.declaration_forms.specs.Outlines.{type_words, is_type_word, can_be_declared, declared_name, is_as, typed, is_opening, is_closing, before_closing, in_parentheses, named_outline, outline_of, field_name, field_outline};

use form_parts::{is_key, name_of};
use up_base::Name;
use vb_tree::{Sign, Suffix, Token, TokenKind};

/// The outline of `n [( .. )] [As ..]`: a name with its suffix, and the tokens that stand in parentheses behind it and
/// behind As.
#[derive(Clone, Copy)]
pub struct Outlined<'a> {
    pub name: &'a Name,
    pub suffix: Suffix,
    pub inside: Option<&'a [Token]>,
    pub ty: Option<&'a [Token]>,
}

const TYPE_WORDS: [&[u8]; 11] = [
    b"boolean",
    b"byte",
    b"currency",
    b"date",
    b"double",
    b"integer",
    b"long",
    b"object",
    b"single",
    b"string",
    b"variant",
];

// The types that the language has, in small letters.
fn type_words() -> &'static [&'static [u8]]
    ensures { map (λ t. t.now) result.now ≡ type_words }
{
    &TYPE_WORDS
}

fn is_one_of(words: &[&[u8]], word: &[u8]) -> bool
    ensures { result ≡ list_any (λ t. pointwise nat_eq word.now t.now) words.now }
{
    words.iter().any(|t| word == *t)
}

// Whether a word in small letters is a type that the language has.
fn is_type_word(word: &[u8]) -> bool
    ensures { result ≡ is_type_word word.now }
{
    is_one_of(type_words(), word)
}

fn can_be_declared(token: &Token) -> bool
    ensures { result ≡ can_be_declared token.now.kind }
{
    match &token.kind {
        TokenKind::Word(name, _) => !is_type_word(name.lower_bytes()),
        _ => true,
    }
}

/// The name that a token declares, with its suffix.
pub fn declared_name(token: &Token) -> Option<(&Name, Suffix)>
    ensures { name_now result ≡ declared_name token.now }
{
    if can_be_declared(token) {
        return name_of(token);
    }
    None
}

// How many parentheses are unclosed behind a token.
fn open_after(unclosed: usize, token: &Token) -> usize
    requires { unclosed < 2 ^ 64 - 1 }
    ensures is { result ≡ open_after unclosed token.now.kind }
    ensures most { result ≤ unclosed + 1 }
{
    match &token.kind {
        TokenKind::Sign(Sign::OpenParen) => unclosed + 1,
        TokenKind::Sign(Sign::CloseParen) => unclosed.saturating_sub(1),
        _ => unclosed,
    }
}

fn is_as(unclosed: usize, token: &Token) -> bool
    ensures { result ≡ is_as unclosed token.now.kind }
{
    unclosed == 0 && is_key(token, b"as")
}

// What stands before and behind the first As outside of parentheses.
fn typed(tokens: &[Token]) -> Option<(&[Token], &[Token])>
    ensures { both_now result ≡ typed tokens.now }
{
    let mut unclosed = 0;
    for (at, token) in tokens.iter().enumerate() {
        if is_as(unclosed, token) {
            return Some((&tokens[..at], &tokens[at + 1..]));
        }
        unclosed = open_after(unclosed, token);
    }
    None
}

/// Whether a token is an opening parenthesis.
pub fn is_opening(token: &Token) -> bool
    ensures { result ≡ is_opening token.now.kind }
{
    match &token.kind {
        TokenKind::Sign(Sign::OpenParen) => true,
        _ => false,
    }
}

/// Whether a token is a closing parenthesis.
pub fn is_closing(token: &Token) -> bool
    ensures { result ≡ is_closing token.now.kind }
{
    match &token.kind {
        TokenKind::Sign(Sign::CloseParen) => true,
        _ => false,
    }
}

/// What stands before the closing parenthesis that the tokens end with.
pub fn before_closing(tokens: &[Token]) -> Option<&[Token]>
    ensures { tokens_now result ≡ before_closing tokens.now }
{
    let (last, before) = tokens.split_last()?;
    if is_closing(last) {
        return Some(before);
    }
    None
}

// What stands between the parentheses that the tokens begin and end with; no tokens have none.
fn in_parentheses(tokens: &[Token]) -> Option<Option<&[Token]>>
    ensures { twice_now result ≡ in_parentheses tokens.now }
{
    match tokens {
        [] => Some(None),
        [first, rest @ ..] => {
            if is_opening(first) {
                let inside = before_closing(rest)?;
                return Some(Some(inside));
            }
            None
        }
    }
}

fn named_outline<'a>(ty: Option<&'a [Token]>, tokens: &'a [Token]) -> Option<Outlined<'a>>
    ensures { outline_now result ≡ named_outline (tokens_now ty.entry) tokens.now }
{
    match tokens {
        [] => None,
        [first, rest @ ..] => {
            let (name, suffix) = declared_name(first)?;
            let inside = in_parentheses(rest)?;
            Some(Outlined {
                name,
                suffix,
                inside,
                ty,
            })
        }
    }
}

/// The outline of a declaration.
pub fn outline_of(tokens: &[Token]) -> Option<Outlined<'_>>
    ensures { outline_now result ≡ outline_of tokens.now }
{
    match typed(tokens) {
        None => named_outline(None, tokens),
        Some((before, behind)) => named_outline(Some(behind), before),
    }
}

// The name of a field: any word, with its suffix.
fn field_name(token: &Token) -> Option<(&Name, Suffix)>
    ensures { name_now result ≡ field_name token.now.kind }
{
    match &token.kind {
        TokenKind::Word(name, suffix) => Some((name, *suffix)),
        TokenKind::Bracketed(name, suffix) => Some((name, *suffix)),
        _ => None,
    }
}

/// The outline of a field of a Type, whose name may be a reserved word or a type word, As among them.
pub fn field_outline(tokens: &[Token]) -> Option<Outlined<'_>>
    ensures { outline_now result ≡ field_outline tokens.now }
{
    match tokens {
        [] => None,
        [first, rest @ ..] => {
            let (before, behind) = typed(rest)?;
            let (name, suffix) = field_name(first)?;
            let inside = in_parentheses(before)?;
            Some(Outlined {
                name,
                suffix,
                inside,
                ty: Some(behind),
            })
        }
    }
}
