//! Targets: a word, Me, `.n` or `!n`, and then members and argument lists.
ghost use Rattle.std.specs.Prelude.{◌≡◌, ◌+◌, ◌-◌, ◌<◌, ◌≤◌, ◌^◌};
ghost use Rattle.form_parts.specs.Chains.{is_no_target, at_start, at_end, at_inside, link_after, last_link, is_member, is_whole, IsCalleeLength};
ghost use Rattle.form_parts.specs.Opened.{opened};

use crate::words::is_key;
use vb_tree::{Sign, Token, TokenKind};

/// What the tokens so far end in.
#[derive(Clone, Copy)]
pub enum Link {
    /// No token.
    Begin,
    /// `.` or `!`
    Access,
    /// A word.
    Member,
    /// An argument list that isn't closed, with so many unclosed parentheses inside of it.
    Inside(usize),
    /// An argument list.
    Listed,
    /// They begin no target.
    Broken,
}

// Whether a token is a word that begins an expression and no target.
fn is_no_target(token: &Token) -> bool
    ensures { result ≡ is_no_target token.now.kind }
{
    is_key(token, b"true")
        || is_key(token, b"false")
        || is_key(token, b"nothing")
        || is_key(token, b"empty")
        || is_key(token, b"null")
        || is_key(token, b"not")
}

fn at_start(token: &Token) -> Link
    ensures is { result ≡ at_start token.now.kind }
    ensures few { opened result ≡ 0 }
{
    match &token.kind {
        TokenKind::Word(_, _) => {
            if is_no_target(token) {
                Link::Broken
            } else {
                Link::Member
            }
        }
        TokenKind::Bracketed(_, _) => Link::Member,
        TokenKind::Sign(Sign::Dot) => Link::Access,
        TokenKind::Sign(Sign::Bang) => Link::Access,
        _ => Link::Broken,
    }
}

fn at_end(token: &Token) -> Link
    ensures is { result ≡ at_end token.now.kind }
    ensures few { opened result ≡ 0 }
{
    match &token.kind {
        TokenKind::Sign(Sign::Dot) => Link::Access,
        TokenKind::Sign(Sign::Bang) => Link::Access,
        TokenKind::Sign(Sign::OpenParen) => Link::Inside(0),
        _ => Link::Broken,
    }
}

fn at_inside(unclosed: usize, token: &Token) -> Link
    requires { unclosed < 2 ^ 64 - 1 }
    ensures is { result ≡ at_inside unclosed token.now.kind }
    ensures few { opened result ≤ unclosed + 1 }
{
    match &token.kind {
        TokenKind::Sign(Sign::OpenParen) => Link::Inside(unclosed + 1),
        TokenKind::Sign(Sign::CloseParen) => {
            if unclosed == 0 {
                Link::Listed
            } else {
                Link::Inside(unclosed - 1)
            }
        }
        _ => Link::Inside(unclosed),
    }
}

fn link_after(link: Link, token: &Token) -> Link
    requires { opened link < 2 ^ 64 - 1 }
    ensures is { result ≡ link_after link token.now.kind }
    ensures few { opened result ≤ opened link + 1 }
{
    match link {
        Link::Begin => at_start(token),
        Link::Access => match &token.kind {
            TokenKind::Word(_, _) => Link::Member,
            TokenKind::Bracketed(_, _) => Link::Member,
            _ => Link::Broken,
        },
        Link::Member => at_end(token),
        Link::Listed => at_end(token),
        Link::Inside(unclosed) => at_inside(unclosed, token),
        Link::Broken => Link::Broken,
    }
}

/// What the tokens end in.
pub fn last_link(tokens: &[Token]) -> Link
    ensures { result ≡ last_link tokens.now }
{
    let mut link = Link::Begin;
    for token in tokens {
        link = link_after(link, token);
    }
    link
}

fn is_member(link: Link) -> bool
    ensures { result ≡ is_member link }
{
    matches!(link, Link::Member)
}

/// Whether the tokens are those of a target, given that they are an expression.
pub fn is_target(tokens: &[Token]) -> bool
    ensures { result ≡ is_whole (last_link tokens.now) }
{
    matches!(last_link(tokens), Link::Member | Link::Listed)
}

/// Whether the tokens are those of a target without an argument list at its end, given that they are an expression.
pub fn is_callee(tokens: &[Token]) -> bool
    ensures { result ≡ is_member (last_link tokens.now) }
{
    is_member(last_link(tokens))
}

/// The length of the longest front whose last link is a member, 0 where there is none.
pub fn callee_length(tokens: &[Token]) -> usize
    ensures { IsCalleeLength tokens.now result }
{
    let mut link = Link::Begin;
    let mut len = 0;
    for (at, token) in tokens.iter().enumerate() {
        link = link_after(link, token);
        if is_member(link) {
            len = at + 1;
        }
    }
    len
}
