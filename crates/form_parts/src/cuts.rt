//! Cuts at signs that stand outside of parentheses.
ghost use Rattle.std.specs.Prelude.{◌≡◌, ◌+◌, ◌-◌, ◌≤◌, ◌<◌, ◌^◌};
ghost use Rattle.form_parts.specs.Cuts.{is_separator, open_after, parts_here, parted};
ghost use Rattle.form_parts.specs.Now.{both_now};

use vb_tree::{Sign, Token, TokenKind};

/// A sign that stands between parts.
#[derive(Clone, Copy)]
pub enum Separator {
    Comma,
    Semicolon,
    Equal,
    /// `)`
    Closing,
}

fn is_separator(separator: Separator, token: &Token) -> bool
    ensures { result ≡ is_separator separator token.now.kind }
{
    let TokenKind::Sign(sign) = &token.kind else {
        return false;
    };
    match separator {
        Separator::Comma => matches!(sign, Sign::Comma),
        Separator::Semicolon => matches!(sign, Sign::Semicolon),
        Separator::Equal => matches!(sign, Sign::Equal),
        Separator::Closing => matches!(sign, Sign::CloseParen),
    }
}

// How many parentheses are unclosed behind a token.
fn open_after(unclosed: usize, token: &Token) -> usize
    requires { unclosed < 2 ^ 64 - 1 }
    ensures is { result ≡ open_after unclosed token.now.kind }
    ensures most { result ≤ unclosed + 1 }
{
    match &token.kind {
        TokenKind::Sign(Sign::OpenParen) => unclosed + 1,
        TokenKind::Sign(Sign::CloseParen) => unclosed.saturating_sub(1),
        _ => unclosed,
    }
}

fn parts_here(separator: Separator, unclosed: usize, token: &Token) -> bool
    ensures { result ≡ parts_here separator unclosed token.now.kind }
{
    unclosed == 0 && is_separator(separator, token)
}

/// What stands before and behind the first such sign outside of parentheses.
pub fn parted(separator: Separator, tokens: &[Token]) -> Option<(&[Token], &[Token])>
    ensures { both_now result ≡ parted separator tokens.now }
{
    let mut unclosed = 0;
    for (at, token) in tokens.iter().enumerate() {
        if parts_here(separator, unclosed, token) {
            return Some((&tokens[..at], &tokens[at + 1..]));
        }
        unclosed = open_after(unclosed, token);
    }
    None
}
