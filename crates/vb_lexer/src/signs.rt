//! Signs of one unit or two.
ghost use Rattle.std.specs.Prelude.{◌≡◌, length, None};
ghost use Rattle.vb_lexer.specs.Found.{IsWithin};
ghost use Rattle.vb_tree.specs.Tokens.{single_sign, double_sign, sign_or, sign_at};

use vb_tree::{Sign, TokenKind};

// The sign of two units.
fn double_sign(c: u16, d: u16) -> Option<Sign>
    ensures { result ≡ double_sign c d }
{
    if c == 60 && d == 61 {
        Some(Sign::LessEqual)
    } else if c == 62 && d == 61 {
        Some(Sign::GreaterEqual)
    } else if c == 60 && d == 62 {
        Some(Sign::NotEqual)
    } else if c == 58 && d == 61 {
        Some(Sign::ColonEqual)
    } else {
        None
    }
}

// The sign of one unit.
fn single_sign(c: u16) -> Option<Sign>
    ensures { result ≡ single_sign c }
{
    match c {
        40 => Some(Sign::OpenParen),
        41 => Some(Sign::CloseParen),
        44 => Some(Sign::Comma),
        59 => Some(Sign::Semicolon),
        58 => Some(Sign::Colon),
        46 => Some(Sign::Dot),
        33 => Some(Sign::Bang),
        61 => Some(Sign::Equal),
        60 => Some(Sign::Less),
        62 => Some(Sign::Greater),
        43 => Some(Sign::Plus),
        45 => Some(Sign::Minus),
        42 => Some(Sign::Star),
        47 => Some(Sign::Slash),
        92 => Some(Sign::Backslash),
        94 => Some(Sign::Caret),
        38 => Some(Sign::Ampersand),
        35 => Some(Sign::Hash),
        _ => None,
    }
}

fn lone_sign(c: u16) -> Option<(TokenKind, usize)>
    ensures sign { result ≡ sign_or (single_sign c) 1 None }
    ensures within { IsWithin 1 result }
{
    match single_sign(c) {
        Some(sign) => Some((TokenKind::Sign(sign), 1)),
        None => None,
    }
}

/// The sign at the front: the one of two units before that of one.
#[tactic(auto, unfolding(vb_tree::specs::Tokens::sign_at))]
pub(crate) fn sign_at(units: &[u16]) -> Option<(TokenKind, usize)>
    ensures sign { result ≡ sign_at units.now }
    ensures within { IsWithin (length units.now) result }
{
    match units {
        [] => None,
        [c] => lone_sign(*c),
        [c, d, ..] => match double_sign(*c, *d) {
            Some(sign) => Some((TokenKind::Sign(sign), 2)),
            None => lone_sign(*c),
        },
    }
}
