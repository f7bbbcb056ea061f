//! The token at the front of the rest of a line.
ghost use Rattle.std.specs.Prelude.{◌≡◌, ◌==◌, ◌||◌, ◌&&◌, IfOk, length};
ghost use Rattle.vb_lexer.specs.Found.{IsWithin};
ghost use Rattle.vb_tree.specs.Tokens.{token_at, is_digit, begins};

use crate::numbers::{decimal_at, radix_at, radix_digits};
use crate::signs::sign_at;
use crate::texts::{date_units, is_date, text_at};
use crate::units::{begins_with_digit, digit_value, is_letter};
use crate::words::{bracketed_at, word_at};
use std::alloc::Global;
use up_base::Mem;
use vb_tree::{Literal6, TokenKind};

/// The token at the front, with its number of units; none where no token begins there, where a text isn't closed, where a
/// number can't be held and where a name is too long.
#[tactic(auto, using(crate::proofs::Runs::decimal_some), unfolding(vb_tree::specs::Tokens::token_at))]
pub(crate) fn token_at(alloc: Global, units: &[u16]) -> Result<Option<(TokenKind, usize)>, Mem>
    ensures token { IfOk result (λ found. found ≡ token_at units.now) }
    ensures within { IfOk result (λ found. IsWithin (length units.now) found) }
{
    let [first, after @ ..] = units else {
        return Ok(None);
    };
    let c = *first;
    if is_letter(c) {
        return Ok(word_at(alloc, units)?);
    }
    if is_decimal(c, after) {
        return Ok(decimal_at(units));
    }
    if c == 34 {
        return Ok(text_at(alloc, after)?);
    }
    if c == 91 {
        return Ok(bracketed_at(alloc, after)?);
    }
    if c == 38 && radix_digits(after) > 0 {
        return Ok(radix_at(after));
    }
    if c == 35 && is_date(after) {
        return Ok(Some((TokenKind::Lit(Literal6::Date), date_units(after) + 2)));
    }
    Ok(sign_at(units))
}

// Whether a decimal number begins with this unit, which these units follow.
fn is_decimal(c: u16, after: &[u16]) -> bool
    ensures { result ≡ (is_digit c || (c == 46 && begins is_digit after.now)) }
{
    digit_value(c) < 10 || (c == 46 && begins_with_digit(after))
}
