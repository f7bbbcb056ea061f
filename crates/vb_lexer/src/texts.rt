//! Texts and dates.
ghost use Rattle.std.specs.Prelude.{◌≡◌, ◌+◌, ◌==◌, drop, ◌<◌, ◌≤◌, true, false, length, IfOk, IfSome};
ghost use Rattle.vb_lexer.specs.Found.{IsWithin};
ghost use Rattle.vb_tree.specs.Tokens.{begins, text_from, text_at, is_paired, is_date, date_units, run, is_date_unit};

use crate::units::{UnitClass, is_a_or_p, is_line_end, is_m, run};
use crate::words::begins_with;
use std::alloc::Global;
use up_base::{Mem, Wide};
use vb_tree::{Literal6, TokenKind};

// Whether a quote stands at a place.
fn is_quote_at(units: &[u16], at: usize) -> bool
    requires { at ≤ length units.now }
    ensures { result ≡ begins (λ c. c == 34) (drop at units.now) }
{
    begins_with(&units[at..], 34)
}

// What stands between the quotes, from behind the opening one, and how many units that takes with the closing one.
fn text_from(alloc: Global, units: &[u16]) -> Result<Option<(Wide, usize)>, Mem>
    ensures text { IfOk result (λ found. found ≡ text_from units.now) }
    ensures within { IfOk result (λ found. IfSome found (λ x. x.1 ≤ length units.now)) }
{
    let mut text = Wide::new(alloc);
    let mut at = 0;
    while at < units.len() {
        let c = units[at];
        if is_line_end(c) {
            return Ok(None);
        }
        if c == 34 {
            if !is_quote_at(units, at + 1) {
                return Ok(Some((text, at + 1)));
            }
            text.push(34)?;
            at += 2;
            continue;
        }
        text.push(c)?;
        at += 1;
    }
    Ok(None)
}

/// The text whose opening quote these units follow; none where it isn't closed.
#[tactic(auto, unfolding(vb_tree::specs::Tokens::text_at))]
pub(crate) fn text_at(alloc: Global, units: &[u16]) -> Result<Option<(TokenKind, usize)>, Mem>
    ensures text { IfOk result (λ found. found ≡ text_at units.now) }
    ensures within { IfOk result (λ found. IsWithin (length units.now + 1) found) }
{
    match text_from(alloc, units)? {
        Some((mut text, n)) => {
            text.shrink_to_fit();
            Ok(Some((TokenKind::Lit(Literal6::Str(text)), 1 + n)))
        }
        None => Ok(None),
    }
}

// Whether M stands exactly behind A or P.
fn is_paired(units: &[u16]) -> bool
    ensures { result ≡ is_paired false units.now }
{
    let mut before = false;
    for c in units {
        if before != is_m(*c) {
            return false;
        }
        before = is_a_or_p(*c);
    }
    true
}

/// How many units stand between the opening `#` of a date, which these units follow, and the closing one.
pub(crate) fn date_units(units: &[u16]) -> usize
    ensures units { result ≡ date_units units.now }
    ensures within { result ≤ length units.now }
{
    run(UnitClass::DateUnit, units)
}

/// Whether these units follow the opening `#` of a date.
#[tactic(auto, unfolding(vb_tree::specs::Tokens::is_date))]
pub(crate) fn is_date(units: &[u16]) -> bool
    ensures date { result ≡ is_date units.now }
    ensures within { result ≡ true → date_units units.now < length units.now }
{
    let n = date_units(units);
    if !begins_with(&units[n..], 35) {
        return false;
    }
    is_paired(&units[..n + 1])
}
