//! Reads literals.
ghost use Rattle.std.specs.Prelude.{◌≡◌, ℕ, ◌+◌, ◌*◌, ◌<◌, ◌≤◌, ◌^◌, true, false, length, IfOk, MatchOption, pos};
ghost use Rattle.net_tree.specs.View.{literal_of};
ghost use Rattle.net_exprs.specs.Answers.{Answers};
ghost use Rattle.net_exprs.specs.Fitting.{fits_literal};
ghost use Rattle.net_exprs.specs.Literals.{decimal_literal, fraction_literal, hexadecimal_literal, literal_at, places_from, text_literal, units_at};
ghost use Rattle.net_exprs.specs.Names.{begins_digit, numeral_from};

use crate::characters::{after, begins_digit, is_digit};
use crate::fail::PhraseFail;
use crate::numerals::numeral;
use net_tree::NetLit;
use std::alloc::Global;
use up_base::Wide;

// What stands behind an opening quote, up to the closing one. A doubled quote is one of the text.
fn quoted(alloc: Global, text: &[u8]) -> Result<(Wide, &[u8]), PhraseFail>
    ensures answers { Answers (λ units. units) (λ units. true) (units_at text.now false) result }
    ensures shorter { IfOk result (λ read. length read.1.now < length text.now) }
{
    let mut units = Wide::new(alloc);
    let mut rest = text;
    'units: loop {
        match rest {
            [b'"', b'"', more @ ..] => {
                units.push(34)?;
                rest = more;
            }
            [b'"', more @ ..] => return Ok((units, more)),
            [c, more @ ..] => {
                units.push(u16::from(*c))?;
                rest = more;
            }
            [] => return Err(PhraseFail::NotNet),
        }
    }
}

// A text, behind its opening quote.
fn text_literal(alloc: Global, text: &[u8]) -> Result<(NetLit, &[u8]), PhraseFail>
    ensures answers { Answers literal_of fits_literal (text_literal (units_at text.now false)) result }
    ensures shorter { IfOk result (λ read. length read.1.now < length text.now) }
    ensures held { IfOk result (λ read. fits_literal (literal_of read.0) ≡ true) }
{
    match quoted(alloc, text) {
        Ok((units, rest)) => Ok((NetLit::Str(units), rest)),
        Err(e) => Err(e),
    }
}

// A number behind `&H`.
#[tactic(auto, using(crate::proofs::Fronts::numeral_no_longer))]
fn hexadecimal_literal(text: &[u8]) -> Result<(NetLit, &[u8]), PhraseFail>
    ensures answers { Answers literal_of fits_literal (hexadecimal_literal (numeral_from 16 0 text.now).0 (numeral_from 16 0 text.now).1) result }
    ensures shorter { IfOk result (λ read. length read.1.now < length text.now) }
    ensures held { IfOk result (λ read. fits_literal (literal_of read.0) ≡ true) }
{
    let Some((number, rest)) = numeral(16, text) else {
        return Err(PhraseFail::NotNet);
    };
    match rest {
        [b'S', more @ ..] => match u16::try_from(number) {
            Ok(bits) => Ok((NetLit::Short(bits.cast_signed(), true), more)),
            Err(_) => Err(PhraseFail::NotNet),
        },
        [b'I', more @ ..] => match u32::try_from(number) {
            Ok(bits) => Ok((NetLit::Integer(bits.cast_signed(), true), more)),
            Err(_) => Err(PhraseFail::NotNet),
        },
        _ => Err(PhraseFail::NotNet),
    }
}

// The decimal places at the front in ten-thousandths, and what follows them. Those behind the fourth count nothing.
fn places(text: &[u8]) -> (u128, &[u8])
    ensures number { result.0 ≡ (places_from 1000 0 text.now).0 }
    ensures rest { result.1.now ≡ (places_from 1000 0 text.now).1 }
    ensures small { result.0 ≤ 10000 }
    ensures shorter { length result.1.now ≤ length text.now }
{
    let mut places = 0;
    let mut weight = 1000;
    let mut rest = text;
    'places: while let [c, more @ ..] = rest {
        if !is_digit(*c) {
            return (places, rest);
        }
        places += u128::from(*c - b'0') * weight;
        weight /= 10;
        rest = more;
    }
    (places, rest)
}

// A Decimal of so many units and ten-thousandths.
fn decimal(units: u128, places: u128) -> Option<i128>
    requires { places ≤ 10000 }
    ensures { MatchOption result (2 ^ 127 ≤ units * 10000 + places) (λ z. z ≡ pos (units * 10000 + places)) }
{
    let number = units.checked_mul(10000)?.checked_add(places)?;
    i128::try_from(number).ok()
}

// A whole number with decimal places, behind the point.
fn fraction_literal(units: u128, text: &[u8]) -> Result<(NetLit, &[u8]), PhraseFail>
    ensures answers { Answers literal_of fits_literal (fraction_literal units (places_from 1000 0 text.now)) result }
    ensures shorter { IfOk result (λ read. length read.1.now < length text.now) }
    ensures held { IfOk result (λ read. fits_literal (literal_of read.0) ≡ true) }
{
    let (places, rest) = places(text);
    let Some(rest) = after(b"D", rest) else {
        return Err(PhraseFail::NotNet);
    };
    match decimal(units, places) {
        Some(number) => Ok((NetLit::Decimal(number), rest)),
        None => Err(PhraseFail::NotNet),
    }
}

// A number of these decimal digits: what follows them tells its type.
fn decimal_literal(number: u128, rest: &[u8]) -> Result<(NetLit, &[u8]), PhraseFail>
    ensures answers { Answers literal_of fits_literal (decimal_literal number rest.now) result }
    ensures shorter { IfOk result (λ read. length read.1.now ≤ length rest.now) }
    ensures held { IfOk result (λ read. fits_literal (literal_of read.0) ≡ true) }
{
    match rest {
        [b'S', more @ ..] => match i16::try_from(number) {
            Ok(number) => Ok((NetLit::Short(number, false), more)),
            Err(_) => Err(PhraseFail::NotNet),
        },
        [b'L', more @ ..] => match i64::try_from(number) {
            Ok(number) => Ok((NetLit::Long(number), more)),
            Err(_) => Err(PhraseFail::NotNet),
        },
        [b'D', more @ ..] => match decimal(number, 0) {
            Some(number) => Ok((NetLit::Decimal(number), more)),
            None => Err(PhraseFail::NotNet),
        },
        [b'.', more @ ..] if begins_digit(more) => fraction_literal(number, more),
        _ => match i32::try_from(number) {
            Ok(number) => Ok((NetLit::Integer(number, false), rest)),
            Err(_) => Err(PhraseFail::NotNet),
        },
    }
}

fn number_literal(text: &[u8]) -> Result<(NetLit, &[u8]), PhraseFail>
    requires { begins_digit text.now ≡ true }
    ensures answers { Answers literal_of fits_literal (decimal_literal (numeral_from 10 0 text.now).0 (numeral_from 10 0 text.now).1) result }
    ensures shorter { IfOk result (λ read. length read.1.now < length text.now) }
    ensures held { IfOk result (λ read. fits_literal (literal_of read.0) ≡ true) }
{
    let Some((number, rest)) = numeral(10, text) else {
        return Err(PhraseFail::NotNet);
    };
    decimal_literal(number, rest)
}

/// Reads a text or a number.
pub(crate) fn read_literal(alloc: Global, text: &[u8]) -> Result<(NetLit, &[u8]), PhraseFail>
    ensures answers { Answers literal_of fits_literal (literal_at text.now) result }
    ensures shorter { IfOk result (λ read. length read.1.now < length text.now) }
    ensures held { IfOk result (λ read. fits_literal (literal_of read.0) ≡ true) }
{
    if begins_digit(text) {
        return number_literal(text);
    }
    match text {
        [b'"', inner @ ..] => text_literal(alloc, inner),
        [b'&', b'H', digits @ ..] => hexadecimal_literal(digits),
        _ => Err(PhraseFail::NotNet),
    }
}
