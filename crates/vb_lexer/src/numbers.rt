//! Decimal, hexadecimal and octal numbers, and their values.
ghost use Rattle.std.specs.Prelude.{◌≡◌, ◌+◌, ◌-◌, ◌*◌, ◌<◌, ◌≤◌, ◌^◌, ◌==◌, true, length, take, drop, Some, None, pos, nat_lt};
ghost use Rattle.std.specs.List.{list_all};
ghost use Rattle.vb_lexer.specs.Classes.{fits};
ghost use Rattle.vb_lexer.specs.Found.{IsWithin};
ghost use Rattle.vb_tree.specs.Tokens.{is_digit, is_digit_of, begins, run, value_from, number_suffix, radix_suffix, suffix_units, fraction_units, exponent_units, ten_thousandths, plain_whole, whole_value, pointed_value, exponent_value, decimal_value, decimal_at, base_of, bit_pattern, radix_value, radix_digits, radix_behind, radix_at, literal_of, is_exponent, sign_units, with_digits, currency};

use crate::units::{UnitClass, run, value};
use crate::words::{begins_with, suffix_of, suffix_units};
use vb_tree::{Literal6, Suffix, TokenKind};

/// How many units a point at the front takes with the digits behind it; 0 where there is no point.
pub(crate) fn fraction_units(units: &[u16]) -> usize
    ensures units { result ≡ fraction_units units.now }
    ensures within { result ≤ length units.now }
    ensures digits { list_all is_digit (drop 1 (take result units.now)) ≡ true }
{
    match units {
        [c, digits @ ..] => {
            if *c == 46 {
                1 + run(UnitClass::Digit, digits)
            } else {
                0
            }
        }
        [] => 0,
    }
}

fn is_exponent(c: u16) -> bool
    ensures { result ≡ is_exponent c }
{
    c == 68 || c == 69 || c == 100 || c == 101
}

fn sign_units(units: &[u16]) -> usize
    ensures units { result ≡ sign_units units.now }
    ensures within { result ≤ length units.now }
{
    match units {
        [c, ..] => { if *c == 43 || *c == 45 { 1 } else { 0 } }
        [] => 0,
    }
}

// How many units the exponent at the front takes; 0 where there is none.
#[tactic(auto, unfolding(vb_tree::specs::Tokens::exponent_units))]
fn exponent_units(units: &[u16]) -> usize
    ensures units { result ≡ exponent_units units.now }
    ensures within { result ≤ length units.now }
{
    match units {
        [c, more @ ..] => {
            if !is_exponent(*c) {
                return 0;
            }
            let signs = sign_units(more);
            let digits = run(UnitClass::Digit, &more[signs..]);
            if digits == 0 {
                return 0;
            }
            1 + signs + digits
        }
        [] => 0,
    }
}

// The suffix of a decimal number that these units follow.
fn number_suffix(after: &[u16]) -> Suffix
    ensures suffix { result ≡ number_suffix after.now }
    ensures within { suffix_units result ≤ length after.now }
{
    match after {
        [] => Suffix::Absent,
        [c, ..] => {
            if *c == 36 {
                Suffix::Absent
            } else {
                suffix_of(*c)
            }
        }
    }
}

// The suffix of a hexadecimal or octal number that these units follow.
fn radix_suffix(after: &[u16]) -> Suffix
    ensures suffix { result ≡ radix_suffix after.now }
    ensures within { suffix_units result ≤ length after.now }
{
    match after {
        [] => Suffix::Absent,
        [c, ..] => {
            if *c == 37 || *c == 38 {
                suffix_of(*c)
            } else {
                Suffix::Absent
            }
        }
    }
}

// The ten-thousandths of one unit in the last of so many digits behind the point.
fn scale(digits: usize) -> u64
    requires { digits ≤ 4 }
    ensures scale { result ≡ 10 ^ (4 - digits) }
    ensures most { result ≤ 10000 }
{
    match digits {
        0 => 10000,
        1 => 1000,
        2 => 100,
        3 => 10,
        _ => 1,
    }
}

// The number that at most ten digits stand for.
#[tactic(auto, using(crate::proofs::Values::ten_digits))]
fn ten_digits(digits: &[u16]) -> u64
    requires digits { list_all is_digit digits.now ≡ true }
    requires few { length digits.now ≤ 10 }
    ensures value { result ≡ value_from 10 0 digits.now }
    ensures most { result ≤ 9999999999 }
{
    match value(10, digits, 9_999_999_999) {
        Some(n) => n,
        None => unreachable!(),
    }
}

// The ten-thousandths that at most four digits behind the point stand for.
#[tactic(auto, using(crate::proofs::Values::four_digits))]
fn fraction_part(digits: &[u16]) -> u64
    requires digits { list_all is_digit digits.now ≡ true }
    requires few { length digits.now ≤ 4 }
    ensures value { result ≡ value_from 10 0 digits.now * 10 ^ (4 - length digits.now) }
    ensures most { result ≤ 99990000 }
{
    match value(10, digits, 9999) {
        Some(n) => n * scale(digits.len()),
        None => unreachable!(),
    }
}

#[tactic(auto, unfolding(vb_tree::specs::Tokens::plain_whole))]
fn plain_whole(digits: &[u16]) -> Literal6
    requires { list_all is_digit digits.now ≡ true }
    ensures { result ≡ plain_whole (value_from 10 0 digits.now) (length digits.now) }
{
    if digits.len() <= 10 {
        let n = ten_digits(digits);
        if n <= 32767 {
            return Literal6::Int(n as i16, false);
        }
        if n <= 2_147_483_647 {
            return Literal6::Long(n as i32, false);
        }
        return Literal6::Plain((n * 10000) as i64);
    }
    match value(10, digits, 2_147_483_647) {
        Some(n) => {
            if n <= 32767 {
                return Literal6::Int(n as i16, false);
            }
            Literal6::Long(n as i32, false)
        }
        None => Literal6::Floating,
    }
}

// A Currency, where it can hold the number.
fn currency(whole: &[u16], fraction: &[u16]) -> Option<Literal6>
    requires digits { list_all is_digit fraction.now ≡ true }
    requires few { length fraction.now ≤ 4 }
    ensures { result ≡ currency (ten_thousandths whole.now fraction.now) }
{
    match value(10, whole, 922_337_203_685_477) {
        Some(n) => {
            let n = n * 10000 + fraction_part(fraction);
            if n > 9_223_372_036_854_775_807 {
                return None;
            }
            Some(Literal6::Cur(n as i64))
        }
        None => None,
    }
}

#[tactic(auto, unfolding(vb_tree::specs::Tokens::whole_value))]
fn whole_value(digits: &[u16], suffix: Suffix) -> Option<Literal6>
    requires { list_all is_digit digits.now ≡ true }
    ensures { result ≡ whole_value digits.now suffix }
{
    match suffix {
        Suffix::Absent => Some(plain_whole(digits)),
        Suffix::Integer => match value(10, digits, 32767) {
            Some(n) => Some(Literal6::Int(n as i16, false)),
            None => None,
        },
        Suffix::Long => match value(10, digits, 2_147_483_647) {
            Some(n) => Some(Literal6::Long(n as i32, false)),
            None => None,
        },
        Suffix::Currency => currency(digits, &[]),
        Suffix::Str => None,
        Suffix::Single => Some(Literal6::Floating),
        Suffix::Double => Some(Literal6::Floating),
    }
}

#[tactic(auto, unfolding(vb_tree::specs::Tokens::pointed_value))]
fn pointed_value(whole: &[u16], fraction: &[u16], suffix: Suffix) -> Option<Literal6>
    requires whole { list_all is_digit whole.now ≡ true }
    requires fraction { list_all is_digit fraction.now ≡ true }
    ensures { result ≡ pointed_value whole.now fraction.now suffix }
{
    match suffix {
        Suffix::Absent => {
            if whole.len() > 10 {
                return Some(Literal6::Floating);
            }
            if fraction.len() > 4 {
                return Some(Literal6::Floating);
            }
            let n = ten_digits(whole) * 10000 + fraction_part(fraction);
            Some(Literal6::Plain(n as i64))
        }
        Suffix::Currency => {
            if fraction.len() > 4 {
                return Some(Literal6::Floating);
            }
            currency(whole, fraction)
        }
        Suffix::Integer => None,
        Suffix::Long => None,
        Suffix::Str => None,
        Suffix::Single => Some(Literal6::Floating),
        Suffix::Double => Some(Literal6::Floating),
    }
}

fn exponent_value(suffix: Suffix) -> Option<Literal6>
    ensures { result ≡ exponent_value suffix }
{
    match suffix {
        Suffix::Integer => None,
        Suffix::Long => None,
        Suffix::Str => None,
        Suffix::Absent => Some(Literal6::Floating),
        Suffix::Currency => Some(Literal6::Floating),
        Suffix::Single => Some(Literal6::Floating),
        Suffix::Double => Some(Literal6::Floating),
    }
}

// The value of a decimal number: its digits, its point with the digits behind it, how many units its exponent takes, and
// its suffix.
#[tactic(auto, unfolding(vb_tree::specs::Tokens::decimal_value))]
fn decimal_value(whole: &[u16], point: &[u16], exponent: usize, suffix: Suffix) -> Option<Literal6>
    requires whole { list_all is_digit whole.now ≡ true }
    requires fraction { list_all is_digit (drop 1 point.now) ≡ true }
    ensures { result ≡ decimal_value whole.now point.now exponent suffix }
{
    if exponent > 0 {
        return exponent_value(suffix);
    }
    match point {
        [] => whole_value(whole, suffix),
        [_, fraction @ ..] => pointed_value(whole, fraction, suffix),
    }
}

fn literal_of(value: Option<Literal6>, units: usize) -> Option<(TokenKind, usize)>
    requires { 0 < units }
    ensures literal { result ≡ literal_of value units }
    ensures within { IsWithin units result }
{
    match value {
        Some(literal) => Some((TokenKind::Lit(literal), units)),
        None => None,
    }
}

/// The decimal number at the front.
#[tactic(auto, unfolding(vb_tree::specs::Tokens::decimal_at))]
pub(crate) fn decimal_at(units: &[u16]) -> Option<(TokenKind, usize)>
    requires { 0 < run is_digit units.now + fraction_units (drop (run is_digit units.now) units.now) }
    ensures number { result ≡ decimal_at units.now }
    ensures within { IsWithin (length units.now) result }
{
    let whole = run(UnitClass::Digit, units);
    let after = &units[whole..];
    let point = fraction_units(after);
    let exponent = exponent_units(&units[whole + point..]);
    let suffix = number_suffix(&units[whole + point + exponent..]);
    literal_of(
        decimal_value(&units[..whole], &after[..point], exponent, suffix),
        whole + point + exponent + suffix_units(suffix),
    )
}

fn base_of(c: u16) -> u64
    ensures base { result ≡ base_of c }
    ensures most { result ≤ 16 }
{
    if c == 72 || c == 104 {
        16
    } else if c == 79 || c == 111 {
        8
    } else {
        0
    }
}

fn digit_class(c: u16) -> UnitClass
    ensures { fits result ≡ is_digit_of (base_of c) }
{
    if c == 72 || c == 104 {
        UnitClass::Hex
    } else if c == 79 || c == 111 {
        UnitClass::Octal
    } else {
        UnitClass::Other
    }
}

/// How many digits stand behind an `&` and the letter of their base.
pub(crate) fn radix_digits(units: &[u16]) -> usize
    ensures { result ≡ radix_digits units.now }
{
    match units {
        [c, digits @ ..] => run(digit_class(*c), digits),
        [] => 0,
    }
}

fn pattern_of_16(n: u64) -> i16
    requires { n ≤ 65535 }
    ensures { result ≡ bit_pattern 16 n }
{
    if n < 32768 {
        n as i16
    } else {
        (n as i32 - 65536) as i16
    }
}

fn pattern_of_32(n: u64) -> i32
    requires { n ≤ 4294967295 }
    ensures { result ≡ bit_pattern 32 n }
{
    if n < 2_147_483_648 {
        n as i32
    } else {
        (n as i64 - 4_294_967_296) as i32
    }
}

#[tactic(auto, unfolding(vb_tree::specs::Tokens::radix_value))]
fn radix_value(n: u64, suffix: Suffix) -> Option<Literal6>
    requires { n ≤ 4294967295 }
    ensures { result ≡ radix_value n suffix }
{
    match suffix {
        Suffix::Absent => {
            if n <= 65535 {
                return Some(Literal6::Int(pattern_of_16(n), true));
            }
            Some(Literal6::Long(pattern_of_32(n), true))
        }
        Suffix::Integer => {
            if n <= 65535 {
                return Some(Literal6::Int(pattern_of_16(n), true));
            }
            None
        }
        Suffix::Long => Some(Literal6::Long(pattern_of_32(n), true)),
        Suffix::Currency => None,
        Suffix::Str => None,
        Suffix::Single => None,
        Suffix::Double => None,
    }
}

// The hexadecimal or octal number whose `&` and letter these units follow.
#[tactic(auto, using(crate::proofs::Values::too_large, crate::proofs::Values::no_digits), unfolding(vb_tree::specs::Tokens::radix_behind))]
fn radix_behind(letter: u16, units: &[u16]) -> Option<(TokenKind, usize)>
    requires { 0 < run (is_digit_of (base_of letter)) units.now }
    ensures number { result ≡ radix_behind letter units.now }
    ensures within { IsWithin (length units.now + 2) result }
{
    let n = run(digit_class(letter), units);
    let base = base_of(letter);
    if base == 0 {
        unreachable!();
    }
    let suffix = radix_suffix(&units[n..]);
    match value(base, &units[..n], 4_294_967_295) {
        Some(value) => literal_of(radix_value(value, suffix), 2 + n + suffix_units(suffix)),
        None => None,
    }
}

/// The hexadecimal or octal number whose `&` these units follow.
pub(crate) fn radix_at(units: &[u16]) -> Option<(TokenKind, usize)>
    requires { 0 < radix_digits units.now }
    ensures number { result ≡ radix_at units.now }
    ensures within { IsWithin (length units.now + 1) result }
{
    match units {
        [letter, after @ ..] => radix_behind(*letter, after),
        [] => None,
    }
}
