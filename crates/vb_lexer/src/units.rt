//! Classes of UTF-16 units, runs of them, and the numbers that digits stand for.
ghost use Rattle.std.specs.Prelude.{◌≡◌, ◌<◌, ◌≤◌, ◌^◌, MatchOption, length, take, true};
ghost use Rattle.std.specs.List.{list_all};
ghost use Rattle.vb_tree.specs.Tokens.{is_blank, is_line_end, is_letter, digit_value, is_digit, is_digit_of, is_name_unit, is_date_unit, is_a_or_p, is_m, run, begins, value_from};
ghost use Rattle.vb_lexer.specs.Classes.{fits};

/// Whether a unit is a space or a tab.
pub(crate) fn is_blank(c: u16) -> bool
    ensures { result ≡ is_blank c }
{
    c == 32 || c == 9
}

/// Whether a unit is a line feed or a carriage return.
pub(crate) fn is_line_end(c: u16) -> bool
    ensures { result ≡ is_line_end c }
{
    c == 10 || c == 13
}

/// Whether a unit is an ASCII letter.
pub(crate) fn is_letter(c: u16) -> bool
    ensures { result ≡ is_letter c }
{
    (65 <= c && c <= 90) || (97 <= c && c <= 122)
}

/// What a unit counts as a digit of a base up to 16; 16 where it is none.
pub(crate) fn digit_value(c: u16) -> u16
    ensures { result ≡ digit_value c }
{
    if 48 <= c && c <= 57 {
        c - 48
    } else if 65 <= c && c <= 70 {
        c - 55
    } else if 97 <= c && c <= 102 {
        c - 87
    } else {
        16
    }
}

/// Whether a unit is a letter, a digit or an underscore.
pub(crate) fn is_name_unit(c: u16) -> bool
    ensures { result ≡ is_name_unit c }
{
    is_letter(c) || digit_value(c) < 10 || c == 95
}

/// Whether a unit is the first letter of AM or PM.
pub(crate) fn is_a_or_p(c: u16) -> bool
    ensures { result ≡ is_a_or_p c }
{
    c == 65 || c == 97 || c == 80 || c == 112
}

/// Whether a unit is the second letter of AM or PM.
pub(crate) fn is_m(c: u16) -> bool
    ensures { result ≡ is_m c }
{
    c == 77 || c == 109
}

/// Whether a unit may stand in a date.
pub(crate) fn is_date_unit(c: u16) -> bool
    ensures { result ≡ is_date_unit c }
{
    digit_value(c) < 10 || is_blank(c) || c == 47 || c == 45 || c == 58 || is_a_or_p(c) || is_m(c)
}

/// A class of units.
#[derive(Clone, Copy)]
pub(crate) enum UnitClass {
    Digit,
    Octal,
    Hex,
    NameUnit,
    DateUnit,
    /// No unit.
    Other,
}

fn fits(class: UnitClass, c: u16) -> bool
    ensures { result ≡ fits class c }
{
    match class {
        UnitClass::Digit => digit_value(c) < 10,
        UnitClass::Octal => digit_value(c) < 8,
        UnitClass::Hex => digit_value(c) < 16,
        UnitClass::NameUnit => is_name_unit(c),
        UnitClass::DateUnit => is_date_unit(c),
        UnitClass::Other => false,
    }
}

/// How many units at the front are of a class.
#[tactic(auto, using(crate::proofs::Runs::run_all))]
pub(crate) fn run(class: UnitClass, units: &[u16]) -> usize
    ensures count { result ≡ run (fits class) units.now }
    ensures within { result ≤ length units.now }
    ensures all { list_all (fits class) (take result units.now) ≡ true }
{
    run_length(class, units)
}

fn run_length(class: UnitClass, units: &[u16]) -> usize
    ensures count { result ≡ run (fits class) units.now }
    ensures within { result ≤ length units.now }
{
    for (at, c) in units.iter().enumerate() {
        if !fits(class, *c) {
            return at;
        }
    }
    units.len()
}

/// The number that digits of a base stand for, where it is at most `most`.
pub(crate) fn value(base: u64, digits: &[u16], most: u64) -> Option<u64>
    requires base { base ≤ 16 }
    requires positive { 0 < base }
    requires most { most < 2 ^ 56 }
    ensures { MatchOption result (most < value_from base 0 digits.now) (λ n. (n ≡ value_from base 0 digits.now) × (n ≤ most)) }
{
    let mut n: u64 = 0;
    for c in digits {
        n = n * base + u64::from(digit_value(*c));
        if n > most {
            return None;
        }
    }
    Some(n)
}

/// Whether the first unit is a decimal digit.
pub(crate) fn begins_with_digit(units: &[u16]) -> bool
    ensures { result ≡ begins is_digit units.now }
{
    match units {
        [c, ..] => digit_value(*c) < 10,
        [] => false,
    }
}
