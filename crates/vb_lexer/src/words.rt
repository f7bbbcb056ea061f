//! Words, plain and in brackets, with their suffixes.
ghost use Rattle.std.specs.Prelude.{◌≡◌, ◌+◌, ◌<◌, ◌≤◌, ◌==◌, true, length, IfOk, nat_le, Some, None, if◌then◌else◌};
ghost use Rattle.std.specs.List.{list_all};
ghost use Rattle.vb_lexer.specs.Found.{IsWithin};
ghost use Rattle.vb_tree.specs.Tokens.{is_letter, is_name_unit, begins, suffix_of, suffix_units, name_suffix, word_at, bracketed_at};

use crate::units::{UnitClass, is_letter, run};
use std::alloc::Global;
use up_base::{Mem, Name};
use vb_tree::{Suffix, TokenKind};

/// Whether the first unit is this one.
pub(crate) fn begins_with(units: &[u16], first: u16) -> bool
    ensures { result ≡ begins (λ c. c == first) units.now }
{
    match units {
        [c, ..] => *c == first,
        [] => false,
    }
}

fn begins_with_letter(units: &[u16]) -> bool
    ensures { result ≡ begins is_letter units.now }
{
    match units {
        [c, ..] => is_letter(*c),
        [] => false,
    }
}

/// The suffix that a unit is.
pub(crate) fn suffix_of(c: u16) -> Suffix
    ensures { result ≡ suffix_of c }
{
    if c == 37 {
        Suffix::Integer
    } else if c == 38 {
        Suffix::Long
    } else if c == 64 {
        Suffix::Currency
    } else if c == 36 {
        Suffix::Str
    } else if c == 33 {
        Suffix::Single
    } else if c == 35 {
        Suffix::Double
    } else {
        Suffix::Absent
    }
}

/// How many units a suffix takes.
pub(crate) fn suffix_units(suffix: Suffix) -> usize
    ensures units { result ≡ suffix_units suffix }
    ensures few { result ≤ 1 }
{
    match suffix {
        Suffix::Absent => 0,
        Suffix::Integer => 1,
        Suffix::Long => 1,
        Suffix::Currency => 1,
        Suffix::Str => 1,
        Suffix::Single => 1,
        Suffix::Double => 1,
    }
}

// The suffix of a name that these units follow. A `!` before a letter is a sign.
fn name_suffix(after: &[u16]) -> Suffix
    ensures { result ≡ name_suffix after.now }
{
    match after {
        [] => Suffix::Absent,
        [c, more @ ..] => {
            if *c == 33 && begins_with_letter(more) {
                Suffix::Absent
            } else {
                suffix_of(*c)
            }
        }
    }
}

fn name_byte(c: u16) -> u8
    requires { is_name_unit c ≡ true }
    ensures { result ≡ c }
{
    c as u8
}

// The most units of a name.
const NAME_LIMIT: usize = 255;

fn name_of(alloc: Global, units: &[u16]) -> Result<Name, Mem>
    requires all { list_all is_name_unit units.now ≡ true }
    requires some { 0 < length units.now }
    requires few { length units.now ≤ 255 }
    ensures { IfOk result (λ name. name ≡ units.now) }
{
    let mut bytes = [0; NAME_LIMIT];
    for (at, c) in units.iter().enumerate() {
        bytes[at] = name_byte(*c);
    }
    Ok(Name::from_valid(alloc, &bytes[..units.len()])?)
}

// A name with the suffix that stands behind it, unless it is too long.
fn named(alloc: Global, units: &[u16], after: &[u16]) -> Result<Option<(Name, Suffix)>, Mem>
    requires all { list_all is_name_unit units.now ≡ true }
    requires some { 0 < length units.now }
    ensures { IfOk result (λ found. found ≡ (if nat_le (length units.now) 255 then Some (units.now, name_suffix after.now) else None)) }
{
    if units.len() > NAME_LIMIT {
        return Ok(None);
    }
    Ok(Some((name_of(alloc, units)?, name_suffix(after))))
}

/// The word at the front.
#[tactic(auto, using(crate::proofs::Runs::run_some, crate::proofs::Suffixes::suffix_within), unfolding(vb_tree::specs::Tokens::word_at, vb_tree::specs::Tokens::named))]
pub(crate) fn word_at(alloc: Global, units: &[u16]) -> Result<Option<(TokenKind, usize)>, Mem>
    requires { begins is_letter units.now ≡ true }
    ensures word { IfOk result (λ found. found ≡ word_at units.now) }
    ensures within { IfOk result (λ found. IsWithin (length units.now) found) }
{
    let n = run(UnitClass::NameUnit, units);
    match named(alloc, &units[..n], &units[n..])? {
        None => Ok(None),
        Some((name, suffix)) => Ok(Some((TokenKind::Word(name, suffix), n + suffix_units(suffix)))),
    }
}

/// The word in brackets whose opening bracket these units follow.
#[tactic(auto, using(crate::proofs::Runs::run_some, crate::proofs::Suffixes::suffix_within), unfolding(vb_tree::specs::Tokens::bracketed_at, vb_tree::specs::Tokens::named))]
pub(crate) fn bracketed_at(alloc: Global, units: &[u16]) -> Result<Option<(TokenKind, usize)>, Mem>
    ensures word { IfOk result (λ found. found ≡ bracketed_at units.now) }
    ensures within { IfOk result (λ found. IsWithin (length units.now + 1) found) }
{
    let n = run(UnitClass::NameUnit, units);
    if !begins_with_letter(units) {
        return Ok(None);
    }
    if !begins_with(&units[n..], 93) {
        return Ok(None);
    }
    match named(alloc, &units[..n], &units[n + 1..])? {
        None => Ok(None),
        Some((name, suffix)) => Ok(Some((
            TokenKind::Bracketed(name, suffix),
            n + 2 + suffix_units(suffix),
        ))),
    }
}
