//! Comments.
ghost use Rattle.std.specs.Prelude.{◌≡◌, ◌++◌, ◌<◌, ◌≤◌, length, drop, get_or, IfOk, OnOk};
ghost use Rattle.std.specs.Char.Utf16.{is_high_surrogate};
ghost use Rattle.net_tree.specs.Comments.{utf8_of, comment_text};

use crate::characters::write_character;
use up_base::{Bytes, Mem};

// Whether a unit is the first of a pair of surrogates.
fn is_high_surrogate(unit: u16) -> bool
    ensures { result ≡ is_high_surrogate unit }
{
    0xD800 <= unit && unit < 0xDC00
}

// Writes the character that begins at a place among units, and gives the place behind it.
#[tactic(auto, using(crate::proofs::Encodings::alone_at, crate::proofs::Encodings::last_at, crate::proofs::Encodings::paired_at))]
fn write_unit(out: &mut Bytes, units: &[u16], at: usize) -> Result<usize, Mem>
    requires { at < length units.now }
    ensures text { IfOk result (λ next. out.new ++ utf8_of (drop next units.now) ≡ out.old ++ utf8_of (drop at units.now)) }
    ensures on { IfOk result (λ next. (at < next) × (next ≤ length units.now)) }
{
    let unit = units[at];
    if !is_high_surrogate(unit) || at + 1 == units.len() {
        write_character(out, u32::from(unit))?;
        return Ok(at + 1);
    }
    let high = u32::from(unit) - 0xD800;
    let low = u32::from(units[at + 1]).saturating_sub(0xDC00);
    write_character(out, 0x1_0000 + high * 0x400 + low)?;
    Ok(at + 2)
}

// The most bytes that are put together before they are written.
const PIECE: usize = 64;

// Writes units of one byte each from a place on, at most a piece of them, and gives the place behind them.
#[tactic(auto, using(crate::proofs::Encodings::one_more))]
fn write_plain(out: &mut Bytes, units: &[u16], at: usize) -> Result<usize, Mem>
    requires within { at < length units.now }
    requires plain { get_or units.now at 0 < 0x80 }
    ensures text { IfOk result (λ next. out.new ++ utf8_of (drop next units.now) ≡ out.old ++ utf8_of (drop at units.now)) }
    ensures on { IfOk result (λ next. (at < next) × (next ≤ length units.now)) }
{
    let mut piece = [0; PIECE];
    let mut count = 0;
    while count < PIECE && at + count < units.len() && units[at + count] < 0x80 {
        piece[count] = units[at + count] as u8;
        count += 1;
    }
    out.extend_from_slice(&piece[..count])?;
    Ok(at + count)
}

// Writes what stands at a place among units, at least a character, and gives the place behind it.
fn write_next(out: &mut Bytes, units: &[u16], at: usize) -> Result<usize, Mem>
    requires { at < length units.now }
    ensures text { IfOk result (λ next. out.new ++ utf8_of (drop next units.now) ≡ out.old ++ utf8_of (drop at units.now)) }
    ensures on { IfOk result (λ next. (at < next) × (next ≤ length units.now)) }
{
    if units[at] < 0x80 {
        return Ok(write_plain(out, units, at)?);
    }
    Ok(write_unit(out, units, at)?)
}

// Writes units in UTF-8.
fn write_units(out: &mut Bytes, units: &[u16]) -> Result<(), Mem>
    ensures { OnOk result (out.new ≡ out.old ++ utf8_of units.now) }
{
    let mut at = 0;
    while at < units.len() {
        at = write_next(out, units, at)?;
    }
    Ok(())
}

/// Writes a comment.
pub fn write_comment(out: &mut Bytes, units: &[u16]) -> Result<(), Mem>
    ensures { OnOk result (out.new ≡ out.old ++ comment_text units.now) }
{
    out.push(b'\'')?;
    write_units(out, units)
}
