//! Windows-1252, the character set of a source.
ghost use Rattle.std.specs.Prelude.{◌≡◌, ◌<◌, ◌^◌, ℕ, Some, length, position, IfOk, IfErr, IfSome};
ghost use Rattle.up_base.specs.Windows1252.{AreUnits, IsUndecoded, is_own_number, is_unit, unit_of};

use crate::Wide;
use std::alloc::Global;
use thiserror::Error;

/// Why bytes were not decoded.
#[derive(Debug, Drop, Error)]
pub enum DecodeFail {
    /// The place, counted from 0, of the first byte that has no character.
    #[error("no character at byte {0}")]
    Undefined(u32),
    #[error("out of memory")]
    Mem,
}

/// The text of bytes in Windows-1252, one UTF-16 unit for each byte. The bytes 81, 8D, 8F, 90 and 9D hex have no
/// character. Control bytes give their number.
#[tactic(auto, using(crate::proofs::Decoding::first_undefined))]
pub fn decode_1252(alloc: Global, bytes: &[u8]) -> Result<Wide, DecodeFail>
    requires places_fit { length bytes.now < 2 ^ 32 }
    ensures ok { IfOk result (λ text. AreUnits bytes.now text) }
    ensures undefined { IfErr result (λ e. IsUndecoded bytes.now e) }
{
    let Ok(mut units) = Vec::with_capacity(alloc, bytes.len()) else {
        return Err(DecodeFail::Mem);
    };
    for (place, byte) in bytes.iter().enumerate() {
        let Some(unit) = unit_of(*byte) else {
            return Err(DecodeFail::Undefined(place as u32));
        };
        let Ok(()) = units.push(unit) else {
            return Err(DecodeFail::Mem);
        };
    }
    Ok(Wide::from_vec(units))
}

/// The byte that stands for a UTF-16 unit in Windows-1252, and none where no byte does.
pub fn encode_1252(unit: u16) -> Option<u8>
    ensures stands { IfSome result (λ byte. unit_of byte ≡ Some unit) }
    ensures alone { (byte : ℕ) → byte < 2 ^ 8 → unit_of byte ≡ Some unit → result ≡ Some byte }
{
    if is_own_number(unit) {
        return Some(unit as u8);
    }
    let place = place_of(unit, &UNITS)?;
    Some(0x80 + place as u8)
}

// Whether a byte of the same number stands for the unit.
fn is_own_number(unit: u16) -> bool
    ensures { result ≡ is_own_number unit }
{
    matches!(unit, 0..=0x7F | 0xA0..=0xFF)
}

// The first place of a unit in a table.
fn place_of(unit: u16, units: &[Option<u16>]) -> Option<usize>
    ensures { result ≡ position (λ u. is_unit unit u) units.now }
{
    units.iter().position(|u| is_unit(unit, *u))
}

// Whether this is the unit.
fn is_unit(unit: u16, found: Option<u16>) -> bool
    ensures { result ≡ is_unit unit found }
{
    found == Some(unit)
}

// The unit of a byte, and none where it has no character.
fn unit_of(byte: u8) -> Option<u16>
    ensures { result ≡ unit_of byte }
{
    match byte {
        0x80..=0x9F => UNITS[byte as usize - 0x80],
        _ => Some(byte as u16),
    }
}

// The units of the bytes from 80 to 9F hex.
#[rattlefmt::skip]
const UNITS: [Option<u16>; 32] = [
    Some(0x20AC), None, Some(0x201A), Some(0x0192), Some(0x201E), Some(0x2026), Some(0x2020), Some(0x2021),
    Some(0x02C6), Some(0x2030), Some(0x0160), Some(0x2039), Some(0x0152), None, Some(0x017D), None,
    None, Some(0x2018), Some(0x2019), Some(0x201C), Some(0x201D), Some(0x2022), Some(0x2013), Some(0x2014),
    Some(0x02DC), Some(0x2122), Some(0x0161), Some(0x203A), Some(0x0153), None, Some(0x017E), Some(0x0178),
];
