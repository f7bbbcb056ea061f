//! Literals.
ghost use Rattle.std.specs.Prelude.{◌≡◌, ◌++◌, ◌<◌, true, codes, OnOk};
ghost use Rattle.std.specs.List.{flat_map};
ghost use Rattle.std.specs.Fmt.{decimal, digit_glyph};
ghost use Rattle.net_tree.specs.View.{literal_of};
ghost use Rattle.net_tree.specs.Literals.{hexadecimal, bit_pattern, whole_text, places_text, fraction_text, amount_text, signed_amount_text};
ghost use Rattle.net_tree.specs.Literals.{quoted_unit, quoted, boolean_text, literal_text, integer_suffix, number_text};

use crate::characters::write_character;
use net_tree::NetLit;
use up_base::{Bytes, Mem, write_decimal};

// The character of a digit in base 16.
fn hexadecimal_digit(digit: u8) -> u8
    requires { digit < 16 }
    ensures { result ≡ digit_glyph true digit }
{
    if digit < 10 { 48 + digit } else { 55 + digit }
}

// Writes a number in base 16.
fn write_hexadecimal(out: &mut Bytes, n: u32) -> Result<(), Mem>
    ensures { OnOk result (out.new ≡ out.old ++ hexadecimal n) }
{
    if n < 16 {
        return out.push(hexadecimal_digit(n as u8));
    }
    write_hexadecimal(out, n / 16)?;
    out.push(hexadecimal_digit((n % 16) as u8))
}

// The 16 bits of a number with a sign.
fn bits_of_short(z: i16) -> u32
    ensures { result ≡ bit_pattern 16 z }
{
    if z < 0 {
        (i32::from(z) + 0x1_0000) as u32
    } else {
        z as u32
    }
}

// The 32 bits of a number with a sign.
fn bits_of_integer(z: i32) -> u32
    ensures { result ≡ bit_pattern 32 z }
{
    if z < 0 {
        (i64::from(z) + 0x1_0000_0000) as u32
    } else {
        z as u32
    }
}

// Writes a number by its bit pattern.
fn write_bits(out: &mut Bytes, bits: u32) -> Result<(), Mem>
    ensures { OnOk result (out.new ≡ out.old ++ codes "&H" ++ hexadecimal bits) }
{
    out.extend_from_slice(b"&H")?;
    write_hexadecimal(out, bits)
}

// Writes a Short without its suffix.
fn write_short(out: &mut Bytes, z: i16, hexadecimal: bool) -> Result<(), Mem>
    ensures { OnOk result (out.new ≡ out.old ++ whole_text 16 hexadecimal z) }
{
    if hexadecimal {
        return write_bits(out, bits_of_short(z));
    }
    write_signed(out, i128::from(z))
}

// Writes an Integer without its suffix.
fn write_integer(out: &mut Bytes, z: i32, hexadecimal: bool) -> Result<(), Mem>
    ensures { OnOk result (out.new ≡ out.old ++ whole_text 32 hexadecimal z) }
{
    if hexadecimal {
        return write_bits(out, bits_of_integer(z));
    }
    write_signed(out, i128::from(z))
}

// Writes a number with a sign in decimal digits.
fn write_signed(out: &mut Bytes, z: i128) -> Result<(), Mem>
    ensures { OnOk result (out.new ≡ out.old ++ number_text z) }
{
    if z < 0 {
        out.push(b'-')?;
        return write_decimal(out, z.unsigned_abs());
    }
    write_decimal(out, z as u128)
}

// Writes what stands behind an Integer.
fn write_integer_suffix(out: &mut Bytes, hexadecimal: bool) -> Result<(), Mem>
    ensures { OnOk result (out.new ≡ out.old ++ integer_suffix hexadecimal) }
{
    if hexadecimal {
        return out.push(b'I');
    }
    Ok(())
}

// Writes the decimal places of a number of ten-thousandths, without zeros at the end.
fn write_places(out: &mut Bytes, r: u32) -> Result<(), Mem>
    requires { r < 10000 }
    ensures { OnOk result (out.new ≡ out.old ++ places_text r) }
{
    let first = 48 + (r / 1000) as u8;
    let second = 48 + (r / 100 % 10) as u8;
    let third = 48 + (r / 10 % 10) as u8;
    let fourth = 48 + (r % 10) as u8;
    if r % 10 != 0 {
        return out.extend_from_slice(&[first, second, third, fourth]);
    }
    if r % 100 != 0 {
        return out.extend_from_slice(&[first, second, third]);
    }
    if r % 1000 != 0 {
        return out.extend_from_slice(&[first, second]);
    }
    out.push(first)
}

// Writes what stands behind the whole part of a number of ten-thousandths.
fn write_fraction(out: &mut Bytes, r: u32) -> Result<(), Mem>
    requires { r < 10000 }
    ensures { OnOk result (out.new ≡ out.old ++ fraction_text r) }
{
    if r == 0 {
        return Ok(());
    }
    out.push(b'.')?;
    write_places(out, r)
}

// Writes a number of ten-thousandths.
fn write_amount(out: &mut Bytes, n: u128) -> Result<(), Mem>
    ensures { OnOk result (out.new ≡ out.old ++ amount_text n) }
{
    write_decimal(out, n / 10_000)?;
    write_fraction(out, (n % 10_000) as u32)
}

// Writes a number of ten-thousandths with a sign.
fn write_signed_amount(out: &mut Bytes, z: i128) -> Result<(), Mem>
    ensures { OnOk result (out.new ≡ out.old ++ signed_amount_text z) }
{
    if z < 0 {
        out.push(b'-')?;
        return write_amount(out, z.unsigned_abs());
    }
    write_amount(out, z as u128)
}

fn write_boolean(out: &mut Bytes, value: bool) -> Result<(), Mem>
    ensures { OnOk result (out.new ≡ out.old ++ boolean_text value) }
{
    if value {
        return out.extend_from_slice(b"True");
    }
    out.extend_from_slice(b"False")
}

// Writes a unit of a text.
fn write_unit(out: &mut Bytes, unit: u16) -> Result<(), Mem>
    ensures { OnOk result (out.new ≡ out.old ++ quoted_unit unit) }
{
    if unit == u16::from(b'"') {
        out.extend_from_slice(b"\"\"")
    } else {
        write_character(out, u32::from(unit))
    }
}

fn write_units(out: &mut Bytes, units: &[u16]) -> Result<(), Mem>
    ensures { OnOk result (out.new ≡ out.old ++ flat_map quoted_unit units.now) }
{
    for unit in units {
        write_unit(out, *unit)?;
    }
    Ok(())
}

// Writes a text in quotes.
fn write_text(out: &mut Bytes, units: &[u16]) -> Result<(), Mem>
    ensures { OnOk result (out.new ≡ out.old ++ quoted units.now) }
{
    out.push(b'"')?;
    write_units(out, units)?;
    out.push(b'"')
}

/// Writes a literal.
pub fn write_literal(out: &mut Bytes, literal: &NetLit) -> Result<(), Mem>
    ensures { OnOk result (out.new ≡ out.old ++ literal_text (literal_of literal.now)) }
{
    match literal {
        NetLit::Boolean(value) => write_boolean(out, *value),
        NetLit::Short(z, hexadecimal) => {
            write_short(out, *z, *hexadecimal)?;
            out.push(b'S')
        }
        NetLit::Integer(z, hexadecimal) => {
            write_integer(out, *z, *hexadecimal)?;
            write_integer_suffix(out, *hexadecimal)
        }
        NetLit::Long(z) => {
            write_signed(out, i128::from(*z))?;
            out.push(b'L')
        }
        NetLit::Decimal(z) => {
            write_signed_amount(out, *z)?;
            out.push(b'D')
        }
        NetLit::Str(units) => write_text(out, units.as_slice()),
    }
}
