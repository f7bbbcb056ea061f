//! Characters in UTF-8.
ghost use Rattle.std.specs.Prelude.{◌≡◌, ◌+◌, ◌%◌, ◌++◌, ◌<◌, OnOk};
ghost use Rattle.std.specs.Char.{encode_utf8};

use up_base::{Bytes, Mem};

// The last six bits of a character, in a byte that goes on a character.
fn tail_of(c: u32) -> u8
    ensures { result ≡ 128 + c % 64 }
{
    128 + (c % 64) as u8
}

/// Writes a character, by its number, in UTF-8.
#[tactic(auto, using(crate::proofs::Encodings::one_byte, crate::proofs::Encodings::two_bytes, crate::proofs::Encodings::three_bytes, crate::proofs::Encodings::four_bytes))]
pub fn write_character(out: &mut Bytes, c: u32) -> Result<(), Mem>
    requires { c < 0x400000 }
    ensures { OnOk result (out.new ≡ out.old ++ encode_utf8 c) }
{
    if c < 0x80 {
        return out.push(c as u8);
    }
    if c < 0x800 {
        return out.extend_from_slice(&[192 + (c / 64) as u8, tail_of(c)]);
    }
    if c < 0x1_0000 {
        let front = 224 + (c / 4096) as u8;
        return out.extend_from_slice(&[front, tail_of(c / 64), tail_of(c)]);
    }
    let front = 240 + (c / 262_144) as u8;
    out.extend_from_slice(&[front, tail_of(c / 4096), tail_of(c / 64), tail_of(c)])
}
