//! Numbers as decimal digits.
ghost use Rattle.std.specs.Prelude.{◌≡◌, ◌++◌, OnOk};
ghost use Rattle.std.specs.Fmt.{decimal};

use crate::{Bytes, Mem};

/// Writes a number in decimal digits, without leading zeros.
pub fn write_decimal(out: &mut Bytes, n: u128) -> Result<(), Mem>
    ensures { OnOk result (out.new ≡ out.old ++ decimal n) }
{
    if n < 10 {
        return out.push(48 + n as u8);
    }
    write_decimal(out, n / 10)?;
    out.push(48 + (n % 10) as u8)
}
