//! Places and counts as short numbers.
ghost use Rattle.std.specs.Prelude.{◌≡◌, pos, IfOk};

use up_base::Mem;

/// A place as a short number, or want of memory.
pub(crate) fn index(i: usize) -> Result<u32, Mem>
    ensures { IfOk result (λ n. n ≡ i) }
{
    if i > 4294967295 {
        return Err(Mem);
    }
    Ok(i as u32)
}

/// A count as a signed number, or want of memory.
pub(crate) fn signed(n: usize) -> Result<i32, Mem>
    ensures { IfOk result (λ z. z ≡ pos n) }
{
    if n > 2147483647 {
        return Err(Mem);
    }
    Ok(n as i32)
}
