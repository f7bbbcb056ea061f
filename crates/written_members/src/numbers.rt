//! Counts of what stands in a project.
ghost use Rattle.std.specs.Prelude.{◌≡◌, ◌+◌, suc, IfOk};
ghost use Rattle.written_trees.specs.Prologues.{one_if};

use up_base::Mem;

/// A length as a short number, or want of memory.
pub(crate) fn index(i: usize) -> Result<u32, Mem>
    ensures { IfOk result (λ n. n ≡ i) }
{
    if i > 4294967295 {
        return Err(Mem);
    }
    Ok(i as u32)
}

/// The sum of two numbers, or want of memory.
pub(crate) fn sum(n: u32, more: u32) -> Result<u32, Mem>
    ensures { IfOk result (λ m. m ≡ n + more) }
{
    match n.checked_add(more) {
        Some(m) => Ok(m),
        None => Err(Mem),
    }
}

/// The number behind one, or want of memory.
pub(crate) fn next(n: u32) -> Result<u32, Mem>
    ensures { IfOk result (λ m. m ≡ suc n) }
{
    match n.checked_add(1) {
        Some(m) => Ok(m),
        None => Err(Mem),
    }
}

/// 1 where a test holds, else 0.
pub(crate) fn one_if(test: bool) -> u32
    ensures { result ≡ one_if test }
{
    if test { 1 } else { 0 }
}
