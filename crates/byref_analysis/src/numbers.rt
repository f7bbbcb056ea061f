//! Numbers and flags by number.
ghost use Rattle.std.specs.Prelude.{◌≡◌, IfOk};
ghost use Rattle.reach_table.specs.Chains.{is_marked};
ghost use Rattle.bound_facts.specs.Facts.{some_is};

use up_base::Mem;

/// A place as a short number, or want of memory.
pub(crate) fn index(i: usize) -> Result<u32, Mem>
    ensures { IfOk result (λ n. n ≡ i) }
{
    if i > 4294967295 {
        return Err(Mem);
    }
    Ok(i as u32)
}

/// The flag of a number; false past the end.
pub(crate) fn flag_at(flags: &[bool], n: usize) -> bool
    ensures { result ≡ is_marked flags.now n }
{
    match flags.get(n) {
        Some(flag) => *flag,
        None => false,
    }
}

/// The flag of a number, where there is one.
pub(crate) fn flag_of(flags: &[bool], n: Option<usize>) -> bool
    ensures { result ≡ some_is (is_marked flags.now) n }
{
    match n {
        Some(n) => flag_at(flags, n),
        None => false,
    }
}
