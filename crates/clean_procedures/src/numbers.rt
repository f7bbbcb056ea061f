//! Points as numbers.
ghost use Rattle.std.specs.Prelude.{◌≡◌, ◌+◌, ◌*◌, ◌++◌, IfOk, OnOk, map};
ghost use Rattle.bound_facts.specs.Clean.{constant, procedure, user_type, variable};
ghost use Rattle.clean_procedures.specs.Numbers.{number};
ghost use Rattle.clean_procedures.specs.Pairs.{procedure_pairs};

use up_base::Mem;

/// A place as a short number, or want of memory.
pub(crate) fn index(i: usize) -> Result<u32, Mem>
    ensures { IfOk result (λ n. n ≡ i) }
{
    if i > 4294967295 {
        return Err(Mem);
    }
    Ok(i as u32)
}

fn fivefold(n: u32) -> Result<u32, Mem>
    ensures { IfOk result (λ m. m ≡ 5 * n) }
{
    if n > 858993459 {
        return Err(Mem);
    }
    Ok(5 * n)
}

pub(crate) fn sum(n: u32, more: u32) -> Result<u32, Mem>
    ensures { IfOk result (λ m. m ≡ n + more) }
{
    match n.checked_add(more) {
        Some(m) => Ok(m),
        None => Err(Mem),
    }
}

pub(crate) fn procedure_point(p: u32) -> Result<u32, Mem>
    ensures { IfOk result (λ m. m ≡ number (procedure p)) }
{
    Ok(fivefold(p)?)
}

pub(crate) fn variable_point(v: u32) -> Result<u32, Mem>
    ensures { IfOk result (λ m. m ≡ number (variable v)) }
{
    let n = fivefold(v)?;
    Ok(sum(n, 1)?)
}

pub(crate) fn constant_point(c: u32) -> Result<u32, Mem>
    ensures { IfOk result (λ m. m ≡ number (constant c)) }
{
    let n = fivefold(c)?;
    Ok(sum(n, 2)?)
}

pub(crate) fn type_point(t: u32) -> Result<u32, Mem>
    ensures { IfOk result (λ m. m ≡ number (user_type t)) }
{
    let n = fivefold(t)?;
    Ok(sum(n, 3)?)
}

/// Appends the pair of two procedures, where there is a second one.
pub(crate) fn push_procedure(i: u32, p: Option<u32>, to: &mut Vec<(u32, u32)>) -> Result<(), Mem>
    ensures { OnOk result (to.new.items ≡ to.old.items ++ procedure_pairs i p) }
{
    match p {
        None => Ok(()),
        Some(p) => {
            let from = procedure_point(i)?;
            let end = procedure_point(p)?;
            Ok(to.push((from, end))?)
        }
    }
}
