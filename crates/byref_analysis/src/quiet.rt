//! Which procedures are inward and which parameters quiet.
ghost use Rattle.std.specs.Prelude.{◌≡◌, IfOk, map, slice_get};
ghost use Rattle.bound_tree.specs.View.{procedure_of, variable_of};
ghost use Rattle.bound_facts.specs.Facts.{is_quiet_owner, is_quiet_variable};
ghost use Rattle.byref_analysis.specs.FactsOf.{known_of, quiet_by};
ghost use Rattle.byref_analysis.specs.Quiet.{inward_flags, quiet_flags, quiet_params};

use crate::facts::Facts;
use crate::numbers::flag_at;
use bound_tree::{Declared, ProcDecl, VarDecl};
use std::alloc::Global;
use up_base::{Mem, Sequence};
use vb_tree::{Owner, VarId};

fn is_quiet_owner(facts: &Facts, owner: Owner) -> bool
    ensures { result ≡ is_quiet_owner (known_of facts.now) owner }
{
    match owner {
        Owner::Reference(p) => !flag_at(&facts.outward, p.0 as usize),
        _ => false,
    }
}

fn is_quiet_variable(vars: &Sequence<VarDecl>, facts: &Facts, w: VarId) -> bool
    ensures { result ≡ is_quiet_variable (known_of facts.now) (slice_get (map variable_of vars.now) w.0) }
{
    match vars.get(w.0 as usize) {
        Some(v) => is_quiet_owner(facts, v.owner),
        None => false,
    }
}

/// Whether a variable is a quiet parameter.
pub(crate) fn is_quiet(declared: &Declared, facts: &Facts, w: VarId) -> bool
    ensures { result ≡ quiet_by declared.now facts.now w.0 }
{
    is_quiet_variable(&declared.vars, facts, w) && !flag_at(&facts.touched, w.0 as usize)
}

fn quiet_params(
    alloc: Global,
    declared: &Declared,
    facts: &Facts,
    params: &[VarId],
) -> Result<Vec<bool>, Mem>
    ensures { IfOk result (λ v. v.items ≡ quiet_params (quiet_by declared.now facts.now) params.now) }
{
    let mut flags = Vec::new(alloc);
    for w in params {
        flags.push(is_quiet(declared, facts, *w))?;
    }
    Ok(flags)
}

/// For each procedure, and for each of its parameters, whether it is quiet.
pub(crate) fn quiet_flags(
    alloc: Global,
    declared: &Declared,
    facts: &Facts,
    procs: &[ProcDecl],
) -> Result<Vec<Sequence<bool>>, Mem>
    ensures { IfOk result (λ v. v.items ≡ quiet_flags (quiet_by declared.now facts.now) (map procedure_of procs.now)) }
{
    let mut all = Vec::new(alloc);
    for p in procs {
        let flags = quiet_params(alloc, declared, facts, p.params.as_slice())?;
        all.push(Sequence::from_vec(flags))?;
    }
    Ok(all)
}

/// For each procedure whether it is inward.
pub(crate) fn inward_flags(
    alloc: Global,
    facts: &Facts,
    procs: &[ProcDecl],
) -> Result<Vec<bool>, Mem>
    ensures { IfOk result (λ v. v.items ≡ inward_flags (known_of facts.now).outward (map procedure_of procs.now)) }
{
    let mut flags = Vec::new(alloc);
    for (i, _) in procs.iter().enumerate() {
        flags.push(!flag_at(&facts.outward, i))?;
    }
    Ok(flags)
}
