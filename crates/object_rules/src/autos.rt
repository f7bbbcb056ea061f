//! Variables that are declared As New.
ghost use Rattle.std.specs.Prelude.{◌≡◌, ◌++◌, IfOk, OnOk, map};
ghost use Rattle.vb_tree.specs.BoundView.{type_of};
ghost use Rattle.bound_tree.specs.View.{variable_of};
ghost use Rattle.object_rules.specs.Autos.{autos_from, is_auto, is_class, number_if};
ghost use Rattle.object_rules.specs.Rows.{variable_rules};

use bound_facts::is_array_type;
use bound_tree::{RuleSet, VarDecl};
use std::alloc::Global;
use up_base::Mem;
use vb_tree::{Type6, VarId};

fn is_class(ty: &Type6) -> bool
    ensures { result ≡ is_class (type_of ty.now) }
{
    match ty {
        Type6::Class(_) => true,
        _ => false,
    }
}

fn is_auto(v: &VarDecl) -> bool
    ensures { result ≡ is_auto (variable_of v.now) }
{
    v.auto && is_class(&v.ty)
}

// A place as a short number, or want of memory.
fn index(i: usize) -> Result<u32, Mem>
    ensures { IfOk result (λ n. n ≡ i) }
{
    if i > 4294967295 {
        return Err(Mem);
    }
    Ok(i as u32)
}

fn push_if(test: bool, k: usize, to: &mut Vec<VarId>) -> Result<(), Mem>
    ensures { OnOk result (to.new.items ≡ to.old.items ++ number_if test k) }
{
    if !test {
        return Ok(());
    }
    let id = index(k)?;
    Ok(to.push(VarId(id))?)
}

/// The variables that make their object when they are used, in order.
pub(crate) fn autos(alloc: Global, vars: &[VarDecl]) -> Result<Vec<VarId>, Mem>
    ensures { IfOk result (λ v. v.items ≡ autos_from 0 (map variable_of vars.now)) }
{
    let mut all = Vec::new(alloc);
    for (i, v) in vars.iter().enumerate() {
        push_if(is_auto(v), i, &mut all)?;
    }
    Ok(all)
}

fn variable_rules(v: &VarDecl) -> RuleSet
    ensures { result ≡ variable_rules (variable_of v.now) }
{
    RuleSet::new().with_if(24, v.auto && is_array_type(&v.named))
}

/// The set of each variable.
pub(crate) fn variables_rules(alloc: Global, vars: &[VarDecl]) -> Result<Vec<RuleSet>, Mem>
    ensures { IfOk result (λ v. v.items ≡ map variable_rules (map variable_of vars.now)) }
{
    let mut sets = Vec::new(alloc);
    for v in vars {
        sets.push(variable_rules(v))?;
    }
    Ok(sets)
}
