//! User types that hold a fixed string.
ghost use Rattle.std.specs.Prelude.{◌≡◌, ◌++◌, ◌↔◌, ℕ, IfOk, IsTrue, OnOk, length, map, slice_get};
ghost use Rattle.reach_table.specs.Chains.{is_marked};
ghost use Rattle.vb_tree.specs.BoundView.{type_of};
ghost use Rattle.bound_facts.specs.Leading.{LeadsTo};
ghost use Rattle.bound_tree.specs.View.{declarations_of, variable_of};
ghost use Rattle.fixed_strings.specs.Declaring.{HoldsFixed, field_parts, fixed_from, has_fixed_field, is_fixed_field, part_of, part_pair, parts_from, type_number, user_in, user_part};

use crate::lengths::{index, is_made_of_fixed};
use bound_facts::leading_to;
use bound_tree::{Declared, TypeDecl, VarDecl};
use std::alloc::Global;
use up_base::Mem;
use vb_tree::{Type6, VarId};

fn user_in(ty: &Type6) -> Option<u32>
    ensures { result ≡ user_in (type_of ty.now) }
{
    match ty {
        Type6::User(t) => Some(*t),
        _ => None,
    }
}

fn user_part(ty: &Type6) -> Option<u32>
    ensures { result ≡ user_part (type_of ty.now) }
{
    match ty {
        Type6::Array(of, _) => user_in(of),
        _ => user_in(ty),
    }
}

fn part_of(vars: &[VarDecl], f: VarId) -> Option<u32>
    ensures { result ≡ part_of (slice_get (map variable_of vars.now) f.0) }
{
    match vars.get(f.0 as usize) {
        Some(v) => user_part(&v.ty),
        None => None,
    }
}

fn push_pair(k: u32, part: Option<u32>, to: &mut Vec<(u32, u32)>) -> Result<(), Mem>
    ensures { OnOk result (to.new.items ≡ to.old.items ++ part_pair k part) }
{
    match part {
        None => Ok(()),
        Some(u) => Ok(to.push((k, u))?),
    }
}

fn push_parts(
    vars: &[VarDecl],
    k: u32,
    fields: &[VarId],
    to: &mut Vec<(u32, u32)>,
) -> Result<(), Mem>
    ensures { OnOk result (to.new.items ≡ to.old.items ++ field_parts (map variable_of vars.now) k fields.now) }
{
    for f in fields {
        push_pair(k, part_of(vars, *f), to)?;
    }
    Ok(())
}

fn parts(alloc: Global, vars: &[VarDecl], types: &[TypeDecl]) -> Result<Vec<(u32, u32)>, Mem>
    ensures { IfOk result (λ v. v.items ≡ parts_from (map variable_of vars.now) 0 types.now) }
{
    let mut all = Vec::new(alloc);
    for (i, t) in types.iter().enumerate() {
        push_parts(vars, index(i)?, t.fields.as_slice(), &mut all)?;
    }
    Ok(all)
}

fn is_fixed_field(vars: &[VarDecl], f: VarId) -> bool
    ensures { result ≡ is_fixed_field (slice_get (map variable_of vars.now) f.0) }
{
    match vars.get(f.0 as usize) {
        Some(v) => is_made_of_fixed(&v.ty),
        None => false,
    }
}

fn has_fixed_field(vars: &[VarDecl], fields: &[VarId]) -> bool
    ensures { result ≡ has_fixed_field (map variable_of vars.now) fields.now }
{
    for f in fields {
        if is_fixed_field(vars, *f) {
            return true;
        }
    }
    false
}

fn push_number(k: u32, test: bool, to: &mut Vec<u32>) -> Result<(), Mem>
    ensures { OnOk result (to.new.items ≡ to.old.items ++ type_number k test) }
{
    if !test {
        return Ok(());
    }
    Ok(to.push(k)?)
}

fn fixed(alloc: Global, vars: &[VarDecl], types: &[TypeDecl]) -> Result<Vec<u32>, Mem>
    ensures { IfOk result (λ v. v.items ≡ fixed_from (map variable_of vars.now) 0 types.now) }
{
    let mut all = Vec::new(alloc);
    for (i, t) in types.iter().enumerate() {
        push_number(
            index(i)?,
            has_fixed_field(vars, t.fields.as_slice()),
            &mut all,
        )?;
    }
    Ok(all)
}

fn holders_of(alloc: Global, vars: &[VarDecl], types: &[TypeDecl]) -> Result<Vec<bool>, Mem>
    ensures { IfOk result (λ v. (t : ℕ) → IsTrue (is_marked v.items t) ↔ LeadsTo (length types.now) (parts_from (map variable_of vars.now) 0 types.now) (fixed_from (map variable_of vars.now) 0 types.now) t) }
{
    let parts = parts(alloc, vars, types)?;
    let fixed = fixed(alloc, vars, types)?;
    let count = index(types.len())?;
    Ok(leading_to(alloc, count, &parts, &fixed)?)
}

/// For each user type whether it holds a fixed string.
pub(crate) fn holders(alloc: Global, declared: &Declared) -> Result<Vec<bool>, Mem>
    ensures { IfOk result (λ v. (t : ℕ) → IsTrue (is_marked v.items t) ↔ HoldsFixed (declarations_of declared.now) t) }
{
    Ok(holders_of(alloc, declared.vars.as_slice(), declared.types.as_slice())?)
}
