//! What user types hold.
ghost use Rattle.std.specs.Prelude.{◌≡◌, ◌++◌, ◌↔◌, ℕ, IsTrue, IfOk, OnOk, length, map, slice_get};
ghost use Rattle.reach_table.specs.Chains.{is_marked};
ghost use Rattle.vb_tree.specs.BoundView.{type_of};
ghost use Rattle.bound_tree.specs.View.{declarations_of, variable_of};
ghost use Rattle.bound_facts.specs.Leading.{LeadsTo};
ghost use Rattle.bound_facts.specs.Locks.{is_array_of, is_same_type, type_pairs, user_in};
ghost use Rattle.array_bounds.specs.Types.{Holds, field_pairs, has_field, is_field_that, is_fixed_string, number_if, pair_with, passes, those_from, user_of, user_pairs};

use crate::numbers::index;
use bound_facts::{is_array_type, leading_to};
use bound_tree::{Declared, TypeDecl, VarDecl};
use std::alloc::Global;
use up_base::Mem;
use vb_tree::{Type6, VarId};

/// Which types are asked for.
#[derive(Clone, Copy)]
pub(crate) enum Wanted<'a> {
    /// Those of arrays.
    Array,
    /// Those of arrays and of fixed strings.
    Made,
    /// Those of arrays of elements of a type.
    ArrayOf(&'a Type6),
}

/// Whether two types are the same; of arrays the element types are compared.
pub(crate) fn is_same_type(a: &Type6, b: &Type6) -> bool
    ensures { result ≡ is_same_type (type_of a.now) (type_of b.now) }
{
    match (a, b) {
        (Type6::Boolean, Type6::Boolean) => true,
        (Type6::Byte, Type6::Byte) => true,
        (Type6::Integer, Type6::Integer) => true,
        (Type6::Long, Type6::Long) => true,
        (Type6::Currency, Type6::Currency) => true,
        (Type6::Str, Type6::Str) => true,
        (Type6::Fixed(m), Type6::Fixed(n)) => *m == *n,
        (Type6::User(m), Type6::User(n)) => *m == *n,
        (Type6::Class(m), Type6::Class(n)) => *m == *n,
        (Type6::Object, Type6::Object) => true,
        (Type6::Variant, Type6::Variant) => true,
        (Type6::Array(x, _), Type6::Array(y, _)) => is_same_type(x, y),
        (Type6::Nothing, Type6::Nothing) => true,
        (Type6::Unknown, Type6::Unknown) => true,
        _ => false,
    }
}

fn is_array_of(e: &Type6, ty: &Type6) -> bool
    ensures { result ≡ is_array_of (type_of e.now) (type_of ty.now) }
{
    match ty {
        Type6::Array(x, _) => is_same_type(e, x),
        _ => false,
    }
}

fn is_fixed_string(ty: &Type6) -> bool
    ensures { result ≡ is_fixed_string (type_of ty.now) }
{
    match ty {
        Type6::Fixed(_) => true,
        _ => false,
    }
}

fn passes(wanted: &Wanted, ty: &Type6) -> bool
    ensures { result ≡ passes wanted.now (type_of ty.now) }
{
    match wanted {
        Wanted::Array => is_array_type(ty),
        Wanted::Made => is_array_type(ty) || is_fixed_string(ty),
        Wanted::ArrayOf(e) => is_array_of(e, ty),
    }
}

// ---- the types that user types are made of

fn user_in(ty: &Type6) -> Option<u32>
    ensures { result ≡ user_in (type_of ty.now) }
{
    match ty {
        Type6::User(t) => Some(*t),
        Type6::Array(of, _) => match &**of {
            Type6::User(t) => Some(*t),
            _ => None,
        },
        _ => None,
    }
}

fn user_of(vars: &[VarDecl], f: VarId) -> Option<u32>
    ensures { result ≡ user_of (slice_get (map variable_of vars.now) f.0) }
{
    match vars.get(f.0 as usize) {
        Some(v) => user_in(&v.ty),
        None => None,
    }
}

fn push_pair(t: u32, u: Option<u32>, to: &mut Vec<(u32, u32)>) -> Result<(), Mem>
    ensures { OnOk result (to.new.items ≡ to.old.items ++ pair_with t u) }
{
    match u {
        None => Ok(()),
        Some(u) => Ok(to.push((t, u))?),
    }
}

fn push_pairs(
    vars: &[VarDecl],
    t: u32,
    fields: &[VarId],
    to: &mut Vec<(u32, u32)>,
) -> Result<(), Mem>
    ensures { OnOk result (to.new.items ≡ to.old.items ++ field_pairs (map variable_of vars.now) t fields.now) }
{
    for f in fields {
        push_pair(t, user_of(vars, *f), to)?;
    }
    Ok(())
}

fn user_pairs(alloc: Global, vars: &[VarDecl], types: &[TypeDecl]) -> Result<Vec<(u32, u32)>, Mem>
    ensures { IfOk result (λ v. v.items ≡ user_pairs (map variable_of vars.now) 0 types.now) }
{
    let mut all = Vec::new(alloc);
    for (i, d) in types.iter().enumerate() {
        push_pairs(vars, index(i)?, d.fields.as_slice(), &mut all)?;
    }
    Ok(all)
}

// ---- those with a field that is wanted

fn is_field_that(vars: &[VarDecl], wanted: &Wanted, f: VarId) -> bool
    ensures { result ≡ is_field_that (passes wanted.now) (slice_get (map variable_of vars.now) f.0) }
{
    match vars.get(f.0 as usize) {
        Some(v) => passes(wanted, &v.ty),
        None => false,
    }
}

fn has_field(vars: &[VarDecl], wanted: &Wanted, fields: &[VarId]) -> bool
    ensures { result ≡ has_field (map variable_of vars.now) (passes wanted.now) fields.now }
{
    for f in fields {
        if is_field_that(vars, wanted, *f) {
            return true;
        }
    }
    false
}

fn push_if(t: u32, test: bool, to: &mut Vec<u32>) -> Result<(), Mem>
    ensures { OnOk result (to.new.items ≡ to.old.items ++ number_if t test) }
{
    if !test {
        return Ok(());
    }
    Ok(to.push(t)?)
}

fn those(
    alloc: Global,
    vars: &[VarDecl],
    wanted: &Wanted,
    types: &[TypeDecl],
) -> Result<Vec<u32>, Mem>
    ensures { IfOk result (λ v. v.items ≡ those_from (map variable_of vars.now) (passes wanted.now) 0 types.now) }
{
    let mut all = Vec::new(alloc);
    for (i, d) in types.iter().enumerate() {
        let test = has_field(vars, wanted, d.fields.as_slice());
        push_if(index(i)?, test, &mut all)?;
    }
    Ok(all)
}

fn holders_of(
    alloc: Global,
    vars: &[VarDecl],
    wanted: &Wanted,
    types: &[TypeDecl],
) -> Result<Vec<bool>, Mem>
    ensures { IfOk result (λ v. (t : ℕ) → IsTrue (is_marked v.items t) ↔ LeadsTo (length types.now) (user_pairs (map variable_of vars.now) 0 types.now) (those_from (map variable_of vars.now) (passes wanted.now) 0 types.now) t) }
{
    let pairs = user_pairs(alloc, vars, types)?;
    let list = those(alloc, vars, wanted, types)?;
    let count = index(types.len())?;
    Ok(leading_to(alloc, count, &pairs, &list)?)
}

fn declared_holders(alloc: Global, declared: &Declared, wanted: &Wanted) -> Result<Vec<bool>, Mem>
    ensures { IfOk result (λ v. (t : ℕ) → IsTrue (is_marked v.items t) ↔ LeadsTo (length declared.now.types) (user_pairs (map variable_of declared.now.vars) 0 declared.now.types) (those_from (map variable_of declared.now.vars) (passes wanted.now) 0 declared.now.types) t) }
{
    Ok(holders_of(
        alloc,
        declared.vars.as_slice(),
        wanted,
        declared.types.as_slice(),
    )?)
}

/// For each user type whether it holds what is wanted, in itself or in the types of its fields.
pub(crate) fn holders(alloc: Global, declared: &Declared, wanted: &Wanted) -> Result<Vec<bool>, Mem>
    ensures { IfOk result (λ v. (t : ℕ) → IsTrue (is_marked v.items t) ↔ Holds (declarations_of declared.now) (passes wanted.now) t) }
{
    Ok(declared_holders(alloc, declared, wanted)?)
}
