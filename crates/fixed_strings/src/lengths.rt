//! Fixed strings and their lengths.
ghost use Rattle.std.specs.Prelude.{◌≡◌, ◌++◌, IfOk, OnOk, map};
ghost use Rattle.vb_tree.specs.BoundView.{type_of};
ghost use Rattle.bound_tree.specs.View.{variable_of};
ghost use Rattle.fixed_strings.specs.Declaring.{is_fixed_array};
ghost use Rattle.fixed_strings.specs.Lengths.{is_fixed_string, is_made_of_fixed, length_entry, lengths_from, units_of};

use bound_tree::VarDecl;
use std::alloc::Global;
use up_base::Mem;
use vb_tree::{Type6, VarId};

fn units_of(ty: &Type6) -> Option<u32>
    ensures { result ≡ units_of (type_of ty.now) }
{
    match ty {
        Type6::Fixed(units) => Some(*units),
        _ => None,
    }
}

pub(crate) fn is_fixed_string(ty: &Type6) -> bool
    ensures { result ≡ is_fixed_string (type_of ty.now) }
{
    units_of(ty).is_some()
}

pub(crate) fn is_fixed_array(ty: &Type6) -> bool
    ensures { result ≡ is_fixed_array (type_of ty.now) }
{
    match ty {
        Type6::Array(of, _) => is_fixed_string(of),
        _ => false,
    }
}

/// Whether a type is that of fixed strings or of arrays of them.
pub(crate) fn is_made_of_fixed(ty: &Type6) -> bool
    ensures { result ≡ is_made_of_fixed (type_of ty.now) }
{
    match ty {
        Type6::Array(of, _) => is_fixed_string(of),
        _ => is_fixed_string(ty),
    }
}

/// A place as a short number, or want of memory.
pub(crate) fn index(i: usize) -> Result<u32, Mem>
    ensures { IfOk result (λ n. n ≡ i) }
{
    if i > 4294967295 {
        return Err(Mem);
    }
    Ok(i as u32)
}

fn push_length(k: usize, units: Option<u32>, to: &mut Vec<(VarId, u32)>) -> Result<(), Mem>
    ensures { OnOk result (to.new.items ≡ to.old.items ++ length_entry k units) }
{
    match units {
        None => Ok(()),
        Some(n) => {
            let id = index(k)?;
            Ok(to.push((VarId(id), n))?)
        }
    }
}

/// The lengths of the variables that are fixed strings.
pub(crate) fn lengths(alloc: Global, vars: &[VarDecl]) -> Result<Vec<(VarId, u32)>, Mem>
    ensures { IfOk result (λ v. v.items ≡ lengths_from 0 (map variable_of vars.now)) }
{
    let mut all = Vec::new(alloc);
    for (i, v) in vars.iter().enumerate() {
        push_length(i, units_of(&v.ty), &mut all)?;
    }
    Ok(all)
}
