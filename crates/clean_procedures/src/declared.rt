//! What declarations mention, as pairs of numbers of points.
ghost use Rattle.std.specs.Prelude.{◌≡◌, ◌++◌, ◌∷◌, [], OnOk, map};
ghost use Rattle.vb_tree.specs.BoundView.{type_of};
ghost use Rattle.bound_tree.specs.View.{constant_of, variable_of};
ghost use Rattle.bound_facts.specs.Clean.{constant, user_type, variable};
ghost use Rattle.bound_facts.specs.Locks.{user_in};
ghost use Rattle.clean_procedures.specs.Numbers.{number};
ghost use Rattle.clean_procedures.specs.Pairs.{constants_pairs, field_pairs, owned_by, owner_of, type_pairs, types_pairs, user_of, variable_pairs, variables_pairs};

use crate::numbers::{constant_point, index, procedure_point, type_point, variable_point};
use bound_tree::{ConstDecl, TypeDecl, VarDecl};
use up_base::Mem;
use vb_tree::{Owner, Type6, VarId};

// The procedure that a declaration belongs to.
fn owner_of(owner: Owner) -> Option<u32>
    ensures { result ≡ owner_of owner }
{
    match owner {
        Owner::Local(p) => Some(p.0),
        Owner::Static(p) => Some(p.0),
        Owner::Value(p) => Some(p.0),
        Owner::Reference(p) => Some(p.0),
        Owner::Answer(p) => Some(p.0),
        _ => None,
    }
}

fn push_owned(p: Option<u32>, end: u32, to: &mut Vec<(u32, u32)>) -> Result<(), Mem>
    ensures { OnOk result (to.new.items ≡ to.old.items ++ owned_by p end) }
{
    match p {
        None => Ok(()),
        Some(p) => {
            let from = procedure_point(p)?;
            Ok(to.push((from, end))?)
        }
    }
}

fn user_of(ty: &Type6) -> Option<u32>
    ensures { result ≡ user_of (type_of ty.now) }
{
    match ty {
        Type6::User(t) => Some(*t),
        _ => None,
    }
}

// The user type that a type is, or that the elements of an array have.
#[tactic(auto, using(crate::proofs::Tables::user_in_is))]
fn user_in(ty: &Type6) -> Option<u32>
    ensures { result ≡ user_in (type_of ty.now) }
{
    match ty {
        Type6::Array(of, _) => user_of(of),
        _ => user_of(ty),
    }
}

fn push_type(k: u32, t: Option<u32>, to: &mut Vec<(u32, u32)>) -> Result<(), Mem>
    ensures { OnOk result (to.new.items ≡ to.old.items ++ type_pairs k t) }
{
    match t {
        None => Ok(()),
        Some(t) => {
            let from = variable_point(k)?;
            let end = type_point(t)?;
            Ok(to.push((from, end))?)
        }
    }
}

fn push_variable(k: u32, v: &VarDecl, to: &mut Vec<(u32, u32)>) -> Result<(), Mem>
    ensures { OnOk result (to.new.items ≡ to.old.items ++ variable_pairs k (variable_of v.now)) }
{
    let end = variable_point(k)?;
    push_owned(owner_of(v.owner), end, to)?;
    push_type(k, user_in(&v.named), to)?;
    Ok(())
}

/// Appends what variables mention, and those to which procedures lead as their own.
pub(crate) fn push_variables(vars: &[VarDecl], to: &mut Vec<(u32, u32)>) -> Result<(), Mem>
    ensures { OnOk result (to.new.items ≡ to.old.items ++ variables_pairs 0 (map variable_of vars.now)) }
{
    for (i, v) in vars.iter().enumerate() {
        push_variable(index(i)?, v, to)?;
    }
    Ok(())
}

fn push_constant(k: u32, owner: Owner, to: &mut Vec<(u32, u32)>) -> Result<(), Mem>
    ensures { OnOk result (to.new.items ≡ to.old.items ++ owned_by (owner_of owner) (number (constant k))) }
{
    let end = constant_point(k)?;
    Ok(push_owned(owner_of(owner), end, to)?)
}

/// Appends the constants to which procedures lead as their own.
pub(crate) fn push_constants(consts: &[ConstDecl], to: &mut Vec<(u32, u32)>) -> Result<(), Mem>
    ensures { OnOk result (to.new.items ≡ to.old.items ++ constants_pairs 0 (map constant_of consts.now)) }
{
    for (i, c) in consts.iter().enumerate() {
        push_constant(index(i)?, c.owner, to)?;
    }
    Ok(())
}

fn push_field(k: u32, f: VarId, to: &mut Vec<(u32, u32)>) -> Result<(), Mem>
    ensures { OnOk result (to.new.items ≡ to.old.items ++ (number (user_type k), number (variable f.0)) ∷ []) }
{
    let from = type_point(k)?;
    let end = variable_point(f.0)?;
    Ok(to.push((from, end))?)
}

fn push_fields(k: u32, fields: &[VarId], to: &mut Vec<(u32, u32)>) -> Result<(), Mem>
    ensures { OnOk result (to.new.items ≡ to.old.items ++ field_pairs k fields.now) }
{
    for f in fields {
        push_field(k, *f, to)?;
    }
    Ok(())
}

/// Appends the pairs of user types and their fields.
pub(crate) fn push_types(types: &[TypeDecl], to: &mut Vec<(u32, u32)>) -> Result<(), Mem>
    ensures { OnOk result (to.new.items ≡ to.old.items ++ types_pairs 0 types.now) }
{
    for (i, t) in types.iter().enumerate() {
        push_fields(index(i)?, t.fields.as_slice(), to)?;
    }
    Ok(())
}
