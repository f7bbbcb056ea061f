//! User types that hold themselves.
ghost use Rattle.std.specs.Prelude.{◌≡◌, ℕ, true, ◌↔◌, [], ◌++◌, map, option_map, slice_get, IfOk, OnOk};
ghost use Rattle.vb_tree.specs.BoundView.{type_of};
ghost use Rattle.bound_tree.specs.View.{variable_of};
ghost use Rattle.reach_table.specs.Chains.{is_marked};
ghost use Rattle.declarations.specs.Circles.{AreCircles, IsCircle, pair_at, pair_by, pair_of, pairs_of, user_in, user_of, with_pair};

use crate::constants::{count, is_at};
use bound_facts::leading_to;
use bound_tree::VarDecl;
use std::alloc::Global;
use up_base::Mem;
use vb_tree::{Owner, Type6};

fn user_of(ty: &Type6) -> Option<u32>
    ensures { result ≡ user_of (type_of ty.now) }
{
    match ty {
        Type6::User(t) => Some(*t),
        _ => None,
    }
}

// The user type of a variable or of its elements.
fn user_in(ty: &Type6) -> Option<u32>
    ensures { result ≡ user_in (type_of ty.now) }
{
    match ty {
        Type6::User(t) => Some(*t),
        Type6::Array(element, _) => user_of(element),
        _ => None,
    }
}

fn pair_by(owner: Owner, user: Option<u32>) -> Option<(u32, u32)>
    ensures { result ≡ pair_by owner user }
{
    match owner {
        Owner::Field(t) => match user {
            Some(u) => Some((t.0, u)),
            None => None,
        },
        _ => None,
    }
}

// A Type and one that it holds by this field.
fn pair_of(x: &VarDecl) -> Option<(u32, u32)>
    ensures { result ≡ pair_of (variable_of x.now) }
{
    pair_by(x.owner, user_in(&x.named))
}

fn put_pair(pair: Option<(u32, u32)>, to: &mut Vec<(u32, u32)>) -> Result<(), Mem>
    ensures { OnOk result (to.new.items ≡ to.old.items ++ with_pair pair []) }
{
    match pair {
        Some(pair) => Ok(to.push(pair)?),
        None => Ok(()),
    }
}

fn pairs_of(alloc: Global, vars: &[VarDecl]) -> Result<Vec<(u32, u32)>, Mem>
    ensures { IfOk result (λ v. v.items ≡ pairs_of (map variable_of vars.now)) }
{
    let mut pairs = Vec::new(alloc);
    for x in vars {
        put_pair(pair_of(x), &mut pairs)?;
    }
    Ok(pairs)
}

// Whether a chain of pairs leads from the second number to the first.
fn leads_back(
    alloc: Global,
    types: u32,
    pairs: &[(u32, u32)],
    pair: (u32, u32),
) -> Result<bool, Mem>
    ensures { IfOk result (λ b. b ≡ true ↔ IsCircle types pairs.now (Some pair)) }
{
    let (t, u) = pair;
    let leads = leading_to(alloc, types, pairs, &[t])?;
    Ok(is_at(&leads, u as usize))
}

fn is_circle(
    alloc: Global,
    types: u32,
    pairs: &[(u32, u32)],
    pair: Option<(u32, u32)>,
) -> Result<bool, Mem>
    ensures { IfOk result (λ b. b ≡ true ↔ IsCircle types pairs.now pair) }
{
    match pair {
        Some(pair) => Ok(leads_back(alloc, types, pairs, pair)?),
        None => Ok(false),
    }
}

fn circles_by(
    alloc: Global,
    types: u32,
    pairs: &[(u32, u32)],
    vars: &[VarDecl],
) -> Result<Vec<bool>, Mem>
    ensures { IfOk result (λ v. (k : ℕ) → is_marked v.items k ≡ true ↔ IsCircle types pairs.now (pair_at (slice_get (map variable_of vars.now) k))) }
{
    let mut all = Vec::new(alloc);
    for x in vars {
        all.push(is_circle(alloc, types, pairs, pair_of(x))?)?;
    }
    Ok(all)
}

/// For each variable whether it is a field whose type is its own or holds its own.
pub(crate) fn circles_of(alloc: Global, types: usize, vars: &[VarDecl]) -> Result<Vec<bool>, Mem>
    ensures { IfOk result (λ v. AreCircles types (map variable_of vars.now) (is_marked v.items)) }
{
    let pairs = pairs_of(alloc, vars)?;
    Ok(circles_by(alloc, count(types)?, &pairs, vars)?)
}
