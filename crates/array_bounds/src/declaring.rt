//! Declarations of arrays, and heads of procedures whose result or value is an array or holds one.
ghost use Rattle.std.specs.Prelude.{◌≡◌, ◌||◌, ◌&&◌, Option, map, option_map, slice_get};
ghost use Rattle.reach_table.specs.Chains.{is_marked};
ghost use Rattle.vb_tree.specs.BoundView.{type_of};
ghost use Rattle.bound_tree.specs.View.{declarations_of, procedure_of, variable_of};
ghost use Rattle.array_bounds.specs.Declaring.{breaks_head, breaks_variable, is_array_of_made, is_array_or_holds, last_of, splits_variable, type_in, type_of_kind, variable_type};
ghost use Rattle.array_bounds.specs.FactsOf.{known_of};
ghost use Rattle.array_bounds.specs.LockTables.{shown_type};
ghost use Rattle.array_bounds.specs.Types.{is_user_that};

use crate::facts::Facts;
use crate::locks::flag_at;
use bound_facts::is_array_type;
use bound_tree::{Declared, ProcDecl, VarDecl};
use vb_tree::{ProcKind, Type6, VarId};

fn is_user_that(flags: &[bool], ty: &Type6) -> bool
    ensures { result ≡ is_user_that (is_marked flags.now) (type_of ty.now) }
{
    match ty {
        Type6::User(t) => flag_at(flags, *t),
        _ => false,
    }
}

// ---- variables

/// Whether a variable, by its number, is an array with two lower bounds in one dimension.
pub(crate) fn splits_variable(facts: &Facts, k: usize, v: &VarDecl) -> bool
    ensures { result ≡ splits_variable (known_of facts.now) k (variable_of v.now) }
{
    is_array_type(&v.ty) && facts.bounds.splits(k)
}

fn is_array_of_made(facts: &Facts, ty: &Type6) -> bool
    ensures { result ≡ is_array_of_made (known_of facts.now) (type_of ty.now) }
{
    match ty {
        Type6::Array(of, _) => is_user_that(&facts.holds_made, of),
        _ => false,
    }
}

/// Whether a variable, by its number, is an array of a form that isn't translated.
pub(crate) fn breaks_variable(facts: &Facts, k: usize, v: &VarDecl) -> bool
    ensures { result ≡ breaks_variable (known_of facts.now) k (variable_of v.now) }
{
    (is_array_type(&v.ty) && facts.bounds.tears(k)) || is_array_of_made(facts, &v.ty)
}

// ---- heads

fn last_of(params: &[VarId]) -> Option<VarId>
    ensures { result ≡ last_of params.now }
{
    let mut last = None;
    for v in params {
        last = Some(*v);
    }
    last
}

fn variable_type(declared: &Declared, v: Option<VarId>) -> Option<&Type6>
    ensures { option_map shown_type result ≡ variable_type (declarations_of declared.now) v }
{
    match v {
        Some(v) => type_at(declared.vars.as_slice(), v),
        None => None,
    }
}

fn type_at(vars: &[VarDecl], v: VarId) -> Option<&Type6>
    ensures { option_map shown_type result ≡ type_in (slice_get (map variable_of vars.now) v.0) }
{
    match vars.get(v.0 as usize) {
        Some(v) => Some(&v.ty),
        None => None,
    }
}

fn value_type<'a>(declared: &'a Declared, p: &ProcDecl) -> Option<&'a Type6>
    ensures { option_map shown_type result ≡ variable_type (declarations_of declared.now) (last_of (procedure_of p.now).params) }
{
    variable_type(declared, last_of(p.params.as_slice()))
}

fn type_of_kind<'a>(declared: &'a Declared, p: &'a ProcDecl, kind: ProcKind) -> Option<&'a Type6>
    ensures { option_map shown_type result ≡ type_of_kind (declarations_of declared.now) (procedure_of p.now) kind }
{
    match kind {
        ProcKind::Sub => None,
        ProcKind::Function => Some(&p.result),
        ProcKind::Get => Some(&p.result),
        ProcKind::Let => value_type(declared, p),
        ProcKind::Set => value_type(declared, p),
    }
}

fn is_array_or_that(facts: &Facts, ty: &Type6) -> bool
    ensures { result ≡ is_array_or_holds (known_of facts.now) (Some (type_of ty.now)) }
{
    is_array_type(ty) || is_user_that(&facts.holds_array, ty)
}

/// Whether the result or the value of a procedure is an array or a user type that holds one.
pub(crate) fn breaks_head(facts: &Facts, p: &ProcDecl) -> bool
    ensures { result ≡ breaks_head (declarations_of facts.now.declared.now) (known_of facts.now) (procedure_of p.now) }
{
    match type_of_kind(facts.declared, p, p.kind) {
        Some(ty) => is_array_or_that(facts, ty),
        None => false,
    }
}
