//! The parts of properties, one by one and two beside each other.
ghost use Rattle.std.specs.Prelude.{◌≡◌, map, option_map};
ghost use Rattle.std.specs.List.{list_all, zip};
ghost use Rattle.bound_tree.specs.View.{declarations_of, procedure_of, variable_of};
ghost use Rattle.object_rules.specs.Shown.{shown_variable};
ghost use Rattle.object_rules.specs.Properties.{are_alike, are_same_indexes, are_same_values, before_last, have_same_name, have_same_type, indexes_of, is_let, is_property, is_same_index, is_same_word, is_set, lacks_value, last, takes_value, value_of, variable_at};

use crate::types::is_same_type;
use bound_tree::{Declared, ProcDecl, VarDecl};
use vb_tree::{ProcKind, VarId, Visibility};

pub(crate) fn is_property(kind: ProcKind) -> bool
    ensures { result ≡ is_property kind }
{
    match kind {
        ProcKind::Get => true,
        ProcKind::Let => true,
        ProcKind::Set => true,
        _ => false,
    }
}

pub(crate) fn is_let(kind: ProcKind) -> bool
    ensures { result ≡ is_let kind }
{
    match kind {
        ProcKind::Let => true,
        _ => false,
    }
}

pub(crate) fn is_set(kind: ProcKind) -> bool
    ensures { result ≡ is_set kind }
{
    match kind {
        ProcKind::Set => true,
        _ => false,
    }
}

fn takes_value(kind: ProcKind) -> bool
    ensures { result ≡ takes_value kind }
{
    is_let(kind) || is_set(kind)
}

fn last(params: &[VarId]) -> Option<VarId>
    ensures { result ≡ last params.now }
{
    match params.split_last() {
        Some((v, _)) => Some(*v),
        None => None,
    }
}

fn before_last(params: &[VarId]) -> &[VarId]
    ensures { result.now ≡ before_last params.now }
{
    match params.split_last() {
        Some((_, front)) => front,
        None => &[],
    }
}

// The result variable of a Get, the last parameter of a Let or Set.
fn value_of(p: &ProcDecl) -> Option<VarId>
    ensures { result ≡ value_of (procedure_of p.now) }
{
    if takes_value(p.kind) {
        last(p.params.as_slice())
    } else {
        p.answer
    }
}

// The parameters beside the value.
fn indexes_of(p: &ProcDecl) -> &[VarId]
    ensures { result.now ≡ indexes_of (procedure_of p.now) }
{
    if takes_value(p.kind) {
        before_last(p.params.as_slice())
    } else {
        p.params.as_slice()
    }
}

/// Whether a part is a Let or Set without a value parameter.
pub(crate) fn lacks_value(p: &ProcDecl) -> bool
    ensures { result ≡ lacks_value (procedure_of p.now) }
{
    takes_value(p.kind) && last(p.params.as_slice()).is_none()
}

fn is_same_word(a: Visibility, b: Visibility) -> bool
    ensures { result ≡ is_same_word a b }
{
    match (a, b) {
        (Visibility::Public, Visibility::Public) => true,
        (Visibility::Private, Visibility::Private) => true,
        (Visibility::Friend, Visibility::Friend) => true,
        (Visibility::Global, Visibility::Global) => true,
        _ => false,
    }
}

fn variable_at(vars: &[VarDecl], v: Option<VarId>) -> Option<&VarDecl>
    ensures { option_map shown_variable result ≡ variable_at (map variable_of vars.now) v }
{
    match v {
        Some(v) => vars.get(v.0 as usize),
        None => None,
    }
}

fn have_same_type(a: Option<&VarDecl>, b: Option<&VarDecl>) -> bool
    ensures { result ≡ have_same_type (option_map shown_variable a.entry) (option_map shown_variable b.entry) }
{
    match (a, b) {
        (None, None) => true,
        (Some(v), Some(w)) => is_same_type(&v.named, &w.named),
        _ => false,
    }
}

fn have_same_name(a: Option<&VarDecl>, b: Option<&VarDecl>) -> bool
    ensures { result ≡ have_same_name (option_map shown_variable a.entry) (option_map shown_variable b.entry) }
{
    match (a, b) {
        (None, None) => true,
        (Some(v), Some(w)) => v.name == w.name,
        _ => false,
    }
}

fn are_same_values(vars: &[VarDecl], v: Option<VarId>, w: Option<VarId>) -> bool
    ensures { result ≡ are_same_values (map variable_of vars.now) v w }
{
    have_same_type(variable_at(vars, v), variable_at(vars, w))
}

fn is_same_index(vars: &[VarDecl], v: VarId, w: VarId) -> bool
    ensures { result ≡ is_same_index (map variable_of vars.now) v w }
{
    let a = variable_at(vars, Some(v));
    let b = variable_at(vars, Some(w));
    have_same_name(a, b) && have_same_type(a, b)
}

fn each_same_index(vars: &[VarDecl], vs: &[VarId], ws: &[VarId]) -> bool
    ensures { result ≡ list_all (λ p. is_same_index (map variable_of vars.now) p.0 p.1) (zip vs.now ws.now) }
{
    vs.iter().zip(ws).all(|(v, w)| is_same_index(vars, *v, *w))
}

fn are_same_indexes(vars: &[VarDecl], vs: &[VarId], ws: &[VarId]) -> bool
    ensures { result ≡ are_same_indexes (map variable_of vars.now) vs.now ws.now }
{
    vs.len() == ws.len() && each_same_index(vars, vs, ws)
}

/// Whether two parts of a property have the same visibility and type, and the same index parameters.
pub(crate) fn are_alike(declared: &Declared, p: &ProcDecl, q: &ProcDecl) -> bool
    ensures { result ≡ are_alike (declarations_of declared.now) (procedure_of p.now) (procedure_of q.now) }
{
    let vars = declared.vars.as_slice();
    is_same_word(p.visibility, q.visibility)
        && are_same_values(vars, value_of(p), value_of(q))
        && are_same_indexes(vars, indexes_of(p), indexes_of(q))
}
