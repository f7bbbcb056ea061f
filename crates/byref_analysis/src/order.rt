//! Order of effects.
ghost use Rattle.std.specs.Prelude.{◌≡◌, ◌++◌, ◌&&◌, [], ◌∷◌, IfOk, OnOk, cond, map, slice_get};
ghost use Rattle.std.specs.List.{list_any, flat_map};
ghost use Rattle.vb_tree.specs.BoundView.{type_of};
ghost use Rattle.vb_tree.specs.View.{form_of, redim_item_of};
ghost use Rattle.bound_tree.specs.View.{declarations_of, expr_of, exprs_of, shown, shown_line, variable_of};
ghost use Rattle.bound_facts.specs.CanRaise.{is_fixed};
ghost use Rattle.bound_facts.specs.Node.{variable_number};
ghost use Rattle.bound_facts.specs.Nodes.{nodes, nodes_of_all};
ghost use Rattle.byref_analysis.specs.FactsOf.{stirs_by};
ghost use Rattle.byref_analysis.specs.Lines.{bounds_in};
ghost use Rattle.byref_analysis.specs.Order.{breaks_order, breaks_order_in, breaks_store, clashes, is_fixed_array, is_home, is_home_owner, is_loose, is_whole, is_whole_type, part_nodes, stays};

use crate::lines::push_bounds;
use crate::node::variable_at;
use crate::stirring::Stirring;
use bound_facts::{
    NodeTest, Raising, all_of, any_of, called, is_object_type, push_nodes, push_parts,
};
use bound_tree::{BoundExpr, BoundNode, Declared, LineRef, VarDecl};
use std::alloc::Global;
use up_base::{Mem, Sequence};
use vb_tree::{Form6, Owner, ReDimItem6, Type6};

// ---- the parts of a target

fn is_fixed_array(ty: &Type6) -> bool
    ensures { result ≡ is_fixed_array (type_of ty.now) }
{
    match ty {
        Type6::Array(_, rank) => *rank != 0,
        _ => false,
    }
}

fn is_home_owner(owner: Owner) -> bool
    ensures { result ≡ is_home_owner owner }
{
    match owner {
        Owner::Module(_) => true,
        Owner::Local(_) => true,
        Owner::Static(_) => true,
        _ => false,
    }
}

fn is_home_at(vars: &Sequence<VarDecl>, v: usize) -> bool
    ensures { result ≡ is_home (slice_get (map variable_of vars.now) v) }
{
    match vars.get(v) {
        Some(v) => is_home_owner(v.owner),
        None => false,
    }
}

fn is_home(vars: &Sequence<VarDecl>, v: Option<usize>) -> bool
    ensures { result ≡ is_home (variable_number (map variable_of vars.now) v) }
{
    match v {
        Some(v) => is_home_at(vars, v),
        None => false,
    }
}

// Whether nothing puts another array there.
fn stays(declared: &Declared, e: &BoundExpr) -> bool
    ensures { result ≡ stays (declarations_of declared.now) (expr_of e.now) }
{
    is_fixed_array(&e.ty) && is_home(&declared.vars, variable_at(e))
}

fn push_array<'a>(
    declared: &Declared,
    e: &'a BoundExpr,
    to: &mut Vec<&'a BoundExpr>,
) -> Result<(), Mem>
    ensures { OnOk result (map shown to.new.items ≡ map shown to.old.items ++ cond (stays (declarations_of declared.now) (expr_of e.now)) [] (nodes (expr_of e.now))) }
{
    if stays(declared, e) {
        return Ok(());
    }
    Ok(push_nodes(e, to)?)
}

fn push_indexes<'a>(es: &'a [BoundExpr], to: &mut Vec<&'a BoundExpr>) -> Result<(), Mem>
    ensures { OnOk result (map shown to.new.items ≡ map shown to.old.items ++ nodes_of_all (exprs_of es.now)) }
{
    for e in es {
        push_nodes(e, to)?;
    }
    Ok(())
}

// The nodes of the parts of a target that are evaluated before the store.
fn push_part_nodes<'a>(
    declared: &Declared,
    e: &'a BoundExpr,
    to: &mut Vec<&'a BoundExpr>,
) -> Result<(), Mem>
    ensures { OnOk result (map shown to.new.items ≡ map shown to.old.items ++ part_nodes (declarations_of declared.now) (expr_of e.now)) }
{
    match &e.node {
        BoundNode::Field(of, _) => {
            if is_object_type(&of.ty) {
                return Ok(push_nodes(of, to)?);
            }
            Ok(push_part_nodes(declared, of, to)?)
        }
        BoundNode::Element(of, indexes) => {
            push_array(declared, of, to)?;
            push_indexes(indexes, to)?;
            Ok(())
        }
        _ => Ok(push_parts(&e.node, to)?),
    }
}

// ---- targets

fn is_whole_type(ty: &Type6) -> bool
    ensures { result ≡ is_whole_type (type_of ty.now) }
{
    match ty {
        Type6::User(_) => true,
        Type6::Class(_) => true,
        Type6::Object => true,
        Type6::Array(_, _) => true,
        _ => false,
    }
}

fn is_whole(e: &BoundExpr) -> bool
    ensures { result ≡ is_whole (expr_of e.now) }
{
    called(e).is_some() || is_whole_type(&e.ty)
}

// ---- nodes of constant expressions

fn is_fixed(e: &BoundExpr) -> bool
    ensures { result ≡ is_fixed (expr_of e.now) }
{
    match &e.node {
        BoundNode::Const(_, _) => true,
        BoundNode::Unary(_, _) => true,
        BoundNode::Binary(_, _, _) => true,
        BoundNode::Convert(_, _) => true,
        BoundNode::Is(_, _) => true,
        BoundNode::Me => true,
        BoundNode::WithObject(_) => true,
        _ => false,
    }
}

#[derive(Clone, Copy)]
struct Fixing;

impl NodeTest for Fixing {
    ghost test = { λ s e. is_fixed e };

    fn holds(&self, e: &BoundExpr) -> bool {
        is_fixed(e)
    }
}

// ---- lines

fn clashes(stirring: &Stirring, whole: bool, p: &[&BoundExpr], r: &[&BoundExpr]) -> bool
    ensures { result ≡ clashes (declarations_of stirring.now.declared.now) (stirs_by stirring.now) whole (map shown p.now) (map shown r.now) }
{
    let raising = Raising {
        declared: stirring.declared,
    };
    (any_of(p, stirring) && !all_of(r, &Fixing))
        || (any_of(r, stirring) && !all_of(p, &Fixing))
        || (whole && any_of(p, &raising) && any_of(r, &raising))
}

fn clashes_at(
    alloc: Global,
    stirring: &Stirring,
    to: &BoundExpr,
    e: &BoundExpr,
) -> Result<bool, Mem>
    ensures { IfOk result (λ b. b ≡ clashes (declarations_of stirring.now.declared.now) (stirs_by stirring.now) (is_whole (expr_of to.now)) (part_nodes (declarations_of stirring.now.declared.now) (expr_of to.now)) (nodes (expr_of e.now))) }
{
    let mut p = Vec::new(alloc);
    push_part_nodes(stirring.declared, to, &mut p)?;
    let mut r = Vec::new(alloc);
    push_nodes(e, &mut r)?;
    Ok(clashes(stirring, is_whole(to), &p, &r))
}

fn is_loose(e: &BoundExpr) -> bool
    ensures { result ≡ is_loose (expr_of e.now) }
{
    match &e.node {
        BoundNode::Loose(_, _) => true,
        _ => false,
    }
}

fn breaks_pair(
    alloc: Global,
    stirring: &Stirring,
    to: &BoundExpr,
    e: &BoundExpr,
) -> Result<bool, Mem>
    ensures { IfOk result (λ b. b ≡ breaks_store (declarations_of stirring.now.declared.now) (stirs_by stirring.now) (expr_of to.now ∷ expr_of e.now ∷ [])) }
{
    if is_loose(e) {
        return Ok(false);
    }
    Ok(clashes_at(alloc, stirring, to, e)?)
}

fn breaks_store(alloc: Global, stirring: &Stirring, exprs: &[BoundExpr]) -> Result<bool, Mem>
    ensures { IfOk result (λ b. b ≡ breaks_store (declarations_of stirring.now.declared.now) (stirs_by stirring.now) (map expr_of exprs.now)) }
{
    match exprs {
        [to, e, ..] => Ok(breaks_pair(alloc, stirring, to, e)?),
        _ => Ok(false),
    }
}

fn stirs_bounds(
    alloc: Global,
    stirring: &Stirring,
    items: &[ReDimItem6],
    exprs: &[BoundExpr],
) -> Result<bool, Mem>
    ensures { IfOk result (λ b. b ≡ list_any (stirs_by stirring.now) (flat_map nodes (bounds_in (map redim_item_of items.now) (map expr_of exprs.now)))) }
{
    let mut nodes = Vec::new(alloc);
    push_bounds(items, exprs, &mut nodes)?;
    Ok(any_of(&nodes, stirring))
}

fn breaks_redim(
    alloc: Global,
    stirring: &Stirring,
    preserve: bool,
    items: &[ReDimItem6],
    exprs: &[BoundExpr],
) -> Result<bool, Mem>
    ensures { IfOk result (λ b. b ≡ (preserve && list_any (stirs_by stirring.now) (flat_map nodes (bounds_in (map redim_item_of items.now) (map expr_of exprs.now))))) }
{
    if !preserve {
        return Ok(false);
    }
    Ok(stirs_bounds(alloc, stirring, items, exprs)?)
}

fn breaks_form(
    alloc: Global,
    stirring: &Stirring,
    form: &Form6,
    exprs: &[BoundExpr],
) -> Result<bool, Mem>
    ensures { IfOk result (λ b. b ≡ breaks_order_in (declarations_of stirring.now.declared.now) (stirs_by stirring.now) (form_of form.now) (map expr_of exprs.now)) }
{
    match form {
        Form6::Assign(_, _) => Ok(breaks_store(alloc, stirring, exprs)?),
        Form6::Set(_, _) => Ok(breaks_store(alloc, stirring, exprs)?),
        Form6::ReDim(preserve, items) => Ok(breaks_redim(
            alloc,
            stirring,
            *preserve,
            items.as_slice(),
            exprs,
        )?),
        _ => Ok(false),
    }
}

/// Whether the order of effects shows at a line.
pub(crate) fn breaks_order(alloc: Global, stirring: &Stirring, line: &LineRef) -> Result<bool, Mem>
    ensures { IfOk result (λ b. b ≡ breaks_order (declarations_of stirring.now.declared.now) (stirs_by stirring.now) (shown_line line.now)) }
{
    let exprs = line.bound.exprs.as_slice();
    Ok(breaks_form(alloc, stirring, &line.source.form, exprs)?)
}
