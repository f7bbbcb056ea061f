//! The declarations that a line mentions.
ghost use Rattle.std.specs.Prelude.{◌≡◌, ◌<◌, ◌++◌, Some, map, option_map, option_to_list, OnOk, IfOk};
ghost use Rattle.std.specs.List.{flat_map};
ghost use Rattle.vb_tree.specs.BoundView.{type_of};
ghost use Rattle.vb_tree.specs.View.{exp_of, form_of, redim_item_of, type_name_of};
ghost use Rattle.bound_tree.specs.View.{declarations_of, expr_of, shown};
ghost use Rattle.bound_facts.specs.Nodes.{nodes};
ghost use Rattle.expression_words.specs.View.{IsScope, declared_in, scope_of, typed_of};
ghost use Rattle.bound_exprs.specs.Resolved as expected;
ghost use Rattle.binder.specs.Mentions.{constant_mentions, field_mentions, line_mentions, node_mentions, of_type, own_mentions, redim_mentions, type_mentions, typed_mentions};

use bound_exprs::resolved;
use bound_facts::{field_of, push_nodes};
use bound_tree::{BoundExpr, BoundNode, Declared, Mention, Origin};
use declarations::choice_by_name;
use expression_words::{Scope, Typed};
use std::alloc::Global;
use up_base::{Mem, Sequence};
use vb_tree::{Expr6, Form6, ReDimItem6, Type6, TypeId, TypeName6, VarId};

fn push_constant(origin: Origin, to: &mut Sequence<Mention>) -> Result<(), Mem>
    ensures { OnOk result (to.new ≡ to.old ++ constant_mentions origin) }
{
    match origin {
        Origin::Literal => Ok(()),
        Origin::Hexadecimal => Ok(()),
        Origin::Declared(c) => Ok(to.push(Mention::Const(c))?),
    }
}

// The number of a variable, which has 32 bits.
fn variable_id(v: usize) -> Result<VarId, Mem>
    ensures { IfOk result (λ id. id.0 ≡ v) }
{
    match u32::try_from(v) {
        Ok(v) => Ok(VarId(v)),
        Err(_) => Err(Mem),
    }
}

fn push_field(v: Option<usize>, to: &mut Sequence<Mention>) -> Result<(), Mem>
    ensures { OnOk result (to.new ≡ to.old ++ field_mentions v) }
{
    match v {
        Some(v) => Ok(to.push(Mention::Var(variable_id(v)?))?),
        None => Ok(()),
    }
}

fn push_node(declared: &Declared, e: &BoundExpr, to: &mut Sequence<Mention>) -> Result<(), Mem>
    ensures { OnOk result (to.new ≡ to.old ++ node_mentions (declarations_of declared.now) (expr_of e.now)) }
{
    match &e.node {
        BoundNode::Const(_, origin) => Ok(push_constant(*origin, to)?),
        BoundNode::Var(v, _) => Ok(to.push(Mention::Var(*v))?),
        BoundNode::Field(of, k) => Ok(push_field(field_of(declared, &of.ty, *k), to)?),
        BoundNode::Call(p, _, _, _) => Ok(to.push(Mention::Proc(*p))?),
        BoundNode::New(class) => Ok(to.push(Mention::Class(*class))?),
        _ => Ok(()),
    }
}

fn push_nodes_of(
    declared: &Declared,
    nodes: &[&BoundExpr],
    to: &mut Sequence<Mention>,
) -> Result<(), Mem>
    ensures { OnOk result (to.new ≡ to.old ++ flat_map (node_mentions (declarations_of declared.now)) (map shown nodes.now)) }
{
    for e in nodes {
        push_node(declared, e, to)?;
    }
    Ok(())
}

fn push_known(
    alloc: Global,
    declared: &Declared,
    e: &BoundExpr,
    to: &mut Sequence<Mention>,
) -> Result<(), Mem>
    ensures { OnOk result (to.new ≡ to.old ++ flat_map (node_mentions (declarations_of declared.now)) (nodes (expr_of e.now))) }
{
    let mut nodes = Vec::new(alloc);
    push_nodes(e, &mut nodes)?;
    push_nodes_of(declared, &nodes, to)?;
    Ok(())
}

fn push_cause(cause: Option<Mention>, to: &mut Sequence<Mention>) -> Result<(), Mem>
    ensures { OnOk result (to.new ≡ to.old ++ option_to_list cause) }
{
    match cause {
        Some(mention) => Ok(to.push(mention)?),
        None => Ok(()),
    }
}

fn push_typed(
    alloc: Global,
    declared: &Declared,
    t: &Typed,
    to: &mut Sequence<Mention>,
) -> Result<(), Mem>
    ensures { OnOk result (to.new ≡ to.old ++ typed_mentions (declarations_of declared.now) (typed_of t.now)) }
{
    match t {
        Typed::Known(e) => Ok(push_known(alloc, declared, e, to)?),
        Typed::Unknown(flaw) => Ok(push_cause(flaw.cause, to)?),
    }
}

fn push_all(
    alloc: Global,
    declared: &Declared,
    typed: &[Typed],
    to: &mut Sequence<Mention>,
) -> Result<(), Mem>
    ensures { OnOk result (to.new ≡ to.old ++ flat_map (typed_mentions (declarations_of declared.now)) (map typed_of typed.now)) }
{
    for t in typed {
        push_typed(alloc, declared, t, to)?;
    }
    Ok(())
}

fn push_of_type(ty: &Type6, to: &mut Sequence<Mention>) -> Result<(), Mem>
    ensures { OnOk result (to.new ≡ to.old ++ of_type (type_of ty.now)) }
{
    match ty {
        Type6::User(t) => Ok(to.push(Mention::Type(TypeId(*t)))?),
        _ => Ok(()),
    }
}

fn push_length(
    alloc: Global,
    declared: &Declared,
    scope: Scope<'_>,
    e: &Expr6,
    to: &mut Sequence<Mention>,
) -> Result<(), Mem>
    requires names { IsScope scope }
    requires rule { scope.missing < 32 }
    ensures { OnOk result (to.new ≡ to.old ++ typed_mentions (declarations_of declared.now) (expected.resolved (scope_of scope.entry) (exp_of e.now))) }
{
    let t = resolved(alloc, scope, e)?;
    Ok(push_typed(alloc, declared, &t, to)?)
}

fn push_type_name(
    alloc: Global,
    declared: &Declared,
    scope: Scope<'_>,
    ty: &TypeName6,
    to: &mut Sequence<Mention>,
) -> Result<(), Mem>
    requires names { IsScope scope }
    requires rule { scope.missing < 32 }
    requires same { declarations_of declared.now ≡ declared_in scope.context }
    ensures { OnOk result (to.new ≡ to.old ++ type_mentions (scope_of scope.entry) (Some (type_name_of ty.now))) }
{
    match ty {
        TypeName6::Named(name) => {
            let choice = choice_by_name(scope.context, scope.site.file, false, name);
            Ok(push_of_type(&choice.ty, to)?)
        }
        TypeName6::FixedString(e) => Ok(push_length(alloc, declared, scope, e, to)?),
    }
}

fn push_redim(
    alloc: Global,
    declared: &Declared,
    scope: Scope<'_>,
    item: &ReDimItem6,
    to: &mut Sequence<Mention>,
) -> Result<(), Mem>
    requires names { IsScope scope }
    requires rule { scope.missing < 32 }
    requires same { declarations_of declared.now ≡ declared_in scope.context }
    ensures { OnOk result (to.new ≡ to.old ++ redim_mentions (scope_of scope.entry) (redim_item_of item.now)) }
{
    match &item.ty {
        Some(ty) => Ok(push_type_name(alloc, declared, scope, ty, to)?),
        None => Ok(()),
    }
}

fn push_redims(
    alloc: Global,
    declared: &Declared,
    scope: Scope<'_>,
    items: &[ReDimItem6],
    to: &mut Sequence<Mention>,
) -> Result<(), Mem>
    requires names { IsScope scope }
    requires rule { scope.missing < 32 }
    requires same { declarations_of declared.now ≡ declared_in scope.context }
    ensures { OnOk result (to.new ≡ to.old ++ flat_map (redim_mentions (scope_of scope.entry)) (map redim_item_of items.now)) }
{
    for item in items {
        push_redim(alloc, declared, scope, item, to)?;
    }
    Ok(())
}

fn push_own(
    alloc: Global,
    declared: &Declared,
    scope: Scope<'_>,
    form: &Form6,
    to: &mut Sequence<Mention>,
) -> Result<(), Mem>
    requires names { IsScope scope }
    requires rule { scope.missing < 32 }
    requires same { declarations_of declared.now ≡ declared_in scope.context }
    ensures { OnOk result (to.new ≡ to.old ++ own_mentions (scope_of scope.entry) (form_of form.now)) }
{
    match form {
        Form6::ReDim(_, items) => { Ok(push_redims(alloc, declared, scope, items.as_slice(), to)?) }
        _ => Ok(()),
    }
}

/// The declarations that a line mentions: in its expressions, and behind As of a ReDim.
pub fn line_mentions(
    alloc: Global,
    declared: &Declared,
    scope: Scope<'_>,
    form: &Form6,
    typed: &[Typed],
) -> Result<Sequence<Mention>, Mem>
    requires names { IsScope scope }
    requires rule { scope.missing < 32 }
    requires same { declarations_of declared.now ≡ declared_in scope.context }
    ensures { IfOk result (λ s. s ≡ line_mentions (scope_of scope.entry) (form_of form.now) (map typed_of typed.now)) }
{
    let mut all = Sequence::new(alloc);
    push_all(alloc, declared, typed, &mut all)?;
    push_own(alloc, declared, scope, form, &mut all)?;
    Ok(all)
}
