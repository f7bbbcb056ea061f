//! Literals and operators over bound operands.
ghost use Rattle.std.specs.Prelude.{◌≡◌, filter, length, is_some, IfOk};
ghost use Rattle.vb_tree.specs.BoundView.{type_of};
ghost use Rattle.bound_tree.specs.Tree.{Expr, typed, binary, constant, is_same, unary};
ghost use Rattle.bound_facts.specs.Folded.{folded};
ghost use Rattle.bound_tree.specs.View.{expr_of};
ghost use Rattle.typing_rows.specs.Types.{ty_of};
ghost use Rattle.expression_words.specs.Flaws as flaws;
ghost use Rattle.expression_words.specs.Flaws.{on_known, on_both};
ghost use Rattle.typing_rows.specs.declared.operators.Row.TheVariants.{Both};
ghost use Rattle.expression_words.specs.Converting.{plain};
ghost use Rattle.expression_words.specs.Operators.{as_operand, binary_over, by_any_row, by_any_unary_row, by_own_row, by_own_unary_row, by_row, by_unary_row, combined, folds, is_comparison_of_objects, is_constant_expression, is_default, is_other, is_printable, is_too_long, is_untranslated, literal_of, origin_of, own_term, text_literal, unary_over, with_value};
ghost use Rattle.expression_words.specs.View.{IsContext, declared_in, typed_of};

use crate::converting::{converted, plain};
use crate::{Context, Flaw, Typed};
use bound_facts::folded;
use bound_tree::{BoundExpr, BoundNode, Origin};
use std::alloc::Global;
use typing_rows::{Row, SimpleType, binary_row, unary_row};
use up_base::{Mem, Wide};
use vb_tree::{BinOp, Literal6, Type6, UnOp, Value6};

fn origin_of(hexadecimal: bool) -> Origin
    ensures { result ≡ origin_of hexadecimal }
{
    if hexadecimal {
        Origin::Hexadecimal
    } else {
        Origin::Literal
    }
}

fn is_printable(unit: u16) -> bool
    ensures { result ≡ is_printable unit }
{
    32 <= unit && unit <= 126
}

fn count_others(units: &[u16]) -> usize
    ensures { result ≡ length (filter is_other units.now) }
{
    let mut count = 0;
    for unit in units {
        if !is_printable(*unit) {
            count += 1;
        }
    }
    count
}

/// Whether a text is too long to be written, or has too many units that are written one by one.
pub fn is_too_long(units: &[u16]) -> bool
    ensures { result ≡ is_too_long units.now }
{
    16384 < units.len() || 200 < count_others(units)
}

fn text(alloc: Global, units: &Wide) -> Result<Typed, Mem>
    ensures { IfOk result (λ t. typed_of t ≡ text_literal units.now) }
{
    if is_too_long(units.as_slice()) {
        return Ok(Typed::breaks(25));
    }
    let units = Wide::from_slice(alloc, units.as_slice())?;
    Ok(constant(Type6::Str, Value6::Str(units), Origin::Literal))
}

/// A constant.
pub(crate) fn constant(ty: Type6, value: Value6, origin: Origin) -> Typed
    ensures { typed_of result ≡ flaws.known (typed (type_of ty) (constant value origin)) }
{
    let node = BoundNode::Const(value, origin);
    Typed::Known(BoundExpr { ty, node })
}

/// A literal.
pub fn literal(alloc: Global, literal: &Literal6) -> Result<Typed, Mem>
    ensures { IfOk result (λ t. typed_of t ≡ literal_of literal.now) }
{
    match literal {
        Literal6::Int(z, hexadecimal) => Ok(constant(
            Type6::Integer,
            Value6::Int(*z),
            origin_of(*hexadecimal),
        )),
        Literal6::Long(z, hexadecimal) => Ok(constant(
            Type6::Long,
            Value6::Long(*z),
            origin_of(*hexadecimal),
        )),
        Literal6::Cur(z) => Ok(constant(Type6::Currency, Value6::Cur(*z), Origin::Literal)),
        Literal6::Plain(_) => Ok(Typed::breaks(1)),
        Literal6::Floating => Ok(Typed::breaks(1)),
        Literal6::Date => Ok(Typed::breaks(1)),
        Literal6::Str(units) => Ok(text(alloc, units)?),
    }
}

// An operand as one of a type.
fn as_operand(alloc: Global, ty: SimpleType, e: BoundExpr) -> Result<Typed, Mem>
    ensures { IfOk result (λ t. typed_of t ≡ as_operand ty (expr_of e)) }
{
    if ty.is(&e.ty) {
        Ok(Typed::Known(e))
    } else {
        Ok(converted(alloc, ty, e)?)
    }
}

// Whether it is made of constants, operators and conversions.
#[tactic(auto, using(crate::proofs::ConstantParts::binary_constant))]
fn is_constant_expression(e: &BoundExpr) -> bool
    ensures { result ≡ is_constant_expression (expr_of e.now) }
{
    match &e.node {
        BoundNode::Const(_, _) => true,
        BoundNode::Unary(_, x) => is_constant_expression(x),
        BoundNode::Binary(_, x, y) => is_constant_expression(x) && is_constant_expression(y),
        BoundNode::Convert(_, x) => is_constant_expression(x),
        _ => false,
    }
}

fn has_value(alloc: Global, e: &BoundExpr) -> Result<bool, Mem>
    ensures { IfOk result (λ b. b ≡ is_some (folded (expr_of e.now))) }
{
    let value = folded(alloc, e)?;
    Ok(value.is_some())
}

fn folds(alloc: Global, e: BoundExpr) -> Result<Typed, Mem>
    ensures { IfOk result (λ t. typed_of t ≡ folds (expr_of e)) }
{
    let has = has_value(alloc, &e)?;
    if has {
        Ok(Typed::Known(e))
    } else {
        Ok(Typed::breaks(25))
    }
}

// An operator over constants has a value, else a rule is broken.
fn with_value(alloc: Global, e: BoundExpr) -> Result<Typed, Mem>
    ensures { IfOk result (λ t. typed_of t ≡ with_value (expr_of e)) }
{
    if is_constant_expression(&e) {
        Ok(folds(alloc, e)?)
    } else {
        Ok(Typed::Known(e))
    }
}

fn binary_node(
    alloc: Global,
    gives: SimpleType,
    op: BinOp,
    x: BoundExpr,
    y: BoundExpr,
) -> Result<BoundExpr, Mem>
    ensures { IfOk result (λ e. expr_of e ≡ typed (ty_of gives) (binary op (expr_of x) (expr_of y))) }
{
    let x = Box::new(alloc, x)?;
    let y = Box::new(alloc, y)?;
    let node = BoundNode::Binary(op, x, y);
    Ok(BoundExpr {
        ty: gives.to_type(),
        node,
    })
}

fn same_node(alloc: Global, gives: SimpleType, x: BoundExpr, y: BoundExpr) -> Result<BoundExpr, Mem>
    ensures { IfOk result (λ e. expr_of e ≡ typed (ty_of gives) (is_same (expr_of x) (expr_of y))) }
{
    let x = Box::new(alloc, x)?;
    let y = Box::new(alloc, y)?;
    let node = BoundNode::Is(x, y);
    Ok(BoundExpr {
        ty: gives.to_type(),
        node,
    })
}

fn binary(
    alloc: Global,
    gives: SimpleType,
    op: BinOp,
    x: BoundExpr,
    y: BoundExpr,
) -> Result<Typed, Mem>
    ensures { IfOk result (λ t. typed_of t ≡ with_value (typed (ty_of gives) (binary op (expr_of x) (expr_of y)))) }
{
    let e = binary_node(alloc, gives, op, x, y)?;
    Ok(with_value(alloc, e)?)
}

fn is_comparison_of_objects(op: BinOp) -> bool
    ensures { result ≡ is_comparison_of_objects op }
{
    matches!(op, BinOp::Is)
}

fn own_node(
    alloc: Global,
    gives: SimpleType,
    op: BinOp,
    x: BoundExpr,
    y: BoundExpr,
) -> Result<BoundExpr, Mem>
    ensures { IfOk result (λ e. expr_of e ≡ typed (ty_of gives) (own_term op (expr_of x) (expr_of y))) }
{
    if is_comparison_of_objects(op) {
        Ok(same_node(alloc, gives, x, y)?)
    } else {
        Ok(binary_node(alloc, gives, op, x, y)?)
    }
}

fn own(
    alloc: Global,
    gives: SimpleType,
    op: BinOp,
    x: BoundExpr,
    y: BoundExpr,
) -> Result<Typed, Mem>
    ensures { IfOk result (λ t. typed_of t ≡ with_value (typed (ty_of gives) (own_term op (expr_of x) (expr_of y)))) }
{
    let e = own_node(alloc, gives, op, x, y)?;
    Ok(with_value(alloc, e)?)
}

// An operator over two operands of a type.
fn over_both(alloc: Global, gives: SimpleType, op: BinOp, x: Typed, y: Typed) -> Result<Typed, Mem>
    ensures { IfOk result (λ t. typed_of t ≡ on_both (λ (p q : Expr). with_value (typed (ty_of gives) (binary op p q))) (typed_of x) (typed_of y)) }
{
    match x {
        Typed::Known(x) => Ok(over_second(alloc, gives, op, x, y)?),
        Typed::Unknown(flaw) => Ok(Typed::Unknown(flaw.together(y.flaw()))),
    }
}

fn over_second(
    alloc: Global,
    gives: SimpleType,
    op: BinOp,
    x: BoundExpr,
    y: Typed,
) -> Result<Typed, Mem>
    ensures { IfOk result (λ t. typed_of t ≡ on_known (λ (q : Expr). with_value (typed (ty_of gives) (binary op (expr_of x) q))) (typed_of y)) }
{
    match y {
        Typed::Known(y) => Ok(binary(alloc, gives, op, x, y)?),
        Typed::Unknown(flaw) => Ok(Typed::Unknown(flaw)),
    }
}

fn over_operands(
    alloc: Global,
    ty: SimpleType,
    gives: SimpleType,
    op: BinOp,
    x: BoundExpr,
    y: BoundExpr,
) -> Result<Typed, Mem>
    ensures { IfOk result (λ t. typed_of t ≡ by_row op (expr_of x) (expr_of y) (Both ty gives)) }
{
    let x = as_operand(alloc, ty, x)?;
    let y = as_operand(alloc, ty, y)?;
    Ok(over_both(alloc, gives, op, x, y)?)
}

fn by_row(alloc: Global, op: BinOp, x: BoundExpr, y: BoundExpr, row: Row) -> Result<Typed, Mem>
    ensures { IfOk result (λ t. typed_of t ≡ by_row op (expr_of x) (expr_of y) row) }
{
    match row {
        Row::Both(ty, gives) => Ok(over_operands(alloc, ty, gives, op, x, y)?),
        Row::Own(gives) => Ok(own(alloc, gives, op, x, y)?),
        Row::ByDefault => Ok(Typed::breaks(6)),
        Row::OverUnknown => Ok(Typed::Unknown(Flaw::new())),
        Row::NoForm => Ok(Typed::breaks(22)),
        Row::Untranslated => Ok(Typed::breaks(2)),
    }
}

fn by_own_row(alloc: Global, op: BinOp, x: BoundExpr, y: BoundExpr) -> Result<Typed, Mem>
    ensures { IfOk result (λ t. typed_of t ≡ by_own_row op (expr_of x) (expr_of y)) }
{
    let row = binary_row(op, &x.ty, &y.ty);
    Ok(by_row(alloc, op, x, y, row)?)
}

fn is_default(row: Row) -> bool
    ensures { result ≡ is_default row }
{
    matches!(row, Row::ByDefault)
}

fn by_plain_row(alloc: Global, op: BinOp, x: Typed, y: Typed) -> Result<Typed, Mem>
    ensures { IfOk result (λ t. typed_of t ≡ on_both (by_own_row op) (typed_of x) (typed_of y)) }
{
    match x {
        Typed::Known(x) => Ok(by_second_row(alloc, op, x, y)?),
        Typed::Unknown(flaw) => Ok(Typed::Unknown(flaw.together(y.flaw()))),
    }
}

fn by_second_row(alloc: Global, op: BinOp, x: BoundExpr, y: Typed) -> Result<Typed, Mem>
    ensures { IfOk result (λ t. typed_of t ≡ on_known (by_own_row op (expr_of x)) (typed_of y)) }
{
    match y {
        Typed::Known(y) => Ok(by_own_row(alloc, op, x, y)?),
        Typed::Unknown(flaw) => Ok(Typed::Unknown(flaw)),
    }
}

fn by_default_row(
    alloc: Global,
    context: Context<'_>,
    op: BinOp,
    x: BoundExpr,
    y: BoundExpr,
) -> Result<Typed, Mem>
    requires { IsContext context }
    ensures { IfOk result (λ t. typed_of t ≡ on_both (by_own_row op) (plain (declared_in context.entry) (expr_of x)) (plain (declared_in context.entry) (expr_of y))) }
{
    let x = plain(alloc, context, x)?;
    let y = plain(alloc, context, y)?;
    Ok(by_plain_row(alloc, op, x, y)?)
}

fn by_any_row(
    alloc: Global,
    context: Context<'_>,
    op: BinOp,
    x: BoundExpr,
    y: BoundExpr,
) -> Result<Typed, Mem>
    requires { IsContext context }
    ensures { IfOk result (λ t. typed_of t ≡ by_any_row (declared_in context.entry) op (expr_of x) (expr_of y)) }
{
    if is_default(binary_row(op, &x.ty, &y.ty)) {
        Ok(by_default_row(alloc, context, op, x, y)?)
    } else {
        Ok(by_own_row(alloc, op, x, y)?)
    }
}

fn is_untranslated(op: BinOp) -> bool
    ensures { result ≡ is_untranslated op }
{
    match op {
        BinOp::Pow => true,
        BinOp::Div => true,
        BinOp::Like => true,
        _ => false,
    }
}

fn combined(
    alloc: Global,
    context: Context<'_>,
    op: BinOp,
    s: Typed,
    t: Typed,
) -> Result<Typed, Mem>
    requires { IsContext context }
    ensures { IfOk result (λ r. typed_of r ≡ combined (declared_in context.entry) op (typed_of s) (typed_of t)) }
{
    match s {
        Typed::Known(x) => Ok(combined_second(alloc, context, op, x, t)?),
        Typed::Unknown(flaw) => Ok(Typed::Unknown(flaw.together(t.flaw()))),
    }
}

fn combined_second(
    alloc: Global,
    context: Context<'_>,
    op: BinOp,
    x: BoundExpr,
    t: Typed,
) -> Result<Typed, Mem>
    requires { IsContext context }
    ensures { IfOk result (λ r. typed_of r ≡ on_known (by_any_row (declared_in context.entry) op (expr_of x)) (typed_of t)) }
{
    match t {
        Typed::Known(y) => Ok(by_any_row(alloc, context, op, x, y)?),
        Typed::Unknown(flaw) => Ok(Typed::Unknown(flaw)),
    }
}

/// An operator between two operands.
pub fn binary_over(
    alloc: Global,
    context: Context<'_>,
    op: BinOp,
    s: Typed,
    t: Typed,
) -> Result<Typed, Mem>
    requires { IsContext context }
    ensures { IfOk result (λ r. typed_of r ≡ binary_over (declared_in context.entry) op (typed_of s) (typed_of t)) }
{
    if is_untranslated(op) {
        let flaw = s.flaw().together(t.flaw());
        return Ok(Typed::Unknown(Flaw::breaks(2).together(flaw)));
    }
    Ok(combined(alloc, context, op, s, t)?)
}

fn unary_node(alloc: Global, gives: SimpleType, op: UnOp, x: BoundExpr) -> Result<BoundExpr, Mem>
    ensures { IfOk result (λ e. expr_of e ≡ typed (ty_of gives) (unary op (expr_of x))) }
{
    let x = Box::new(alloc, x)?;
    let node = BoundNode::Unary(op, x);
    Ok(BoundExpr {
        ty: gives.to_type(),
        node,
    })
}

fn unary(alloc: Global, gives: SimpleType, op: UnOp, x: BoundExpr) -> Result<Typed, Mem>
    ensures { IfOk result (λ t. typed_of t ≡ with_value (typed (ty_of gives) (unary op (expr_of x)))) }
{
    let e = unary_node(alloc, gives, op, x)?;
    Ok(with_value(alloc, e)?)
}

fn unary_known(alloc: Global, gives: SimpleType, op: UnOp, x: Typed) -> Result<Typed, Mem>
    ensures { IfOk result (λ t. typed_of t ≡ on_known (λ (p : Expr). with_value (typed (ty_of gives) (unary op p))) (typed_of x)) }
{
    match x {
        Typed::Known(x) => Ok(unary(alloc, gives, op, x)?),
        Typed::Unknown(flaw) => Ok(Typed::Unknown(flaw)),
    }
}

fn over_operand(
    alloc: Global,
    ty: SimpleType,
    gives: SimpleType,
    op: UnOp,
    x: BoundExpr,
) -> Result<Typed, Mem>
    ensures { IfOk result (λ t. typed_of t ≡ by_unary_row op (expr_of x) (Both ty gives)) }
{
    let x = as_operand(alloc, ty, x)?;
    Ok(unary_known(alloc, gives, op, x)?)
}

fn by_unary_row(alloc: Global, op: UnOp, x: BoundExpr, row: Row) -> Result<Typed, Mem>
    ensures { IfOk result (λ t. typed_of t ≡ by_unary_row op (expr_of x) row) }
{
    match row {
        Row::Both(ty, gives) => Ok(over_operand(alloc, ty, gives, op, x)?),
        Row::Own(gives) => Ok(unary(alloc, gives, op, x)?),
        Row::ByDefault => Ok(Typed::breaks(6)),
        Row::OverUnknown => Ok(Typed::Unknown(Flaw::new())),
        Row::NoForm => Ok(Typed::breaks(22)),
        Row::Untranslated => Ok(Typed::breaks(2)),
    }
}

fn by_own_unary_row(alloc: Global, op: UnOp, x: BoundExpr) -> Result<Typed, Mem>
    ensures { IfOk result (λ t. typed_of t ≡ by_own_unary_row op (expr_of x)) }
{
    let row = unary_row(op, &x.ty);
    Ok(by_unary_row(alloc, op, x, row)?)
}

fn by_plain_unary_row(alloc: Global, op: UnOp, x: Typed) -> Result<Typed, Mem>
    ensures { IfOk result (λ t. typed_of t ≡ on_known (by_own_unary_row op) (typed_of x)) }
{
    match x {
        Typed::Known(x) => Ok(by_own_unary_row(alloc, op, x)?),
        Typed::Unknown(flaw) => Ok(Typed::Unknown(flaw)),
    }
}

fn by_default_unary_row(
    alloc: Global,
    context: Context<'_>,
    op: UnOp,
    x: BoundExpr,
) -> Result<Typed, Mem>
    requires { IsContext context }
    ensures { IfOk result (λ t. typed_of t ≡ on_known (by_own_unary_row op) (plain (declared_in context.entry) (expr_of x))) }
{
    let x = plain(alloc, context, x)?;
    Ok(by_plain_unary_row(alloc, op, x)?)
}

fn by_any_unary_row(
    alloc: Global,
    context: Context<'_>,
    op: UnOp,
    x: BoundExpr,
) -> Result<Typed, Mem>
    requires { IsContext context }
    ensures { IfOk result (λ t. typed_of t ≡ by_any_unary_row (declared_in context.entry) op (expr_of x)) }
{
    if is_default(unary_row(op, &x.ty)) {
        Ok(by_default_unary_row(alloc, context, op, x)?)
    } else {
        Ok(by_own_unary_row(alloc, op, x)?)
    }
}

/// An operator before an operand.
pub fn unary_over(alloc: Global, context: Context<'_>, op: UnOp, t: Typed) -> Result<Typed, Mem>
    requires { IsContext context }
    ensures { IfOk result (λ r. typed_of r ≡ unary_over (declared_in context.entry) op (typed_of t)) }
{
    match t {
        Typed::Known(x) => Ok(by_any_unary_row(alloc, context, op, x)?),
        Typed::Unknown(flaw) => Ok(Typed::Unknown(flaw)),
    }
}
