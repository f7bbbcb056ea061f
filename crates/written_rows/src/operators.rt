//! What is written for operators over operands of declared types and over Variants.
ghost use Rattle.std.specs.Prelude.{◌≡◌, IfOk, codes};
ghost use Rattle.vb_tree.specs.declared.expression.BinOp.TheVariants as binary_sign;
ghost use Rattle.vb_tree.specs.BoundView.{type_of};
ghost use Rattle.bound_facts.specs.Node.{type_at};
ghost use Rattle.bound_tree.specs.View.{expr_of};
ghost use Rattle.net_tree.specs.Tree as net;
ghost use Rattle.net_tree.specs.View.{exp_of};
ghost use Rattle.written_trees.specs.Conversions as conversions;
ghost use Rattle.written_trees.specs.Literals as literals;
ghost use Rattle.written_trees.specs.Operators as rows;
ghost use Rattle.written_rows.specs.Plans.{by_sign, by_variant_row, call_name, sign_of, variant_row};

use crate::conversions::converted;
use crate::literals::number;
use crate::parts::{binary, one, support_call, two, unary};
use bound_facts::is_variant;
use bound_tree::BoundExpr;
use net_tree::{NetBin, NetExpr, NetUn};
use std::alloc::Global;
use up_base::Mem;
use vb_tree::{BinOp, Type6, UnOp};

/// How an operator is written by its own sign.
#[derive(Clone, Copy)]
pub(crate) enum Sign {
    Plain(NetBin),
    Eqv,
    Imp,
    /// An operator that isn't translated.
    Untranslated,
}

/// A function of the support module on two Variants.
#[derive(Clone, Copy)]
pub(crate) enum VariantCall {
    VarAdd,
    VarSub,
    VarMul,
    VarDiv,
    VarMod,
    VarAnd,
    VarOr,
    VarXor,
}

/// How an operator on Variants is written.
#[derive(Clone, Copy)]
pub(crate) enum VariantRow {
    Called(VariantCall),
    /// A test of the number that the comparison of the two gives.
    Compared(NetBin),
    Eqv,
    Imp,
    /// By its own sign.
    Signed,
}

// ---- operators that have a sign of their own or are made of such

fn sign_of(operator: BinOp) -> Sign
    ensures { result ≡ sign_of operator }
{
    match operator {
        BinOp::Pow => Sign::Untranslated,
        BinOp::Mul => Sign::Plain(NetBin::Mul),
        BinOp::Div => Sign::Untranslated,
        BinOp::IntDiv => Sign::Plain(NetBin::IntDiv),
        BinOp::Mod => Sign::Plain(NetBin::Mod),
        BinOp::Add => Sign::Plain(NetBin::Add),
        BinOp::Sub => Sign::Plain(NetBin::Sub),
        BinOp::Concat => Sign::Plain(NetBin::Concat),
        BinOp::Equal => Sign::Plain(NetBin::Equal),
        BinOp::NotEqual => Sign::Plain(NetBin::NotEqual),
        BinOp::Less => Sign::Plain(NetBin::Less),
        BinOp::Greater => Sign::Plain(NetBin::Greater),
        BinOp::LessEqual => Sign::Plain(NetBin::LessEqual),
        BinOp::GreaterEqual => Sign::Plain(NetBin::GreaterEqual),
        BinOp::Is => Sign::Plain(NetBin::Is),
        BinOp::Like => Sign::Untranslated,
        BinOp::And => Sign::Plain(NetBin::And),
        BinOp::Or => Sign::Plain(NetBin::Or),
        BinOp::Xor => Sign::Plain(NetBin::Xor),
        BinOp::Eqv => Sign::Eqv,
        BinOp::Imp => Sign::Imp,
    }
}

fn eqv(alloc: Global, a: NetExpr, b: NetExpr) -> Result<NetExpr, Mem>
    ensures { IfOk result (λ e. exp_of e ≡ rows.eqv (exp_of a) (exp_of b)) }
{
    let differs = binary(alloc, NetBin::Xor, a, b)?;
    Ok(unary(alloc, NetUn::Not, differs)?)
}

fn imp(alloc: Global, a: NetExpr, b: NetExpr) -> Result<NetExpr, Mem>
    ensures { IfOk result (λ e. exp_of e ≡ rows.imp (exp_of a) (exp_of b)) }
{
    let negated = unary(alloc, NetUn::Not, a)?;
    Ok(binary(alloc, NetBin::Or, negated, b)?)
}

fn by_sign(alloc: Global, sign: Sign, a: NetExpr, b: NetExpr) -> Result<NetExpr, Mem>
    ensures { IfOk result (λ e. exp_of e ≡ by_sign sign (exp_of a) (exp_of b)) }
{
    match sign {
        Sign::Plain(operator) => Ok(binary(alloc, operator, a, b)?),
        Sign::Eqv => Ok(eqv(alloc, a, b)?),
        Sign::Imp => Ok(imp(alloc, a, b)?),
        Sign::Untranslated => {
            drop(a);
            drop(b);
            Ok(NetExpr::Nothing)
        }
    }
}

/// An operator by its own sign.
#[tactic(auto, using(crate::proofs::Rows::signed_by_plan))]
pub fn signed(alloc: Global, operator: BinOp, a: NetExpr, b: NetExpr) -> Result<NetExpr, Mem>
    ensures { IfOk result (λ e. exp_of e ≡ rows.signed operator (exp_of a) (exp_of b)) }
{
    Ok(by_sign(alloc, sign_of(operator), a, b)?)
}

/// An operator before an expression.
pub fn unsigned(alloc: Global, operator: UnOp, a: NetExpr) -> Result<NetExpr, Mem>
    ensures { IfOk result (λ e. exp_of e ≡ rows.unsigned operator (exp_of a)) }
{
    match operator {
        UnOp::Neg => Ok(unary(alloc, NetUn::Neg, a)?),
        UnOp::Not => Ok(unary(alloc, NetUn::Not, a)?),
    }
}

// ---- operands of declared types

fn checked_currency(alloc: Global, a: NetExpr) -> Result<NetExpr, Mem>
    ensures { IfOk result (λ e. exp_of e ≡ conversions.support_call (codes "Cur") (conversions.one (exp_of a))) }
{
    let arguments = one(alloc, a)?;
    Ok(support_call(alloc, b"Cur", arguments)?)
}

/// A Currency is checked after arithmetic.
pub fn checked(alloc: Global, ty: &Type6, a: NetExpr) -> Result<NetExpr, Mem>
    ensures { IfOk result (λ e. exp_of e ≡ rows.checked (type_of ty.now) (exp_of a)) }
{
    match ty {
        Type6::Currency => Ok(checked_currency(alloc, a)?),
        _ => Ok(a),
    }
}

fn is_text(ty: &Type6) -> bool
    ensures { result ≡ rows.is_text (type_of ty.now) }
{
    match ty {
        Type6::Str => true,
        Type6::Fixed(_) => true,
        _ => false,
    }
}

// An operator by its own sign, whose result is checked.
fn checked_sign(
    alloc: Global,
    operator: BinOp,
    result_type: &Type6,
    a: NetExpr,
    b: NetExpr,
) -> Result<NetExpr, Mem>
    ensures { IfOk result (λ e. exp_of e ≡ rows.checked (type_of result_type.now) (rows.signed operator (exp_of a) (exp_of b))) }
{
    let e = signed(alloc, operator, a, b)?;
    Ok(checked(alloc, result_type, e)?)
}

fn sum(
    alloc: Global,
    operands: &Type6,
    result_type: &Type6,
    a: NetExpr,
    b: NetExpr,
) -> Result<NetExpr, Mem>
    ensures { IfOk result (λ e. exp_of e ≡ rows.sum (type_of operands.now) (type_of result_type.now) (exp_of a) (exp_of b)) }
{
    if is_text(operands) {
        return Ok(binary(alloc, NetBin::Concat, a, b)?);
    }
    Ok(checked_sign(alloc, BinOp::Add, result_type, a, b)?)
}

// An operator of which the first operand has a type.
fn typed_operator(
    alloc: Global,
    operator: BinOp,
    operands: &Type6,
    result_type: &Type6,
    a: NetExpr,
    b: NetExpr,
) -> Result<NetExpr, Mem>
    ensures { IfOk result (λ e. exp_of e ≡ rows.typed_operator operator (type_of operands.now) (type_of result_type.now) (exp_of a) (exp_of b)) }
{
    match operator {
        BinOp::Add => Ok(sum(alloc, operands, result_type, a, b)?),
        BinOp::Sub => Ok(checked_sign(alloc, BinOp::Sub, result_type, a, b)?),
        BinOp::Mul => Ok(checked_sign(alloc, BinOp::Mul, result_type, a, b)?),
        _ => Ok(signed(alloc, operator, a, b)?),
    }
}

fn typed_unary(
    alloc: Global,
    operator: UnOp,
    result_type: &Type6,
    a: NetExpr,
) -> Result<NetExpr, Mem>
    ensures { IfOk result (λ e. exp_of e ≡ rows.typed_unary operator (type_of result_type.now) (exp_of a)) }
{
    match operator {
        UnOp::Neg => {
            let e = unary(alloc, NetUn::Neg, a)?;
            Ok(checked(alloc, result_type, e)?)
        }
        UnOp::Not => Ok(unary(alloc, NetUn::Not, a)?),
    }
}

// ---- Variants

fn call_name(call: VariantCall) -> &'static [u8]
    ensures { result.now ≡ call_name call }
{
    match call {
        VariantCall::VarAdd => b"VarAdd",
        VariantCall::VarSub => b"VarSub",
        VariantCall::VarMul => b"VarMul",
        VariantCall::VarDiv => b"VarDiv",
        VariantCall::VarMod => b"VarMod",
        VariantCall::VarAnd => b"VarAnd",
        VariantCall::VarOr => b"VarOr",
        VariantCall::VarXor => b"VarXor",
    }
}

fn variant_row(operator: BinOp) -> VariantRow
    ensures { result ≡ variant_row operator }
{
    match operator {
        BinOp::Pow => VariantRow::Signed,
        BinOp::Mul => VariantRow::Called(VariantCall::VarMul),
        BinOp::Div => VariantRow::Signed,
        BinOp::IntDiv => VariantRow::Called(VariantCall::VarDiv),
        BinOp::Mod => VariantRow::Called(VariantCall::VarMod),
        BinOp::Add => VariantRow::Called(VariantCall::VarAdd),
        BinOp::Sub => VariantRow::Called(VariantCall::VarSub),
        BinOp::Concat => VariantRow::Signed,
        BinOp::Equal => VariantRow::Compared(NetBin::Equal),
        BinOp::NotEqual => VariantRow::Compared(NetBin::NotEqual),
        BinOp::Less => VariantRow::Compared(NetBin::Less),
        BinOp::Greater => VariantRow::Compared(NetBin::Greater),
        BinOp::LessEqual => VariantRow::Compared(NetBin::LessEqual),
        BinOp::GreaterEqual => VariantRow::Compared(NetBin::GreaterEqual),
        BinOp::Is => VariantRow::Signed,
        BinOp::Like => VariantRow::Signed,
        BinOp::And => VariantRow::Called(VariantCall::VarAnd),
        BinOp::Or => VariantRow::Called(VariantCall::VarOr),
        BinOp::Xor => VariantRow::Called(VariantCall::VarXor),
        BinOp::Eqv => VariantRow::Eqv,
        BinOp::Imp => VariantRow::Imp,
    }
}

fn variant_call(alloc: Global, name: &[u8], a: NetExpr, b: NetExpr) -> Result<NetExpr, Mem>
    ensures { IfOk result (λ e. exp_of e ≡ rows.variant_call name.now (exp_of a) (exp_of b)) }
{
    let arguments = two(alloc, a, b)?;
    Ok(support_call(alloc, name, arguments)?)
}

// A test of a number against 0.
fn against_zero(alloc: Global, operator: NetBin, a: NetExpr) -> Result<NetExpr, Mem>
    ensures { IfOk result (λ e. exp_of e ≡ net.binary operator (exp_of a) (literals.number 0)) }
{
    let zero = number(0)?;
    Ok(binary(alloc, operator, a, zero)?)
}

fn compared(alloc: Global, operator: NetBin, a: NetExpr, b: NetExpr) -> Result<NetExpr, Mem>
    ensures { IfOk result (λ e. exp_of e ≡ rows.compared operator (exp_of a) (exp_of b)) }
{
    let comparison = variant_call(alloc, b"VarComp", a, b)?;
    Ok(against_zero(alloc, operator, comparison)?)
}

fn variant_not(alloc: Global, a: NetExpr) -> Result<NetExpr, Mem>
    ensures { IfOk result (λ e. exp_of e ≡ rows.variant_not (exp_of a)) }
{
    let arguments = one(alloc, a)?;
    Ok(support_call(alloc, b"VarNot", arguments)?)
}

fn variant_eqv(alloc: Global, a: NetExpr, b: NetExpr) -> Result<NetExpr, Mem>
    ensures { IfOk result (λ e. exp_of e ≡ rows.variant_not (rows.variant_call (codes "VarXor") (exp_of a) (exp_of b))) }
{
    let differs = variant_call(alloc, b"VarXor", a, b)?;
    Ok(variant_not(alloc, differs)?)
}

fn variant_imp(alloc: Global, a: NetExpr, b: NetExpr) -> Result<NetExpr, Mem>
    ensures { IfOk result (λ e. exp_of e ≡ rows.variant_call (codes "VarOr") (rows.variant_not (exp_of a)) (exp_of b)) }
{
    let negated = variant_not(alloc, a)?;
    Ok(variant_call(alloc, b"VarOr", negated, b)?)
}

fn by_variant_row(
    alloc: Global,
    row: VariantRow,
    operator: BinOp,
    a: NetExpr,
    b: NetExpr,
) -> Result<NetExpr, Mem>
    ensures { IfOk result (λ e. exp_of e ≡ by_variant_row row operator (exp_of a) (exp_of b)) }
{
    match row {
        VariantRow::Called(call) => Ok(variant_call(alloc, call_name(call), a, b)?),
        VariantRow::Compared(test) => Ok(compared(alloc, test, a, b)?),
        VariantRow::Eqv => Ok(variant_eqv(alloc, a, b)?),
        VariantRow::Imp => Ok(variant_imp(alloc, a, b)?),
        VariantRow::Signed => Ok(signed(alloc, operator, a, b)?),
    }
}

#[tactic(auto, using(crate::proofs::Rows::variant_by_plan))]
fn variant_operator(alloc: Global, operator: BinOp, a: NetExpr, b: NetExpr) -> Result<NetExpr, Mem>
    ensures { IfOk result (λ e. exp_of e ≡ rows.variant_operator operator (exp_of a) (exp_of b)) }
{
    Ok(by_variant_row(alloc, variant_row(operator), operator, a, b)?)
}

fn variant_negated(alloc: Global, a: NetExpr) -> Result<NetExpr, Mem>
    ensures { IfOk result (λ e. exp_of e ≡ conversions.support_call (codes "VarNeg") (conversions.one (exp_of a))) }
{
    let arguments = one(alloc, a)?;
    Ok(support_call(alloc, b"VarNeg", arguments)?)
}

fn variant_unary(alloc: Global, operator: UnOp, a: NetExpr) -> Result<NetExpr, Mem>
    ensures { IfOk result (λ e. exp_of e ≡ rows.variant_unary operator (exp_of a)) }
{
    match operator {
        UnOp::Neg => Ok(variant_negated(alloc, a)?),
        UnOp::Not => Ok(variant_not(alloc, a)?),
    }
}

// ---- operators over bound operands

fn is_product_in_currency(operator: BinOp, result_type: &Type6) -> bool
    ensures { result ≡ rows.is_product_in_currency operator (type_of result_type.now) }
{
    match operator {
        BinOp::Mul => is_currency(result_type),
        _ => false,
    }
}

fn is_currency(ty: &Type6) -> bool
    ensures { result ≡ rows.is_product_in_currency binary_sign.Mul (type_of ty.now) }
{
    match ty {
        Type6::Currency => true,
        _ => false,
    }
}

// An operand of a product in Currency stays as it is bound, and is written as one of Currency.
fn operand(alloc: Global, in_currency: bool, bound: &BoundExpr, a: NetExpr) -> Result<NetExpr, Mem>
    ensures { IfOk result (λ e. exp_of e ≡ rows.operand in_currency (expr_of bound.now) (exp_of a)) }
{
    if in_currency {
        return Ok(converted(alloc, &Type6::Currency, bound, a)?);
    }
    Ok(a)
}

// An operator between two operands of declared types.
fn typed_binary(
    alloc: Global,
    operator: BinOp,
    result_type: &Type6,
    first: &BoundExpr,
    second: &BoundExpr,
    a: NetExpr,
    b: NetExpr,
) -> Result<NetExpr, Mem>
    ensures { IfOk result (λ e. exp_of e ≡ rows.typed_operator operator (type_at (expr_of first.now)) (type_of result_type.now) (rows.operand (rows.is_product_in_currency operator (type_of result_type.now)) (expr_of first.now) (exp_of a)) (rows.operand (rows.is_product_in_currency operator (type_of result_type.now)) (expr_of second.now) (exp_of b))) }
{
    let in_currency = is_product_in_currency(operator, result_type);
    let a = operand(alloc, in_currency, first, a)?;
    let b = operand(alloc, in_currency, second, b)?;
    Ok(typed_operator(alloc, operator, &first.ty, result_type, a, b)?)
}

/// An operator between two expressions, which are written `a` and `b`.
pub fn binary_exp(
    alloc: Global,
    operator: BinOp,
    result_type: &Type6,
    first: &BoundExpr,
    second: &BoundExpr,
    a: NetExpr,
    b: NetExpr,
) -> Result<NetExpr, Mem>
    ensures { IfOk result (λ e. exp_of e ≡ rows.binary_exp operator (type_of result_type.now) (expr_of first.now) (expr_of second.now) (exp_of a) (exp_of b)) }
{
    if is_variant(&first.ty) || is_variant(&second.ty) {
        return Ok(variant_operator(alloc, operator, a, b)?);
    }
    Ok(typed_binary(alloc, operator, result_type, first, second, a, b)?)
}

/// An operator before an expression, which is written `a`.
pub fn unary_exp(
    alloc: Global,
    operator: UnOp,
    result_type: &Type6,
    operand: &BoundExpr,
    a: NetExpr,
) -> Result<NetExpr, Mem>
    ensures { IfOk result (λ e. exp_of e ≡ rows.unary_exp operator (type_of result_type.now) (expr_of operand.now) (exp_of a)) }
{
    if is_variant(&operand.ty) {
        return Ok(variant_unary(alloc, operator, a)?);
    }
    Ok(typed_unary(alloc, operator, result_type, a)?)
}
