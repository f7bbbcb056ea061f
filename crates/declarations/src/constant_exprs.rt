//! The values of expressions that must be constant: an expression is bound as any other, and folded.
ghost use Rattle.std.specs.Prelude.{◌≡◌, ◌<◌, is_some, option_map, IfOk};
ghost use Rattle.vb_tree.specs.BoundView.{type_of};
ghost use Rattle.vb_tree.specs.View.{exp_of};
ghost use Rattle.vb6_meaning.specs.Values.{coerce};
ghost use Rattle.bound_tree.specs.View.{expr_of};
ghost use Rattle.bound_facts.specs.Folded.{folded};
ghost use Rattle.typing_rows.specs.Conversions.{converts};
ghost use Rattle.expression_words.specs.Converting.{NamesRule};
ghost use Rattle.expression_words.specs.View.{IsScope, scope_of, typed_of};
ghost use Rattle.bound_exprs.specs.Resolved.{resolved};
ghost use Rattle.declarations.specs.ConstantExpressions as expressions;
ghost use Rattle.declarations.specs.ConstantExpressions.{by_conversion, coerced, const_outcome, constant_outcome, currency_number, currency_of, is_long_text, minus_of, or_resolved, outcome_of, plain_number, resolved_as, rules_of, value_as, written};
ghost use Rattle.declarations.specs.View.{outcome_shown};

use bound_exprs::resolved;
use bound_facts::folded;
use bound_tree::{BoundExpr, BoundNode, Origin, RuleSet};
use expression_words::{Asks, Scope, Typed, copy_type, is_too_long};
use std::alloc::Global;
use typing_rows::Conversion;
use up_base::Mem;
use vb_tree::{Expr6, Literal6, Type6, UnOp, Value6};
use vb6_meaning::{Op6Fail, coerce6};

/// What a constant expression gives: a value of a type, or the rules that it breaks.
#[derive(Drop)]
pub enum Outcome {
    Value(Type6, Value6),
    Broken(RuleSet),
}

impl Outcome {
    /// The rules that are broken.
    pub fn rules(&self) -> RuleSet
        ensures { result ≡ rules_of (outcome_shown self.now) }
    {
        match self {
            Outcome::Value(_, _) => RuleSet::new(),
            Outcome::Broken(rules) => *rules,
        }
    }
}

pub(crate) fn breaks(rule: u8) -> Outcome
    requires { rule < 32 }
    ensures { outcome_shown result ≡ expressions.breaks rule }
{
    Outcome::Broken(RuleSet::new().with(rule))
}

// ---- numbers with decimals

fn plain_number(e: &Expr6) -> Option<i64>
    ensures { result ≡ plain_number (exp_of e.now) }
{
    match e {
        Expr6::Lit(Literal6::Plain(z)) => Some(*z),
        Expr6::Paren(e) => plain_number(e),
        _ => None,
    }
}

fn currency_of(z: i64) -> BoundExpr
    ensures { expr_of result ≡ currency_of z }
{
    BoundExpr {
        ty: Type6::Currency,
        node: BoundNode::Const(Value6::Cur(z), Origin::Literal),
    }
}

fn minus_of(alloc: Global, number: Option<i64>) -> Result<Option<BoundExpr>, Mem>
    ensures { IfOk result (λ e. option_map expr_of e ≡ minus_of number) }
{
    match number {
        Some(z) => {
            let of = Box::new(alloc, currency_of(z))?;
            Ok(Some(BoundExpr {
                ty: Type6::Currency,
                node: BoundNode::Unary(UnOp::Neg, of),
            }))
        }
        None => Ok(None),
    }
}

// A number with decimals, with one minus or none, as a Currency.
fn currency_number(alloc: Global, e: &Expr6) -> Result<Option<BoundExpr>, Mem>
    ensures { IfOk result (λ x. option_map expr_of x ≡ currency_number (exp_of e.now)) }
{
    match e {
        Expr6::Lit(Literal6::Plain(z)) => Ok(Some(currency_of(*z))),
        Expr6::Paren(e) => Ok(currency_number(alloc, e)?),
        Expr6::Unary(UnOp::Neg, e) => Ok(minus_of(alloc, plain_number(e))?),
        _ => Ok(None),
    }
}

fn or_resolved(
    alloc: Global,
    scope: Scope<'_>,
    e: &Expr6,
    number: Option<BoundExpr>,
) -> Result<Typed, Mem>
    requires names { IsScope scope }
    requires rule { scope.missing < 32 }
    ensures { IfOk result (λ t. typed_of t ≡ or_resolved (scope_of scope.entry) (exp_of e.now) (option_map expr_of number)) }
{
    match number {
        Some(e) => Ok(Typed::Known(e)),
        None => Ok(resolved(alloc, scope, e)?),
    }
}

fn as_currency(alloc: Global, scope: Scope<'_>, e: &Expr6) -> Result<Typed, Mem>
    requires names { IsScope scope }
    requires rule { scope.missing < 32 }
    ensures { IfOk result (λ t. typed_of t ≡ or_resolved (scope_of scope.entry) (exp_of e.now) (currency_number (exp_of e.now))) }
{
    let number = currency_number(alloc, e)?;
    Ok(or_resolved(alloc, scope, e, number)?)
}

/// The value of an assignment or a Const where a type is wanted: a number with decimals can be a Currency.
pub fn resolved_as(alloc: Global, scope: Scope<'_>, e: &Expr6, ty: &Type6) -> Result<Typed, Mem>
    requires names { IsScope scope }
    requires rule { scope.missing < 32 }
    ensures { IfOk result (λ t. typed_of t ≡ resolved_as (scope_of scope.entry) (exp_of e.now) (type_of ty.now)) }
{
    match ty {
        Type6::Currency => Ok(as_currency(alloc, scope, e)?),
        _ => Ok(resolved(alloc, scope, e)?),
    }
}

// ---- values

fn is_long_text(value: &Value6) -> bool
    ensures { result ≡ is_long_text value.now }
{
    match value {
        Value6::Str(units) => is_too_long(units.as_slice()),
        _ => false,
    }
}

// A text that can't be written is no constant.
fn written(ty: Type6, value: Value6) -> Outcome
    ensures { outcome_shown result ≡ written (type_of ty) value }
{
    if is_long_text(&value) {
        breaks(25)
    } else {
        Outcome::Value(ty, value)
    }
}

fn coerced(alloc: Global, value: Value6, to: Type6) -> Result<Outcome, Mem>
    ensures { IfOk result (λ o. outcome_shown o ≡ coerced (type_of to) (coerce value (type_of to))) }
{
    match coerce6(alloc, &value, &to) {
        Ok(value) => Ok(written(to, value)),
        Err(Op6Fail::Raise(_)) => Ok(breaks(25)),
        Err(Op6Fail::Outside) => Ok(breaks(25)),
        Err(Op6Fail::Mem) => Err(Mem),
    }
}

fn by_conversion(
    alloc: Global,
    value: Value6,
    ty: &Type6,
    conversion: Conversion,
) -> Result<Outcome, Mem>
    requires { NamesRule conversion }
    ensures { IfOk result (λ o. outcome_shown o ≡ by_conversion value (type_of ty.now) conversion) }
{
    match conversion {
        Conversion::Stands => Ok(written(copy_type(alloc, ty)?, value)),
        Conversion::To(to) => Ok(coerced(alloc, value, to.to_type())?),
        Conversion::ByDefault => Ok(breaks(6)),
        Conversion::Breaks(rule) => Ok(breaks(rule)),
    }
}

fn value_as(
    alloc: Global,
    ty: Option<&Type6>,
    from: Type6,
    value: Option<Value6>,
) -> Result<Outcome, Mem>
    ensures { IfOk result (λ o. outcome_shown o ≡ value_as (option_map (λ t. type_of t.now) ty.entry) (type_of from) value) }
{
    match value {
        Some(value) => match ty {
            Some(ty) => {
                let conversion = Asks::Type(ty).of(&from);
                Ok(by_conversion(alloc, value, ty, conversion)?)
            }
            None => Ok(written(from, value)),
        },
        None => Ok(breaks(25)),
    }
}

fn of_known(alloc: Global, e: BoundExpr, ty: Option<&Type6>) -> Result<Outcome, Mem>
    ensures { IfOk result (λ o. outcome_shown o ≡ value_as (option_map (λ t. type_of t.now) ty.entry) (type_of e.ty) (folded (expr_of e))) }
{
    let value = folded(alloc, &e)?;
    Ok(value_as(alloc, ty, e.ty, value)?)
}

// An expression without a type breaks a further rule where it uses a declaration without one.
fn of_typed(alloc: Global, t: Typed, ty: Option<&Type6>) -> Result<Outcome, Mem>
    ensures { IfOk result (λ o. outcome_shown o ≡ outcome_of (option_map (λ x. type_of x.now) ty.entry) (typed_of t)) }
{
    match t {
        Typed::Known(e) => Ok(of_known(alloc, e, ty)?),
        Typed::Unknown(flaw) => Ok(Outcome::Broken(flaw.rules.with_if(25, flaw.cause.is_some()))),
    }
}

/// The value of an expression that must be constant, as one of a type where one is wanted.
pub fn constant_outcome(
    alloc: Global,
    scope: Scope<'_>,
    ty: Option<&Type6>,
    e: &Expr6,
) -> Result<Outcome, Mem>
    requires names { IsScope scope }
    requires rule { scope.missing < 32 }
    ensures { IfOk result (λ o. outcome_shown o ≡ constant_outcome (scope_of scope.entry) (option_map (λ t. type_of t.now) ty.entry) (exp_of e.now)) }
{
    let t = resolved(alloc, scope, e)?;
    Ok(of_typed(alloc, t, ty)?)
}

fn resolved_for(
    alloc: Global,
    scope: Scope<'_>,
    ty: Option<&Type6>,
    e: &Expr6,
) -> Result<Typed, Mem>
    requires names { IsScope scope }
    requires rule { scope.missing < 32 }
    ensures { IfOk result (λ t. typed_of t ≡ expressions.resolved_for (scope_of scope.entry) (option_map (λ x. type_of x.now) ty.entry) (exp_of e.now)) }
{
    match ty {
        Some(ty) => Ok(resolved_as(alloc, scope, e, ty)?),
        None => Ok(resolved(alloc, scope, e)?),
    }
}

/// That of a Const, which can be a number with decimals.
pub(crate) fn const_outcome(
    alloc: Global,
    scope: Scope<'_>,
    ty: Option<&Type6>,
    e: &Expr6,
) -> Result<Outcome, Mem>
    requires names { IsScope scope }
    requires rule { scope.missing < 32 }
    ensures { IfOk result (λ o. outcome_shown o ≡ const_outcome (scope_of scope.entry) (option_map (λ t. type_of t.now) ty.entry) (exp_of e.now)) }
{
    let t = resolved_for(alloc, scope, ty, e)?;
    Ok(of_typed(alloc, t, ty)?)
}
