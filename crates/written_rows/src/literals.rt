//! What is written for constants.
ghost use Rattle.std.specs.Prelude.{◌≡◌, ◌<◌, ◌≤◌, [], ◌∷◌, length, option_map, IfOk};
ghost use Rattle.vb_tree.specs.BoundView.{type_of};
ghost use Rattle.vb6_meaning.specs.Values.{coerce};
ghost use Rattle.bound_tree.specs.View.{expr_of, term_of};
ghost use Rattle.bound_facts.specs.Folded.{given_value};
ghost use Rattle.net_tree.specs.View.{exp_of};
ghost use Rattle.net_tree.specs.Tree as net;
ghost use Rattle.net_tree.specs.declared.expression.NetBin.TheVariants as op;
ghost use Rattle.written_trees.specs.Literals as literals;
ghost use Rattle.written_trees.specs.Literals.{unit, pieces_of};

use crate::parts::{binary, call_of, cast, one, strings, unary};
use bound_tree::{BoundExpr, BoundNode, Origin};
use net_tree::{CastWord, NetBin, NetExpr, NetLit, NetUn};
use std::alloc::Global;
use up_base::{Mem, Wide};
use vb_tree::{Type6, Value6};
use vb6_meaning::{Op6Fail, coerce6};

/// A whole number as a literal of type Integer; one past its range is answered as want of memory.
pub fn number(n: u32) -> Result<NetExpr, Mem>
    ensures { IfOk result (λ e. exp_of e ≡ literals.number n) }
{
    match i32::try_from(n) {
        Ok(z) => Ok(NetExpr::Lit(NetLit::Integer(z, false))),
        Err(_) => Err(Mem),
    }
}

// ---- texts

/// A text as one literal.
pub fn text(alloc: Global, units: &[u16]) -> Result<NetExpr, Mem>
    ensures { IfOk result (λ e. exp_of e ≡ literals.text units.now) }
{
    Ok(NetExpr::Lit(NetLit::Str(Wide::from_slice(alloc, units)?)))
}

// Whether a unit stands in quotes.
fn is_plain(unit: u16) -> bool
    ensures { result ≡ literals.is_plain unit }
{
    32 <= unit && unit <= 126
}

// The number of units before the first that doesn't stand in quotes.
#[tactic(auto, using(crate::proofs::Pieces::run_ends, crate::proofs::Pieces::run_goes_on, crate::proofs::Pieces::run_within))]
fn first_run(units: &[u16]) -> usize
    ensures length { result ≡ length (pieces_of units.now).first }
    ensures within { result ≤ length units.now }
{
    for at in 0..units.len() {
        if !is_plain(units[at]) {
            return at;
        }
    }
    units.len()
}

// The first run of units that stand in quotes.
#[tactic(auto, using(crate::proofs::Pieces::first_is))]
fn quoted_run(units: &[u16]) -> &[u16]
    ensures { result.now ≡ (pieces_of units.now).first }
{
    &units[..first_run(units)]
}

// What is left behind the first run of units that stand in quotes.
#[tactic(auto, using(crate::proofs::Pieces::left_is, crate::proofs::Pieces::rest_from))]
fn behind_run(units: &[u16]) -> &[u16]
    ensures pieces { pieces_of result.now ≡ record { first = []; more = (pieces_of units.now).more } }
    ensures shorter { length result.now ≤ length units.now }
{
    &units[first_run(units)..]
}

// The first unit, and those behind it.
#[tactic(auto, using(crate::proofs::Pieces::first_and_rest))]
fn first_unit(units: &[u16]) -> (u16, &[u16])
    requires { 0 < length units.now }
    ensures { units.now ≡ result.0 ∷ result.1.now }
{
    (units[0], &units[1..])
}

// A unit as a text.
fn character(alloc: Global, code: u16) -> Result<NetExpr, Mem>
    ensures { IfOk result (λ e. exp_of e ≡ literals.piece_exp (unit code)) }
{
    let path = strings(alloc, b"ChrW")?;
    let arguments = one(alloc, number(u32::from(code))?)?;
    Ok(call_of(alloc, NetExpr::Path(path), arguments)?)
}

// What is joined so far, and a run of units in quotes behind it. An empty run isn't written.
fn then_run(alloc: Global, so_far: NetExpr, run: &[u16]) -> Result<NetExpr, Mem>
    ensures { IfOk result (λ e. exp_of e ≡ literals.joined (exp_of so_far) (literals.behind run.now [])) }
{
    match run {
        [] => Ok(so_far),
        [_, ..] => {
            let run = text(alloc, run)?;
            Ok(binary(alloc, NetBin::Concat, so_far, run)?)
        }
    }
}

// What is joined so far, and a single unit behind it.
fn then_unit(alloc: Global, so_far: NetExpr, code: u16) -> Result<NetExpr, Mem>
    ensures { IfOk result (λ e. exp_of e ≡ net.binary op.Concat (exp_of so_far) (literals.piece_exp (unit code))) }
{
    let unit = character(alloc, code)?;
    Ok(binary(alloc, NetBin::Concat, so_far, unit)?)
}

// What is joined so far, a single unit and a run behind it.
fn then_pieces(alloc: Global, so_far: NetExpr, code: u16, run: &[u16]) -> Result<NetExpr, Mem>
    ensures { IfOk result (λ e. exp_of e ≡ literals.joined (exp_of so_far) (unit code ∷ literals.behind run.now [])) }
{
    let so_far = then_unit(alloc, so_far, code)?;
    Ok(then_run(alloc, so_far, run)?)
}

/// A text of any units, whose runs are joined from the left.
pub fn text_exp(alloc: Global, units: &[u16]) -> Result<NetExpr, Mem>
    ensures { IfOk result (λ e. exp_of e ≡ literals.text_exp units.now) }
{
    let mut so_far = text(alloc, quoted_run(units))?;
    let mut rest = behind_run(units);
    while !rest.is_empty() {
        let (code, behind) = first_unit(rest);
        so_far = then_pieces(alloc, so_far, code, quoted_run(behind))?;
        rest = behind_run(behind);
    }
    Ok(so_far)
}

// ---- constants

// Whether a whole number is negative.
fn is_negative(z: i32) -> bool
    ensures { result ≡ literals.is_negative z }
{
    z < 0
}

// A Currency, with a minus before a negative one.
#[tactic(auto, using(crate::proofs::Amounts::negative_amount, crate::proofs::Amounts::other_amount))]
fn currency_exp(alloc: Global, z: i64) -> Result<NetExpr, Mem>
    ensures { IfOk result (λ e. exp_of e ≡ literals.currency_exp z) }
{
    let ten_thousandths = i128::from(z);
    if z < 0 {
        let amount = NetExpr::Lit(NetLit::Decimal(-ten_thousandths));
        return Ok(unary(alloc, NetUn::Neg, amount)?);
    }
    Ok(NetExpr::Lit(NetLit::Decimal(ten_thousandths)))
}

/// A constant, and whether it is spelt in hexadecimal.
pub fn constant_exp(alloc: Global, hexadecimal: bool, value: &Value6) -> Result<NetExpr, Mem>
    ensures { IfOk result (λ e. exp_of e ≡ literals.constant_exp hexadecimal value.now) }
{
    match value {
        Value6::Boolean(b) => Ok(NetExpr::Lit(NetLit::Boolean(*b))),
        Value6::Byte(n) => {
            let number = NetExpr::Lit(NetLit::Short(i16::from(*n), false));
            Ok(cast(alloc, CastWord::CByte, number)?)
        }
        Value6::Int(z) => {
            let bits = hexadecimal || is_negative(i32::from(*z));
            Ok(NetExpr::Lit(NetLit::Short(*z, bits)))
        }
        Value6::Long(z) => {
            let bits = hexadecimal || is_negative(*z);
            Ok(NetExpr::Lit(NetLit::Integer(*z, bits)))
        }
        Value6::Cur(z) => Ok(currency_exp(alloc, *z)?),
        Value6::Str(units) => Ok(text_exp(alloc, units.as_slice())?),
        Value6::Nothing => Ok(NetExpr::Nothing),
        Value6::Object(_) => Ok(NetExpr::Nothing),
        Value6::Empty => Ok(NetExpr::Nothing),
    }
}

fn is_hexadecimal(origin: Origin) -> bool
    ensures { result ≡ literals.is_hexadecimal origin }
{
    match origin {
        Origin::Literal => false,
        Origin::Hexadecimal => true,
        Origin::Declared(_) => false,
    }
}

/// A constant by what stands for it in the source.
pub fn written_constant(alloc: Global, value: &Value6, origin: Origin) -> Result<NetExpr, Mem>
    ensures { IfOk result (λ e. exp_of e ≡ literals.written_constant value.now origin) }
{
    Ok(constant_exp(alloc, is_hexadecimal(origin), value)?)
}

// ---- literals of the type that they are converted to

// Whether whole numbers of a type are written as literals of the type that they are converted to.
fn is_whole(ty: &Type6) -> bool
    ensures { result ≡ literals.is_whole (type_of ty.now) }
{
    match ty {
        Type6::Integer => true,
        Type6::Long => true,
        _ => false,
    }
}

fn takes_literals(ty: &Type6) -> bool
    ensures { result ≡ literals.takes_literals (type_of ty.now) }
{
    match ty {
        Type6::Long => true,
        Type6::Currency => true,
        _ => false,
    }
}

// The value that a conversion gives; none where it raises or lies outside of the language's meaning.
fn converted(alloc: Global, value: &Value6, to: &Type6) -> Result<Option<Value6>, Mem>
    ensures { IfOk result (λ x. x ≡ given_value (coerce value.now (type_of to.now))) }
{
    match coerce6(alloc, value, to) {
        Ok(x) => Ok(Some(x)),
        Err(Op6Fail::Raise(_)) => Ok(None),
        Err(Op6Fail::Outside) => Ok(None),
        Err(Op6Fail::Mem) => Err(Mem),
    }
}

fn spelt(alloc: Global, origin: Origin, value: Option<Value6>) -> Result<Option<NetExpr>, Mem>
    ensures { IfOk result (λ l. option_map exp_of l ≡ literals.spelt origin value) }
{
    match value {
        None => Ok(None),
        Some(x) => Ok(Some(written_constant(alloc, &x, origin)?)),
    }
}

fn literal_of(alloc: Global, to: &Type6, node: &BoundNode) -> Result<Option<NetExpr>, Mem>
    ensures { IfOk result (λ l. option_map exp_of l ≡ literals.literal_of (type_of to.now) (term_of node.now)) }
{
    match node {
        BoundNode::Const(value, origin) => {
            let value = converted(alloc, value, to)?;
            Ok(spelt(alloc, *origin, value)?)
        }
        _ => Ok(None),
    }
}

/// The literal of a type in the place of a constant of type Integer or Long that is converted to it, if the expression is one.
pub fn literal_as(alloc: Global, to: &Type6, e: &BoundExpr) -> Result<Option<NetExpr>, Mem>
    ensures { IfOk result (λ l. option_map exp_of l ≡ literals.literal_as (type_of to.now) (expr_of e.now)) }
{
    if takes_literals(to) && is_whole(&e.ty) {
        return Ok(literal_of(alloc, to, &e.node)?);
    }
    Ok(None)
}
