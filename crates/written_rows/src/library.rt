//! What is written for calls of the library.
ghost use Rattle.std.specs.Prelude.{◌≡◌, IfOk, codes, option_map};
ghost use Rattle.vb_tree.specs.BoundTree as vb;
ghost use Rattle.vb_tree.specs.BoundView.{type_of};
ghost use Rattle.bound_facts.specs.Folded.{converted_value, given_value};
ghost use Rattle.vb6_meaning.specs.Values.{coerce};
ghost use Rattle.bound_tree.specs.View.{expr_of, exprs_of};
ghost use Rattle.net_tree.specs.declared.expression.NetBin.TheVariants as op;
ghost use Rattle.net_tree.specs.View.{exp_of, exps_of};
ghost use Rattle.net_tree.specs.Tree as net;
ghost use Rattle.written_trees.specs.Conversions as conversions;
ghost use Rattle.written_trees.specs.Library as rows;
ghost use Rattle.written_trees.specs.Literals as literals;
ghost use Rattle.written_trees.specs.Operators as operators;
ghost use Rattle.written_rows.specs.Plans.{by_arguments, by_first, converted_to, library_row, text_name};
ghost use Rattle.written_rows.specs.View.{facts_of, scope_of};

use crate::conversions::converted;
use crate::literals::{constant_exp, number};
use crate::names::name_of;
use crate::operators::checked;
use crate::parts::{binary, call_of, cast, strings, support_call, three, two};
use crate::{Scope, WrittenFacts};
use bound_facts::{declared_at, folded};
use bound_tree::BoundExpr;
use net_tree::{CastWord, NetBin, NetExpr, Path};
use std::alloc::Global;
use up_base::Mem;
use vb_tree::{LibCall, Type6, Value6};
use vb6_meaning::{Op6Fail, coerce6};

/// The form of a call that is written with all of its arguments.
#[derive(Clone, Copy)]
pub(crate) enum ArgumentsRow {
    /// A function of the run-time library on texts.
    Text,
    /// The same, converted.
    CastText(CastWord),
    Absolute,
    MsgBox,
    InputBox,
}

/// The form of a call that is written with its first argument.
#[derive(Clone, Copy)]
pub(crate) enum FirstRow {
    /// The argument as one of another type.
    Converted,
    IsEmpty,
    Upper,
    Lower,
}

/// The form of a call of the library.
#[derive(Clone, Copy)]
pub(crate) enum LibraryRow {
    ByArguments(ArgumentsRow),
    ByFirst(FirstRow),
}

/// The type to which a call converts.
pub fn conversion_of(function: LibCall) -> Option<Type6>
    ensures { option_map type_of result ≡ rows.conversion_of function }
{
    match function {
        LibCall::CBool => Some(Type6::Boolean),
        LibCall::CByte => Some(Type6::Byte),
        LibCall::CInt => Some(Type6::Integer),
        LibCall::CLng => Some(Type6::Long),
        LibCall::CCur => Some(Type6::Currency),
        LibCall::CStr => Some(Type6::Str),
        _ => None,
    }
}

// ---- bounds of arrays

#[tactic(auto, using(crate::proofs::Bounds::less_by_one, crate::proofs::Bounds::none_less))]
fn one_less(z: i32) -> u32
    ensures { result ≡ rows.one_less z }
{
    if z <= 0 {
        return 0;
    }
    (z - 1).unsigned_abs()
}

fn dimension_by(value: &Value6) -> u32
    ensures { result ≡ rows.dimension_by value.now }
{
    match value {
        Value6::Long(z) => one_less(*z),
        _ => 0,
    }
}

fn dimension_in(value: Option<Value6>) -> u32
    ensures { result ≡ rows.dimension_in value }
{
    match value {
        None => 0,
        Some(x) => dimension_by(&x),
    }
}

// A value as one of type Long, where it goes to one.
fn long_of(alloc: Global, value: &Value6) -> Result<Option<Value6>, Mem>
    ensures { IfOk result (λ x. x ≡ given_value (coerce value.now vb.long)) }
{
    match coerce6(alloc, value, &Type6::Long) {
        Ok(x) => Ok(Some(x)),
        Err(Op6Fail::Raise(_)) => Ok(None),
        Err(Op6Fail::Outside) => Ok(None),
        Err(Op6Fail::Mem) => Err(Mem),
    }
}

fn long_in(alloc: Global, value: Option<Value6>) -> Result<Option<Value6>, Mem>
    ensures { IfOk result (λ x. x ≡ converted_value vb.long value) }
{
    match value {
        None => Ok(None),
        Some(x) => Ok(long_of(alloc, &x)?),
    }
}

// The dimension that a constant argument names, counted from 0.
fn dimension_of(alloc: Global, e: &BoundExpr) -> Result<u32, Mem>
    ensures { IfOk result (λ d. d ≡ rows.dimension_of (expr_of e.now)) }
{
    let value = folded(alloc, e)?;
    let long = long_in(alloc, value)?;
    Ok(dimension_in(long))
}

// Without an argument it is the first.
fn dimension(alloc: Global, arguments: &[BoundExpr]) -> Result<u32, Mem>
    ensures { IfOk result (λ d. d ≡ rows.dimension (exprs_of arguments.now)) }
{
    match arguments {
        [] => Ok(0),
        [e, ..] => Ok(dimension_of(alloc, e)?),
    }
}

fn low_of(facts: &WrittenFacts, variable: Option<usize>, dimension: usize) -> i32
    ensures { result ≡ rows.low_of (facts_of facts.now) variable dimension }
{
    match variable {
        None => 0,
        Some(a) => facts.low(a, dimension),
    }
}

/// The lower bound of an array in a dimension, which is numbered from 0. It is 0 for what is no variable and no field.
pub fn low_at(scope: &Scope, array: &BoundExpr, dimension: usize) -> i32
    ensures { result ≡ rows.low_at (scope_of scope.now) (expr_of array.now) dimension }
{
    low_of(scope.facts, declared_at(scope.declared, array), dimension)
}

/// A lower bound.
pub fn low_exp(alloc: Global, low: i32) -> Result<NetExpr, Mem>
    ensures { IfOk result (λ e. exp_of e ≡ rows.low_exp low) }
{
    Ok(constant_exp(alloc, false, &Value6::Long(low))?)
}

// The number of a dimension and the lower bound there, behind an array.
fn upper_arguments(alloc: Global, a: NetExpr, dimension: u32, low: i32) -> Result<Vec<NetExpr>, Mem>
    ensures { IfOk result (λ list. exps_of list.items ≡ conversions.three (exp_of a) (literals.number dimension) (rows.low_exp low)) }
{
    let dimension = number(dimension)?;
    let low = low_exp(alloc, low)?;
    Ok(three(alloc, a, dimension, low)?)
}

fn upper(
    alloc: Global,
    scope: &Scope,
    array: &BoundExpr,
    a: NetExpr,
    dimension: u32,
) -> Result<NetExpr, Mem>
    ensures { IfOk result (λ e. exp_of e ≡ rows.upper (scope_of scope.now) (expr_of array.now) (exp_of a) dimension) }
{
    let low = low_at(scope, array, dimension as usize);
    let arguments = upper_arguments(alloc, a, dimension, low)?;
    Ok(support_call(alloc, b"Hi", arguments)?)
}

// The lower bound of an array behind it.
fn lower_arguments(alloc: Global, a: NetExpr, low: i32) -> Result<Vec<NetExpr>, Mem>
    ensures { IfOk result (λ list. exps_of list.items ≡ conversions.two (exp_of a) (rows.low_exp low)) }
{
    let low = low_exp(alloc, low)?;
    Ok(two(alloc, a, low)?)
}

fn lower(
    alloc: Global,
    scope: &Scope,
    array: &BoundExpr,
    a: NetExpr,
    dimension: u32,
) -> Result<NetExpr, Mem>
    ensures { IfOk result (λ e. exp_of e ≡ rows.lower (scope_of scope.now) (expr_of array.now) (exp_of a) dimension) }
{
    let low = low_at(scope, array, dimension as usize);
    let arguments = lower_arguments(alloc, a, low)?;
    Ok(support_call(alloc, b"Lo", arguments)?)
}

// The upper bound of an array in the dimension that further arguments name.
fn upper_by(
    alloc: Global,
    scope: &Scope,
    array: &BoundExpr,
    rest: &[BoundExpr],
    a: NetExpr,
) -> Result<NetExpr, Mem>
    ensures { IfOk result (λ e. exp_of e ≡ rows.upper (scope_of scope.now) (expr_of array.now) (exp_of a) (rows.dimension (exprs_of rest.now))) }
{
    let dimension = dimension(alloc, rest)?;
    Ok(upper(alloc, scope, array, a, dimension)?)
}

fn lower_by(
    alloc: Global,
    scope: &Scope,
    array: &BoundExpr,
    rest: &[BoundExpr],
    a: NetExpr,
) -> Result<NetExpr, Mem>
    ensures { IfOk result (λ e. exp_of e ≡ rows.lower (scope_of scope.now) (expr_of array.now) (exp_of a) (rows.dimension (exprs_of rest.now))) }
{
    let dimension = dimension(alloc, rest)?;
    Ok(lower(alloc, scope, array, a, dimension)?)
}

// ---- calls

fn text_name(function: LibCall) -> &'static [u8]
    ensures { result.now ≡ text_name function }
{
    match function {
        LibCall::Len => b"Len",
        LibCall::Left => b"Left",
        LibCall::Right => b"Right",
        LibCall::Mid => b"Mid",
        LibCall::Trim => b"Trim",
        LibCall::LTrim => b"LTrim",
        LibCall::RTrim => b"RTrim",
        LibCall::UCase => b"UCase",
        LibCall::LCase => b"LCase",
        LibCall::Space => b"Space",
        LibCall::Chr => b"Chr",
        LibCall::Asc => b"Asc",
        LibCall::InStr => b"InStr",
        _ => b"",
    }
}

fn library_row(function: LibCall) -> LibraryRow
    ensures { result ≡ library_row function }
{
    match function {
        LibCall::Len => LibraryRow::ByArguments(ArgumentsRow::Text),
        LibCall::Left => LibraryRow::ByArguments(ArgumentsRow::Text),
        LibCall::Right => LibraryRow::ByArguments(ArgumentsRow::Text),
        LibCall::Mid => LibraryRow::ByArguments(ArgumentsRow::Text),
        LibCall::Trim => LibraryRow::ByArguments(ArgumentsRow::Text),
        LibCall::LTrim => LibraryRow::ByArguments(ArgumentsRow::Text),
        LibCall::RTrim => LibraryRow::ByArguments(ArgumentsRow::Text),
        LibCall::UCase => LibraryRow::ByArguments(ArgumentsRow::Text),
        LibCall::LCase => LibraryRow::ByArguments(ArgumentsRow::Text),
        LibCall::Space => LibraryRow::ByArguments(ArgumentsRow::Text),
        LibCall::Chr => LibraryRow::ByArguments(ArgumentsRow::CastText(CastWord::CStr)),
        LibCall::Asc => LibraryRow::ByArguments(ArgumentsRow::CastText(CastWord::CShort)),
        LibCall::InStr => LibraryRow::ByArguments(ArgumentsRow::Text),
        LibCall::Abs => LibraryRow::ByArguments(ArgumentsRow::Absolute),
        LibCall::CBool => LibraryRow::ByFirst(FirstRow::Converted),
        LibCall::CByte => LibraryRow::ByFirst(FirstRow::Converted),
        LibCall::CInt => LibraryRow::ByFirst(FirstRow::Converted),
        LibCall::CLng => LibraryRow::ByFirst(FirstRow::Converted),
        LibCall::CCur => LibraryRow::ByFirst(FirstRow::Converted),
        LibCall::CStr => LibraryRow::ByFirst(FirstRow::Converted),
        LibCall::IsEmpty => LibraryRow::ByFirst(FirstRow::IsEmpty),
        LibCall::UBound => LibraryRow::ByFirst(FirstRow::Upper),
        LibCall::LBound => LibraryRow::ByFirst(FirstRow::Lower),
        LibCall::MsgBox => LibraryRow::ByArguments(ArgumentsRow::MsgBox),
        LibCall::InputBox => LibraryRow::ByArguments(ArgumentsRow::InputBox),
    }
}

fn absolute_path(alloc: Global) -> Result<Path, Mem>
    ensures { IfOk result (λ path. path ≡ rows.absolute_path) }
{
    let mut path = Vec::with_capacity(alloc, 3)?;
    path.push(name_of(alloc, b"System")?)?;
    path.push(name_of(alloc, b"Math")?)?;
    path.push(name_of(alloc, b"Abs")?)?;
    Ok(Path::from_vec(path))
}

fn text_call(alloc: Global, name: &[u8], arguments: Vec<NetExpr>) -> Result<NetExpr, Mem>
    ensures { IfOk result (λ e. exp_of e ≡ rows.text_call name.now (exps_of arguments.items)) }
{
    let path = strings(alloc, name)?;
    Ok(call_of(alloc, NetExpr::Path(path), arguments)?)
}

fn cast_text(
    alloc: Global,
    word: CastWord,
    name: &[u8],
    arguments: Vec<NetExpr>,
) -> Result<NetExpr, Mem>
    ensures { IfOk result (λ e. exp_of e ≡ net.cast word (rows.text_call name.now (exps_of arguments.items))) }
{
    let text = text_call(alloc, name, arguments)?;
    Ok(cast(alloc, word, text)?)
}

fn absolute_call(alloc: Global, arguments: Vec<NetExpr>) -> Result<NetExpr, Mem>
    ensures { IfOk result (λ e. exp_of e ≡ conversions.call_path rows.absolute_path (exps_of arguments.items)) }
{
    let path = absolute_path(alloc)?;
    Ok(call_of(alloc, NetExpr::Path(path), arguments)?)
}

fn absolute(alloc: Global, result_type: &Type6, arguments: Vec<NetExpr>) -> Result<NetExpr, Mem>
    ensures { IfOk result (λ e. exp_of e ≡ operators.checked (type_of result_type.now) (conversions.call_path rows.absolute_path (exps_of arguments.items))) }
{
    let e = absolute_call(alloc, arguments)?;
    Ok(checked(alloc, result_type, e)?)
}

// An expression as one of the type to which a call converts.
fn converted_to(
    alloc: Global,
    to: Option<Type6>,
    from: &BoundExpr,
    a: NetExpr,
) -> Result<NetExpr, Mem>
    ensures { IfOk result (λ e. exp_of e ≡ converted_to (option_map type_of to) (expr_of from.now) (exp_of a)) }
{
    match to {
        None => {
            drop(a);
            Ok(NetExpr::Nothing)
        }
        Some(to) => Ok(converted(alloc, &to, from, a)?),
    }
}

// The arguments of a call.
fn with_first(a: NetExpr, others: Vec<NetExpr>) -> Result<Vec<NetExpr>, Mem>
    ensures { IfOk result (λ list. exps_of list.items ≡ net.next_exp (exp_of a) (exps_of others.items)) }
{
    let mut arguments = others;
    arguments.insert(0, a)?;
    Ok(arguments)
}

// A call that is written with all of its arguments, in a list.
fn by_arguments(
    alloc: Global,
    row: ArgumentsRow,
    function: LibCall,
    result_type: &Type6,
    arguments: Vec<NetExpr>,
) -> Result<NetExpr, Mem>
    ensures { IfOk result (λ e. exp_of e ≡ by_arguments row function (type_of result_type.now) (exps_of arguments.items)) }
{
    match row {
        ArgumentsRow::Text => Ok(text_call(alloc, text_name(function), arguments)?),
        ArgumentsRow::CastText(word) => {
            Ok(cast_text(alloc, word, text_name(function), arguments)?)
        }
        ArgumentsRow::Absolute => Ok(absolute(alloc, result_type, arguments)?),
        ArgumentsRow::MsgBox => Ok(support_call(alloc, b"Box", arguments)?),
        ArgumentsRow::InputBox => Ok(support_call(alloc, b"Ask", arguments)?),
    }
}

// A call that is written with its first argument.
fn by_first(
    alloc: Global,
    scope: &Scope,
    row: FirstRow,
    function: LibCall,
    first: &BoundExpr,
    rest: &[BoundExpr],
    a: NetExpr,
) -> Result<NetExpr, Mem>
    ensures { IfOk result (λ e. exp_of e ≡ by_first row (scope_of scope.now) function (expr_of first.now) (exprs_of rest.now) (exp_of a)) }
{
    match row {
        FirstRow::Converted => Ok(converted_to(alloc, conversion_of(function), first, a)?),
        FirstRow::IsEmpty => Ok(binary(alloc, NetBin::Is, a, NetExpr::Nothing)?),
        FirstRow::Upper => Ok(upper_by(alloc, scope, first, rest, a)?),
        FirstRow::Lower => Ok(lower_by(alloc, scope, first, rest, a)?),
    }
}

// The same as `by_arguments`, with the first argument apart.
fn by_all(
    alloc: Global,
    row: ArgumentsRow,
    function: LibCall,
    result_type: &Type6,
    a: NetExpr,
    others: Vec<NetExpr>,
) -> Result<NetExpr, Mem>
    ensures { IfOk result (λ e. exp_of e ≡ by_arguments row function (type_of result_type.now) (net.next_exp (exp_of a) (exps_of others.items))) }
{
    let arguments = with_first(a, others)?;
    Ok(by_arguments(alloc, row, function, result_type, arguments)?)
}

/// A call with a first argument, which is written `a`, and further ones, which are written `others`.
#[tactic(auto, using(crate::proofs::Rows::called_by_plan))]
pub fn library_call(
    alloc: Global,
    scope: &Scope,
    function: LibCall,
    result_type: &Type6,
    first: &BoundExpr,
    rest: &[BoundExpr],
    a: NetExpr,
    others: Vec<NetExpr>,
) -> Result<NetExpr, Mem>
    ensures { IfOk result (λ e. exp_of e ≡ rows.library_call (scope_of scope.now) function (type_of result_type.now) (expr_of first.now) (exprs_of rest.now) (exp_of a) (net.next_exp (exp_of a) (exps_of others.items))) }
{
    match library_row(function) {
        LibraryRow::ByArguments(row) => {
            Ok(by_all(alloc, row, function, result_type, a, others)?)
        }
        LibraryRow::ByFirst(row) => {
            drop(others);
            Ok(by_first(alloc, scope, row, function, first, rest, a)?)
        }
    }
}
