//! What is written where an expression of a type is converted to another.
ghost use Rattle.std.specs.Prelude.{◌≡◌, [], IfOk, codes};
ghost use Rattle.vb_tree.specs.BoundTree as vb;
ghost use Rattle.vb_tree.specs.BoundView.{type_of};
ghost use Rattle.bound_tree.specs.View.{expr_of};
ghost use Rattle.net_tree.specs.declared.expression.CastWord.TheVariants as word;
ghost use Rattle.net_tree.specs.declared.expression.NetBin.TheVariants as op;
ghost use Rattle.net_tree.specs.Tree as net;
ghost use Rattle.net_tree.specs.View.{exp_of};
ghost use Rattle.written_trees.specs.Conversions as rows;
ghost use Rattle.written_trees.specs.Literals as literals;
ghost use Rattle.written_rows.specs.Plans.{converter_name, plan_of, step_of};

use crate::literals::{literal_as, number};
use crate::parts::{binary, cast, one, support_call, two};
use bound_tree::BoundExpr;
use net_tree::{CastWord, NetBin, NetExpr, NetLit};
use std::alloc::Global;
use up_base::{Mem, Wide};
use vb_tree::Type6;

/// A function of the support module that converts a value.
#[derive(Clone, Copy)]
pub(crate) enum Converter {
    VarBool,
    VarByte,
    VarShort,
    VarInt,
    VarCur,
    VarStr,
    CurText,
}

/// A conversion that cuts no text.
#[derive(Clone, Copy)]
pub(crate) enum Step {
    /// Nothing is written.
    Stands,
    ByWord(CastWord),
    BySupport(Converter),
    /// A text in a Variant, which is never Nothing.
    TextObject,
}

/// A conversion.
#[derive(Clone, Copy)]
pub(crate) enum Conversion {
    Whole(Step),
    /// A text that is cut or padded to a number of units after a conversion to String.
    Cut(Step, u32),
}

fn converter_name(converter: Converter) -> &'static [u8]
    ensures { result.now ≡ converter_name converter }
{
    match converter {
        Converter::VarBool => b"VarBool",
        Converter::VarByte => b"VarByte",
        Converter::VarShort => b"VarShort",
        Converter::VarInt => b"VarInt",
        Converter::VarCur => b"VarCur",
        Converter::VarStr => b"VarStr",
        Converter::CurText => b"CurText",
    }
}

// ---- which conversion it is

// What becomes of a Boolean, a number or a Variant that has another type than the wanted one.
fn counted(word: CastWord, variants: Converter, from: &Type6) -> Step
    ensures { step_of result ≡ rows.counted word (converter_name variants) (type_of from.now) }
{
    match from {
        Type6::Variant => Step::BySupport(variants),
        Type6::Unknown => Step::Stands,
        _ => Step::ByWord(word),
    }
}

fn to_boolean(from: &Type6) -> Step
    ensures { step_of result ≡ rows.to_count vb.boolean word.CBool (codes "VarBool") (type_of from.now) }
{
    match from {
        Type6::Boolean => Step::Stands,
        _ => counted(CastWord::CBool, Converter::VarBool, from),
    }
}

fn to_byte(from: &Type6) -> Step
    ensures { step_of result ≡ rows.to_count vb.byte word.CByte (codes "VarByte") (type_of from.now) }
{
    match from {
        Type6::Byte => Step::Stands,
        _ => counted(CastWord::CByte, Converter::VarByte, from),
    }
}

fn to_integer(from: &Type6) -> Step
    ensures { step_of result ≡ rows.to_count vb.integer word.CShort (codes "VarShort") (type_of from.now) }
{
    match from {
        Type6::Integer => Step::Stands,
        _ => counted(CastWord::CShort, Converter::VarShort, from),
    }
}

fn to_long(from: &Type6) -> Step
    ensures { step_of result ≡ rows.to_count vb.long word.CInt (codes "VarInt") (type_of from.now) }
{
    match from {
        Type6::Long => Step::Stands,
        _ => counted(CastWord::CInt, Converter::VarInt, from),
    }
}

fn to_currency(from: &Type6) -> Step
    ensures { step_of result ≡ rows.to_count vb.currency word.CDec (codes "VarCur") (type_of from.now) }
{
    match from {
        Type6::Currency => Step::Stands,
        _ => counted(CastWord::CDec, Converter::VarCur, from),
    }
}

fn to_text(from: &Type6) -> Step
    ensures { step_of result ≡ rows.to_text (type_of from.now) }
{
    match from {
        Type6::Boolean => Step::ByWord(CastWord::CStr),
        Type6::Byte => Step::ByWord(CastWord::CStr),
        Type6::Integer => Step::ByWord(CastWord::CStr),
        Type6::Long => Step::ByWord(CastWord::CStr),
        Type6::Currency => Step::BySupport(Converter::CurText),
        Type6::Variant => Step::BySupport(Converter::VarStr),
        _ => Step::Stands,
    }
}

fn to_variant(from: &Type6) -> Step
    ensures { step_of result ≡ rows.to_variant (type_of from.now) }
{
    match from {
        Type6::Boolean => Step::ByWord(CastWord::CObj),
        Type6::Byte => Step::ByWord(CastWord::CObj),
        Type6::Integer => Step::ByWord(CastWord::CObj),
        Type6::Long => Step::ByWord(CastWord::CObj),
        Type6::Currency => Step::ByWord(CastWord::CObj),
        Type6::Str => Step::TextObject,
        Type6::Fixed(_) => Step::TextObject,
        _ => Step::Stands,
    }
}

// An object goes to another type of objects as it stands.
fn conversion_between(from: &Type6, to: &Type6) -> Conversion
    ensures { plan_of result ≡ rows.conversion (type_of from.now) (type_of to.now) }
{
    match to {
        Type6::Boolean => Conversion::Whole(to_boolean(from)),
        Type6::Byte => Conversion::Whole(to_byte(from)),
        Type6::Integer => Conversion::Whole(to_integer(from)),
        Type6::Long => Conversion::Whole(to_long(from)),
        Type6::Currency => Conversion::Whole(to_currency(from)),
        Type6::Str => Conversion::Whole(to_text(from)),
        Type6::Fixed(units) => Conversion::Cut(to_text(from), *units),
        Type6::Variant => Conversion::Whole(to_variant(from)),
        _ => Conversion::Whole(Step::Stands),
    }
}

fn is_stands(conversion: Conversion) -> bool
    ensures { result ≡ rows.is_stands (plan_of conversion) }
{
    match conversion {
        Conversion::Whole(Step::Stands) => true,
        Conversion::Whole(Step::ByWord(_)) => false,
        Conversion::Whole(Step::BySupport(_)) => false,
        Conversion::Whole(Step::TextObject) => false,
        Conversion::Cut(_, _) => false,
    }
}

/// Whether a conversion writes nothing.
pub fn writes_nothing(from: &Type6, to: &Type6) -> bool
    ensures { result ≡ rows.writes_nothing (type_of from.now) (type_of to.now) }
{
    is_stands(conversion_between(from, to))
}

// ---- what is written for it

fn by_support(alloc: Global, converter: Converter, a: NetExpr) -> Result<NetExpr, Mem>
    ensures { IfOk result (λ e. exp_of e ≡ rows.support_call (converter_name converter) (rows.one (exp_of a))) }
{
    let arguments = one(alloc, a)?;
    Ok(support_call(alloc, converter_name(converter), arguments)?)
}

fn text_object(alloc: Global, a: NetExpr) -> Result<NetExpr, Mem>
    ensures { IfOk result (λ e. exp_of e ≡ net.cast word.CObj (net.binary op.Concat (net.lit (net.str [])) (exp_of a))) }
{
    let no_text = NetExpr::Lit(NetLit::Str(Wide::new(alloc)));
    let text = binary(alloc, NetBin::Concat, no_text, a)?;
    Ok(cast(alloc, CastWord::CObj, text)?)
}

fn stepped(alloc: Global, step: Step, a: NetExpr) -> Result<NetExpr, Mem>
    ensures { IfOk result (λ e. exp_of e ≡ rows.applied (step_of step) (exp_of a)) }
{
    match step {
        Step::Stands => Ok(a),
        Step::ByWord(word) => Ok(cast(alloc, word, a)?),
        Step::BySupport(converter) => Ok(by_support(alloc, converter, a)?),
        Step::TextObject => Ok(text_object(alloc, a)?),
    }
}

// A text that is cut or padded to a number of units.
fn fixed(alloc: Global, text: NetExpr, units: u32) -> Result<NetExpr, Mem>
    ensures { IfOk result (λ e. exp_of e ≡ rows.support_call (codes "Fix") (rows.two (exp_of text) (literals.number units))) }
{
    let units = number(units)?;
    let arguments = two(alloc, text, units)?;
    Ok(support_call(alloc, b"Fix", arguments)?)
}

fn applied(alloc: Global, conversion: Conversion, a: NetExpr) -> Result<NetExpr, Mem>
    ensures { IfOk result (λ e. exp_of e ≡ rows.applied (plan_of conversion) (exp_of a)) }
{
    match conversion {
        Conversion::Whole(step) => Ok(stepped(alloc, step, a)?),
        Conversion::Cut(step, units) => {
            let text = stepped(alloc, step, a)?;
            Ok(fixed(alloc, text, units)?)
        }
    }
}

/// An expression, which is written `e`, as one of a type.
pub fn converted(alloc: Global, to: &Type6, from: &BoundExpr, e: NetExpr) -> Result<NetExpr, Mem>
    ensures { IfOk result (λ c. exp_of c ≡ rows.converted (type_of to.now) (expr_of from.now) (exp_of e)) }
{
    match literal_as(alloc, to, from) {
        Ok(Some(literal)) => {
            drop(e);
            Ok(literal)
        }
        Ok(None) => Ok(applied(alloc, conversion_between(&from.ty, to), e)?),
        Err(Mem) => {
            drop(e);
            Err(Mem)
        }
    }
}
