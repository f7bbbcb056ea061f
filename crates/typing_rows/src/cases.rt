//! The one type to which Select Case converts its expression and the items of its Cases.
ghost use Rattle.std.specs.Prelude.{◌≡◌, [], ◌∷◌, cond};
ghost use Rattle.vb_tree.specs.BoundView.{type_of};
ghost use Rattle.typing_rows.specs.Types.{is_unknown};
ghost use Rattle.typing_rows.specs.Cases.{case_of, common, common_with, case_converts};

use crate::conversions::{Conversion, converts};
use crate::operands::Operand;
use crate::operators::wider;
use crate::simple_types::SimpleType;
use vb_tree::Type6;
use vb6_meaning::NumberKind;

/// The type that the expressions of a Select Case have in common.
#[derive(Clone, Copy)]
pub enum CaseType {
    /// Any: no expression has a type so far.
    Open,
    Boolean,
    /// The widest number of all; a Boolean counts as an Integer.
    Number(NumberKind),
    /// String.
    Text,
    /// None.
    Mixed,
}

fn case_of(operand: Operand) -> CaseType
    ensures { result ≡ case_of operand }
{
    match operand {
        Operand::Boolean => CaseType::Boolean,
        Operand::Number(kind) => CaseType::Number(kind),
        Operand::Text => CaseType::Text,
        Operand::Variant => CaseType::Mixed,
        Operand::Object => CaseType::Mixed,
        Operand::Nothing => CaseType::Mixed,
        Operand::Other => CaseType::Mixed,
        Operand::Unknown => CaseType::Open,
    }
}

fn common(a: CaseType, b: CaseType) -> CaseType
    ensures { result ≡ common a b }
{
    match (a, b) {
        (CaseType::Open, c) => c,
        (c, CaseType::Open) => c,
        (CaseType::Boolean, CaseType::Boolean) => CaseType::Boolean,
        (CaseType::Boolean, CaseType::Number(l)) => {
            CaseType::Number(wider(NumberKind::Integer, l))
        }
        (CaseType::Number(k), CaseType::Boolean) => {
            CaseType::Number(wider(k, NumberKind::Integer))
        }
        (CaseType::Number(k), CaseType::Number(l)) => CaseType::Number(wider(k, l)),
        (CaseType::Text, CaseType::Text) => CaseType::Text,
        _ => CaseType::Mixed,
    }
}

impl CaseType {
    /// The common type with one more expression of a type, of which an object has given way to its default member.
    pub fn with(self, ty: &Type6) -> CaseType
        ensures { result ≡ common_with self (type_of ty.now ∷ []) }
    {
        common(self, case_of(Operand::of_type(ty)))
    }

    /// What becomes of an expression of a type under this common type. Where there is none each expression that has a type
    /// breaks a rule.
    pub fn converts(self, ty: &Type6) -> Conversion
        ensures { result ≡ case_converts self (type_of ty.now) }
    {
        match self {
            CaseType::Open => Conversion::Stands,
            CaseType::Boolean => converts(ty, &Type6::Boolean),
            CaseType::Number(kind) => converts(ty, &SimpleType::of_kind(kind).to_type()),
            CaseType::Text => converts(ty, &Type6::Str),
            CaseType::Mixed => mixed(Operand::of_type(ty)),
        }
    }
}

fn mixed(operand: Operand) -> Conversion
    ensures { result ≡ cond (is_unknown operand) Conversion.Stands (Conversion.Breaks 21) }
{
    if operand.is_unknown() {
        Conversion::Stands
    } else {
        Conversion::Breaks(21)
    }
}
