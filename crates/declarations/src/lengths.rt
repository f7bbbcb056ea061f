//! Lengths of fixed Strings.
ghost use Rattle.std.specs.Prelude.{◌≡◌, ◌<◌, option_map, IfOk};
ghost use Rattle.vb_tree.specs.View.{exp_of, type_name_of};
ghost use Rattle.expression_words.specs.View.{IsScope, scope_of};
ghost use Rattle.declarations.specs.Constants as constants;
ghost use Rattle.declarations.specs.Constants.{checked_length, length_by, length_in, written_length};
ghost use Rattle.declarations.specs.View.{length_shown, outcome_shown};

use crate::constant_exprs::{Outcome, constant_outcome};
use bound_tree::RuleSet;
use expression_words::Scope;
use std::alloc::Global;
use up_base::Mem;
use vb_tree::{Expr6, Type6, TypeName6, Value6};

/// What a type says of a length.
#[derive(Clone, Copy)]
pub enum Length {
    /// Nothing.
    Open,
    Of(u32),
    /// The rules that it breaks.
    Broken(RuleSet),
}

fn broken() -> Length
    ensures { length_shown result ≡ constants.bad_length }
{
    Length::Broken(RuleSet::new().with(25))
}

fn checked_length(z: i32) -> Length
    ensures { length_shown result ≡ checked_length z }
{
    match u32::try_from(z) {
        Ok(n) => {
            if 0 < n && n < 65527 {
                Length::Of(n)
            } else {
                broken()
            }
        }
        Err(_) => broken(),
    }
}

fn length_of_value(value: Value6) -> Length
    ensures { length_shown result ≡ constants.length_of_value value }
{
    match value {
        Value6::Long(z) => checked_length(z),
        _ => broken(),
    }
}

fn length_in(outcome: Outcome) -> Length
    ensures { length_shown result ≡ length_in (outcome_shown outcome) }
{
    match outcome {
        Outcome::Value(_, value) => length_of_value(value),
        Outcome::Broken(rules) => Length::Broken(rules),
    }
}

/// The length of `String * e`.
pub fn length_by(alloc: Global, scope: Scope<'_>, e: &Expr6) -> Result<Length, Mem>
    requires names { IsScope scope }
    requires rule { scope.missing < 32 }
    ensures { IfOk result (λ l. length_shown l ≡ length_by (scope_of scope.entry) (exp_of e.now)) }
{
    let outcome = constant_outcome(alloc, scope, Some(&Type6::Long), e)?;
    Ok(length_in(outcome))
}

fn length_of_type(alloc: Global, scope: Scope<'_>, ty: &TypeName6) -> Result<Length, Mem>
    requires names { IsScope scope }
    requires rule { scope.missing < 32 }
    ensures { IfOk result (λ l. length_shown l ≡ written_length (scope_of scope.entry) (Some (type_name_of ty.now))) }
{
    match ty {
        TypeName6::Named(_) => Ok(Length::Open),
        TypeName6::FixedString(e) => Ok(length_by(alloc, scope, e)?),
    }
}

/// That of the type behind As.
pub(crate) fn written_length(
    alloc: Global,
    scope: Scope<'_>,
    ty: Option<&TypeName6>,
) -> Result<Length, Mem>
    requires names { IsScope scope }
    requires rule { scope.missing < 32 }
    ensures { IfOk result (λ l. length_shown l ≡ written_length (scope_of scope.entry) (option_map (λ t. type_name_of t.now) ty.entry)) }
{
    match ty {
        Some(ty) => Ok(length_of_type(alloc, scope, ty)?),
        None => Ok(Length::Open),
    }
}
