//! Defaults of Optional parameters.
ghost use Rattle.std.specs.Prelude.{◌≡◌, ◌<◌, ◌++◌, option_map, replicate, IfOk};
ghost use Rattle.vb_tree.specs.BoundView.{type_of};
ghost use Rattle.vb_tree.specs.View.{exp_of};
ghost use Rattle.expression_words.specs.View.{IsScope, scope_of};
ghost use Rattle.declarations.specs.Plans as plans;
ghost use Rattle.declarations.specs.Plans.{initial_value, preset_by, preset_in, preset_of};
ghost use Rattle.declarations.specs.View.{outcome_shown, preset_shown};

use crate::constant_exprs::{Outcome, constant_outcome};
use bound_tree::RuleSet;
use expression_words::Scope;
use std::alloc::Global;
use up_base::{Mem, Wide};
use vb_tree::{Expr6, Type6, Value6};

/// The default of a parameter, if it has one, and the rules that it breaks.
#[derive(Drop)]
pub(crate) struct Preset {
    pub value: Option<Value6>,
    pub rules: RuleSet,
}

fn no_units(alloc: Global, n: u32) -> Result<Wide, Mem>
    ensures { IfOk result (λ w. w ≡ replicate n 0) }
{
    let mut units = Wide::new(alloc);
    for _unit in 0..n {
        units.push(0)?;
    }
    Ok(units)
}

fn units_of(alloc: Global, n: u32) -> Result<Option<Value6>, Mem>
    ensures { IfOk result (λ v. v ≡ plans.units_of n) }
{
    let units = no_units(alloc, n)?;
    Ok(Some(Value6::Str(units)))
}

// The value that a variable of a type has at first.
fn initial_value(alloc: Global, ty: &Type6) -> Result<Option<Value6>, Mem>
    ensures { IfOk result (λ v. v ≡ initial_value (type_of ty.now)) }
{
    match ty {
        Type6::Boolean => Ok(Some(Value6::Boolean(false))),
        Type6::Byte => Ok(Some(Value6::Byte(0))),
        Type6::Integer => Ok(Some(Value6::Int(0))),
        Type6::Long => Ok(Some(Value6::Long(0))),
        Type6::Currency => Ok(Some(Value6::Cur(0))),
        Type6::Str => Ok(Some(Value6::Str(Wide::new(alloc)))),
        Type6::Fixed(n) => Ok(units_of(alloc, *n)?),
        Type6::Class(_) => Ok(Some(Value6::Nothing)),
        Type6::Object => Ok(Some(Value6::Nothing)),
        _ => Ok(None),
    }
}

fn preset_in(outcome: Outcome) -> Preset
    ensures { preset_shown result ≡ preset_in (outcome_shown outcome) }
{
    match outcome {
        Outcome::Value(_, value) => Preset {
            value: Some(value),
            rules: RuleSet::new(),
        },
        Outcome::Broken(rules) => Preset { value: None, rules },
    }
}

fn of_unknown(alloc: Global, scope: Scope<'_>, e: &Expr6) -> Result<Preset, Mem>
    requires names { IsScope scope }
    requires rule { scope.missing < 32 }
    ensures { IfOk result (λ p. preset_shown p ≡ plans.unknown_preset (scope_of scope.entry) (exp_of e.now)) }
{
    let outcome = constant_outcome(alloc, scope, None, e)?;
    Ok(Preset {
        value: None,
        rules: outcome.rules(),
    })
}

fn of_type(alloc: Global, scope: Scope<'_>, ty: &Type6, e: &Expr6) -> Result<Preset, Mem>
    requires names { IsScope scope }
    requires rule { scope.missing < 32 }
    ensures { IfOk result (λ p. preset_shown p ≡ plans.typed_preset (scope_of scope.entry) (type_of ty.now) (exp_of e.now)) }
{
    let outcome = constant_outcome(alloc, scope, Some(ty), e)?;
    Ok(preset_in(outcome))
}

fn preset_by(alloc: Global, scope: Scope<'_>, ty: &Type6, e: &Expr6) -> Result<Preset, Mem>
    requires names { IsScope scope }
    requires rule { scope.missing < 32 }
    ensures { IfOk result (λ p. preset_shown p ≡ preset_by (scope_of scope.entry) (type_of ty.now) (exp_of e.now)) }
{
    match ty {
        Type6::Unknown => Ok(of_unknown(alloc, scope, e)?),
        _ => Ok(of_type(alloc, scope, ty, e)?),
    }
}

fn unsaid(alloc: Global, ty: &Type6, optional: bool) -> Result<Preset, Mem>
    ensures { IfOk result (λ p. preset_shown p ≡ plans.unsaid_preset (type_of ty.now) optional) }
{
    let value = if optional {
        initial_value(alloc, ty)?
    } else {
        None
    };
    Ok(Preset {
        value,
        rules: RuleSet::new(),
    })
}

/// The default of what can be a parameter, as one of its type.
pub(crate) fn preset_of(
    alloc: Global,
    scope: Scope<'_>,
    ty: &Type6,
    optional: bool,
    e: Option<&Expr6>,
) -> Result<Preset, Mem>
    requires names { IsScope scope }
    requires rule { scope.missing < 32 }
    ensures { IfOk result (λ p. preset_shown p ≡ preset_of (scope_of scope.entry) (type_of ty.now) optional (option_map (λ x. exp_of x.now) e.entry)) }
{
    match e {
        Some(e) => Ok(preset_by(alloc, scope, ty, e)?),
        None => Ok(unsaid(alloc, ty, optional)?),
    }
}
