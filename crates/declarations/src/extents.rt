//! The bounds of arrays.
ghost use Rattle.std.specs.Prelude.{◌≡◌, ◌<◌, option_map, map, IfOk, OnOk};
ghost use Rattle.vb_tree.specs.View.{bounds_of, exp_of};
ghost use Rattle.declared_names.specs.View.{extents_of as extents_shown};
ghost use Rattle.expression_words.specs.View.{IsScope, scope_of};
ghost use Rattle.declarations.specs.Plans as plans;
ghost use Rattle.declarations.specs.Plans.{between, bound_by, bound_in, dimension_by, extents_by, extents_of, in_all, lower_by, no_extents, number_of, times, with_dimension, within};
ghost use Rattle.declarations.specs.View.{bound_shown, extent_shown, outcome_shown, sizes_shown};

use crate::constant_exprs::{Outcome, constant_outcome};
use bound_tree::RuleSet;
use declared_names::Extents;
use expression_words::Scope;
use std::alloc::Global;
use up_base::Mem;
use vb_tree::{Bounds6, Expr6, Type6, Value6};

/// A bound, or the rules that it breaks.
#[derive(Clone, Copy)]
pub(crate) enum Bound {
    At(i32),
    Broken(RuleSet),
}

/// The bounds of a dimension and the number of its elements, or the rules that they break.
#[derive(Clone, Copy)]
pub(crate) enum Extent {
    From(i32, i32, u32),
    Broken(RuleSet),
}

/// The bounds of an array, the number of its elements, and the rules that they break.
#[derive(Drop)]
pub(crate) struct Sizes {
    pub bounds: Vec<(i32, i32)>,
    /// It isn't counted on past the greatest number of elements.
    pub count: u64,
    pub rules: RuleSet,
}

fn bound_of_value(value: Value6) -> Bound
    ensures { bound_shown result ≡ plans.bound_of_value value }
{
    match value {
        Value6::Long(z) => Bound::At(z),
        _ => Bound::Broken(RuleSet::new().with(25)),
    }
}

fn bound_in(outcome: Outcome) -> Bound
    ensures { bound_shown result ≡ bound_in (outcome_shown outcome) }
{
    match outcome {
        Outcome::Value(_, value) => bound_of_value(value),
        Outcome::Broken(rules) => Bound::Broken(rules),
    }
}

fn bound_by(alloc: Global, scope: Scope<'_>, e: &Expr6) -> Result<Bound, Mem>
    requires names { IsScope scope }
    requires rule { scope.missing < 32 }
    ensures { IfOk result (λ b. bound_shown b ≡ bound_by (scope_of scope.entry) (exp_of e.now)) }
{
    let outcome = constant_outcome(alloc, scope, Some(&Type6::Long), e)?;
    Ok(bound_in(outcome))
}

fn lower_by(alloc: Global, scope: Scope<'_>, base: i32, e: Option<&Expr6>) -> Result<Bound, Mem>
    requires names { IsScope scope }
    requires rule { scope.missing < 32 }
    ensures { IfOk result (λ b. bound_shown b ≡ lower_by (scope_of scope.entry) base (option_map (λ x. exp_of x.now) e.entry)) }
{
    match e {
        Some(e) => Ok(bound_by(alloc, scope, e)?),
        None => Ok(Bound::At(base)),
    }
}

// The number of elements between two bounds: at least one, and at most 2147483647.
fn number_of(low: i32, high: i32) -> Option<u32>
    ensures { result ≡ number_of low high }
{
    match u32::try_from(i64::from(high) - i64::from(low)) {
        Ok(more) => {
            if more < 2147483647 {
                Some(more + 1)
            } else {
                None
            }
        }
        Err(_) => None,
    }
}

fn between(low: i32, high: i32) -> Extent
    ensures { extent_shown result ≡ between low high (number_of low high) }
{
    match number_of(low, high) {
        Some(count) => Extent::From(low, high, count),
        None => Extent::Broken(RuleSet::new().with(25)),
    }
}

fn within(low: Bound, high: Bound) -> Extent
    ensures { extent_shown result ≡ within (bound_shown low) (bound_shown high) }
{
    match low {
        Bound::At(low) => match high {
            Bound::At(high) => between(low, high),
            Bound::Broken(rules) => Extent::Broken(rules),
        },
        Bound::Broken(rules) => match high {
            Bound::At(_) => Extent::Broken(rules),
            Bound::Broken(more) => Extent::Broken(rules.union(more)),
        },
    }
}

fn extent_by(alloc: Global, scope: Scope<'_>, base: i32, b: &Bounds6) -> Result<Extent, Mem>
    requires names { IsScope scope }
    requires rule { scope.missing < 32 }
    ensures { IfOk result (λ x. extent_shown x ≡ dimension_by (scope_of scope.entry) base (bounds_of b.now)) }
{
    let low = lower_by(alloc, scope, base, b.lower.as_ref())?;
    let high = bound_by(alloc, scope, &b.upper)?;
    Ok(within(low, high))
}

fn times(count: u64, extent: u32) -> u64
    ensures { result ≡ times count extent }
{
    if count <= 2147483647 {
        count * u64::from(extent)
    } else {
        count
    }
}

fn no_sizes(alloc: Global) -> Sizes
    ensures { sizes_shown result ≡ no_extents }
{
    Sizes {
        bounds: Vec::new(alloc),
        count: 1,
        rules: RuleSet::new(),
    }
}

// Puts a dimension behind others.
fn put_extent(extent: Extent, to: &mut Sizes) -> Result<(), Mem>
    ensures { OnOk result (sizes_shown to.new ≡ with_dimension (sizes_shown to.old) (extent_shown extent)) }
{
    match extent {
        Extent::From(low, high, count) => {
            to.bounds.push((low, high))?;
            to.count = times(to.count, count);
        }
        Extent::Broken(rules) => to.rules = to.rules.union(rules),
    }
    Ok(())
}

fn put_extents(
    alloc: Global,
    scope: Scope<'_>,
    base: i32,
    all: &[Bounds6],
    to: &mut Sizes,
) -> Result<(), Mem>
    requires names { IsScope scope }
    requires rule { scope.missing < 32 }
    ensures { OnOk result (sizes_shown to.new ≡ extents_by (scope_of scope.entry) base (sizes_shown to.old) (map bounds_of all.now)) }
{
    for b in all {
        let extent = extent_by(alloc, scope, base, b)?;
        put_extent(extent, to)?;
    }
    Ok(())
}

// An array has at most 2147483647 elements in all.
fn in_all(sizes: Sizes) -> Sizes
    ensures { sizes_shown result ≡ in_all (sizes_shown sizes) }
{
    let rules = sizes.rules.with_if(25, 2147483647 < sizes.count);
    Sizes { rules, ..sizes }
}

fn written_sizes(
    alloc: Global,
    scope: Scope<'_>,
    base: i32,
    bounds: &[Bounds6],
) -> Result<Sizes, Mem>
    requires names { IsScope scope }
    requires rule { scope.missing < 32 }
    ensures { IfOk result (λ s. sizes_shown s ≡ in_all (extents_by (scope_of scope.entry) base no_extents (map bounds_of bounds.now))) }
{
    let mut sizes = no_sizes(alloc);
    put_extents(alloc, scope, base, bounds, &mut sizes)?;
    Ok(in_all(sizes))
}

/// The bounds of what can be an array.
pub(crate) fn sizes_of(
    alloc: Global,
    scope: Scope<'_>,
    base: i32,
    extents: Extents<'_>,
) -> Result<Sizes, Mem>
    requires names { IsScope scope }
    requires rule { scope.missing < 32 }
    ensures { IfOk result (λ s. sizes_shown s ≡ extents_of (scope_of scope.entry) base (extents_shown extents.entry)) }
{
    match extents {
        Extents::Single => Ok(no_sizes(alloc)),
        Extents::Dynamic => Ok(no_sizes(alloc)),
        Extents::Written(bounds) => Ok(written_sizes(alloc, scope, base, bounds.as_slice())?),
    }
}
