//! The values of constants, found in rounds: in each the constants without a value are gone over in order, and each that has
//! one by what is known so far is given it at once. A round that finds none is the last.
ghost use Rattle.std.specs.Prelude.{◌≡◌, ◌<◌, false, length, map, slice_get, slice_set, IfOk, OnOk, Ok};
ghost use Rattle.vb_tree.specs.BoundView.{type_of};
ghost use Rattle.bound_tree.specs.View.{constant_of};
ghost use Rattle.reach_table.specs.Chains.{is_marked};
ghost use Rattle.declared_names.specs.View.{constant_of as named_constant};
ghost use Rattle.declarations.specs.Constants as constants;
ghost use Rattle.declarations.specs.Constants.{outcome_of, step};
ghost use Rattle.declarations.specs.View.{filled_by, outcome_shown, IsFixed};

use crate::bare::Filled;
use crate::constant_exprs::Outcome;
use crate::constants::{is_at, outcome_of};
use crate::fixed::{Fixed, known_by};
use bound_tree::ConstDecl;
use declared_names::NamedConst;
use std::alloc::Global;
use up_base::Mem;
use vb_tree::{Type6, Value6};

// Whether there is a constant of this number that has no value yet.
fn lacks_value(consts: &[ConstDecl], k: usize) -> bool
    ensures { result ≡ constants.lacks_value (slice_get (map constant_of consts.now) k) }
{
    match consts.get(k) {
        Some(c) => c.value.is_none(),
        None => false,
    }
}

fn outcome_at(
    alloc: Global,
    fixed: &Fixed<'_>,
    filled: &Filled,
    k: usize,
    c: &NamedConst<'_>,
) -> Result<Outcome, Mem>
    requires { IsFixed fixed.now filled.now }
    ensures { IfOk result (λ o. outcome_shown o ≡ outcome_of (filled_by fixed.now filled.now) (is_marked fixed.now.members.now k) (named_constant c.now)) }
{
    let known = known_by(fixed, filled);
    Ok(outcome_of(alloc, known, is_at(fixed.members, k), c)?)
}

fn set_value(c: &mut ConstDecl, ty: Type6, value: Value6)
    ensures { constant_of c.new ≡ constants.constant_with (constant_of c.old) (type_of ty) value }
{
    c.ty = ty;
    c.value = Some(value);
}

fn put_value(consts: &mut [ConstDecl], k: usize, ty: Type6, value: Value6)
    ensures { map constant_of consts.new ≡ constants.with_value k (slice_get (map constant_of consts.old) k) (map constant_of consts.old) (type_of ty) value }
{
    if k < consts.len() {
        set_value(&mut consts[k], ty, value);
    }
}

// Gives a constant what it has. It answers whether it has a value.
fn put_outcome(consts: &mut [ConstDecl], k: usize, outcome: Outcome) -> bool
    ensures new { map constant_of consts.new ≡ constants.with_outcome k (map constant_of consts.old) (outcome_shown outcome) }
    ensures same { result ≡ false → map constant_of consts.new ≡ map constant_of consts.old }
{
    match outcome {
        Outcome::Value(ty, value) => {
            put_value(consts, k, ty, value);
            true
        }
        Outcome::Broken(_) => false,
    }
}

// Gives a constant without a value what it has by the declarations so far. It answers whether it has a value then.
fn take(
    alloc: Global,
    fixed: &Fixed<'_>,
    filled: &mut Filled,
    k: usize,
    c: &NamedConst<'_>,
) -> Result<bool, Mem>
    requires { IsFixed fixed.now filled.old }
    ensures step { OnOk result (filled_by fixed.now filled.new ≡ step (is_marked fixed.now.members.now) (filled_by fixed.now filled.old) k (named_constant c.now)) }
    ensures same { result ≡ Ok false → filled_by fixed.now filled.new ≡ filled_by fixed.now filled.old }
    ensures fixed { OnOk result (IsFixed fixed.now filled.new) }
{
    if !lacks_value(&filled.consts, k) {
        return Ok(false);
    }
    let outcome = outcome_at(alloc, fixed, filled, k, c)?;
    Ok(put_outcome(&mut filled.consts, k, outcome))
}

// It answers whether any constant has got a value.
fn round(
    alloc: Global,
    fixed: &Fixed<'_>,
    filled: &mut Filled,
    all: &[NamedConst<'_>],
) -> Result<bool, Mem>
    requires { IsFixed fixed.now filled.old }
    ensures round { OnOk result (filled_by fixed.now filled.new ≡ constants.round (is_marked fixed.now.members.now) (filled_by fixed.now filled.old) 0 (map named_constant all.now)) }
    ensures same { result ≡ Ok false → filled_by fixed.now filled.new ≡ filled_by fixed.now filled.old }
    ensures fixed { OnOk result (IsFixed fixed.now filled.new) }
{
    let mut changed = false;
    let mut k = 0;
    for c in all {
        let taken = take(alloc, fixed, filled, k, c)?;
        changed = changed || taken;
        k += 1;
    }
    Ok(changed)
}

/// Gives constants their values.
pub(crate) fn rounds(
    alloc: Global,
    fixed: &Fixed<'_>,
    filled: &mut Filled,
    all: &[NamedConst<'_>],
) -> Result<(), Mem>
    requires { IsFixed fixed.now filled.old }
    ensures rounds { OnOk result (filled_by fixed.now filled.new ≡ constants.rounds (is_marked fixed.now.members.now) (length all.now) (map named_constant all.now) (filled_by fixed.now filled.old)) }
    ensures fixed { OnOk result (IsFixed fixed.now filled.new) }
{
    for _round in 0..all.len() {
        if !round(alloc, fixed, filled, all)? {
            return Ok(());
        }
    }
    Ok(())
}
