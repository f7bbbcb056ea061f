//! The lower bounds and the ranks of all arrays: those of the class of arrays that ties connect.
ghost use Rattle.std.specs.Prelude.{◌≡◌, ◌<◌, ◌↔◌, ◌≤◌, ℕ, IfOk, IsTrue, length, slice_get, slice_index};
ghost use Rattle.std.specs.List.{list_any};
ghost use Rattle.bound_tree.specs.View.{declarations_of};
ghost use Rattle.bound_facts.specs.Bounds.{file_of, option_base_of, ties};
ghost use Rattle.bound_facts.specs.Calls.{count_variables};
ghost use Rattle.bound_facts.specs.Leading.{Tied};
ghost use Rattle.array_bounds.specs.Givens.{all_lows, all_ranks, at_dimension};
ghost use Rattle.array_bounds.specs.Programs.{shown_program};
ghost use Rattle.array_bounds.specs.Ranges.{ClassNumber, RangeIs, array_row, cell, count_of, is_split, is_torn, is_wide, low_or, range_at, rank_or_one, row_at};
ghost use Rattle.array_bounds.specs.Tables.{AreBounds, low_by, rank_by, splits_by, tears_by};

use crate::bases::option_base_of;
use crate::givens::{all_lows, all_ranks};
use crate::numbers::index;
use crate::ranges::{Range, range_at, ranges_of, row_at};
use crate::ties::ties;
use bound_facts::classes_of;
use bound_tree::{Declared, LineRef};
use std::alloc::Global;
use up_base::Mem;

/// The class of each variable, and the ranges of the lower bounds and of the ranks of each class.
#[derive(Drop)]
pub(crate) struct ArrayBounds {
    classes: Vec<u32>,
    lows: Vec<Vec<Option<Range>>>,
    ranks: Vec<Vec<Option<Range>>>,
}

fn tied_classes(alloc: Global, declared: &Declared, lines: &[Vec<LineRef>]) -> Result<Vec<u32>, Mem>
    ensures len { IfOk result (λ classes. length classes.items ≡ count_variables (shown_program declared.now lines.now)) }
    ensures below { IfOk result (λ classes. (a : ℕ) → a < length classes.items → slice_index classes.items a < length classes.items) }
    ensures same { IfOk result (λ classes. (a b : ℕ) → a < length classes.items → b < length classes.items →
        (slice_index classes.items a ≡ slice_index classes.items b) ↔ Tied (count_variables (shown_program declared.now lines.now)) (ties (shown_program declared.now lines.now)) a b) }
{
    let pairs = ties(alloc, declared, lines)?;
    let count = index(declared.vars.len())?;
    Ok(classes_of(alloc, count, &pairs)?)
}

fn low_ranges(
    alloc: Global,
    declared: &Declared,
    lines: &[Vec<LineRef>],
    classes: &[u32],
) -> Result<Vec<Vec<Option<Range>>>, Mem>
    requires { (a : ℕ) → a < length classes.now → slice_index classes.now a < length classes.now }
    ensures { IfOk result (λ table. (c d : ℕ) → RangeIs (ClassNumber classes.now (at_dimension d (all_lows (shown_program declared.now lines.now))) c) (cell table.items c d)) }
{
    let lows = all_lows(alloc, declared, lines)?;
    Ok(ranges_of(alloc, classes, &lows)?)
}

fn rank_ranges(
    alloc: Global,
    declared: &Declared,
    lines: &[Vec<LineRef>],
    classes: &[u32],
) -> Result<Vec<Vec<Option<Range>>>, Mem>
    requires { (a : ℕ) → a < length classes.now → slice_index classes.now a < length classes.now }
    ensures { IfOk result (λ table. (c d : ℕ) → RangeIs (ClassNumber classes.now (at_dimension d (all_ranks (shown_program declared.now lines.now))) c) (cell table.items c d)) }
{
    let ranks = all_ranks(alloc, declared, lines)?;
    Ok(ranges_of(alloc, classes, &ranks)?)
}

// ---- the ranges of an array

fn array_row<'a>(table: &'a [Vec<Option<Range>>], classes: &[u32], a: usize) -> &'a [Option<Range>]
    ensures { result.now ≡ array_row table.now classes.now a }
{
    match classes.get(a) {
        Some(c) => row_at(table, *c),
        None => &[],
    }
}

fn is_wide(range: &Option<Range>) -> bool
    ensures { result ≡ is_wide range.now }
{
    match range {
        Some(r) => r.low != r.high,
        None => false,
    }
}

fn is_split(row: &[Option<Range>]) -> bool
    ensures { result ≡ is_split row.now }
{
    for range in row {
        if is_wide(range) {
            return true;
        }
    }
    false
}

fn count_of(z: i32) -> u32
    ensures { result ≡ count_of z }
{
    if z < 0 { 0 } else { z.unsigned_abs() }
}

fn low_or(base: i32, range: Option<Range>) -> i32
    ensures { result ≡ low_or base range }
{
    match range {
        Some(r) => r.low,
        None => base,
    }
}

fn rank_or_one(range: Option<Range>) -> u32
    ensures { result ≡ rank_or_one range }
{
    match range {
        Some(r) => count_of(r.low),
        None => 1,
    }
}

fn is_torn(range: Option<Range>) -> bool
    ensures { result ≡ is_torn range }
{
    match range {
        Some(r) => count_of(r.low) != count_of(r.high) || count_of(r.high) > 2,
        None => false,
    }
}

impl ArrayBounds {
    /// The least lower bound of an array in a dimension, counted from 0.
    pub fn low(&self, declared: &Declared, d: usize, a: usize) -> i32
        ensures { result ≡ low_by (declarations_of declared.now) self.now d a }
    {
        low_or(
            array_base(declared, a),
            range_at(array_row(&self.lows, &self.classes, a), d),
        )
    }

    /// The least rank of an array, and 1 of a number that is no variable.
    pub fn rank(&self, a: usize) -> u32
        ensures { result ≡ rank_by self.now a }
    {
        rank_or_one(range_at(array_row(&self.ranks, &self.classes, a), 0))
    }

    /// Whether an array has two lower bounds in one dimension.
    pub fn splits(&self, a: usize) -> bool
        ensures { result ≡ splits_by self.now a }
    {
        is_split(array_row(&self.lows, &self.classes, a))
    }

    /// Whether an array has a rank over 2 or two ranks.
    pub fn tears(&self, a: usize) -> bool
        ensures { result ≡ tears_by self.now a }
    {
        is_torn(range_at(array_row(&self.ranks, &self.classes, a), 0))
    }
}

// The Option Base of the module in which a variable stands.
fn array_base(declared: &Declared, a: usize) -> i32
    ensures { result ≡ option_base_of (declarations_of declared.now) (file_of (slice_get (declarations_of declared.now).vars a)) }
{
    match declared.vars.get(a) {
        Some(v) => option_base_of(declared, v.place.file),
        None => option_base_of(declared, 0),
    }
}

/// Those of a project.
pub(crate) fn make_bounds(
    alloc: Global,
    declared: &Declared,
    lines: &[Vec<LineRef>],
) -> Result<ArrayBounds, Mem>
    ensures { IfOk result (λ b. AreBounds (shown_program declared.now lines.now) b) }
{
    let classes = tied_classes(alloc, declared, lines)?;
    let lows = low_ranges(alloc, declared, lines, &classes)?;
    let ranks = rank_ranges(alloc, declared, lines, &classes)?;
    Ok(ArrayBounds {
        classes,
        lows,
        ranks,
    })
}
