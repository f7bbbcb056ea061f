//! The least and the greatest of the numbers that are given to the arrays of each class, dimension by dimension: a table with a row
//! for each class, as long as the dimensions that numbers are given in.
ghost use Rattle.std.specs.Prelude.{◌≡◌, ℕ, ◌<◌, ◌≤◌, ◌&&◌, nat_eq, nat_lt, Some, None, IfOk, OnOk, length, slice_get, slice_index, if◌then◌else◌};
ghost use Rattle.array_bounds.specs.Givens.{at_dimension};
ghost use Rattle.array_bounds.specs.Ranges.{ClassNumber, RangeIs, cell, range_at, row_at, row_of, wider};

use crate::givens::Given;
use std::alloc::Global;
use up_base::Mem;

/// A least and a greatest number.
#[derive(Clone, Copy, Debug, PartialEq, Eq)]
pub(crate) struct Range {
    pub low: i32,
    pub high: i32,
}

fn wider(range: Option<Range>, z: i32) -> Range
    ensures { result ≡ wider range z }
{
    match range {
        None => Range { low: z, high: z },
        Some(r) => Range {
            low: r.low.min(z),
            high: r.high.max(z),
        },
    }
}

/// The range of a dimension.
pub(crate) fn range_at(row: &[Option<Range>], d: usize) -> Option<Range>
    ensures { result ≡ range_at row.now d }
{
    match row.get(d) {
        Some(range) => *range,
        None => None,
    }
}

/// The row of a class.
pub(crate) fn row_at(table: &[Vec<Option<Range>>], c: u32) -> &[Option<Range>]
    ensures { result.now ≡ row_at table.now c }
{
    match table.get(c as usize) {
        Some(row) => row.as_slice(),
        None => &[],
    }
}

// ---- one more number

// Makes a row long enough for a dimension.
fn reach(row: &mut Vec<Option<Range>>, d: usize) -> Result<(), Mem>
    ensures long { OnOk result (d < length row.new.items) }
    ensures same { OnOk result ((e : ℕ) → range_at row.new.items e ≡ range_at row.old.items e) }
{
    while row.len() <= d {
        row.push(None)?;
    }
    Ok(())
}

fn put(row: &mut [Option<Range>], d: usize, range: Range)
    requires { d < length row.old }
    ensures { (e : ℕ) → range_at row.new e ≡ (if nat_eq d e then Some range else range_at row.old e) }
{
    row[d] = Some(range);
}

fn widen_row(row: &mut Vec<Option<Range>>, g: &Given) -> Result<(), Mem>
    ensures { OnOk result ((e : ℕ) → range_at row.new.items e ≡ (if nat_eq g.now.dimension e then Some (wider (range_at row.old.items e) g.now.number) else range_at row.old.items e)) }
{
    reach(row, g.dimension)?;
    let range = wider(range_at(row, g.dimension), g.number);
    put(row, g.dimension, range);
    Ok(())
}

fn widen(table: &mut [Vec<Option<Range>>], class: u32, g: &Given) -> Result<(), Mem>
    requires { class < length table.old }
    ensures { OnOk result ((c d : ℕ) → cell table.new c d ≡ (if nat_eq class c && nat_eq g.now.dimension d then Some (wider (cell table.old c d) g.now.number) else cell table.old c d)) }
{
    let row = &mut table[class as usize];
    widen_row(row, g)?;
    Ok(())
}

fn note(table: &mut [Vec<Option<Range>>], classes: &[u32], g: &Given) -> Result<(), Mem>
    requires len { length table.old ≡ length classes.now }
    requires below { (a : ℕ) → a < length classes.now → slice_index classes.now a < length classes.now }
    ensures { OnOk result ((c d : ℕ) → cell table.new c d ≡ (if (nat_lt g.now.array (length classes.now) && nat_eq (slice_index classes.now g.now.array) c) && nat_eq g.now.dimension d then Some (wider (cell table.old c d) g.now.number) else cell table.old c d)) }
{
    if (g.array as usize) < classes.len() {
        widen(table, classes[g.array as usize], g)?;
    }
    Ok(())
}

// All numbers, in rows that are all empty.
fn note_all(table: &mut [Vec<Option<Range>>], classes: &[u32], givens: &[Given]) -> Result<(), Mem>
    requires len { length table.old ≡ length classes.now }
    requires empty { (c d : ℕ) → cell table.old c d ≡ None }
    requires below { (a : ℕ) → a < length classes.now → slice_index classes.now a < length classes.now }
    ensures { OnOk result ((c d : ℕ) → RangeIs (ClassNumber classes.now (at_dimension d givens.now) c) (cell table.new c d)) }
{
    for g in givens {
        note(table, classes, g)?;
    }
    Ok(())
}

fn empty_rows(alloc: Global, n: usize) -> Result<Vec<Vec<Option<Range>>>, Mem>
    ensures len { IfOk result (λ table. length table.items ≡ n) }
    ensures empty { IfOk result (λ table. (c d : ℕ) → cell table.items c d ≡ None) }
{
    let mut rows = Vec::new(alloc);
    for i in 0..n {
        rows.push(Vec::new(alloc))?;
    }
    Ok(rows)
}

/// For each class, which are numbers below that of variables, the ranges of the numbers that are given to its arrays.
pub(crate) fn ranges_of(
    alloc: Global,
    classes: &[u32],
    givens: &[Given],
) -> Result<Vec<Vec<Option<Range>>>, Mem>
    requires { (a : ℕ) → a < length classes.now → slice_index classes.now a < length classes.now }
    ensures { IfOk result (λ table. (c d : ℕ) → RangeIs (ClassNumber classes.now (at_dimension d givens.now) c) (cell table.items c d)) }
{
    let mut table = empty_rows(alloc, classes.len())?;
    note_all(&mut table, classes, givens)?;
    Ok(table)
}
