//! The lower bounds and the rank of each variable.
ghost use Rattle.std.specs.Prelude.{◌≡◌, ◌<◌, ℕ, true, IfOk, length};
ghost use Rattle.written_facts.specs.Shapes.{are_exact, by_entries, by_entry, low_variable, rank_variable, shape_at, shape_of, with_low, with_rank};

use std::alloc::Global;
use up_base::Mem;
use vb_tree::VarId;
use written_rows::ArrayShape;

fn put_low(shapes: &mut [ArrayShape], x: &(VarId, i32, i32))
    ensures len { length shapes.new ≡ length shapes.old }
    ensures at { (v : ℕ) → v < length shapes.old → shape_at shapes.new v ≡ by_entry low_variable with_low v x.now (shape_at shapes.old v) }
{
    let v = x.0.0 as usize;
    if v < shapes.len() {
        shapes[v] = ArrayShape {
            low: x.1,
            second: x.2,
            rank: shapes[v].rank,
        };
    }
}

fn put_lows(shapes: &mut [ArrayShape], lows: &[(VarId, i32, i32)])
    ensures len { length shapes.new ≡ length shapes.old }
    ensures at { (v : ℕ) → v < length shapes.old → shape_at shapes.new v ≡ by_entries low_variable with_low v lows.now (shape_at shapes.old v) }
{
    for x in lows {
        put_low(shapes, x);
    }
}

fn put_rank(shapes: &mut [ArrayShape], x: &(VarId, u8))
    ensures len { length shapes.new ≡ length shapes.old }
    ensures at { (v : ℕ) → v < length shapes.old → shape_at shapes.new v ≡ by_entry rank_variable with_rank v x.now (shape_at shapes.old v) }
{
    let v = x.0.0 as usize;
    if v < shapes.len() {
        shapes[v] = ArrayShape {
            low: shapes[v].low,
            second: shapes[v].second,
            rank: x.1,
        };
    }
}

fn put_ranks(shapes: &mut [ArrayShape], ranks: &[(VarId, u8)])
    ensures len { length shapes.new ≡ length shapes.old }
    ensures at { (v : ℕ) → v < length shapes.old → shape_at shapes.new v ≡ by_entries rank_variable with_rank v ranks.now (shape_at shapes.old v) }
{
    for x in ranks {
        put_rank(shapes, x);
    }
}

// Whether each rank is kept as it is.
fn are_exact(ranks: &[(VarId, u8)]) -> bool
    ensures { result ≡ are_exact ranks.now }
{
    for x in ranks {
        if x.1 == 255 {
            return false;
        }
    }
    true
}

fn put_all(
    alloc: Global,
    count: usize,
    lows: &[(VarId, i32, i32)],
    ranks: &[(VarId, u8)],
) -> Result<Vec<ArrayShape>, Mem>
    ensures len { IfOk result (λ shapes. length shapes.items ≡ count) }
    ensures at { IfOk result (λ shapes. (v : ℕ) → v < count → shape_at shapes.items v ≡ shape_of lows.now ranks.now v) }
{
    let none = ArrayShape {
        low: 0,
        second: 0,
        rank: 0,
    };
    let mut shapes = vec![in alloc; none; count]?;
    put_lows(&mut shapes, lows);
    put_ranks(&mut shapes, ranks);
    Ok(shapes)
}

/// The shapes of so many variables, by the lower bounds and the ranks of arrays. A rank from 255 on is answered as want of memory.
pub(crate) fn shapes(
    alloc: Global,
    count: usize,
    lows: &[(VarId, i32, i32)],
    ranks: &[(VarId, u8)],
) -> Result<Vec<ArrayShape>, Mem>
    ensures exact { IfOk result (λ shapes. are_exact ranks.now ≡ true) }
    ensures at { IfOk result (λ shapes. (v : ℕ) → v < count → shape_at shapes.items v ≡ shape_of lows.now ranks.now v) }
{
    if !are_exact(ranks) {
        return Err(Mem);
    }
    Ok(put_all(alloc, count, lows, ranks)?)
}
