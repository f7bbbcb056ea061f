//! The extents of arrays.
ghost use Rattle.std.specs.Prelude.{◌≡◌, map, replicate, IfOk};
ghost use Rattle.net_tree.specs.View.{exp_of, exps_of};
ghost use Rattle.written_trees.specs.Lines as lines;
ghost use Rattle.written_trees.specs.Prologues as rows;
ghost use Rattle.support_modules.specs.Extents.{extent_between, none};

use net_tree::{NetExpr, NetLit};
use std::alloc::Global;
use up_base::Mem;

// An extent, which is -1 where there is no element.
fn extent(z: i32) -> NetExpr
    ensures { exp_of result ≡ lines.extent z }
{
    NetExpr::Lit(NetLit::Integer(z, false))
}

// As many extents of an empty array as it has dimensions.
#[tactic(auto, using(crate::proofs::ExtentLists::empty_listed))]
fn empty_extents(alloc: Global, rank: u8) -> Result<Vec<NetExpr>, Mem>
    ensures { IfOk result (λ list. exps_of list.items ≡ lines.empty_extents rank) }
{
    Ok(empty_list(alloc, rank)?)
}

fn empty_list(alloc: Global, rank: u8) -> Result<Vec<NetExpr>, Mem>
    ensures { IfOk result (λ list. map exp_of list.items ≡ replicate rank none) }
{
    let mut list = Vec::new(alloc);
    for _dimension in 0..rank {
        list.push(extent(-1))?;
    }
    Ok(list)
}

// The extent from a lower to an upper bound.
fn extent_between(bounds: (i32, i32)) -> Result<NetExpr, Mem>
    ensures { IfOk result (λ e. exp_of e ≡ extent_between bounds) }
{
    match bounds.1.checked_sub(bounds.0) {
        Some(z) => Ok(extent(z)),
        None => Err(Mem),
    }
}

fn fixed_list(alloc: Global, bounds: &[(i32, i32)]) -> Result<Vec<NetExpr>, Mem>
    ensures { IfOk result (λ list. map exp_of list.items ≡ map extent_between bounds.now) }
{
    let mut list = Vec::new(alloc);
    for b in bounds {
        list.push(extent_between(*b)?)?;
    }
    Ok(list)
}

// The extents of a fixed array.
#[tactic(auto, using(crate::proofs::ExtentLists::fixed_listed))]
fn fixed_extents(alloc: Global, bounds: &[(i32, i32)]) -> Result<Vec<NetExpr>, Mem>
    ensures { IfOk result (λ list. exps_of list.items ≡ rows.fixed_extents bounds.now) }
{
    Ok(fixed_list(alloc, bounds)?)
}

/// The extents of an array; a dynamic one has no element at first.
pub(crate) fn extents(alloc: Global, rank: u8, bounds: &[(i32, i32)]) -> Result<Vec<NetExpr>, Mem>
    ensures { IfOk result (λ list. exps_of list.items ≡ rows.extents rank bounds.now) }
{
    match bounds {
        [] => Ok(empty_extents(alloc, rank)?),
        [_, ..] => Ok(fixed_extents(alloc, bounds)?),
    }
}
