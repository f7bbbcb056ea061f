//! Variables that are changed, or a part of which is, or that are passed on by reference.
ghost use Rattle.std.specs.Prelude.{◌≡◌, ◌++◌, OnOk, map, option_to_list};
ghost use Rattle.std.specs.List.{flat_map};
ghost use Rattle.bound_tree.specs.View.{expr_of, passed_of, shown, shown_line};
ghost use Rattle.bound_facts.specs.Effects.{passed_roots, stored_roots, touched_items};
ghost use Rattle.bound_facts.specs.Node.{args_at, root, root_variable};

use crate::lines::{stores, used};
use crate::node::{passed_root, root, root_variable};
use bound_facts::{LineItems, args_at};
use bound_tree::{BoundArg, BoundExpr, LineRef};
use std::alloc::Global;
use up_base::Mem;

fn push_some(v: Option<u32>, to: &mut Vec<u32>) -> Result<(), Mem>
    ensures { OnOk result (to.new.items ≡ to.old.items ++ option_to_list v) }
{
    match v {
        Some(v) => Ok(to.push(v)?),
        None => Ok(()),
    }
}

fn push_roots(stores: &[&BoundExpr], to: &mut Vec<u32>) -> Result<(), Mem>
    ensures { OnOk result (to.new.items ≡ to.old.items ++ flat_map (λ e. option_to_list (root_variable (root e))) (map shown stores.now)) }
{
    for e in stores {
        push_some(root_variable(root(e)), to)?;
    }
    Ok(())
}

fn push_stored(alloc: Global, line: &LineRef, to: &mut Vec<u32>) -> Result<(), Mem>
    ensures { OnOk result (to.new.items ≡ to.old.items ++ stored_roots (shown_line line.now)) }
{
    let stores = stores(alloc, line)?;
    Ok(push_roots(&stores, to)?)
}

fn push_passed(args: &[BoundArg], to: &mut Vec<u32>) -> Result<(), Mem>
    ensures { OnOk result (to.new.items ≡ to.old.items ++ passed_roots (passed_of args.now)) }
{
    for arg in args {
        push_some(passed_root(arg), to)?;
    }
    Ok(())
}

fn push_all_passed(nodes: &[&BoundExpr], to: &mut Vec<u32>) -> Result<(), Mem>
    ensures { OnOk result (to.new.items ≡ to.old.items ++ flat_map (λ e. passed_roots (args_at e)) (map shown nodes.now)) }
{
    for e in nodes {
        push_passed(args_at(e), to)?;
    }
    Ok(())
}

/// These variables.
#[derive(Clone, Copy)]
pub(crate) struct Touched {
    pub alloc: Global,
}

impl LineItems for Touched {
    type Item = u32;

    ghost items = { λ s i line. touched_items i line };

    fn push(
        &self,
        _procedure: u32,
        line: &LineRef,
        nodes: &[&BoundExpr],
        to: &mut Vec<u32>,
    ) -> Result<(), Mem> {
        push_stored(self.alloc, line, to)?;
        push_all_passed(used(line, nodes), to)?;
        Ok(())
    }
}
