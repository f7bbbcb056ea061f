//! Which arrays lines tie: those of which one is assigned whole to the other or is given to it.
ghost use Rattle.std.specs.Prelude.{◌≡◌, ◌++◌, ◌∷◌, [], Option, OnOk, IfOk, map};
ghost use Rattle.std.specs.List.{flat_map};
ghost use Rattle.vb_tree.specs.View.{form_of};
ghost use Rattle.bound_tree.specs.Lines.{lines_of};
ghost use Rattle.bound_tree.specs.View.{argument_of, declarations_of, expr_of, passed_of, program_of, shown, shown_line};
ghost use Rattle.bound_facts.specs.Bounds.{argument_tie, argument_ties, node_ties, store_ties, tie, tie_items};
ghost use Rattle.bound_facts.specs.Items.{project_items};
ghost use Rattle.array_bounds.specs.Givens.{stored_tie};

use crate::arrays::{array_at, given_expr, param, params_of};
use crate::numbers::index;
use bound_facts::{LineItems, args_at, called, push_items};
use bound_tree::{BoundArg, BoundExpr, Declared, LineRef};
use std::alloc::Global;
use up_base::Mem;
use vb_tree::{Form6, VarId};

fn push_pair(a: usize, b: usize, to: &mut Vec<(u32, u32)>) -> Result<(), Mem>
    ensures { OnOk result (to.new.items ≡ to.old.items ++ (a, b) ∷ []) }
{
    let first = index(a)?;
    let second = index(b)?;
    Ok(to.push((first, second))?)
}

fn push_tie(a: Option<usize>, b: Option<usize>, to: &mut Vec<(u32, u32)>) -> Result<(), Mem>
    ensures { OnOk result (to.new.items ≡ to.old.items ++ tie a b) }
{
    match (a, b) {
        (Some(a), Some(b)) => Ok(push_pair(a, b, to)?),
        _ => Ok(()),
    }
}

fn push_argument(
    declared: &Declared,
    w: Option<VarId>,
    arg: &BoundArg,
    to: &mut Vec<(u32, u32)>,
) -> Result<(), Mem>
    ensures { OnOk result (to.new.items ≡ to.old.items ++ argument_tie (declarations_of declared.now) w (argument_of arg.now)) }
{
    match w {
        Some(w) => {
            match arg {
                BoundArg::ByValue(e) => {
                    Ok(push_tie(array_at(declared, e), Some(w.0 as usize), to)?)
                }
                BoundArg::ByReference(e) => {
                    Ok(push_tie(array_at(declared, e), Some(w.0 as usize), to)?)
                }
            }
        }
        None => Ok(()),
    }
}

fn push_arguments(
    declared: &Declared,
    params: &[VarId],
    args: &[BoundArg],
    to: &mut Vec<(u32, u32)>,
) -> Result<(), Mem>
    ensures { OnOk result (to.new.items ≡ to.old.items ++ argument_ties (declarations_of declared.now) params.now 0 (passed_of args.now)) }
{
    for (i, arg) in args.iter().enumerate() {
        push_argument(declared, param(params, i), arg, to)?;
    }
    Ok(())
}

fn push_node(declared: &Declared, e: &BoundExpr, to: &mut Vec<(u32, u32)>) -> Result<(), Mem>
    ensures { OnOk result (to.new.items ≡ to.old.items ++ node_ties (declarations_of declared.now) (expr_of e.now)) }
{
    let params = params_of(declared.procs.as_slice(), called(e));
    Ok(push_arguments(declared, params, args_at(e), to)?)
}

fn push_nodes(
    declared: &Declared,
    nodes: &[&BoundExpr],
    to: &mut Vec<(u32, u32)>,
) -> Result<(), Mem>
    ensures { OnOk result (to.new.items ≡ to.old.items ++ flat_map (node_ties (declarations_of declared.now)) (map shown nodes.now)) }
{
    for e in nodes {
        push_node(declared, e, to)?;
    }
    Ok(())
}

fn push_stored(
    declared: &Declared,
    exprs: &[BoundExpr],
    to: &mut Vec<(u32, u32)>,
) -> Result<(), Mem>
    ensures { OnOk result (to.new.items ≡ to.old.items ++ stored_tie (declarations_of declared.now) (map expr_of exprs.now)) }
{
    match exprs {
        [target, value, ..] => {
            Ok(push_tie(array_at(declared, target), array_at(declared, value), to)?)
        }
        _ => Ok(()),
    }
}

#[tactic(auto, using(crate::proofs::Uses::store_is))]
fn push_store(
    declared: &Declared,
    form: &Form6,
    exprs: &[BoundExpr],
    to: &mut Vec<(u32, u32)>,
) -> Result<(), Mem>
    ensures { OnOk result (to.new.items ≡ to.old.items ++ store_ties (declarations_of declared.now) (form_of form.now) (map expr_of exprs.now)) }
{
    match form {
        Form6::Assign(_, _) => Ok(push_stored(declared, exprs, to)?),
        _ => Ok(()),
    }
}

/// The pairs of arrays that lines tie.
#[derive(Clone, Copy)]
struct TieItems<'a> {
    declared: &'a Declared,
}

impl LineItems for TieItems<'_> {
    type Item = (u32, u32);

    ghost items = { λ s i l. tie_items (declarations_of s.declared.now) i l };

    #[tactic(auto, using(crate::proofs::Uses::ties_of_uses))]
    fn push(
        &self,
        _procedure: u32,
        line: &LineRef,
        nodes: &[&BoundExpr],
        to: &mut Vec<(u32, u32)>,
    ) -> Result<(), Mem> {
        push_store(
            self.declared,
            &line.source.form,
            line.bound.exprs.as_slice(),
            to,
        )?;
        push_nodes(self.declared, nodes, to)?;
        Ok(())
    }
}

/// All pairs.
pub(crate) fn ties(
    alloc: Global,
    declared: &Declared,
    lines: &[Vec<LineRef>],
) -> Result<Vec<(u32, u32)>, Mem>
    ensures { IfOk result (λ v. v.items ≡ project_items (tie_items (declarations_of declared.now)) (map lines_of lines.now)) }
{
    let mut pairs = Vec::new(alloc);
    push_items(alloc, lines, &TieItems { declared }, &mut pairs)?;
    Ok(pairs)
}
