//! The items of a Case, each of which takes one or two of the line's expressions.
ghost use Rattle.std.specs.Prelude.{◌≡◌, IfOk, map};
ghost use Rattle.vb_tree.specs.View as source;
ghost use Rattle.bound_tree.specs.View.{expr_of};
ghost use Rattle.net_tree.specs.Tree as net;
ghost use Rattle.net_tree.specs.View.{case_item_of, exp_of, line_of};
ghost use Rattle.written_trees.specs.Lines as rows;
ghost use Rattle.written_rows.specs.View.{scope_of};
ghost use Rattle.written_lines.specs.Cases.{behind_item, case_item};

use bound_tree::BoundExpr;
use net_tree::{NetBin, NetCase, NetExpr, NetLine};
use std::alloc::Global;
use up_base::{Mem, Sequence};
use vb_tree::{BinOp, CaseItem6};
use written_exprs::written_exp;
use written_rows::Scope;

/// The first of a line's expressions; Nothing where there is none.
pub(crate) fn first_exp(alloc: Global, scope: &Scope, exprs: &[BoundExpr]) -> Result<NetExpr, Mem>
    ensures { IfOk result (λ a. exp_of a ≡ rows.first_exp (scope_of scope.now) (map expr_of exprs.now)) }
{
    match exprs {
        [e, ..] => Ok(written_exp(alloc, scope, e)?),
        [] => Ok(NetExpr::Nothing),
    }
}

fn rest_of(exprs: &[BoundExpr]) -> &[BoundExpr]
    ensures { map expr_of result.now ≡ rows.rest_of (map expr_of exprs.now) }
{
    match exprs {
        [_, rest @ ..] => rest,
        [] => &[],
    }
}

fn comparison(operator: BinOp) -> NetBin
    ensures { result ≡ rows.comparison operator }
{
    match operator {
        BinOp::NotEqual => NetBin::NotEqual,
        BinOp::Less => NetBin::Less,
        BinOp::Greater => NetBin::Greater,
        BinOp::LessEqual => NetBin::LessEqual,
        BinOp::GreaterEqual => NetBin::GreaterEqual,
        _ => NetBin::Equal,
    }
}

fn range(alloc: Global, scope: &Scope, exprs: &[BoundExpr]) -> Result<NetCase, Mem>
    ensures { IfOk result (λ c. case_item_of c ≡ net.case_range (rows.first_exp (scope_of scope.now) (map expr_of exprs.now)) (rows.first_exp (scope_of scope.now) (rows.rest_of (map expr_of exprs.now)))) }
{
    let lower = first_exp(alloc, scope, exprs)?;
    let upper = first_exp(alloc, scope, rest_of(exprs))?;
    Ok(NetCase::Range(lower, upper))
}

fn case_item(
    alloc: Global,
    scope: &Scope,
    item: &CaseItem6,
    exprs: &[BoundExpr],
) -> Result<NetCase, Mem>
    ensures { IfOk result (λ c. case_item_of c ≡ case_item (scope_of scope.now) (source.case_item_of item.now) (map expr_of exprs.now)) }
{
    match item {
        CaseItem6::Value(_) => Ok(NetCase::Value(first_exp(alloc, scope, exprs)?)),
        CaseItem6::Range(_, _) => Ok(range(alloc, scope, exprs)?),
        CaseItem6::Is(operator, _) => {
            let a = first_exp(alloc, scope, exprs)?;
            Ok(NetCase::Is(comparison(*operator), a))
        }
    }
}

// The expressions behind those of an item.
fn behind_item<'a>(item: &CaseItem6, exprs: &'a [BoundExpr]) -> &'a [BoundExpr]
    ensures { map expr_of result.now ≡ behind_item (source.case_item_of item.now) (map expr_of exprs.now) }
{
    match item {
        CaseItem6::Value(_) => rest_of(exprs),
        CaseItem6::Range(_, _) => rest_of(rest_of(exprs)),
        CaseItem6::Is(_, _) => rest_of(exprs),
    }
}

fn case_items(
    alloc: Global,
    scope: &Scope,
    items: &[CaseItem6],
    exprs: &[BoundExpr],
) -> Result<Vec<NetCase>, Mem>
    ensures { IfOk result (λ v. map case_item_of v.items ≡ rows.case_items (scope_of scope.now) (map source.case_item_of items.now) (map expr_of exprs.now)) }
{
    let mut all = Vec::new(alloc);
    let mut rest = exprs;
    for item in items {
        all.push(case_item(alloc, scope, item, rest)?)?;
        rest = behind_item(item, rest);
    }
    Ok(all)
}

/// A Case.
pub(crate) fn case_line(
    alloc: Global,
    scope: &Scope,
    items: &[CaseItem6],
    exprs: &[BoundExpr],
) -> Result<NetLine, Mem>
    ensures { IfOk result (λ l. line_of l ≡ net.case_line (rows.case_items (scope_of scope.now) (map source.case_item_of items.now) (map expr_of exprs.now))) }
{
    let items = case_items(alloc, scope, items, exprs)?;
    Ok(NetLine::Case(Sequence::from_vec(items)))
}
