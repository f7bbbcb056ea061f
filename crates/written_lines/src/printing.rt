//! The items of a Debug.Print as one text.
ghost use Rattle.std.specs.Prelude.{◌≡◌, IfOk, codes, map};
ghost use Rattle.vb_tree.specs.BoundView.{type_of};
ghost use Rattle.bound_tree.specs.View.{expr_of};
ghost use Rattle.net_tree.specs.declared.expression.CastWord.TheVariants as word;
ghost use Rattle.net_tree.specs.declared.expression.NetBin.TheVariants as op;
ghost use Rattle.net_tree.specs.Tree as net;
ghost use Rattle.net_tree.specs.View.{exp_of, line_of};
ghost use Rattle.written_trees.specs.Conversions as conversions;
ghost use Rattle.written_trees.specs.Lines as rows;
ghost use Rattle.written_trees.specs.Names as names;
ghost use Rattle.written_rows.specs.View.{scope_of};

use crate::parts::support_line;
use bound_tree::BoundExpr;
use net_tree::{CastWord, NetBin, NetExpr, NetLine};
use std::alloc::Global;
use up_base::Mem;
use vb_tree::Type6;
use written_exprs::written_exp;
use written_rows::{Scope, binary, cast, one, support_call, text};

// A number as the text that is printed for it, by a function of the support module.
fn text_by(alloc: Global, name: &[u8], a: NetExpr) -> Result<NetExpr, Mem>
    ensures { IfOk result (λ e. exp_of e ≡ conversions.support_call name.now (conversions.one (exp_of a))) }
{
    let arguments = one(alloc, a)?;
    Ok(support_call(alloc, name, arguments)?)
}

fn whole_text(alloc: Global, a: NetExpr) -> Result<NetExpr, Mem>
    ensures { IfOk result (λ e. exp_of e ≡ conversions.support_call (codes "PrintNum") (conversions.one (net.cast word.CDec (exp_of a)))) }
{
    let decimal = cast(alloc, CastWord::CDec, a)?;
    Ok(text_by(alloc, b"PrintNum", decimal)?)
}

// An item of a type: numbers have their own text, others are Strings.
fn printed(alloc: Global, ty: &Type6, a: NetExpr) -> Result<NetExpr, Mem>
    ensures { IfOk result (λ e. exp_of e ≡ rows.printed (type_of ty.now) (exp_of a)) }
{
    match ty {
        Type6::Boolean => Ok(cast(alloc, CastWord::CStr, a)?),
        Type6::Byte => Ok(whole_text(alloc, a)?),
        Type6::Integer => Ok(whole_text(alloc, a)?),
        Type6::Long => Ok(whole_text(alloc, a)?),
        Type6::Currency => Ok(text_by(alloc, b"PrintNum", a)?),
        Type6::Variant => Ok(text_by(alloc, b"PrintVar", a)?),
        _ => Ok(a),
    }
}

fn printed_item(alloc: Global, scope: &Scope, e: &BoundExpr) -> Result<NetExpr, Mem>
    ensures { IfOk result (λ r. exp_of r ≡ rows.printed_item (scope_of scope.now) (expr_of e.now)) }
{
    let a = written_exp(alloc, scope, e)?;
    Ok(printed(alloc, &e.ty, a)?)
}

// What is joined so far, and an item behind it.
fn then_item(alloc: Global, scope: &Scope, so_far: NetExpr, e: &BoundExpr) -> Result<NetExpr, Mem>
    ensures { IfOk result (λ r. exp_of r ≡ net.binary op.Concat (exp_of so_far) (rows.printed_item (scope_of scope.now) (expr_of e.now))) }
{
    let item = printed_item(alloc, scope, e)?;
    Ok(binary(alloc, NetBin::Concat, so_far, item)?)
}

// Items behind a first one, joined from the left.
fn joined_items(
    alloc: Global,
    scope: &Scope,
    first: NetExpr,
    items: &[BoundExpr],
) -> Result<NetExpr, Mem>
    ensures { IfOk result (λ r. exp_of r ≡ rows.joined_items (scope_of scope.now) (exp_of first) (map expr_of items.now)) }
{
    let mut so_far = first;
    for e in items {
        so_far = then_item(alloc, scope, so_far, e)?;
    }
    Ok(so_far)
}

// The items as one text; no item is the empty text.
fn items_exp(alloc: Global, scope: &Scope, items: &[BoundExpr]) -> Result<NetExpr, Mem>
    ensures { IfOk result (λ r. exp_of r ≡ rows.items_exp (scope_of scope.now) (map expr_of items.now)) }
{
    match items {
        [] => Ok(text(alloc, &[])?),
        [first, others @ ..] => {
            let first = printed_item(alloc, scope, first)?;
            Ok(joined_items(alloc, scope, first, others)?)
        }
    }
}

// The function that prints: PrintPart where a separator ends the items.
fn print_name(ended: bool) -> &'static [u8]
    ensures { result.now ≡ rows.print_name ended }
{
    if ended { b"PrintPart" } else { b"PrintLine" }
}

/// A Debug.Print of items, and whether a separator ends them.
pub(crate) fn print_line(
    alloc: Global,
    scope: &Scope,
    items: &[BoundExpr],
    ended: bool,
) -> Result<NetLine, Mem>
    ensures { IfOk result (λ l. line_of l ≡ net.call (net.path (names.support (rows.print_name ended))) (conversions.one (rows.items_exp (scope_of scope.now) (map expr_of items.now)))) }
{
    let text = items_exp(alloc, scope, items)?;
    let arguments = one(alloc, text)?;
    Ok(support_line(alloc, print_name(ended), arguments)?)
}
