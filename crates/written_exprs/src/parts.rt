//! What expressions are made of.
ghost use Rattle.std.specs.Prelude.{◌≡◌, IfOk, OnOk, OnErr};
ghost use Rattle.net_tree.specs.View.{exp_of};
ghost use Rattle.net_tree.specs.Tree as net;
ghost use Rattle.net_tree.specs.Types as types;
ghost use Rattle.written_trees.specs.Conversions as rows;
ghost use Rattle.written_exprs.specs.Lists.{exps_before};

use net_tree::{NetExpr, NetType, Path};
use std::alloc::Global;
use up_base::Mem;
use written_rows::{one, support_call};

/// A call of a function of the support module without arguments.
pub(crate) fn support_call_of_none(alloc: Global, name: &[u8]) -> Result<NetExpr, Mem>
    ensures { IfOk result (λ e. exp_of e ≡ rows.support_call name.now net.no_exps) }
{
    Ok(support_call(alloc, name, Vec::new(alloc))?)
}

/// A call of a function of the support module with one argument.
pub(crate) fn support_call_of_one(alloc: Global, name: &[u8], a: NetExpr) -> Result<NetExpr, Mem>
    ensures { IfOk result (λ e. exp_of e ≡ rows.support_call name.now (rows.one (exp_of a))) }
{
    let arguments = one(alloc, a)?;
    Ok(support_call(alloc, name, arguments)?)
}

/// A new object of a class.
#[tactic(auto, using(net_tree::proofs::Views::exps_hidden))]
pub(crate) fn new_object(alloc: Global, class: Path) -> NetExpr
    ensures { exp_of result ≡ net.new_object (types.named class) net.no_exps }
{
    NetExpr::NewObject(NetType::Named(class), Vec::new(alloc))
}

/// Appends an expression. Want of memory is its only failure.
#[tactic(auto, using(crate::proofs::Pushes::exp_put))]
pub(crate) fn push_exp(a: NetExpr, to: &mut Vec<NetExpr>) -> Result<(), Mem>
    ensures { OnOk result ((more : net.Exps) → exps_before to.new.items more ≡ exps_before to.old.items (net.next_exp (exp_of a) more)) }
{
    Ok(to.push(a)?)
}
