//! Lines of which the parts are already written.
ghost use Rattle.std.specs.Prelude.{◌≡◌, IfOk};
ghost use Rattle.net_tree.specs.Tree as net;
ghost use Rattle.net_tree.specs.View.{exp_of, exps_of, line_of};
ghost use Rattle.written_trees.specs.Lines.{no_line};
ghost use Rattle.written_trees.specs.Names as names;

use net_tree::{NetExpr, NetLine, Path};
use std::alloc::Global;
use up_base::{Mem, Sequence};
use written_rows::support;

/// An assignment.
pub(crate) fn assignment(alloc: Global, target: NetExpr, value: NetExpr) -> Result<NetLine, Mem>
    ensures { IfOk result (λ l. line_of l ≡ net.assign (exp_of target) (exp_of value)) }
{
    let target = Box::new(alloc, target)?;
    let value = Box::new(alloc, value)?;
    Ok(NetLine::Assign(target, value))
}

/// A call as a line.
pub(crate) fn call_line(
    alloc: Global,
    callee: NetExpr,
    arguments: Vec<NetExpr>,
) -> Result<NetLine, Mem>
    ensures { IfOk result (λ l. line_of l ≡ net.call (exp_of callee) (exps_of arguments.items)) }
{
    let callee = Box::new(alloc, callee)?;
    Ok(NetLine::Call(callee, Sequence::from_vec(arguments)))
}

/// A call of a function of the support module as a line.
pub(crate) fn support_line(
    alloc: Global,
    name: &[u8],
    arguments: Vec<NetExpr>,
) -> Result<NetLine, Mem>
    ensures { IfOk result (λ l. line_of l ≡ net.call (net.path (names.support name.now)) (exps_of arguments.items)) }
{
    let path = support(alloc, name)?;
    Ok(call_line(alloc, NetExpr::Path(path), arguments)?)
}

/// What stands where nothing is written for a line: the empty call.
pub(crate) fn no_line(alloc: Global) -> Result<NetLine, Mem>
    ensures { IfOk result (λ l. line_of l ≡ no_line) }
{
    let nothing = Path::new(alloc);
    Ok(call_line(alloc, NetExpr::Path(nothing), Vec::new(alloc))?)
}
