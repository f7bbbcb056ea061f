//! What functions of the support module are made of.
ghost use Rattle.std.specs.Prelude.{◌≡◌, ◌∷◌, [], codes, map, option_map, IfOk};
ghost use Rattle.net_tree.specs.Tree as net;
ghost use Rattle.net_tree.specs.Types as types;
ghost use Rattle.net_tree.specs.View.{dim_of, exp_of, exps_of, line_of, param_of, procedure_of, type_name_of};
ghost use Rattle.written_trees.specs.Conversions.{call_path};
ghost use Rattle.written_trees.specs.Names as names;
ghost use Rattle.written_trees.specs.Names.{alone};
ghost use Rattle.written_trees.specs.Puts.{array_copy};
ghost use Rattle.written_trees.specs.Supports as rows;

use net_tree::{
    NetClose, NetDim, NetExpr, NetHead, NetLine, NetParam, NetPassing, NetProc, NetType,
    NetVariable, NetVisibility, Path,
};
use std::alloc::Global;
use up_base::{Mem, Name};
use written_rows::{alone, call_of, member, name_of};

/// A name by itself.
pub(crate) fn local_exp(alloc: Global, name: &[u8]) -> Result<NetExpr, Mem>
    ensures { IfOk result (λ e. exp_of e ≡ rows.local_exp name.now) }
{
    Ok(NetExpr::Path(alone(alloc, name)?))
}

fn pair(alloc: Global, of: &[u8], name: &[u8]) -> Result<Path, Mem>
    ensures { IfOk result (λ path. path ≡ of.now ∷ name.now ∷ []) }
{
    let mut path = Vec::with_capacity(alloc, 2)?;
    path.push(name_of(alloc, of)?)?;
    path.push(name_of(alloc, name)?)?;
    Ok(Path::from_vec(path))
}

/// A field of a local.
pub(crate) fn field_path(alloc: Global, of: &[u8], name: &[u8]) -> Result<NetExpr, Mem>
    ensures { IfOk result (λ e. exp_of e ≡ rows.field_path of.now name.now) }
{
    Ok(NetExpr::Path(pair(alloc, of, name)?))
}

/// A call of a function of the same module.
pub(crate) fn call_alone(
    alloc: Global,
    name: &[u8],
    arguments: Vec<NetExpr>,
) -> Result<NetExpr, Mem>
    ensures { IfOk result (λ e. exp_of e ≡ call_path (alone name.now) (exps_of arguments.items)) }
{
    let callee = local_exp(alloc, name)?;
    Ok(call_of(alloc, callee, arguments)?)
}

fn cloned(alloc: Global, a: NetExpr) -> Result<NetExpr, Mem>
    ensures { IfOk result (λ e. exp_of e ≡ net.call_of (names.member (exp_of a) (codes "Clone")) net.no_exps) }
{
    let method = member(alloc, a, b"Clone")?;
    Ok(call_of(alloc, method, Vec::new(alloc))?)
}

fn ctype(alloc: Global, a: NetExpr, ty: NetType) -> Result<NetExpr, Mem>
    ensures { IfOk result (λ e. exp_of e ≡ net.ctype (exp_of a) (type_name_of ty)) }
{
    Ok(NetExpr::CType(Box::new(alloc, a)?, ty))
}

/// An array is copied as a whole.
pub(crate) fn array_copy(alloc: Global, ty: NetType, a: NetExpr) -> Result<NetExpr, Mem>
    ensures { IfOk result (λ e. exp_of e ≡ array_copy (type_name_of ty) (exp_of a)) }
{
    let copy = cloned(alloc, a)?;
    Ok(ctype(alloc, copy, ty)?)
}

/// A new array without items of its own.
#[tactic(auto, using(net_tree::proofs::Views::exps_hidden))]
pub(crate) fn new_array(element: NetType, extents: Vec<NetExpr>) -> NetExpr
    ensures { exp_of result ≡ net.new_array (type_name_of element) (exps_of extents.items) }
{
    NetExpr::NewArray(element, extents)
}

/// A new object of a class.
#[tactic(auto, using(net_tree::proofs::Views::exps_hidden))]
pub(crate) fn new_object(alloc: Global, class: NetType) -> NetExpr
    ensures { exp_of result ≡ net.new_object (type_name_of class) net.no_exps }
{
    NetExpr::NewObject(class, Vec::new(alloc))
}

/// An assignment.
pub(crate) fn assignment(alloc: Global, target: NetExpr, value: NetExpr) -> Result<NetLine, Mem>
    ensures { IfOk result (λ l. line_of l ≡ net.assign (exp_of target) (exp_of value)) }
{
    let target = Box::new(alloc, target)?;
    let value = Box::new(alloc, value)?;
    Ok(NetLine::Assign(target, value))
}

/// The head of an If.
pub(crate) fn if_head(alloc: Global, condition: NetExpr) -> Result<NetLine, Mem>
    ensures { IfOk result (λ l. line_of l ≡ net.if_head (exp_of condition)) }
{
    Ok(NetLine::If(Box::new(alloc, condition)?))
}

fn param(alloc: Global, passing: NetPassing, name: &[u8], ty: NetType) -> Result<NetParam, Mem>
    ensures { IfOk result (λ p. param_of p ≡ record { passing = passing; name = name.now; ty = type_name_of ty }) }
{
    Ok(NetParam {
        passing,
        name: name_of(alloc, name)?,
        ty,
    })
}

/// A single parameter.
pub(crate) fn parameter(
    alloc: Global,
    passing: NetPassing,
    name: &[u8],
    ty: NetType,
) -> Result<Vec<NetParam>, Mem>
    ensures { IfOk result (λ params. map param_of params.items ≡ rows.parameter passing name.now (type_name_of ty)) }
{
    let param = param(alloc, passing, name, ty)?;
    Ok(vec![in alloc; param]?)
}

/// The local for the result, with what it begins with where that is written.
pub(crate) fn result_local(
    alloc: Global,
    ty: NetType,
    value: Option<Box<NetExpr>>,
) -> Result<Vec<NetDim>, Mem>
    ensures { IfOk result (λ dims. map dim_of dims.items ≡ rows.result_local (type_name_of ty) (option_map (λ e. exp_of e.value) value)) }
{
    let name = name_of(alloc, b"r")?;
    Ok(vec![in alloc; NetDim::Local(NetVariable { name, ty, value })]?)
}

/// A function of the support module.
pub(crate) fn function_with(
    name: Name,
    params: Vec<NetParam>,
    ty: NetType,
    prologue: Vec<NetDim>,
    lines: Vec<NetLine>,
) -> NetProc
    ensures { procedure_of result ≡ rows.function_with name (map param_of params.items) (type_name_of ty) (map dim_of prologue.items) (map line_of lines.items) }
{
    NetProc {
        head: NetHead::Function(NetVisibility::Public, name, params, ty),
        prologue,
        lines,
        close: NetClose::EndFunction,
    }
}
