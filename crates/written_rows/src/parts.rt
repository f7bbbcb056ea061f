//! What expressions are made of.
ghost use Rattle.std.specs.Prelude.{◌≡◌, ◌∷◌, ◌++◌, [], IfOk};
ghost use Rattle.net_tree.specs.View.{exp_of, exps_of};
ghost use Rattle.net_tree.specs.Tree as net;
ghost use Rattle.written_trees.specs.Names as names;
ghost use Rattle.written_trees.specs.Conversions as rows;

use crate::names::name_of;
use net_tree::{CastWord, NetBin, NetExpr, NetUn, Path};
use std::alloc::Global;
use up_base::Mem;

/// A conversion of an expression.
pub fn cast(alloc: Global, word: CastWord, a: NetExpr) -> Result<NetExpr, Mem>
    ensures { IfOk result (λ e. exp_of e ≡ net.cast word (exp_of a)) }
{
    Ok(NetExpr::Cast(word, Box::new(alloc, a)?))
}

/// An operator before an expression.
pub fn unary(alloc: Global, operator: NetUn, a: NetExpr) -> Result<NetExpr, Mem>
    ensures { IfOk result (λ e. exp_of e ≡ net.unary operator (exp_of a)) }
{
    Ok(NetExpr::Unary(operator, Box::new(alloc, a)?))
}

/// An operator between two expressions.
pub fn binary(alloc: Global, operator: NetBin, a: NetExpr, b: NetExpr) -> Result<NetExpr, Mem>
    ensures { IfOk result (λ e. exp_of e ≡ net.binary operator (exp_of a) (exp_of b)) }
{
    let a = Box::new(alloc, a)?;
    let b = Box::new(alloc, b)?;
    Ok(NetExpr::Binary(operator, a, b))
}

/// An expression in parentheses.
pub fn paren(alloc: Global, a: NetExpr) -> Result<NetExpr, Mem>
    ensures { IfOk result (λ e. exp_of e ≡ net.paren (exp_of a)) }
{
    Ok(NetExpr::Paren(Box::new(alloc, a)?))
}

/// A list of one expression.
pub fn one(alloc: Global, a: NetExpr) -> Result<Vec<NetExpr>, Mem>
    ensures { IfOk result (λ list. exps_of list.items ≡ rows.one (exp_of a)) }
{
    Ok(vec![in alloc; a]?)
}

/// A list of two expressions.
pub fn two(alloc: Global, a: NetExpr, b: NetExpr) -> Result<Vec<NetExpr>, Mem>
    ensures { IfOk result (λ list. exps_of list.items ≡ rows.two (exp_of a) (exp_of b)) }
{
    Ok(vec![in alloc; a, b]?)
}

/// A list of three expressions.
pub fn three(alloc: Global, a: NetExpr, b: NetExpr, c: NetExpr) -> Result<Vec<NetExpr>, Mem>
    ensures { IfOk result (λ list. exps_of list.items ≡ rows.three (exp_of a) (exp_of b) (exp_of c)) }
{
    Ok(vec![in alloc; a, b, c]?)
}

/// An expression with an argument list.
#[tactic(auto, using(net_tree::proofs::Views::exps_hidden))]
pub fn call_of(alloc: Global, callee: NetExpr, arguments: Vec<NetExpr>) -> Result<NetExpr, Mem>
    ensures { IfOk result (λ e. exp_of e ≡ net.call_of (exp_of callee) (exps_of arguments.items)) }
{
    Ok(NetExpr::Call(Box::new(alloc, callee)?, arguments))
}

/// A name by itself as a path.
pub fn alone(alloc: Global, name: &[u8]) -> Result<Path, Mem>
    ensures { IfOk result (λ path. path ≡ names.alone name.now) }
{
    let mut path = Vec::with_capacity(alloc, 1)?;
    path.push(name_of(alloc, name)?)?;
    Ok(Path::from_vec(path))
}

/// A name behind another as a path.
pub(crate) fn behind(alloc: Global, first: &[u8], name: &[u8]) -> Result<Path, Mem>
    ensures { IfOk result (λ path. path ≡ first.now ∷ name.now ∷ []) }
{
    let mut path = Vec::with_capacity(alloc, 2)?;
    path.push(name_of(alloc, first)?)?;
    path.push(name_of(alloc, name)?)?;
    Ok(Path::from_vec(path))
}

/// The path of a function of the support module.
pub fn support(alloc: Global, name: &[u8]) -> Result<Path, Mem>
    ensures { IfOk result (λ path. path ≡ names.support name.now) }
{
    Ok(behind(alloc, b"UpgradeSupport", name)?)
}

/// The path of a function of the run-time library on texts.
pub fn strings(alloc: Global, name: &[u8]) -> Result<Path, Mem>
    ensures { IfOk result (λ path. path ≡ names.strings name.now) }
{
    let mut path = Vec::with_capacity(alloc, 4)?;
    path.push(name_of(alloc, b"Microsoft")?)?;
    path.push(name_of(alloc, b"VisualBasic")?)?;
    path.push(name_of(alloc, b"Strings")?)?;
    path.push(name_of(alloc, name)?)?;
    Ok(Path::from_vec(path))
}

/// A call of a function of the support module.
pub fn support_call(alloc: Global, name: &[u8], arguments: Vec<NetExpr>) -> Result<NetExpr, Mem>
    ensures { IfOk result (λ e. exp_of e ≡ rows.support_call name.now (exps_of arguments.items)) }
{
    let path = support(alloc, name)?;
    Ok(call_of(alloc, NetExpr::Path(path), arguments)?)
}

// A path with one more name.
fn longer(alloc: Global, path: Path, name: &[u8]) -> Result<Path, Mem>
    ensures { IfOk result (λ longer. longer ≡ path ++ name.now ∷ []) }
{
    let name = name_of(alloc, name)?;
    let mut path = path;
    path.push(name)?;
    Ok(path)
}

// A member of what isn't written as a path.
fn dot(alloc: Global, of: NetExpr, name: &[u8]) -> Result<NetExpr, Mem>
    ensures { IfOk result (λ e. exp_of e ≡ net.dot (exp_of of) name.now) }
{
    let of = Box::new(alloc, of)?;
    Ok(NetExpr::Dot(of, name_of(alloc, name)?))
}

/// A member of what is written as an expression: of a path it makes a longer path.
pub fn member(alloc: Global, of: NetExpr, name: &[u8]) -> Result<NetExpr, Mem>
    ensures { IfOk result (λ e. exp_of e ≡ names.member (exp_of of) name.now) }
{
    match of {
        NetExpr::Path(path) => Ok(NetExpr::Path(longer(alloc, path, name)?)),
        of => Ok(dot(alloc, of, name)?),
    }
}
