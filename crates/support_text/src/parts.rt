//! What functions are made of.
ghost use Rattle.std.specs.Prelude.{◌≡◌, [], ◌∷◌, map, false, IfOk, Some};
ghost use Rattle.net_tree.specs.View.{exp_of, exps_of, line_of, dim_of, type_name_of};
ghost use Rattle.net_tree.specs.Tree as net;
ghost use Rattle.net_tree.specs.Types as types;
ghost use Rattle.support_text.specs.Steps.{simple_type};

use crate::step::SimpleType;
use net_tree::{
    CastWord, NetBin, NetDim, NetExpr, NetLine, NetLit, NetType, NetUn, NetVariable, Path,
};
use std::alloc::Global;
use up_base::{Mem, Name, Sequence, Wide};

/// The name of these bytes. Bytes that make none fail as want of memory does: a table has none such.
pub(crate) fn name(alloc: Global, bytes: &[u8]) -> Result<Name, Mem>
    ensures { IfOk result (λ name. name ≡ bytes.now) }
{
    match Name::make(alloc, bytes) {
        Ok(name) => Ok(name),
        Err(_) => Err(Mem),
    }
}

/// The path of these names.
pub(crate) fn path(alloc: Global, names: &[&[u8]]) -> Result<Path, Mem>
    ensures { IfOk result (λ path. path ≡ map (λ n. n.now) names.now) }
{
    let mut path = Sequence::with_capacity(alloc, names.len())?;
    for bytes in names {
        path.push(name(alloc, bytes)?)?;
    }
    Ok(path)
}

/// A name alone.
pub(crate) fn word(alloc: Global, bytes: &[u8]) -> Result<NetExpr, Mem>
    ensures { IfOk result (λ e. exp_of e ≡ net.path (bytes.now ∷ [])) }
{
    let mut path = Sequence::with_capacity(alloc, 1)?;
    path.push(name(alloc, bytes)?)?;
    Ok(NetExpr::Path(path))
}

/// A text of ASCII characters.
pub(crate) fn text(alloc: Global, ascii: &[u8]) -> Result<NetExpr, Mem>
    ensures { IfOk result (λ e. exp_of e ≡ net.lit (net.str ascii.now)) }
{
    let mut units = Vec::with_capacity(alloc, ascii.len())?;
    for c in ascii {
        units.push(u16::from(*c))?;
    }
    Ok(NetExpr::Lit(NetLit::Str(Wide::from_vec(units))))
}

/// A member of what an expression gives.
pub(crate) fn member(alloc: Global, object: NetExpr, bytes: &[u8]) -> Result<NetExpr, Mem>
    ensures { IfOk result (λ e. exp_of e ≡ net.dot (exp_of object) bytes.now) }
{
    let object = Box::new(alloc, object)?;
    Ok(NetExpr::Dot(object, name(alloc, bytes)?))
}

/// A conversion.
pub(crate) fn cast(alloc: Global, word: CastWord, a: NetExpr) -> Result<NetExpr, Mem>
    ensures { IfOk result (λ e. exp_of e ≡ net.cast word (exp_of a)) }
{
    Ok(NetExpr::Cast(word, Box::new(alloc, a)?))
}

/// An operator before an expression.
pub(crate) fn unary(alloc: Global, operator: NetUn, a: NetExpr) -> Result<NetExpr, Mem>
    ensures { IfOk result (λ e. exp_of e ≡ net.unary operator (exp_of a)) }
{
    Ok(NetExpr::Unary(operator, Box::new(alloc, a)?))
}

/// An operator between two expressions.
pub(crate) fn binary(
    alloc: Global,
    operator: NetBin,
    a: NetExpr,
    b: NetExpr,
) -> Result<NetExpr, Mem>
    ensures { IfOk result (λ e. exp_of e ≡ net.binary operator (exp_of a) (exp_of b)) }
{
    let a = Box::new(alloc, a)?;
    let b = Box::new(alloc, b)?;
    Ok(NetExpr::Binary(operator, a, b))
}

/// Whether an expression is of a type.
pub(crate) fn type_of(alloc: Global, a: NetExpr, ty: SimpleType) -> Result<NetExpr, Mem>
    ensures { IfOk result (λ e. exp_of e ≡ net.type_of (exp_of a) (simple_type ty)) }
{
    Ok(NetExpr::TypeOf(Box::new(alloc, a)?, ty.written()))
}

/// A call of what an expression stands for.
#[tactic(auto, using(net_tree::proofs::Views::exps_hidden))]
pub(crate) fn call(alloc: Global, callee: NetExpr, arguments: Vec<NetExpr>) -> Result<NetExpr, Mem>
    ensures { IfOk result (λ e. exp_of e ≡ net.call_of (exp_of callee) (exps_of arguments.items)) }
{
    let callee = Box::new(alloc, callee)?;
    Ok(NetExpr::Call(callee, arguments))
}

/// A new object of a class.
#[tactic(auto, using(net_tree::proofs::Views::exps_hidden))]
pub(crate) fn new_object(class: Path, arguments: Vec<NetExpr>) -> NetExpr
    ensures { exp_of result ≡ net.new_object (types.named class) (exps_of arguments.items) }
{
    NetExpr::NewObject(NetType::Named(class), arguments)
}

/// A list of one expression.
pub(crate) fn one(alloc: Global, a: NetExpr) -> Result<Vec<NetExpr>, Mem>
    ensures { IfOk result (λ list. exps_of list.items ≡ net.next_exp (exp_of a) net.no_exps) }
{
    let mut list = Vec::with_capacity(alloc, 1)?;
    list.push(a)?;
    Ok(list)
}

/// A list of two expressions.
pub(crate) fn both(alloc: Global, a: NetExpr, b: NetExpr) -> Result<Vec<NetExpr>, Mem>
    ensures { IfOk result (λ list. exps_of list.items ≡ net.next_exp (exp_of a) (net.next_exp (exp_of b) net.no_exps)) }
{
    let mut list = Vec::with_capacity(alloc, 2)?;
    list.push(a)?;
    list.push(b)?;
    Ok(list)
}

/// The line of a call.
pub(crate) fn call_line(
    alloc: Global,
    callee: NetExpr,
    arguments: Vec<NetExpr>,
) -> Result<NetLine, Mem>
    ensures { IfOk result (λ line. line_of line ≡ net.call (exp_of callee) (exps_of arguments.items)) }
{
    let callee = Box::new(alloc, callee)?;
    Ok(NetLine::Call(callee, Sequence::from_vec(arguments)))
}

/// An assignment to a name.
pub(crate) fn assignment(alloc: Global, target: &[u8], value: NetExpr) -> Result<NetLine, Mem>
    ensures { IfOk result (λ line. line_of line ≡ net.assign (net.path (target.now ∷ [])) (exp_of value)) }
{
    let value = Box::new(alloc, value)?;
    let target = Box::new(alloc, word(alloc, target)?)?;
    Ok(NetLine::Assign(target, value))
}

/// The head of an If.
pub(crate) fn if_line(alloc: Global, condition: NetExpr) -> Result<NetLine, Mem>
    ensures { IfOk result (λ line. line_of line ≡ net.if_head (exp_of condition)) }
{
    Ok(NetLine::If(Box::new(alloc, condition)?))
}

/// The head of a further branch of an If.
pub(crate) fn else_if_line(alloc: Global, condition: NetExpr) -> Result<NetLine, Mem>
    ensures { IfOk result (λ line. line_of line ≡ net.else_if (exp_of condition)) }
{
    Ok(NetLine::ElseIf(Box::new(alloc, condition)?))
}

/// A local variable with the value that it begins with.
pub(crate) fn local(
    alloc: Global,
    bytes: &[u8],
    ty: SimpleType,
    value: NetExpr,
) -> Result<NetDim, Mem>
    ensures { IfOk result (λ dim. dim_of dim ≡ net.local (record { name = bytes.now; ty = simple_type ty; value = Some (exp_of value) })) }
{
    let value = Box::new(alloc, value)?;
    Ok(NetDim::Local(NetVariable {
        name: name(alloc, bytes)?,
        ty: ty.written(),
        value: Some(value),
    }))
}
