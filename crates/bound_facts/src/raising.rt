//! Which nodes can raise.
ghost use Rattle.std.specs.Prelude.{◌≡◌, ◌&&◌, not, IfOk};
ghost use Rattle.vb_tree.specs.BoundView.{type_of};
ghost use Rattle.bound_tree.specs.View.{declarations_of, expr_of, exprs_of, term_of};
ghost use Rattle.bound_facts.specs.CanRaise.{can_raise, converts_safely, first_converts, head_can_raise, is_calm_lib, is_calm_op, is_calm_sign, is_constant_node, is_error_number, is_from_variant, is_me, is_safe, is_variant_operand, raises, raises_by, takes_all};

use crate::any::{NodeTest, any_of};
use crate::node::{created, is_object_type, is_variant};
use crate::nodes::push_nodes;
use bound_tree::{BoundExpr, BoundNode, Declared};
use std::alloc::Global;
use up_base::Mem;
use vb_tree::{BinOp, LibCall, Type6, UnOp};

fn is_me(e: &BoundExpr) -> bool
    ensures { result ≡ is_me (expr_of e.now) }
{
    match &e.node {
        BoundNode::Me => true,
        _ => false,
    }
}

fn is_constant_node(e: &BoundExpr) -> bool
    ensures { result ≡ is_constant_node (expr_of e.now) }
{
    match &e.node {
        BoundNode::Const(_, _) => true,
        _ => false,
    }
}

// Whether a conversion to a type has a value for each value of any other type that converts to it.
fn takes_all(ty: &Type6) -> bool
    ensures { result ≡ takes_all (type_of ty.now) }
{
    match ty {
        Type6::Boolean => true,
        Type6::Str => true,
        Type6::Variant => true,
        Type6::Object => true,
        Type6::Class(_) => true,
        _ => false,
    }
}

// Whether a conversion between two types can't leave the range of the second.
fn is_safe(from: &Type6, to: &Type6) -> bool
    ensures { result ≡ is_safe (type_of from.now) (type_of to.now) }
{
    match (from, to) {
        (Type6::Boolean, _) => true,
        (Type6::Byte, Type6::Byte) => true,
        (Type6::Byte, Type6::Integer) => true,
        (Type6::Byte, Type6::Long) => true,
        (Type6::Byte, Type6::Currency) => true,
        (Type6::Integer, Type6::Integer) => true,
        (Type6::Integer, Type6::Long) => true,
        (Type6::Integer, Type6::Currency) => true,
        (Type6::Long, Type6::Long) => true,
        (Type6::Long, Type6::Currency) => true,
        (Type6::Currency, Type6::Currency) => true,
        (Type6::Variant, Type6::Currency) => true,
        _ => takes_all(to),
    }
}

fn converts_safely(to: &Type6, e: &BoundExpr) -> bool
    ensures { result ≡ converts_safely (type_of to.now) (expr_of e.now) }
{
    is_constant_node(e) || is_safe(&e.ty, to)
}

fn first_converts(to: &Type6, args: &[BoundExpr]) -> bool
    ensures { result ≡ first_converts (type_of to.now) (exprs_of args.now) }
{
    match args {
        [e, ..] => converts_safely(to, e),
        [] => false,
    }
}

// Library calls that raise nothing.
fn is_calm_lib(function: LibCall, args: &[BoundExpr]) -> bool
    ensures { result ≡ is_calm_lib function (exprs_of args.now) }
{
    match function {
        LibCall::Len => true,
        LibCall::IsEmpty => true,
        LibCall::CBool => first_converts(&Type6::Boolean, args),
        LibCall::CByte => first_converts(&Type6::Byte, args),
        LibCall::CInt => first_converts(&Type6::Integer, args),
        LibCall::CLng => first_converts(&Type6::Long, args),
        LibCall::CCur => first_converts(&Type6::Currency, args),
        LibCall::CStr => first_converts(&Type6::Str, args),
        _ => false,
    }
}

// Comparisons, logical operators and `&`.
fn is_calm_op(op: BinOp) -> bool
    ensures { result ≡ is_calm_op op }
{
    match op {
        BinOp::Concat => true,
        BinOp::Equal => true,
        BinOp::NotEqual => true,
        BinOp::Less => true,
        BinOp::Greater => true,
        BinOp::LessEqual => true,
        BinOp::GreaterEqual => true,
        BinOp::Is => true,
        BinOp::And => true,
        BinOp::Or => true,
        BinOp::Xor => true,
        BinOp::Eqv => true,
        BinOp::Imp => true,
        _ => false,
    }
}

fn is_calm_sign(op: UnOp) -> bool
    ensures { result ≡ is_calm_sign op }
{
    match op {
        UnOp::Not => true,
        UnOp::Neg => false,
    }
}

fn is_from_variant(node: &BoundNode) -> bool
    ensures { result ≡ is_from_variant (term_of node.now) }
{
    match node {
        BoundNode::Convert(_, of) => is_variant(&of.ty),
        _ => false,
    }
}

// Whether an operand is a Variant, or was one before it was converted for the operator.
fn is_variant_operand(e: &BoundExpr) -> bool
    ensures { result ≡ is_variant_operand (expr_of e.now) }
{
    is_variant(&e.ty) || is_from_variant(&e.node)
}

// Whether a node can raise, but as the use of an As New variable.
fn raises_by(node: &BoundNode) -> bool
    ensures { result ≡ raises_by (term_of node.now) }
{
    match node {
        BoundNode::Const(_, _) => false,
        BoundNode::Var(_, _) => false,
        BoundNode::Field(of, _) => is_object_type(&of.ty) && !is_me(of),
        BoundNode::Element(_, _) => true,
        BoundNode::Call(_, _, _, _) => true,
        BoundNode::Lib(function, args) => !is_calm_lib(*function, args),
        BoundNode::Unary(op, of) => !is_calm_sign(*op) || is_variant_operand(of),
        BoundNode::Binary(op, a, b) => {
            !is_calm_op(*op) || is_variant_operand(a) || is_variant_operand(b)
        }
        BoundNode::Convert(to, of) => !converts_safely(to, of),
        BoundNode::New(_) => true,
        BoundNode::Me => false,
        BoundNode::WithObject(_) => false,
        BoundNode::ErrNumber => true,
        BoundNode::ErrRaise(_) => true,
        BoundNode::ErrClear => true,
        BoundNode::Is(_, _) => false,
        BoundNode::Loose(_, _) => false,
    }
}

/// Whether a node itself can raise; the use of an As New variable can, since it may make an object.
pub fn raises(declared: &Declared, e: &BoundExpr) -> bool
    ensures { result ≡ raises (declarations_of declared.now) (expr_of e.now) }
{
    raises_by(&e.node) || created(declared, e).is_some()
}

fn is_error_number(e: &BoundExpr) -> bool
    ensures { result ≡ is_error_number (expr_of e.now) }
{
    match &e.node {
        BoundNode::ErrNumber => true,
        _ => false,
    }
}

/// The test whether a node can raise.
#[derive(Clone, Copy)]
pub struct Raising<'a> {
    pub declared: &'a Declared,
}

impl NodeTest for Raising<'_> {
    ghost test = { λ s e. raises (declarations_of s.declared.now) e };

    fn holds(&self, e: &BoundExpr) -> bool {
        raises(self.declared, e)
    }
}

#[derive(Clone, Copy)]
struct HeadRaising<'a> {
    declared: &'a Declared,
}

impl NodeTest for HeadRaising<'_> {
    ghost test = { λ s e. raises (declarations_of s.declared.now) e && not (is_error_number e) };

    fn holds(&self, e: &BoundExpr) -> bool {
        raises(self.declared, e) && !is_error_number(e)
    }
}

/// Whether an expression can raise.
pub fn can_raise(alloc: Global, declared: &Declared, e: &BoundExpr) -> Result<bool, Mem>
    ensures { IfOk result (λ b. b ≡ can_raise (declarations_of declared.now) (expr_of e.now)) }
{
    let mut nodes = Vec::new(alloc);
    push_nodes(e, &mut nodes)?;
    Ok(any_of(&nodes, &Raising { declared }))
}

/// The same of an expression in the head of a block, where the number of the Err object can't raise.
pub fn head_can_raise(alloc: Global, declared: &Declared, e: &BoundExpr) -> Result<bool, Mem>
    ensures { IfOk result (λ b. b ≡ head_can_raise (declarations_of declared.now) (expr_of e.now)) }
{
    let mut nodes = Vec::new(alloc);
    push_nodes(e, &mut nodes)?;
    Ok(any_of(&nodes, &HeadRaising { declared }))
}
