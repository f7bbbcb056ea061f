//! What one node of an expression is.
ghost use Rattle.std.specs.Prelude.{◌≡◌, Option, option_map};
ghost use Rattle.bound_tree.specs.View.{argument_of, expr_of, term_of};
ghost use Rattle.bound_facts.specs.CanRaise.{is_me};
ghost use Rattle.bound_facts.specs.Node.{asks, boxes, is_asking_lib, is_boxing_lib, passed_root, root, root_in, root_variable, sets_error, variable_at};

use bound_facts::is_object_type;
use bound_tree::{BoundArg, BoundExpr, BoundNode, Root};
use vb_tree::LibCall;

pub(crate) fn is_me(e: &BoundExpr) -> bool
    ensures { result ≡ is_me (expr_of e.now) }
{
    match &e.node {
        BoundNode::Me => true,
        _ => false,
    }
}

/// The variable that a node is.
pub(crate) fn variable_at(e: &BoundExpr) -> Option<usize>
    ensures { result ≡ variable_at (expr_of e.now) }
{
    match &e.node {
        BoundNode::Var(v, _) => Some(v.0 as usize),
        _ => None,
    }
}

fn is_asking_lib(function: LibCall) -> bool
    ensures { result ≡ is_asking_lib function }
{
    match function {
        LibCall::InputBox => true,
        _ => false,
    }
}

fn is_boxing_lib(function: LibCall) -> bool
    ensures { result ≡ is_boxing_lib function }
{
    match function {
        LibCall::MsgBox => true,
        _ => false,
    }
}

/// Whether a node asks for an input.
pub(crate) fn asks(e: &BoundExpr) -> bool
    ensures { result ≡ asks (expr_of e.now) }
{
    match &e.node {
        BoundNode::Lib(function, _) => is_asking_lib(*function),
        _ => false,
    }
}

/// Whether a node shows a box.
pub(crate) fn boxes(e: &BoundExpr) -> bool
    ensures { result ≡ boxes (expr_of e.now) }
{
    match &e.node {
        BoundNode::Lib(function, _) => is_boxing_lib(*function),
        _ => false,
    }
}

/// Whether a node is Err.Raise or Err.Clear.
pub(crate) fn sets_error(e: &BoundExpr) -> bool
    ensures { result ≡ sets_error (expr_of e.now) }
{
    match &e.node {
        BoundNode::ErrRaise(_) => true,
        BoundNode::ErrClear => true,
        _ => false,
    }
}

/// What an address is a part of.
pub(crate) fn root(e: &BoundExpr) -> Root
    ensures { result ≡ root (expr_of e.now) }
{
    match &e.node {
        BoundNode::Var(v, _) => Root::Variable(*v),
        BoundNode::Field(of, _) => {
            if is_object_type(&of.ty) {
                Root::Object
            } else {
                root(of)
            }
        }
        BoundNode::Element(of, _) => root(of),
        BoundNode::Me => Root::Object,
        BoundNode::WithObject(at) => *at,
        _ => Root::Temporary,
    }
}

/// The variable of which a root is.
pub(crate) fn root_variable(root: Root) -> Option<u32>
    ensures { result ≡ root_variable root }
{
    match root {
        Root::Variable(v) => Some(v.0),
        _ => None,
    }
}

/// The variable of which an argument gives a part by reference.
pub(crate) fn passed_root(arg: &BoundArg) -> Option<u32>
    ensures { result ≡ passed_root (argument_of arg.now) }
{
    match arg {
        BoundArg::ByValue(_) => None,
        BoundArg::ByReference(e) => root_variable(root(e)),
    }
}
