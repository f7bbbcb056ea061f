//! The list of all nodes of an expression: the expression itself, and behind it those of its parts from the left. An
//! expression of type Unknown, which is kept as it is written, has no parts.
ghost use Rattle.std.specs.Prelude.{◌≡◌, ◌++◌, map, OnOk};
ghost use Rattle.bound_tree.specs.View.{argument_of, expr_of, exprs_of, object_of, passed_of, shown, shown_line, term_of};
ghost use Rattle.bound_facts.specs.Nodes.{line_nodes, nodes, nodes_in, nodes_of_all, nodes_of_argument, nodes_of_object, nodes_of_passed};

use bound_tree::{BoundArg, BoundExpr, BoundNode, LineRef};
use up_base::Mem;

/// Appends all nodes of an expression.
#[cycle(nodes)]
pub fn push_nodes<'a>(e: &'a BoundExpr, to: &mut Vec<&'a BoundExpr>) -> Result<(), Mem>
    ensures { OnOk result (map shown to.new.items ≡ map shown to.old.items ++ nodes (expr_of e.now)) }
{
    to.push(e)?;
    push_parts(&e.node, to)?;
    Ok(())
}

/// Appends all nodes below one.
#[cycle(nodes)]
pub fn push_parts<'a>(node: &'a BoundNode, to: &mut Vec<&'a BoundExpr>) -> Result<(), Mem>
    ensures { OnOk result (map shown to.new.items ≡ map shown to.old.items ++ nodes_in (term_of node.now)) }
{
    match node {
        BoundNode::Const(_, _) => Ok(()),
        BoundNode::Var(_, _) => Ok(()),
        BoundNode::Field(of, _) => Ok(push_nodes(of, to)?),
        BoundNode::Element(of, indexes) => {
            push_nodes(of, to)?;
            push_all(indexes, to)?;
            Ok(())
        }
        BoundNode::Call(_, _, of, args) => {
            push_object(of, to)?;
            push_passed(args, to)?;
            Ok(())
        }
        BoundNode::Lib(_, args) => Ok(push_all(args, to)?),
        BoundNode::Unary(_, of) => Ok(push_nodes(of, to)?),
        BoundNode::Binary(_, a, b) => {
            push_nodes(a, to)?;
            push_nodes(b, to)?;
            Ok(())
        }
        BoundNode::Convert(_, of) => Ok(push_nodes(of, to)?),
        BoundNode::New(_) => Ok(()),
        BoundNode::Me => Ok(()),
        BoundNode::WithObject(_) => Ok(()),
        BoundNode::ErrNumber => Ok(()),
        BoundNode::ErrRaise(of) => Ok(push_nodes(of, to)?),
        BoundNode::ErrClear => Ok(()),
        BoundNode::Is(first, second) => {
            push_nodes(first, to)?;
            push_nodes(second, to)?;
            Ok(())
        }
        BoundNode::Loose(_, _) => Ok(()),
    }
}

#[cycle(nodes)]
fn push_object<'a>(of: &'a Option<Box<BoundExpr>>, to: &mut Vec<&'a BoundExpr>) -> Result<(), Mem>
    ensures { OnOk result (map shown to.new.items ≡ map shown to.old.items ++ nodes_of_object (object_of of.now)) }
{
    match of {
        None => Ok(()),
        Some(e) => Ok(push_nodes(e, to)?),
    }
}

#[cycle(nodes)]
fn push_all<'a>(es: &'a [BoundExpr], to: &mut Vec<&'a BoundExpr>) -> Result<(), Mem>
    ensures { OnOk result (map shown to.new.items ≡ map shown to.old.items ++ nodes_of_all (exprs_of es.now)) }
{
    for e in es {
        push_nodes(e, to)?;
    }
    Ok(())
}

#[cycle(nodes)]
fn push_passed<'a>(args: &'a [BoundArg], to: &mut Vec<&'a BoundExpr>) -> Result<(), Mem>
    ensures { OnOk result (map shown to.new.items ≡ map shown to.old.items ++ nodes_of_passed (passed_of args.now)) }
{
    for arg in args {
        push_argument(arg, to)?;
    }
    Ok(())
}

#[cycle(nodes)]
fn push_argument<'a>(arg: &'a BoundArg, to: &mut Vec<&'a BoundExpr>) -> Result<(), Mem>
    ensures { OnOk result (map shown to.new.items ≡ map shown to.old.items ++ nodes_of_argument (argument_of arg.now)) }
{
    match arg {
        BoundArg::ByValue(e) => Ok(push_nodes(e, to)?),
        BoundArg::ByReference(e) => Ok(push_nodes(e, to)?),
    }
}

/// Appends all nodes of the expressions of a line.
pub fn push_line_nodes<'a>(line: &LineRef<'a>, to: &mut Vec<&'a BoundExpr>) -> Result<(), Mem>
    ensures { OnOk result (map shown to.new.items ≡ map shown to.old.items ++ line_nodes (shown_line line.now)) }
{
    for e in line.bound.exprs.as_slice() {
        push_nodes(e, to)?;
    }
    Ok(())
}
