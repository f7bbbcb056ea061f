//! The types of the elements that lines give by reference.
ghost use Rattle.std.specs.Prelude.{◌≡◌, ◌++◌, Option, OnOk, IfOk, map, option_map, option_to_list};
ghost use Rattle.std.specs.List.{flat_map};
ghost use Rattle.bound_tree.specs.Lines.{lines_of};
ghost use Rattle.bound_tree.specs.View.{argument_of, expr_of, passed_of, shown, shown_line};
ghost use Rattle.bound_facts.specs.Node.{args_at};
ghost use Rattle.array_bounds.specs.Locking.{bound_element, bound_elements, element_type, elements, line_elements};
ghost use Rattle.array_bounds.specs.LockTables.{shown_type};

use bound_facts::{args_at, is_object_type, push_line_nodes};
use bound_tree::{BoundArg, BoundExpr, BoundNode, LineRef};
use std::alloc::Global;
use up_base::Mem;
use vb_tree::Type6;

/// The type of the element that an expression is or is a part of, by fields of user types.
pub(crate) fn element_type(e: &BoundExpr) -> Option<&Type6>
    ensures { option_map shown_type result ≡ element_type (expr_of e.now) }
{
    match &e.node {
        BoundNode::Const(_, _) => None,
        BoundNode::Var(_, _) => None,
        BoundNode::Field(of, _) => {
            if is_object_type(&of.ty) {
                None
            } else {
                element_type(of)
            }
        }
        BoundNode::Element(_, _) => Some(&e.ty),
        BoundNode::Call(_, _, _, _) => None,
        BoundNode::Lib(_, _) => None,
        BoundNode::Unary(_, _) => None,
        BoundNode::Binary(_, _, _) => None,
        BoundNode::Convert(_, _) => None,
        BoundNode::New(_) => None,
        BoundNode::Me => None,
        BoundNode::WithObject(_) => None,
        BoundNode::ErrNumber => None,
        BoundNode::ErrRaise(_) => None,
        BoundNode::ErrClear => None,
        BoundNode::Is(_, _) => None,
        BoundNode::Loose(_, _) => None,
    }
}

/// That of an element that is given by reference.
pub(crate) fn bound_element(arg: &BoundArg) -> Option<&Type6>
    ensures { option_map shown_type result ≡ bound_element (argument_of arg.now) }
{
    match arg {
        BoundArg::ByValue(_) => None,
        BoundArg::ByReference(e) => element_type(e),
    }
}

fn push_element<'a>(arg: &'a BoundArg, to: &mut Vec<&'a Type6>) -> Result<(), Mem>
    ensures { OnOk result (map shown_type to.new.items ≡ map shown_type to.old.items ++ option_to_list (bound_element (argument_of arg.now))) }
{
    match bound_element(arg) {
        Some(ty) => Ok(to.push(ty)?),
        None => Ok(()),
    }
}

fn push_elements<'a>(args: &'a [BoundArg], to: &mut Vec<&'a Type6>) -> Result<(), Mem>
    ensures { OnOk result (map shown_type to.new.items ≡ map shown_type to.old.items ++ bound_elements (passed_of args.now)) }
{
    for arg in args {
        push_element(arg, to)?;
    }
    Ok(())
}

fn push_node<'a>(e: &'a BoundExpr, to: &mut Vec<&'a Type6>) -> Result<(), Mem>
    ensures { OnOk result (map shown_type to.new.items ≡ map shown_type to.old.items ++ bound_elements (args_at (expr_of e.now))) }
{
    Ok(push_elements(args_at(e), to)?)
}

fn push_nodes<'a>(nodes: &[&'a BoundExpr], to: &mut Vec<&'a Type6>) -> Result<(), Mem>
    ensures { OnOk result (map shown_type to.new.items ≡ map shown_type to.old.items ++ flat_map (λ e. bound_elements (args_at e)) (map shown nodes.now)) }
{
    for e in nodes {
        push_node(*e, to)?;
    }
    Ok(())
}

fn push_line<'a>(alloc: Global, line: &LineRef<'a>, to: &mut Vec<&'a Type6>) -> Result<(), Mem>
    ensures { OnOk result (map shown_type to.new.items ≡ map shown_type to.old.items ++ line_elements (shown_line line.now)) }
{
    let mut nodes = Vec::new(alloc);
    push_line_nodes(line, &mut nodes)?;
    push_nodes(&nodes, to)?;
    Ok(())
}

fn push_body<'a>(alloc: Global, lines: &[LineRef<'a>], to: &mut Vec<&'a Type6>) -> Result<(), Mem>
    ensures { OnOk result (map shown_type to.new.items ≡ map shown_type to.old.items ++ flat_map line_elements (map shown_line lines.now)) }
{
    for line in lines {
        push_line(alloc, line, to)?;
    }
    Ok(())
}

/// Those of all lines.
pub(crate) fn elements<'a>(alloc: Global, lines: &[Vec<LineRef<'a>>]) -> Result<Vec<&'a Type6>, Mem>
    ensures { IfOk result (λ v. map shown_type v.items ≡ flat_map (flat_map line_elements) (map lines_of lines.now)) }
{
    let mut all = Vec::new(alloc);
    for body in lines {
        push_body(alloc, body, &mut all)?;
    }
    Ok(all)
}
