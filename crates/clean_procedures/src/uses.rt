//! The nodes of a line's expressions that are used.
ghost use Rattle.std.specs.Prelude.{◌≡◌, ◌++◌, OnOk, map};
ghost use Rattle.std.specs.List.{flat_map};
ghost use Rattle.vb_tree.specs.View.{form_of};
ghost use Rattle.bound_tree.specs.View.{expr_of, shown, shown_line};
ghost use Rattle.bound_facts.specs.Nodes.{nodes};
ghost use Rattle.bound_facts.specs.Parts.{line_uses, target_nodes, used_nodes};
ghost use Rattle.clean_procedures.specs.Uses.{set_nodes};

use bound_facts::{called, push_nodes, push_parts};
use bound_tree::{BoundExpr, LineRef};
use up_base::Mem;
use vb_tree::Form6;

fn push_all<'a>(es: &'a [BoundExpr], to: &mut Vec<&'a BoundExpr>) -> Result<(), Mem>
    ensures { OnOk result (map shown to.new.items ≡ map shown to.old.items ++ flat_map nodes (map expr_of es.now)) }
{
    for e in es {
        push_nodes(e, to)?;
    }
    Ok(())
}

// A variable or a field is written to, while the part of a property is called.
fn push_target<'a>(e: &'a BoundExpr, to: &mut Vec<&'a BoundExpr>) -> Result<(), Mem>
    ensures { OnOk result (map shown to.new.items ≡ map shown to.old.items ++ target_nodes (expr_of e.now)) }
{
    if called(e).is_some() {
        return Ok(push_nodes(e, to)?);
    }
    Ok(push_parts(&e.node, to)?)
}

fn push_set<'a>(es: &'a [BoundExpr], to: &mut Vec<&'a BoundExpr>) -> Result<(), Mem>
    ensures { OnOk result (map shown to.new.items ≡ map shown to.old.items ++ set_nodes (map expr_of es.now)) }
{
    match es {
        [] => Ok(()),
        [target, rest @ ..] => {
            push_target(target, to)?;
            push_all(rest, to)?;
            Ok(())
        }
    }
}

fn push_used<'a>(form: &Form6, es: &'a [BoundExpr], to: &mut Vec<&'a BoundExpr>) -> Result<(), Mem>
    ensures { OnOk result (map shown to.new.items ≡ map shown to.old.items ++ used_nodes (form_of form.now) (map expr_of es.now)) }
{
    match form {
        Form6::Set(_, _) => Ok(push_set(es, to)?),
        _ => Ok(push_all(es, to)?),
    }
}

/// Appends the nodes of a line that are used.
pub(crate) fn push_uses<'a>(line: &LineRef<'a>, to: &mut Vec<&'a BoundExpr>) -> Result<(), Mem>
    ensures { OnOk result (map shown to.new.items ≡ map shown to.old.items ++ line_uses (shown_line line.now)) }
{
    Ok(push_used(&line.source.form, line.bound.exprs.as_slice(), to)?)
}
