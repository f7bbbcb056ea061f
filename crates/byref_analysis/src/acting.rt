//! Procedures with a line that does what an inward procedure doesn't: it changes what isn't the procedure's own, prints, boxes, asks, makes
//! an object, or has to do with errors.
ghost use Rattle.std.specs.Prelude.{◌≡◌, IfOk, map, not, slice_get};
ghost use Rattle.std.specs.List.{list_any};
ghost use Rattle.vb_tree.specs.View.{form_of};
ghost use Rattle.bound_tree.specs.View.{declarations_of, expr_of, shown, shown_line, variable_of};
ghost use Rattle.bound_facts.specs.Effects.{changes_outside, is_loud, is_outside, is_outward_line, is_outward_node, is_own_owner, is_own_variable, outward_items};
ghost use Rattle.bound_facts.specs.Node.{root};
ghost use Rattle.bound_facts.specs.Nodes.{line_nodes};

use crate::lines::{stores, used};
use crate::node::{asks, boxes, root, sets_error};
use bound_facts::{LineItems, NodeTest, any_of, created};
use bound_tree::{BoundExpr, Declared, LineRef, Root, VarDecl};
use std::alloc::Global;
use up_base::Mem;
use vb_tree::{Form6, Owner};

fn is_own_owner(i: u32, owner: Owner) -> bool
    ensures { result ≡ is_own_owner i owner }
{
    match owner {
        Owner::Local(p) => p.0 == i,
        Owner::Value(p) => p.0 == i,
        Owner::Answer(p) => p.0 == i,
        _ => false,
    }
}

fn is_own_at(vars: &[VarDecl], i: u32, v: u32) -> bool
    ensures { result ≡ is_own_variable i (slice_get (map variable_of vars.now) v) }
{
    match vars.get(v as usize) {
        Some(v) => is_own_owner(i, v.owner),
        None => false,
    }
}

// Whether an address is outside of the own variables of a procedure.
fn is_outside(vars: &[VarDecl], i: u32, at: Root) -> bool
    ensures { result ≡ is_outside (map variable_of vars.now) i at }
{
    match at {
        Root::Variable(v) => !is_own_at(vars, i, v.0),
        Root::Object => true,
        Root::Temporary => false,
    }
}

fn some_outside(vars: &[VarDecl], i: u32, stores: &[&BoundExpr]) -> bool
    ensures { result ≡ list_any (λ e. is_outside (map variable_of vars.now) i (root e)) (map shown stores.now) }
{
    for e in stores {
        if is_outside(vars, i, root(e)) {
            return true;
        }
    }
    false
}

fn changes_outside(alloc: Global, vars: &[VarDecl], i: u32, line: &LineRef) -> Result<bool, Mem>
    ensures { IfOk result (λ b. b ≡ changes_outside (map variable_of vars.now) i (shown_line line.now)) }
{
    let stores = stores(alloc, line)?;
    Ok(some_outside(vars, i, &stores))
}

fn is_loud(form: &Form6) -> bool
    ensures { result ≡ is_loud (form_of form.now) }
{
    match form {
        Form6::DebugPrint(_, _) => true,
        Form6::OnErrorGoTo(_) => true,
        Form6::OnErrorGoToZero => true,
        Form6::OnErrorResumeNext => true,
        Form6::Resume => true,
        Form6::ResumeNext => true,
        Form6::ResumeAt(_) => true,
        _ => false,
    }
}

fn is_outward_node(declared: &Declared, e: &BoundExpr) -> bool
    ensures { result ≡ is_outward_node (declarations_of declared.now) (expr_of e.now) }
{
    created(declared, e).is_some() || asks(e) || boxes(e) || sets_error(e)
}

#[derive(Clone, Copy)]
struct Acting<'a> {
    declared: &'a Declared,
}

impl NodeTest for Acting<'_> {
    ghost test = { λ s e. is_outward_node (declarations_of s.declared.now) e };

    fn holds(&self, e: &BoundExpr) -> bool {
        is_outward_node(self.declared, e)
    }
}

// Whether a line of a procedure does one of these things.
fn is_outward_line(
    alloc: Global,
    declared: &Declared,
    i: u32,
    line: &LineRef,
    nodes: &[&BoundExpr],
) -> Result<bool, Mem>
    requires { map shown nodes.now ≡ line_nodes (shown_line line.now) }
    ensures { IfOk result (λ b. b ≡ is_outward_line (declarations_of declared.now) i (shown_line line.now)) }
{
    let changes = changes_outside(alloc, declared.vars.as_slice(), i, line)?;
    Ok(is_loud(&line.source.form) || changes || any_of(used(line, nodes), &Acting { declared }))
}

/// The procedures with such a line.
#[derive(Clone, Copy)]
pub(crate) struct Outward<'a> {
    pub alloc: Global,
    pub declared: &'a Declared,
}

impl LineItems for Outward<'_> {
    type Item = u32;

    ghost items = { λ s i line. outward_items (declarations_of s.declared.now) i line };

    fn push(
        &self,
        procedure: u32,
        line: &LineRef,
        nodes: &[&BoundExpr],
        to: &mut Vec<u32>,
    ) -> Result<(), Mem> {
        let acts = is_outward_line(self.alloc, self.declared, procedure, line, nodes)?;
        if acts {
            to.push(procedure)?;
        }
        Ok(())
    }
}
