//! Procedures with a line that may not stand in the initializer of a self-made class: one that does anything but assign to a variable of
//! its own or of its object what can't raise and holds no call.
ghost use Rattle.std.specs.Prelude.{◌≡◌, ◌&&◌, IfOk, Option, map, not, slice_get};
ghost use Rattle.std.specs.List.{list_any};
ghost use Rattle.vb_tree.specs.View.{form_of};
ghost use Rattle.bound_tree.specs.View.{declarations_of, expr_of, procedure_of, shown, shown_line, variable_of};
ghost use Rattle.bound_tree.specs.Tree.{Expr};
ghost use Rattle.vb_tree.specs.Tree.{Exp, assign};
ghost use Rattle.bound_facts.specs.CanRaise.{can_raise};
ghost use Rattle.bound_facts.specs.Nodes.{line_nodes};
ghost use Rattle.bound_facts.specs.SelfMade.{enters, is_mine, is_mine_owner, is_mine_variable, is_number, is_plain_line, is_plain_store, module_of, unplain_items};

use crate::lines::used;
use crate::node::{asks, is_me};
use bound_facts::{LineItems, NodeTest, any_of, called, can_raise, created, is_object_type};
use bound_tree::{BoundExpr, BoundNode, Declared, LineRef, ProcDecl};
use std::alloc::Global;
use up_base::{Mem, Sequence};
use vb_tree::{Form6, Owner, VarId};

// The file of the module that a procedure stands in.
fn module_at(procs: &Sequence<ProcDecl>, i: u32) -> Option<u32>
    ensures { result ≡ module_of (slice_get (map procedure_of procs.now) i) }
{
    match procs.get(i as usize) {
        Some(p) => Some(p.module),
        None => None,
    }
}

fn is_number(home: Option<u32>, n: u32) -> bool
    ensures { result ≡ is_number home n }
{
    match home {
        Some(m) => m == n,
        None => false,
    }
}

fn is_mine_owner(i: u32, home: Option<u32>, owner: Owner) -> bool
    ensures { result ≡ is_mine_owner i home owner }
{
    match owner {
        Owner::Local(p) => p.0 == i,
        Owner::Static(p) => p.0 == i,
        Owner::Module(m) => is_number(home, m),
        _ => false,
    }
}

// Whether a variable is one of a procedure or of the object that it runs for.
fn is_mine_variable(declared: &Declared, i: u32, v: VarId) -> bool
    ensures { result ≡ is_mine_variable (declarations_of declared.now) i (slice_get (map variable_of declared.now.vars) v.0) }
{
    match declared.vars.get(v.0 as usize) {
        Some(v) => is_mine_owner(i, module_at(&declared.procs, i), v.owner),
        None => false,
    }
}

fn is_mine(declared: &Declared, i: u32, e: &BoundExpr) -> bool
    ensures { result ≡ is_mine (declarations_of declared.now) i (expr_of e.now) }
{
    match &e.node {
        BoundNode::Var(v, _) => is_mine_variable(declared, i, *v),
        BoundNode::Field(of, _) => {
            if is_object_type(&of.ty) {
                is_me(of)
            } else {
                is_mine(declared, i, of)
            }
        }
        BoundNode::Element(of, _) => is_mine(declared, i, of),
        BoundNode::Loose(_, _) => true,
        _ => false,
    }
}

fn enters(declared: &Declared, e: &BoundExpr) -> bool
    ensures { result ≡ enters (declarations_of declared.now) (expr_of e.now) }
{
    called(e).is_some() || created(declared, e).is_some() || asks(e)
}

#[derive(Clone, Copy)]
struct Entering<'a> {
    declared: &'a Declared,
}

impl NodeTest for Entering<'_> {
    ghost test = { λ s e. enters (declarations_of s.declared.now) e };

    fn holds(&self, e: &BoundExpr) -> bool {
        enters(self.declared, e)
    }
}

// Whether what is stored to is one's own, and the value can't raise.
fn is_plain_pair(
    alloc: Global,
    declared: &Declared,
    i: u32,
    to: &BoundExpr,
    e: &BoundExpr,
) -> Result<bool, Mem>
    ensures { IfOk result (λ b. b ≡ (is_mine (declarations_of declared.now) i (expr_of to.now) && not (can_raise (declarations_of declared.now) (expr_of e.now)))) }
{
    let raises = can_raise(alloc, declared, e)?;
    Ok(is_mine(declared, i, to) && !raises)
}

fn is_plain_assignment(
    alloc: Global,
    declared: &Declared,
    i: u32,
    exprs: &[BoundExpr],
) -> Result<bool, Mem>
    ensures { (target value : Exp) → IfOk result (λ b. b ≡ is_plain_store (declarations_of declared.now) i (assign target value) (map expr_of exprs.now)) }
{
    match exprs {
        [to, e, ..] => Ok(is_plain_pair(alloc, declared, i, to, e)?),
        _ => Ok(false),
    }
}

fn is_plain_store(
    alloc: Global,
    declared: &Declared,
    i: u32,
    form: &Form6,
    exprs: &[BoundExpr],
) -> Result<bool, Mem>
    ensures { IfOk result (λ b. b ≡ is_plain_store (declarations_of declared.now) i (form_of form.now) (map expr_of exprs.now)) }
{
    match form {
        Form6::Assign(_, _) => Ok(is_plain_assignment(alloc, declared, i, exprs)?),
        _ => Ok(false),
    }
}

fn is_plain_line(
    alloc: Global,
    declared: &Declared,
    i: u32,
    line: &LineRef,
    nodes: &[&BoundExpr],
) -> Result<bool, Mem>
    requires { map shown nodes.now ≡ line_nodes (shown_line line.now) }
    ensures { IfOk result (λ b. b ≡ is_plain_line (declarations_of declared.now) i (shown_line line.now)) }
{
    let exprs = line.bound.exprs.as_slice();
    let plain = is_plain_store(alloc, declared, i, &line.source.form, exprs)?;
    Ok(plain && !any_of(used(line, nodes), &Entering { declared }))
}

/// The procedures with such a line.
#[derive(Clone, Copy)]
pub(crate) struct Unplain<'a> {
    pub alloc: Global,
    pub declared: &'a Declared,
}

impl LineItems for Unplain<'_> {
    type Item = u32;

    ghost items = { λ s i line. unplain_items (declarations_of s.declared.now) i line };

    fn push(
        &self,
        procedure: u32,
        line: &LineRef,
        nodes: &[&BoundExpr],
        to: &mut Vec<u32>,
    ) -> Result<(), Mem> {
        let plain = is_plain_line(self.alloc, self.declared, procedure, line, nodes)?;
        if !plain {
            to.push(procedure)?;
        }
        Ok(())
    }
}
