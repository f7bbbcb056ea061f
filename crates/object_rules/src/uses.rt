//! As New variables that are given by reference, and those that a With keeps.
ghost use Rattle.std.specs.Prelude.{◌≡◌, IfOk, map};
ghost use Rattle.std.specs.List.{list_any};
ghost use Rattle.vb_tree.specs.View.{form_of};
ghost use Rattle.bound_tree.specs.View.{argument_of, declarations_of, expr_of, passed_of, shown_line};
ghost use Rattle.object_rules.specs.Uses.{breaks_use, gives, gives_among, gives_auto, is_auto_use, keeps_auto};

use bound_facts::{NodeTest, any_of, args_at, created, declared_at, push_line_nodes};
use bound_tree::{BoundArg, BoundExpr, Declared, LineRef};
use std::alloc::Global;
use up_base::Mem;
use vb_tree::Form6;

fn is_auto_use(declared: &Declared, e: &BoundExpr) -> bool
    ensures { result ≡ is_auto_use (declarations_of declared.now) (expr_of e.now) }
{
    declared_at(declared, e).is_some() && created(declared, e).is_some()
}

fn gives_auto(declared: &Declared, arg: &BoundArg) -> bool
    ensures { result ≡ gives_auto (declarations_of declared.now) (argument_of arg.now) }
{
    match arg {
        BoundArg::ByValue(_) => false,
        BoundArg::ByReference(e) => is_auto_use(declared, e),
    }
}

fn gives_among(declared: &Declared, args: &[BoundArg]) -> bool
    ensures { result ≡ gives_among (declarations_of declared.now) (passed_of args.now) }
{
    for arg in args {
        if gives_auto(declared, arg) {
            return true;
        }
    }
    false
}

#[derive(Clone, Copy)]
struct Giving<'a> {
    declared: &'a Declared,
}

impl NodeTest for Giving<'_> {
    ghost test = { λ s e. gives (declarations_of s.declared.now) e };

    fn holds(&self, e: &BoundExpr) -> bool {
        gives_among(self.declared, args_at(e))
    }
}

fn some_auto(declared: &Declared, exprs: &[BoundExpr]) -> bool
    ensures { result ≡ list_any (is_auto_use (declarations_of declared.now)) (map expr_of exprs.now) }
{
    for e in exprs {
        if is_auto_use(declared, e) {
            return true;
        }
    }
    false
}

fn keeps_auto(declared: &Declared, form: &Form6, exprs: &[BoundExpr]) -> bool
    ensures { result ≡ keeps_auto (declarations_of declared.now) (form_of form.now) (map expr_of exprs.now) }
{
    match form {
        Form6::With(_) => some_auto(declared, exprs),
        _ => false,
    }
}

/// Whether a line gives an As New variable by reference, or is a With over one.
pub(crate) fn breaks_use(alloc: Global, declared: &Declared, line: &LineRef) -> Result<bool, Mem>
    ensures { IfOk result (λ b. b ≡ breaks_use (declarations_of declared.now) (shown_line line.now)) }
{
    if keeps_auto(declared, &line.source.form, line.bound.exprs.as_slice()) {
        return Ok(true);
    }
    let mut nodes = Vec::new(alloc);
    push_line_nodes(line, &mut nodes)?;
    Ok(any_of(&nodes, &Giving { declared }))
}
