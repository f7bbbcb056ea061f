//! Fixed strings that are given to a reference parameter that isn't quiet.
ghost use Rattle.std.specs.Prelude.{◌≡◌, IfOk, map, slice_get};
ghost use Rattle.vb_tree.specs.BoundView.{type_of};
ghost use Rattle.bound_tree.specs.View.{argument_of, expr_of, passed_of, shown_line};
ghost use Rattle.fixed_strings.specs.Given.{breaks_given, gives, gives_fixed, gives_from, gives_to, is_fixed_given, is_quiet_at, is_set};

use crate::lengths::is_fixed_string;
use bound_facts::{NodeTest, any_of, args_at, called, push_line_nodes};
use bound_tree::{BoundArg, BoundExpr, BoundNode, LineRef};
use std::alloc::Global;
use up_base::{Mem, Sequence};

// For each procedure, and for each of its parameters, whether it is quiet.
type Quiet = Sequence<Sequence<bool>>;

fn is_quiet_at(quiet: &Quiet, p: u32, i: usize) -> bool
    ensures { result ≡ is_quiet_at quiet.now p i }
{
    match quiet.get(p as usize) {
        Some(flags) => is_set(flags, i),
        None => false,
    }
}

fn is_set(flags: &Sequence<bool>, i: usize) -> bool
    ensures { result ≡ is_set (slice_get flags.now i) }
{
    match flags.get(i) {
        Some(flag) => *flag,
        None => false,
    }
}

// Whether what is given to a parameter, perhaps of another type, is a fixed string.
fn is_fixed_given(e: &BoundExpr) -> bool
    ensures { result ≡ is_fixed_given (expr_of e.now) }
{
    match &e.node {
        BoundNode::Convert(_, of) => is_fixed_given(of),
        _ => is_fixed_string(&e.ty),
    }
}

fn gives_fixed(arg: &BoundArg) -> bool
    ensures { result ≡ gives_fixed (argument_of arg.now) }
{
    match arg {
        BoundArg::ByValue(_) => false,
        BoundArg::ByReference(e) => is_fixed_given(e),
    }
}

fn gives_from(quiet: &Quiet, p: u32, args: &[BoundArg]) -> bool
    ensures { result ≡ gives_from quiet.now p 0 (passed_of args.now) }
{
    for (i, arg) in args.iter().enumerate() {
        if gives_fixed(arg) && !is_quiet_at(quiet, p, i) {
            return true;
        }
    }
    false
}

fn gives_to(quiet: &Quiet, p: Option<u32>, args: &[BoundArg]) -> bool
    ensures { result ≡ gives_to quiet.now p (passed_of args.now) }
{
    match p {
        Some(p) => gives_from(quiet, p, args),
        None => false,
    }
}

#[derive(Clone, Copy)]
struct Giving<'a> {
    quiet: &'a Quiet,
}

impl NodeTest for Giving<'_> {
    ghost test = { λ s e. gives s.quiet.now e };

    fn holds(&self, e: &BoundExpr) -> bool {
        gives_to(self.quiet, called(e), args_at(e))
    }
}

/// Whether a line gives a fixed string to a reference parameter that isn't quiet.
pub(crate) fn breaks_given(alloc: Global, quiet: &Quiet, line: &LineRef) -> Result<bool, Mem>
    ensures { IfOk result (λ b. b ≡ breaks_given quiet.now (shown_line line.now)) }
{
    let mut nodes = Vec::new(alloc);
    push_line_nodes(line, &mut nodes)?;
    Ok(any_of(&nodes, &Giving { quiet }))
}
