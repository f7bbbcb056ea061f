//! Elements of arrays that are given to reference parameters while the array may be given other elements as a whole.
ghost use Rattle.std.specs.Prelude.{◌≡◌, ◌||◌, ◌&&◌, Option, not, nat_eq, IfOk, map, option_map};
ghost use Rattle.std.specs.List.{list_any};
ghost use Rattle.reach_table.specs.Chains.{is_marked};
ghost use Rattle.vb_tree.specs.BoundView.{type_of};
ghost use Rattle.bound_tree.specs.View.{argument_of, declarations_of, expr_of, passed_of, shown, shown_line};
ghost use Rattle.bound_facts.specs.Facts.{some_is};
ghost use Rattle.bound_facts.specs.Node.{args_at, called};
ghost use Rattle.array_bounds.specs.FactsOf.{known_of};
ghost use Rattle.array_bounds.specs.Locking.{bound_element, breaks_locks, enters, enters_by, locks_by, locks_from, may_lock, others_enter};
ghost use Rattle.array_bounds.specs.LockTables.{flags_in, shown_type};

use crate::arrays::given_expr;
use crate::creations::initialized;
use crate::elements::bound_element;
use crate::facts::Facts;
use crate::locks::{flag_at, flags_in};
use bound_facts::{NodeTest, any_of, args_at, called, push_line_nodes, push_nodes};
use bound_tree::{BoundArg, BoundExpr, Declared, LineRef};
use std::alloc::Global;
use up_base::Mem;
use vb_tree::Type6;

fn some_is(flags: &[bool], p: Option<u32>) -> bool
    ensures { result ≡ some_is (is_marked flags.now) p }
{
    match p {
        Some(p) => flag_at(flags, p),
        None => false,
    }
}

fn some_place_is(flags: &[bool], p: Option<usize>) -> bool
    ensures { result ≡ some_is (is_marked flags.now) p }
{
    match p {
        Some(p) => place_is(flags, p),
        None => false,
    }
}

fn place_is(flags: &[bool], p: usize) -> bool
    ensures { result ≡ is_marked flags.now p }
{
    match flags.get(p) {
        Some(flag) => *flag,
        None => false,
    }
}

#[derive(Clone, Copy)]
struct Entering<'a> {
    declared: &'a Declared,
    flags: &'a [bool],
}

impl NodeTest for Entering<'_> {
    ghost test = { λ s e. enters (declarations_of s.declared.now) (is_marked s.flags.now) e };

    fn holds(&self, e: &BoundExpr) -> bool {
        some_is(self.flags, called(e)) || some_place_is(self.flags, initialized(self.declared, e))
    }
}

// Whether an argument enters a procedure that is marked.
fn enters_by(
    alloc: Global,
    declared: &Declared,
    flags: &[bool],
    arg: &BoundArg,
) -> Result<bool, Mem>
    ensures { IfOk result (λ b. b ≡ enters_by (declarations_of declared.now) (is_marked flags.now) (argument_of arg.now)) }
{
    let mut nodes = Vec::new(alloc);
    push_nodes(given_expr(arg), &mut nodes)?;
    Ok(any_of(&nodes, &Entering { declared, flags }))
}

fn other_enters(
    alloc: Global,
    declared: &Declared,
    flags: &[bool],
    is_other: bool,
    arg: &BoundArg,
) -> Result<bool, Mem>
    ensures { IfOk result (λ b. b ≡ (is_other && enters_by (declarations_of declared.now) (is_marked flags.now) (argument_of arg.now))) }
{
    if !is_other {
        return Ok(false);
    }
    Ok(enters_by(alloc, declared, flags, arg)?)
}

fn others_enter(
    alloc: Global,
    declared: &Declared,
    flags: &[bool],
    i: usize,
    args: &[BoundArg],
) -> Result<bool, Mem>
    ensures { IfOk result (λ b. b ≡ others_enter (declarations_of declared.now) (is_marked flags.now) i 0 (passed_of args.now)) }
{
    for (j, arg) in args.iter().enumerate() {
        let enters = other_enters(alloc, declared, flags, j != i, arg)?;
        if enters {
            return Ok(true);
        }
    }
    Ok(false)
}

fn locks_with(
    alloc: Global,
    declared: &Declared,
    flags: &[bool],
    p: u32,
    args: &[BoundArg],
    i: usize,
) -> Result<bool, Mem>
    ensures { IfOk result (λ b. b ≡ (is_marked flags.now p || others_enter (declarations_of declared.now) (is_marked flags.now) i 0 (passed_of args.now))) }
{
    if flag_at(flags, p) {
        return Ok(true);
    }
    Ok(others_enter(alloc, declared, flags, i, args)?)
}

fn may_lock_type(
    alloc: Global,
    facts: &Facts,
    p: u32,
    args: &[BoundArg],
    i: usize,
    ty: &Type6,
) -> Result<bool, Mem>
    ensures { IfOk result (λ b. b ≡ may_lock (declarations_of facts.now.declared.now) (known_of facts.now) p (passed_of args.now) i (Some (type_of ty.now))) }
{
    let flags = flags_in(&facts.locks, ty);
    Ok(locks_with(alloc, facts.declared, flags, p, args, i)?)
}

fn may_lock(
    alloc: Global,
    facts: &Facts,
    p: u32,
    args: &[BoundArg],
    i: usize,
    arg: &BoundArg,
) -> Result<bool, Mem>
    ensures { IfOk result (λ b. b ≡ may_lock (declarations_of facts.now.declared.now) (known_of facts.now) p (passed_of args.now) i (bound_element (argument_of arg.now))) }
{
    match bound_element(arg) {
        Some(ty) => Ok(may_lock_type(alloc, facts, p, args, i, ty)?),
        None => Ok(false),
    }
}

fn locks_from(alloc: Global, facts: &Facts, p: u32, args: &[BoundArg]) -> Result<bool, Mem>
    ensures { IfOk result (λ b. b ≡ locks_from (declarations_of facts.now.declared.now) (known_of facts.now) p (passed_of args.now) 0 (passed_of args.now)) }
{
    for (i, arg) in args.iter().enumerate() {
        let locks = may_lock(alloc, facts, p, args, i, arg)?;
        if locks {
            return Ok(true);
        }
    }
    Ok(false)
}

fn locks_by(alloc: Global, facts: &Facts, p: Option<u32>, args: &[BoundArg]) -> Result<bool, Mem>
    ensures { IfOk result (λ b. b ≡ locks_by (declarations_of facts.now.declared.now) (known_of facts.now) p (passed_of args.now)) }
{
    match p {
        Some(p) => Ok(locks_from(alloc, facts, p, args)?),
        None => Ok(false),
    }
}

fn locks_at(alloc: Global, facts: &Facts, e: &BoundExpr) -> Result<bool, Mem>
    ensures { IfOk result (λ b. b ≡ locks_by (declarations_of facts.now.declared.now) (known_of facts.now) (called (expr_of e.now)) (args_at (expr_of e.now))) }
{
    Ok(locks_by(alloc, facts, called(e), args_at(e))?)
}

fn lock_nodes(alloc: Global, facts: &Facts, nodes: &[&BoundExpr]) -> Result<bool, Mem>
    ensures { IfOk result (λ b. b ≡ list_any (λ e. locks_by (declarations_of facts.now.declared.now) (known_of facts.now) (called e) (args_at e)) (map shown nodes.now)) }
{
    for e in nodes {
        let locks = locks_at(alloc, facts, e)?;
        if locks {
            return Ok(true);
        }
    }
    Ok(false)
}

/// Whether a line gives an element by reference while its array may be given other elements.
pub(crate) fn breaks_locks(alloc: Global, facts: &Facts, line: &LineRef) -> Result<bool, Mem>
    ensures { IfOk result (λ b. b ≡ breaks_locks (declarations_of facts.now.declared.now) (known_of facts.now) (shown_line line.now)) }
{
    let mut nodes = Vec::new(alloc);
    push_line_nodes(line, &mut nodes)?;
    Ok(lock_nodes(alloc, facts, &nodes)?)
}
