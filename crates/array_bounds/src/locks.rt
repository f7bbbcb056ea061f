//! Which procedures reach a line that gives arrays of elements of a type other elements as a whole: flags for each type of which
//! an element is given by reference.
ghost use Rattle.std.specs.Prelude.{◌≡◌, ◌++◌, ◌↔◌, ℕ, true, IsTrue, IfOk, OnOk, length, map};
ghost use Rattle.std.specs.List.{list_all, list_any};
ghost use Rattle.reach_table.specs.Chains.{is_marked};
ghost use Rattle.vb_tree.specs.BoundTree.{Ty};
ghost use Rattle.vb_tree.specs.BoundView.{type_of};
ghost use Rattle.vb_tree.specs.View.{form_of};
ghost use Rattle.bound_tree.specs.Lines.{lines_of};
ghost use Rattle.bound_tree.specs.View.{declarations_of, expr_of, shown, shown_line};
ghost use Rattle.bound_facts.specs.Calls.{count_procedures};
ghost use Rattle.bound_facts.specs.Effects.{resized_stores};
ghost use Rattle.bound_facts.specs.Items.{project_items};
ghost use Rattle.bound_facts.specs.Leading.{LeadsTo};
ghost use Rattle.bound_facts.specs.Locks.{HoldsArray, is_locking_line, is_same_type, lock_items, lockers, makes_anew};
ghost use Rattle.bound_facts.specs.Node.{type_at};
ghost use Rattle.array_bounds.specs.Facts.{LocksBy};
ghost use Rattle.array_bounds.specs.Locking.{elements};
ghost use Rattle.array_bounds.specs.LockTables.{AreLocks, AreRight, IsRight, flags_in, has_type, is_lock_of, shown_type};
ghost use Rattle.array_bounds.specs.Programs.{shown_program};

use crate::elements::elements;
use crate::numbers::index;
use crate::resizes::resized_stores;
use crate::types::{Wanted, holders, is_same_type};
use bound_facts::{LineItems, leading_to, push_items};
use bound_tree::{BoundExpr, Declared, LineRef};
use std::alloc::Global;
use up_base::Mem;
use vb_tree::Type6;

/// The flags of a type.
#[derive(Drop)]
pub(crate) struct Lock<'a> {
    pub ty: &'a Type6,
    pub flags: Vec<bool>,
}

/// Whether a number is marked.
pub(crate) fn flag_at(flags: &[bool], n: u32) -> bool
    ensures { result ≡ is_marked flags.now n }
{
    match flags.get(n as usize) {
        Some(flag) => *flag,
        None => false,
    }
}

// ---- the lines

fn makes_anew(holds: &[bool], e: &Type6, ty: &Type6) -> bool
    ensures { result ≡ makes_anew (is_marked holds.now) (type_of e.now) (type_of ty.now) }
{
    match ty {
        Type6::Array(x, _) => is_same_type(e, x),
        Type6::User(t) => flag_at(holds, *t),
        _ => false,
    }
}

fn some_makes_anew(holds: &[bool], e: &Type6, stores: &[&BoundExpr]) -> bool
    ensures { result ≡ list_any (λ x. makes_anew (is_marked holds.now) (type_of e.now) (type_at x)) (map shown stores.now) }
{
    for x in stores {
        if makes_anew(holds, e, &x.ty) {
            return true;
        }
    }
    false
}

fn is_locking_line(alloc: Global, holds: &[bool], e: &Type6, line: &LineRef) -> Result<bool, Mem>
    ensures { IfOk result (λ b. b ≡ is_locking_line (is_marked holds.now) (type_of e.now) (shown_line line.now)) }
{
    let stores = resized_stores(alloc, &line.source.form, line.bound.exprs.as_slice())?;
    Ok(some_makes_anew(holds, e, &stores))
}

#[derive(Clone, Copy)]
struct LockItems<'a> {
    alloc: Global,
    holds: &'a [bool],
    e: &'a Type6,
}

impl LineItems for LockItems<'_> {
    type Item = u32;

    ghost items = { λ s i l. lock_items (is_marked s.holds.now) (type_of s.e.now) i l };

    fn push(
        &self,
        procedure: u32,
        line: &LineRef,
        _nodes: &[&BoundExpr],
        to: &mut Vec<u32>,
    ) -> Result<(), Mem> {
        let locks = is_locking_line(self.alloc, self.holds, self.e, line)?;
        if !locks {
            return Ok(());
        }
        Ok(to.push(procedure)?)
    }
}

fn lockers(
    alloc: Global,
    lines: &[Vec<LineRef>],
    holds: &[bool],
    e: &Type6,
) -> Result<Vec<u32>, Mem>
    ensures { IfOk result (λ v. v.items ≡ project_items (lock_items (is_marked holds.now) (type_of e.now)) (map lines_of lines.now)) }
{
    let mut list = Vec::new(alloc);
    push_items(alloc, lines, &LockItems { alloc, holds, e }, &mut list)?;
    Ok(list)
}

// ---- the flags of one type

fn flags_by(
    alloc: Global,
    declared: &Declared,
    lines: &[Vec<LineRef>],
    pairs: &[(u32, u32)],
    holds: &[bool],
    e: &Type6,
) -> Result<Vec<bool>, Mem>
    ensures { IfOk result (λ v. (p : ℕ) → IsTrue (is_marked v.items p) ↔ LeadsTo (count_procedures (shown_program declared.now lines.now)) pairs.now (lockers (shown_program declared.now lines.now) (is_marked holds.now) (type_of e.now)) p) }
{
    let list = lockers(alloc, lines, holds, e)?;
    let count = index(declared.procs.len())?;
    Ok(leading_to(alloc, count, pairs, &list)?)
}

fn array_holders(alloc: Global, declared: &Declared, e: &Type6) -> Result<Vec<bool>, Mem>
    ensures { IfOk result (λ v. (t : ℕ) → IsTrue (is_marked v.items t) ↔ HoldsArray (declarations_of declared.now) (type_of e.now) t) }
{
    Ok(holders(alloc, declared, &Wanted::ArrayOf(e))?)
}

fn lock_flags(
    alloc: Global,
    declared: &Declared,
    lines: &[Vec<LineRef>],
    pairs: &[(u32, u32)],
    e: &Type6,
) -> Result<Vec<bool>, Mem>
    ensures { IfOk result (λ v. (p : ℕ) → IsTrue (is_marked v.items p) ↔ LocksBy (shown_program declared.now lines.now) pairs.now (type_of e.now) p) }
{
    let holds = array_holders(alloc, declared, e)?;
    Ok(flags_by(alloc, declared, lines, pairs, &holds, e)?)
}

// ---- those of all types

fn has_type(locks: &[Lock], ty: &Type6) -> bool
    ensures { result ≡ has_type locks.now (type_of ty.now) }
{
    for k in locks {
        if is_same_type(ty, k.ty) {
            return true;
        }
    }
    false
}

/// The flags of a type.
pub(crate) fn flags_in<'a>(locks: &'a [Lock], ty: &Type6) -> &'a [bool]
    ensures { result.now ≡ flags_in locks.now (type_of ty.now) }
{
    for k in locks {
        if is_same_type(ty, k.ty) {
            return k.flags.as_slice();
        }
    }
    &[]
}

fn add_type<'a>(
    alloc: Global,
    declared: &Declared,
    lines: &[Vec<LineRef>],
    pairs: &[(u32, u32)],
    ty: &'a Type6,
    locks: &mut Vec<Lock<'a>>,
) -> Result<(), Mem>
    requires { AreRight (shown_program declared.now lines.now) pairs.now locks.old.items }
    ensures right { AreRight (shown_program declared.now lines.now) pairs.now locks.new.items }
    ensures kept { OnOk result ((e : Ty) → has_type locks.old.items e ≡ true → has_type locks.new.items e ≡ true) }
    ensures here { OnOk result (has_type locks.new.items (type_of ty.now) ≡ true) }
{
    if has_type(locks, ty) {
        return Ok(());
    }
    let flags = lock_flags(alloc, declared, lines, pairs, ty)?;
    Ok(locks.push(Lock { ty, flags })?)
}

fn add_types<'a>(
    alloc: Global,
    declared: &Declared,
    lines: &[Vec<LineRef>],
    pairs: &[(u32, u32)],
    types: &[&'a Type6],
) -> Result<Vec<Lock<'a>>, Mem>
    ensures right { IfOk result (λ v. AreRight (shown_program declared.now lines.now) pairs.now v.items) }
    ensures all { IfOk result (λ v. list_all (has_type v.items) (map shown_type types.now) ≡ true) }
{
    let mut locks = Vec::new(alloc);
    for ty in types {
        add_type(alloc, declared, lines, pairs, *ty, &mut locks)?;
    }
    Ok(locks)
}

/// The flags of each type of which an element is given by reference, by the pairs of procedures of which the first leads directly
/// to the second.
pub(crate) fn make_locks<'a>(
    alloc: Global,
    declared: &Declared,
    lines: &[Vec<LineRef<'a>>],
    pairs: &[(u32, u32)],
) -> Result<Vec<Lock<'a>>, Mem>
    ensures { IfOk result (λ v. AreLocks (shown_program declared.now lines.now) pairs.now (elements (shown_program declared.now lines.now)) v.items) }
{
    let types = elements(alloc, lines)?;
    Ok(add_types(alloc, declared, lines, pairs, &types)?)
}
