//! The rules that the marks of several passes have together.
ghost use Rattle.std.specs.Prelude.{◌≡◌, IfOk, map, slice_get};
ghost use Rattle.std.specs.List.{range_with_len};
ghost use Rattle.bound_tree.specs.declared.marks.Marks.{Marks};
ghost use Rattle.written_trees.specs.Facts.{set_at};
ghost use Rattle.written_facts.specs.United.{AreUnited, lists_at, longest, or_empty, sets_of, shown_list, shown_marks, union_at, united, united_lists};

use bound_tree::{Marks, RuleSet};
use std::alloc::Global;
use up_base::{Mem, Sequence};

// The declarations with a list of sets of their own.
#[derive(Clone, Copy)]
pub(crate) enum Kind {
    Heads,
    Vars,
    Consts,
    Types,
    Enums,
}

// ---- unions of lists

fn set_at(sets: &[RuleSet], k: usize) -> RuleSet
    ensures { result ≡ set_at sets.now k }
{
    match sets.get(k) {
        Some(set) => *set,
        None => RuleSet::new(),
    }
}

fn union_at(lists: &[&[RuleSet]], k: usize) -> RuleSet
    ensures { result ≡ union_at (map shown_list lists.now) k }
{
    let mut all = RuleSet::new();
    for i in (0..lists.len()).rev() {
        all = set_at(lists[i], k).union(all);
    }
    all
}

fn longest<T>(lists: &[&[T]]) -> usize
    ensures { result ≡ longest (map shown_list lists.now) }
{
    let mut count = 0;
    for i in (0..lists.len()).rev() {
        count = lists[i].len().max(count);
    }
    count
}

fn unions(alloc: Global, lists: &[&[RuleSet]], count: usize) -> Result<Vec<RuleSet>, Mem>
    ensures { IfOk result (λ v. v.items ≡ map (union_at (map shown_list lists.now)) (range_with_len 0 count)) }
{
    let mut sets = Vec::with_capacity(alloc, count)?;
    for k in 0..count {
        sets.push(union_at(lists, k))?;
    }
    Ok(sets)
}

fn united(alloc: Global, lists: &[&[RuleSet]]) -> Result<Vec<RuleSet>, Mem>
    ensures { IfOk result (λ v. v.items ≡ united (map shown_list lists.now)) }
{
    Ok(unions(alloc, lists, longest(lists))?)
}

// ---- declarations

fn sets_of(kind: Kind, marks: &Marks) -> &[RuleSet]
    ensures { result.now ≡ sets_of kind marks.now }
{
    match kind {
        Kind::Heads => marks.heads.as_slice(),
        Kind::Vars => marks.vars.as_slice(),
        Kind::Consts => marks.consts.as_slice(),
        Kind::Types => marks.types.as_slice(),
        Kind::Enums => marks.enums.as_slice(),
    }
}

fn lists_of<'a>(alloc: Global, kind: Kind, marks: &[&'a Marks]) -> Result<Vec<&'a [RuleSet]>, Mem>
    ensures { IfOk result (λ v. map shown_list v.items ≡ map (sets_of kind) (map shown_marks marks.now)) }
{
    let mut lists = Vec::new(alloc);
    for m in marks {
        lists.push(sets_of(kind, m))?;
    }
    Ok(lists)
}

fn united_of(alloc: Global, kind: Kind, marks: &[&Marks]) -> Result<Sequence<RuleSet>, Mem>
    ensures { IfOk result (λ s. s ≡ united (map (sets_of kind) (map shown_marks marks.now))) }
{
    let lists = lists_of(alloc, kind, marks)?;
    Ok(Sequence::from_vec(united(alloc, &lists)?))
}

// ---- code lines

fn list_at(table: &[Sequence<RuleSet>], p: usize) -> &[RuleSet]
    ensures { result.now ≡ or_empty (slice_get table.now p) }
{
    match table.get(p) {
        Some(list) => list.as_slice(),
        None => &[],
    }
}

fn lists_at<'a>(
    alloc: Global,
    tables: &[&'a [Sequence<RuleSet>]],
    p: usize,
) -> Result<Vec<&'a [RuleSet]>, Mem>
    ensures { IfOk result (λ v. map shown_list v.items ≡ lists_at (map shown_list tables.now) p) }
{
    let mut lists = Vec::new(alloc);
    for t in tables {
        lists.push(list_at(t, p))?;
    }
    Ok(lists)
}

fn united_at(
    alloc: Global,
    tables: &[&[Sequence<RuleSet>]],
    p: usize,
) -> Result<Sequence<RuleSet>, Mem>
    ensures { IfOk result (λ s. s ≡ united (lists_at (map shown_list tables.now) p)) }
{
    let lists = lists_at(alloc, tables, p)?;
    Ok(Sequence::from_vec(united(alloc, &lists)?))
}

fn united_rows(
    alloc: Global,
    tables: &[&[Sequence<RuleSet>]],
    count: usize,
) -> Result<Vec<Sequence<RuleSet>>, Mem>
    ensures { IfOk result (λ v. v.items ≡ map (λ p. united (lists_at (map shown_list tables.now) p)) (range_with_len 0 count)) }
{
    let mut rows = Vec::new(alloc);
    for p in 0..count {
        rows.push(united_at(alloc, tables, p)?)?;
    }
    Ok(rows)
}

fn tables_of<'a>(alloc: Global, marks: &[&'a Marks]) -> Result<Vec<&'a [Sequence<RuleSet>]>, Mem>
    ensures { IfOk result (λ v. map shown_list v.items ≡ map (λ (m : Marks). m.lines) (map shown_marks marks.now)) }
{
    let mut tables = Vec::new(alloc);
    for m in marks {
        tables.push(m.lines.as_slice())?;
    }
    Ok(tables)
}

fn united_lines(alloc: Global, marks: &[&Marks]) -> Result<Sequence<Sequence<RuleSet>>, Mem>
    ensures { IfOk result (λ s. s ≡ united_lists (map (λ (m : Marks). m.lines) (map shown_marks marks.now))) }
{
    let tables = tables_of(alloc, marks)?;
    Ok(Sequence::from_vec(united_rows(alloc, &tables, longest(&tables))?))
}

// ---- all of them

/// For each code line and each declaration the rules that any of the marks has.
pub(crate) fn united_marks(alloc: Global, marks: &[&Marks]) -> Result<Marks, Mem>
    ensures { IfOk result (λ m. AreUnited (map shown_marks marks.now) m) }
{
    Ok(Marks {
        lines: united_lines(alloc, marks)?,
        heads: united_of(alloc, Kind::Heads, marks)?,
        vars: united_of(alloc, Kind::Vars, marks)?,
        consts: united_of(alloc, Kind::Consts, marks)?,
        types: united_of(alloc, Kind::Types, marks)?,
        enums: united_of(alloc, Kind::Enums, marks)?,
    })
}
