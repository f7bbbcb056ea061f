//! Which nodes the chains of pairs lead to, and in how many steps that is found.
ghost use Rattle.std.specs.Prelude.{◌≡◌, ℕ, ◌+◌, ◌<◌, ◌≤◌, ◌↔◌, Contains, IfOk, IsTrue, length};
ghost use Rattle.reach_table.specs.Chains.{IsSymmetric};

use reach_table::{Arrows, Steps, parts, spread};
use std::alloc::{AllocError, Global};
use std::marker::Brand;
use std::process::Abort;
use std::sync::ledger::{Blank, Ledger};
use std::test::Fail;
use up_base::Mem;

type Pair = (u32, u32);

fn table(rt: &impl Abort, alloc: Global, nodes: u32, pairs: &[Pair]) -> Result<Arrows, Mem>
    ensures nodes { IfOk result (λ arrows. arrows.nodes ≡ nodes) }
    ensures pairs { IfOk result (λ arrows. (p : ℕ × ℕ) → Contains arrows.pairs p ↔ Contains pairs.now p) }
{
    assert!(rt; pairs.len() < 100);
    assert!(rt; pairs.iter().all(|p| p.0 < nodes && p.1 < nodes));
    Arrows::make(alloc, nodes, pairs)
}

fn symmetric_table(
    rt: &impl Abort,
    alloc: Global,
    nodes: u32,
    pairs: &[Pair],
) -> Result<Arrows, Mem>
    ensures { IfOk result (λ arrows. IsSymmetric arrows.pairs) }
{
    assert_symmetric(rt, pairs);
    Ok(table(rt, alloc, nodes, pairs)?)
}

fn assert_symmetric(rt: &impl Abort, pairs: &[Pair])
    ensures { IsSymmetric pairs.now }
{
    assert!(rt; is_symmetric(pairs));
}

fn is_symmetric(pairs: &[Pair]) -> bool
    ensures { IsTrue result → IsSymmetric pairs.now }
{
    pairs.iter().all(|p| pairs.contains(&(p.1, p.0)))
}

// For each node, whether it is one of these.
fn flags(alloc: Global, nodes: u32, marked: &[u32]) -> Result<Vec<bool>, AllocError>
    ensures { IfOk result (λ flags. length flags.items ≡ nodes) }
{
    (0..nodes).map(|node| marked.contains(&node)).collect(alloc)
}

fn spread_of<L: Ledger>(
    alloc: Global,
    arrows: &Arrows,
    marked: &[bool],
    blank: Blank,
) -> Result<Vec<bool>, Mem>
    requires name { blank.name ≡ L.name }
    requires parts { blank.parts ≡ L.parts }
    requires some { 0 < blank.parts }
    requires marked { length marked.now ≡ arrows.now.nodes }
{
    spread(alloc, arrows, marked, &mut Steps::<L>::new(blank))
}

fn parts_of<L: Ledger>(alloc: Global, arrows: &Arrows, blank: Blank) -> Result<Vec<u32>, Mem>
    requires name { blank.name ≡ L.name }
    requires parts { blank.parts ≡ L.parts }
    requires some { 0 < blank.parts }
    requires symmetric { IsSymmetric arrows.now.pairs }
{
    parts(alloc, arrows, &mut Steps::<L>::new(blank))
}

#[test]
fn spreads(rt: HostRuntime) -> Result<(), Fail> {
    let alloc = rt.alloc();
    let rows: [(u32, &[Pair], &[u32], &[u32]); 11] = [
        (4, &[(3, 0), (0, 1), (1, 2)], &[0], &[0, 1, 2]),
        (
            5,
            &[(0, 1), (1, 2), (2, 3), (3, 4), (4, 0)],
            &[2],
            &[0, 1, 2, 3, 4],
        ),
        (2, &[(0, 0)], &[0], &[0]),
        (2, &[(0, 0)], &[1], &[1]),
        (3, &[(1, 0), (2, 1)], &[0], &[0]),
        (
            5,
            &[(0, 1), (0, 2), (1, 3), (2, 3), (4, 3)],
            &[0],
            &[0, 1, 2, 3],
        ),
        (3, &[(0, 1), (1, 2), (0, 1), (1, 2)], &[0], &[0, 1, 2]),
        (3, &[], &[1], &[1]),
        (3, &[(0, 1), (1, 2)], &[], &[]),
        (0, &[], &[], &[]),
        (
            12,
            &[
                (0, 1),
                (1, 0),
                (2, 3),
                (4, 5),
                (5, 6),
                (6, 4),
                (7, 7),
                (8, 9),
                (9, 10),
                (10, 11),
            ],
            &[2, 5, 9],
            &[2, 3, 4, 5, 6, 9, 10, 11],
        ),
    ];
    for (nodes, pairs, marked, reached) in rows {
        let arrows = table(&rt, alloc, nodes, pairs)?;
        let marked = flags(alloc, nodes, marked)?;
        let found = spread_of::<Brand>(alloc, &arrows, &marked, Blank::new(1))?;
        let reached = flags(alloc, nodes, reached)?;
        assert_eq!(rt; found.as_slice(), reached.as_slice(), "of {pairs:?}");
    }
    Ok(())
}

#[test]
fn finds_parts(rt: HostRuntime) -> Result<(), Fail> {
    let alloc = rt.alloc();
    let rows: [(u32, &[Pair], &[u32]); 7] = [
        (3, &[(0, 2), (2, 0)], &[0, 1, 0]),
        (
            4,
            &[(3, 2), (2, 3), (2, 1), (1, 2), (1, 0), (0, 1)],
            &[0, 0, 0, 0],
        ),
        (
            4,
            &[(1, 2), (2, 3), (3, 1), (2, 1), (3, 2), (1, 3)],
            &[0, 1, 1, 1],
        ),
        (2, &[(1, 1)], &[0, 1]),
        (2, &[(0, 1), (1, 0), (0, 1), (1, 0)], &[0, 0]),
        (0, &[], &[]),
        (
            12,
            &[
                (3, 7),
                (7, 3),
                (7, 11),
                (11, 7),
                (1, 2),
                (2, 1),
                (4, 10),
                (10, 4),
                (10, 5),
                (5, 10),
            ],
            &[0, 1, 1, 3, 4, 4, 6, 3, 8, 9, 4, 3],
        ),
    ];
    for (nodes, pairs, least) in rows {
        let arrows = symmetric_table(&rt, alloc, nodes, pairs)?;
        let found = parts_of::<Brand>(alloc, &arrows, Blank::new(1))?;
        assert_eq!(rt; found.as_slice(), least, "of {pairs:?}");
    }
    Ok(())
}

fn spread_within_three<L: Ledger>(
    rt: &impl Abort,
    alloc: Global,
    steps: &mut Steps<L>,
) -> Result<Vec<bool>, Mem>
    ensures { steps.new ≤ steps.old + 3 }
{
    let arrows = table(rt, alloc, 4, &[(3, 0), (0, 1), (1, 2)])?;
    assert_eq!(rt; arrows.count(), 3);
    spread(alloc, &arrows, &[true, false, false, false], steps)
}

fn parts_within_two<L: Ledger>(
    rt: &impl Abort,
    alloc: Global,
    steps: &mut Steps<L>,
) -> Result<Vec<u32>, Mem>
    ensures { steps.new ≤ steps.old + 2 }
{
    let arrows = symmetric_table(rt, alloc, 3, &[(0, 2), (2, 0)])?;
    assert_eq!(rt; arrows.count(), 2);
    parts(alloc, &arrows, steps)
}

fn bounds_steps_of<L: Ledger>(rt: &impl Abort, alloc: Global, blank: Blank) -> Result<(), Mem>
    requires name { blank.name ≡ L.name }
    requires parts { blank.parts ≡ L.parts }
    requires some { 0 < blank.parts }
{
    let mut steps = Steps::<L>::new(blank);
    let reached = spread_within_three(rt, alloc, &mut steps)?;
    assert_eq!(rt; reached.as_slice(), [true, true, true, false].as_slice());
    let least = parts_within_two(rt, alloc, &mut steps)?;
    assert_eq!(rt; least.as_slice(), [0, 1, 0].as_slice());
    Ok(())
}

#[test]
fn bounds_steps(rt: HostRuntime) -> Result<(), Fail> {
    Ok(bounds_steps_of::<Brand>(&rt, rt.alloc(), Blank::new(1))?)
}

#[test]
fn sorts_pairs(rt: HostRuntime) -> Result<(), Fail> {
    let arrows = table(
        &rt,
        rt.alloc(),
        4,
        &[(3, 0), (0, 1), (0, 1), (0, 0), (3, 0)],
    )?;
    assert_eq!(rt; arrows.nodes(), 4);
    assert_eq!(rt; arrows.count(), 3);
    for (node, run) in [(0, (0, 2)), (1, (0, 0)), (2, (0, 0)), (3, (2, 1))] {
        assert!(rt; node < arrows.nodes());
        assert_eq!(rt; arrows.run_of(node), run, "of {node}");
    }
    read_all::<Brand>(&rt, &arrows, &[(0, 0), (0, 1), (3, 0)], Blank::new(1));
    Ok(())
}

fn read_all<L: Ledger>(rt: &impl Abort, arrows: &Arrows, pairs: &[Pair], blank: Blank)
    requires name { blank.name ≡ L.name }
    requires parts { blank.parts ≡ L.parts }
    requires some { 0 < blank.parts }
{
    let mut steps = Steps::<L>::new(blank);
    for k in 0..arrows.count() {
        assert_eq!(rt;
            Some(arrows.at(k, &mut steps)),
            pairs.get(k as usize).copied()
        );
    }
}
