//! The passes, one after the other.
ghost use Rattle.std.specs.Prelude.{◌≡◌, ◌∷◌, [], length, map, IfOk};
ghost use Rattle.vb_tree.specs.View.{project_of};
ghost use Rattle.bound_tree.specs.View.{program_of};
ghost use Rattle.net_tree.specs.View as net;
ghost use Rattle.broken_rules.specs.Broken.{AreBroken};
ghost use Rattle.broken_rules.specs.Marks.{all_marks};
ghost use Rattle.broken_rules.specs.View.{AreFound, IsBoundTo, passes_of};
ghost use Rattle.project_upgrade.specs.Upgrades.{AreFactsOf, IsCleanCount, IsMade, IsMadeBeside, IsMadeOf, IsUpgraded, IsWritten, count_true};
ghost use Rattle.written_rows.specs.View.{facts_of};

use bound_tree::{Bound, Marks};
use broken_rules::{Found, bound_project, findings, further_issues, issues_found};
use clean_procedures::clean_procedures;
use net_rewrite::rewrite;
use net_tree::NetProject;
use std::alloc::Global;
use up_base::{Issue, Issues, Mem};
use vb_tree::Project6;
use written_facts::written_facts;
use written_rows::WrittenFacts;

/// What is made of a project.
#[derive(Drop)]
pub struct Upgraded {
    pub tree: NetProject,
    pub issues: Issues,
    /// How many procedures it has.
    pub procedures: usize,
    /// How many of them are clean.
    pub clean: usize,
}

// How many procedures there are, and how many of them are clean.
#[derive(Clone, Copy, Debug, PartialEq, Eq)]
struct ProcedureCounts {
    all: usize,
    clean: usize,
}

fn facts(alloc: Global, bound: &Bound, found: &Found) -> Result<WrittenFacts, Mem>
    requires { AreFound (program_of bound.now) found.now }
    ensures { IfOk result (λ f. AreFactsOf (program_of bound.now) (all_marks (passes_of bound.now found.now)) (facts_of f)) }
{
    let marks: [&Marks; 7] = [
        &bound.declared.marks,
        &bound.marks,
        &found.objects.marks,
        &found.refs.marks,
        &found.fixed.marks,
        &found.handlers.marks,
        &found.arrays.marks,
    ];
    Ok(written_facts(alloc, bound, &found.arrays, &marks)?)
}

fn written(alloc: Global, bound: &Bound, found: &Found) -> Result<NetProject, Mem>
    requires { AreFound (program_of bound.now) found.now }
    ensures { IfOk result (λ tree. IsWritten (program_of bound.now) (all_marks (passes_of bound.now found.now)) (net.project_of tree)) }
{
    let facts = facts(alloc, bound, found)?;
    let tree = rewrite(alloc, bound, &facts);
    drop(facts);
    tree
}

fn count_true(flags: &[bool]) -> usize
    ensures { result ≡ count_true flags.now }
{
    flags.iter().filter(|flag| **flag).count()
}

fn count_procedures(alloc: Global, bound: &Bound, found: &Found) -> Result<ProcedureCounts, Mem>
    ensures all { IfOk result (λ n. n.all ≡ length (program_of bound.now).declarations.procs) }
    ensures clean { IfOk result (λ n. IsCleanCount (program_of bound.now) (all_marks (passes_of bound.now found.now)) n.clean) }
{
    let marks: [&Marks; 7] = [
        &bound.declared.marks,
        &bound.marks,
        &found.objects.marks,
        &found.refs.marks,
        &found.fixed.marks,
        &found.handlers.marks,
        &found.arrays.marks,
    ];
    let flags = clean_procedures(alloc, bound, &marks)?;
    Ok(ProcedureCounts {
        all: flags.len(),
        clean: count_true(&flags),
    })
}

fn made(alloc: Global, bound: &Bound, found: &Found, further: Vec<Issue>) -> Result<Upgraded, Mem>
    requires { AreFound (program_of bound.now) found.now }
    ensures { IfOk result (λ u. IsMadeOf bound.now found.now further.items u) }
{
    let issues = issues_found(alloc, bound, found, further)?;
    let counts = count_procedures(alloc, bound, found)?;
    let tree = written(alloc, bound, found)?;
    Ok(Upgraded {
        tree,
        issues,
        procedures: counts.all,
        clean: counts.clean,
    })
}

fn made_of_bound(alloc: Global, bound: &Bound, further: Vec<Issue>) -> Result<Upgraded, Mem>
    ensures { IfOk result (λ u. IsMade bound.now further.items u) }
{
    let found = findings(alloc, bound)?;
    let upgraded = made(alloc, bound, &found, further);
    drop(found);
    upgraded
}

fn made_beside(alloc: Global, project: Project6, further: Vec<Issue>) -> Result<Upgraded, Mem>
    ensures { IfOk result (λ u. IsMadeBeside (project_of project) further.items u) }
{
    let bound = bound_project(alloc, project)?;
    let upgraded = made_of_bound(alloc, &bound, further);
    drop(bound);
    upgraded
}

/// What is written for a project, its issues, and how many procedures it has. A name that is no name of .NET, a number
/// that no literal has room for, or a rank from 255 on is answered as want of memory.
#[tactic(auto, using(crate::proofs::Broken::upgraded_beside, crate::proofs::Broken::are_broken))]
pub fn upgrade_project(alloc: Global, project: Project6) -> Result<Upgraded, Mem>
    ensures upgraded { IfOk result (λ u. IsUpgraded (project_of project) u) }
    ensures issues { IfOk result (λ u. AreBroken (project_of project) u.issues) }
{
    match further_issues(alloc, &project) {
        Ok(further) => Ok(made_beside(alloc, project, further)?),
        Err(Mem) => {
            drop(project);
            Err(Mem)
        }
    }
}
