//! The passes over a project, one after the other.
ghost use Rattle.std.specs.Prelude.{◌≡◌, IfOk};
ghost use Rattle.vb_tree.specs.View.{project_of};
ghost use Rattle.bound_tree.specs.View.{program_of};
ghost use Rattle.error_handlers.specs.Rows.{AreOfLines, line_rules};
ghost use Rattle.issue_sets.specs.Marked.{AreIssues};
ghost use Rattle.broken_rules.specs.Broken.{AreBroken};
ghost use Rattle.broken_rules.specs.Marks.{AreFixedBy, AreOfObjects, all_marks};
ghost use Rattle.broken_rules.specs.View.{AreFound, AreFoundIn, AreRefs, IsAnalysed, IsBoundTo, passes_of};

use crate::further::further_issues;
use array_bounds::analyse_arrays;
use binder::bind;
use bound_tree::{ArrayFacts, Bound, FixedFacts, HandlerFacts, Marks, ObjectFacts, RefFacts};
use byref_analysis::analyse_refs;
use declarations::declare;
use error_handlers::analyse_handlers;
use fixed_strings::analyse_fixed;
use issue_sets::issues_of;
use object_rules::resolve_objects;
use std::alloc::Global;
use up_base::{Issue, Issues, Mem};
use vb_tree::Project6;

// Facts and trees are let go of by `drop`, so that no proof goes through their parts at each way out.

/// What the analyses find.
#[derive(Drop)]
pub struct Found {
    pub objects: ObjectFacts,
    pub refs: RefFacts,
    pub fixed: FixedFacts,
    pub handlers: HandlerFacts,
    pub arrays: ArrayFacts,
}

fn behind_handlers(
    alloc: Global,
    bound: &Bound,
    objects: ObjectFacts,
    refs: RefFacts,
    fixed: FixedFacts,
    handlers: HandlerFacts,
) -> Result<Found, Mem>
    requires objects { AreOfObjects (program_of bound.now) objects.marks }
    requires refs { AreRefs (program_of bound.now) refs }
    requires fixed { AreFixedBy (program_of bound.now) refs.quiet fixed.marks }
    requires handlers { AreOfLines handlers.marks (line_rules (program_of bound.now)) }
    ensures { IfOk result (λ f. AreFound (program_of bound.now) f) }
{
    match analyse_arrays(alloc, bound, &refs) {
        Ok(arrays) => Ok(Found {
            objects,
            refs,
            fixed,
            handlers,
            arrays,
        }),
        Err(Mem) => {
            drop(handlers);
            drop(fixed);
            drop(refs);
            drop(objects);
            Err(Mem)
        }
    }
}

fn behind_fixed(
    alloc: Global,
    bound: &Bound,
    objects: ObjectFacts,
    refs: RefFacts,
    fixed: FixedFacts,
) -> Result<Found, Mem>
    requires objects { AreOfObjects (program_of bound.now) objects.marks }
    requires refs { AreRefs (program_of bound.now) refs }
    requires fixed { AreFixedBy (program_of bound.now) refs.quiet fixed.marks }
    ensures { IfOk result (λ f. AreFound (program_of bound.now) f) }
{
    match analyse_handlers(alloc, bound) {
        Ok(handlers) => behind_handlers(alloc, bound, objects, refs, fixed, handlers),
        Err(Mem) => {
            drop(fixed);
            drop(refs);
            drop(objects);
            Err(Mem)
        }
    }
}

fn behind_refs(
    alloc: Global,
    bound: &Bound,
    objects: ObjectFacts,
    refs: RefFacts,
) -> Result<Found, Mem>
    requires objects { AreOfObjects (program_of bound.now) objects.marks }
    requires refs { AreRefs (program_of bound.now) refs }
    ensures { IfOk result (λ f. AreFound (program_of bound.now) f) }
{
    match analyse_fixed(alloc, bound, &refs) {
        Ok(fixed) => behind_fixed(alloc, bound, objects, refs, fixed),
        Err(Mem) => {
            drop(refs);
            drop(objects);
            Err(Mem)
        }
    }
}

/// What the analyses find in a bound project.
pub fn findings(alloc: Global, bound: &Bound) -> Result<Found, Mem>
    ensures { IfOk result (λ f. AreFound (program_of bound.now) f) }
{
    let objects = resolve_objects(alloc, bound)?;
    match analyse_refs(alloc, bound, &objects) {
        Ok(refs) => behind_refs(alloc, bound, objects, refs),
        Err(Mem) => {
            drop(objects);
            Err(Mem)
        }
    }
}

/// The issues of a bound project, by what all passes mark, with further ones.
pub fn issues_found(
    alloc: Global,
    bound: &Bound,
    found: &Found,
    further: Vec<Issue>,
) -> Result<Issues, Mem>
    ensures { IfOk result (λ issues. AreIssues (program_of bound.now) (all_marks (passes_of bound.now found.now)) further.items issues) }
{
    let marks: [&Marks; 7] = [
        &bound.declared.marks,
        &bound.marks,
        &found.objects.marks,
        &found.refs.marks,
        &found.fixed.marks,
        &found.handlers.marks,
        &found.arrays.marks,
    ];
    Ok(issues_of(alloc, bound, &marks, further)?)
}

fn issues_in(alloc: Global, bound: &Bound, further: Vec<Issue>) -> Result<Issues, Mem>
    ensures { IfOk result (λ issues. AreFoundIn bound.now further.items issues) }
{
    let found = findings(alloc, bound)?;
    let issues = issues_found(alloc, bound, &found, further);
    drop(found);
    issues
}

/// A project and the rules that it breaks.
#[derive(Drop)]
pub struct Analysed {
    pub project: Project6,
    pub issues: Issues,
}

/// A project with its declarations and its lines bound.
pub fn bound_project(alloc: Global, project: Project6) -> Result<Bound, Mem>
    ensures { IfOk result (λ b. IsBoundTo (project_of project) b) }
{
    let declared = declare(alloc, project)?;
    Ok(bind(alloc, declared)?)
}

// The project that was bound. All else is let go of.
fn released(bound: Bound) -> Project6
    ensures { result ≡ bound.declared.project }
{
    bound.declared.project
}

fn analysed_bound(alloc: Global, bound: Bound, further: Vec<Issue>) -> Result<Analysed, Mem>
    ensures project { IfOk result (λ a. a.project ≡ bound.declared.project) }
    ensures issues { IfOk result (λ a. AreFoundIn bound further.items a.issues) }
{
    match issues_in(alloc, &bound, further) {
        Ok(issues) => Ok(Analysed {
            project: released(bound),
            issues,
        }),
        Err(Mem) => {
            drop(bound);
            Err(Mem)
        }
    }
}

fn analysed_beside(alloc: Global, project: Project6, further: Vec<Issue>) -> Result<Analysed, Mem>
    ensures { IfOk result (λ a. IsAnalysed (project_of project) further.items a) }
{
    let bound = bound_project(alloc, project)?;
    Ok(analysed_bound(alloc, bound, further)?)
}

/// The rules that a project breaks, with the project, which is as it was.
pub fn broken_rules(alloc: Global, project: Project6) -> Result<Analysed, Mem>
    ensures project { IfOk result (λ a. project_of a.project ≡ project_of project) }
    ensures issues { IfOk result (λ a. AreBroken (project_of project) a.issues) }
{
    match further_issues(alloc, &project) {
        Ok(further) => Ok(analysed_beside(alloc, project, further)?),
        Err(Mem) => {
            drop(project);
            Err(Mem)
        }
    }
}
