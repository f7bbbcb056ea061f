//! The rules that heads of procedures break.
ghost use Rattle.std.specs.Prelude.{◌≡◌, IfOk, map};
ghost use Rattle.bound_tree.specs.View.{declarations_of, procedure_of};
ghost use Rattle.object_rules.specs.Rows.{head_rules, heads_rules};
ghost use Rattle.object_rules.specs.Shapes.{AreShapes};

use crate::shapes::{NotedParts, breaks_noted, noted_parts};
use crate::terminators::is_terminator;
use bound_tree::{Declared, ProcDecl, RuleSet};
use std::alloc::Global;
use up_base::Mem;

fn head_rules(declared: &Declared, noted: &NotedParts, p: &ProcDecl) -> RuleSet
    requires { AreShapes (declarations_of declared.now) noted.now }
    ensures { result ≡ head_rules (declarations_of declared.now) (procedure_of p.now) }
{
    RuleSet::new()
        .with_if(7, breaks_noted(noted, p))
        .with_if(13, is_terminator(declared, p))
}

fn rules_of(
    alloc: Global,
    declared: &Declared,
    noted: &NotedParts,
    procs: &[ProcDecl],
) -> Result<Vec<RuleSet>, Mem>
    requires { AreShapes (declarations_of declared.now) noted.now }
    ensures { IfOk result (λ v. v.items ≡ map (head_rules (declarations_of declared.now)) (map procedure_of procs.now)) }
{
    let mut sets = Vec::new(alloc);
    for p in procs {
        sets.push(head_rules(declared, noted, p))?;
    }
    Ok(sets)
}

/// The set of the head of each procedure.
pub(crate) fn heads_rules(alloc: Global, declared: &Declared) -> Result<Vec<RuleSet>, Mem>
    ensures { IfOk result (λ v. v.items ≡ heads_rules (declarations_of declared.now)) }
{
    let noted = noted_parts(alloc, declared)?;
    Ok(rules_of(alloc, declared, &noted, declared.procs.as_slice())?)
}
