//! The analysis of a project.
ghost use Rattle.std.specs.Prelude.{◌≡◌, [], IfOk};
ghost use Rattle.bound_facts.specs.Facts.{AreFacts, Known, is_quiet, stirs};
ghost use Rattle.bound_tree.specs.View.{declarations_of, program_of};
ghost use Rattle.byref_analysis.specs.FactsOf.{known_of, seen};
ghost use Rattle.byref_analysis.specs.Quiet.{AreInward};
ghost use Rattle.byref_analysis.specs.Rows.{AreCalls, AreFound, HasNoOthers, heads_rules, lines_rules};
ghost use Rattle.byref_analysis.specs.Tests.{Tells};

use crate::facts::{Facts, calls_of, facts_of};
use crate::properties::heads_rules;
use crate::quiet::{inward_flags, quiet_flags};
use crate::rows::lines_rules;
use crate::sorted::sorted_calls;
use crate::stirring::Stirring;
use bound_tree::{Bound, Declared, LineRef, Marks, ObjectFacts, RefFacts, bound_lines};
use std::alloc::Global;
use up_base::{Issues, Mem, Sequence};
use vb_tree::ProcId;

/// Which procedures call which, which are inward, which parameters are quiet, and for each head and each code line which of the rules 7,
/// 8 and 26 it breaks by that. The As New variables are known from their declarations. The list of issues is left empty: it is made from
/// the marks of all analyses.
pub fn analyse_refs(alloc: Global, bound: &Bound, _objects: &ObjectFacts) -> Result<RefFacts, Mem>
    ensures calls { IfOk result (λ f. AreCalls (program_of bound.now) f.calls) }
    ensures inward { IfOk result (λ f. AreInward (program_of bound.now) f.inward) }
    ensures facts { IfOk result (λ f. (F : Known) × Tells (program_of bound.now) F × AreFound (program_of bound.now) F f) }
    ensures determined { IfOk result (λ f. (F : Known) → AreFacts (program_of bound.now) F → AreFound (program_of bound.now) F f) }
    ensures others { IfOk result (λ f. HasNoOthers f.marks) }
    ensures issues { IfOk result (λ f. f.issues ≡ []) }
{
    let lines = bound_lines(alloc, bound)?;
    Ok(found(alloc, &bound.declared, &lines)?)
}

fn found(alloc: Global, declared: &Declared, lines: &[Vec<LineRef>]) -> Result<RefFacts, Mem>
    ensures calls { IfOk result (λ f. AreCalls (seen declared.now lines.now) f.calls) }
    ensures inward { IfOk result (λ f. AreInward (seen declared.now lines.now) f.inward) }
    ensures facts { IfOk result (λ f. (F : Known) × Tells (seen declared.now lines.now) F × AreFound (seen declared.now lines.now) F f) }
    ensures others { IfOk result (λ f. HasNoOthers f.marks) }
    ensures issues { IfOk result (λ f. f.issues ≡ []) }
{
    let pairs = calls_of(alloc, declared, lines)?;
    let facts = facts_of(alloc, declared, lines, &pairs)?;
    let calls = sorted_calls(alloc, &pairs)?;
    Ok(found_by(alloc, declared, lines, &facts, calls)?)
}

// What is found by flags.
fn found_by(
    alloc: Global,
    declared: &Declared,
    lines: &[Vec<LineRef>],
    facts: &Facts,
    calls: Vec<(ProcId, ProcId)>,
) -> Result<RefFacts, Mem>
    ensures calls { IfOk result (λ f. f.calls ≡ calls.items) }
    ensures found { IfOk result (λ f. AreFound (seen declared.now lines.now) (known_of facts.now) f) }
    ensures others { IfOk result (λ f. HasNoOthers f.marks) }
    ensures issues { IfOk result (λ f. f.issues ≡ []) }
{
    let inward = inward_flags(alloc, facts, declared.procs.as_slice())?;
    let quiet = quiet_flags(alloc, declared, facts, declared.procs.as_slice())?;
    let marks = marks(alloc, declared, lines, facts)?;
    Ok(RefFacts {
        calls: Sequence::from_vec(calls),
        inward: Sequence::from_vec(inward),
        quiet: Sequence::from_vec(quiet),
        marks,
        issues: Issues::new(alloc),
    })
}

fn marks(
    alloc: Global,
    declared: &Declared,
    lines: &[Vec<LineRef>],
    facts: &Facts,
) -> Result<Marks, Mem>
    ensures lines { IfOk result (λ m. m.lines ≡ lines_rules (seen declared.now lines.now) (is_quiet (declarations_of declared.now) (known_of facts.now)) (stirs (declarations_of declared.now) (known_of facts.now))) }
    ensures heads { IfOk result (λ m. m.heads ≡ heads_rules (declarations_of declared.now) (is_quiet (declarations_of declared.now) (known_of facts.now))) }
    ensures others { IfOk result (λ m. HasNoOthers m) }
{
    let heads = heads_rules(alloc, declared, facts)?;
    let sets = lines_rules(alloc, &Stirring { declared, facts }, lines)?;
    Ok(Marks {
        lines: Sequence::from_vec(sets),
        heads: Sequence::from_vec(heads),
        vars: Sequence::new(alloc),
        consts: Sequence::new(alloc),
        types: Sequence::new(alloc),
        enums: Sequence::new(alloc),
    })
}
