//! The analysis of a project.
ghost use Rattle.std.specs.Prelude.{◌≡◌, ◌++◌, [], IfOk, OnOk, map};
ghost use Rattle.vb_tree.specs.declared.declared.ProcId.{ProcId};
ghost use Rattle.bound_tree.specs.Lines.{lines_of};
ghost use Rattle.bound_tree.specs.View.{declarations_of, procedure_of, program_of, shown_line, variable_of};
ghost use Rattle.array_bounds.specs.Facts.{AreCalls, AreFacts, pair_of_call};
ghost use Rattle.array_bounds.specs.FactsOf.{AreMarksBy, known_of};
ghost use Rattle.array_bounds.specs.Found.{AreLows, AreRanks, low_items, rank_items};
ghost use Rattle.array_bounds.specs.Known.{Known};
ghost use Rattle.array_bounds.specs.Programs.{shown_program};
ghost use Rattle.array_bounds.specs.Rows.{AreMarks, AreMarksOf, head_rules, line_rules, variable_rules, variables_rules};

use crate::declaring::{breaks_head, breaks_variable, splits_variable};
use crate::facts::{Facts, make_facts};
use crate::found::{low_items, rank_items};
use crate::locking::breaks_locks;
use crate::misfits::breaks_forms;
use crate::resizing::breaks_lows;
use bound_tree::{
    ArrayFacts, Bound, Declared, LineRef, Marks, ProcDecl, RefFacts, RuleSet, VarDecl, bound_lines,
};
use std::alloc::Global;
use up_base::{Issues, Mem, Sequence};
use vb_tree::ProcId;

/// The lower bounds and the rank of each array, and for each line, each head and each declaration which of the rules 9, 10 and 11 it
/// breaks, by the pairs of procedures of which the first leads directly to the second. The list of issues is left empty: it is made
/// from the marks of all analyses.
pub fn analyse_arrays(alloc: Global, bound: &Bound, refs: &RefFacts) -> Result<ArrayFacts, Mem>
    ensures lows { IfOk result (λ f. AreLows (program_of bound.now) f.lows) }
    ensures ranks { IfOk result (λ f. AreRanks (program_of bound.now) f.ranks) }
    ensures marks { IfOk result (λ f. AreCalls (program_of bound.now) refs.now.calls → AreMarks (program_of bound.now) f.marks) }
    ensures determined { IfOk result (λ f. AreCalls (program_of bound.now) refs.now.calls → (F : Known) → AreFacts (program_of bound.now) F → AreMarksOf (program_of bound.now) F f.marks) }
    ensures issues { IfOk result (λ f. f.issues ≡ []) }
{
    let lines = bound_lines(alloc, bound)?;
    let pairs = call_pairs(alloc, refs.calls.as_slice())?;
    Ok(found(alloc, &bound.declared, &lines, &pairs)?)
}

fn call_pairs(alloc: Global, calls: &[(ProcId, ProcId)]) -> Result<Vec<(u32, u32)>, Mem>
    ensures { IfOk result (λ v. v.items ≡ map pair_of_call calls.now) }
{
    let mut pairs = Vec::new(alloc);
    for c in calls {
        pairs.push((c.0.0, c.1.0))?;
    }
    Ok(pairs)
}

// What is found of a project, with its facts.
fn found(
    alloc: Global,
    declared: &Declared,
    lines: &[Vec<LineRef>],
    pairs: &[(u32, u32)],
) -> Result<ArrayFacts, Mem>
    ensures lows { IfOk result (λ f. AreLows (shown_program declared.now lines.now) f.lows) }
    ensures ranks { IfOk result (λ f. AreRanks (shown_program declared.now lines.now) f.ranks) }
    ensures marks { IfOk result (λ f. AreMarksBy (shown_program declared.now lines.now) pairs.now f.marks) }
    ensures issues { IfOk result (λ f. f.issues ≡ []) }
{
    let facts = make_facts(alloc, declared, lines, pairs)?;
    Ok(found_by(alloc, declared, lines, &facts)?)
}

fn found_by(
    alloc: Global,
    declared: &Declared,
    lines: &[Vec<LineRef>],
    facts: &Facts,
) -> Result<ArrayFacts, Mem>
    requires { facts.now.declared.now ≡ declared.now }
    ensures lows { IfOk result (λ f. f.lows ≡ low_items (known_of facts.now) 0 (map variable_of declared.now.vars)) }
    ensures ranks { IfOk result (λ f. f.ranks ≡ rank_items (known_of facts.now) 0 (map variable_of declared.now.vars)) }
    ensures marks { IfOk result (λ f. AreMarksOf (shown_program declared.now lines.now) (known_of facts.now) f.marks) }
    ensures issues { IfOk result (λ f. f.issues ≡ []) }
{
    let lows = low_items(alloc, facts, declared.vars.as_slice())?;
    let ranks = rank_items(alloc, facts, declared.vars.as_slice())?;
    let marks = marks(alloc, declared, lines, facts)?;
    Ok(ArrayFacts {
        lows: Sequence::from_vec(lows),
        ranks: Sequence::from_vec(ranks),
        marks,
        issues: Issues::new(alloc),
    })
}

// ---- the sets

fn line_rules(alloc: Global, facts: &Facts, line: &LineRef) -> Result<RuleSet, Mem>
    ensures { IfOk result (λ set. set ≡ line_rules (declarations_of facts.now.declared.now) (known_of facts.now) (shown_line line.now)) }
{
    let lows = breaks_lows(alloc, line)?;
    let locks = breaks_locks(alloc, facts, line)?;
    let forms = breaks_forms(alloc, facts, line)?;
    Ok(
        RuleSet::new()
            .with_if(9, lows)
            .with_if(10, locks)
            .with_if(11, forms),
    )
}

fn body_rules(alloc: Global, facts: &Facts, lines: &[LineRef]) -> Result<Vec<RuleSet>, Mem>
    ensures { IfOk result (λ v. v.items ≡ map (line_rules (declarations_of facts.now.declared.now) (known_of facts.now)) (map shown_line lines.now)) }
{
    let mut sets = Vec::new(alloc);
    for line in lines {
        sets.push(line_rules(alloc, facts, line)?)?;
    }
    Ok(sets)
}

fn lines_rules(
    alloc: Global,
    facts: &Facts,
    lines: &[Vec<LineRef>],
) -> Result<Vec<Sequence<RuleSet>>, Mem>
    ensures { IfOk result (λ v. v.items ≡ map (map (line_rules (declarations_of facts.now.declared.now) (known_of facts.now))) (map lines_of lines.now)) }
{
    let mut all = Vec::new(alloc);
    for body in lines {
        all.push(Sequence::from_vec(body_rules(alloc, facts, body)?))?;
    }
    Ok(all)
}

fn heads_rules(alloc: Global, facts: &Facts, procs: &[ProcDecl]) -> Result<Vec<RuleSet>, Mem>
    ensures { IfOk result (λ v. v.items ≡ map (head_rules (declarations_of facts.now.declared.now) (known_of facts.now)) (map procedure_of procs.now)) }
{
    let mut sets = Vec::new(alloc);
    for p in procs {
        sets.push(RuleSet::new().with_if(11, breaks_head(facts, p)))?;
    }
    Ok(sets)
}

fn variable_rules(facts: &Facts, k: usize, v: &VarDecl) -> RuleSet
    ensures { result ≡ variable_rules (known_of facts.now) k (variable_of v.now) }
{
    RuleSet::new()
        .with_if(9, splits_variable(facts, k, v))
        .with_if(11, breaks_variable(facts, k, v))
}

fn variables_rules(alloc: Global, facts: &Facts, vars: &[VarDecl]) -> Result<Vec<RuleSet>, Mem>
    ensures { IfOk result (λ v. v.items ≡ variables_rules (known_of facts.now) 0 (map variable_of vars.now)) }
{
    let mut sets = Vec::new(alloc);
    for (k, v) in vars.iter().enumerate() {
        sets.push(variable_rules(facts, k, v))?;
    }
    Ok(sets)
}

fn marks(
    alloc: Global,
    declared: &Declared,
    lines: &[Vec<LineRef>],
    facts: &Facts,
) -> Result<Marks, Mem>
    requires { facts.now.declared.now ≡ declared.now }
    ensures { IfOk result (λ m. AreMarksOf (shown_program declared.now lines.now) (known_of facts.now) m) }
{
    let lines = lines_rules(alloc, facts, lines)?;
    let heads = heads_rules(alloc, facts, declared.procs.as_slice())?;
    let vars = variables_rules(alloc, facts, declared.vars.as_slice())?;
    Ok(marks_of(alloc, lines, heads, vars))
}

fn marks_of(
    alloc: Global,
    lines: Vec<Sequence<RuleSet>>,
    heads: Vec<RuleSet>,
    vars: Vec<RuleSet>,
) -> Marks
    ensures lines { result.lines ≡ lines.items }
    ensures heads { result.heads ≡ heads.items }
    ensures vars { result.vars ≡ vars.items }
    ensures consts { result.consts ≡ [] }
    ensures types { result.types ≡ [] }
    ensures enums { result.enums ≡ [] }
{
    Marks {
        lines: Sequence::from_vec(lines),
        heads: Sequence::from_vec(heads),
        vars: Sequence::from_vec(vars),
        consts: Sequence::new(alloc),
        types: Sequence::new(alloc),
        enums: Sequence::new(alloc),
    }
}
