//! The analysis of a project.
ghost use Rattle.std.specs.Prelude.{◌≡◌, [], IfOk, map};
ghost use Rattle.bound_tree.specs.Lines.{lines_of};
ghost use Rattle.bound_tree.specs.View.{declarations_of, program_of, shown_line};
ghost use Rattle.object_rules.specs.Autos.{autos};
ghost use Rattle.object_rules.specs.Rows.{HasNoOthers, heads_rules, line_rules, lines_rules, variables_rules};

use crate::autos::{autos, variables_rules};
use crate::heads::heads_rules;
use crate::uses::breaks_use;
use bound_tree::{Bound, Declared, LineRef, Marks, ObjectFacts, RuleSet, bound_lines};
use std::alloc::Global;
use up_base::{Issues, Mem, Sequence};

/// The variables that make their object when they are used, in ascending order, and which of the rules 7 and 13 the head of
/// each procedure breaks, and whether each variable and each code line breaks rule 24. The list of issues is left empty: it is
/// made from the marks of all analyses.
pub fn resolve_objects(alloc: Global, bound: &Bound) -> Result<ObjectFacts, Mem>
    ensures autos { IfOk result (λ f. f.autos ≡ autos (program_of bound.now)) }
    ensures lines { IfOk result (λ f. f.marks.lines ≡ lines_rules (program_of bound.now)) }
    ensures heads { IfOk result (λ f. f.marks.heads ≡ heads_rules (program_of bound.now).declarations) }
    ensures vars { IfOk result (λ f. f.marks.vars ≡ variables_rules (program_of bound.now).declarations) }
    ensures others { IfOk result (λ f. HasNoOthers f.marks) }
    ensures issues { IfOk result (λ f. f.issues ≡ []) }
{
    let lines = bound_lines(alloc, bound)?;
    let sets = lines_rules(alloc, &bound.declared, &lines)?;
    let heads = heads_rules(alloc, &bound.declared)?;
    let vars = variables_rules(alloc, bound.declared.vars.as_slice())?;
    let autos = autos(alloc, bound.declared.vars.as_slice())?;
    Ok(ObjectFacts {
        autos: Sequence::from_vec(autos),
        marks: marks(alloc, sets, heads, vars),
        issues: Issues::new(alloc),
    })
}

fn body_rules(alloc: Global, declared: &Declared, lines: &[LineRef]) -> Result<Vec<RuleSet>, Mem>
    ensures { IfOk result (λ v. v.items ≡ map (line_rules (declarations_of declared.now)) (map shown_line lines.now)) }
{
    let mut sets = Vec::new(alloc);
    for line in lines {
        let broken = breaks_use(alloc, declared, line)?;
        sets.push(RuleSet::new().with_if(24, broken))?;
    }
    Ok(sets)
}

fn lines_rules(
    alloc: Global,
    declared: &Declared,
    lines: &[Vec<LineRef>],
) -> Result<Vec<Sequence<RuleSet>>, Mem>
    ensures { IfOk result (λ v. v.items ≡ map (map (line_rules (declarations_of declared.now))) (map lines_of lines.now)) }
{
    let mut all = Vec::new(alloc);
    for body in lines {
        all.push(Sequence::from_vec(body_rules(alloc, declared, body)?))?;
    }
    Ok(all)
}

fn marks(
    alloc: Global,
    lines: Vec<Sequence<RuleSet>>,
    heads: Vec<RuleSet>,
    vars: Vec<RuleSet>,
) -> Marks
    ensures lines { result.lines ≡ lines.items }
    ensures heads { result.heads ≡ heads.items }
    ensures vars { result.vars ≡ vars.items }
    ensures others { HasNoOthers result }
{
    Marks {
        lines: Sequence::from_vec(lines),
        heads: Sequence::from_vec(heads),
        vars: Sequence::from_vec(vars),
        consts: Sequence::new(alloc),
        types: Sequence::new(alloc),
        enums: Sequence::new(alloc),
    }
}
