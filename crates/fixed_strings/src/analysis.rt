//! The analysis of a project.
ghost use Rattle.std.specs.Prelude.{◌≡◌, [], IfOk, map};
ghost use Rattle.bound_tree.specs.Lines.{lines_of};
ghost use Rattle.bound_tree.specs.View.{declarations_of, program_of, shown_line};
ghost use Rattle.fixed_strings.specs.Lengths.{lengths};
ghost use Rattle.fixed_strings.specs.Rows.{AreBroken, HasNoOthers, line_rules, lines_rules};

use crate::declaring::variables_rules;
use crate::given::breaks_given;
use crate::lengths::lengths;
use crate::types::holders;
use bound_tree::{Bound, Declared, FixedFacts, LineRef, Marks, RefFacts, RuleSet, bound_lines};
use std::alloc::Global;
use up_base::{Issues, Mem, Sequence};

/// The length of each variable that is a fixed string, and for each variable and each code line whether it breaks the rule on fixed
/// strings, by the facts which parameters are quiet. The list of issues is left empty: it is made from the marks of all analyses.
pub fn analyse_fixed(alloc: Global, bound: &Bound, refs: &RefFacts) -> Result<FixedFacts, Mem>
    ensures lengths { IfOk result (λ f. f.lengths ≡ lengths (program_of bound.now)) }
    ensures lines { IfOk result (λ f. f.marks.lines ≡ lines_rules (program_of bound.now) refs.now.quiet) }
    ensures vars { IfOk result (λ f. AreBroken (program_of bound.now).declarations f.marks.vars) }
    ensures others { IfOk result (λ f. HasNoOthers f.marks) }
    ensures issues { IfOk result (λ f. f.issues ≡ []) }
{
    let lines = bound_lines(alloc, bound)?;
    let sets = lines_rules(alloc, &refs.quiet, &lines)?;
    let vars = declared_rules(alloc, &bound.declared)?;
    let lengths = lengths(alloc, bound.declared.vars.as_slice())?;
    Ok(FixedFacts {
        lengths: Sequence::from_vec(lengths),
        marks: marks(alloc, sets, vars),
        issues: Issues::new(alloc),
    })
}

fn declared_rules(alloc: Global, declared: &Declared) -> Result<Vec<RuleSet>, Mem>
    ensures { IfOk result (λ v. AreBroken (declarations_of declared.now) v.items) }
{
    let holders = holders(alloc, declared)?;
    Ok(variables_rules(alloc, declared, &holders, declared.vars.as_slice())?)
}

fn body_rules(
    alloc: Global,
    quiet: &Sequence<Sequence<bool>>,
    lines: &[LineRef],
) -> Result<Vec<RuleSet>, Mem>
    ensures { IfOk result (λ v. v.items ≡ map (line_rules quiet.now) (map shown_line lines.now)) }
{
    let mut sets = Vec::new(alloc);
    for line in lines {
        let broken = breaks_given(alloc, quiet, line)?;
        sets.push(RuleSet::new().with_if(12, broken))?;
    }
    Ok(sets)
}

fn lines_rules(
    alloc: Global,
    quiet: &Sequence<Sequence<bool>>,
    lines: &[Vec<LineRef>],
) -> Result<Vec<Sequence<RuleSet>>, Mem>
    ensures { IfOk result (λ v. v.items ≡ map (map (line_rules quiet.now)) (map lines_of lines.now)) }
{
    let mut all = Vec::new(alloc);
    for body in lines {
        all.push(Sequence::from_vec(body_rules(alloc, quiet, body)?))?;
    }
    Ok(all)
}

fn marks(alloc: Global, lines: Vec<Sequence<RuleSet>>, vars: Vec<RuleSet>) -> Marks
    ensures lines { result.lines ≡ lines.items }
    ensures vars { result.vars ≡ vars.items }
    ensures others { HasNoOthers result }
{
    Marks {
        lines: Sequence::from_vec(lines),
        heads: Sequence::new(alloc),
        vars: Sequence::from_vec(vars),
        consts: Sequence::new(alloc),
        types: Sequence::new(alloc),
        enums: Sequence::new(alloc),
    }
}
