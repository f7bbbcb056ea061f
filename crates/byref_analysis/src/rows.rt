//! The rules that code lines break.
ghost use Rattle.std.specs.Prelude.{◌≡◌, IfOk, map};
ghost use Rattle.bound_tree.specs.Lines.{lines_of};
ghost use Rattle.bound_tree.specs.View.{declarations_of, shown_line};
ghost use Rattle.byref_analysis.specs.FactsOf.{quiet_by, stirs_by};
ghost use Rattle.byref_analysis.specs.Rows.{rules_of};

use crate::arguments::breaks_arguments;
use crate::order::breaks_order;
use crate::stirring::Stirring;
use bound_tree::{LineRef, RuleSet};
use std::alloc::Global;
use up_base::{Mem, Sequence};

fn line_rules(alloc: Global, stirring: &Stirring, line: &LineRef) -> Result<RuleSet, Mem>
    ensures { IfOk result (λ set. set ≡ rules_of (declarations_of stirring.now.declared.now) (quiet_by stirring.now.declared.now stirring.now.facts.now) (stirs_by stirring.now) (shown_line line.now)) }
{
    let arguments = breaks_arguments(alloc, stirring, line)?;
    let order = breaks_order(alloc, stirring, line)?;
    Ok(RuleSet::new().with_if(8, arguments).with_if(26, order))
}

fn body_rules(alloc: Global, stirring: &Stirring, lines: &[LineRef]) -> Result<Vec<RuleSet>, Mem>
    ensures { IfOk result (λ v. v.items ≡ map (rules_of (declarations_of stirring.now.declared.now) (quiet_by stirring.now.declared.now stirring.now.facts.now) (stirs_by stirring.now)) (map shown_line lines.now)) }
{
    let mut sets = Vec::new(alloc);
    for line in lines {
        sets.push(line_rules(alloc, stirring, line)?)?;
    }
    Ok(sets)
}

/// For each procedure the sets of its code lines.
pub(crate) fn lines_rules(
    alloc: Global,
    stirring: &Stirring,
    lines: &[Vec<LineRef>],
) -> Result<Vec<Sequence<RuleSet>>, Mem>
    ensures { IfOk result (λ v. v.items ≡ map (map (rules_of (declarations_of stirring.now.declared.now) (quiet_by stirring.now.declared.now stirring.now.facts.now) (stirs_by stirring.now))) (map lines_of lines.now)) }
{
    let mut all = Vec::new(alloc);
    for body in lines {
        all.push(Sequence::from_vec(body_rules(alloc, stirring, body)?))?;
    }
    Ok(all)
}
