//! The expressions of a line as they are kept: one without a type as it is written.
ghost use Rattle.std.specs.Prelude.{◌≡◌, ◌<◌, ◌++◌, map, option_map, slice_get, IfOk, OnOk};
ghost use Rattle.vb_tree.specs.BoundTree as types;
ghost use Rattle.vb_tree.specs.View.{exp_of};
ghost use Rattle.bound_tree.specs.Tree as bound;
ghost use Rattle.bound_tree.specs.View.{expr_of};
ghost use Rattle.expression_words.specs.View.{IsScope, scope_of, typed_of};
ghost use Rattle.bound_exprs.specs.Spelled.{spelled};
ghost use Rattle.binder.specs.Lines.{settled, settled_at, settled_from, spelled_part};
ghost use Rattle.binder.specs.View.{part_of, source_of};

use crate::parts::{Part, Source};
use bound_exprs::{spelled, spelled_index, spelled_word};
use bound_tree::{BoundExpr, BoundNode, RuleSet};
use expression_words::{Lookup, Scope, Typed};
use std::alloc::Global;
use up_base::{Mem, Sequence};
use vb_tree::{Expr6, Type6};

fn spelled_source(
    alloc: Global,
    scope: Scope<'_>,
    lookup: Lookup,
    source: Source<'_>,
) -> Result<Expr6, Mem>
    requires names { IsScope scope }
    requires rule { scope.missing < 32 }
    ensures { IfOk result (λ e. exp_of e ≡ spelled (scope_of scope.entry) lookup (source_of source.entry)) }
{
    match source {
        Source::Whole(e) => Ok(spelled(alloc, scope, lookup, e)?),
        Source::Invoked(callee, args) => Ok(spelled_index(alloc, scope, lookup, callee, args)?),
        Source::Word(name, suffix) => Ok(spelled_word(alloc, scope, lookup, name, suffix)?),
    }
}

fn loose(alloc: Global, scope: Scope<'_>, part: &Part<'_>, rules: RuleSet) -> Result<BoundExpr, Mem>
    requires names { IsScope scope }
    requires rule { scope.missing < 32 }
    ensures { IfOk result (λ e. expr_of e ≡ bound.typed types.unknown (bound.loose (spelled_part (scope_of scope.entry) (part_of part.now)) rules)) }
{
    let e = spelled_source(alloc, scope, part.task.lookup(), part.source)?;
    Ok(BoundExpr {
        ty: Type6::Unknown,
        node: BoundNode::Loose(e, rules),
    })
}

fn settled(alloc: Global, scope: Scope<'_>, part: &Part<'_>, t: Typed) -> Result<BoundExpr, Mem>
    requires names { IsScope scope }
    requires rule { scope.missing < 32 }
    ensures { IfOk result (λ e. expr_of e ≡ settled (scope_of scope.entry) (part_of part.now) (typed_of t)) }
{
    match t {
        Typed::Known(e) => Ok(e),
        Typed::Unknown(flaw) => Ok(loose(alloc, scope, part, flaw.rules)?),
    }
}

fn push_settled(
    alloc: Global,
    scope: Scope<'_>,
    part: Option<&Part<'_>>,
    t: Typed,
    to: &mut Sequence<BoundExpr>,
) -> Result<(), Mem>
    requires names { IsScope scope }
    requires rule { scope.missing < 32 }
    ensures { OnOk result (map expr_of to.new ≡ map expr_of to.old ++ settled_at (scope_of scope.entry) (option_map (λ p. part_of p.now) part.entry) (typed_of t)) }
{
    match part {
        Some(part) => {
            let e = settled(alloc, scope, part, t)?;
            Ok(to.push(e)?)
        }
        None => Ok(()),
    }
}

fn part_at<'p, 'a>(parts: &'p [Part<'a>], i: usize) -> Option<&'p Part<'a>>
    ensures { option_map (λ p. part_of p.now) result ≡ slice_get (map part_of parts.now) i }
{
    parts.get(i)
}

/// The expressions of a line.
pub fn settled_all(
    alloc: Global,
    scope: Scope<'_>,
    parts: &[Part<'_>],
    typed: Vec<Typed>,
) -> Result<Sequence<BoundExpr>, Mem>
    requires names { IsScope scope }
    requires rule { scope.missing < 32 }
    ensures { IfOk result (λ s. map expr_of s ≡ settled_from (scope_of scope.entry) (map part_of parts.now) 0 (map typed_of typed.items)) }
{
    let mut exprs = Sequence::new(alloc);
    let mut i = 0;
    for t in typed {
        push_settled(alloc, scope, part_at(parts, i), t, &mut exprs)?;
        i += 1;
    }
    Ok(exprs)
}
