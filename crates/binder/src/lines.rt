//! What is bound in a code line.
ghost use Rattle.std.specs.Prelude.{◌≡◌, map, IfOk};
ghost use Rattle.vb_tree.specs.View.{form_of};
ghost use Rattle.bound_tree.specs.View.{bindings_of};
ghost use Rattle.expression_words.specs.View.{scope_of, typed_of};
ghost use Rattle.binder.specs.Bodies.{bindings, bindings_by};
ghost use Rattle.binder.specs.Lines as expected;
ghost use Rattle.binder.specs.View.{IsInside, IsLineScope, inside_of, part_of, IsTold};

use crate::inside::Inside;
use crate::line_rules::line_rules;
use crate::mentions::line_mentions;
use crate::parts::{Part, parts_of};
use crate::settling::settled_all;
use crate::typed_parts::typed_parts;
use bound_tree::{BoundLine, Mention, RuleSet};
use expression_words::{Scope, Typed};
use std::alloc::Global;
use typing_rows::CaseType;
use up_base::{Mem, Sequence};
use vb_tree::Form6;

// What is told of a line beside its expressions.
#[derive(Drop)]
struct Told {
    rules: RuleSet,
    mentions: Sequence<Mention>,
}

fn tell(
    alloc: Global,
    inside: Inside<'_>,
    scope: Scope<'_>,
    form: &Form6,
    typed: &[Typed],
) -> Result<Told, Mem>
    requires inside { IsInside inside }
    requires scope { IsLineScope inside scope }
    ensures { IfOk result (λ t. IsTold t (inside_of inside.entry) (scope_of scope.entry) (form_of form.now) (map typed_of typed.now)) }
{
    let rules = line_rules(alloc, scope, inside.lines, form, typed)?;
    let mentions = line_mentions(alloc, inside.declared, scope, form, typed)?;
    Ok(Told { rules, mentions })
}

fn bound_by(
    alloc: Global,
    inside: Inside<'_>,
    scope: Scope<'_>,
    form: &Form6,
    parts: &[Part<'_>],
    typed: Vec<Typed>,
) -> Result<BoundLine, Mem>
    requires inside { IsInside inside }
    requires scope { IsLineScope inside scope }
    ensures { IfOk result (λ l. bindings_of l ≡ bindings_by (inside_of inside.entry) (scope_of scope.entry) (form_of form.now) (map part_of parts.now) (map typed_of typed.items)) }
{
    let told = tell(alloc, inside, scope, form, &typed)?;
    let exprs = settled_all(alloc, scope, parts, typed)?;
    Ok(BoundLine {
        exprs,
        rules: told.rules,
        mentions: told.mentions,
    })
}

fn bound_parts(
    alloc: Global,
    inside: Inside<'_>,
    scope: Scope<'_>,
    cases: CaseType,
    form: &Form6,
    parts: &[Part<'_>],
) -> Result<BoundLine, Mem>
    requires inside { IsInside inside }
    requires scope { IsLineScope inside scope }
    ensures { IfOk result (λ l. bindings_of l ≡ bindings_by (inside_of inside.entry) (scope_of scope.entry) (form_of form.now) (map part_of parts.now) (expected.typed_parts (scope_of scope.entry) cases (map part_of parts.now))) }
{
    let typed = typed_parts(alloc, scope, cases, parts)?;
    Ok(bound_by(alloc, inside, scope, form, parts, typed)?)
}

/// What is bound in a line.
pub fn bind_line(
    alloc: Global,
    inside: Inside<'_>,
    scope: Scope<'_>,
    cases: CaseType,
    form: &Form6,
) -> Result<BoundLine, Mem>
    requires inside { IsInside inside }
    requires scope { IsLineScope inside scope }
    ensures { IfOk result (λ l. bindings_of l ≡ bindings (inside_of inside.entry) cases (scope_of scope.entry) (form_of form.now)) }
{
    let parts = parts_of(alloc, form)?;
    Ok(bound_parts(alloc, inside, scope, cases, form, &parts)?)
}
