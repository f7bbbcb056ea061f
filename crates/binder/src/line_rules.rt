//! The rules that a line breaks.
ghost use Rattle.std.specs.Prelude.{◌≡◌, ◌<◌, Some, map, option_map, IfOk};
ghost use Rattle.vb_tree.specs.BoundView.{type_of};
ghost use Rattle.vb_tree.specs.View.{form_of, line_of, redim_item_of, type_name_of};
ghost use Rattle.bound_tree.specs.RuleSets.{none};
ghost use Rattle.bound_tree.specs.View.{expr_of};
ghost use Rattle.expression_words.specs.Flaws as flaws;
ghost use Rattle.expression_words.specs.View.{IsScope, scope_of, typed_of};
ghost use Rattle.declarations.specs.Plans as plans;
ghost use Rattle.declarations.specs.View.{length_shown};
ghost use Rattle.binder.specs.Lines.{is_in_element, is_user, kept_rules, label_rules, line_rules, own_rules, redim_rules, type_rules};

use bound_tree::{BoundExpr, BoundNode, RuleSet};
use declarations::{Length, choice_by_name, length_by};
use expression_words::{Flaw, Scope, Typed};
use name_tables::found_label;
use std::alloc::Global;
use up_base::Mem;
use vb_tree::{CodeLine, Form6, Label6, ReDimItem6, Type6, TypeName6};

fn is_user(ty: &Type6) -> bool
    ensures { result ≡ is_user (type_of ty.now) }
{
    matches!(ty, Type6::User(_))
}

// Whether it is an element of an array, or a user type inside of one.
fn is_in_element(e: &BoundExpr) -> bool
    ensures { result ≡ is_in_element (expr_of e.now) }
{
    match &e.node {
        BoundNode::Element(_, _) => true,
        BoundNode::Field(of, _) => is_user(&of.ty) && is_user(&e.ty) && is_in_element(of),
        _ => false,
    }
}

fn kept_rules(typed: &[Typed]) -> RuleSet
    ensures { result ≡ kept_rules (map typed_of typed.now) }
{
    match typed.first() {
        Some(Typed::Known(e)) => RuleSet::new().with_if(4, is_in_element(e)),
        Some(Typed::Unknown(_)) => RuleSet::new(),
        None => RuleSet::new(),
    }
}

fn label_rules(lines: &[&CodeLine], label: &Label6) -> RuleSet
    ensures { result ≡ label_rules (map (λ l. line_of l.now) lines.now) label.now }
{
    RuleSet::new().with_if(3, found_label(lines, label).is_none())
}

fn length_rules(length: Length) -> RuleSet
    ensures { result ≡ plans.length_rules (length_shown length) }
{
    match length {
        Length::Open => RuleSet::new(),
        Length::Of(_) => RuleSet::new(),
        Length::Broken(rules) => rules,
    }
}

fn written_type_rules(alloc: Global, scope: Scope<'_>, ty: &TypeName6) -> Result<RuleSet, Mem>
    requires names { IsScope scope }
    requires rule { scope.missing < 32 }
    ensures { IfOk result (λ rules. rules ≡ type_rules (scope_of scope.entry) (Some (type_name_of ty.now))) }
{
    match ty {
        TypeName6::Named(name) => {
            Ok(choice_by_name(scope.context, scope.site.file, false, name).rules)
        }
        TypeName6::FixedString(e) => Ok(length_rules(length_by(alloc, scope, e)?)),
    }
}

fn type_rules(alloc: Global, scope: Scope<'_>, ty: &Option<TypeName6>) -> Result<RuleSet, Mem>
    requires names { IsScope scope }
    requires rule { scope.missing < 32 }
    ensures { IfOk result (λ rules. rules ≡ type_rules (scope_of scope.entry) (option_map type_name_of ty.now)) }
{
    match ty {
        Some(ty) => Ok(written_type_rules(alloc, scope, ty)?),
        None => Ok(RuleSet::new()),
    }
}

fn redim_rules(alloc: Global, scope: Scope<'_>, items: &[ReDimItem6]) -> Result<RuleSet, Mem>
    requires names { IsScope scope }
    requires rule { scope.missing < 32 }
    ensures { IfOk result (λ rules. rules ≡ redim_rules (scope_of scope.entry) none (map redim_item_of items.now)) }
{
    let mut rules = RuleSet::new();
    for item in items {
        rules = rules.union(type_rules(alloc, scope, &item.ty)?);
    }
    Ok(rules)
}

// The rules that a line breaks beside those of its expressions.
fn own_rules(
    alloc: Global,
    scope: Scope<'_>,
    lines: &[&CodeLine],
    form: &Form6,
    typed: &[Typed],
) -> Result<RuleSet, Mem>
    requires names { IsScope scope }
    requires rule { scope.missing < 32 }
    ensures { IfOk result (λ rules. rules ≡ own_rules (scope_of scope.entry) (map (λ l. line_of l.now) lines.now) (form_of form.now) (map typed_of typed.now)) }
{
    match form {
        Form6::GoTo(label) => Ok(label_rules(lines, label)),
        Form6::OnErrorGoTo(label) => Ok(label_rules(lines, label)),
        Form6::ResumeAt(label) => Ok(label_rules(lines, label)),
        Form6::ForEach(_, _, _) => Ok(RuleSet::new().with(4)),
        Form6::With(_) => Ok(kept_rules(typed)),
        Form6::ReDim(_, items) => Ok(redim_rules(alloc, scope, items.as_slice())?),
        Form6::Opaque(_) => Ok(RuleSet::new().with(4)),
        _ => Ok(RuleSet::new()),
    }
}

fn flaws_of(typed: &[Typed]) -> Flaw
    ensures { result ≡ flaws.flaws_of (map typed_of typed.now) }
{
    let mut flaw = Flaw::new();
    for t in typed {
        flaw = flaw.together(t.flaw());
    }
    flaw
}

/// The rules that a line breaks.
pub fn line_rules(
    alloc: Global,
    scope: Scope<'_>,
    lines: &[&CodeLine],
    form: &Form6,
    typed: &[Typed],
) -> Result<RuleSet, Mem>
    requires names { IsScope scope }
    requires rule { scope.missing < 32 }
    ensures { IfOk result (λ rules. rules ≡ line_rules (scope_of scope.entry) (map (λ l. line_of l.now) lines.now) (form_of form.now) (map typed_of typed.now)) }
{
    let own = own_rules(alloc, scope, lines, form, typed)?;
    Ok(own.union(flaws_of(typed).rules))
}
