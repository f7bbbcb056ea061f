//! What is known of a variable once constants have values.
ghost use Rattle.std.specs.Prelude.{◌≡◌, ◌<◌, map, IfOk};
ghost use Rattle.vb_tree.specs.BoundView.{type_of};
ghost use Rattle.vb_tree.specs.Tree.{Project};
ghost use Rattle.vb_tree.specs.View.{module_of, project_of};
ghost use Rattle.bound_facts.specs.Bounds.{base_in, base_of, first_base, member_base, option_base_of};
ghost use Rattle.vb_tree.specs.View.{form_of, member_of};
ghost use Rattle.declared_names.specs.View.{variable_of as named_variable};
ghost use Rattle.expression_words.specs.View.{declared_in, IsScope, scope_of};
ghost use Rattle.declarations.specs.Plans as plans;
ghost use Rattle.declarations.specs.Plans.{length_rules, plan_of, plan_with, planned, with_length};
ghost use Rattle.declarations.specs.View.{choice_shown, length_shown, plan_shown, preset_shown, sizes_shown, IsKnown};

use crate::extents::{Sizes, sizes_of};
use crate::lengths::{Length, written_length};
use crate::named_types::{Choice, in_array};
use crate::places::{Known, file_of, scope_for};
use crate::presets::{Preset, preset_of};
use crate::typed::{choice_of, rank_of};
use bound_tree::RuleSet;
use declared_names::NamedVar;
use expression_words::Scope;
use std::alloc::Global;
use up_base::Mem;
use vb_tree::{Form6, Member6, Module6, Type6, Value6};

/// What is known of a variable: its type with its length, its bounds, its default, and the rules that it breaks.
#[derive(Drop)]
pub(crate) struct Plan {
    pub named: Type6,
    pub bounds: Vec<(i32, i32)>,
    pub preset: Option<Value6>,
    pub rules: RuleSet,
}

// ---- Option Base

fn base_in(form: &Form6) -> Option<i32>
    ensures { result ≡ base_in (form_of form.now) }
{
    match form {
        Form6::OptionBase(lower) => Some(*lower),
        _ => None,
    }
}

fn member_base(member: &Member6) -> Option<i32>
    ensures { result ≡ member_base (member_of member.now) }
{
    match member {
        Member6::Line(line) => base_in(&line.form),
        _ => None,
    }
}

fn first_base(members: &[Member6]) -> i32
    ensures { result ≡ first_base (map member_of members.now) }
{
    for member in members {
        if let Some(lower) = member_base(member) {
            return lower;
        }
    }
    0
}

fn module_base(module: &Module6) -> i32
    ensures { result ≡ first_base (module_of «module».now).members }
{
    first_base(module.members.as_slice())
}

fn base_of(file: u32, modules: &[Module6]) -> i32
    ensures { result ≡ base_of file (map module_of modules.now) }
{
    for module in modules {
        if module.file == file {
            return module_base(module);
        }
    }
    0
}

fn option_base_of(known: Known<'_>, file: u32) -> i32
    ensures { result ≡ option_base_of (declared_in known.entry.context) file }
{
    base_of(file, known.context.declared.project.modules.as_slice())
}

// ---- plans

fn with_length(length: Length, ty: Type6) -> Type6
    ensures { type_of result ≡ with_length (length_shown length) (type_of ty) }
{
    match length {
        Length::Open => ty,
        Length::Of(n) => Type6::Fixed(n),
        Length::Broken(_) => ty,
    }
}

fn length_rules(length: Length) -> RuleSet
    ensures { result ≡ length_rules (length_shown length) }
{
    match length {
        Length::Open => RuleSet::new(),
        Length::Of(_) => RuleSet::new(),
        Length::Broken(rules) => rules,
    }
}

fn planned(rules: RuleSet, length: Length, sizes: Sizes, named: Type6, preset: Preset) -> Plan
    ensures { plan_shown result ≡ planned rules (length_shown length) (sizes_shown sizes) (type_of named) (preset_shown preset) }
{
    Plan {
        named,
        bounds: sizes.bounds,
        preset: preset.value,
        rules: rules
            .union(length_rules(length))
            .union(sizes.rules.union(preset.rules)),
    }
}

fn plan_by_type(
    alloc: Global,
    scope: Scope<'_>,
    base: i32,
    x: &NamedVar<'_>,
    rules: RuleSet,
    length: Length,
    named: Type6,
) -> Result<Plan, Mem>
    requires names { IsScope scope }
    requires rule { scope.missing < 32 }
    ensures { IfOk result (λ p. plan_shown p ≡ plans.plan_by_type (scope_of scope.entry) base (named_variable x.now) rules (length_shown length) (type_of named)) }
{
    let sizes = sizes_of(alloc, scope, base, x.extents)?;
    let preset = preset_of(alloc, scope, &named, x.optional, x.preset)?;
    Ok(planned(rules, length, sizes, named, preset))
}

fn plan_with(
    alloc: Global,
    scope: Scope<'_>,
    base: i32,
    x: &NamedVar<'_>,
    choice: Choice,
    length: Length,
) -> Result<Plan, Mem>
    requires names { IsScope scope }
    requires rule { scope.missing < 32 }
    ensures { IfOk result (λ p. plan_shown p ≡ plan_with (scope_of scope.entry) base (named_variable x.now) (choice_shown choice) (length_shown length)) }
{
    let named = in_array(alloc, rank_of(x.extents), with_length(length, choice.ty))?;
    Ok(plan_by_type(alloc, scope, base, x, choice.rules, length, named)?)
}

fn plan_of(alloc: Global, known: Known<'_>, x: &NamedVar<'_>) -> Result<Plan, Mem>
    requires { IsKnown known }
    ensures { IfOk result (λ p. plan_shown p ≡ plan_of (declared_in known.entry.context) (named_variable x.now)) }
{
    let scope = scope_for(known, x.owner);
    let length = written_length(alloc, scope, x.ty)?;
    let base = option_base_of(known, file_of(known.context, x.owner));
    let choice = choice_of(known, x);
    Ok(plan_with(alloc, scope, base, x, choice, length)?)
}

/// The plans of variables.
pub(crate) fn plans_of(
    alloc: Global,
    known: Known<'_>,
    all: &[NamedVar<'_>],
) -> Result<Vec<Plan>, Mem>
    requires { IsKnown known }
    ensures { IfOk result (λ v. map plan_shown v.items ≡ map (plan_of (declared_in known.entry.context)) (map named_variable all.now)) }
{
    let mut plans = Vec::new(alloc);
    for x in all {
        let plan = plan_of(alloc, known, x)?;
        plans.push(plan)?;
    }
    Ok(plans)
}
