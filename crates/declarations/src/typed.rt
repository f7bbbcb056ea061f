//! The declarations of a project with the types that they name.
ghost use Rattle.std.specs.Prelude.{◌≡◌, length, map, option_map, slice_get, IfOk};
ghost use Rattle.vb_tree.specs.BoundView.{type_of};
ghost use Rattle.vb_tree.specs.View.{bounds_of, project_of};
ghost use Rattle.bound_tree.specs.View.{procedure_of, variable_of};
ghost use Rattle.declared_names.specs.View.{extents_of, names_of, variable_of as named_variable};
ghost use Rattle.expression_words.specs.View.{declared_in};
ghost use Rattle.declarations.specs.NamedTypes.{capped, in_array, rank_of};
ghost use Rattle.declarations.specs.Typed.{choice_of, named_in, result_of, typed_variable, with_choice, with_result};
ghost use Rattle.declarations.specs.View.{choice_shown, filled_in, IsKnown};

use crate::bare::{Filled, bare_variable};
use crate::named_types::{Choice, in_array, single};
use crate::places::{Known, file_of};
use bound_tree::{ProcDecl, VarDecl};
use declared_names::{Extents, NamedVar};
use expression_words::copy_type;
use std::alloc::Global;
use up_base::Mem;
use vb_tree::{Type6, VarId};

/// The type that a variable names, and the rules that it breaks by that.
pub(crate) fn choice_of(known: Known<'_>, x: &NamedVar<'_>) -> Choice
    requires { IsKnown known }
    ensures { choice_shown result ≡ choice_of (declared_in known.entry.context) (named_variable x.now) }
{
    let file = file_of(known.context, x.owner);
    single(known, file, x.name, x.suffix, x.auto, x.ty)
}

fn capped(rank: usize) -> u8
    ensures { result ≡ capped rank }
{
    match u8::try_from(rank) {
        Ok(rank) => rank,
        Err(_) => 255,
    }
}

/// The rank of an array, 0 for a dynamic one; one above 255 is kept as 255.
pub(crate) fn rank_of(extents: Extents<'_>) -> Option<u8>
    ensures { result ≡ rank_of (extents_of extents.entry) }
{
    match extents {
        Extents::Single => None,
        Extents::Dynamic => Some(0),
        Extents::Written(bounds) => Some(capped(bounds.len())),
    }
}

fn with_choice(alloc: Global, x: &NamedVar<'_>, choice: Choice) -> Result<VarDecl, Mem>
    ensures { IfOk result (λ v. variable_of v ≡ with_choice (named_variable x.now) (choice_shown choice)) }
{
    let bare = bare_variable(alloc, x)?;
    let named = in_array(alloc, rank_of(x.extents), choice.ty)?;
    let ty = copy_type(alloc, &named)?;
    Ok(VarDecl {
        ty,
        named,
        qualified: choice.qualified,
        lettered: choice.lettered,
        ..bare
    })
}

fn typed_variable(alloc: Global, known: Known<'_>, x: &NamedVar<'_>) -> Result<VarDecl, Mem>
    requires { IsKnown known }
    ensures { IfOk result (λ v. variable_of v ≡ typed_variable (declared_in known.entry.context) (named_variable x.now)) }
{
    let choice = choice_of(known, x);
    Ok(with_choice(alloc, x, choice)?)
}

/// Variables with the types that they name.
pub(crate) fn typed_variables(
    alloc: Global,
    known: Known<'_>,
    all: &[NamedVar<'_>],
) -> Result<Vec<VarDecl>, Mem>
    requires { IsKnown known }
    ensures { IfOk result (λ v. map variable_of v.items ≡ map (typed_variable (declared_in known.entry.context)) (map named_variable all.now)) }
{
    let mut vars = Vec::new(alloc);
    for x in all {
        let x = typed_variable(alloc, known, x)?;
        vars.push(x)?;
    }
    Ok(vars)
}

fn named_in(alloc: Global, x: Option<&VarDecl>) -> Result<Type6, Mem>
    ensures { IfOk result (λ t. type_of t ≡ named_in (option_map (λ v. variable_of v.now) x.entry)) }
{
    match x {
        Some(x) => Ok(copy_type(alloc, &x.named)?),
        None => Ok(Type6::Unknown),
    }
}

fn result_of(alloc: Global, vars: &[VarDecl], answer: Option<VarId>) -> Result<Type6, Mem>
    ensures { IfOk result (λ t. type_of t ≡ result_of (map variable_of vars.now) answer) }
{
    match answer {
        Some(v) => Ok(named_in(alloc, vars.get(v.0 as usize))?),
        None => Ok(Type6::Nothing),
    }
}

fn with_result(alloc: Global, vars: &[VarDecl], p: ProcDecl) -> Result<ProcDecl, Mem>
    ensures { IfOk result (λ q. procedure_of q ≡ with_result (map variable_of vars.now) (procedure_of p)) }
{
    let result = result_of(alloc, vars, p.answer)?;
    Ok(ProcDecl { result, ..p })
}

fn with_results(alloc: Global, vars: &[VarDecl], procs: Vec<ProcDecl>) -> Result<Vec<ProcDecl>, Mem>
    ensures { IfOk result (λ v. map procedure_of v.items ≡ map (with_result (map variable_of vars.now)) (map procedure_of procs.items)) }
{
    let mut all = Vec::new(alloc);
    for p in procs {
        let p = with_result(alloc, vars, p)?;
        all.push(p)?;
    }
    Ok(all)
}

/// The lists with variables of types, and the results that these are of.
pub(crate) fn with_variables(alloc: Global, vars: Vec<VarDecl>, bare: Filled) -> Result<Filled, Mem>
    ensures vars { IfOk result (λ f. f.vars ≡ vars) }
    ensures procs { IfOk result (λ f. map procedure_of f.procs.items ≡ map (with_result (map variable_of vars.items)) (map procedure_of bare.procs.items)) }
    ensures consts { IfOk result (λ f. f.consts ≡ bare.consts) }
    ensures defaults { IfOk result (λ f. f.defaults ≡ bare.defaults) }
{
    let procs = with_results(alloc, &vars, bare.procs)?;
    Ok(Filled {
        vars,
        consts: bare.consts,
        procs,
        defaults: bare.defaults,
    })
}
