//! All functions that the modules of a project can use, in their order.
ghost use Rattle.std.specs.Prelude.{◌≡◌, ◌++◌, ◌∷◌, [], suc, None, Some, cond, codes, map, IfOk, OnOk};
ghost use Rattle.bound_facts.specs.Members.{class_files};
ghost use Rattle.bound_tree.specs.View.{declarations_of};
ghost use Rattle.net_tree.specs.declared.declaration.NetPassing.TheVariants as passing;
ghost use Rattle.net_tree.specs.Tree as net;
ghost use Rattle.net_tree.specs.View.{dim_of, exp_of, line_of, param_of, procedure_of, type_name_of};
ghost use Rattle.vb_tree.specs.View.{module_of, project_of};
ghost use Rattle.written_trees.specs.Supports as rows;
ghost use Rattle.written_rows.specs.View.{facts_of};
ghost use Rattle.support_modules.specs.Autos.{auto_lines, auto_params, autos_in, autos_of, class_after, class_type, is_nothing, make_line};
ghost use Rattle.support_modules.specs.Fillings.{all_functions, field_value};
ghost use Rattle.support_text.specs.FixedFunctions.{fixed_functions};

use crate::fields::{Filling, field_lines, user_name};
use crate::parts::{
    assignment, function_with, if_head, local_exp, new_object, parameter, result_local,
};
use bound_tree::{Declared, TypeDecl};
use net_tree::{NetBin, NetDim, NetExpr, NetLine, NetParam, NetPassing, NetProc, NetType};
use std::alloc::Global;
use support_text::{FIXED, fixed_function};
use up_base::Mem;
use vb_tree::Module6;
use written_rows::{WrittenFacts, auto_name, binary, class_path, copy_name, new_name};

// Those that are the same for all projects.
#[tactic(auto, using(crate::proofs::FixedList::all_fixed))]
fn fixed_functions(alloc: Global) -> Result<Vec<NetProc>, Mem>
    ensures { IfOk result (λ all. map procedure_of all.items ≡ fixed_functions) }
{
    let mut all = Vec::new(alloc);
    for place in 0..FIXED {
        all.push(fixed_function(alloc, place)?)?;
    }
    Ok(all)
}

// ---- an object of a class where there is none

fn class_type(alloc: Global, declared: &Declared, class: u32) -> Result<NetType, Mem>
    ensures { IfOk result (λ ty. type_name_of ty ≡ class_type (declarations_of declared.now) class) }
{
    Ok(NetType::Named(class_path(alloc, declared, class)?))
}

fn auto_params(alloc: Global, declared: &Declared, class: u32) -> Result<Vec<NetParam>, Mem>
    ensures { IfOk result (λ params. map param_of params.items ≡ auto_params (declarations_of declared.now) class) }
{
    let ty = class_type(alloc, declared, class)?;
    Ok(parameter(alloc, NetPassing::Reference, b"x", ty)?)
}

fn is_nothing(alloc: Global) -> Result<NetExpr, Mem>
    ensures { IfOk result (λ e. exp_of e ≡ is_nothing) }
{
    let x = local_exp(alloc, b"x")?;
    Ok(binary(alloc, NetBin::Is, x, NetExpr::Nothing)?)
}

fn test_line(alloc: Global) -> Result<NetLine, Mem>
    ensures { IfOk result (λ l. line_of l ≡ net.if_head is_nothing) }
{
    let test = is_nothing(alloc)?;
    Ok(if_head(alloc, test)?)
}

fn make_line(alloc: Global, declared: &Declared, class: u32) -> Result<NetLine, Mem>
    ensures { IfOk result (λ l. line_of l ≡ make_line (declarations_of declared.now) class) }
{
    let ty = class_type(alloc, declared, class)?;
    let x = local_exp(alloc, b"x")?;
    Ok(assignment(alloc, x, new_object(alloc, ty))?)
}

// A function gives a local.
fn give_line(alloc: Global, name: &[u8], local: &[u8]) -> Result<NetLine, Mem>
    ensures { IfOk result (λ l. line_of l ≡ net.assign (rows.local_exp name.now) (rows.local_exp local.now)) }
{
    let target = local_exp(alloc, name)?;
    let value = local_exp(alloc, local)?;
    Ok(assignment(alloc, target, value)?)
}

fn auto_lines(
    alloc: Global,
    declared: &Declared,
    class: u32,
    name: &[u8],
) -> Result<Vec<NetLine>, Mem>
    ensures { IfOk result (λ lines. map line_of lines.items ≡ auto_lines (declarations_of declared.now) class name.now) }
{
    let mut lines = Vec::with_capacity(alloc, 4)?;
    lines.push(test_line(alloc)?)?;
    lines.push(make_line(alloc, declared, class)?)?;
    lines.push(NetLine::EndIf)?;
    lines.push(give_line(alloc, name, b"x")?)?;
    Ok(lines)
}

fn auto_function(alloc: Global, declared: &Declared, class: u32) -> Result<NetProc, Mem>
    ensures { IfOk result (λ p. procedure_of p ≡ rows.auto_function (declarations_of declared.now) class) }
{
    let name = auto_name(alloc, declared, class)?;
    let ty = class_type(alloc, declared, class)?;
    let params = auto_params(alloc, declared, class)?;
    let lines = auto_lines(alloc, declared, class, name.as_bytes())?;
    Ok(function_with(name, params, ty, Vec::new(alloc), lines))
}

fn next(n: u32) -> Result<u32, Mem>
    ensures { IfOk result (λ m. m ≡ suc n) }
{
    match n.checked_add(1) {
        Some(m) => Ok(m),
        None => Err(Mem),
    }
}

// The function for a module where it is a class, and the number of classes up to it.
fn push_auto(
    alloc: Global,
    declared: &Declared,
    class: u32,
    m: &Module6,
    to: &mut Vec<NetProc>,
) -> Result<u32, Mem>
    ensures count { IfOk result (λ n. n ≡ class_after class m.now.class) }
    ensures functions { OnOk result (map procedure_of to.new.items ≡ map procedure_of to.old.items ++ autos_of (declarations_of declared.now) class m.now.class) }
{
    if !m.class {
        return Ok(class);
    }
    to.push(auto_function(alloc, declared, class)?)?;
    Ok(next(class)?)
}

fn push_autos(
    alloc: Global,
    declared: &Declared,
    modules: &[Module6],
    to: &mut Vec<NetProc>,
) -> Result<(), Mem>
    ensures { OnOk result (map procedure_of to.new.items ≡ map procedure_of to.old.items ++ autos_in (declarations_of declared.now) 0 (map module_of modules.now)) }
{
    let mut class = 0;
    for m in modules {
        class = push_auto(alloc, declared, class, m, to)?;
    }
    Ok(())
}

// The functions for all classes of the project.
#[tactic(auto, using(crate::proofs::Classes::all_autos))]
fn push_all_autos(alloc: Global, declared: &Declared, to: &mut Vec<NetProc>) -> Result<(), Mem>
    ensures { OnOk result (map procedure_of to.new.items ≡ map procedure_of to.old.items ++ rows.autos_from (declarations_of declared.now) 0 (class_files (project_of declared.now.project))) }
{
    Ok(push_autos(alloc, declared, declared.project.modules.as_slice(), to)?)
}

// ---- functions on user types

// The lines that set fields, and the one that gives the result.
fn body(
    alloc: Global,
    filling: Filling,
    declared: &Declared,
    facts: &WrittenFacts,
    d: &TypeDecl,
    name: &[u8],
) -> Result<Vec<NetLine>, Mem>
    ensures { IfOk result (λ lines. map line_of lines.items ≡ rows.field_lines (field_value filling (declarations_of declared.now) (facts_of facts.now)) (declarations_of declared.now) (facts_of facts.now) d.now ++ rows.give name.now) }
{
    let mut lines = field_lines(alloc, filling, declared, facts, d)?;
    lines.push(give_line(alloc, name, b"r")?)?;
    Ok(lines)
}

fn empty_result(alloc: Global, declared: &Declared, t: u32) -> Result<Vec<NetDim>, Mem>
    ensures { IfOk result (λ dims. map dim_of dims.items ≡ rows.result_local (rows.user_name (declarations_of declared.now) t) None) }
{
    let ty = user_name(alloc, declared, t)?;
    Ok(result_local(alloc, ty, None)?)
}

fn new_function(
    alloc: Global,
    declared: &Declared,
    facts: &WrittenFacts,
    t: u32,
    d: &TypeDecl,
) -> Result<NetProc, Mem>
    ensures { IfOk result (λ p. procedure_of p ≡ rows.new_function (declarations_of declared.now) (facts_of facts.now) t d.now) }
{
    let name = new_name(alloc, t)?;
    let ty = user_name(alloc, declared, t)?;
    let prologue = empty_result(alloc, declared, t)?;
    let lines = body(alloc, Filling::Made, declared, facts, d, name.as_bytes())?;
    Ok(function_with(name, Vec::new(alloc), ty, prologue, lines))
}

fn boxed_local(alloc: Global, name: &[u8]) -> Result<Box<NetExpr>, Mem>
    ensures { IfOk result (λ e. exp_of e.value ≡ rows.local_exp name.now) }
{
    Ok(Box::new(alloc, local_exp(alloc, name)?)?)
}

fn given_result(alloc: Global, declared: &Declared, t: u32) -> Result<Vec<NetDim>, Mem>
    ensures { IfOk result (λ dims. map dim_of dims.items ≡ rows.result_local (rows.user_name (declarations_of declared.now) t) (Some (rows.local_exp (codes "x")))) }
{
    let ty = user_name(alloc, declared, t)?;
    let x = boxed_local(alloc, b"x")?;
    Ok(result_local(alloc, ty, Some(x))?)
}

fn user_param(alloc: Global, declared: &Declared, t: u32) -> Result<Vec<NetParam>, Mem>
    ensures { IfOk result (λ params. map param_of params.items ≡ rows.parameter passing.Value (codes "x") (rows.user_name (declarations_of declared.now) t)) }
{
    let ty = user_name(alloc, declared, t)?;
    Ok(parameter(alloc, NetPassing::Value, b"x", ty)?)
}

fn copy_function(
    alloc: Global,
    declared: &Declared,
    facts: &WrittenFacts,
    t: u32,
    d: &TypeDecl,
) -> Result<NetProc, Mem>
    ensures { IfOk result (λ p. procedure_of p ≡ rows.copy_function (declarations_of declared.now) (facts_of facts.now) t d.now) }
{
    let name = copy_name(alloc, t)?;
    let ty = user_name(alloc, declared, t)?;
    let params = user_param(alloc, declared, t)?;
    let prologue = given_result(alloc, declared, t)?;
    let lines = body(alloc, Filling::Copied, declared, facts, d, name.as_bytes())?;
    Ok(function_with(name, params, ty, prologue, lines))
}

fn push_new_if(
    alloc: Global,
    declared: &Declared,
    facts: &WrittenFacts,
    t: u32,
    d: &TypeDecl,
    to: &mut Vec<NetProc>,
) -> Result<(), Mem>
    ensures { OnOk result (map procedure_of to.new.items ≡ map procedure_of to.old.items ++ cond ((facts_of facts.now).is_made t) (rows.new_function (declarations_of declared.now) (facts_of facts.now) t d.now ∷ []) []) }
{
    if !facts.is_made(t) {
        return Ok(());
    }
    Ok(to.push(new_function(alloc, declared, facts, t, d)?)?)
}

fn push_copy_if(
    alloc: Global,
    declared: &Declared,
    facts: &WrittenFacts,
    t: u32,
    d: &TypeDecl,
    to: &mut Vec<NetProc>,
) -> Result<(), Mem>
    ensures { OnOk result (map procedure_of to.new.items ≡ map procedure_of to.old.items ++ cond ((facts_of facts.now).holds_array t) (rows.copy_function (declarations_of declared.now) (facts_of facts.now) t d.now ∷ []) []) }
{
    if !facts.holds_array(t) {
        return Ok(());
    }
    Ok(to.push(copy_function(alloc, declared, facts, t, d)?)?)
}

fn push_type(
    alloc: Global,
    declared: &Declared,
    facts: &WrittenFacts,
    t: u32,
    d: &TypeDecl,
    to: &mut Vec<NetProc>,
) -> Result<(), Mem>
    ensures { OnOk result (map procedure_of to.new.items ≡ map procedure_of to.old.items ++ rows.type_functions (declarations_of declared.now) (facts_of facts.now) t d.now) }
{
    push_new_if(alloc, declared, facts, t, d, to)?;
    push_copy_if(alloc, declared, facts, t, d, to)?;
    Ok(())
}

fn push_types(
    alloc: Global,
    declared: &Declared,
    facts: &WrittenFacts,
    types: &[TypeDecl],
    to: &mut Vec<NetProc>,
) -> Result<(), Mem>
    ensures { OnOk result (map procedure_of to.new.items ≡ map procedure_of to.old.items ++ rows.types_from (declarations_of declared.now) (facts_of facts.now) 0 types.now) }
{
    let mut t = 0;
    for d in types {
        push_type(alloc, declared, facts, t, d, to)?;
        t = next(t)?;
    }
    Ok(())
}

/// All functions that the modules of a project can use, in their order.
pub(crate) fn all_functions(
    alloc: Global,
    declared: &Declared,
    facts: &WrittenFacts,
) -> Result<Vec<NetProc>, Mem>
    ensures { IfOk result (λ all. map procedure_of all.items ≡ all_functions (declarations_of declared.now) (facts_of facts.now)) }
{
    let mut all = fixed_functions(alloc)?;
    push_all_autos(alloc, declared, &mut all)?;
    push_types(alloc, declared, facts, declared.types.as_slice(), &mut all)?;
    Ok(all)
}
