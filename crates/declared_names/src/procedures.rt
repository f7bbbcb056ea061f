//! Procedures with what they have of their own, put behind what is declared so far.
ghost use Rattle.std.specs.Prelude.{◌≡◌, length, map, option_map, OnOk, IfOk};
ghost use Rattle.vb_tree.specs.View.{line_of, param_of, result_of, type_name_of};
ghost use Rattle.declared_names.specs.Declaring.{a_procedure, answer_declares, answer_id, answer_in, dynamic, given_place, ids, inside_declares, locals_declare, parameter_in, params_declare, procedure_declares, procedure_in, result_bounds, with_declared};
ghost use Rattle.declared_names.specs.View.{extents_of, head_shown, names_of, procedure_of, variable_of};

use crate::heads::{has_result, takes_value};
use crate::scopes::{open_scope, param_owner, written_visibility};
use crate::variables::{number, put_local, put_name, put_variable, sum};
use crate::{DeclaredNames, Extents, HeadRef, NamedProc, NamedVar};
use bound_tree::{Named, Scope};
use std::alloc::Global;
use up_base::{Mem, Place, Sequence};
use vb_tree::{CodeLine, Owner, Param6, Passing, ProcId, Result6, TypeName6, VarId};

/// Puts a procedure, and behind it what it has of its own.
#[tactic(auto, using(crate::proofs::Following::procedure_parts))]
pub(crate) fn put_procedure<'a>(
    alloc: Global,
    file: u32,
    place: Place,
    statement: u32,
    head: HeadRef<'a>,
    body: &[&'a CodeLine],
    to: &mut DeclaredNames<'a>,
) -> Result<(), Mem>
    ensures { OnOk result (names_of to.new ≡ with_declared (procedure_declares file place statement (head_shown head.entry) (map (λ l. line_of l.now) body.now)) (names_of to.old)) }
{
    let id = ProcId(number(to.procs.len())?);
    put_head(alloc, file, place, statement, head, to)?;
    put_inside(alloc, id, place, statement, head, body, to)?;
    Ok(())
}

// Puts the procedure itself.
#[tactic(auto, using(crate::proofs::Following::procedure_behind))]
fn put_head<'a>(
    alloc: Global,
    file: u32,
    place: Place,
    statement: u32,
    head: HeadRef<'a>,
    to: &mut DeclaredNames<'a>,
) -> Result<(), Mem>
    ensures { OnOk result (names_of to.new ≡ with_declared (a_procedure file place statement (head_shown head.entry)) (names_of to.old)) }
{
    let id = ProcId(number(to.procs.len())?);
    let first = number(to.vars.len())?;
    let scope = open_scope(file, head.signature.visibility);
    put_name(
        alloc,
        &head.signature.name,
        scope,
        Named::Proc(id),
        &mut to.names,
    )?;
    to.procs
        .push(procedure(alloc, file, place, statement, head, first)?)?;
    Ok(())
}

// The procedure whose first parameter has a number.
fn procedure<'a>(
    alloc: Global,
    file: u32,
    place: Place,
    statement: u32,
    head: HeadRef<'a>,
    first: u32,
) -> Result<NamedProc<'a>, Mem>
    ensures { IfOk result (λ p. procedure_of p ≡ procedure_in file place statement (head_shown head.entry) first) }
{
    Ok(NamedProc {
        name: &head.signature.name,
        suffix: head.signature.suffix,
        place,
        statement,
        module: file,
        kind: head.kind,
        is_static: head.is_static,
        visibility: written_visibility(head.signature.visibility),
        params: var_ids(alloc, first, head.signature.params.as_slice())?,
        result: head.ty,
        answer: answer_id(first, head)?,
    })
}

/// The numbers of variables, of which the first has a number, one for each item.
pub(crate) fn var_ids<T>(alloc: Global, first: u32, items: &[T]) -> Result<Sequence<VarId>, Mem>
    ensures { IfOk result (λ v. v ≡ ids first (length items.now)) }
{
    let mut all = Sequence::new(alloc);
    let mut next = first;
    for _item in items {
        all.push(VarId(next))?;
        next = sum(next, 1)?;
    }
    Ok(all)
}

// The number of the result variable behind the parameters.
fn answer_id(first: u32, head: HeadRef) -> Result<Option<VarId>, Mem>
    ensures { IfOk result (λ v. v ≡ answer_id first (head_shown head.entry)) }
{
    if !has_result(head.kind) {
        return Ok(None);
    }
    let id = sum(first, number(head.signature.params.len())?)?;
    Ok(Some(VarId(id)))
}

// Puts the parameters, the result variable and the locals of a procedure.
#[tactic(auto, using(crate::proofs::Following::behind_follow))]
fn put_inside<'a>(
    alloc: Global,
    procedure: ProcId,
    place: Place,
    statement: u32,
    head: HeadRef<'a>,
    body: &[&'a CodeLine],
    to: &mut DeclaredNames<'a>,
) -> Result<(), Mem>
    ensures { OnOk result (names_of to.new ≡ with_declared (inside_declares procedure place statement (head_shown head.entry) (map (λ l. line_of l.now) body.now)) (names_of to.old)) }
{
    let given = given_place(head);
    let params = head.signature.params.as_slice();
    put_params(alloc, procedure, given, place, statement, params, to)?;
    put_answer(alloc, procedure, place, statement, head, to)?;
    let next = sum(statement, 1)?;
    put_locals(alloc, procedure, next, body, to)?;
    Ok(())
}

// The place of the parameter that is the value that a property is given, from 1, and 0 where none is.
fn given_place(head: HeadRef) -> usize
    ensures { result ≡ given_place (head_shown head.entry) }
{
    if takes_value(head.kind) {
        head.signature.params.len()
    } else {
        0
    }
}

#[tactic(auto, using(crate::proofs::Following::behind_follow, crate::proofs::Following::behind_nothing))]
fn put_params<'a>(
    alloc: Global,
    procedure: ProcId,
    given: usize,
    place: Place,
    statement: u32,
    params: &'a [Param6],
    to: &mut DeclaredNames<'a>,
) -> Result<(), Mem>
    ensures { OnOk result (names_of to.new ≡ with_declared (params_declare procedure given place statement 0 (map param_of params.now)) (names_of to.old)) }
{
    for (i, param) in params.iter().enumerate() {
        let owner = param_owner(procedure, i + 1 == given, param);
        let variable = parameter(owner, place, statement, param);
        put_variable(alloc, Scope::Local(procedure), variable, to)?;
    }
    Ok(())
}

fn parameter<'a>(owner: Owner, place: Place, statement: u32, param: &'a Param6) -> NamedVar<'a>
    ensures { variable_of result ≡ parameter_in owner place statement (param_of param.now) }
{
    NamedVar {
        name: &param.name,
        suffix: param.suffix,
        place,
        statement,
        owner,
        extents: dynamic(param.array),
        auto: false,
        ty: param.ty.as_ref(),
        passing: param.passing,
        optional: param.optional,
        param_array: param.param_array,
        preset: param.preset.as_ref(),
    }
}

fn dynamic<'a>(is_array: bool) -> Extents<'a>
    ensures { extents_of result ≡ dynamic is_array }
{
    if is_array {
        Extents::Dynamic
    } else {
        Extents::Single
    }
}

// Puts the result variable where there is one.
#[tactic(auto, using(crate::proofs::Following::behind_nothing))]
fn put_answer<'a>(
    alloc: Global,
    procedure: ProcId,
    place: Place,
    statement: u32,
    head: HeadRef<'a>,
    to: &mut DeclaredNames<'a>,
) -> Result<(), Mem>
    ensures { OnOk result (names_of to.new ≡ with_declared (answer_declares procedure place statement (head_shown head.entry)) (names_of to.old)) }
{
    if !has_result(head.kind) {
        return Ok(());
    }
    let variable = answer(procedure, place, statement, head);
    Ok(put_variable(alloc, Scope::Local(procedure), variable, to)?)
}

fn answer<'a>(procedure: ProcId, place: Place, statement: u32, head: HeadRef<'a>) -> NamedVar<'a>
    ensures { variable_of result ≡ answer_in procedure place statement (head_shown head.entry) }
{
    NamedVar {
        name: &head.signature.name,
        suffix: head.signature.suffix,
        place,
        statement,
        owner: Owner::Answer(procedure),
        extents: result_extents(head.ty),
        auto: false,
        ty: result_type(head.ty),
        passing: Passing::Unsaid,
        optional: false,
        param_array: false,
        preset: None,
    }
}

fn result_extents<'a>(ty: Option<&Result6>) -> Extents<'a>
    ensures { extents_of result ≡ result_bounds (option_map (λ r. result_of r.now) ty.entry) }
{
    match ty {
        Some(ty) => dynamic(ty.array),
        None => Extents::Single,
    }
}

fn result_type(ty: Option<&Result6>) -> Option<&TypeName6>
    ensures { option_map (λ t. type_name_of t.now) result ≡ option_map (λ r. r.ty) (option_map (λ r. result_of r.now) ty.entry) }
{
    match ty {
        Some(ty) => Some(&ty.ty),
        None => None,
    }
}

// Puts what the lines of a procedure declare, of which the first is a statement of its module.
#[tactic(auto, using(crate::proofs::Following::behind_follow, crate::proofs::Following::behind_nothing))]
fn put_locals<'a>(
    alloc: Global,
    procedure: ProcId,
    statement: u32,
    lines: &[&'a CodeLine],
    to: &mut DeclaredNames<'a>,
) -> Result<(), Mem>
    ensures { OnOk result (names_of to.new ≡ with_declared (locals_declare procedure statement (map (λ l. line_of l.now) lines.now)) (names_of to.old)) }
{
    let mut next = statement;
    for line in lines {
        let line = *line;
        put_local(alloc, procedure, next, line.place, &line.form, to)?;
        next = sum(next, 1)?;
    }
    Ok(())
}
