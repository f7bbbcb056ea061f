//! The functions that are the same for all projects.
ghost use Rattle.std.specs.Prelude.{◌≡◌, Some, IfOk, map, slice_get};
ghost use Rattle.std.specs.Option.{option_copied};
ghost use Rattle.net_tree.specs.View.{head_of, param_of, procedure_of};
ghost use Rattle.support_text.specs.FixedFunctions.{fixed_functions};
ghost use Rattle.support_text.specs.MadeView.{made};
ghost use Rattle.support_text.specs.Steps.{built, parameter, head_with, close_with, simple_type};

use crate::making::{Making, follow_all};
use crate::parts;
use crate::step::{Parameter, Routine, SimpleType};
use crate::table::{
    arithmetic_routines, assignment_routines, basic_routines, conversion_routines, logic_routines,
    printing_routines, variant_routines,
};
use net_tree::{NetClose, NetHead, NetParam, NetPassing, NetProc, NetVisibility};
use std::alloc::Global;
use up_base::{Mem, Name};

/// How many functions are the same for all projects.
pub const FIXED: usize = 46;

fn one_param(
    alloc: Global,
    passing: NetPassing,
    bytes: &[u8],
    ty: SimpleType,
) -> Result<NetParam, Mem>
    ensures { IfOk result (λ p. param_of p ≡ record { passing = passing; name = bytes.now; ty = simple_type ty }) }
{
    Ok(NetParam {
        passing,
        name: parts::name(alloc, bytes)?,
        ty: ty.written(),
    })
}

fn param(alloc: Global, param: &Parameter) -> Result<NetParam, Mem>
    ensures { IfOk result (λ p. param_of p ≡ parameter param.now) }
{
    match param {
        Parameter::ByVal(name, ty) => Ok(one_param(alloc, NetPassing::Value, name, *ty)?),
        Parameter::ByRef(name, ty) => Ok(one_param(alloc, NetPassing::Reference, name, *ty)?),
    }
}

fn params(alloc: Global, given: &[Parameter]) -> Result<Vec<NetParam>, Mem>
    ensures { IfOk result (λ list. map param_of list.items ≡ map parameter given.now) }
{
    let mut list = Vec::with_capacity(alloc, given.len())?;
    for p in given {
        list.push(param(alloc, p)?)?;
    }
    Ok(list)
}

fn head_with(name: Name, params: Vec<NetParam>, result_type: Option<SimpleType>) -> NetHead
    ensures { head_of result ≡ head_with name (map param_of params.items) result_type }
{
    match result_type {
        None => NetHead::Sub(NetVisibility::Public, name, params),
        Some(ty) => NetHead::Function(NetVisibility::Public, name, params, ty.written()),
    }
}

fn head(alloc: Global, routine: &Routine) -> Result<NetHead, Mem>
    ensures { IfOk result (λ h. head_of h ≡ head_with routine.now.name.now (map parameter routine.now.params.now) routine.now.result) }
{
    let name = parts::name(alloc, routine.name)?;
    let params = params(alloc, routine.params)?;
    Ok(head_with(name, params, routine.result))
}

fn close(result_type: Option<SimpleType>) -> NetClose
    ensures { result ≡ close_with result_type }
{
    match result_type {
        None => NetClose::EndSub,
        Some(_) => NetClose::EndFunction,
    }
}

#[tactic(auto, unfolding(crate::specs::MadeView::made))]
fn procedure_with(head: NetHead, making: Making, close: NetClose) -> NetProc
    ensures { procedure_of result ≡ record { head = head_of head; prologue = (made making).prologue; lines = (made making).lines; close = close } }
{
    NetProc {
        head,
        prologue: making.prologue,
        lines: making.lines,
        close,
    }
}

fn build(alloc: Global, routine: &Routine) -> Result<NetProc, Mem>
    ensures { IfOk result (λ p. built routine.now ≡ Some (procedure_of p)) }
{
    let head = head(alloc, routine)?;
    let making = follow_all(alloc, routine.steps)?;
    Ok(procedure_with(head, making, close(routine.result)))
}

fn routine_at(list: &'static [Routine], place: usize) -> Option<&'static Routine>
    ensures { option_copied result ≡ slice_get list.now place }
{
    list.get(place)
}

fn build_at(alloc: Global, list: &'static [Routine], place: usize) -> Result<NetProc, Mem>
    ensures { IfOk result (λ p. slice_get (map built list.now) place ≡ Some (Some (procedure_of p))) }
{
    match routine_at(list, place) {
        Some(routine) => Ok(build(alloc, routine)?),
        None => Err(Mem),
    }
}

/// A function that is the same for all projects, by its place among them, counted from 0. A place from `FIXED` on fails as want
/// of memory does.
pub fn fixed_function(alloc: Global, place: usize) -> Result<NetProc, Mem>
    ensures { IfOk result (λ p. slice_get fixed_functions place ≡ Some (procedure_of p)) }
{
    if place < 7 {
        return Ok(build_at(alloc, printing_routines(), place)?);
    }
    if place < 18 {
        return Ok(build_at(alloc, basic_routines(), place - 7)?);
    }
    if place < 22 {
        return Ok(build_at(alloc, variant_routines(), place - 18)?);
    }
    if place < 28 {
        return Ok(build_at(alloc, arithmetic_routines(), place - 22)?);
    }
    if place < 32 {
        return Ok(build_at(alloc, logic_routines(), place - 28)?);
    }
    if place < 39 {
        return Ok(build_at(alloc, conversion_routines(), place - 32)?);
    }
    Ok(build_at(alloc, assignment_routines(), place - 39)?)
}
