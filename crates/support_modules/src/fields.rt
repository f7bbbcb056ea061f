//! What the functions on user types do with fields: one that makes a user type sets those that have to be made, and one that
//! copies it those that have to be copied.
ghost use Rattle.std.specs.Prelude.{◌≡◌, ◌++◌, Some, cond, [], codes, map, option_map, IfOk, OnOk};
ghost use Rattle.std.specs.List.{flat_map};
ghost use Rattle.vb_tree.specs.BoundView.{type_of};
ghost use Rattle.bound_tree.specs.View.{declarations_of, variable_of};
ghost use Rattle.net_tree.specs.Tree as net;
ghost use Rattle.net_tree.specs.View.{exp_of, exps_of, line_of, type_name_of};
ghost use Rattle.written_trees.specs.Conversions as conversions;
ghost use Rattle.written_trees.specs.Conversions.{call_path};
ghost use Rattle.written_trees.specs.Literals as literals;
ghost use Rattle.written_trees.specs.Names as names;
ghost use Rattle.written_trees.specs.Prologues.{extents};
ghost use Rattle.written_trees.specs.Puts.{array_copy};
ghost use Rattle.written_trees.specs.Supports as rows;
ghost use Rattle.written_rows.specs.View.{facts_of};
ghost use Rattle.support_modules.specs.Fillings.{field_value, lines_of_field};

use crate::extents::extents;
use crate::parts::{array_copy, assignment, call_alone, field_path, new_array};
use bound_tree::{Declared, TypeDecl, VarDecl};
use net_tree::{NetExpr, NetLine, NetType};
use std::alloc::Global;
use up_base::Mem;
use vb_tree::{Type6, VarId};
use written_rows::{WrittenFacts, copy_name, new_name, number, one, type_with};

/// Which fields a function sets.
#[derive(Clone, Copy)]
pub(crate) enum Filling {
    /// Those that have to be made.
    Made,
    /// Those that have to be copied.
    Copied,
}

// In the support module each user type stands behind the name of its module.
fn support_type(alloc: Global, declared: &Declared, rank: u8, ty: &Type6) -> Result<NetType, Mem>
    ensures { IfOk result (λ t. type_name_of t ≡ rows.support_type (declarations_of declared.now) rank (type_of ty.now)) }
{
    Ok(type_with(alloc, declared, 0, true, rank, ty)?)
}

/// A user type, by its number.
pub(crate) fn user_name(alloc: Global, declared: &Declared, t: u32) -> Result<NetType, Mem>
    ensures { IfOk result (λ ty. type_name_of ty ≡ rows.user_name (declarations_of declared.now) t) }
{
    Ok(support_type(alloc, declared, 1, &Type6::User(t))?)
}

// ---- fields that are made

fn made_text(alloc: Global, units: u32) -> Result<NetExpr, Mem>
    ensures { IfOk result (λ e. exp_of e ≡ call_path (names.alone (codes "FixNew")) (conversions.one (literals.number units))) }
{
    let units = one(alloc, number(units)?)?;
    Ok(call_alone(alloc, b"FixNew", units)?)
}

fn made_array(
    alloc: Global,
    declared: &Declared,
    rank: u8,
    bounds: &[(i32, i32)],
    element: &Type6,
) -> Result<NetExpr, Mem>
    ensures { IfOk result (λ e. exp_of e ≡ net.new_array (rows.support_type (declarations_of declared.now) 1 (type_of element.now)) (extents rank bounds.now)) }
{
    let extents = extents(alloc, rank, bounds)?;
    let element = support_type(alloc, declared, 1, element)?;
    Ok(new_array(element, extents))
}

fn made_user(alloc: Global, made: bool, t: u32) -> Result<Option<NetExpr>, Mem>
    ensures { IfOk result (λ e. option_map exp_of e ≡ rows.if_holds made (call_path (names.alone (names.new_name t)) net.no_exps)) }
{
    if !made {
        return Ok(None);
    }
    let name = new_name(alloc, t)?;
    Ok(Some(call_alone(alloc, name.as_bytes(), Vec::new(alloc))?))
}

fn made_field(
    alloc: Global,
    declared: &Declared,
    facts: &WrittenFacts,
    v: u32,
    x: &VarDecl,
) -> Result<Option<NetExpr>, Mem>
    ensures { IfOk result (λ e. option_map exp_of e ≡ rows.made_field (declarations_of declared.now) (facts_of facts.now) v (variable_of x.now) (type_of x.now.ty)) }
{
    match &x.ty {
        Type6::Fixed(units) => Ok(Some(made_text(alloc, *units)?)),
        Type6::Array(element, _) => {
            let rank = facts.rank(v as usize);
            Ok(Some(made_array(alloc, declared, rank, x.bounds.as_slice(), element)?))
        }
        Type6::User(t) => Ok(made_user(alloc, facts.is_made(*t), *t)?),
        _ => Ok(None),
    }
}

// ---- fields that are copied

fn copied_array(
    alloc: Global,
    declared: &Declared,
    rank: u8,
    name: &[u8],
    ty: &Type6,
) -> Result<NetExpr, Mem>
    ensures { IfOk result (λ e. exp_of e ≡ array_copy (rows.support_type (declarations_of declared.now) rank (type_of ty.now)) (rows.field_path (codes "x") name.now)) }
{
    let field = field_path(alloc, b"x", name)?;
    let ty = support_type(alloc, declared, rank, ty)?;
    Ok(array_copy(alloc, ty, field)?)
}

fn field_list(alloc: Global, name: &[u8]) -> Result<Vec<NetExpr>, Mem>
    ensures { IfOk result (λ list. exps_of list.items ≡ conversions.one (rows.field_path (codes "x") name.now)) }
{
    let field = field_path(alloc, b"x", name)?;
    Ok(one(alloc, field)?)
}

fn copied_user(alloc: Global, holds: bool, t: u32, name: &[u8]) -> Result<Option<NetExpr>, Mem>
    ensures { IfOk result (λ e. option_map exp_of e ≡ rows.if_holds holds (call_path (names.alone (names.copy_name t)) (conversions.one (rows.field_path (codes "x") name.now)))) }
{
    if !holds {
        return Ok(None);
    }
    let function = copy_name(alloc, t)?;
    let field = field_list(alloc, name)?;
    Ok(Some(call_alone(alloc, function.as_bytes(), field)?))
}

fn copied_field(
    alloc: Global,
    declared: &Declared,
    facts: &WrittenFacts,
    v: u32,
    x: &VarDecl,
) -> Result<Option<NetExpr>, Mem>
    ensures { IfOk result (λ e. option_map exp_of e ≡ rows.copied_field (declarations_of declared.now) (facts_of facts.now) v (variable_of x.now) (type_of x.now.ty)) }
{
    match &x.ty {
        Type6::Array(_, _) => {
            let rank = facts.rank(v as usize);
            Ok(Some(copied_array(alloc, declared, rank, x.name.as_bytes(), &x.ty)?))
        }
        Type6::User(t) => { Ok(copied_user(alloc, facts.holds_array(*t), *t, x.name.as_bytes())?) }
        _ => Ok(None),
    }
}

// ---- lines

fn field_value(
    alloc: Global,
    filling: Filling,
    declared: &Declared,
    facts: &WrittenFacts,
    v: u32,
    x: &VarDecl,
) -> Result<Option<NetExpr>, Mem>
    ensures { IfOk result (λ e. option_map exp_of e ≡ field_value filling (declarations_of declared.now) (facts_of facts.now) v (variable_of x.now) (type_of x.now.ty)) }
{
    match filling {
        Filling::Made => Ok(made_field(alloc, declared, facts, v, x)?),
        Filling::Copied => Ok(copied_field(alloc, declared, facts, v, x)?),
    }
}

fn set_line(alloc: Global, name: &[u8], value: NetExpr) -> Result<NetLine, Mem>
    ensures { IfOk result (λ l. line_of l ≡ net.assign (rows.field_path (codes "r") name.now) (exp_of value)) }
{
    let field = field_path(alloc, b"r", name)?;
    Ok(assignment(alloc, field, value)?)
}

fn push_set(
    alloc: Global,
    name: &[u8],
    value: Option<NetExpr>,
    to: &mut Vec<NetLine>,
) -> Result<(), Mem>
    ensures { OnOk result (map line_of to.new.items ≡ map line_of to.old.items ++ rows.set_field name.now (option_map exp_of value)) }
{
    match value {
        None => Ok(()),
        Some(value) => Ok(to.push(set_line(alloc, name, value)?)?),
    }
}

// A field of a declared variable.
fn push_known(
    alloc: Global,
    filling: Filling,
    declared: &Declared,
    facts: &WrittenFacts,
    v: u32,
    x: &VarDecl,
    to: &mut Vec<NetLine>,
) -> Result<(), Mem>
    ensures { OnOk result (map line_of to.new.items ≡ map line_of to.old.items ++ rows.set_field x.now.name (field_value filling (declarations_of declared.now) (facts_of facts.now) v (variable_of x.now) (type_of x.now.ty))) }
{
    let value = field_value(alloc, filling, declared, facts, v, x)?;
    Ok(push_set(alloc, x.name.as_bytes(), value, to)?)
}

// A field that carries an issue has no line.
fn push_sound(
    alloc: Global,
    filling: Filling,
    declared: &Declared,
    facts: &WrittenFacts,
    v: u32,
    x: &VarDecl,
    to: &mut Vec<NetLine>,
) -> Result<(), Mem>
    ensures { OnOk result (map line_of to.new.items ≡ map line_of to.old.items ++ rows.field_line (field_value filling (declarations_of declared.now) (facts_of facts.now)) (facts_of facts.now) v (Some (variable_of x.now))) }
{
    if facts.is_flagged_variable(v) {
        return Ok(());
    }
    Ok(push_known(alloc, filling, declared, facts, v, x, to)?)
}

fn push_field(
    alloc: Global,
    filling: Filling,
    declared: &Declared,
    facts: &WrittenFacts,
    f: VarId,
    to: &mut Vec<NetLine>,
) -> Result<(), Mem>
    ensures { OnOk result (map line_of to.new.items ≡ map line_of to.old.items ++ lines_of_field filling (declarations_of declared.now) (facts_of facts.now) f) }
{
    match declared.vars.get(f.0 as usize) {
        None => Ok(()),
        Some(x) => Ok(push_sound(alloc, filling, declared, facts, f.0, x, to)?),
    }
}

fn lines_of_fields(
    alloc: Global,
    filling: Filling,
    declared: &Declared,
    facts: &WrittenFacts,
    fields: &[VarId],
) -> Result<Vec<NetLine>, Mem>
    ensures { IfOk result (λ lines. map line_of lines.items ≡ flat_map (lines_of_field filling (declarations_of declared.now) (facts_of facts.now)) fields.now) }
{
    let mut lines = Vec::new(alloc);
    for f in fields {
        push_field(alloc, filling, declared, facts, *f, &mut lines)?;
    }
    Ok(lines)
}

/// The lines that set the fields of a user type.
#[tactic(auto, unfolding(crate::specs::Fillings::lines_of_field))]
pub(crate) fn field_lines(
    alloc: Global,
    filling: Filling,
    declared: &Declared,
    facts: &WrittenFacts,
    d: &TypeDecl,
) -> Result<Vec<NetLine>, Mem>
    ensures { IfOk result (λ lines. map line_of lines.items ≡ rows.field_lines (field_value filling (declarations_of declared.now) (facts_of facts.now)) (declarations_of declared.now) (facts_of facts.now) d.now) }
{
    Ok(lines_of_fields(alloc, filling, declared, facts, d.fields.as_slice())?)
}
