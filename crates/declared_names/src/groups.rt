//! Types and Enums, put behind what is declared so far.
ghost use Rattle.std.specs.Prelude.{◌≡◌, length, map, option_map, OnOk, IfOk};
ghost use Rattle.vb_tree.specs.View.{exp_of, form_of, line_of};
ghost use Rattle.declared_names.specs.Declaring.{a_type, an_enum, const_ids, enum_declares, enum_line_declares, fields_declare, group_declares, member_in, members_declare, type_declares, with_declared};
ghost use Rattle.declared_names.specs.View.{constant_of, names_of};

use crate::heads::expr_in;
use crate::procedures::var_ids;
use crate::scopes::open_scope;
use crate::variables::{number, put_constant, put_field_line, put_name, sum};
use crate::{DeclaredNames, NamedConst};
use bound_tree::{ConstId, EnumDecl, EnumId, Named, Scope, TypeDecl};
use std::alloc::Global;
use up_base::{Mem, Name, Place, Sequence};
use vb_tree::{CodeLine, Expr6, Form6, Owner, Suffix, TypeId, Visibility};

/// Puts a Type or an Enum with what its lines declare. Its head is a statement of the module of a file.
#[tactic(auto, using(crate::proofs::Following::behind_nothing))]
pub(crate) fn put_group<'a>(
    alloc: Global,
    file: u32,
    place: Place,
    statement: u32,
    head: &'a Form6,
    lines: &'a [CodeLine],
    to: &mut DeclaredNames<'a>,
) -> Result<(), Mem>
    ensures { OnOk result (names_of to.new ≡ with_declared (group_declares file place statement (form_of head.now) (map line_of lines.now)) (names_of to.old)) }
{
    match head {
        Form6::TypeHead(visibility, name, _) => Ok(put_type(
            alloc,
            file,
            place,
            statement,
            *visibility,
            name,
            lines,
            to,
        )?),
        Form6::EnumHead(visibility, name, _) => Ok(put_enum(
            alloc,
            file,
            place,
            statement,
            *visibility,
            name,
            lines,
            to,
        )?),
        _ => Ok(()),
    }
}

#[tactic(auto, using(crate::proofs::Following::type_parts))]
fn put_type<'a>(
    alloc: Global,
    file: u32,
    place: Place,
    statement: u32,
    visibility: Option<Visibility>,
    name: &Name,
    lines: &'a [CodeLine],
    to: &mut DeclaredNames<'a>,
) -> Result<(), Mem>
    ensures { OnOk result (names_of to.new ≡ with_declared (type_declares file place statement visibility name.now (map line_of lines.now)) (names_of to.old)) }
{
    let id = TypeId(number(to.types.len())?);
    put_type_head(alloc, file, place, visibility, name, lines, to)?;
    put_fields(Owner::Field(id), sum(statement, 1)?, lines, to)?;
    Ok(())
}

// Puts the Type itself.
#[tactic(auto, using(crate::proofs::Following::type_behind))]
fn put_type_head<'a>(
    alloc: Global,
    file: u32,
    place: Place,
    visibility: Option<Visibility>,
    name: &Name,
    lines: &[CodeLine],
    to: &mut DeclaredNames<'a>,
) -> Result<(), Mem>
    ensures { OnOk result (names_of to.new ≡ with_declared (a_type file place visibility name.now (map line_of lines.now)) (names_of to.old)) }
{
    let id = TypeId(number(to.types.len())?);
    let fields = var_ids(alloc, number(to.vars.len())?, lines)?;
    put_name(
        alloc,
        name,
        open_scope(file, visibility),
        Named::Type(id),
        &mut to.names,
    )?;
    to.types.push(TypeDecl {
        name: name.copy(alloc)?,
        place,
        module: file,
        fields,
    })?;
    Ok(())
}

// Puts the fields of a Type. Its first line is a statement of the module.
#[tactic(auto, using(crate::proofs::Following::behind_follow, crate::proofs::Following::behind_nothing))]
fn put_fields<'a>(
    owner: Owner,
    statement: u32,
    lines: &'a [CodeLine],
    to: &mut DeclaredNames<'a>,
) -> Result<(), Mem>
    ensures { OnOk result (names_of to.new ≡ with_declared (fields_declare owner statement (map line_of lines.now)) (names_of to.old)) }
{
    let mut next = statement;
    for line in lines {
        put_field_line(owner, next, line.place, &line.form, to)?;
        next = sum(next, 1)?;
    }
    Ok(())
}

#[tactic(auto, using(crate::proofs::Following::behind_follow))]
fn put_enum<'a>(
    alloc: Global,
    file: u32,
    place: Place,
    statement: u32,
    visibility: Option<Visibility>,
    name: &Name,
    lines: &'a [CodeLine],
    to: &mut DeclaredNames<'a>,
) -> Result<(), Mem>
    ensures { OnOk result (names_of to.new ≡ with_declared (enum_declares file place statement visibility name.now (map line_of lines.now)) (names_of to.old)) }
{
    put_enum_head(alloc, file, place, visibility, name, lines, to)?;
    let scope = open_scope(file, visibility);
    put_members(alloc, scope, file, sum(statement, 1)?, lines, to)?;
    Ok(())
}

// Puts the Enum itself.
#[tactic(auto, using(crate::proofs::Following::enum_behind))]
fn put_enum_head<'a>(
    alloc: Global,
    file: u32,
    place: Place,
    visibility: Option<Visibility>,
    name: &Name,
    lines: &[CodeLine],
    to: &mut DeclaredNames<'a>,
) -> Result<(), Mem>
    ensures { OnOk result (names_of to.new ≡ with_declared (an_enum file place visibility name.now (map line_of lines.now)) (names_of to.old)) }
{
    let id = EnumId(number(to.enums.len())?);
    let members = const_ids(alloc, number(to.consts.len())?, lines)?;
    put_name(
        alloc,
        name,
        open_scope(file, visibility),
        Named::Enum(id),
        &mut to.names,
    )?;
    to.enums.push(EnumDecl {
        name: name.copy(alloc)?,
        place,
        module: file,
        members,
    })?;
    Ok(())
}

// The numbers of constants, of which the first has a number, one for each item.
fn const_ids<T>(alloc: Global, first: u32, items: &[T]) -> Result<Sequence<ConstId>, Mem>
    ensures { IfOk result (λ v. v ≡ const_ids first (length items.now)) }
{
    let mut all = Sequence::new(alloc);
    let mut next = first;
    for _item in items {
        all.push(ConstId(next))?;
        next = sum(next, 1)?;
    }
    Ok(all)
}

// Puts the members of an Enum. Its first line is a statement of the module.
#[tactic(auto, using(crate::proofs::Following::members_done, crate::proofs::Following::members_more))]
fn put_members<'a>(
    alloc: Global,
    scope: Scope,
    file: u32,
    statement: u32,
    lines: &'a [CodeLine],
    to: &mut DeclaredNames<'a>,
) -> Result<(), Mem>
    ensures { OnOk result (names_of to.new ≡ with_declared (members_declare scope file Rattle.std.specs.Prelude.None statement (map line_of lines.now)) (names_of to.old)) }
{
    let mut before = None;
    let mut next = statement;
    for line in lines {
        let id = ConstId(number(to.consts.len())?);
        put_member(alloc, scope, file, before, next, line.place, &line.form, to)?;
        before = Some(id);
        next = sum(next, 1)?;
    }
    Ok(())
}

// Puts the member of an Enum that a line declares, behind another one.
#[tactic(auto, using(crate::proofs::Following::behind_nothing))]
fn put_member<'a>(
    alloc: Global,
    scope: Scope,
    file: u32,
    before: Option<ConstId>,
    statement: u32,
    place: Place,
    form: &'a Form6,
    to: &mut DeclaredNames<'a>,
) -> Result<(), Mem>
    ensures { OnOk result (names_of to.new ≡ with_declared (enum_line_declares scope file before statement place (form_of form.now)) (names_of to.old)) }
{
    match form {
        Form6::EnumMember(name, suffix, value) => {
            let constant = member(file, before, place, statement, name, *suffix, value);
            Ok(put_constant(alloc, scope, constant, to)?)
        }
        _ => Ok(()),
    }
}

fn member<'a>(
    file: u32,
    before: Option<ConstId>,
    place: Place,
    statement: u32,
    name: &'a Name,
    suffix: Suffix,
    value: &'a Option<Box<Expr6>>,
) -> NamedConst<'a>
    ensures { constant_of result ≡ member_in file before place statement name.now suffix (option_map (λ e. exp_of e.value) value.now) }
{
    NamedConst {
        name,
        suffix,
        place,
        statement,
        owner: Owner::Module(file),
        ty: None,
        value: expr_in(value),
        before,
    }
}
