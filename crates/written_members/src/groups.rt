//! What is written for Types and Enums, with their comments.
ghost use Rattle.std.specs.Prelude.{◌≡◌, ◌++◌, map, IfOk, OnOk};
ghost use Rattle.std.specs.Option.{option_copied};
ghost use Rattle.vb_tree.specs.View.{form_of, line_of};
ghost use Rattle.net_tree.specs.Tree as net;
ghost use Rattle.net_tree.specs.View.{field_of, member_of, type_name_of};
ghost use Rattle.written_trees.specs.DeclaredMembers as rows;
ghost use Rattle.written_rows.specs.View.{scope_of};
ghost use Rattle.written_members.specs.Groups.{enum_constants_if, enum_line, enum_lines, field_line, group_of};
ghost use Rattle.written_members.specs.Shown.{variable_shown};
ghost use Rattle.written_members.specs.View.{IsSite, placed_of, scope_at};

use crate::comment_lines::{
    push_field_texts, push_field_upgrade, push_member_texts, push_member_upgrade,
};
use crate::comments::{Comment, past, up_to};
use crate::declared::{push_constants, push_statement_comments};
use crate::numbers::next;
use crate::placing::{Placed, is_type_head};
use crate::site::Site;
use crate::statements::VarRef;
use bound_tree::{RuleSet, TypeDecl};
use net_tree::{NetField, NetMember, NetStructure, NetType, NetVisibility};
use std::alloc::Global;
use up_base::{Mem, Name};
use vb_tree::{CodeLine, Form6};
use written_rows::{Scope, is_standard_module, variable_type};

// A field that carries an issue is an Object.
fn field_type(alloc: Global, scope: &Scope, v: &VarRef) -> Result<NetType, Mem>
    ensures { IfOk result (λ t. type_name_of t ≡ rows.field_type (scope_of scope.now) (variable_shown v.now)) }
{
    if scope.facts.is_flagged_variable(v.number) {
        return Ok(NetType::Object);
    }
    Ok(variable_type(
        alloc,
        scope.declared,
        scope.facts,
        scope.file,
        v.number,
        v.decl,
    )?)
}

fn field_member(alloc: Global, scope: &Scope, v: &VarRef) -> Result<NetField, Mem>
    ensures { IfOk result (λ f. field_of f ≡ rows.field_member (scope_of scope.now) (variable_shown v.now)) }
{
    let name = v.decl.name.copy(alloc)?;
    let ty = field_type(alloc, scope, v)?;
    Ok(NetField::Field(name, ty))
}

fn push_fields(
    alloc: Global,
    scope: &Scope,
    vars: &[VarRef],
    to: &mut Vec<NetField>,
) -> Result<(), Mem>
    ensures { OnOk result (map field_of to.new.items ≡ map field_of to.old.items ++ map (rows.field_member (scope_of scope.now)) (map variable_shown vars.now)) }
{
    for v in vars {
        to.push(field_member(alloc, scope, v)?)?;
    }
    Ok(())
}

fn push_line_fields(
    alloc: Global,
    site: &Site,
    number: u32,
    line: &CodeLine,
    to: &mut Vec<NetField>,
) -> Result<(), Mem>
    requires { IsSite site.now }
    ensures { OnOk result (map field_of to.new.items ≡ map field_of to.old.items ++ rows.line_fields (scope_at site.now) number (line_of line.now)) }
{
    push_field_upgrade(alloc, site.rules(number), line.text.as_slice(), to)?;
    push_fields(alloc, &site.scope(), site.variables(number), to)?;
    Ok(())
}

// A line of a Type, and the comments up to it.
fn push_field_line(
    alloc: Global,
    site: &Site,
    comments: &[Comment],
    number: u32,
    line: &CodeLine,
    to: &mut Vec<NetField>,
) -> Result<(), Mem>
    requires { IsSite site.now }
    ensures { OnOk result (map field_of to.new.items ≡ map field_of to.old.items ++ field_line (scope_at site.now) comments.now number (line_of line.now)) }
{
    push_field_texts(alloc, up_to(comments, line.place.line), to)?;
    push_line_fields(alloc, site, number, line, to)?;
    Ok(())
}

// The lines of a Type, which are numbered from `number`, with their comments.
fn fields_from(
    alloc: Global,
    site: &Site,
    comments: &[Comment],
    number: u32,
    lines: &[CodeLine],
) -> Result<Vec<NetField>, Mem>
    requires { IsSite site.now }
    ensures { IfOk result (λ fields. map field_of fields.items ≡ rows.fields_from (scope_at site.now) comments.now number (map line_of lines.now)) }
{
    let mut fields = Vec::new(alloc);
    let mut rest = comments;
    let mut n = number;
    for line in lines {
        push_field_line(alloc, site, rest, n, line, &mut fields)?;
        rest = past(rest, line.place.line);
        n = next(n)?;
    }
    push_field_texts(alloc, rest, &mut fields)?;
    Ok(fields)
}

fn type_name(alloc: Global, ty: Option<&TypeDecl>) -> Result<Name, Mem>
    ensures { IfOk result (λ name. name ≡ rows.type_name (option_copied ty.entry)) }
{
    match ty {
        None => Err(Mem),
        Some(ty) => Ok(ty.name.copy(alloc)?),
    }
}

fn boxed_structure(alloc: Global, name: Name, fields: Vec<NetField>) -> Result<NetMember, Mem>
    ensures { IfOk result (λ m. member_of m ≡ net.structure (record { name = name; fields = map field_of fields.items })) }
{
    Ok(NetMember::Structure(Box::new(alloc, NetStructure { name, fields })?))
}

fn written_structure(
    alloc: Global,
    site: &Site,
    placed: &Placed,
    lines: &[CodeLine],
) -> Result<NetMember, Mem>
    requires { IsSite site.now }
    ensures { IfOk result (λ m. member_of m ≡ rows.structure_of (scope_at site.now) (placed_of placed.now) (map line_of lines.now)) }
{
    let name = type_name(
        alloc,
        site.statements
            .declared()
            .types
            .get(placed.at.user_type as usize),
    )?;
    let first = next(placed.at.statement)?;
    let fields = fields_from(alloc, site, placed.inside, first, lines)?;
    Ok(boxed_structure(alloc, name, fields)?)
}

fn is_standard(site: &Site) -> bool
    ensures { result ≡ rows.is_standard (scope_at site.now) }
{
    is_standard_module(site.statements.declared(), site.file)
}

// The constants of an Enum; a class has none.
fn push_enum_constants(
    alloc: Global,
    site: &Site,
    standard: bool,
    number: u32,
    to: &mut Vec<NetMember>,
) -> Result<(), Mem>
    requires { IsSite site.now }
    ensures { OnOk result (map member_of to.new.items ≡ map member_of to.old.items ++ enum_constants_if (scope_at site.now) standard number) }
{
    if !standard {
        return Ok(());
    }
    Ok(push_constants(
        alloc,
        &site.scope(),
        NetVisibility::Public,
        site.constants(number),
        to,
    )?)
}

// A line of an Enum, and the comments up to it.
fn push_enum_line(
    alloc: Global,
    site: &Site,
    standard: bool,
    comments: &[Comment],
    number: u32,
    line: &CodeLine,
    to: &mut Vec<NetMember>,
) -> Result<(), Mem>
    requires { IsSite site.now }
    ensures { OnOk result (map member_of to.new.items ≡ map member_of to.old.items ++ enum_line (scope_at site.now) standard comments.now number (line_of line.now)) }
{
    push_member_texts(alloc, up_to(comments, line.place.line), to)?;
    push_statement_comments(alloc, site, number, line, to)?;
    push_enum_constants(alloc, site, standard, number, to)?;
    Ok(())
}

fn push_enum_lines(
    alloc: Global,
    site: &Site,
    standard: bool,
    comments: &[Comment],
    number: u32,
    lines: &[CodeLine],
    to: &mut Vec<NetMember>,
) -> Result<(), Mem>
    requires { IsSite site.now }
    ensures { OnOk result (map member_of to.new.items ≡ map member_of to.old.items ++ enum_lines (scope_at site.now) standard comments.now number (map line_of lines.now)) }
{
    let mut rest = comments;
    let mut n = number;
    for line in lines {
        push_enum_line(alloc, site, standard, rest, n, line, to)?;
        rest = past(rest, line.place.line);
        n = next(n)?;
    }
    push_member_texts(alloc, rest, to)?;
    Ok(())
}

// The lines of an Enum, which are numbered from `number`, with their comments.
fn push_enum(
    alloc: Global,
    site: &Site,
    comments: &[Comment],
    number: u32,
    lines: &[CodeLine],
    to: &mut Vec<NetMember>,
) -> Result<(), Mem>
    requires { IsSite site.now }
    ensures { OnOk result (map member_of to.new.items ≡ map member_of to.old.items ++ rows.enum_from (scope_at site.now) comments.now number (map line_of lines.now)) }
{
    Ok(push_enum_lines(alloc, site, is_standard(site), comments, number, lines, to)?)
}

fn group_rules(site: &Site, placed: &Placed, form: &Form6) -> RuleSet
    ensures { result ≡ rows.group_rules (scope_at site.now) (placed_of placed.now) (form_of form.now) }
{
    if is_type_head(form) {
        site.facts.type_set(placed.at.user_type)
    } else {
        site.facts.enum_set(placed.at.enumeration)
    }
}

fn push_group(
    alloc: Global,
    site: &Site,
    placed: &Placed,
    head: &CodeLine,
    lines: &[CodeLine],
    to: &mut Vec<NetMember>,
) -> Result<(), Mem>
    requires { IsSite site.now }
    ensures { OnOk result (map member_of to.new.items ≡ map member_of to.old.items ++ group_of (scope_at site.now) (placed_of placed.now) (line_of head.now) (map line_of lines.now)) }
{
    if is_type_head(&head.form) {
        return Ok(to.push(written_structure(alloc, site, placed, lines)?)?);
    }
    let first = next(placed.at.statement)?;
    Ok(push_enum(alloc, site, placed.inside, first, lines, to)?)
}

/// Puts what is written for a Type or an Enum, which stands in its module as a member, behind members.
pub fn push_group_members(
    alloc: Global,
    site: &Site,
    placed: &Placed,
    head: &CodeLine,
    lines: &[CodeLine],
    to: &mut Vec<NetMember>,
) -> Result<(), Mem>
    requires { IsSite site.now }
    ensures { OnOk result (map member_of to.new.items ≡ map member_of to.old.items ++ rows.group_members (scope_at site.now) (placed_of placed.now) (line_of head.now) (map line_of lines.now)) }
{
    let rules = group_rules(site, placed, &head.form);
    push_member_upgrade(alloc, rules, head.text.as_slice(), to)?;
    push_group(alloc, site, placed, head, lines, to)?;
    Ok(())
}
