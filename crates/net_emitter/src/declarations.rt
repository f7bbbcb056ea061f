//! Declarations, procedures and members.
ghost use Rattle.std.specs.Prelude.{◌≡◌, ◌++◌, ◌<◌, suc, map, codes, option_map, OnOk};
ghost use Rattle.std.specs.List.{flat_map};
ghost use Rattle.net_tree.specs.View.{type_name_of, exp_of, variable_of, constant_of, dim_of, param_of, head_of};
ghost use Rattle.net_tree.specs.View.{procedure_of, property_of, field_of, structure_of, member_of, line_of};
ghost use Rattle.net_tree.specs.Spelling.{at_depth, name_text};
ghost use Rattle.net_tree.specs.Comments.{comment_text};
ghost use Rattle.net_tree.specs.Expressions.{exp_text, type_text};
ghost use Rattle.net_tree.specs.Lines.{lines_text};
ghost use Rattle.net_tree.specs.Declarations.{declared_text, value_text, variable_text, constant_text, dim_text, passing_text, param_text};
ghost use Rattle.net_tree.specs.Declarations.{params_text, visibility_text, head_text, close_text, procedure_text, comments_text, part_text};
ghost use Rattle.net_tree.specs.Declarations.{access_text, property_head_text, property_text, field_text, structure_text, member_text};

use crate::comments::write_comment;
use crate::expressions::{write_expression, write_rank, write_type};
use crate::layout::{begin_line, end_line, write_line, write_separator};
use crate::lines::write_lines;
use crate::names::write_name;
use net_tree::{
    NetClose, NetConstant, NetDim, NetExpr, NetField, NetHead, NetMember, NetParam, NetPassing,
    NetProc, NetProperty, NetStructure, NetType, NetVariable, NetVisibility,
};
use up_base::{Bytes, Mem, Name, Wide};

// Writes a type behind As.
fn write_as(out: &mut Bytes, ty: &NetType) -> Result<(), Mem>
    ensures { OnOk result (out.new ≡ out.old ++ codes " As " ++ type_text (type_name_of ty.now)) }
{
    out.extend_from_slice(b" As ")?;
    write_type(out, ty)
}

// Writes what a name is declared as.
fn write_declared(out: &mut Bytes, name: &Name, ty: &NetType) -> Result<(), Mem>
    ensures { OnOk result (out.new ≡ out.old ++ declared_text name.now (type_name_of ty.now)) }
{
    write_name(out, name)?;
    match ty {
        NetType::ArrayOf(element, rank) => {
            write_rank(out, *rank)?;
            write_as(out, element)
        }
        _ => write_as(out, ty),
    }
}

// Writes the value that something begins with.
fn write_initial(out: &mut Bytes, value: &NetExpr) -> Result<(), Mem>
    ensures { OnOk result (out.new ≡ out.old ++ codes " = " ++ exp_text (exp_of value.now)) }
{
    out.extend_from_slice(b" = ")?;
    write_expression(out, value)
}

// Writes the value that a variable begins with, where one is written.
fn write_value(out: &mut Bytes, value: &Option<Box<NetExpr>>) -> Result<(), Mem>
    ensures { OnOk result (out.new ≡ out.old ++ value_text (option_map (λ e. exp_of e.value) value.now)) }
{
    match value {
        None => Ok(()),
        Some(value) => write_initial(out, value),
    }
}

fn write_variable(out: &mut Bytes, variable: &NetVariable) -> Result<(), Mem>
    ensures { OnOk result (out.new ≡ out.old ++ variable_text (variable_of variable.now)) }
{
    write_declared(out, &variable.name, &variable.ty)?;
    write_value(out, &variable.value)
}

fn write_constant(out: &mut Bytes, constant: &NetConstant) -> Result<(), Mem>
    ensures { OnOk result (out.new ≡ out.old ++ constant_text (constant_of constant.now)) }
{
    out.extend_from_slice(b"Const ")?;
    write_declared(out, &constant.name, &constant.ty)?;
    write_initial(out, &constant.value)
}

fn write_dim(out: &mut Bytes, dim: &NetDim) -> Result<(), Mem>
    ensures { OnOk result (out.new ≡ out.old ++ dim_text (dim_of dim.now)) }
{
    match dim {
        NetDim::Local(variable) => {
            out.extend_from_slice(b"Dim ")?;
            write_variable(out, variable)
        }
        NetDim::Static(variable) => {
            out.extend_from_slice(b"Static ")?;
            write_variable(out, variable)
        }
        NetDim::Const(constant) => write_constant(out, constant),
    }
}

/// Writes the line of a declaration at the head of a procedure.
pub fn write_dim_line(out: &mut Bytes, depth: usize, dim: &NetDim) -> Result<(), Mem>
    ensures { OnOk result (out.new ≡ out.old ++ at_depth depth (dim_text (dim_of dim.now))) }
{
    begin_line(out, depth)?;
    write_dim(out, dim)?;
    end_line(out)
}

// Writes the declarations of a procedure's locals.
fn write_prologue(out: &mut Bytes, depth: usize, prologue: &[NetDim]) -> Result<(), Mem>
    ensures { OnOk result (out.new ≡ out.old ++ flat_map (λ d. at_depth depth (dim_text d)) (map dim_of prologue.now)) }
{
    for dim in prologue {
        write_dim_line(out, depth, dim)?;
    }
    Ok(())
}

fn write_passing(out: &mut Bytes, passing: NetPassing) -> Result<(), Mem>
    ensures { OnOk result (out.new ≡ out.old ++ passing_text passing) }
{
    match passing {
        NetPassing::Value => out.extend_from_slice(b"ByVal "),
        NetPassing::Reference => out.extend_from_slice(b"ByRef "),
    }
}

fn write_param(out: &mut Bytes, param: &NetParam) -> Result<(), Mem>
    ensures { OnOk result (out.new ≡ out.old ++ param_text (param_of param.now)) }
{
    write_passing(out, param.passing)?;
    write_declared(out, &param.name, &param.ty)
}

// Writes parameters between parentheses.
fn write_params(out: &mut Bytes, params: &[NetParam]) -> Result<(), Mem>
    ensures { OnOk result (out.new ≡ out.old ++ params_text (map param_of params.now)) }
{
    out.push(b'(')?;
    for (i, param) in params.iter().enumerate() {
        write_separator(out, i, b", ")?;
        write_param(out, param)?;
    }
    out.push(b')')
}

fn write_visibility(out: &mut Bytes, visibility: NetVisibility) -> Result<(), Mem>
    ensures { OnOk result (out.new ≡ out.old ++ visibility_text visibility) }
{
    match visibility {
        NetVisibility::Public => out.extend_from_slice(b"Public "),
        NetVisibility::Private => out.extend_from_slice(b"Private "),
        NetVisibility::Friend => out.extend_from_slice(b"Friend "),
    }
}

// Writes a name with its parameters behind a word.
fn write_signature(
    out: &mut Bytes,
    word: &[u8],
    name: &Name,
    params: &[NetParam],
) -> Result<(), Mem>
    ensures { OnOk result (out.new ≡ out.old ++ word.now ++ name_text name.now ++ params_text (map param_of params.now)) }
{
    out.extend_from_slice(word)?;
    write_name(out, name)?;
    write_params(out, params)
}

fn write_set_head(out: &mut Bytes, name: &Name, ty: &NetType) -> Result<(), Mem>
    ensures { OnOk result (out.new ≡ out.old ++ codes "Set(ByVal " ++ declared_text name.now (type_name_of ty.now) ++ codes ")") }
{
    out.extend_from_slice(b"Set(ByVal ")?;
    write_declared(out, name, ty)?;
    out.push(b')')
}

fn write_head(out: &mut Bytes, head: &NetHead) -> Result<(), Mem>
    ensures { OnOk result (out.new ≡ out.old ++ head_text (head_of head.now)) }
{
    match head {
        NetHead::Sub(visibility, name, params) => {
            write_visibility(out, *visibility)?;
            write_signature(out, b"Sub ", name, params)
        }
        NetHead::Function(visibility, name, params, ty) => {
            write_visibility(out, *visibility)?;
            write_signature(out, b"Function ", name, params)?;
            write_as(out, ty)
        }
        NetHead::New => out.extend_from_slice(b"Public Sub New()"),
        NetHead::Get => out.extend_from_slice(b"Get"),
        NetHead::Set(name, ty) => write_set_head(out, name, ty),
    }
}

/// Writes the line of a head.
pub fn write_head_line(out: &mut Bytes, depth: usize, head: &NetHead) -> Result<(), Mem>
    ensures { OnOk result (out.new ≡ out.old ++ at_depth depth (head_text (head_of head.now))) }
{
    begin_line(out, depth)?;
    write_head(out, head)?;
    end_line(out)
}

/// Writes the closing line of a procedure.
pub fn write_close(out: &mut Bytes, depth: usize, close: NetClose) -> Result<(), Mem>
    ensures { OnOk result (out.new ≡ out.old ++ at_depth depth (close_text close)) }
{
    match close {
        NetClose::EndSub => write_line(out, depth, b"End Sub"),
        NetClose::EndFunction => write_line(out, depth, b"End Function"),
        NetClose::EndGet => write_line(out, depth, b"End Get"),
        NetClose::EndSet => write_line(out, depth, b"End Set"),
    }
}

// Writes a procedure whose head stands at a nesting depth.
fn write_procedure(out: &mut Bytes, depth: usize, procedure: &NetProc) -> Result<(), Mem>
    requires { depth < 3 }
    ensures { OnOk result (out.new ≡ out.old ++ procedure_text depth (procedure_of procedure.now)) }
{
    write_head_line(out, depth, &procedure.head)?;
    write_prologue(out, depth + 1, &procedure.prologue)?;
    write_lines(out, depth + 1, &procedure.lines)?;
    write_close(out, depth, procedure.close)
}

/// Writes the line of a comment.
pub fn write_comment_line(out: &mut Bytes, depth: usize, units: &[u16]) -> Result<(), Mem>
    ensures { OnOk result (out.new ≡ out.old ++ at_depth depth (comment_text units.now)) }
{
    begin_line(out, depth)?;
    write_comment(out, units)?;
    end_line(out)
}

// Writes comments, each a line.
fn write_comments(out: &mut Bytes, depth: usize, comments: &[Wide]) -> Result<(), Mem>
    ensures { OnOk result (out.new ≡ out.old ++ comments_text depth comments.now) }
{
    for comment in comments {
        write_comment_line(out, depth, comment.as_slice())?;
    }
    Ok(())
}

// Writes a part of a property, where it has it, with the comments right before it.
fn write_part(out: &mut Bytes, comments: &[Wide], part: &Option<Box<NetProc>>) -> Result<(), Mem>
    ensures { OnOk result (out.new ≡ out.old ++ part_text comments.now (option_map (λ p. procedure_of p.value) part.now)) }
{
    match part {
        None => Ok(()),
        Some(part) => {
            write_comments(out, 2, comments)?;
            write_procedure(out, 2, part)
        }
    }
}

// Writes the word of a property that lacks a part.
fn write_access(out: &mut Bytes, get: bool, set: bool) -> Result<(), Mem>
    ensures { OnOk result (out.new ≡ out.old ++ access_text get set) }
{
    if !get {
        return out.extend_from_slice(b"WriteOnly ");
    }
    if !set {
        return out.extend_from_slice(b"ReadOnly ");
    }
    Ok(())
}

/// Writes the head of a property, by whether it has a part that gets and one that sets.
pub fn write_promise(
    out: &mut Bytes,
    visibility: NetVisibility,
    get: bool,
    set: bool,
    name: &Name,
    params: &[NetParam],
    ty: &NetType,
) -> Result<(), Mem>
    ensures { OnOk result (out.new ≡ out.old ++ visibility_text visibility ++ access_text get set ++ codes "Property " ++ name_text name.now
        ++ params_text (map param_of params.now) ++ codes " As " ++ type_text (type_name_of ty.now)) }
{
    write_visibility(out, visibility)?;
    write_access(out, get, set)?;
    write_signature(out, b"Property ", name, params)?;
    write_as(out, ty)
}

fn write_property_head(out: &mut Bytes, property: &NetProperty) -> Result<(), Mem>
    ensures { OnOk result (out.new ≡ out.old ++ property_head_text (property_of property.now)) }
{
    write_promise(
        out,
        property.visibility,
        property.get.is_some(),
        property.set.is_some(),
        &property.name,
        &property.params,
        &property.ty,
    )
}

fn write_property_line(out: &mut Bytes, property: &NetProperty) -> Result<(), Mem>
    ensures { OnOk result (out.new ≡ out.old ++ at_depth 1 (property_head_text (property_of property.now))) }
{
    begin_line(out, 1)?;
    write_property_head(out, property)?;
    end_line(out)
}

fn write_property(out: &mut Bytes, property: &NetProperty) -> Result<(), Mem>
    ensures { OnOk result (out.new ≡ out.old ++ property_text (property_of property.now)) }
{
    write_property_line(out, property)?;
    write_part(out, &property.get_comments, &property.get)?;
    write_part(out, &property.set_comments, &property.set)?;
    write_line(out, 1, b"End Property")
}

fn write_field(out: &mut Bytes, field: &NetField) -> Result<(), Mem>
    ensures { OnOk result (out.new ≡ out.old ++ field_text (field_of field.now)) }
{
    match field {
        NetField::Comment(units) => write_comment(out, units.as_slice()),
        NetField::Field(name, ty) => {
            out.extend_from_slice(b"Public ")?;
            write_declared(out, name, ty)
        }
    }
}

/// Writes the line of what stands in a structure.
pub fn write_field_line(out: &mut Bytes, field: &NetField) -> Result<(), Mem>
    ensures { OnOk result (out.new ≡ out.old ++ at_depth 2 (field_text (field_of field.now))) }
{
    begin_line(out, 2)?;
    write_field(out, field)?;
    end_line(out)
}

fn write_fields(out: &mut Bytes, fields: &[NetField]) -> Result<(), Mem>
    ensures { OnOk result (out.new ≡ out.old ++ flat_map (λ f. at_depth 2 (field_text f)) (map field_of fields.now)) }
{
    for field in fields {
        write_field_line(out, field)?;
    }
    Ok(())
}

/// Writes the first line of a structure.
pub fn write_structure_head(out: &mut Bytes, name: &Name) -> Result<(), Mem>
    ensures { OnOk result (out.new ≡ out.old ++ at_depth 1 (codes "Public Structure " ++ name_text name.now)) }
{
    begin_line(out, 1)?;
    out.extend_from_slice(b"Public Structure ")?;
    write_name(out, name)?;
    end_line(out)
}

fn write_structure(out: &mut Bytes, structure: &NetStructure) -> Result<(), Mem>
    ensures { OnOk result (out.new ≡ out.old ++ structure_text (structure_of structure.now)) }
{
    write_structure_head(out, &structure.name)?;
    write_fields(out, &structure.fields)?;
    write_line(out, 1, b"End Structure")
}

// Writes the line of a variable that is a member.
fn write_variable_line(
    out: &mut Bytes,
    visibility: NetVisibility,
    variable: &NetVariable,
) -> Result<(), Mem>
    ensures { OnOk result (out.new ≡ out.old ++ at_depth 1 (visibility_text visibility ++ variable_text (variable_of variable.now))) }
{
    begin_line(out, 1)?;
    write_visibility(out, visibility)?;
    write_variable(out, variable)?;
    end_line(out)
}

// Writes the line of a constant that is a member.
fn write_constant_line(
    out: &mut Bytes,
    visibility: NetVisibility,
    constant: &NetConstant,
) -> Result<(), Mem>
    ensures { OnOk result (out.new ≡ out.old ++ at_depth 1 (visibility_text visibility ++ constant_text (constant_of constant.now))) }
{
    begin_line(out, 1)?;
    write_visibility(out, visibility)?;
    write_constant(out, constant)?;
    end_line(out)
}

/// Writes a member of a module.
pub fn write_member(out: &mut Bytes, member: &NetMember) -> Result<(), Mem>
    ensures { OnOk result (out.new ≡ out.old ++ member_text (member_of member.now)) }
{
    match member {
        NetMember::Comment(units) => write_comment_line(out, 1, units.as_slice()),
        NetMember::Variable(visibility, variable) => {
            write_variable_line(out, *visibility, variable)
        }
        NetMember::Const(visibility, constant) => write_constant_line(out, *visibility, constant),
        NetMember::Structure(structure) => write_structure(out, structure),
        NetMember::Property(property) => write_property(out, property),
        NetMember::Proc(procedure) => write_procedure(out, 1, procedure),
    }
}

/// Writes the members of a module.
pub fn write_members(out: &mut Bytes, members: &[NetMember]) -> Result<(), Mem>
    ensures { OnOk result (out.new ≡ out.old ++ flat_map member_text (map member_of members.now)) }
{
    for member in members {
        write_member(out, member)?;
    }
    Ok(())
}
