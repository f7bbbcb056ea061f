//! Which declarations, procedures and members can be written.
ghost use Rattle.std.specs.Prelude.{◌≡◌, ◌&&◌, ◌||◌, is_some, map, option_map, IfOk};
ghost use Rattle.std.specs.List.{list_all};
ghost use Rattle.net_tree.specs.Declarations.{closes, has_no_comment, is_get, is_set, is_writable_constant, is_writable_dim, is_writable_field, is_writable_head, is_writable_member, is_writable_param, is_writable_part, is_writable_procedure, is_writable_property, is_writable_structure, is_writable_variable};
ghost use Rattle.net_tree.specs.Comments.{is_comment};
ghost use Rattle.net_tree.specs.Lines.{is_writable_line, is_writable_option};
ghost use Rattle.net_tree.specs.Tree.{proc};
ghost use Rattle.net_tree.specs.Spelling.{is_identifier};
ghost use Rattle.net_tree.specs.Expressions.{is_writable_type};
ghost use Rattle.net_tree.specs.View.{constant_of, dim_of, exp_of, field_of, head_of, line_of, member_of, param_of, procedure_of, property_of, structure_of, type_name_of, variable_of};

use crate::blocks::nests;
use crate::comments::is_comment;
use crate::expressions::{is_writable_type, is_writable_whole};
use crate::lines::is_writable_line;
use crate::spelling::is_identifier;
use net_tree::{
    NetClose, NetConstant, NetDim, NetExpr, NetField, NetHead, NetLine, NetMember, NetParam,
    NetProc, NetProperty, NetStructure, NetType, NetVariable,
};
use std::alloc::Global;
use up_base::{Mem, Name, Wide};

/// Whether a name can be declared as of a type.
pub fn can_be_declared(name: &Name, ty: &NetType) -> bool
    ensures { result ≡ (is_identifier name.now && is_writable_type (type_name_of ty.now)) }
{
    is_identifier(name.as_bytes()) && is_writable_type(ty)
}

fn is_writable_value(value: &Option<Box<NetExpr>>) -> bool
    ensures { result ≡ is_writable_option (option_map (λ e. exp_of e.value) value.now) }
{
    match value {
        None => true,
        Some(e) => is_writable_whole(e),
    }
}

fn is_writable_variable(variable: &NetVariable) -> bool
    ensures { result ≡ is_writable_variable (variable_of variable.now) }
{
    can_be_declared(&variable.name, &variable.ty) && is_writable_value(&variable.value)
}

fn is_writable_constant(constant: &NetConstant) -> bool
    ensures { result ≡ is_writable_constant (constant_of constant.now) }
{
    can_be_declared(&constant.name, &constant.ty) && is_writable_whole(&constant.value)
}

/// Whether a declaration at the head of a procedure can be written.
pub fn is_writable_dim(dim: &NetDim) -> bool
    ensures { result ≡ is_writable_dim (dim_of dim.now) }
{
    match dim {
        NetDim::Local(variable) => is_writable_variable(variable),
        NetDim::Static(variable) => is_writable_variable(variable),
        NetDim::Const(constant) => is_writable_constant(constant),
    }
}

fn are_writable_dims(dims: &[NetDim]) -> bool
    ensures { result ≡ list_all is_writable_dim (map dim_of dims.now) }
{
    for dim in dims {
        if !is_writable_dim(dim) {
            return false;
        }
    }
    true
}

fn is_writable_param(param: &NetParam) -> bool
    ensures { result ≡ is_writable_param (param_of param.now) }
{
    can_be_declared(&param.name, &param.ty)
}

/// Whether parameters can be written.
pub fn are_writable_params(params: &[NetParam]) -> bool
    ensures { result ≡ list_all is_writable_param (map param_of params.now) }
{
    for param in params {
        if !is_writable_param(param) {
            return false;
        }
    }
    true
}

// Whether a procedure or a property can have a name and parameters.
fn can_be_called(name: &Name, params: &[NetParam]) -> bool
    ensures { result ≡ (is_identifier name.now && list_all is_writable_param (map param_of params.now)) }
{
    is_identifier(name.as_bytes()) && are_writable_params(params)
}

/// Whether the head of a procedure can be written.
pub fn is_writable_head(head: &NetHead) -> bool
    ensures { result ≡ is_writable_head (head_of head.now) }
{
    match head {
        NetHead::Sub(_, name, params) => can_be_called(name, params),
        NetHead::Function(_, name, params, ty) => {
            can_be_called(name, params) && is_writable_type(ty)
        }
        NetHead::New => true,
        NetHead::Get => true,
        NetHead::Set(name, ty) => can_be_declared(name, ty),
    }
}

/// Whether a closing line is the one of a head.
pub fn closes(head: &NetHead, close: NetClose) -> bool
    ensures { result ≡ closes (head_of head.now) close }
{
    match head {
        NetHead::Sub(_, _, _) => matches!(close, NetClose::EndSub),
        NetHead::Function(_, _, _, _) => matches!(close, NetClose::EndFunction),
        NetHead::New => matches!(close, NetClose::EndSub),
        NetHead::Get => matches!(close, NetClose::EndGet),
        NetHead::Set(_, _) => matches!(close, NetClose::EndSet),
    }
}

fn are_writable_lines(lines: &[NetLine]) -> bool
    ensures { result ≡ list_all is_writable_line (map line_of lines.now) }
{
    for line in lines {
        if !is_writable_line(line) {
            return false;
        }
    }
    true
}

// Whether each line of a procedure can be written, and the last one closes it.
fn has_writable_lines(procedure: &NetProc) -> bool
    ensures { result ≡ (is_writable_head (procedure_of procedure.now).head && closes (procedure_of procedure.now).head (procedure_of procedure.now).close && list_all is_writable_dim (procedure_of procedure.now).prologue && list_all is_writable_line (procedure_of procedure.now).lines) }
{
    is_writable_head(&procedure.head)
        && closes(&procedure.head, procedure.close)
        && are_writable_dims(&procedure.prologue)
        && are_writable_lines(&procedure.lines)
}

fn is_writable_procedure(alloc: Global, procedure: &NetProc) -> Result<bool, Mem>
    ensures { IfOk result (λ answer. answer ≡ is_writable_procedure (procedure_of procedure.now)) }
{
    if !has_writable_lines(procedure) {
        return Ok(false);
    }
    Ok(nests(alloc, &procedure.lines)?)
}

/// Whether a head is that of a part that gets.
pub fn is_get(head: &NetHead) -> bool
    ensures { result ≡ is_get (head_of head.now) }
{
    matches!(head, NetHead::Get)
}

/// Whether a head is that of a part that sets.
pub fn is_set(head: &NetHead) -> bool
    ensures { result ≡ is_set (head_of head.now) }
{
    matches!(head, NetHead::Set(_, _))
}

#[tactic(auto, using(crate::proofs::Decided::none_stands))]
fn has_no_comment(comments: &[Wide]) -> bool
    ensures { result ≡ has_no_comment comments.now }
{
    comments.is_empty()
}

fn are_comments(comments: &[Wide]) -> bool
    ensures { result ≡ list_all is_comment comments.now }
{
    comments
        .iter()
        .all(|comment| is_comment(comment.as_slice()))
}

fn is_writable_get(
    alloc: Global,
    comments: &[Wide],
    part: &Option<Box<NetProc>>,
) -> Result<bool, Mem>
    ensures { IfOk result (λ answer. answer ≡ is_writable_part is_get comments.now (option_map (λ p. procedure_of p.value) part.now)) }
{
    let Some(procedure) = part else {
        return Ok(has_no_comment(comments));
    };
    if !are_comments(comments) || !is_get(&procedure.head) {
        return Ok(false);
    }
    Ok(is_writable_procedure(alloc, procedure)?)
}

fn is_writable_set(
    alloc: Global,
    comments: &[Wide],
    part: &Option<Box<NetProc>>,
) -> Result<bool, Mem>
    ensures { IfOk result (λ answer. answer ≡ is_writable_part is_set comments.now (option_map (λ p. procedure_of p.value) part.now)) }
{
    let Some(procedure) = part else {
        return Ok(has_no_comment(comments));
    };
    if !are_comments(comments) || !is_set(&procedure.head) {
        return Ok(false);
    }
    Ok(is_writable_procedure(alloc, procedure)?)
}

// Whether a property's first line can be written, and it has a part.
fn has_writable_head(property: &NetProperty) -> bool
    ensures { result ≡ (is_identifier (property_of property.now).name && list_all is_writable_param (property_of property.now).params && is_writable_type (property_of property.now).ty && (is_some (property_of property.now).get || is_some (property_of property.now).set)) }
{
    can_be_called(&property.name, &property.params)
        && is_writable_type(&property.ty)
        && (property.get.is_some() || property.set.is_some())
}

fn is_writable_property(alloc: Global, property: &NetProperty) -> Result<bool, Mem>
    ensures { IfOk result (λ answer. answer ≡ is_writable_property (property_of property.now)) }
{
    if !has_writable_head(property) {
        return Ok(false);
    }
    if !is_writable_get(alloc, &property.get_comments, &property.get)? {
        return Ok(false);
    }
    Ok(is_writable_set(alloc, &property.set_comments, &property.set)?)
}

/// Whether what stands in a structure can be written.
pub fn is_writable_field(field: &NetField) -> bool
    ensures { result ≡ is_writable_field (field_of field.now) }
{
    match field {
        NetField::Comment(units) => is_comment(units.as_slice()),
        NetField::Field(name, ty) => can_be_declared(name, ty),
    }
}

fn are_writable_fields(fields: &[NetField]) -> bool
    ensures { result ≡ list_all is_writable_field (map field_of fields.now) }
{
    for field in fields {
        if !is_writable_field(field) {
            return false;
        }
    }
    true
}

fn is_writable_structure(structure: &NetStructure) -> bool
    ensures { result ≡ is_writable_structure (structure_of structure.now) }
{
    is_identifier(structure.name.as_bytes()) && are_writable_fields(&structure.fields)
}

// Whether a procedure can be written as a member, which is no part of a property.
fn is_procedure_member(alloc: Global, procedure: &NetProc) -> Result<bool, Mem>
    ensures { IfOk result (λ answer. answer ≡ is_writable_member (proc (procedure_of procedure.now))) }
{
    if is_get(&procedure.head) || is_set(&procedure.head) {
        return Ok(false);
    }
    Ok(is_writable_procedure(alloc, procedure)?)
}

/// Whether a member of a module can be written. Memory is taken for the blocks that are open round a line.
pub fn is_writable_member(alloc: Global, member: &NetMember) -> Result<bool, Mem>
    ensures { IfOk result (λ answer. answer ≡ is_writable_member (member_of member.now)) }
{
    match member {
        NetMember::Comment(units) => Ok(is_comment(units.as_slice())),
        NetMember::Variable(_, variable) => Ok(is_writable_variable(variable)),
        NetMember::Const(_, constant) => Ok(is_writable_constant(constant)),
        NetMember::Structure(structure) => Ok(is_writable_structure(structure)),
        NetMember::Property(property) => Ok(is_writable_property(alloc, property)?),
        NetMember::Proc(procedure) => Ok(is_procedure_member(alloc, procedure)?),
    }
}
