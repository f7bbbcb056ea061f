//! What is written in a module for variables and constants, with the comments on their lines.
ghost use Rattle.std.specs.Prelude.{◌≡◌, ◌++◌, Some, map, IfOk, OnOk};
ghost use Rattle.vb_tree.specs.View.{form_of, line_of};
ghost use Rattle.bound_tree.specs.View.{constant_of};
ghost use Rattle.net_tree.specs.Tree as net;
ghost use Rattle.net_tree.specs.View as net_view;
ghost use Rattle.net_tree.specs.View.{member_of};
ghost use Rattle.written_trees.specs.DeclaredMembers as rows;
ghost use Rattle.written_trees.specs.DeclaredMembers.{member_comments, statement_comments};
ghost use Rattle.written_trees.specs.Prologues.{object_variable, written_constant};
ghost use Rattle.written_rows.specs.View.{scope_of};
ghost use Rattle.written_members.specs.Shown.{constant_shown, variable_shown};
ghost use Rattle.written_members.specs.View.{IsSite, scope_at};

use crate::comment_lines::push_member_upgrade;
use crate::constants::{sound_value, written_constant};
use crate::site::Site;
use crate::statements::{ConstRef, VarRef};
use crate::variables::{object_variable, written_variable};
use bound_tree::ConstDecl;
use net_tree::{NetConstant, NetMember, NetVariable, NetVisibility};
use std::alloc::Global;
use up_base::{Mem, Name};
use vb_tree::{CodeLine, Form6, Value6, VarWord, Visibility};
use written_rows::Scope;

fn word_visibility(word: VarWord) -> NetVisibility
    ensures { result ≡ rows.word_visibility word }
{
    match word {
        VarWord::Public => NetVisibility::Public,
        VarWord::Global => NetVisibility::Public,
        VarWord::Private => NetVisibility::Private,
        VarWord::Dim => NetVisibility::Private,
        VarWord::Static => NetVisibility::Private,
    }
}

// A constant without a word is the module's own.
fn constant_visibility(visibility: Option<Visibility>) -> NetVisibility
    ensures { result ≡ rows.constant_visibility visibility }
{
    match visibility {
        None => NetVisibility::Private,
        Some(visibility) => word_of(visibility),
    }
}

fn word_of(visibility: Visibility) -> NetVisibility
    ensures { result ≡ rows.constant_visibility (Some visibility) }
{
    match visibility {
        Visibility::Public => NetVisibility::Public,
        Visibility::Global => NetVisibility::Public,
        Visibility::Friend => NetVisibility::Private,
        Visibility::Private => NetVisibility::Private,
    }
}

fn variable_member(
    alloc: Global,
    visibility: NetVisibility,
    variable: NetVariable,
) -> Result<NetMember, Mem>
    ensures { IfOk result (λ m. member_of m ≡ net.variable visibility (net_view.variable_of variable)) }
{
    Ok(NetMember::Variable(visibility, Box::new(alloc, variable)?))
}

fn constant_member(
    alloc: Global,
    visibility: NetVisibility,
    constant: NetConstant,
) -> Result<NetMember, Mem>
    ensures { IfOk result (λ m. member_of m ≡ net.const_member visibility (net_view.constant_of constant)) }
{
    Ok(NetMember::Const(visibility, Box::new(alloc, constant)?))
}

fn module_variable(
    alloc: Global,
    scope: &Scope,
    visibility: NetVisibility,
    v: &VarRef,
) -> Result<NetMember, Mem>
    ensures { IfOk result (λ m. member_of m ≡ rows.module_variable (scope_of scope.now) visibility (variable_shown v.now)) }
{
    let variable = written_variable(alloc, scope, v)?;
    Ok(variable_member(alloc, visibility, variable)?)
}

fn sound_constant(
    alloc: Global,
    scope: &Scope,
    visibility: NetVisibility,
    decl: &ConstDecl,
    value: &Value6,
) -> Result<NetMember, Mem>
    ensures { IfOk result (λ m. member_of m ≡ net.const_member visibility (written_constant (scope_of scope.now) (constant_of decl.now) value.now)) }
{
    let constant = written_constant(alloc, scope, decl, value)?;
    Ok(constant_member(alloc, visibility, constant)?)
}

fn flagged_constant(alloc: Global, visibility: NetVisibility, name: &Name) -> Result<NetMember, Mem>
    ensures { IfOk result (λ m. member_of m ≡ net.variable visibility (object_variable name.now)) }
{
    let variable = object_variable(alloc, name)?;
    Ok(variable_member(alloc, visibility, variable)?)
}

// A constant that carries an issue is a variable.
fn module_constant(
    alloc: Global,
    scope: &Scope,
    visibility: NetVisibility,
    c: &ConstRef,
) -> Result<NetMember, Mem>
    ensures { IfOk result (λ m. member_of m ≡ rows.module_constant (scope_of scope.now) visibility (constant_shown c.now)) }
{
    match sound_value(scope.facts, c) {
        None => Ok(flagged_constant(alloc, visibility, &c.decl.name)?),
        Some(value) => Ok(sound_constant(alloc, scope, visibility, c.decl, value)?),
    }
}

fn push_variables(
    alloc: Global,
    scope: &Scope,
    visibility: NetVisibility,
    vars: &[VarRef],
    to: &mut Vec<NetMember>,
) -> Result<(), Mem>
    ensures { OnOk result (map member_of to.new.items ≡ map member_of to.old.items ++ map (rows.module_variable (scope_of scope.now) visibility) (map variable_shown vars.now)) }
{
    for v in vars {
        to.push(module_variable(alloc, scope, visibility, v)?)?;
    }
    Ok(())
}

/// Puts constants behind members.
pub(crate) fn push_constants(
    alloc: Global,
    scope: &Scope,
    visibility: NetVisibility,
    consts: &[ConstRef],
    to: &mut Vec<NetMember>,
) -> Result<(), Mem>
    ensures { OnOk result (map member_of to.new.items ≡ map member_of to.old.items ++ map (rows.module_constant (scope_of scope.now) visibility) (map constant_shown consts.now)) }
{
    for c in consts {
        to.push(module_constant(alloc, scope, visibility, c)?)?;
    }
    Ok(())
}

// What a line declares.
fn push_declared(
    alloc: Global,
    site: &Site,
    number: u32,
    form: &Form6,
    to: &mut Vec<NetMember>,
) -> Result<(), Mem>
    requires { IsSite site.now }
    ensures { OnOk result (map member_of to.new.items ≡ map member_of to.old.items ++ rows.declared_members (scope_at site.now) number (form_of form.now)) }
{
    match form {
        Form6::Variables(word, _) => Ok(push_variables(
            alloc,
            &site.scope(),
            word_visibility(*word),
            site.variables(number),
            to,
        )?),
        Form6::Constants(visibility, _) => Ok(push_constants(
            alloc,
            &site.scope(),
            constant_visibility(*visibility),
            site.constants(number),
            to,
        )?),
        _ => Ok(()),
    }
}

/// Puts the comment on a statement that breaks rules behind members.
pub(crate) fn push_statement_comments(
    alloc: Global,
    site: &Site,
    number: u32,
    line: &CodeLine,
    to: &mut Vec<NetMember>,
) -> Result<(), Mem>
    requires { IsSite site.now }
    ensures { OnOk result (map member_of to.new.items ≡ map member_of to.old.items ++ member_comments (statement_comments (scope_at site.now) number (line_of line.now))) }
{
    Ok(push_member_upgrade(alloc, site.rules(number), line.text.as_slice(), to)?)
}

/// Puts what is written for a line of a module, which is the statement `number`, behind members.
pub fn push_line_members(
    alloc: Global,
    site: &Site,
    number: u32,
    line: &CodeLine,
    to: &mut Vec<NetMember>,
) -> Result<(), Mem>
    requires { IsSite site.now }
    ensures { OnOk result (map member_of to.new.items ≡ map member_of to.old.items ++ rows.line_members (scope_at site.now) number (line_of line.now)) }
{
    push_statement_comments(alloc, site, number, line, to)?;
    push_declared(alloc, site, number, &line.form, to)?;
    Ok(())
}
