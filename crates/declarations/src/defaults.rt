//! Default members: those with VB_UserMemId 0.
ghost use Rattle.std.specs.Prelude.{◌≡◌, filter, map, nat_eq, option_map, IfOk, OnOk, ◌++◌};
ghost use Rattle.std.specs.Cmp.Lexicographic.{pointwise};
ghost use Rattle.up_base.specs.Names.{lower_case};
ghost use Rattle.vb_tree.specs.FlatLines.{flat_lines as flat_lines_of};
ghost use Rattle.vb_tree.specs.Tree.{Module};
ghost use Rattle.vb_tree.specs.View.{form_of, line_of, member_of, module_of, nodes_of, project_of};
ghost use Rattle.bound_tree.specs.View.{procedure_of};
ghost use Rattle.declarations.specs.Defaults as defaults;
ghost use Rattle.declarations.specs.Defaults.{default_in, default_name, defaults_of, found_by, is_dot, is_equal, is_member_id, is_zero, member_default, members_default, named_in, procedure_named, word_of};

use bound_tree::ProcDecl;
use std::alloc::Global;
use up_base::{Mem, Name};
use vb_tree::{
    CodeLine, Form6, Literal6, Member6, Module6, Node6, ProcId, Project6, Sign, Token, TokenKind,
    flat_lines,
};

fn is_dot(token: &TokenKind) -> bool
    ensures { result ≡ is_dot token.now }
{
    match token {
        TokenKind::Sign(Sign::Dot) => true,
        _ => false,
    }
}

fn is_equal(token: &TokenKind) -> bool
    ensures { result ≡ is_equal token.now }
{
    match token {
        TokenKind::Sign(Sign::Equal) => true,
        _ => false,
    }
}

fn is_member_id(token: &TokenKind) -> bool
    ensures { result ≡ is_member_id token.now }
{
    match token {
        TokenKind::Word(name, _) => name.lower_bytes() == b"vb_usermemid".as_slice(),
        _ => false,
    }
}

fn is_zero(token: &TokenKind) -> bool
    ensures { result ≡ is_zero token.now }
{
    match token {
        TokenKind::Lit(Literal6::Int(z, _)) => *z == 0,
        _ => false,
    }
}

fn word_of(token: &TokenKind) -> Option<&Name>
    ensures { option_map (λ n. n.now) result ≡ word_of token.now }
{
    match token {
        TokenKind::Word(name, _) => Some(name),
        TokenKind::Bracketed(name, _) => Some(name),
        _ => None,
    }
}

// The name in `NAME.VB_UserMemId = 0`.
fn default_name(tokens: &[Token]) -> Option<&Name>
    ensures { option_map (λ n. n.now) result ≡ default_name tokens.now }
{
    match tokens {
        [name, dot, id, equal, zero] => {
            if is_dot(&dot.kind)
                && is_member_id(&id.kind)
                && is_equal(&equal.kind)
                && is_zero(&zero.kind)
            {
                word_of(&name.kind)
            } else {
                None
            }
        }
        _ => None,
    }
}

fn named_in(form: &Form6) -> Option<&Name>
    ensures { option_map (λ n. n.now) result ≡ named_in (form_of form.now) }
{
    match form {
        Form6::Attribute(tokens) => default_name(tokens.as_slice()),
        _ => None,
    }
}

fn is_procedure(p: &ProcDecl, file: u32, name: &Name) -> bool
    ensures { result ≡ defaults.is_procedure file name.now (procedure_of p.now) }
{
    p.module == file && p.name == *name
}

// The first part of the first procedure of a name in the module of a file.
fn procedure_named(file: u32, name: &Name, procs: &[ProcDecl]) -> Option<ProcId>
    ensures { result ≡ procedure_named file name.now (map procedure_of procs.now) }
{
    for p in procs {
        if is_procedure(p, file, name) {
            return Some(p.first);
        }
    }
    None
}

fn found_by(file: u32, procs: &[ProcDecl], form: &Form6) -> Option<ProcId>
    ensures { result ≡ found_by file (map procedure_of procs.now) (named_in (form_of form.now)) }
{
    match named_in(form) {
        Some(name) => procedure_named(file, name, procs),
        None => None,
    }
}

// The first of the lines that names a procedure.
fn default_in(file: u32, procs: &[ProcDecl], lines: &[&CodeLine]) -> Option<ProcId>
    ensures { result ≡ default_in file (map procedure_of procs.now) (map (λ l. line_of l.now) lines.now) }
{
    for line in lines {
        if let Some(p) = found_by(file, procs, &line.form) {
            return Some(p);
        }
    }
    None
}

fn body_default(
    alloc: Global,
    file: u32,
    procs: &[ProcDecl],
    body: &[Node6],
) -> Result<Option<ProcId>, Mem>
    ensures { IfOk result (λ d. d ≡ default_in file (map procedure_of procs.now) (flat_lines_of (nodes_of body.now))) }
{
    let lines = flat_lines(alloc, body)?;
    Ok(default_in(file, procs, &lines))
}

fn member_default(
    alloc: Global,
    file: u32,
    procs: &[ProcDecl],
    member: &Member6,
) -> Result<Option<ProcId>, Mem>
    ensures { IfOk result (λ d. d ≡ member_default file (map procedure_of procs.now) (member_of member.now)) }
{
    match member {
        Member6::Line(line) => Ok(found_by(file, procs, &line.form)),
        Member6::Group(_, _, _) => Ok(None),
        Member6::Proc(_, body, _) => Ok(body_default(alloc, file, procs, body.as_slice())?),
    }
}

fn members_default(
    alloc: Global,
    file: u32,
    procs: &[ProcDecl],
    members: &[Member6],
) -> Result<Option<ProcId>, Mem>
    ensures { IfOk result (λ d. d ≡ members_default file (map procedure_of procs.now) (map member_of members.now)) }
{
    for member in members {
        if let Some(p) = member_default(alloc, file, procs, member)? {
            return Ok(Some(p));
        }
    }
    Ok(None)
}

// Puts the default member of a module where it is a class.
fn put_default(
    alloc: Global,
    procs: &[ProcDecl],
    module: &Module6,
    to: &mut Vec<Option<ProcId>>,
) -> Result<(), Mem>
    ensures { OnOk result (to.new.items ≡ to.old.items ++ defaults.defaults_in (map procedure_of procs.now) (module_of «module».now)) }
{
    if module.class {
        let default = members_default(alloc, module.file, procs, module.members.as_slice())?;
        to.push(default)?;
    }
    Ok(())
}

fn defaults_in(
    alloc: Global,
    procs: &[ProcDecl],
    modules: &[Module6],
) -> Result<Vec<Option<ProcId>>, Mem>
    ensures { IfOk result (λ v. v.items ≡ defaults.defaults_along (map procedure_of procs.now) (map module_of modules.now)) }
{
    let mut all = Vec::new(alloc);
    for module in modules {
        put_default(alloc, procs, module, &mut all)?;
    }
    Ok(all)
}

/// The default member of each class.
pub(crate) fn defaults_of(
    alloc: Global,
    project: &Project6,
    procs: &[ProcDecl],
) -> Result<Vec<Option<ProcId>>, Mem>
    ensures { IfOk result (λ v. v.items ≡ defaults_of (project_of project.now) (map procedure_of procs.now)) }
{
    Ok(defaults_in(alloc, procs, project.modules.as_slice())?)
}
