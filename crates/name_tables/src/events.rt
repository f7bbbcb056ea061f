//! The names that lines of Declare, Event and WithEvents have, gathered in one walk.
ghost use Rattle.std.specs.Prelude.{◌≡◌, ◌++◌, ◌&&◌, map, not, option_map, IfOk, OnOk};
ghost use Rattle.std.specs.List.{flat_map};
ghost use Rattle.vb_tree.specs.LogicalLines.{is_word};
ghost use Rattle.vb_tree.specs.View.{declarator_of, form_of, member_of, module_of, project_of};
ghost use Rattle.name_tables.specs.Events.{behind_visibility, event_of_name, events_of, form_events, is_open, is_private, is_visibility, member_events, module_events, name_at, name_in, name_of_line, name_of_procedure, variable_events};
ghost use Rattle.name_tables.specs.EventView.{event_shown};

use std::alloc::Global;
use up_base::{Mem, Name};
use vb_tree::{Declarator6, Form6, Member6, Module6, Project6, Suffix, Token, TokenKind, VarWord};

/// A name of such a line.
#[derive(Clone, Copy)]
pub(crate) struct EventRef<'a> {
    pub name: &'a Name,
    /// The number of its module's file.
    pub file: u32,
    /// Whether other modules see it.
    pub seen: bool,
}

fn is_word(token: &TokenKind, word: &[u8]) -> bool
    ensures { result ≡ is_word word.now token.now }
{
    match token {
        TokenKind::Word(name, Suffix::Absent) => name.lower_bytes() == word,
        _ => false,
    }
}

fn is_visibility(token: &Token) -> bool
    ensures { result ≡ is_visibility token.now }
{
    is_word(&token.kind, b"public")
        || is_word(&token.kind, b"private")
        || is_word(&token.kind, b"global")
}

fn is_private(tokens: &[Token]) -> bool
    ensures { result ≡ is_private tokens.now }
{
    match tokens {
        [] => false,
        [first, ..] => is_word(&first.kind, b"private"),
    }
}

fn behind_visibility(tokens: &[Token]) -> &[Token]
    ensures { result.now ≡ behind_visibility tokens.now }
{
    match tokens {
        [] => tokens,
        [first, rest @ ..] => { if is_visibility(first) { rest } else { tokens } }
    }
}

fn name_in(token: &TokenKind) -> Option<&Name>
    ensures { option_map (λ n. n.now) result ≡ name_in token.now }
{
    match token {
        TokenKind::Word(name, _) => Some(name),
        TokenKind::Bracketed(name, _) => Some(name),
        TokenKind::Lit(_) => None,
        TokenKind::Sign(_) => None,
    }
}

fn name_at(tokens: &[Token]) -> Option<&Name>
    ensures { option_map (λ n. n.now) result ≡ name_at tokens.now }
{
    match tokens {
        [] => None,
        [first, ..] => name_in(&first.kind),
    }
}

// The name behind the word Sub or Function.
fn name_of_procedure(tokens: &[Token]) -> Option<&Name>
    ensures { option_map (λ n. n.now) result ≡ name_of_procedure tokens.now }
{
    match tokens {
        [] => None,
        [first, rest @ ..] => {
            if is_word(&first.kind, b"sub") || is_word(&first.kind, b"function") {
                name_at(rest)
            } else {
                None
            }
        }
    }
}

// The name behind `Declare Sub`, `Declare Function` or `Event`.
fn name_of_line(tokens: &[Token]) -> Option<&Name>
    ensures { option_map (λ n. n.now) result ≡ name_of_line tokens.now }
{
    match tokens {
        [] => None,
        [first, rest @ ..] => {
            if is_word(&first.kind, b"declare") {
                name_of_procedure(rest)
            } else if is_word(&first.kind, b"event") {
                name_at(rest)
            } else {
                None
            }
        }
    }
}

fn is_open(word: VarWord) -> bool
    ensures { result ≡ is_open word }
{
    match word {
        VarWord::Public => true,
        VarWord::Global => true,
        _ => false,
    }
}

fn push_name<'a>(
    file: u32,
    seen: bool,
    name: Option<&'a Name>,
    to: &mut Vec<EventRef<'a>>,
) -> Result<(), Mem>
    ensures { OnOk result (map event_shown to.new.items ≡ map event_shown to.old.items ++ event_of_name file seen (option_map (λ n. n.now) name.entry)) }
{
    match name {
        Some(name) => Ok(to.push(EventRef { name, file, seen })?),
        None => Ok(()),
    }
}

fn push_variables<'a>(
    file: u32,
    seen: bool,
    declarators: &'a [Declarator6],
    to: &mut Vec<EventRef<'a>>,
) -> Result<(), Mem>
    ensures { OnOk result (map event_shown to.new.items ≡ map event_shown to.old.items ++ variable_events file seen (map declarator_of declarators.now)) }
{
    for declarator in declarators {
        to.push(EventRef {
            name: &declarator.name,
            file,
            seen,
        })?;
    }
    Ok(())
}

// Those of a line that is kept as its tokens.
fn push_tokens<'a>(
    file: u32,
    standard: bool,
    tokens: &'a [Token],
    to: &mut Vec<EventRef<'a>>,
) -> Result<(), Mem>
    ensures { OnOk result (map event_shown to.new.items ≡ map event_shown to.old.items ++ event_of_name file (standard && not (is_private tokens.now)) (name_of_line (behind_visibility tokens.now))) }
{
    let name = name_of_line(behind_visibility(tokens));
    Ok(push_name(file, standard && !is_private(tokens), name, to)?)
}

fn push_form<'a>(
    file: u32,
    standard: bool,
    form: &'a Form6,
    to: &mut Vec<EventRef<'a>>,
) -> Result<(), Mem>
    ensures { OnOk result (map event_shown to.new.items ≡ map event_shown to.old.items ++ form_events file standard (form_of form.now)) }
{
    match form {
        Form6::Opaque(tokens) => Ok(push_tokens(file, standard, tokens.as_slice(), to)?),
        Form6::EventVariables(word, declarators) => Ok(push_variables(
            file,
            standard && is_open(*word),
            declarators.as_slice(),
            to,
        )?),
        _ => Ok(()),
    }
}

fn push_member<'a>(
    file: u32,
    standard: bool,
    member: &'a Member6,
    to: &mut Vec<EventRef<'a>>,
) -> Result<(), Mem>
    ensures { OnOk result (map event_shown to.new.items ≡ map event_shown to.old.items ++ member_events file standard (member_of member.now)) }
{
    match member {
        Member6::Line(line) => Ok(push_form(file, standard, &line.form, to)?),
        Member6::Group(_, _, _) => Ok(()),
        Member6::Proc(_, _, _) => Ok(()),
    }
}

fn push_module<'a>(module: &'a Module6, to: &mut Vec<EventRef<'a>>) -> Result<(), Mem>
    ensures { OnOk result (map event_shown to.new.items ≡ map event_shown to.old.items ++ module_events (module_of «module».now)) }
{
    for member in module.members.as_slice() {
        push_member(module.file, !module.class, member, to)?;
    }
    Ok(())
}

/// The names of such lines at the level of modules, in project order.
pub(crate) fn events_of(alloc: Global, project: &Project6) -> Result<Vec<EventRef<'_>>, Mem>
    ensures { IfOk result (λ v. map event_shown v.items ≡ events_of (project_of project.now)) }
{
    let mut all = Vec::new(alloc);
    for module in project.modules.as_slice() {
        push_module(module, &mut all)?;
    }
    Ok(all)
}
