//! The declarations of a project, gathered in one walk.
ghost use Rattle.std.specs.Prelude.{◌≡◌, ◌+◌, length, map, option_map, OnOk, IfOk};
ghost use Rattle.vb_tree.specs.FlatLines.{member_lines};
ghost use Rattle.vb_tree.specs.View.{line_of, member_of, module_of, project_of, form_of};
ghost use Rattle.declared_names.specs.Declaring.{head_declares, lists_of, member_declares, module_declares, no_lists, project_declares, with_declared};
ghost use Rattle.declared_names.specs.View.{head_shown, names_of};

use crate::groups::put_group;
use crate::heads::head_of;
use crate::procedures::put_procedure;
use crate::variables::{number, put_line, sum};
use crate::{DeclaredNames, HeadRef};
use std::alloc::Global;
use up_base::{Mem, Place, Sequence};
use vb_tree::{CodeLine, Member6, Module6, Project6, flat_lines};

/// All that a project declares.
pub fn declared_names(alloc: Global, project: &Project6) -> Result<DeclaredNames<'_>, Mem>
    ensures { IfOk result (λ d. names_of d ≡ lists_of (project_of project.now)) }
{
    let mut all = nothing_declared(alloc);
    put_modules(alloc, project.modules.as_slice(), &mut all)?;
    Ok(all)
}

fn nothing_declared<'a>(alloc: Global) -> DeclaredNames<'a>
    ensures { names_of result ≡ no_lists }
{
    DeclaredNames {
        names: Sequence::new(alloc),
        vars: Sequence::new(alloc),
        consts: Sequence::new(alloc),
        procs: Sequence::new(alloc),
        types: Sequence::new(alloc),
        enums: Sequence::new(alloc),
    }
}

#[tactic(auto, using(crate::proofs::Following::behind_follow, crate::proofs::Following::behind_nothing))]
fn put_modules<'a>(
    alloc: Global,
    modules: &'a [Module6],
    to: &mut DeclaredNames<'a>,
) -> Result<(), Mem>
    ensures { OnOk result (names_of to.new ≡ with_declared (project_declares (map module_of modules.now)) (names_of to.old)) }
{
    for module in modules {
        put_members(alloc, module.file, module.members.as_slice(), to)?;
    }
    Ok(())
}

// Puts what the members of the module of a file declare.
#[tactic(auto, using(crate::proofs::Following::behind_follow, crate::proofs::Following::behind_nothing))]
fn put_members<'a>(
    alloc: Global,
    file: u32,
    members: &'a [Member6],
    to: &mut DeclaredNames<'a>,
) -> Result<(), Mem>
    ensures { OnOk result (names_of to.new ≡ with_declared (module_declares file 0 (map member_of members.now)) (names_of to.old)) }
{
    let mut next = 0;
    for member in members {
        next = put_member(alloc, file, next, member, to)?;
    }
    Ok(())
}

// Puts what a member of the module of a file declares, whose first line has a number among the statements of the module.
// It answers the number of the statement behind its lines.
#[tactic(auto, using(crate::proofs::Counts::group_length, crate::proofs::Counts::proc_length))]
fn put_member<'a>(
    alloc: Global,
    file: u32,
    statement: u32,
    member: &'a Member6,
    to: &mut DeclaredNames<'a>,
) -> Result<u32, Mem>
    ensures lists { OnOk result (names_of to.new ≡ with_declared (member_declares file statement (member_of member.now)) (names_of to.old)) }
    ensures next { IfOk result (λ n. n ≡ statement + length (member_lines (member_of member.now))) }
{
    match member {
        Member6::Line(line) => {
            put_line(alloc, file, statement, line.place, &line.form, to)?;
            Ok(sum(statement, 1)?)
        }
        Member6::Group(head, lines, _) => {
            let lines = lines.as_slice();
            put_group(alloc, file, head.place, statement, &head.form, lines, to)?;
            Ok(behind(statement, lines.len())?)
        }
        Member6::Proc(head, body, _) => {
            let lines = flat_lines(alloc, body.as_slice())?;
            put_proc(
                alloc,
                file,
                head.place,
                statement,
                head_of(&head.form),
                &lines,
                to,
            )?;
            Ok(behind(statement, lines.len())?)
        }
    }
}

// The number behind so many lines, their head and their closing line.
fn behind(statement: u32, lines: usize) -> Result<u32, Mem>
    ensures { IfOk result (λ n. n ≡ statement + (lines + 2)) }
{
    let inside = sum(statement, number(lines)?)?;
    Ok(sum(inside, 2)?)
}

// Puts a procedure where its head is one.
#[tactic(auto, using(crate::proofs::Following::behind_nothing))]
fn put_proc<'a>(
    alloc: Global,
    file: u32,
    place: Place,
    statement: u32,
    head: Option<HeadRef<'a>>,
    body: &[&'a CodeLine],
    to: &mut DeclaredNames<'a>,
) -> Result<(), Mem>
    ensures { OnOk result (names_of to.new ≡ with_declared (head_declares file place statement (option_map head_shown head.entry) (map (λ l. line_of l.now) body.now)) (names_of to.old)) }
{
    match head {
        Some(head) => Ok(put_procedure(alloc, file, place, statement, head, body, to)?),
        None => Ok(()),
    }
}
