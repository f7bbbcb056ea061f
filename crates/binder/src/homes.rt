//! The procedures of a project with their lines.
ghost use Rattle.std.specs.Prelude.{◌≡◌, ◌+◌, ◌++◌, ◌∷◌, [], length, map, OnOk, IfOk};
ghost use Rattle.std.specs.List.{flat_map};
ghost use Rattle.vb_tree.specs.FlatLines.{code_lines, flat_lines, member_lines};
ghost use Rattle.vb_tree.specs.Tree.{Module};
ghost use Rattle.vb_tree.specs.View.{line_of, member_of, module_of, nodes_of, project_of};
ghost use Rattle.bound_tree.specs.Source.{code_of};
ghost use Rattle.binder.specs.ImplicitLocals.{homes, homes_in, homes_of, placed, placed_from};
ghost use Rattle.binder.specs.View.{home_of, placed_of};

use std::alloc::Global;
use up_base::Mem;
use vb_tree::{CodeLine, Member6, Module6, Node6, Project6, flat_lines};

/// A procedure.
#[derive(Clone, Copy)]
pub struct Home<'a> {
    /// The file of its module.
    pub file: u32,
    /// The number of its first line among those of its module.
    pub first: u32,
    pub body: &'a [Node6],
}

/// A code line, and its number among the lines of its module.
#[derive(Clone, Copy)]
pub struct Placed<'a> {
    pub line: &'a CodeLine,
    pub statement: u32,
}

/// The sum of two numbers. It wants memory past the last number that there is.
pub fn sum(a: u32, b: usize) -> Result<u32, Mem>
    ensures { IfOk result (λ n. n ≡ a + b) }
{
    match u32::try_from(b) {
        Ok(b) => match a.checked_add(b) {
            Some(n) => Ok(n),
            None => Err(Mem),
        },
        Err(_) => Err(Mem),
    }
}

// The number behind so many lines, their head and their closing line.
fn behind(first: u32, lines: usize) -> Result<u32, Mem>
    ensures { IfOk result (λ n. n ≡ first + (lines + 2)) }
{
    let inside = sum(first, lines)?;
    Ok(sum(inside, 2)?)
}

fn push_home<'a>(
    file: u32,
    statement: u32,
    body: &'a [Node6],
    to: &mut Vec<Home<'a>>,
) -> Result<(), Mem>
    ensures { OnOk result (map home_of to.new.items ≡ map home_of to.old.items ++ record { file = file; first = statement + 1; body = nodes_of body.now } ∷ []) }
{
    let first = sum(statement, 1)?;
    Ok(to.push(Home { file, first, body })?)
}

// Appends a member that is a procedure, whose first line has a number among the lines of its module. It answers the number of the
// line behind it.
#[tactic(auto, using(crate::proofs::Counts::group_length, crate::proofs::Counts::proc_length))]
fn push_member<'a>(
    alloc: Global,
    file: u32,
    statement: u32,
    member: &'a Member6,
    to: &mut Vec<Home<'a>>,
) -> Result<u32, Mem>
    ensures homes { OnOk result (map home_of to.new.items ≡ map home_of to.old.items ++ homes_of file statement (member_of member.now)) }
    ensures next { IfOk result (λ n. n ≡ statement + length (member_lines (member_of member.now))) }
{
    match member {
        Member6::Line(_) => Ok(sum(statement, 1)?),
        Member6::Group(_, lines, _) => Ok(behind(statement, lines.len())?),
        Member6::Proc(_, body, _) => {
            push_home(file, statement, body.as_slice(), to)?;
            let lines = flat_lines(alloc, body.as_slice())?;
            Ok(behind(statement, lines.len())?)
        }
    }
}

fn push_members<'a>(
    alloc: Global,
    file: u32,
    members: &'a [Member6],
    to: &mut Vec<Home<'a>>,
) -> Result<(), Mem>
    ensures { OnOk result (map home_of to.new.items ≡ map home_of to.old.items ++ homes_in file 0 (map member_of members.now)) }
{
    let mut next = 0;
    for member in members {
        next = push_member(alloc, file, next, member, to)?;
    }
    Ok(())
}

fn homes_among(alloc: Global, modules: &[Module6]) -> Result<Vec<Home<'_>>, Mem>
    ensures { IfOk result (λ v. map home_of v.items ≡ flat_map (λ (m : Module). homes_in m.file 0 m.members) (map module_of modules.now)) }
{
    let mut all = Vec::new(alloc);
    for module in modules {
        push_members(alloc, module.file, module.members.as_slice(), &mut all)?;
    }
    Ok(all)
}

/// The procedures of a project in order.
pub fn project_homes(alloc: Global, project: &Project6) -> Result<Vec<Home<'_>>, Mem>
    ensures { IfOk result (λ v. map home_of v.items ≡ homes (project_of project.now)) }
{
    Ok(homes_among(alloc, project.modules.as_slice())?)
}

fn coded_from<'a>(alloc: Global, first: u32, lines: &[&'a CodeLine]) -> Result<Vec<Placed<'a>>, Mem>
    ensures { IfOk result (λ v. map placed_of v.items ≡ placed_from first (map (λ l. line_of l.now) lines.now)) }
{
    let mut code = Vec::new(alloc);
    let mut next = first;
    for line in lines {
        let line = *line;
        if line.form.is_code() {
            code.push(Placed {
                line,
                statement: next,
            })?;
        }
        next = sum(next, 1)?;
    }
    Ok(code)
}

/// The code lines of a procedure with their numbers in the module.
pub fn placed_lines<'a>(alloc: Global, home: &Home<'a>) -> Result<Vec<Placed<'a>>, Mem>
    ensures { IfOk result (λ v. map placed_of v.items ≡ placed (home_of home.now)) }
{
    let lines = flat_lines(alloc, home.body)?;
    Ok(coded_from(alloc, home.first, &lines)?)
}

fn coded<'a>(alloc: Global, lines: &[&'a CodeLine]) -> Result<Vec<&'a CodeLine>, Mem>
    ensures { IfOk result (λ code. map (λ l. line_of l.now) code.items ≡ code_lines (map (λ l. line_of l.now) lines.now)) }
{
    let mut code = Vec::new(alloc);
    for line in lines {
        if line.form.is_code() {
            code.push(*line)?;
        }
    }
    Ok(code)
}

/// The code lines of a body.
pub fn code_of(alloc: Global, body: &[Node6]) -> Result<Vec<&CodeLine>, Mem>
    ensures { IfOk result (λ code. map (λ l. line_of l.now) code.items ≡ code_of (nodes_of body.now)) }
{
    let lines = flat_lines(alloc, body)?;
    Ok(coded(alloc, &lines)?)
}

/// How many code lines a body has.
pub fn count_code(alloc: Global, body: &[Node6]) -> Result<usize, Mem>
    ensures { IfOk result (λ n. n ≡ length (code_of (nodes_of body.now))) }
{
    let code = code_of(alloc, body)?;
    Ok(code.len())
}
