//! Issues of lines that declare nothing.
ghost use Rattle.std.specs.Prelude.{◌≡◌, ◌++◌, ◌∷◌, List, map, IfOk, OnOk};
ghost use Rattle.vb_tree.specs.FlatLines as flat;
ghost use Rattle.vb_tree.specs.Tree.{Line};
ghost use Rattle.vb_tree.specs.View.{line_of, member_of, module_of, nodes_of, project_of};
ghost use Rattle.broken_rules.specs.Further.{dropped_issue, further_issues, line_issues, member_issues, members_issues, modules_issues, plain_issues, plain_lines_issues, startup_issues};

use bound_tree::RuleSet;
use declared_names::{line_rules, startup_rules};
use issue_sets::push_set;
use std::alloc::Global;
use up_base::{Issue, Mem, Name, Place, Wide};
use vb_tree::{CodeLine, Member6, Module6, Node6, Project6, flat_lines};

// The rule that a line of the project file breaks that isn't carried over.
const NOT_CARRIED: u8 = 23;

fn push_dropped(lines: &[u32], to: &mut Vec<Issue>) -> Result<(), Mem>
    ensures { OnOk result (to.new.items ≡ to.old.items ++ map dropped_issue lines.now) }
{
    for line in lines {
        to.push(Issue {
            place: Place {
                file: 0,
                line: *line,
            },
            rule: NOT_CARRIED,
        })?;
    }
    Ok(())
}

fn push_startup(
    startup: &Option<(u32, Wide)>,
    rules: RuleSet,
    to: &mut Vec<Issue>,
) -> Result<(), Mem>
    ensures { OnOk result (to.new.items ≡ to.old.items ++ startup_issues startup.now rules) }
{
    match startup {
        None => Ok(()),
        Some(startup) => Ok(push_set(
            Place {
                file: 0,
                line: startup.0,
            },
            rules,
            to,
        )?),
    }
}

fn push_line(name: &Name, line: &CodeLine, to: &mut Vec<Issue>) -> Result<(), Mem>
    ensures { OnOk result (to.new.items ≡ to.old.items ++ line_issues name.now (line_of line.now)) }
{
    Ok(push_set(line.place, line_rules(name, &line.form), to)?)
}

// The issues of a line in a procedure, where it is no code line.
fn push_plain(name: &Name, line: &CodeLine, to: &mut Vec<Issue>) -> Result<(), Mem>
    ensures own { OnOk result (to.new.items ≡ to.old.items ++ plain_issues name.now (line_of line.now)) }
    ensures step { OnOk result ((rest : List Line) → to.new.items ++ plain_lines_issues name.now rest ≡ to.old.items ++ plain_lines_issues name.now (line_of line.now ∷ rest)) }
{
    if line.form.is_code() {
        return Ok(());
    }
    Ok(push_line(name, line, to)?)
}

fn push_plain_lines(name: &Name, lines: &[&CodeLine], to: &mut Vec<Issue>) -> Result<(), Mem>
    ensures { OnOk result (to.new.items ≡ to.old.items ++ plain_lines_issues name.now (map (λ l. line_of l.now) lines.now)) }
{
    for line in lines {
        push_plain(name, line, to)?;
    }
    Ok(())
}

fn push_body(alloc: Global, name: &Name, body: &[Node6], to: &mut Vec<Issue>) -> Result<(), Mem>
    ensures { OnOk result (to.new.items ≡ to.old.items ++ plain_lines_issues name.now (flat.flat_lines (nodes_of body.now))) }
{
    let lines = flat_lines(alloc, body)?;
    Ok(push_plain_lines(name, &lines, to)?)
}

fn push_member(alloc: Global, name: &Name, member: &Member6, to: &mut Vec<Issue>) -> Result<(), Mem>
    ensures { OnOk result (to.new.items ≡ to.old.items ++ member_issues name.now (member_of member.now)) }
{
    match member {
        Member6::Line(line) => Ok(push_line(name, line, to)?),
        Member6::Group(_, _, _) => Ok(()),
        Member6::Proc(_, body, _) => Ok(push_body(alloc, name, body.as_slice(), to)?),
    }
}

fn push_members(
    alloc: Global,
    name: &Name,
    members: &[Member6],
    to: &mut Vec<Issue>,
) -> Result<(), Mem>
    ensures { OnOk result (to.new.items ≡ to.old.items ++ members_issues name.now (map member_of members.now)) }
{
    for member in members {
        push_member(alloc, name, member, to)?;
    }
    Ok(())
}

fn push_modules(alloc: Global, modules: &[Module6], to: &mut Vec<Issue>) -> Result<(), Mem>
    ensures { OnOk result (to.new.items ≡ to.old.items ++ modules_issues (map module_of modules.now)) }
{
    for module in modules {
        push_members(alloc, &module.name, module.members.as_slice(), to)?;
    }
    Ok(())
}

/// The issues of the lines of the project file, and of the lines of modules that declare nothing and are no code lines.
pub fn further_issues(alloc: Global, project: &Project6) -> Result<Vec<Issue>, Mem>
    ensures { IfOk result (λ v. v.items ≡ further_issues (project_of project.now)) }
{
    let mut issues = Vec::new(alloc);
    push_dropped(project.file.dropped.as_slice(), &mut issues)?;
    push_startup(&project.file.startup, startup_rules(project), &mut issues)?;
    push_modules(alloc, project.modules.as_slice(), &mut issues)?;
    Ok(issues)
}
