//! The rules that statements break by their form alone.
ghost use Rattle.std.specs.Prelude.{◌≡◌, ◌++◌, IfOk, OnOk, map};
ghost use Rattle.std.specs.List.{range_with_len};
ghost use Rattle.vb_tree.specs.FlatLines as flat;
ghost use Rattle.vb_tree.specs.View.{line_of, member_of, module_of, nodes_of};
ghost use Rattle.declared_names.specs.Rules as rules;
ghost use Rattle.written_facts.specs.Statements.{file_sets, files_end, member_sets, module_sets, no_set, plain_set, sets_by_file};

use bound_tree::RuleSet;
use declared_names::line_rules;
use std::alloc::Global;
use up_base::{Mem, Name, Sequence};
use vb_tree::{CodeLine, Member6, Module6, Node6, flat_lines};

fn line_set(name: &Name, line: &CodeLine) -> RuleSet
    ensures { result ≡ rules.line_rules name.now (line_of line.now).form }
{
    line_rules(name, &line.form)
}

fn plain_set(name: &Name, line: &CodeLine) -> RuleSet
    ensures { result ≡ plain_set name.now (line_of line.now) }
{
    if line.form.is_code() {
        return RuleSet::new();
    }
    line_set(name, line)
}

fn push_plain_sets(name: &Name, lines: &[&CodeLine], to: &mut Vec<RuleSet>) -> Result<(), Mem>
    ensures { OnOk result (to.new.items ≡ to.old.items ++ map (plain_set name.now) (map (λ l. line_of l.now) lines.now)) }
{
    for line in lines {
        to.push(plain_set(name, line))?;
    }
    Ok(())
}

fn push_body(alloc: Global, name: &Name, body: &[Node6], to: &mut Vec<RuleSet>) -> Result<(), Mem>
    ensures { OnOk result (to.new.items ≡ to.old.items ++ map (plain_set name.now) (flat.flat_lines (nodes_of body.now))) }
{
    let lines = flat_lines(alloc, body)?;
    Ok(push_plain_sets(name, &lines, to)?)
}

fn push_no_sets(lines: &[CodeLine], to: &mut Vec<RuleSet>) -> Result<(), Mem>
    ensures { OnOk result (to.new.items ≡ to.old.items ++ map no_set (map line_of lines.now)) }
{
    for _line in lines {
        to.push(RuleSet::new())?;
    }
    Ok(())
}

fn push_member(
    alloc: Global,
    name: &Name,
    member: &Member6,
    to: &mut Vec<RuleSet>,
) -> Result<(), Mem>
    ensures { OnOk result (to.new.items ≡ to.old.items ++ member_sets name.now (member_of member.now)) }
{
    match member {
        Member6::Line(line) => Ok(to.push(line_set(name, line))?),
        Member6::Group(_, lines, _) => {
            to.push(RuleSet::new())?;
            push_no_sets(lines.as_slice(), to)?;
            Ok(to.push(RuleSet::new())?)
        }
        Member6::Proc(_, body, _) => {
            to.push(RuleSet::new())?;
            push_body(alloc, name, body.as_slice(), to)?;
            Ok(to.push(RuleSet::new())?)
        }
    }
}

fn module_sets(alloc: Global, module: &Module6) -> Result<Vec<RuleSet>, Mem>
    ensures { IfOk result (λ v. v.items ≡ module_sets (module_of «module».now)) }
{
    let mut sets = Vec::new(alloc);
    for member in module.members.as_slice() {
        push_member(alloc, &module.name, member, &mut sets)?;
    }
    Ok(sets)
}

// Those of the first module with a file number.
fn file_sets(alloc: Global, modules: &[Module6], file: usize) -> Result<Vec<RuleSet>, Mem>
    ensures { IfOk result (λ v. v.items ≡ file_sets file (map module_of modules.now)) }
{
    for module in modules {
        if module.file as usize == file {
            return Ok(module_sets(alloc, module)?);
        }
    }
    Ok(Vec::new(alloc))
}

// The file number behind those of all modules.
fn files_end(modules: &[Module6]) -> usize
    ensures { result ≡ files_end (map module_of modules.now) }
{
    let mut end = 0;
    for i in (0..modules.len()).rev() {
        end = (modules[i].file as usize + 1).max(end);
    }
    end
}

fn sets_below(
    alloc: Global,
    modules: &[Module6],
    count: usize,
) -> Result<Vec<Sequence<RuleSet>>, Mem>
    ensures { IfOk result (λ v. v.items ≡ map (λ file. file_sets file (map module_of modules.now)) (range_with_len 0 count)) }
{
    let mut all = Vec::new(alloc);
    for file in 0..count {
        all.push(Sequence::from_vec(file_sets(alloc, modules, file)?))?;
    }
    Ok(all)
}

/// For each file number the sets of the statements of its module.
pub(crate) fn statement_sets(
    alloc: Global,
    modules: &[Module6],
) -> Result<Sequence<Sequence<RuleSet>>, Mem>
    ensures { IfOk result (λ s. s ≡ sets_by_file (map module_of modules.now)) }
{
    Ok(Sequence::from_vec(sets_below(alloc, modules, files_end(modules))?))
}
