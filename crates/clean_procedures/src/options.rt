//! Option and Def lines that break a rule, by module. A look-up goes over the modules of the project, of which there are few.
ghost use Rattle.std.specs.Prelude.{◌≡◌, ◌++◌, ◌∷◌, [], IfOk, OnOk, map, slice_get};
ghost use Rattle.std.specs.List.{flat_map, list_any};
ghost use Rattle.vb_tree.specs.FlatLines.{flat_lines, member_lines, module_lines};
ghost use Rattle.vb_tree.specs.View.{form_of, line_of, member_of, module_of, nodes_of};
ghost use Rattle.bound_tree.specs.RuleSets.{is_broken};
ghost use Rattle.bound_facts.specs.Clean.{is_floating_word, option_rules};
ghost use Rattle.clean_procedures.specs.Options.{compare_rules, def_rules, has_broken, is_broken_at, is_broken_line, is_set, noted, shown};

use bound_tree::RuleSet;
use std::alloc::Global;
use up_base::Mem;
use vb_tree::{CodeLine, Compare, DefWord, Form6, Member6, Module6, Node6, flat_lines};

/// The file of a module, and for each of its lines whether it is an Option or a Def line that breaks a rule.
#[derive(Drop)]
pub(crate) struct ModuleLines {
    pub file: u32,
    pub broken: Vec<bool>,
}

/// Whether a set has a rule.
pub(crate) fn is_broken(set: RuleSet) -> bool
    ensures { result ≡ is_broken set }
{
    set.least().is_some()
}

fn is_floating_word(word: DefWord) -> bool
    ensures { result ≡ is_floating_word word }
{
    match word {
        DefWord::Single => true,
        DefWord::Double => true,
        DefWord::Date => true,
        _ => false,
    }
}

fn compare_rules(way: Compare) -> RuleSet
    ensures { result ≡ compare_rules way }
{
    match way {
        Compare::Text => RuleSet::new().with(17),
        Compare::Binary => RuleSet::new(),
    }
}

fn def_rules(word: DefWord) -> RuleSet
    ensures { result ≡ def_rules word }
{
    if is_floating_word(word) {
        RuleSet::new().with(1)
    } else {
        RuleSet::new()
    }
}

fn option_rules(form: &Form6) -> RuleSet
    ensures { result ≡ option_rules (form_of form.now) }
{
    match form {
        Form6::OptionCompare(way) => compare_rules(*way),
        Form6::DefType(word, _) => def_rules(*word),
        _ => RuleSet::new(),
    }
}

fn push_line(line: &CodeLine, to: &mut Vec<bool>) -> Result<(), Mem>
    ensures { OnOk result (to.new.items ≡ to.old.items ++ is_broken_line (line_of line.now) ∷ []) }
{
    Ok(to.push(is_broken(option_rules(&line.form)))?)
}

fn push_all(lines: &[&CodeLine], to: &mut Vec<bool>) -> Result<(), Mem>
    ensures { OnOk result (to.new.items ≡ to.old.items ++ map is_broken_line (map (λ l. line_of l.now) lines.now)) }
{
    for line in lines {
        push_line(line, to)?;
    }
    Ok(())
}

fn push_body(alloc: Global, body: &[Node6], to: &mut Vec<bool>) -> Result<(), Mem>
    ensures { OnOk result (to.new.items ≡ to.old.items ++ map is_broken_line (flat_lines (nodes_of body.now))) }
{
    let lines = flat_lines(alloc, body)?;
    Ok(push_all(&lines, to)?)
}

fn push_group(group: &[CodeLine], to: &mut Vec<bool>) -> Result<(), Mem>
    ensures { OnOk result (to.new.items ≡ to.old.items ++ map is_broken_line (map line_of group.now)) }
{
    for line in group {
        push_line(line, to)?;
    }
    Ok(())
}

fn push_member(alloc: Global, member: &Member6, to: &mut Vec<bool>) -> Result<(), Mem>
    ensures { OnOk result (to.new.items ≡ to.old.items ++ map is_broken_line (member_lines (member_of member.now))) }
{
    match member {
        Member6::Line(line) => Ok(push_line(line, to)?),
        Member6::Group(head, group, close) => {
            push_line(head, to)?;
            push_group(group.as_slice(), to)?;
            Ok(push_line(close, to)?)
        }
        Member6::Proc(head, body, close) => {
            push_line(head, to)?;
            push_body(alloc, body.as_slice(), to)?;
            Ok(push_line(close, to)?)
        }
    }
}

fn broken_lines(alloc: Global, members: &[Member6]) -> Result<Vec<bool>, Mem>
    ensures { IfOk result (λ v. v.items ≡ map is_broken_line (flat_map member_lines (map member_of members.now))) }
{
    let mut flags = Vec::new(alloc);
    for member in members {
        push_member(alloc, member, &mut flags)?;
    }
    Ok(flags)
}

fn noted(alloc: Global, module: &Module6) -> Result<ModuleLines, Mem>
    ensures { IfOk result (λ m. shown m ≡ noted (module_of «module».now)) }
{
    let broken = broken_lines(alloc, module.members.as_slice())?;
    Ok(ModuleLines {
        file: module.file,
        broken,
    })
}

/// The lines of all modules.
pub(crate) fn noted_modules(alloc: Global, modules: &[Module6]) -> Result<Vec<ModuleLines>, Mem>
    ensures { IfOk result (λ v. map shown v.items ≡ map noted (map module_of modules.now)) }
{
    let mut all = Vec::new(alloc);
    for module in modules {
        all.push(noted(alloc, module)?)?;
    }
    Ok(all)
}

fn some_is(flags: &[bool]) -> bool
    ensures { result ≡ list_any (λ b. b) flags.now }
{
    for flag in flags {
        if *flag {
            return true;
        }
    }
    false
}

fn is_set(flags: &[bool], n: u32) -> bool
    ensures { result ≡ is_set (slice_get flags.now n) }
{
    match flags.get(n as usize) {
        Some(flag) => *flag,
        None => false,
    }
}

/// Whether the module with a file has such a line.
pub(crate) fn has_broken(modules: &[ModuleLines], file: u32) -> bool
    ensures { result ≡ has_broken file (map shown modules.now) }
{
    for module in modules {
        if module.file == file {
            return some_is(&module.broken);
        }
    }
    false
}

/// Whether the line with a number of the module with a file is one.
pub(crate) fn is_broken_at(modules: &[ModuleLines], file: u32, statement: u32) -> bool
    ensures { result ≡ is_broken_at file statement (map shown modules.now) }
{
    for module in modules {
        if module.file == file {
            return is_set(&module.broken, statement);
        }
    }
    false
}
