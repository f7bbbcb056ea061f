//! The statements of modules: module variables that are declared with the word Static.
ghost use Rattle.std.specs.Prelude.{◌≡◌, ◌++◌, IfOk, OnOk, map, option_map, slice_get};
ghost use Rattle.std.specs.List.{flat_map};
ghost use Rattle.vb_tree.specs.FlatLines.{flat_lines, member_lines, module_lines};
ghost use Rattle.vb_tree.specs.View.{form_of, line_of, member_of, module_of, nodes_of};
ghost use Rattle.fixed_strings.specs.Declaring.{is_static_form, is_static_line, is_static_statement, is_static_word};

use std::alloc::Global;
use up_base::Mem;
use vb_tree::{CodeLine, Form6, Member6, Module6, Node6, VarWord, flat_lines};

fn push_all<'a>(more: &[&'a CodeLine], lines: &mut Vec<&'a CodeLine>) -> Result<(), Mem>
    ensures { OnOk result (map (λ l. line_of l.now) lines.new.items ≡ map (λ l. line_of l.now) lines.old.items ++ map (λ l. line_of l.now) more.now) }
{
    for line in more {
        lines.push(*line)?;
    }
    Ok(())
}

fn push_body<'a>(alloc: Global, body: &'a [Node6], lines: &mut Vec<&'a CodeLine>) -> Result<(), Mem>
    ensures { OnOk result (map (λ l. line_of l.now) lines.new.items ≡ map (λ l. line_of l.now) lines.old.items ++ flat_lines (nodes_of body.now)) }
{
    let more = flat_lines(alloc, body)?;
    Ok(push_all(&more, lines)?)
}

fn push_group<'a>(group: &'a [CodeLine], lines: &mut Vec<&'a CodeLine>) -> Result<(), Mem>
    ensures { OnOk result (map (λ l. line_of l.now) lines.new.items ≡ map (λ l. line_of l.now) lines.old.items ++ map line_of group.now) }
{
    for line in group {
        lines.push(line)?;
    }
    Ok(())
}

fn push_member<'a>(
    alloc: Global,
    member: &'a Member6,
    lines: &mut Vec<&'a CodeLine>,
) -> Result<(), Mem>
    ensures { OnOk result (map (λ l. line_of l.now) lines.new.items ≡ map (λ l. line_of l.now) lines.old.items ++ member_lines (member_of member.now)) }
{
    match member {
        Member6::Line(line) => Ok(lines.push(line)?),
        Member6::Group(head, group, close) => {
            lines.push(head)?;
            push_group(group.as_slice(), lines)?;
            Ok(lines.push(close)?)
        }
        Member6::Proc(head, body, close) => {
            lines.push(head)?;
            push_body(alloc, body.as_slice(), lines)?;
            Ok(lines.push(close)?)
        }
    }
}

// The lines of a module in order, by which its statements are numbered from 0.
fn module_lines(alloc: Global, module: &Module6) -> Result<Vec<&CodeLine>, Mem>
    ensures { IfOk result (λ v. map (λ l. line_of l.now) v.items ≡ module_lines (module_of «module».now)) }
{
    let mut lines = Vec::new(alloc);
    for member in module.members.as_slice() {
        push_member(alloc, member, &mut lines)?;
    }
    Ok(lines)
}

fn is_static_word(word: VarWord) -> bool
    ensures { result ≡ is_static_word word }
{
    match word {
        VarWord::Static => true,
        _ => false,
    }
}

fn is_static_form(form: &Form6) -> bool
    ensures { result ≡ is_static_form (form_of form.now) }
{
    match form {
        Form6::Variables(word, _) => is_static_word(*word),
        _ => false,
    }
}

fn is_static_at(lines: &[&CodeLine], statement: u32) -> bool
    ensures { result ≡ is_static_line (slice_get (map (λ l. line_of l.now) lines.now) statement) }
{
    match lines.get(statement as usize) {
        Some(line) => is_static_form(&line.form),
        None => false,
    }
}

fn is_static_in(alloc: Global, module: &Module6, statement: u32) -> Result<bool, Mem>
    ensures { IfOk result (λ b. b ≡ is_static_line (slice_get (module_lines (module_of «module».now)) statement)) }
{
    let lines = module_lines(alloc, module)?;
    Ok(is_static_at(&lines, statement))
}

/// Whether the statement of a module with this number declares variables by the word Static.
pub(crate) fn is_static_statement(
    alloc: Global,
    modules: &[Module6],
    file: u32,
    statement: u32,
) -> Result<bool, Mem>
    ensures { IfOk result (λ b. b ≡ is_static_statement file statement (map module_of modules.now)) }
{
    for module in modules {
        if module.file == file {
            return Ok(is_static_in(alloc, module, statement)?);
        }
    }
    Ok(false)
}
