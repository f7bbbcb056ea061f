//! The written files of a project.
ghost use Rattle.std.specs.Prelude.{◌≡◌, ◌++◌, ◌∷◌, [], true, map, codes, IfOk, OnOk};
ghost use Rattle.std.specs.List.{flat_map};
ghost use Rattle.up_base.specs.Names.{is_name};
ghost use Rattle.net_tree.specs.View.{module_of, project_of, member_of};
ghost use Rattle.net_tree.specs.Spelling.{at_depth, name_text};
ghost use Rattle.net_tree.specs.Declarations.{member_text};
ghost use Rattle.net_tree.specs.Text.{byte_order_mark, note_text, options_text, kind_text, module_text, target_text, main_text, file_name};
ghost use Rattle.net_tree.specs.Text.{written_modules, response_text, files_of, IsWritable};

use crate::declarations::write_members;
use crate::layout::{end_line, write_line};
use crate::names::write_name;
use net_tree::{NetFiles, NetMember, NetModule, NetProc, NetProject};
use std::alloc::Global;
use up_base::{Bytes, Mem, Name, Sequence, Wide};

/// The files that stand for a project: those of its modules, of its support module, and the compiler's response file.
pub fn emit(alloc: Global, project: &NetProject) -> Result<NetFiles, Mem>
    requires { IsWritable (project_of project.now) }
    ensures { IfOk result (λ files. files ≡ files_of (project_of project.now)) }
{
    let mut files = Sequence::new(alloc);
    for net_module in project.modules.as_slice() {
        files.push(module_file(alloc, &project.note, net_module)?)?;
    }
    files.push(module_file(alloc, &project.note, &project.support)?)?;
    files.push(response_file(alloc, project)?)?;
    Ok(files)
}

// About how many lines a part of a property has, with the comments before it.
fn part_lines(comments: &[Wide], part: &Option<Box<NetProc>>) -> usize {
    match part {
        None => 0,
        Some(part) => procedure_lines(part).saturating_add(comments.len()),
    }
}

fn procedure_lines(procedure: &NetProc) -> usize {
    let declared = procedure.prologue.len();
    procedure
        .lines
        .len()
        .saturating_add(declared)
        .saturating_add(2)
}

fn member_lines(member: &NetMember) -> usize {
    match member {
        NetMember::Structure(structure) => structure.fields.len().saturating_add(2),
        NetMember::Property(property) => {
            let get = part_lines(&property.get_comments, &property.get);
            let set = part_lines(&property.set_comments, &property.set);
            get.saturating_add(set).saturating_add(2)
        }
        NetMember::Proc(procedure) => procedure_lines(procedure),
        _ => 1,
    }
}

// About how many bytes the file of a module has. A text that grows as it is written stands twice in memory while it is moved.
fn room_for(net_module: &NetModule) -> usize {
    let mut lines: usize = 6;
    for member in net_module.members.as_slice() {
        lines = lines.saturating_add(member_lines(member));
    }
    lines.saturating_mul(80)
}

// The file of a module.
fn module_file(
    alloc: Global,
    note: &Option<Bytes>,
    net_module: &NetModule,
) -> Result<(Name, Bytes), Mem>
    requires { is_name (file_name (module_of net_module.now)) ≡ true }
    ensures { let m = module_of net_module.now in IfOk result (λ file. file ≡ (file_name m, module_text note.now m)) }
{
    let mut name = Sequence::new(alloc);
    write_file_name(&mut name, net_module)?;
    let mut text = Sequence::with_capacity(alloc, room_for(net_module))?;
    write_module(&mut text, note, net_module)?;
    text.shrink_to_fit();
    Ok((Name::from_valid(alloc, name.as_slice())?, text))
}

// The compiler's response file.
fn response_file(alloc: Global, project: &NetProject) -> Result<(Name, Bytes), Mem>
    ensures { IfOk result (λ file. file ≡ (codes "upgrade.rsp", response_text (project_of project.now))) }
{
    let mut text = Sequence::new(alloc);
    write_response(&mut text, project)?;
    Ok((Name::from_valid(alloc, b"upgrade.rsp")?, text))
}

fn write_file_name(out: &mut Bytes, net_module: &NetModule) -> Result<(), Mem>
    ensures { OnOk result (out.new ≡ out.old ++ file_name (module_of net_module.now)) }
{
    out.extend_from_slice(net_module.name.as_bytes())?;
    out.extend_from_slice(b".vb")
}

// Writes the comment at the head of a file, where there is one.
fn write_note(out: &mut Bytes, note: &Option<Bytes>) -> Result<(), Mem>
    ensures { OnOk result (out.new ≡ out.old ++ note_text note.now) }
{
    let Some(note) = note else {
        return Ok(());
    };
    out.extend_from_slice(b"' ")?;
    out.extend_from_slice(note.as_slice())?;
    end_line(out)
}

fn write_options(out: &mut Bytes) -> Result<(), Mem>
    ensures { OnOk result (out.new ≡ out.old ++ options_text) }
{
    write_line(out, 0, b"Option Explicit On")?;
    write_line(out, 0, b"Option Strict Off")?;
    write_line(out, 0, b"Option Compare Binary")
}

// Writes the word of a class or of a standard module.
fn write_kind(out: &mut Bytes, class: bool) -> Result<(), Mem>
    ensures { OnOk result (out.new ≡ out.old ++ kind_text class) }
{
    if class {
        return out.extend_from_slice(b"Class");
    }
    out.extend_from_slice(b"Module")
}

/// Writes the line of a module's head.
pub fn write_opening(out: &mut Bytes, class: bool, name: &Name) -> Result<(), Mem>
    ensures { OnOk result (out.new ≡ out.old ++ at_depth 0 (codes "Public " ++ kind_text class ++ codes " " ++ name_text name.now)) }
{
    out.extend_from_slice(b"Public ")?;
    write_kind(out, class)?;
    out.push(b' ')?;
    write_name(out, name)?;
    end_line(out)
}

/// Writes the closing line of a module.
pub fn write_ending(out: &mut Bytes, class: bool) -> Result<(), Mem>
    ensures { OnOk result (out.new ≡ out.old ++ at_depth 0 (codes "End " ++ kind_text class)) }
{
    out.extend_from_slice(b"End ")?;
    write_kind(out, class)?;
    end_line(out)
}

// Writes what stands before the name of a module.
fn write_preamble(out: &mut Bytes, note: &Option<Bytes>) -> Result<(), Mem>
    ensures { OnOk result (out.new ≡ out.old ++ byte_order_mark ++ note_text note.now ++ options_text) }
{
    out.extend_from_slice(b"\xEF\xBB\xBF")?;
    write_note(out, note)?;
    write_options(out)
}

fn write_module(out: &mut Bytes, note: &Option<Bytes>, net_module: &NetModule) -> Result<(), Mem>
    ensures { OnOk result (out.new ≡ out.old ++ module_text note.now (module_of net_module.now)) }
{
    write_preamble(out, note)?;
    write_opening(out, net_module.class, &net_module.name)?;
    write_members(out, net_module.members.as_slice())?;
    write_ending(out, net_module.class)
}

fn write_target(out: &mut Bytes, library: bool) -> Result<(), Mem>
    ensures { OnOk result (out.new ≡ out.old ++ at_depth 0 (target_text library)) }
{
    if library {
        write_line(out, 0, b"/target:library")
    } else {
        write_line(out, 0, b"/target:exe")
    }
}

fn write_main(out: &mut Bytes, main: &Option<Name>) -> Result<(), Mem>
    ensures { OnOk result (out.new ≡ out.old ++ main_text main.now) }
{
    let Some(name) = main else {
        return Ok(());
    };
    out.extend_from_slice(b"/main:")?;
    out.extend_from_slice(name.as_bytes())?;
    end_line(out)
}

// Writes the line of a module's file.
fn write_source(out: &mut Bytes, net_module: &NetModule) -> Result<(), Mem>
    ensures { OnOk result (out.new ≡ out.old ++ at_depth 0 (file_name (module_of net_module.now))) }
{
    write_file_name(out, net_module)?;
    end_line(out)
}

fn write_sources(out: &mut Bytes, project: &NetProject) -> Result<(), Mem>
    ensures { OnOk result (out.new ≡ out.old
        ++ flat_map (λ m. at_depth 0 (file_name m)) (written_modules (project_of project.now))) }
{
    for net_module in project.modules.as_slice() {
        write_source(out, net_module)?;
    }
    write_source(out, &project.support)
}

fn write_response(out: &mut Bytes, project: &NetProject) -> Result<(), Mem>
    ensures { OnOk result (out.new ≡ out.old ++ response_text (project_of project.now)) }
{
    write_target(out, project.library)?;
    write_main(out, &project.main)?;
    write_line(out, 0, b"/optionexplicit+")?;
    write_line(out, 0, b"/optionstrict-")?;
    write_sources(out, project)
}
