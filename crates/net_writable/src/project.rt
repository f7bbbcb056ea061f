//! Which modules and projects can be written.
ghost use Rattle.std.specs.Prelude.{◌≡◌, ◌&&◌, true, is_none, map, IfOk};
ghost use Rattle.std.specs.List.{list_all};
ghost use Rattle.up_base.specs.Names.{is_printable};
ghost use Rattle.net_tree.specs.Declarations.{is_writable_member};
ghost use Rattle.net_tree.specs.Text.{IsWritable, is_main, is_note, is_support, is_writable_module, written_modules};
ghost use Rattle.net_tree.specs.View.{member_of, module_of, project_of};
ghost use Rattle.net_writable.specs.Projects.{has_file_name, has_target, is_file, is_writable_project};

use crate::declarations::is_writable_member;
use crate::spelling::is_identifier;
use net_tree::{NetMember, NetModule, NetProject};
use std::alloc::Global;
use up_base::{Bytes, Mem, Name};

fn are_writable_members(alloc: Global, members: &[NetMember]) -> Result<bool, Mem>
    ensures { IfOk result (λ answer. answer ≡ list_all is_writable_member (map member_of members.now)) }
{
    for member in members {
        if !is_writable_member(alloc, member)? {
            return Ok(false);
        }
    }
    Ok(true)
}

/// Whether a module can be written.
pub fn is_writable_module(alloc: Global, source: &NetModule) -> Result<bool, Mem>
    ensures { IfOk result (λ answer. answer ≡ is_writable_module (module_of source.now)) }
{
    if !is_identifier(source.name.as_bytes()) {
        return Ok(false);
    }
    Ok(are_writable_members(alloc, source.members.as_slice())?)
}

// Whether a file can have the name of a module's file, which is the module's with `.vb`.
fn has_file_name(source: &NetModule) -> bool
    ensures { result ≡ has_file_name (module_of source.now) }
{
    source.name.as_bytes().len() <= 509
}

fn is_file(alloc: Global, source: &NetModule) -> Result<bool, Mem>
    ensures { IfOk result (λ answer. answer ≡ is_file (module_of source.now)) }
{
    if !has_file_name(source) {
        return Ok(false);
    }
    Ok(is_writable_module(alloc, source)?)
}

fn are_files(alloc: Global, modules: &[NetModule]) -> Result<bool, Mem>
    ensures { IfOk result (λ answer. answer ≡ list_all is_file (map module_of modules.now)) }
{
    for source in modules {
        if !is_file(alloc, source)? {
            return Ok(false);
        }
    }
    Ok(true)
}

/// Whether a module can be the one of the support functions.
pub fn is_support(source: &NetModule) -> bool
    ensures { result ≡ is_support (module_of source.now) }
{
    !source.class && source.name.as_bytes() == b"UpgradeSupport".as_slice()
}

fn are_printable(bytes: &[u8]) -> bool
    ensures { result ≡ list_all is_printable bytes.now }
{
    bytes.iter().all(|c| 32 <= *c && *c <= 126)
}

/// Whether a text can be the comment at the head of each module, where there is one.
pub fn is_note(note: &Option<Bytes>) -> bool
    ensures { result ≡ is_note note.now }
{
    match note {
        None => true,
        Some(note) => note.len() <= 200 && are_printable(note.as_slice()),
    }
}

fn is_main(main: &Option<Name>) -> bool
    ensures { result ≡ is_main main.now }
{
    match main {
        None => true,
        Some(name) => is_identifier(name.as_bytes()),
    }
}

// Whether a project is a library just where it has no main module.
fn has_target(project: &NetProject) -> bool
    ensures { result ≡ has_target (project_of project.now).library (is_none (project_of project.now).main) }
{
    if project.library {
        project.main.is_none()
    } else {
        project.main.is_some()
    }
}

// Whether all but the modules' files of a project can be written.
fn is_writable_apart(project: &NetProject) -> bool
    ensures { result ≡ (is_note (project_of project.now).note && is_main (project_of project.now).main && has_target (project_of project.now).library (is_none (project_of project.now).main) && is_support (project_of project.now).support) }
{
    is_note(&project.note)
        && is_main(&project.main)
        && has_target(project)
        && is_support(&project.support)
}

// Whether each module's file can be written.
#[tactic(auto, using(crate::proofs::FileNames::with_support))]
fn has_writable_files(alloc: Global, project: &NetProject) -> Result<bool, Mem>
    ensures { IfOk result (λ answer. answer ≡ list_all is_file (written_modules (project_of project.now))) }
{
    if !are_files(alloc, project.modules.as_slice())? {
        return Ok(false);
    }
    Ok(is_file(alloc, &project.support)?)
}

// Whether a project can be written, as one test.
fn is_writable_project(alloc: Global, project: &NetProject) -> Result<bool, Mem>
    ensures { IfOk result (λ answer. answer ≡ is_writable_project (project_of project.now)) }
{
    if !is_writable_apart(project) {
        return Ok(false);
    }
    Ok(has_writable_files(alloc, project)?)
}

/// Whether some files stand for a project. Memory is taken for the blocks that are open round a line.
pub fn is_writable(alloc: Global, project: &NetProject) -> Result<bool, Mem>
    ensures sound { IfOk result (λ answer. (answer ≡ true) → IsWritable (project_of project.now)) }
    ensures complete { IfOk result (λ answer. IsWritable (project_of project.now) → answer ≡ true) }
{
    Ok(is_writable_project(alloc, project)?)
}
