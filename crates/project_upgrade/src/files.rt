//! From a project to its files and the report on its issues.
ghost use Rattle.std.specs.Prelude.{◌≡◌, ◌<◌, true, IsSome, nat_lt, length, IfOk};
ghost use Rattle.std.specs.List.{All, list_all};
ghost use Rattle.vb_tree.specs.View.{project_of};
ghost use Rattle.net_tree.specs.Text.{IsWritable, files_of};
ghost use Rattle.net_tree.specs.View as net;
ghost use Rattle.broken_rules.specs.Broken.{AreBroken};
ghost use Rattle.issue_report.specs.Reports.{report_text};
ghost use Rattle.issue_report.specs.Texts.{rule_text};
ghost use Rattle.project_upgrade.specs.Files.{AreFiles, IsUpgradedAs, with_settings};

use crate::upgrade::{Upgraded, upgrade_project};
use issue_report::report;
use net_emitter::emit;
use net_tree::{NetFiles, NetProject};
use net_writable::is_writable;
use std::alloc::Global;
use up_base::{Bytes, Issue, Issues, Mem, Names};
use vb_tree::Project6;

/// What is written for a project, with the report on its issues, and how many issues and procedures it has.
#[derive(Drop)]
pub struct UpgradedFiles {
    pub files: NetFiles,
    pub report: Bytes,
    pub issues: usize,
    pub procedures: usize,
    /// How many of them are clean.
    pub clean: usize,
}

// A tree as it is written where a library is asked for, and a note. Who asks for no library gets what the project says.
fn with_settings(tree: NetProject, library: bool, note: Option<Bytes>) -> NetProject
    ensures { net.project_of result ≡ with_settings library note (net.project_of tree) }
{
    let NetProject {
        library: is_library,
        main,
        modules,
        support,
        ..
    } = tree;
    NetProject {
        library: library || is_library,
        main: if library { None } else { main },
        note,
        modules,
        support,
    }
}

// Whether the issues stand in files with numbers below this one.
fn are_named(issues: &[Issue], files: usize) -> bool
    ensures { result ≡ list_all (λ i. nat_lt i.place.file files) issues.now }
{
    issues
        .iter()
        .all(|issue| (issue.place.file as usize) < files)
}

// The report on issues that stand in files with these names; want of memory where one stands in no such file.
#[tactic(auto, using(crate::proofs::Reported::all_named))]
fn reported(alloc: Global, issues: &Issues, names: &Names) -> Result<Bytes, Mem>
    requires { All (λ i. IsSome (rule_text i.rule)) issues.now }
    ensures { IfOk result (λ bytes. bytes ≡ report_text issues.now names.now) }
{
    if are_named(issues.as_slice(), names.len()) {
        return Ok(report(alloc, issues, names)?);
    }
    Err(Mem)
}

// The files of a tree; want of memory where it can't be written.
fn emitted(alloc: Global, tree: &NetProject) -> Result<NetFiles, Mem>
    ensures writable { IfOk result (λ files. IsWritable (net.project_of tree.now)) }
    ensures files { IfOk result (λ files. files ≡ files_of (net.project_of tree.now)) }
{
    if is_writable(alloc, tree)? {
        return Ok(emit(alloc, tree)?);
    }
    Err(Mem)
}

fn files_made(
    alloc: Global,
    made: Upgraded,
    names: &Names,
    library: bool,
    note: Option<Bytes>,
) -> Result<UpgradedFiles, Mem>
    requires { All (λ i. IsSome (rule_text i.rule)) made.issues }
    ensures { IfOk result (λ u. AreFiles library note made names.now u) }
{
    let Upgraded {
        tree,
        issues,
        procedures,
        clean,
    } = made;
    let report = reported(alloc, &issues, names)?;
    let tree = with_settings(tree, library, note);
    let files = emitted(alloc, &tree)?;
    Ok(UpgradedFiles {
        files,
        report,
        issues: issues.len(),
        procedures,
        clean,
    })
}

/// What is written for a project whose files have these names, the project file's first. Where a library is asked for, it is one and
/// starts with no module, whatever the project says; the note, if there is one, stands at the head of each file. Want of memory also
/// stands for a tree that can't be written, and for an issue that stands in none of these files.
#[tactic(auto, using(crate::proofs::Reported::issues_have_texts))]
pub fn upgraded_files(
    alloc: Global,
    names: &Names,
    project: Project6,
    library: bool,
    note: Option<Bytes>,
) -> Result<UpgradedFiles, Mem>
    ensures { IfOk result (λ u. IsUpgradedAs library note names.now (project_of project) u) }
{
    let made = upgrade_project(alloc, project)?;
    Ok(files_made(alloc, made, names, library, note)?)
}
