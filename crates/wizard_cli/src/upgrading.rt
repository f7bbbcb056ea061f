//! From the command words to the written files.
ghost use Rattle.std.specs.Prelude.{◌≡◌, ◌≤◌, ◌-◌, true, insert, map, length, IfErr, IfOk};
ghost use Rattle.std.specs.List.{list_all};
ghost use Rattle.up_base.specs.Names.{is_name};
ghost use Rattle.up_base.specs.Outside.{Rose};
ghost use Rattle.vb_tree.specs.View.{project_of};
ghost use Rattle.project_loader.specs.Faults.{file_names};
ghost use Rattle.project_loader.specs.Held.{IsOfGrammar};
ghost use Rattle.wizard_cli.specs.Headline.{in_folder, moved, report_file};
ghost use Rattle.wizard_cli.specs.Runs.{OnFault, UpgradeAnswer};
ghost use Rattle.wizard_cli.specs.Settings.{given_of};
ghost use Rattle.wizard_cli.specs.Steps.{PutAnswer, StopsTranslating};
ghost use Rattle.wizard_cli.specs.Upgrading.{AreFiles, AreToWrite};

use crate::answer::{Answer, answer_to};
use crate::settings::settings_of;
use crate::writing::{move_into_folder, put_all};
use net_tree::NetFiles;
use project_loader::load_project;
use project_upgrade::{UpgradedFiles, upgraded_files};
use settings_file::Settings;
use std::alloc::Global;
use up_base::{Bytes, Folder, Mem, Name, Names, Outlet};
use vb_tree::{Entry, Project6};

/// Upgrades the project under a name by the settings of a file. All is translated before the first file is put, and from then on no
/// memory is taken.
pub(crate) fn upgrade<F: Folder, O: Outlet>(
    alloc: Global,
    file: &Name,
    settings: Option<Name>,
    folder: &mut F,
    outlet: &mut O,
) -> Answer
    ensures answer { UpgradeAnswer (record { held = F.held folder.old; reads_before = F.calls folder.old; reads_after = F.calls folder.new; outlet_before = O.held outlet.old; outlet_after = O.held outlet.new; puts_before = O.calls outlet.old; puts_after = O.calls outlet.new }) (outlet.new ≡ outlet.old) file.now settings result }
    ensures failed { OnFault result (Rose (F.faults folder.old) (F.faults folder.new)) (Rose (O.faults outlet.old) (O.faults outlet.new)) }
    ensures held { F.held folder.new ≡ F.held folder.old }
    ensures folder_faults { F.faults folder.old ≤ F.faults folder.new }
    ensures outlet_faults { O.faults outlet.old ≤ O.faults outlet.new }
{
    match files_to_write(alloc, file, settings, folder) {
        Ok(written) => put_files(outlet, written),
        Err(answer) => answer,
    }
}

/// All files that are written for a project, in the order in which they are put, and how many issues and procedures it has.
#[derive(Drop)]
pub(crate) struct WrittenFiles {
    pub(crate) files: Vec<(Name, Bytes)>,
    pub(crate) issues: usize,
    pub(crate) procedures: usize,
    pub(crate) clean: usize,
}

/// What is written for the project under a name by the settings of a file, which is read first; why nothing is, where one of these
/// is refused or can't be read.
pub(crate) fn files_to_write<F: Folder>(
    alloc: Global,
    file: &Name,
    settings: Option<Name>,
    folder: &mut F,
) -> Result<WrittenFiles, Answer>
    ensures written { IfOk result (AreToWrite (F.held folder.old) (F.calls folder.old) (F.calls folder.new) file.now settings) }
    ensures stops { IfErr result (StopsTranslating (F.held folder.old) (F.calls folder.old) (F.calls folder.new) file.now settings) }
    ensures failed { IfErr result (λ answer. OnFault answer (Rose (F.faults folder.old) (F.faults folder.new)) ⊥) }
    ensures held { F.held folder.new ≡ F.held folder.old }
    ensures faults { F.faults folder.old ≤ F.faults folder.new }
{
    let settings = match settings_of(alloc, folder, settings) {
        Ok(settings) => settings,
        Err(answer) => return Err(answer),
    };
    let project = match load_project(alloc, folder, file) {
        Ok(project) => project,
        Err(fail) => return Err(answer_to(fail)),
    };
    match translate(alloc, file, project, settings) {
        Ok(written) => Ok(written),
        Err(Mem) => Err(Answer::OutOfMemory),
    }
}

/// What is written for the project under a name. What was made of it is let go of before the files get their names.
pub(crate) fn translate(
    alloc: Global,
    name: &Name,
    project: Project6,
    settings: Settings,
) -> Result<WrittenFiles, Mem>
    requires { IsOfGrammar (project_of project) }
    ensures { IfOk result (λ u. AreFiles name.now (project_of project) (given_of settings) u) }
{
    let names = file_names(alloc, name, project.file.entries.as_slice())?;
    let Settings { library, note } = settings;
    let UpgradedFiles {
        files,
        report,
        issues,
        procedures,
        clean,
    } = upgraded_files(alloc, &names, project, library, note)?;
    Ok(WrittenFiles {
        files: all_files(alloc, files, report)?,
        issues,
        procedures,
        clean,
    })
}

// The files that stand for a project with the report, which goes before the last one.
fn all_files(alloc: Global, files: NetFiles, report: Bytes) -> Result<Vec<(Name, Bytes)>, Mem>
    requires some { 1 ≤ length files }
    requires named { list_all (λ f. is_name (in_folder f.0)) files ≡ true }
    ensures { IfOk result (λ all. all.items ≡ insert (map moved files) (length files - 1) (report_file report)) }
{
    let mut files = files.into_vec();
    move_into_folder(alloc, &mut files)?;
    let report_file = report_file(alloc, report)?;
    let last = files.len() - 1;
    files.insert(last, report_file)?;
    Ok(files)
}

// The names of the files that are read for a project, in order.
fn file_names(alloc: Global, name: &Name, entries: &[Entry]) -> Result<Names, Mem>
    ensures { IfOk result (λ names. names ≡ file_names name.now entries.now) }
{
    let mut names = Names::new(alloc);
    names.push(name.copy(alloc)?)?;
    for entry in entries {
        names.push(entry.file.copy(alloc)?)?;
    }
    Ok(names)
}

// The report as a file.
fn report_file(alloc: Global, report: Bytes) -> Result<(Name, Bytes), Mem>
    ensures { IfOk result (λ file. file ≡ report_file report) }
{
    let name = Name::from_valid(alloc, b"upgraded/Upgrade.txt")?;
    Ok((name, report))
}

// Puts all files, and takes no memory.
fn put_files<O: Outlet>(outlet: &mut O, written: WrittenFiles) -> Answer
    ensures answer { PutAnswer written.files.items written.issues (O.held outlet.old) (O.held outlet.new) (O.calls outlet.old) (O.calls outlet.new) result }
    ensures failed { OnFault result ⊥ (Rose (O.faults outlet.old) (O.faults outlet.new)) }
    ensures faults { O.faults outlet.old ≤ O.faults outlet.new }
{
    let WrittenFiles {
        mut files,
        issues,
        ..
    } = written;
    match put_all(outlet, files.as_slice()) {
        Ok(()) => Answer::Done(issues),
        Err(place) => Answer::WriteFault(files.swap_remove(place).0),
    }
}
