//! The settings of a run.
ghost use Rattle.std.specs.Prelude.{◌≡◌, ◌≤◌, Some, IfOk, IfErr, IfSome};
ghost use Rattle.up_base.specs.Outside.{Rose, CountsCall};
ghost use Rattle.project_loader.specs.Loading.{ReadsAll};
ghost use Rattle.wizard_cli.specs.Settings.{given_of, no_settings, settings_names, AreSet};
ghost use Rattle.wizard_cli.specs.Steps.{StopsAtSettings};
ghost use Rattle.wizard_cli.specs.Runs.{OnFault};

use crate::answer::Answer;
use settings_file::{Settings, SettingsFail, read_settings};
use std::alloc::Global;
use up_base::{Folder, FolderFail, Found, Name};

// The most bytes of a settings file.
const SETTINGS_LIMIT: u64 = 1_048_576;

/// What is set where no settings file is named: the target goes by the project, and there is no note.
pub(crate) fn no_settings() -> Settings
    ensures { given_of result ≡ no_settings }
{
    Settings {
        library: false,
        note: None,
    }
}

/// What the named settings file sets; why not, where it is refused or can't be read.
pub(crate) fn settings_of<F: Folder>(
    alloc: Global,
    folder: &mut F,
    name: Option<Name>,
) -> Result<Settings, Answer>
    ensures set { IfSome (F.held folder.old) (λ files. IfOk result (λ s. AreSet files name (given_of s))) }
    ensures reads { IfOk result (λ s. ReadsAll (F.calls folder.old) (F.calls folder.new) (settings_names name)) }
    ensures stops { IfErr result (StopsAtSettings (F.held folder.old) (F.calls folder.old) (F.calls folder.new) name) }
    ensures failed { IfErr result (λ answer. OnFault answer (Rose (F.faults folder.old) (F.faults folder.new)) ⊥) }
    ensures held { F.held folder.new ≡ F.held folder.old }
    ensures faults { F.faults folder.old ≤ F.faults folder.new }
{
    match name {
        Some(name) => settings_named(alloc, folder, name),
        None => Ok(no_settings()),
    }
}

// What the settings file of a name sets.
fn settings_named<F: Folder>(alloc: Global, folder: &mut F, name: Name) -> Result<Settings, Answer>
    ensures set { IfSome (F.held folder.old) (λ files. IfOk result (λ s. AreSet files (Some name) (given_of s))) }
    ensures calls { CountsCall (F.calls folder.old) (F.calls folder.new) }
    ensures stops { IfErr result (StopsAtSettings (F.held folder.old) (F.calls folder.old) (F.calls folder.new) (Some name)) }
    ensures failed { IfErr result (λ answer. OnFault answer (Rose (F.faults folder.old) (F.faults folder.new)) ⊥) }
    ensures held { F.held folder.new ≡ F.held folder.old }
    ensures faults { F.faults folder.old ≤ F.faults folder.new }
{
    match folder.read_file(alloc, &name, SETTINGS_LIMIT) {
        Ok(Found::Whole(bytes)) => match read_settings(alloc, bytes.as_slice()) {
            Ok(settings) => Ok(settings),
            Err(SettingsFail::NotSettings) => Err(Answer::SettingsRefused(name)),
            Err(SettingsFail::Mem) => Err(Answer::OutOfMemory),
        },
        Ok(Found::Absent) => Err(Answer::SettingsRefused(name)),
        Ok(Found::TooLong) => Err(Answer::SettingsRefused(name)),
        Err(FolderFail::Failed) => Err(Answer::ReadFault(name)),
        Err(FolderFail::Mem) => Err(Answer::OutOfMemory),
    }
}
