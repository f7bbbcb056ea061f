//! The translation of a generated project in memory.
ghost use Rattle.std.specs.Prelude.{IfOk, ◌≤◌};
ghost use Rattle.wizard_cli.specs.Runs.{AreNumbers, MakeAnswer};

use crate::answer::{Answer, Numbers};
use crate::settings::no_settings;
use crate::upgrading::translate;
use generated_project::generated;
use project_loader::load_project;
use std::alloc::Global;
use up_base::{Mem, MemoryFolder, Name};

/// Translates the generated project of so many modules, of which nothing is written.
pub(crate) fn make(alloc: Global, modules: u32) -> Answer
    ensures { MakeAnswer modules result }
{
    match made(alloc, modules) {
        Ok(numbers) => Answer::Made(numbers),
        Err(Mem) => Answer::OutOfMemory,
    }
}

// What there is in the generated project of so many modules. Want of memory also stands for a fault of that project.
fn made(alloc: Global, modules: u32) -> Result<Numbers, Mem>
    ensures { IfOk result (AreNumbers modules) }
{
    let name = Name::from_valid(alloc, b"Gen.vbp")?;
    let files = generated(alloc, modules)?;
    let mut folder = MemoryFolder::make(files, Vec::new(alloc));
    let Ok(project) = load_project(alloc, &mut folder, &name) else {
        return Err(Mem);
    };
    let written = translate(alloc, &name, project, no_settings())?;
    Ok(Numbers {
        modules,
        procedures: written.procedures,
        issues: written.issues,
        clean: written.clean,
    })
}
