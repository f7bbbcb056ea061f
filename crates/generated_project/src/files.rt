//! The files of a project, with their names.
ghost use Rattle.std.specs.Prelude.{◌≡◌, true, IfOk};
ghost use Rattle.up_base.specs.MemoryTwins.{are_distinct};
ghost use Rattle.generated_project.specs.Generated.{generated_files, module_file, project_file};

use crate::entries::{file_name, project_text};
use crate::modules::module_text;
use std::alloc::Global;
use up_base::{Bytes, Mem, Name};

fn project_file(alloc: Global, modules: u32) -> Result<(Name, Bytes), Mem>
    ensures { IfOk result (λ file. file ≡ project_file modules) }
{
    let name = Name::from_valid(alloc, b"Gen.vbp")?;
    let text = project_text(alloc, modules)?;
    Ok((name, text))
}

fn module_file(alloc: Global, number: u32) -> Result<(Name, Bytes), Mem>
    ensures { IfOk result (λ file. file ≡ module_file number) }
{
    let name = file_name(alloc, number)?;
    let text = module_text(alloc, number)?;
    Ok((name, text))
}

/// The files of the project with so many modules: the project file first, then the modules by their numbers. Want of
/// memory is the only failure.
#[tactic(auto, using(crate::proofs::FileNames::names_differ))]
pub fn generated(alloc: Global, n: u32) -> Result<Vec<(Name, Bytes)>, Mem>
    ensures files { IfOk result (λ files. files.items ≡ generated_files n) }

    // So a folder in memory can hold them.
    ensures distinct { IfOk result (λ files. are_distinct files.items ≡ true) }
{
    let mut files = Vec::new(alloc);
    files.push(project_file(alloc, n)?)?;
    for k in 0..n {
        files.push(module_file(alloc, k + 1)?)?;
    }
    Ok(files)
}
