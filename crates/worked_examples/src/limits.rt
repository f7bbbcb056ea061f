//! The longest name of a module, whose written file no file system holds, and the most entries.
use crate::assertions::assert_upgraded;
use crate::memory_run::{Failing, Left, run_in_memory};
use std::alloc::Global;
use std::fmt::Write;
use std::test::Fail;

// What a run over a project file and an empty module file leaves.
fn project_upgraded(alloc: Global, project: &str) -> Result<Left, Fail> {
    run_in_memory(
        alloc,
        "upgrade P.vbp",
        &[("P.vbp", project), ("A.bas", "")],
        Failing::NoCall,
    )
}

#[test]
fn takes_modules_with_names_of_255_characters(rt: HostRuntime) -> Result<(), Fail> {
    let alloc = rt.alloc();
    let name = "a".repeat(alloc, 255)?;
    let project = format!(in alloc; "\r\nModule={name}; A.bas\r\n")?;
    let left = project_upgraded(alloc, project.as_str())?;
    assert_upgraded(&rt, alloc, &left, name.as_str())
}

// A project file with so many entries of one file.
fn project_text(alloc: Global, count: u32) -> Result<String, Fail> {
    let mut text = String::new(alloc);
    text.push_str("Type=Exe\r\n")?;
    for i in 0..count {
        write!(text, "Module=M{i}; A.bas\r\n")?;
    }
    Ok(text)
}

#[test]
fn takes_200_entries(rt: HostRuntime) -> Result<(), Fail> {
    let alloc = rt.alloc();
    let left = project_upgraded(alloc, project_text(alloc, 200)?.as_str())?;
    assert_upgraded(&rt, alloc, &left, "M199")
}
