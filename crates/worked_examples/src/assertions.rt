//! Assertions on what a run leaves.
use crate::memory_run::Left;
use std::alloc::Global;
use std::process::Abort;
use std::test::Fail;
use wizard_cli::Status;

// Asserts how the run ended, and the line that it said.
fn assert_ended(
    rt: &impl Abort,
    alloc: Global,
    left: &Left,
    status: Status,
    said: &str,
) -> Result<(), Fail> {
    let line = format!(in alloc; "{said}\n")?;
    assert_eq!(rt; left.console.said(), line.as_bytes(), "after {said}");
    assert_eq!(rt; left.status, status, "after {said}");
    Ok(())
}

/// Asserts that the run ended so, said this line and wrote nothing.
pub(crate) fn assert_nothing(
    rt: &impl Abort,
    alloc: Global,
    left: &Left,
    status: Status,
    said: &str,
) -> Result<(), Fail> {
    assert_ended(rt, alloc, left, status, said)?;
    assert!(rt; left.holds_nothing(alloc)?, "after {said}");
    Ok(())
}

// The text that is written for an empty module.
fn written_empty(alloc: Global, module: &str) -> Result<String, Fail> {
    Ok(format!(in alloc;
        "\u{feff}Option Explicit On\r\nOption Strict Off\r\nOption Compare Binary\r\nPublic Module {module}\r\nEnd Module\r\n"
    )?)
}

/// Asserts that the run upgraded the project without an issue, and an empty module of it.
pub(crate) fn assert_upgraded(
    rt: &impl Abort,
    alloc: Global,
    left: &Left,
    module: &str,
) -> Result<(), Fail> {
    assert_ended(rt, alloc, left, Status::Done, "issues: 0")?;
    let name = format!(in alloc; "upgraded/{module}.vb")?;
    let written = written_empty(alloc, module)?;
    let held = left.held(alloc, name.as_str())?;
    assert_eq!(rt; held, Some(written.as_bytes()), "{module}");
    Ok(())
}
