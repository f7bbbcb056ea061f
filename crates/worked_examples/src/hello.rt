//! The project `hello`: what is written for it, and what is left where a call of its run fails.
use crate::memory_run::{Failing, Left, run_in_memory};
use std::alloc::Global;
use std::process::Abort;
use std::test::Fail;
use wizard_cli::Status;

// The files of the project.
const HELLO: [(&str, &str); 2] = [
    (
        "Hello.vbp",
        "Type=Exe\r\nModule=Main1; Main1.bas\r\nStartup=\"Sub Main\"\r\nName=\"Hello\"\r\n",
    ),
    (
        "Main1.bas",
        "Sub Main()\r\nDebug.Print \"hi\"\r\nEnd Sub\r\n",
    ),
];

// The files that are written for it, in order.
const WRITTEN: [(&str, &str); 4] = [
    (
        "upgraded/Main1.vb",
        "\u{feff}Option Explicit On\r\nOption Strict Off\r\nOption Compare Binary\r\nPublic Module Main1\r\n    Public Sub Main()\r\n        UpgradeSupport.PrintLine(\"hi\")\r\n    End Sub\r\nEnd Module\r\n",
    ),
    (
        "upgraded/UpgradeSupport.vb",
        "\u{feff}Option Explicit On\r\nOption Strict Off\r\nOption Compare Binary\r\nPublic Module UpgradeSupport\r\n    Public Sub PrintLine(ByVal s As String)\r\n        System.Console.WriteLine(s)\r\n    End Sub\r\nEnd Module\r\n",
    ),
    ("upgraded/Upgrade.txt", "Upgrade report 1\r\nissues: 0\r\n"),
    (
        "upgraded/upgrade.rsp",
        "/target:exe\r\n/main:Main1\r\n/optionexplicit+\r\n/optionstrict-\r\nMain1.vb\r\nUpgradeSupport.vb\r\n",
    ),
];

// How a run with this failing call ends, what it says, and how many of the files it leaves, each of them whole.
const RUNS: [(Failing, Status, &str, usize); 8] = [
    (Failing::NoCall, Status::Done, "issues: 0\n", 4),
    (
        Failing::Read(1),
        Status::ReadFault,
        "cannot read Hello.vbp\n",
        0,
    ),
    (
        Failing::Read(2),
        Status::ReadFault,
        "cannot read Main1.bas\n",
        0,
    ),
    (
        Failing::Put(1),
        Status::WriteFault,
        "cannot write upgraded/Main1.vb\n",
        0,
    ),
    (
        Failing::Put(2),
        Status::WriteFault,
        "cannot write upgraded/UpgradeSupport.vb\n",
        1,
    ),
    (
        Failing::Put(3),
        Status::WriteFault,
        "cannot write upgraded/Upgrade.txt\n",
        2,
    ),
    (
        Failing::Put(4),
        Status::WriteFault,
        "cannot write upgraded/upgrade.rsp\n",
        3,
    ),
    (Failing::Say(1), Status::ConsoleFault, "", 4),
];

// Asserts that the first so many of the written files are held whole, and the others not at all.
fn assert_written(rt: &impl Abort, alloc: Global, left: &Left, count: usize) -> Result<(), Fail> {
    for (i, (name, text)) in WRITTEN.iter().enumerate() {
        let whole = (i < count).then_some(text.as_bytes());
        assert_eq!(rt; left.held(alloc, name)?, whole, "{name}, of {count}");
    }
    Ok(())
}

// Asserts how a run with this failing call ends, what it says, and how many files it leaves.
fn assert_run(
    rt: &impl Abort,
    alloc: Global,
    failing: Failing,
    status: Status,
    said: &str,
    count: usize,
) -> Result<(), Fail> {
    let left = run_in_memory(alloc, "upgrade Hello.vbp", &HELLO, failing)?;
    assert_eq!(rt; left.status, status, "at {failing:?}");
    assert_eq!(rt; left.console.said(), said.as_bytes(), "at {failing:?}");
    assert_written(rt, alloc, &left, count)
}

#[test]
fn upgrades_hello(rt: HostRuntime) -> Result<(), Fail> {
    for (failing, status, said, count) in RUNS {
        assert_run(&rt, rt.alloc(), failing, status, said, count)?;
    }
    Ok(())
}

// Where one allocation fails, the run answers want of memory and leaves nothing, or it answers as ever. Which one fails is
// chosen where the tests are run.
#[test]
fn wants_memory_or_upgrades_hello(rt: HostRuntime) -> Result<(), Fail> {
    let left = run_in_memory(rt.alloc(), "upgrade Hello.vbp", &HELLO, Failing::NoCall)?;
    assert_upgraded_or_not(&rt, rt.alloc(), &left)
}

// Asserts that the run did all, or wanted memory and left nothing.
fn assert_upgraded_or_not(rt: &impl Abort, alloc: Global, left: &Left) -> Result<(), Fail> {
    if left.status == Status::Done {
        return assert_written(rt, alloc, left, WRITTEN.len());
    }
    assert_eq!(rt; left.status, Status::OutOfMemory);
    assert_eq!(rt; left.console.said(), b"out of memory\n".as_slice());
    assert_written(rt, alloc, left, 0)
}
