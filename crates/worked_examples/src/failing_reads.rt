//! A folder that fails at the file of the second of three modules.
use crate::assertions::assert_nothing;
use crate::memory_run::{Failing, run_in_memory};
use std::test::Fail;
use wizard_cli::Status;

// A project file with three modules.
const THREE: (&str, &str) = (
    "Three.vbp",
    "Type=Exe\r\nModule=A; A.bas\r\nModule=B; B.bas\r\nModule=C; C.bas\r\nStartup=\"Sub Main\"\r\n",
);

// The first of them.
const FIRST: (&str, &str) = ("A.bas", "Sub Main()\r\nEnd Sub\r\n");

// The third file that is read is that of the second module; what stands in it is not looked at.
#[test]
fn names_the_file_that_cannot_be_read(rt: HostRuntime) -> Result<(), Fail> {
    for text in ["Sub Go()\r\nEnd Sub\r\n", "Sub Go()\r\n", ""] {
        let left = run_in_memory(
            rt.alloc(),
            "upgrade Three.vbp",
            &[THREE, FIRST, ("B.bas", text)],
            Failing::Read(3),
        )?;
        assert_nothing(
            &rt,
            rt.alloc(),
            &left,
            Status::ReadFault,
            "cannot read B.bas",
        )?;
    }
    Ok(())
}
