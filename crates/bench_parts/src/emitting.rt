//! A long written project, which is read and emitted.
ghost use Rattle.std.specs.Prelude.{IfOk};
ghost use Rattle.net_tree.specs.View.{project_of};
ghost use Rattle.net_tree.specs.Text.{IsWritable};

use net_emitter::emit;
use net_reader::{NetReadFail, can_be_counted, read_net};
use net_tree::{NetFiles, NetProject};
use std::alloc::Global;
use up_base::{Bytes, Mem, Name, Place, Sequence};

/// How many files and bytes were emitted, and how many bytes were read after the first time.
#[derive(Clone, Copy)]
pub(crate) struct Count {
    pub files: usize,
    pub bytes: usize,
    pub read: usize,
}

const HEAD: &str = "\u{FEFF}Option Explicit On\r\nOption Strict Off\r\nOption Compare Binary\r\n";

const RESPONSE: &str =
    "/target:library\r\n/optionexplicit+\r\n/optionstrict-\r\nMain1.vb\r\nUpgradeSupport.vb\r\n";

/// Reads the files of a project of so many lines, emits it so many times, and reads it so many times more.
pub(crate) fn measure(
    alloc: Global,
    lines: u32,
    times: u32,
    reads: u32,
) -> Result<Count, NetReadFail> {
    let files = long_files(alloc, lines)?;
    let project = read(alloc, &files)?;
    let mut count = emitted(alloc, &project, times)?;
    for _time in 0..reads {
        let _project = read(alloc, &files)?;
        count.read = count.read.saturating_add(size_of(&files));
    }
    Ok(count)
}

fn read(alloc: Global, files: &NetFiles) -> Result<NetProject, NetReadFail>
    ensures { IfOk result (λ p. IsWritable (project_of p)) }
{
    if !can_be_counted(files) {
        return Err(NetReadFail::NotNet(Place { file: 0, line: 0 }));
    }
    Ok(read_net(alloc, files)?)
}

// Emits a project so many times, and counts its files and bytes.
fn emitted(alloc: Global, project: &NetProject, times: u32) -> Result<Count, Mem>
    requires { IsWritable (project_of project.now) }
{
    let mut count = Count {
        files: 0,
        bytes: 0,
        read: 0,
    };
    for _time in 0..times {
        let files = emit(alloc, project)?;
        count.files = count.files.saturating_add(files.len());
        count.bytes = count.bytes.saturating_add(size_of(&files));
    }
    Ok(count)
}

fn size_of(files: &NetFiles) -> usize {
    let mut bytes: usize = 0;
    for (_name, text) in files.as_slice() {
        bytes = bytes.saturating_add(text.len());
    }
    bytes
}

// The files of a library with one procedure of so many lines.
fn long_files(alloc: Global, lines: u32) -> Result<NetFiles, Mem> {
    let mut files = Sequence::new(alloc);
    let main = long_module(alloc, lines)?;
    files.push((Name::from_valid(alloc, b"Main1.vb")?, main))?;
    let mut support = Bytes::from_slice(alloc, HEAD.as_bytes())?;
    support.extend_from_slice(b"Public Module UpgradeSupport\r\nEnd Module\r\n")?;
    files.push((Name::from_valid(alloc, b"UpgradeSupport.vb")?, support))?;
    let response = Bytes::from_slice(alloc, RESPONSE.as_bytes())?;
    files.push((Name::from_valid(alloc, b"upgrade.rsp")?, response))?;
    Ok(files)
}

fn long_module(alloc: Global, lines: u32) -> Result<Bytes, Mem> {
    let mut text = Bytes::from_slice(alloc, HEAD.as_bytes())?;
    text.extend_from_slice(b"Public Module Main1\r\n    Public Sub Main()\r\n")?;
    for _line in 0..lines {
        text.extend_from_slice(b"        total = ((total + 12345) - total)\r\n")?;
    }
    text.extend_from_slice(b"    End Sub\r\nEnd Module\r\n")?;
    Ok(text)
}
