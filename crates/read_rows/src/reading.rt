//! What comes of files that are read.
use net_emitter::emit;
use net_reader::{NetReadFail, can_be_counted, read_net};
use net_tree::{NetFiles, NetProject};
use net_writable::is_writable;
use std::alloc::Global;
use up_base::Mem;

/// Whether files are read and written as they are, or the place of their fault.
pub(crate) fn answer(alloc: Global, files: &NetFiles) -> Result<String, Mem> {
    if !can_be_counted(files) {
        return Ok(String::from_str(alloc, "too many lines")?);
    }
    match read_net(alloc, files) {
        Ok(project) => Ok(String::from_str(alloc, written_again(alloc, &project, files)?)?),
        Err(NetReadFail::NotNet(place)) => {
            Ok(format!(in alloc; "fault at {} {}", place.file, place.line)?)
        }
        Err(NetReadFail::Mem) => Err(Mem),
    }
}

fn written_again(
    alloc: Global,
    project: &NetProject,
    files: &NetFiles,
) -> Result<&'static str, Mem> {
    if !is_writable(alloc, project)? {
        return Ok("not writable");
    }
    let written = emit(alloc, project)?;
    Ok(if are_same(files, &written) {
        "read"
    } else {
        "written otherwise"
    })
}

fn are_same(files: &NetFiles, written: &NetFiles) -> bool {
    files.len() == written.len()
        && files.as_slice().iter().zip(written.as_slice()).all(|((name, text), (other, same))| {
            name.as_bytes() == other.as_bytes() && text.as_slice() == same.as_slice()
        })
}
