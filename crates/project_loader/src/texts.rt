//! The texts of a project's files.
ghost use Rattle.std.specs.Prelude.{◌≡◌, ◌≤◌, ◌<◌, ◌^◌, true, map, None, IfOk, IfErr, IfSome, IsErrOf, length};
ghost use Rattle.up_base.specs.Outside.{Rose, CountsCall};
ghost use Rattle.project_loader.specs.Texts.{HeldText, IsTooLong, is_byte, are_bytes, decoded, filled, file_limit};
ghost use Rattle.project_loader.specs.Faults.{fault_at};
ghost use Rattle.project_loader.specs.Steps.{OnStop, UnreadFault, stop_of};
ghost use Rattle.project_loader.specs.declared.texts.Stop.TheVariants as stop;

use std::alloc::Global;
use up_base::{
    Bytes, DecodeFail, Fault, Folder, FolderFail, Found, Mem, Name, Place, ReadFail, Wide,
    decode_1252,
};

// The most bytes that a file may have.
const FILE_LIMIT: u64 = 1_048_576;

/// The number of the fault of a file, or of files together, that are too long.
pub(crate) const TOO_LONG: u8 = 3;

// What stands for a byte without a character: a control unit.
const DELETE: u8 = 0x7f;

/// Why a file of a project was not loaded.
#[derive(Clone, Copy, Debug, PartialEq, Eq)]
pub(crate) enum Stop {
    /// The file's first fault.
    Fault(Fault),
    /// The folder failed.
    Failed,
    /// Want of memory.
    Mem,
}

impl From<Mem> for Stop {
    ghost from_gives = { λ _ e. e ≡ stop.Mem };

    fn from(_: Mem) -> Stop {
        Stop::Mem
    }
}

impl From<ReadFail> for Stop {
    ghost from_gives = { λ r e. e ≡ stop_of r };

    fn from(fail: ReadFail) -> Stop {
        match fail {
            ReadFail::Fault(fault) => Stop::Fault(fault),
            ReadFail::Mem => Stop::Mem,
        }
    }
}

// Why the bytes of a file could not be had.
#[derive(Clone, Copy, Debug, PartialEq, Eq)]
enum Unread {
    // No file has the name.
    Absent,
    // The file has more than 1,048,576 bytes.
    TooLong,
    // The folder failed.
    Failed,
    // Want of memory.
    Mem,
}

// The bytes of a file.
fn read_bytes<F: Folder>(alloc: Global, folder: &mut F, name: &Name) -> Result<Bytes, Unread>
    ensures short { IfOk result (λ bytes. length bytes ≤ file_limit) }
    ensures bytes { IfSome (F.held folder.old) (λ files. IfOk result (HeldText files name.now)) }
    ensures absent { IsErrOf result Unread.Absent → IfSome (F.held folder.old) (λ files. files name.now ≡ None) }
    ensures too_long { IsErrOf result Unread.TooLong → IfSome (F.held folder.old) (λ files. IsTooLong files name.now) }
    ensures failed { IsErrOf result Unread.Failed → Rose (F.faults folder.old) (F.faults folder.new) }
    ensures held { F.held folder.new ≡ F.held folder.old }
    ensures faults { F.faults folder.old ≤ F.faults folder.new }
    ensures calls { CountsCall (F.calls folder.old) (F.calls folder.new) }
{
    match folder.read_file(alloc, name, FILE_LIMIT) {
        Ok(Found::Whole(bytes)) => within_limit(bytes),
        Ok(Found::Absent) => Err(Unread::Absent),
        Ok(Found::TooLong) => Err(Unread::TooLong),
        Err(FolderFail::Failed) => Err(Unread::Failed),
        Err(FolderFail::Mem) => Err(Unread::Mem),
    }
}

// The bytes, unless there are more than a folder should have handed out.
fn within_limit(bytes: Bytes) -> Result<Bytes, Unread>
    ensures same { IfOk result (λ b. b ≡ bytes) }
    ensures short { IfOk result (λ b. length b ≤ file_limit) }
    ensures too_long { IsErrOf result Unread.TooLong → file_limit < length bytes }
    ensures no_other { IfErr result (λ e. e ≡ Unread.TooLong) }
{
    if bytes.len() as u64 > FILE_LIMIT {
        return Err(Unread::TooLong);
    }
    Ok(bytes)
}

/// The bytes of a file. Where it is absent or too long, that is a fault at this line of the project file.
pub(crate) fn bytes_or_fault<F: Folder>(
    alloc: Global,
    folder: &mut F,
    name: &Name,
    line: u32,
    absent: u8,
) -> Result<Bytes, Stop>
    ensures short { IfOk result (λ bytes. length bytes ≤ file_limit) }
    ensures bytes { IfSome (F.held folder.old) (λ files. IfOk result (HeldText files name.now)) }
    ensures fault { IfSome (F.held folder.old) (λ files. OnStop result (UnreadFault files name.now line absent)) }
    ensures failed { IsErrOf result Stop.Failed → Rose (F.faults folder.old) (F.faults folder.new) }
    ensures held { F.held folder.new ≡ F.held folder.old }
    ensures faults { F.faults folder.old ≤ F.faults folder.new }
    ensures calls { CountsCall (F.calls folder.old) (F.calls folder.new) }
{
    match read_bytes(alloc, folder, name) {
        Ok(bytes) => Ok(bytes),
        Err(Unread::Absent) => Err(fault_at(line, absent)),
        Err(Unread::TooLong) => Err(fault_at(line, TOO_LONG)),
        Err(Unread::Failed) => Err(Stop::Failed),
        Err(Unread::Mem) => Err(Stop::Mem),
    }
}

/// A fault at a line of the project file.
pub(crate) fn fault_at(line: u32, kind: u8) -> Stop
    ensures { result ≡ Stop.Fault (fault_at 0 line kind) }
{
    let place = Place { file: 0, line };
    Stop::Fault(Fault { place, kind })
}

/// The text of bytes in Windows-1252. A byte without a character gives 7F hex.
pub(crate) fn decoded(alloc: Global, bytes: &[u8]) -> Result<Wide, Mem>
    requires { length bytes.now < 2 ^ 32 }
    ensures { IfOk result (λ text. text ≡ decoded bytes.now) }
{
    match decode_1252(alloc, bytes) {
        Ok(text) => Ok(text),
        Err(DecodeFail::Undefined(_)) => Ok(filled_and_decoded(alloc, bytes)?),
        Err(DecodeFail::Mem) => Err(Mem),
    }
}

// The text of bytes of which some have no character, by a copy of them.
fn filled_and_decoded(alloc: Global, bytes: &[u8]) -> Result<Wide, Mem>
    requires { length bytes.now < 2 ^ 32 }
    ensures { IfOk result (λ text. text ≡ decoded bytes.now) }
{
    let filled = filled_bytes(alloc, bytes)?;
    match decode_1252(alloc, &filled) {
        Ok(text) => Ok(text),
        Err(DecodeFail::Undefined(_)) => unreachable!(),
        Err(DecodeFail::Mem) => Err(Mem),
    }
}

// Bytes, with 7F hex for those without a character.
fn filled_bytes(alloc: Global, bytes: &[u8]) -> Result<Vec<u8>, Mem>
    ensures filled { IfOk result (λ all. all.items ≡ map filled bytes.now) }
    ensures bytes { IfOk result (λ all. are_bytes bytes.now ≡ true) }
{
    let mut all = Vec::with_capacity(alloc, bytes.len())?;
    for byte in bytes {
        all.push(filled(*byte))?;
    }
    Ok(all)
}

// A byte, and 7F hex for one without a character.
fn filled(byte: u8) -> u8
    ensures filled { result ≡ filled byte }
    ensures byte { is_byte byte ≡ true }
{
    match byte {
        0x80..=0x9F => FILLED[byte as usize - 0x80],
        _ => byte,
    }
}

// The bytes from 80 to 9F hex, with 7F hex for those without a character.
#[rattlefmt::skip]
const FILLED: [u8; 32] = [
    0x80, DELETE, 0x82, 0x83, 0x84, 0x85, 0x86, 0x87, 0x88, 0x89, 0x8A, 0x8B, 0x8C, DELETE, 0x8E, DELETE,
    DELETE, 0x91, 0x92, 0x93, 0x94, 0x95, 0x96, 0x97, 0x98, 0x99, 0x9A, 0x9B, 0x9C, DELETE, 0x9E, 0x9F,
];
