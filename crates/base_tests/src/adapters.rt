//! The folder, the outlet and the console of the system, and those in memory that never fail.
ghost use Rattle.std.specs.Prelude.{◌≡◌, IfOk};

use std::alloc::Global;
use std::rt::{Env, Files};
use std::test::Fail;
use std::{env, fs, process};
use up_base::{
    Bytes, Console, DirFolder, DirOutlet, Folder, FolderFail, Found, MemoryFolder, Name,
    OutConsole, Outlet, SureConsole, SureFolder, SureOutlet,
};

fn name(alloc: Global, text: &[u8]) -> Result<Name, Fail>
    ensures { IfOk result (λ n. n ≡ text.now) }
{
    Ok(Name::make(alloc, text)?)
}

fn bytes(alloc: Global, text: &[u8]) -> Result<Bytes, Fail> {
    Ok(Bytes::from_vec(Vec::from_slice(alloc, text)?))
}

// Makes a folder for a test, and makes it the current one.
fn enter_folder<R: Files + Env + AllocGlobal>(
    rt: &R,
    label: &str,
    id: u32,
) -> Result<String, Fail> {
    let temporary = env::temp_dir(rt)?;
    let path = format!(in rt.alloc(); "{}/up_base_{label}_{id}", temporary.as_str())?;
    fs::create_dir(rt, path.as_str())?;
    env::set_current_dir(rt, path.as_str())?;
    Ok(path)
}

fn leave_folder<R: Files + Env + AllocGlobal>(rt: &R, path: &str) -> Result<(), Fail> {
    env::set_current_dir(rt, "/")?;
    fs::remove_dir_all(rt, path)?;
    Ok(())
}

#[test]
fn reads_the_current_folder(rt: HostRuntime) -> Result<(), Fail> {
    let alloc = rt.alloc();
    let path = enter_folder(&rt, "folder", process::id(rt.process()))?;
    fs::create_dir(&rt, "forms")?;
    fs::write(&rt, "forms/Main1.frm", "abc")?;
    let mut folder = DirFolder::new(&rt);
    let table: [(&[u8], u64, Option<&[u8]>, bool, bool); 7] = [
        (b"forms\\Main1.frm", 3, Some(b"abc"), false, false),
        (b"forms\\Main1.frm", u64::MAX, Some(b"abc"), false, false),
        (b"forms\\Main1.frm", 2, None, true, false),
        (b"\\forms\\Main1.frm", 3, Some(b"abc"), false, false),
        (b"forms\\Main1.frm\\x", 3, None, false, false),
        (b"Main1.frm", 3, None, false, false),
        (b"forms", 3, None, false, true),
    ];
    for (text, limit, whole, too_long, failed) in table {
        let name = name(alloc, text)?;
        match folder.read_file(alloc, &name, limit) {
            Ok(Found::Whole(bytes)) => assert_eq!(rt; Some(bytes.as_slice()), whole),
            Ok(Found::TooLong) => assert!(rt; too_long),
            Ok(Found::Absent) => assert!(rt; whole.is_none() && !too_long && !failed),
            Err(fail) => assert!(rt; failed && fail == FolderFail::Failed),
        }
    }
    leave_folder(&rt, path.as_str())
}

#[test]
fn puts_into_the_current_folder(rt: HostRuntime) -> Result<(), Fail> {
    let alloc = rt.alloc();
    let path = enter_folder(&rt, "outlet", process::id(rt.process()))?;
    let mut outlet = DirOutlet::new(&rt);
    let file = name(alloc, b"upgraded\\Main1.vb")?;
    for text in [b"long".as_slice(), b"abc", b""] {
        assert!(rt; outlet.put_file(&file, text).is_ok());
        assert_eq!(rt; fs::read(&rt, "upgraded/Main1.vb")?.as_slice(), text);
    }
    assert!(rt; outlet.put_file(&name(alloc, b"Main1.log")?, b"abc").is_ok());
    assert_eq!(rt; fs::read(&rt, "Main1.log")?.as_slice(), b"abc".as_slice());
    assert!(rt; outlet.put_file(&name(alloc, b"upgraded")?, b"abc").is_err());
    leave_folder(&rt, path.as_str())
}

#[test]
fn says_to_the_standard_output(rt: HostRuntime) {
    let mut console = OutConsole::new(&rt);
    assert!(rt; console.say(b"said\n").is_ok());
    assert!(rt; console.say(b"").is_ok());
}

#[test]
fn never_fails(rt: HostRuntime) -> Result<(), Fail> {
    let alloc = rt.alloc();
    let file = name(alloc, b"Main1.frm")?;
    let files = vec![in alloc; (name(alloc, b"Main1.frm")?, bytes(alloc, b"abc")?)]?;
    assert!(rt; MemoryFolder::names_differ(&files));
    let mut folder = SureFolder::make(files);
    let Ok(Found::Whole(whole)) = folder.read_file(alloc, &file, 3) else {
        return Err(Fail::new("the file is there"));
    };
    assert_eq!(rt; whole.as_slice(), b"abc".as_slice());

    let mut outlet = SureOutlet::with_room(alloc, 2, 24)?;
    let mut console = SureConsole::with_room(alloc, 4)?;
    let table: [(&[u8], &[u8], &[u8]); 4] = [
        (b"ab", b"ab", b"ab"),
        (b"c", b"c", b"abc"),
        (b"defghi", b"c", b"abc"),
        (b"d", b"c", b"abc"),
    ];
    for (text, held, said) in table {
        assert!(rt; outlet.put_file(&file, text).is_ok() && console.say(text).is_ok());
        assert_eq!(rt; outlet.held(&file), Some(held));
        assert_eq!(rt; console.said(), said);
    }
    Ok(())
}
