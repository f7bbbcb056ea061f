//! Runs over a folder, an outlet and a console in memory, with room for all that the examples write.
use std::alloc::{AllocError, Global};
use std::test::Fail;
use up_base::{Bytes, MemoryConsole, MemoryFolder, MemoryOutlet, Name, Sequence};
use wizard_cli::{Status, Words, run};

/// The one call of a run that fails, by its number from 1.
#[derive(Clone, Copy, Debug, PartialEq, Eq)]
pub(crate) enum Failing {
    NoCall,
    Read(u32),
    Put(u32),
    Say(u32),
}

// The names under which a run of a project of three modules puts its files.
const PUT: [&str; 6] = [
    "upgraded/A.vb",
    "upgraded/B.vb",
    "upgraded/C.vb",
    "upgraded/UpgradeSupport.vb",
    "upgraded/Upgrade.txt",
    "upgraded/upgrade.rsp",
];

/// What a run leaves.
#[derive(Drop)]
pub(crate) struct Left {
    pub status: Status,
    pub console: MemoryConsole,
    outlet: MemoryOutlet,
}

impl Left {
    /// What the outlet holds under a name.
    pub(crate) fn held(&self, alloc: Global, name: &str) -> Result<Option<&[u8]>, Fail> {
        Ok(self.outlet.held(&Name::make(alloc, name.as_bytes())?))
    }

    /// Whether none of the files of a project of the modules `A`, `B` and `C` is held.
    pub(crate) fn holds_nothing(&self, alloc: Global) -> Result<bool, Fail> {
        for name in PUT {
            if self.held(alloc, name)?.is_some() {
                return Ok(false);
            }
        }
        Ok(true)
    }
}

/// Runs the command words, which blanks part, over a folder of files, given by their names and texts.
pub(crate) fn run_in_memory(
    alloc: Global,
    words: &str,
    files: &[(&str, &str)],
    failing: Failing,
) -> Result<Left, Fail> {
    let words = command_words(alloc, words)?;
    let folder = folder_of(alloc, files, failing)?;
    let outlet = outlet_of(alloc, failing)?;
    let console = console_of(alloc, failing)?;
    Ok(left_of(alloc, &words, folder, outlet, console))
}

// What a run over these leaves.
fn left_of(
    alloc: Global,
    words: &Words,
    mut folder: MemoryFolder,
    mut outlet: MemoryOutlet,
    mut console: MemoryConsole,
) -> Left {
    let status = run(alloc, words, &mut folder, &mut outlet, &mut console);
    Left {
        status,
        console,
        outlet,
    }
}

// A folder with these files.
fn folder_of(
    alloc: Global,
    files: &[(&str, &str)],
    failing: Failing,
) -> Result<MemoryFolder, Fail> {
    let failing = match failing {
        Failing::Read(n) => Some(n),
        _ => None,
    };
    let files = entries(alloc, files)?;
    if !MemoryFolder::names_differ(&files) {
        return Err(Fail::new("two files have one name"));
    }
    let failing = list(alloc, failing)?;
    Ok(MemoryFolder::make(files, failing))
}

// An outlet with room for what the examples write.
fn outlet_of(alloc: Global, failing: Failing) -> Result<MemoryOutlet, Fail> {
    let failing = match failing {
        Failing::Put(n) => Some(n),
        _ => None,
    };
    let failing = list(alloc, failing)?;
    Ok(MemoryOutlet::with_room(alloc, 256, 65536, failing)?)
}

// A console with room for what they say.
fn console_of(alloc: Global, failing: Failing) -> Result<MemoryConsole, Fail> {
    let failing = match failing {
        Failing::Say(n) => Some(n),
        _ => None,
    };
    let failing = list(alloc, failing)?;
    Ok(MemoryConsole::with_room(alloc, 4096, failing)?)
}

// The list of the number, if there is one.
fn list(alloc: Global, number: Option<u32>) -> Result<Vec<u32>, AllocError> {
    let mut numbers = Vec::new(alloc);
    if let Some(number) = number {
        numbers.push(number)?;
    }
    Ok(numbers)
}

// The words that blanks part.
fn command_words(alloc: Global, text: &str) -> Result<Words, Fail> {
    let mut words = Sequence::new(alloc);
    for word in text.split_whitespace() {
        words.push(Bytes::from_slice(alloc, word.as_bytes())?)?;
    }
    Ok(words)
}

// The files with names and texts of their own.
fn entries(alloc: Global, files: &[(&str, &str)]) -> Result<Vec<(Name, Bytes)>, Fail> {
    let mut entries = Vec::new(alloc);
    for (name, text) in files {
        let name = Name::make(alloc, name.as_bytes())?;
        entries.push((name, Bytes::from_slice(alloc, text.as_bytes())?))?;
    }
    Ok(entries)
}
