//! The files of a project as the standard input has them: their lines with line feeds, and without the mark of UTF-8.
use net_tree::NetFiles;
use std::alloc::Global;
use up_base::{Bytes, Mem, Name, NameFail, Sequence};

#[derive(Drop)]
struct FileText {
    name: String,
    text: String,
}

/// A text in place of a line of a file.
#[derive(Clone, Copy)]
pub(crate) struct Change<'a> {
    pub file: usize,
    pub line: usize,
    pub text: &'a str,
}

/// The files so far. The last one is open as long as its lines come, and the next one begins another project once a row was
/// read.
#[derive(Drop)]
pub(crate) struct SourceText {
    files: Vec<FileText>,
    name: String,
    text: String,
    is_open: bool,
    has_rows: bool,
}

impl SourceText {
    /// No files.
    pub fn new(alloc: Global) -> SourceText {
        SourceText {
            files: Vec::new(alloc),
            name: String::new(alloc),
            text: String::new(alloc),
            is_open: false,
            has_rows: false,
        }
    }

    /// Begins a file.
    pub fn open(&mut self, alloc: Global, name: &str) -> Result<(), Mem> {
        if self.has_rows {
            self.files = Vec::new(alloc);
        }
        self.name = String::from_str(alloc, name)?;
        self.text = String::new(alloc);
        self.is_open = true;
        self.has_rows = false;
        Ok(())
    }

    /// Whether a line stands in a file, which it is put behind then.
    pub fn takes(&mut self, line: &str) -> Result<bool, Mem> {
        if self.is_open {
            self.text.push_str(line)?;
            self.text.push('\n')?;
        } else {
            self.has_rows = true;
        }
        Ok(self.is_open)
    }

    /// Ends the file that is open.
    pub fn close(&mut self, alloc: Global) -> Result<(), Mem> {
        let name = String::from_str(alloc, self.name.as_str())?;
        let text = String::from_str(alloc, self.text.as_str())?;
        self.files.push(FileText { name, text })?;
        self.is_open = false;
        Ok(())
    }

    /// The files as they are written, with a change; none where a file's name is none.
    pub fn changed(&self, alloc: Global, change: Change<'_>) -> Result<Option<NetFiles>, Mem> {
        let mut files = Sequence::new(alloc);
        for (number, file) in self.files.iter().enumerate() {
            let line = if number == change.file {
                change.line
            } else {
                0
            };
            let text = changed_text(alloc, file.text.as_str(), line, change.text)?;
            let name = match Name::make(alloc, file.name.as_bytes()) {
                Ok(name) => name,
                Err(NameFail::NotName) => return Ok(None),
                Err(NameFail::Mem) => return Err(Mem),
            };
            files.push((name, file_bytes(alloc, file.name.as_str(), text.as_str())?))?;
        }
        Ok(Some(files))
    }
}

// The text in which a line, by its number, is another one behind the same indentation; each bar in it ends a line and
// begins one that is indented as far.
fn changed_text(alloc: Global, text: &str, number: usize, new: &str) -> Result<String, Mem> {
    let mut out = String::new(alloc);
    for (before, line) in text.lines().enumerate() {
        if before + 1 == number {
            push_indented(&mut out, indentation(line), new)?;
        } else {
            out.push_str(line)?;
            out.push('\n')?;
        }
    }
    Ok(out)
}

// The blanks that a line begins with, four for each level.
fn indentation(line: &str) -> &'static str {
    if line.starts_with("        ") {
        "        "
    } else if line.starts_with("    ") {
        "    "
    } else {
        ""
    }
}

fn push_indented(out: &mut String, blanks: &str, new: &str) -> Result<(), Mem> {
    for line in new.split("|") {
        out.push_str(blanks)?;
        out.push_str(line)?;
        out.push('\n')?;
    }
    Ok(())
}

// The bytes of a file: its line ends, and the mark of UTF-8 where it is a module's.
fn file_bytes(alloc: Global, name: &str, text: &str) -> Result<Bytes, Mem> {
    let lines = text.replace(alloc, '\n', "\r\n")?;
    let mut bytes = Bytes::new(alloc);
    if !name.ends_with(".rsp") {
        bytes.extend_from_slice(b"\xEF\xBB\xBF")?;
    }
    bytes.extend_from_slice(lines.as_bytes())?;
    Ok(bytes)
}
