//! Names as paths below the current folder.
ghost use Rattle.std.specs.Prelude.{◌≡◌};
ghost use Rattle.up_base.specs.Paths.{path_of, separator};

use crate::Name;
use std::marker::Model;
use std::str;

/// The path of a name's file, which begins in the current folder. It takes no memory.
#[derive(Drop)]
pub(crate) struct FilePath {
    bytes: [u8; 514],
    len: usize,
}

impl Model for FilePath {
    ghost use Rattle.std.specs.Prelude.{ℕ, ◌≤◌, List, take};
    ghost use Rattle.std.specs.Str.{IsAscii};

    ghost Value = { List ℕ };

    ghost view = { λ p. take p.len p.bytes };

    ghost invariant = { λ p. (p.len ≤ 514) × IsAscii (take p.len p.bytes) };
}

impl FilePath {
    /// The path of the name's file.
    pub(crate) fn new(name: &Name) -> FilePath
        ensures { result ≡ path_of name.now }
    {
        let name = name.as_bytes();
        let mut bytes = [b'.'; 514];
        bytes[1] = b'/';
        for (i, c) in name.iter().enumerate() {
            bytes[i + 2] = separator(*c);
        }
        let len = name.len() + 2;
        FilePath { bytes, len }
    }

    /// The path as a text.
    pub(crate) fn as_str(&self) -> &str
        ensures { result.now ≡ self.now }
    {
        let Ok(path) = str::from_utf8(&self.bytes[..self.len]) else {
            unreachable!()
        };
        path
    }
}

// The system's separator of folders for that of a name.
fn separator(c: u8) -> u8
    ensures { result ≡ separator c }
{
    if c == b'\\' { b'/' } else { c }
}
