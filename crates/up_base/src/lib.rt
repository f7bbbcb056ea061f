//! Names, lists, places and faults, and the outside of the program: the folder that it reads, the outlet that it
//! writes to and the console that it speaks to.
#![tactic(auto)]

mod allocation;
mod call_counts;
mod console;
mod decimal;
mod dir_folder;
mod dir_outlet;
pub mod faults;
mod file_path;
mod file_store;
mod folder;
mod issue;
mod memory_console;
mod memory_folder;
mod memory_outlet;
mod name;
mod out_console;
mod outlet;
mod place;
mod sequence;
mod speech_buffer;
mod sure_console;
mod sure_folder;
mod sure_outlet;
mod trace;
mod windows_1252;

pub use allocation::Mem;
pub use console::Console;
pub use decimal::write_decimal;
pub use dir_folder::DirFolder;
pub use dir_outlet::DirOutlet;
pub use folder::{Folder, FolderFail, Found};
pub use issue::{Issue, Issues};
pub use memory_console::MemoryConsole;
pub use memory_folder::MemoryFolder;
pub use memory_outlet::MemoryOutlet;
pub use name::{Name, NameFail};
pub use out_console::OutConsole;
pub use outlet::Outlet;
pub use place::{Fault, Place, ReadFail};
pub use sequence::Sequence;
pub use sure_console::SureConsole;
pub use sure_folder::SureFolder;
pub use sure_outlet::SureOutlet;
pub use trace::{Outcome, Output, Trace};
pub use windows_1252::{DecodeFail, decode_1252, encode_1252};

/// A list of bytes.
pub type Bytes = Sequence<u8>;

/// A text as a list of UTF-16 units.
pub type Wide = Sequence<u16>;

/// The names of a project's files by file number: 0 is the project file, k the k-th module or class entry.
pub type Names = Sequence<Name>;

/// A call of the folder, the outlet or the console failed.
#[derive(Clone, Copy, Debug, PartialEq, Eq)]
pub struct Failed;
