//! Names, paths and labels.
ghost use Rattle.std.specs.Prelude.{◌≡◌, ◌++◌, map, codes, OnOk};
ghost use Rattle.net_tree.specs.Spelling.{separated, name_text, is_library_path, path_text, label_text};

use crate::layout::write_separator;
use crate::words::is_bracketed;
use net_tree::NetLabel;
use up_base::{Bytes, Mem, Name, write_decimal};

/// Writes a name, in brackets where it is a word of the language.
pub fn write_name(out: &mut Bytes, name: &Name) -> Result<(), Mem>
    ensures { OnOk result (out.new ≡ out.old ++ name_text name.now) }
{
    if !is_bracketed(name) {
        return out.extend_from_slice(name.as_bytes());
    }
    out.push(b'[')?;
    out.extend_from_slice(name.as_bytes())?;
    out.push(b']')
}

// Whether a path begins with a name space of the run-time library.
fn is_library_path(names: &[Name]) -> bool
    ensures { result ≡ is_library_path names.now }
{
    match names.first() {
        None => false,
        Some(name) => name.as_bytes() == b"System".as_slice()
            || name.as_bytes() == b"Microsoft".as_slice(),
    }
}

// Writes the names of a library's path.
fn write_library_path(out: &mut Bytes, names: &[Name]) -> Result<(), Mem>
    ensures { OnOk result (out.new ≡ out.old ++ separated (codes ".") names.now) }
{
    for (i, name) in names.iter().enumerate() {
        write_separator(out, i, b".")?;
        out.extend_from_slice(name.as_bytes())?;
    }
    Ok(())
}

// Writes the names of a path of the project.
fn write_own_path(out: &mut Bytes, names: &[Name]) -> Result<(), Mem>
    ensures { OnOk result (out.new ≡ out.old ++ separated (codes ".") (map name_text names.now)) }
{
    for (i, name) in names.iter().enumerate() {
        write_separator(out, i, b".")?;
        write_name(out, name)?;
    }
    Ok(())
}

/// Writes a path.
pub fn write_path(out: &mut Bytes, names: &[Name]) -> Result<(), Mem>
    ensures { OnOk result (out.new ≡ out.old ++ path_text names.now) }
{
    if is_library_path(names) {
        return write_library_path(out, names);
    }
    write_own_path(out, names)
}

/// Writes a label.
pub fn write_label(out: &mut Bytes, label: &NetLabel) -> Result<(), Mem>
    ensures { OnOk result (out.new ≡ out.old ++ label_text label.now) }
{
    match label {
        NetLabel::Word(name) => write_name(out, name),
        NetLabel::Number(n) => write_decimal(out, u128::from(*n)),
    }
}
