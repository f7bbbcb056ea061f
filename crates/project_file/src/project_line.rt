//! What a line of a project file is.
ghost use Rattle.std.specs.Prelude.{◌≡◌};
ghost use Rattle.std.specs.List.{list_all};
ghost use Rattle.vb_tree.specs.ProjectLines.{project_line, is_head, setting_line, is_left_behind, entry_line, parted, is_module_name, is_letter, is_name_unit};
ghost use Rattle.up_base.specs.Names.{is_name, is_printable};
ghost use Rattle.project_file.specs.Lines.{line_seen, HasNames};

use crate::lines::{is_key, parted, trimmed};

// The most characters of a module's name, and of a file's.
const MODULE_NAME_LIMIT: usize = 255;

const FILE_NAME_LIMIT: usize = 512;

// A line of a project file, with its parts as they stand in the text.
#[derive(Clone, Copy)]
pub(crate) enum LineText<'a> {
    Blank,
    // The head of a section.
    Head,
    Entry {
        class: bool,
        name: &'a [u16],
        file: &'a [u16],
    },
    // The value of a `Type` line.
    Type(&'a [u16]),
    // The value of a `Startup` line.
    Startup(&'a [u16]),
    // It names what isn't carried over.
    NotCarried,
    // A setting of another key.
    Other,
    Malformed,
}

// What a line is.
pub(crate) fn line_in(line: &[u16]) -> LineText<'_>
    ensures line { line_seen result ≡ project_line line.now }
    ensures names { HasNames result }
{
    let content = trimmed(line);
    if content.is_empty() {
        return LineText::Blank;
    }
    if is_head(content) {
        return LineText::Head;
    }
    match parted(content, b'=') {
        Some((key, value)) => setting_in(trimmed(key), trimmed(value)),
        None => LineText::Malformed,
    }
}

// Whether a line without its blanks is the head of a section.
fn is_head(content: &[u16]) -> bool
    ensures { result ≡ is_head content.now }
{
    content.starts_with(&[u16::from(b'[')]) && content.ends_with(&[u16::from(b']')])
}

// What a line is that has this key and this value.
fn setting_in<'a>(key: &[u16], value: &'a [u16]) -> LineText<'a>
    ensures line { line_seen result ≡ setting_line key.now value.now }
    ensures names { HasNames result }
{
    if is_key(key, b"module") {
        return entry_in(false, value);
    }
    if is_key(key, b"class") {
        return entry_in(true, value);
    }
    if is_key(key, b"type") {
        return LineText::Type(value);
    }
    if is_key(key, b"startup") {
        return LineText::Startup(value);
    }
    if is_left_behind(key) {
        return LineText::NotCarried;
    }
    LineText::Other
}

// Whether a key names what isn't carried over.
fn is_left_behind(key: &[u16]) -> bool
    ensures { result ≡ is_left_behind key.now }
{
    is_key(key, b"form")
        || is_key(key, b"usercontrol")
        || is_key(key, b"userdocument")
        || is_key(key, b"propertypage")
        || is_key(key, b"designer")
        || is_key(key, b"resfile32")
        || is_key(key, b"object")
}

// The entry of a module or class, whose value is its name, `;` and its file.
fn entry_in(class: bool, value: &[u16]) -> LineText<'_>
    ensures line { line_seen result ≡ entry_line class (parted 59 value.now) }
    ensures names { HasNames result }
{
    let Some((name, file)) = parted(value, b';') else {
        return LineText::Malformed;
    };
    let file = trimmed(file);
    if is_module_name(name) && is_name(file) {
        LineText::Entry { class, name, file }
    } else {
        LineText::Malformed
    }
}

// Whether it is a letter and at most 254 letters, digits and `_`.
fn is_module_name(name: &[u16]) -> bool
    ensures { result ≡ is_module_name name.now }
{
    match name.split_first() {
        Some((first, rest)) => {
            is_letter(*first) && name.len() <= MODULE_NAME_LIMIT && are_name_units(rest)
        }
        None => false,
    }
}

fn are_name_units(units: &[u16]) -> bool
    ensures { result ≡ list_all is_name_unit units.now }
{
    units.iter().all(|c| is_name_unit(*c))
}

fn is_letter(unit: u16) -> bool
    ensures { result ≡ is_letter unit }
{
    (u16::from(b'A') <= unit && unit <= u16::from(b'Z'))
        || (u16::from(b'a') <= unit && unit <= u16::from(b'z'))
}

fn is_name_unit(unit: u16) -> bool
    ensures { result ≡ is_name_unit unit }
{
    is_letter(unit)
        || (u16::from(b'0') <= unit && unit <= u16::from(b'9'))
        || unit == u16::from(b'_')
}

// Whether the units are a name: 1 to 512 printable ASCII characters.
fn is_name(units: &[u16]) -> bool
    ensures { result ≡ is_name units.now }
{
    if units.is_empty() || units.len() > FILE_NAME_LIMIT {
        return false;
    }
    are_printable(units)
}

fn are_printable(units: &[u16]) -> bool
    ensures { result ≡ list_all is_printable units.now }
{
    units
        .iter()
        .all(|c| u16::from(b' ') <= *c && *c <= u16::from(b'~'))
}
