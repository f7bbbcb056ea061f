//! Which names, paths and labels can be written.
ghost use Rattle.std.specs.Prelude.{◌≡◌, [], ◌∷◌, codes};
ghost use Rattle.std.specs.List.{list_all};
ghost use Rattle.net_tree.specs.Spelling.{is_handler_label, is_identifier, is_label, is_path, is_same_path, is_word_part};

use net_tree::NetLabel;
use up_base::Name;

// Whether a byte may stand behind the first one of a name.
fn is_word_part(c: u8) -> bool
    ensures { result ≡ is_word_part c }
{
    (b'A' <= c && c <= b'Z') || (b'a' <= c && c <= b'z') || (b'0' <= c && c <= b'9') || c == b'_'
}

fn are_word_parts(bytes: &[u8]) -> bool
    ensures { result ≡ list_all is_word_part bytes.now }
{
    bytes.iter().all(|c| is_word_part(*c))
}

/// Whether bytes are a letter or an underscore, and then letters, digits and underscores.
pub fn is_identifier(name: &[u8]) -> bool
    ensures { result ≡ is_identifier name.now }
{
    match name {
        [] => false,
        [first, ..] => !(b'0' <= *first && *first <= b'9') && are_word_parts(name),
    }
}

fn are_identifiers(names: &[Name]) -> bool
    ensures { result ≡ list_all is_identifier names.now }
{
    names.iter().all(|name| is_identifier(name.as_bytes()))
}

// Whether a path is `System.Array`, which is a type.
fn is_system_array(names: &[Name]) -> bool
    ensures { result ≡ is_same_path names.now (codes "System" ∷ codes "Array" ∷ []) }
{
    match names {
        [space, name] => space.as_bytes() == b"System".as_slice()
            && name.as_bytes() == b"Array".as_slice(),
        _ => false,
    }
}

/// Whether names are those of a path.
pub(crate) fn is_path(names: &[Name]) -> bool
    ensures { result ≡ is_path names.now }
{
    !names.is_empty() && are_identifiers(names) && !is_system_array(names)
}

/// Whether a label can be written.
pub(crate) fn is_label(label: &NetLabel) -> bool
    ensures { result ≡ is_label label.now }
{
    match label {
        NetLabel::Word(name) => is_identifier(name.as_bytes()),
        NetLabel::Number(_) => true,
    }
}

/// Whether an error can be sent to a label.
pub(crate) fn is_handler_label(label: &NetLabel) -> bool
    ensures { result ≡ is_handler_label label.now }
{
    match label {
        NetLabel::Word(name) => is_identifier(name.as_bytes()),
        NetLabel::Number(n) => *n != 0,
    }
}
