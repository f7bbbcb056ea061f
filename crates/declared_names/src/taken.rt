//! Names that are taken in each written project or class, and the names of modules.
ghost use Rattle.std.specs.Prelude.{◌≡◌, map, nat_eq};
ghost use Rattle.std.specs.List.{list_any};
ghost use Rattle.std.specs.Cmp.Lexicographic.{pointwise};
ghost use Rattle.vb_tree.specs.View.{module_of};
ghost use Rattle.declared_names.specs.Rules.{inherited_names, is_class, is_class_name, is_inherited, is_module_name, is_reserved, reserved_names};

use up_base::Name;
use vb_tree::Module6;

const RESERVED_NAMES: [&[u8]; 3] = [b"upgradesupport", b"system", b"microsoft"];

const INHERITED_NAMES: [&[u8]; 8] = [
    b"equals",
    b"finalize",
    b"gethashcode",
    b"gettype",
    b"memberwiseclone",
    b"referenceequals",
    b"tostring",
    b"new",
];

// What each written project has beside its modules, in small letters.
#[tactic(auto, unfolding(crate::specs::Rules::reserved_names))]
fn reserved_names() -> &'static [&'static [u8]]
    ensures { map (λ t. t.now) result.now ≡ reserved_names }
{
    &RESERVED_NAMES
}

// What each written class has already, in small letters.
#[tactic(auto, unfolding(crate::specs::Rules::inherited_names))]
fn inherited_names() -> &'static [&'static [u8]]
    ensures { map (λ t. t.now) result.now ≡ inherited_names }
{
    &INHERITED_NAMES
}

fn is_one_of(words: &[&[u8]], word: &[u8]) -> bool
    ensures { result ≡ list_any (λ t. pointwise nat_eq word.now t.now) words.now }
{
    words.iter().any(|t| word == *t)
}

/// Whether each written project has something of this name beside its modules.
pub(crate) fn is_reserved(name: &Name) -> bool
    ensures { result ≡ is_reserved name.now }
{
    is_one_of(reserved_names(), name.lower_bytes())
}

/// Whether each written class has a member of this name already.
pub(crate) fn is_inherited(name: &Name) -> bool
    ensures { result ≡ is_inherited name.now }
{
    is_one_of(inherited_names(), name.lower_bytes())
}

/// Whether a standard module has this name.
pub(crate) fn is_module_name(modules: &[Module6], name: &Name) -> bool
    ensures { result ≡ is_module_name (map module_of modules.now) name.now }
{
    for module in modules {
        if !module.class && module.name == *name {
            return true;
        }
    }
    false
}

/// Whether a class module has this name.
pub(crate) fn is_class_name(modules: &[Module6], name: &Name) -> bool
    ensures { result ≡ is_class_name (map module_of modules.now) name.now }
{
    for module in modules {
        if module.class && module.name == *name {
            return true;
        }
    }
    false
}

/// Whether the module of a file is a class module.
pub(crate) fn is_class(modules: &[Module6], file: u32) -> bool
    ensures { result ≡ is_class (map module_of modules.now) file }
{
    for module in modules {
        if module.class && module.file == file {
            return true;
        }
    }
    false
}
