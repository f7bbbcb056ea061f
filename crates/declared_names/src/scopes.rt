//! Who sees a declaration, and what a variable belongs to.
ghost use Rattle.std.specs.Prelude.{◌≡◌};
ghost use Rattle.vb_tree.specs.View.{param_of};
ghost use Rattle.declared_names.specs.Declaring.{constant_scope, is_by_value, local_owner, open_scope, param_owner, word_scope, written_visibility};

use bound_tree::Scope;
use vb_tree::{Owner, Param6, Passing, ProcId, VarWord, Visibility};

/// Who sees a variable of the module of a file.
pub(crate) fn word_scope(file: u32, word: VarWord) -> Scope
    ensures { result ≡ word_scope file word }
{
    match word {
        VarWord::Public => Scope::Public(file),
        VarWord::Global => Scope::Public(file),
        _ => Scope::Private(file),
    }
}

/// Who sees a constant of the module of a file.
pub(crate) fn constant_scope(file: u32, visibility: Option<Visibility>) -> Scope
    ensures { result ≡ constant_scope file visibility }
{
    match visibility {
        None => Scope::Private(file),
        Some(Visibility::Private) => Scope::Private(file),
        Some(_) => Scope::Public(file),
    }
}

/// Who sees a Type, an Enum or a procedure of the module of a file.
pub(crate) fn open_scope(file: u32, visibility: Option<Visibility>) -> Scope
    ensures { result ≡ open_scope file visibility }
{
    match visibility {
        None => Scope::Public(file),
        Some(Visibility::Private) => Scope::Private(file),
        Some(_) => Scope::Public(file),
    }
}

/// The word before the head of a procedure, and Public where none stands there.
pub(crate) fn written_visibility(visibility: Option<Visibility>) -> Visibility
    ensures { result ≡ written_visibility visibility }
{
    match visibility {
        None => Visibility::Public,
        Some(visibility) => visibility,
    }
}

/// What a local belongs to.
pub(crate) fn local_owner(procedure: ProcId, word: VarWord) -> Owner
    ensures { result ≡ local_owner procedure word }
{
    match word {
        VarWord::Static => Owner::Static(procedure),
        _ => Owner::Local(procedure),
    }
}

/// What a parameter belongs to, where it is the value that a property is given or isn't.
pub(crate) fn param_owner(procedure: ProcId, is_given: bool, param: &Param6) -> Owner
    ensures { result ≡ param_owner procedure is_given (param_of param.now) }
{
    if is_given || (is_by_value(param.passing) && !param.array) {
        Owner::Value(procedure)
    } else {
        Owner::Reference(procedure)
    }
}

fn is_by_value(passing: Passing) -> bool
    ensures { result ≡ is_by_value passing }
{
    matches!(passing, Passing::Value)
}
