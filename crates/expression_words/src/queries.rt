//! What is asked of words beside what they mean.
ghost use Rattle.std.specs.Prelude.{◌≡◌, ◌&&◌, not, is_some};
ghost use Rattle.up_base.specs.Names.{lower_case};
ghost use Rattle.name_tables.specs.Scopes as scopes;
ghost use Rattle.expression_words.specs.Meanings.{in_module, is_type_word, keyword_of};
ghost use Rattle.expression_words.specs.View.{IsContext, scope_of};

use crate::words::{is_type_name, is_word, or_use};
use crate::{Lookup, Scope};
use name_tables::{Spelling, Use6, Wanted, found_in_module};
use up_base::Name;

/// Whether a word outside of brackets is True, False, Nothing, Empty or Null.
pub fn is_keyword(name: &Name) -> bool
    ensures { result ≡ is_some (keyword_of (lower_case name.now)) }
{
    is_word(name, b"true")
        || is_word(name, b"false")
        || is_word(name, b"nothing")
        || is_word(name, b"empty")
        || is_word(name, b"null")
}

fn is_type_word(spelling: Spelling, name: &Name) -> bool
    ensures { result ≡ is_type_word spelling (lower_case name.now) }
{
    match spelling {
        Spelling::Bracketed => false,
        Spelling::Plain => is_type_name(name),
        Spelling::Suffixed => is_type_name(name),
    }
}

/// Whether a word that is declared nowhere could be a variable.
pub fn could_be_variable(lookup: Lookup, spelling: Spelling, name: &Name) -> bool
    ensures { result ≡ (scopes.is_plain lookup.first && not (is_type_word spelling (lower_case name.now))) }
{
    lookup.first.is_plain() && !is_type_word(spelling, name)
}

fn use_in(scope: Scope<'_>, wanted: Wanted, file: u32, name: &Name) -> Use6
    requires { IsContext scope.context }
    ensures { result ≡ scopes.found_in_module (scope_of scope.entry).declarations (scope_of scope.entry).site wanted file (lower_case name.now) }
{
    let context = scope.context;
    found_in_module(
        context.tables,
        &context.declared,
        scope.site,
        wanted,
        file,
        name,
    )
}

/// What a name behind that of a standard module stands for.
pub fn module_use(scope: Scope<'_>, lookup: Lookup, file: u32, name: &Name) -> Use6
    requires { IsContext scope.context }
    ensures { result ≡ in_module (scope_of scope.entry) file (lower_case name.now) (scopes.found_in_module (scope_of scope.entry).declarations (scope_of scope.entry).site lookup.first file (lower_case name.now)) lookup.next }
{
    let first = use_in(scope, lookup.first, file, name);
    match lookup.next {
        Some(next) => or_use(first, use_in(scope, next, file, name)),
        None => first,
    }
}
