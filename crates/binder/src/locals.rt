//! Local variables that no line declares: the first of each name in a procedure.
ghost use Rattle.std.specs.Prelude.{◌≡◌, ◌+◌, ◌∷◌, [], ◌||◌, List, ℕ, None, is_some, map, OnOk, IfOk};
ghost use Rattle.up_base.specs.Names.{lower_case};
ghost use Rattle.name_tables.specs.Places.{noted};
ghost use Rattle.name_tables.specs.Scopes.{has_key};
ghost use Rattle.expression_words.specs.View.{IsScope, declared_in, scope_of};
ghost use Rattle.declarations.specs.ModuleFacts as modules;
ghost use Rattle.declarations.specs.View as view;
ghost use Rattle.binder.specs.ImplicitLocals.{implicit_at, implicit_in, implicit_words, is_missing, locals_from, locals_in, locals_of, with_new, written_scope};
ghost use Rattle.binder.specs.View.{home_of, implicit_of, locals_shown, placed_of, word_of, IsGathered, IsSurvey};

use crate::homes::{Home, Placed, placed_lines, sum};
use crate::words::{Word, words_of};
use declarations::{ModuleFacts, facts_at};
use expression_words::{Context, Kept, Scope, Written, use_of};
use indexmap::IndexMap;
use name_tables::{Site, Use6};
use std::alloc::Global;
use up_base::{Mem, Name, Place};
use vb_tree::{ProcId, Suffix};

/// A variable that no line declares, where it is used first.
#[derive(Drop)]
pub struct Implicit {
    /// The file of its module.
    pub file: u32,
    pub procedure: ProcId,
    pub place: Place,
    /// The number of its line in its module.
    pub statement: u32,
    pub name: Name,
    pub suffix: Suffix,
}

/// Those of a procedure.
#[derive(Drop)]
pub struct Locals {
    pub variables: Vec<Implicit>,
    /// For each code line the number of the first one that is used in later lines alone, or the number behind the last one.
    pub laters: Vec<u32>,
}

// The variables of a procedure so far, and their names in small letters.
#[derive(Drop)]
struct Gathered {
    variables: Vec<Implicit>,
    names: IndexMap<Vec<u8>, usize>,
}

// What is gathered in a procedure.
#[derive(Clone, Copy)]
struct Search<'a> {
    scope: Scope<'a>,
    procedure: ProcId,
    /// Whether its module has Option Explicit.
    explicit: bool,
}

fn is_missing(scope: Scope<'_>, word: &Word<'_>) -> bool
    requires { IsScope scope }
    ensures { result ≡ is_missing (scope_of scope.entry) (word_of word.now) }
{
    matches!(
        use_of(scope, word.lookup, word.spelling, word.name),
        Use6::Undeclared
    )
}

fn implicit_at(
    alloc: Global,
    search: Search<'_>,
    line: &Placed<'_>,
    word: &Word<'_>,
) -> Result<Implicit, Mem>
    ensures { IfOk result (λ x. implicit_of x ≡ implicit_at (scope_of search.entry.scope).site.file search.entry.procedure (placed_of line.now) (word_of word.now)) }
{
    Ok(Implicit {
        file: search.scope.site.file,
        procedure: search.procedure,
        place: line.line.place,
        statement: line.statement,
        name: word.name.copy(alloc)?,
        suffix: word.suffix,
    })
}

fn note_name(alloc: Global, name: &Name, names: &mut IndexMap<Vec<u8>, usize>) -> Result<(), Mem>
    requires { noted names.old (lower_case name.now) ≡ None }
    ensures { OnOk result ((key : List ℕ) → is_some (noted names.new key) ≡ (has_key key name.now || is_some (noted names.old key))) }
{
    names.insert(Vec::from_slice(alloc, name.lower_bytes())?, 0)?;
    Ok(())
}

// Puts a variable behind those so far, where its name is new.
fn put_new(alloc: Global, x: Implicit, to: &mut Gathered) -> Result<(), Mem>
    requires { IsGathered to.old }
    ensures all { OnOk result (map implicit_of to.new.variables.items ≡ with_new (map implicit_of to.old.variables.items) (implicit_of x ∷ [])) }
    ensures table { OnOk result (IsGathered to.new) }
{
    if to.names.get(x.name.lower_bytes()).is_some() {
        return Ok(());
    }
    note_name(alloc, &x.name, &mut to.names)?;
    to.variables.push(x)?;
    Ok(())
}

fn gather_word(
    alloc: Global,
    search: Search<'_>,
    line: &Placed<'_>,
    word: &Word<'_>,
    to: &mut Gathered,
) -> Result<(), Mem>
    requires names { IsScope search.scope }
    requires table { IsGathered to.old }
    ensures all { OnOk result (map implicit_of to.new.variables.items ≡ with_new (map implicit_of to.old.variables.items) (implicit_words (scope_of search.entry.scope) search.entry.procedure (placed_of line.now) (word_of word.now ∷ []))) }
    ensures table { OnOk result (IsGathered to.new) }
{
    if !is_missing(search.scope, word) {
        return Ok(());
    }
    let x = implicit_at(alloc, search, line, word)?;
    put_new(alloc, x, to)?;
    Ok(())
}

fn gather_words(
    alloc: Global,
    search: Search<'_>,
    line: &Placed<'_>,
    words: &[Word<'_>],
    to: &mut Gathered,
) -> Result<(), Mem>
    requires names { IsScope search.scope }
    requires table { IsGathered to.old }
    ensures all { OnOk result (map implicit_of to.new.variables.items ≡ with_new (map implicit_of to.old.variables.items) (implicit_words (scope_of search.entry.scope) search.entry.procedure (placed_of line.now) (map word_of words.now))) }
    ensures table { OnOk result (IsGathered to.new) }
{
    for word in words {
        gather_word(alloc, search, line, word, to)?;
    }
    Ok(())
}

fn gather_line(
    alloc: Global,
    search: Search<'_>,
    line: &Placed<'_>,
    to: &mut Gathered,
) -> Result<(), Mem>
    requires names { IsScope search.scope }
    requires table { IsGathered to.old }
    ensures all { OnOk result (map implicit_of to.new.variables.items ≡ with_new (map implicit_of to.old.variables.items) (implicit_in (scope_of search.entry.scope) search.entry.procedure search.entry.explicit (placed_of line.now))) }
    ensures table { OnOk result (IsGathered to.new) }
{
    if search.explicit {
        return Ok(());
    }
    let words = words_of(alloc, &line.line.form)?;
    gather_words(alloc, search, line, &words, to)?;
    Ok(())
}

fn gather_lines(
    alloc: Global,
    search: Search<'_>,
    first: u32,
    lines: &[Placed<'_>],
) -> Result<Locals, Mem>
    requires { IsScope search.scope }
    ensures { IfOk result (λ l. locals_shown l ≡ locals_in (scope_of search.entry.scope) search.entry.procedure search.entry.explicit first (map placed_of lines.now)) }
{
    let mut all = Gathered {
        variables: Vec::new(alloc),
        names: IndexMap::new(alloc),
    };
    let mut laters = Vec::new(alloc);
    for line in lines {
        gather_line(alloc, search, line, &mut all)?;
        let later = sum(first, all.variables.len())?;
        laters.push(later)?;
    }
    Ok(Locals {
        variables: all.variables,
        laters,
    })
}

fn needs_declaration(facts: &[ModuleFacts<'_>], file: u32) -> bool
    ensures { result ≡ modules.needs_declaration file (map view.facts_of facts.now) }
{
    match facts_at(facts, file) {
        Some(facts) => facts.explicit,
        None => false,
    }
}

/// What lines are looked at with before variables are declared that no line declares.
#[derive(Clone, Copy)]
pub struct Survey<'a> {
    pub context: Context<'a>,
    pub facts: &'a [ModuleFacts<'a>],
    /// Nothing.
    pub kept: &'a Kept,
}

// Where the lines of a procedure are looked at.
fn written_scope<'a>(survey: Survey<'a>, file: u32, p: ProcId) -> Scope<'a>
    requires { IsSurvey survey }
    ensures shown { scope_of result ≡ written_scope (declared_in survey.entry.context) file p }
    ensures names { IsScope result }
{
    let context = survey.context;
    Scope {
        context,
        written: Written {
            declared: context.declared,
            tables: context.tables,
        },
        later: 4294967295,
        site: Site {
            file,
            procedure: Some(p),
        },
        kept: survey.kept,
        missing: 3,
    }
}

fn locals_of(
    alloc: Global,
    survey: Survey<'_>,
    p: ProcId,
    first: u32,
    home: &Home<'_>,
) -> Result<Locals, Mem>
    requires { IsSurvey survey }
    ensures { IfOk result (λ l. locals_shown l ≡ locals_of (declared_in survey.entry.context) p first (home_of home.now)) }
{
    let lines = placed_lines(alloc, home)?;
    let search = Search {
        scope: written_scope(survey, home.file, p),
        procedure: p,
        explicit: needs_declaration(survey.facts, home.file),
    };
    Ok(gather_lines(alloc, search, first, &lines)?)
}

/// The variables of all procedures, numbered from a number.
pub fn project_locals(
    alloc: Global,
    survey: Survey<'_>,
    first: u32,
    homes: &[Home<'_>],
) -> Result<Vec<Locals>, Mem>
    requires { IsSurvey survey }
    ensures { IfOk result (λ v. map locals_shown v.items ≡ locals_from (declared_in survey.entry.context) 0 first (map home_of homes.now)) }
{
    let mut all = Vec::new(alloc);
    let mut p = 0;
    let mut next = first;
    for home in homes {
        let locals = locals_of(alloc, survey, ProcId(p), next, home)?;
        next = sum(next, locals.variables.len())?;
        all.push(locals)?;
        p = sum(p, 1)?;
    }
    Ok(all)
}
