//! What the Option and Def lines of a module say for all its declarations.
ghost use Rattle.std.specs.Prelude.{◌≡◌, ◌+◌, ◌++◌, length, map, option_map, IfOk, OnOk};
ghost use Rattle.std.specs.List.{list_any};
ghost use Rattle.vb_tree.specs.FlatLines.{member_lines};
ghost use Rattle.vb_tree.specs.View.{form_of, member_of, module_of, project_of};
ghost use Rattle.declarations.specs.ModuleFacts as modules;
ghost use Rattle.declarations.specs.ModuleFacts.{def_in, def_lines, facts_in, is_between, is_explicit_line, is_explicit_member, is_in_range, letter_in, letter_of, member_def, needs_declaration, small, with_def};
ghost use Rattle.declarations.specs.View.{def_of};
ghost use Rattle.declarations.specs.View as view;

use std::alloc::Global;
use up_base::Mem;
use vb_tree::{DefWord, Form6, LetterRange, Member6, Module6, Project6, flat_lines};

/// What a Def line gives the names with some first letters.
#[derive(Clone, Copy)]
pub struct DefLine<'a> {
    pub word: DefWord,
    pub ranges: &'a [LetterRange],
    /// The number of its statement in its module.
    pub statement: u32,
}

/// What a Def line gives a name.
#[derive(Clone, Copy)]
pub struct Letter {
    pub word: DefWord,
    /// The number of its statement in its module.
    pub statement: u32,
}

/// What the lines of a module say.
#[derive(Drop)]
pub struct ModuleFacts<'a> {
    pub file: u32,
    /// Whether each variable has to be declared.
    pub explicit: bool,
    pub defs: Vec<DefLine<'a>>,
}

fn is_explicit_line(form: &Form6) -> bool
    ensures { result ≡ is_explicit_line (form_of form.now) }
{
    match form {
        Form6::OptionExplicit => true,
        _ => false,
    }
}

fn is_explicit_member(member: &Member6) -> bool
    ensures { result ≡ is_explicit_member (member_of member.now) }
{
    match member {
        Member6::Line(line) => is_explicit_line(&line.form),
        _ => false,
    }
}

fn has_explicit(members: &[Member6]) -> bool
    ensures { result ≡ list_any (λ m. is_explicit_member (member_of m)) members.now }
{
    members.iter().any(|m| is_explicit_member(m))
}

#[tactic(auto, using(crate::proofs::Members::any_member))]
fn is_explicit(members: &[Member6]) -> bool
    ensures { result ≡ list_any is_explicit_member (map member_of members.now) }
{
    has_explicit(members)
}

fn def_in(statement: u32, form: &Form6) -> Option<DefLine<'_>>
    ensures { option_map def_of result ≡ def_in statement (form_of form.now) }
{
    match form {
        Form6::DefType(word, ranges) => Some(DefLine {
            word: *word,
            ranges: ranges.as_slice(),
            statement,
        }),
        _ => None,
    }
}

fn member_def(statement: u32, member: &Member6) -> Option<DefLine<'_>>
    ensures { option_map def_of result ≡ member_def statement (member_of member.now) }
{
    match member {
        Member6::Line(line) => def_in(statement, &line.form),
        _ => None,
    }
}

// The sum of two numbers of lines. It wants memory past the last number that there is.
fn sum(a: u32, b: usize) -> Result<u32, Mem>
    ensures { IfOk result (λ n. n ≡ a + b) }
{
    match u32::try_from(b) {
        Ok(b) => match a.checked_add(b) {
            Some(n) => Ok(n),
            None => Err(Mem),
        },
        Err(_) => Err(Mem),
    }
}

// The number behind so many lines, their head and their closing line.
fn behind(statement: u32, lines: usize) -> Result<u32, Mem>
    ensures { IfOk result (λ n. n ≡ statement + (lines + 2)) }
{
    let inside = sum(statement, lines)?;
    Ok(sum(inside, 2)?)
}

// The number of the statement behind a member.
#[tactic(auto, using(crate::proofs::Counts::group_length, crate::proofs::Counts::proc_length))]
fn after(alloc: Global, statement: u32, member: &Member6) -> Result<u32, Mem>
    ensures { IfOk result (λ n. n ≡ statement + length (member_lines (member_of member.now))) }
{
    match member {
        Member6::Line(_) => Ok(sum(statement, 1)?),
        Member6::Group(_, lines, _) => Ok(behind(statement, lines.len())?),
        Member6::Proc(_, body, _) => {
            let lines = flat_lines(alloc, body.as_slice())?;
            Ok(behind(statement, lines.len())?)
        }
    }
}

fn put_def<'a>(def: Option<DefLine<'a>>, to: &mut Vec<DefLine<'a>>) -> Result<(), Mem>
    ensures { OnOk result ((more : _) → map def_of to.new.items ++ more ≡ map def_of to.old.items ++ with_def (option_map def_of def.entry) more) }
{
    match def {
        Some(def) => Ok(to.push(def)?),
        None => Ok(()),
    }
}

fn defs_in(alloc: Global, members: &[Member6]) -> Result<Vec<DefLine<'_>>, Mem>
    ensures { IfOk result (λ v. map def_of v.items ≡ def_lines 0 (map member_of members.now)) }
{
    let mut defs = Vec::new(alloc);
    let mut next = 0;
    for member in members {
        put_def(member_def(next, member), &mut defs)?;
        next = after(alloc, next, member)?;
    }
    Ok(defs)
}

fn facts_in(alloc: Global, module: &Module6) -> Result<ModuleFacts<'_>, Mem>
    ensures { IfOk result (λ f. view.facts_of f ≡ facts_in (module_of «module».now)) }
{
    let members = module.members.as_slice();
    Ok(ModuleFacts {
        file: module.file,
        explicit: is_explicit(members),
        defs: defs_in(alloc, members)?,
    })
}

fn facts_of_modules(alloc: Global, modules: &[Module6]) -> Result<Vec<ModuleFacts<'_>>, Mem>
    ensures { IfOk result (λ v. map view.facts_of v.items ≡ map facts_in (map module_of modules.now)) }
{
    let mut all = Vec::new(alloc);
    for module in modules {
        let facts = facts_in(alloc, module)?;
        all.push(facts)?;
    }
    Ok(all)
}

/// The facts of each module, in order.
pub fn facts_of(alloc: Global, project: &Project6) -> Result<Vec<ModuleFacts<'_>>, Mem>
    ensures { IfOk result (λ v. map view.facts_of v.items ≡ map facts_in (project_of project.now).modules) }
{
    Ok(facts_of_modules(alloc, project.modules.as_slice())?)
}

/// Those of the module of a file.
pub fn facts_at<'a, 'b>(all: &'b [ModuleFacts<'a>], file: u32) -> Option<&'b ModuleFacts<'a>>
    ensures { option_map (λ f. view.facts_of f.now) result ≡ modules.facts_at file (map view.facts_of all.now) }
{
    for facts in all {
        if facts.file == file {
            return Some(facts);
        }
    }
    None
}

/// Whether each variable of the module of a file has to be declared.
pub fn needs_declaration(all: &[ModuleFacts<'_>], file: u32) -> bool
    ensures { result ≡ needs_declaration file (map view.facts_of all.now) }
{
    match facts_at(all, file) {
        Some(facts) => facts.explicit,
        None => false,
    }
}

fn small(letter: u8) -> u8
    ensures { result ≡ small letter }
{
    if 65 <= letter && letter <= 90 {
        letter + 32
    } else {
        letter
    }
}

fn is_between(letter: u8, a: u8, b: u8) -> bool
    ensures { result ≡ is_between letter a b }
{
    (a <= letter && letter <= b) || (b <= letter && letter <= a)
}

fn is_in_range(letter: u8, range: LetterRange) -> bool
    ensures { result ≡ is_in_range letter range }
{
    is_between(small(letter), small(range.from), small(range.to))
}

fn is_in_ranges(letter: u8, ranges: &[LetterRange]) -> bool
    ensures { result ≡ list_any (is_in_range letter) ranges.now }
{
    ranges.iter().any(|r| is_in_range(letter, *r))
}

fn letter_in(letter: u8, defs: &[DefLine<'_>]) -> Option<Letter>
    ensures { option_map view.letter_shown result ≡ letter_in letter (map def_of defs.now) }
{
    for def in defs {
        if is_in_ranges(letter, def.ranges) {
            return Some(Letter {
                word: def.word,
                statement: def.statement,
            });
        }
    }
    None
}

fn letter_at(facts: Option<&ModuleFacts<'_>>, letter: u8) -> Option<Letter>
    ensures { option_map view.letter_shown result ≡ modules.letter_by letter (option_map (λ f. view.facts_of f.now) facts.entry) }
{
    match facts {
        Some(facts) => letter_in(letter, &facts.defs),
        None => None,
    }
}

/// What a name has by its first letter in the module of a file.
pub fn letter_of(all: &[ModuleFacts<'_>], file: u32, name: &[u8]) -> Option<Letter>
    ensures { option_map view.letter_shown result ≡ letter_of name.now file (map view.facts_of all.now) }
{
    match name.first() {
        Some(letter) => letter_at(facts_at(all, file), *letter),
        None => None,
    }
}
