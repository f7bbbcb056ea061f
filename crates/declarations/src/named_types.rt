//! The types that declarations name: by a suffix, else behind As, else by the first letter.
ghost use Rattle.std.specs.Prelude.{◌≡◌, ◌<◌, map, nat_eq, option_map, IfOk};
ghost use Rattle.std.specs.List.{list_any};
ghost use Rattle.std.specs.Cmp.Lexicographic.{pointwise};
ghost use Rattle.up_base.specs.Names.{lower_case};
ghost use Rattle.vb_tree.specs.BoundView.{type_of};
ghost use Rattle.vb_tree.specs.View.{type_name_of};
ghost use Rattle.expression_words.specs.View.{IsContext, declared_in};
ghost use Rattle.declarations.specs.ModuleFacts as modules;
ghost use Rattle.declarations.specs.ModuleFacts.{facts_in};
ghost use Rattle.declarations.specs.NamedTypes as names;
ghost use Rattle.declarations.specs.NamedTypes.{by_letter, by_name, by_suffix, by_type_name, has_stop, in_array, is_floating, looked_up, of_named, of_new_use, of_use, or_choice, single, suffixed, ty_behind, word_or_found, word_type};
ghost use Rattle.declarations.specs.View.{choice_shown, letter_shown, IsKnown};

use crate::module_facts::{Letter, letter_of};
use crate::places::Known;
use bound_tree::{Named, RuleSet};
use expression_words::Context;
use name_tables::{Site, Use6, found_type};
use std::alloc::Global;
use up_base::{Mem, Name};
use vb_tree::{DefWord, Suffix, Type6, TypeName6};

/// The type that a declaration names, and the rules that it breaks by that.
#[derive(Drop)]
pub struct Choice {
    /// Unknown where a rule is broken.
    pub ty: Type6,
    pub rules: RuleSet,
    /// Whether the type stands behind its module's name.
    pub qualified: bool,
    /// The number of the Def line that gives it.
    pub lettered: Option<u32>,
}

fn chosen(ty: Type6) -> Choice
    ensures { choice_shown result ≡ names.chosen (type_of ty) }
{
    Choice {
        ty,
        rules: RuleSet::new(),
        qualified: false,
        lettered: None,
    }
}

fn broken(rule: u8) -> Choice
    requires { rule < 32 }
    ensures { choice_shown result ≡ names.broken rule }
{
    Choice {
        ty: Type6::Unknown,
        rules: RuleSet::new().with(rule),
        qualified: false,
        lettered: None,
    }
}

/// The type of a suffix.
pub fn choice_by_suffix(suffix: Suffix) -> Option<Choice>
    ensures { option_map choice_shown result ≡ by_suffix suffix }
{
    match suffix {
        Suffix::Absent => None,
        Suffix::Integer => Some(chosen(Type6::Integer)),
        Suffix::Long => Some(chosen(Type6::Long)),
        Suffix::Currency => Some(chosen(Type6::Currency)),
        Suffix::Str => Some(chosen(Type6::Str)),
        Suffix::Single => Some(broken(1)),
        Suffix::Double => Some(broken(1)),
    }
}

fn is_word(name: &Name, word: &[u8]) -> bool
    ensures { result ≡ pointwise nat_eq (lower_case name.now) word.now }
{
    name.lower_bytes() == word
}

fn word_type(name: &Name) -> Option<Type6>
    ensures { option_map type_of result ≡ word_type (lower_case name.now) }
{
    if is_word(name, b"boolean") {
        return Some(Type6::Boolean);
    }
    if is_word(name, b"byte") {
        return Some(Type6::Byte);
    }
    if is_word(name, b"integer") {
        return Some(Type6::Integer);
    }
    if is_word(name, b"long") {
        return Some(Type6::Long);
    }
    if is_word(name, b"currency") {
        return Some(Type6::Currency);
    }
    if is_word(name, b"string") {
        return Some(Type6::Str);
    }
    if is_word(name, b"object") {
        return Some(Type6::Object);
    }
    if is_word(name, b"variant") {
        return Some(Type6::Variant);
    }
    None
}

fn is_floating(name: &Name) -> bool
    ensures { result ≡ is_floating (lower_case name.now) }
{
    is_word(name, b"single") || is_word(name, b"double") || is_word(name, b"date")
}

fn of_named(named: Named) -> Choice
    ensures { choice_shown result ≡ of_named named }
{
    match named {
        Named::Var(_) => broken(3),
        Named::Const(_) => broken(3),
        Named::Proc(_) => broken(3),
        Named::Type(ty) => chosen(Type6::User(ty.0)),
        Named::Enum(_) => chosen(Type6::Long),
    }
}

fn of_use(found: Use6) -> Choice
    ensures { choice_shown result ≡ of_use found }
{
    match found {
        Use6::Local(named) => of_named(named),
        Use6::Own(named) => of_named(named),
        Use6::Foreign(_, named) => of_named(named),
        Use6::Class(class) => chosen(Type6::Class(class.0)),
        Use6::Ambiguous => broken(20),
        _ => broken(3),
    }
}

// As New takes a class alone.
fn of_new_use(found: Use6) -> Choice
    ensures { choice_shown result ≡ of_new_use found }
{
    match found {
        Use6::Class(class) => chosen(Type6::Class(class.0)),
        Use6::Ambiguous => broken(20),
        _ => broken(3),
    }
}

fn has_stop(name: &[u8]) -> bool
    ensures { result ≡ has_stop name.now }
{
    name.iter().any(|letter| *letter == 46)
}

fn looked_up(auto: bool, name: &Name, found: Use6) -> Choice
    ensures { choice_shown result ≡ looked_up auto name.now found }
{
    let choice = if auto {
        of_new_use(found)
    } else {
        of_use(found)
    };
    Choice {
        qualified: has_stop(name.as_bytes()),
        ..choice
    }
}

fn word_or_found(auto: bool, name: &Name, found: Use6) -> Choice
    ensures { choice_shown result ≡ word_or_found auto name.now found (word_type (lower_case name.now)) }
{
    match word_type(name) {
        Some(ty) => { if auto { broken(3) } else { chosen(ty) } }
        None => looked_up(auto, name, found),
    }
}

/// The type that a name stands for in the module of a file.
pub fn choice_by_name(context: Context<'_>, file: u32, auto: bool, name: &Name) -> Choice
    requires { IsContext context }
    ensures { choice_shown result ≡ by_name (declared_in context.entry) file auto name.now }
{
    if is_floating(name) {
        return broken(1);
    }
    let site = Site {
        file,
        procedure: None,
    };
    let found = found_type(context.tables, &context.declared, site, name);
    word_or_found(auto, name, found)
}

fn by_type_name(context: Context<'_>, file: u32, auto: bool, ty: &TypeName6) -> Choice
    requires { IsContext context }
    ensures { choice_shown result ≡ by_type_name (declared_in context.entry) file auto (type_name_of ty.now) }
{
    match ty {
        TypeName6::Named(name) => choice_by_name(context, file, auto, name),
        TypeName6::FixedString(_) => chosen(Type6::Str),
    }
}

fn word_of(word: DefWord) -> Type6
    ensures { type_of result ≡ names.word_of word }
{
    match word {
        DefWord::Boolean => Type6::Boolean,
        DefWord::Byte => Type6::Byte,
        DefWord::Integer => Type6::Integer,
        DefWord::Long => Type6::Long,
        DefWord::Currency => Type6::Currency,
        DefWord::Str => Type6::Str,
        DefWord::Object => Type6::Object,
        DefWord::Variant => Type6::Variant,
        DefWord::Single => Type6::Unknown,
        DefWord::Double => Type6::Unknown,
        DefWord::Date => Type6::Unknown,
    }
}

/// What a name has by its first letter: a Variant where no Def line has it.
pub fn choice_by_letter(letter: Option<Letter>) -> Choice
    ensures { choice_shown result ≡ by_letter (option_map letter_shown letter) }
{
    match letter {
        Some(letter) => Choice {
            ty: word_of(letter.word),
            rules: RuleSet::new(),
            qualified: false,
            lettered: Some(letter.statement),
        },
        None => chosen(Type6::Variant),
    }
}

// The type behind As goes before that of a suffix; a suffix whose type isn't translated makes it unknown.
fn ty_behind(suffix: Type6, ty: Type6) -> Type6
    ensures { type_of result ≡ ty_behind (type_of suffix) (type_of ty) }
{
    match suffix {
        Type6::Unknown => Type6::Unknown,
        _ => ty,
    }
}

fn suffixed(suffix: Option<Choice>, choice: Choice) -> Choice
    ensures { choice_shown result ≡ suffixed (option_map choice_shown suffix) (choice_shown choice) }
{
    match suffix {
        Some(by_suffix) => Choice {
            ty: ty_behind(by_suffix.ty, choice.ty),
            rules: choice.rules.union(by_suffix.rules),
            qualified: choice.qualified,
            lettered: None,
        },
        None => choice,
    }
}

fn or_choice(suffix: Option<Choice>, choice: Choice) -> Choice
    ensures { choice_shown result ≡ or_choice (option_map choice_shown suffix) (choice_shown choice) }
{
    match suffix {
        Some(by_suffix) => by_suffix,
        None => choice,
    }
}

/// The type of a single item of what is declared in the module of a file.
pub(crate) fn single(
    known: Known<'_>,
    file: u32,
    name: &Name,
    suffix: Suffix,
    auto: bool,
    ty: Option<&TypeName6>,
) -> Choice
    requires { IsKnown known }
    ensures { choice_shown result ≡ single (declared_in known.entry.context) file name.now suffix auto (option_map (λ t. type_name_of t.now) ty.entry) }
{
    match ty {
        Some(ty) => {
            let choice = by_type_name(known.context, file, auto, ty);
            suffixed(choice_by_suffix(suffix), choice)
        }
        None => {
            let letter = letter_of(known.facts, file, name.as_bytes());
            or_choice(choice_by_suffix(suffix), choice_by_letter(letter))
        }
    }
}

/// An array of a type, where it is one.
pub(crate) fn in_array(alloc: Global, rank: Option<u8>, ty: Type6) -> Result<Type6, Mem>
    ensures { IfOk result (λ t. type_of t ≡ in_array rank (type_of ty)) }
{
    match rank {
        Some(rank) => Ok(array_of(alloc, rank, ty)?),
        None => Ok(ty),
    }
}

fn array_of(alloc: Global, rank: u8, ty: Type6) -> Result<Type6, Mem>
    ensures { IfOk result (λ t. type_of t ≡ in_array (Some rank) (type_of ty)) }
{
    match ty {
        Type6::Unknown => Ok(Type6::Unknown),
        ty => Ok(Type6::Array(Box::new(alloc, ty)?, rank)),
    }
}
