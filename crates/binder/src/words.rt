//! The words of a line that could be variables which no line declares.
ghost use Rattle.std.specs.Prelude.{◌≡◌, ◌++◌, map, OnOk, IfOk};
ghost use Rattle.std.specs.List.{flat_map};
ghost use Rattle.vb_tree.specs.Tree as source;
ghost use Rattle.vb_tree.specs.View.{args_of, exp_of, form_of, given_of};
ghost use Rattle.binder.specs.ImplicitLocals.{line_words, part_words, plain_word, word_if, words_in, words_in_args, words_in_given};
ghost use Rattle.binder.specs.View.{part_of, source_of, word_of};

use crate::parts::{Part, Source, parts_of};
use bound_exprs::{as_qualifier, as_value, with_list};
use expression_words::{Lookup, could_be_variable, is_keyword, spelling_of};
use name_tables::Spelling;
use std::alloc::Global;
use up_base::{Mem, Name};
use vb_tree::{Arg6, Expr6, Form6, Suffix};

/// A word that stands alone, with how it is looked up.
#[derive(Clone, Copy)]
pub struct Word<'a> {
    pub lookup: Lookup,
    pub spelling: Spelling,
    pub name: &'a Name,
    pub suffix: Suffix,
}

// Appends a word that isn't True or one of its like, if it could be a variable.
fn push_if<'a>(
    lookup: Lookup,
    spelling: Spelling,
    name: &'a Name,
    suffix: Suffix,
    to: &mut Vec<Word<'a>>,
) -> Result<(), Mem>
    ensures { OnOk result (map word_of to.new.items ≡ map word_of to.old.items ++ word_if lookup spelling name.now suffix) }
{
    if !could_be_variable(lookup, spelling, name) {
        return Ok(());
    }
    Ok(to.push(Word {
        lookup,
        spelling,
        name,
        suffix,
    })?)
}

fn push_plain<'a>(
    lookup: Lookup,
    name: &'a Name,
    suffix: Suffix,
    to: &mut Vec<Word<'a>>,
) -> Result<(), Mem>
    ensures { OnOk result (map word_of to.new.items ≡ map word_of to.old.items ++ plain_word lookup name.now suffix) }
{
    if is_keyword(name) {
        return Ok(());
    }
    Ok(push_if(lookup, spelling_of(suffix), name, suffix, to)?)
}

// Appends the words of an expression.
#[cycle(words)]
fn push_words<'a>(lookup: Lookup, e: &'a Expr6, to: &mut Vec<Word<'a>>) -> Result<(), Mem>
    ensures { OnOk result (map word_of to.new.items ≡ map word_of to.old.items ++ words_in lookup (exp_of e.now)) }
{
    match e {
        Expr6::Lit(_) => Ok(()),
        Expr6::Word(name, suffix) => Ok(push_plain(lookup, name, *suffix, to)?),
        Expr6::Bracketed(name, suffix) => {
            Ok(push_if(lookup, Spelling::Bracketed, name, *suffix, to)?)
        }
        Expr6::Me => Ok(()),
        Expr6::Member(of, _) => Ok(push_words(as_qualifier(), of, to)?),
        Expr6::WithMember(_) => Ok(()),
        Expr6::WithBang(_) => Ok(()),
        Expr6::Index(of, args) => {
            push_words(with_list(lookup), of, to)?;
            push_args(args, to)?;
            Ok(())
        }
        Expr6::Unary(_, of) => Ok(push_words(as_value(), of, to)?),
        Expr6::Binary(_, x, y) => {
            push_words(as_value(), x, to)?;
            push_words(as_value(), y, to)?;
            Ok(())
        }
        Expr6::Paren(of) => Ok(push_words(as_value(), of, to)?),
        Expr6::New(_) => Ok(()),
        Expr6::Bang(of, _) => Ok(push_words(as_value(), of, to)?),
        Expr6::TypeOf(of, _) => Ok(push_words(as_value(), of, to)?),
        Expr6::AddressOf(_) => Ok(()),
    }
}

#[cycle(words)]
fn push_given<'a>(value: &'a Option<Expr6>, to: &mut Vec<Word<'a>>) -> Result<(), Mem>
    ensures { OnOk result (map word_of to.new.items ≡ map word_of to.old.items ++ words_in_given (given_of value.now)) }
{
    match value {
        Some(e) => Ok(push_words(as_value(), e, to)?),
        None => Ok(()),
    }
}

#[cycle(words)]
fn push_args<'a>(args: &'a [Arg6], to: &mut Vec<Word<'a>>) -> Result<(), Mem>
    ensures { OnOk result (map word_of to.new.items ≡ map word_of to.old.items ++ words_in_args (args_of args.now)) }
{
    for arg in args {
        push_given(&arg.value, to)?;
    }
    Ok(())
}

fn push_invoked<'a>(
    lookup: Lookup,
    callee: &'a Expr6,
    args: &'a [Arg6],
    to: &mut Vec<Word<'a>>,
) -> Result<(), Mem>
    ensures { OnOk result (map word_of to.new.items ≡ map word_of to.old.items ++ words_in lookup (source.index (exp_of callee.now) (args_of args.now))) }
{
    push_words(with_list(lookup), callee, to)?;
    push_args(args, to)?;
    Ok(())
}

fn push_source<'a>(lookup: Lookup, source: Source<'a>, to: &mut Vec<Word<'a>>) -> Result<(), Mem>
    ensures { OnOk result (map word_of to.new.items ≡ map word_of to.old.items ++ words_in lookup (source_of source.entry)) }
{
    match source {
        Source::Whole(e) => Ok(push_words(lookup, e, to)?),
        Source::Invoked(callee, args) => Ok(push_invoked(lookup, callee, args, to)?),
        Source::Word(name, suffix) => Ok(push_plain(lookup, name, suffix, to)?),
    }
}

fn push_part<'a>(part: &Part<'a>, to: &mut Vec<Word<'a>>) -> Result<(), Mem>
    ensures { OnOk result (map word_of to.new.items ≡ map word_of to.old.items ++ part_words (part_of part.now)) }
{
    Ok(push_source(part.task.lookup(), part.source, to)?)
}

fn words_of_parts<'a>(alloc: Global, parts: &[Part<'a>]) -> Result<Vec<Word<'a>>, Mem>
    ensures { IfOk result (λ v. map word_of v.items ≡ flat_map part_words (map part_of parts.now)) }
{
    let mut all = Vec::new(alloc);
    for part in parts {
        push_part(part, &mut all)?;
    }
    Ok(all)
}

/// The words of a line from the left.
pub fn words_of(alloc: Global, form: &Form6) -> Result<Vec<Word<'_>>, Mem>
    ensures { IfOk result (λ v. map word_of v.items ≡ line_words (form_of form.now)) }
{
    let parts = parts_of(alloc, form)?;
    Ok(words_of_parts(alloc, &parts)?)
}
