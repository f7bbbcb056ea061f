//! Reads names with their types, and declarations of them. A reader fails with `NotNet` where no such part stands there,
//! or one that is too large.
ghost use Rattle.std.specs.Prelude.{◌≡◌, ◌<◌, true, false, length, option_map, IfOk, IsErrOf};
ghost use Rattle.net_tree.specs.Tree as tree;
ghost use Rattle.net_tree.specs.Types.{array_of};
ghost use Rattle.net_tree.specs.View.{constant_of, dim_of, field_of, type_name_of, variable_of};
ghost use Rattle.net_exprs.specs.Answers.{Answers};
ghost use Rattle.net_exprs.specs.Fitting.{fits_type};
ghost use Rattle.net_reader.specs.Answers.{AnswersWhole};
ghost use Rattle.net_reader.specs.DeclarationReader.{constant_in, declared_at, dim_at, dim_by, field_at, field_by, value_in, variable_in};
ghost use Rattle.net_reader.specs.FileLines.{units_in};
ghost use Rattle.net_reader.specs.Fits.{fits_constant, fits_dim, fits_field, fits_option, fits_variable};
ghost use Rattle.net_reader.specs.LineReader.{exp_in};
ghost use Rattle.net_reader.specs.Parts.{array_type, declared_of, fits_declared, present_value, public_field, ranked_type, type_behind, value_of};
ghost use Rattle.net_reader.specs.WordView.{word_of};

use crate::characters::{begins_with, behind, behind_word};
use crate::expressions::boxed;
use crate::texts::units;
use crate::words::{Word, keyword_at};
use net_exprs::{PhraseFail, read_name, read_rank, read_type};
use net_tree::{MOST_NESTED, NetConstant, NetDim, NetExpr, NetField, NetType, NetVariable};
use std::alloc::Global;
use up_base::Name;

/// A name with its type.
#[derive(Drop)]
pub(crate) struct Declared {
    pub(crate) name: Name,
    pub(crate) ty: NetType,
}

// The array of an element type. It fails with `NotNet` where it is too many arrays in each other.
#[tactic(auto, using(crate::proofs::Declaring::array_is_too_deep, crate::proofs::Declaring::array_is_held))]
fn array_over(alloc: Global, element: NetType, rank: u8) -> Result<NetType, PhraseFail>
    ensures ty { IfOk result (λ array. type_name_of array ≡ array_of (type_name_of element) rank) }
    ensures misfits { IsErrOf result PhraseFail.NotNet → fits_type (array_of (type_name_of element) rank) ≡ false }
    ensures held { fits_type (type_name_of element) ≡ true → IfOk result (λ array. fits_type (type_name_of array) ≡ true) }
{
    if !element.is_within(MOST_NESTED - 1) {
        return Err(PhraseFail::NotNet);
    }
    Ok(NetType::ArrayOf(Box::new(alloc, element)?, rank))
}

// The type of an array of a rank, from behind its parentheses.
#[tactic(auto, using(crate::proofs::Declaring::ranked_fails, crate::proofs::Declaring::ranked_is_too_deep))]
fn ranked_type(alloc: Global, rank: u8, text: &[u8]) -> Result<(NetType, &[u8]), PhraseFail>
    ensures answers { Answers type_name_of fits_type (ranked_type rank text.now) result }
    ensures shorter { IfOk result (λ read. length read.1.now < length text.now) }
    ensures held { IfOk result (λ read. fits_type (type_name_of read.0) ≡ true) }
{
    match read_type(alloc, behind(4, text)) {
        Ok((element, rest)) => match array_over(alloc, element, rank) {
            Ok(array) => Ok((array, rest)),
            Err(e) => Err(e),
        },
        Err(e) => Err(e),
    }
}

// The same from its parentheses.
#[tactic(auto, using(crate::proofs::Declaring::array_fails))]
fn array_type(alloc: Global, text: &[u8]) -> Result<(NetType, &[u8]), PhraseFail>
    ensures answers { Answers type_name_of fits_type (array_type text.now) result }
    ensures shorter { IfOk result (λ read. length read.1.now < length text.now) }
    ensures held { IfOk result (λ read. fits_type (type_name_of read.0) ≡ true) }
{
    match read_rank(text) {
        Ok((rank, rest)) => ranked_type(alloc, rank, rest),
        Err(e) => Err(e),
    }
}

// The type of what a name is declared as, from behind the name.
fn type_behind(alloc: Global, text: &[u8]) -> Result<(NetType, &[u8]), PhraseFail>
    ensures answers { Answers type_name_of fits_type (type_behind text.now) result }
    ensures shorter { IfOk result (λ read. length read.1.now < length text.now) }
    ensures held { IfOk result (λ read. fits_type (type_name_of read.0) ≡ true) }
{
    if begins_with(b'(', text) {
        return array_type(alloc, text);
    }
    match read_type(alloc, behind(4, text)) {
        Ok((ty, rest)) => Ok((ty, rest)),
        Err(e) => Err(e),
    }
}

/// Reads a name with its type.
#[tactic(auto, using(crate::proofs::Declaring::declared_fails_at_name))]
pub(crate) fn read_declared(alloc: Global, text: &[u8]) -> Result<(Declared, &[u8]), PhraseFail>
    ensures answers { Answers declared_of fits_declared (declared_at text.now) result }
    ensures shorter { IfOk result (λ read. length read.1.now < length text.now) }
    ensures held { IfOk result (λ read. fits_declared (declared_of read.0) ≡ true) }
{
    match read_name(alloc, text) {
        Ok((name, text)) => match type_behind(alloc, text) {
            Ok((ty, rest)) => Ok((Declared { name, ty }, rest)),
            Err(e) => Err(e),
        },
        Err(e) => Err(e),
    }
}

#[tactic(auto, using(crate::proofs::Declaring::value_fails))]
fn present_value(alloc: Global, text: &[u8]) -> Result<Option<Box<NetExpr>>, PhraseFail>
    ensures answers { AnswersWhole value_of fits_option (present_value (exp_in text.now)) result }
    ensures held { IfOk result (λ value. fits_option (value_of value) ≡ true) }
{
    match boxed(alloc, text) {
        Ok(expr) => Ok(Some(expr)),
        Err(e) => Err(e),
    }
}

// The value that a variable begins with.
#[tactic(auto, using(crate::proofs::Declaring::value_is_present))]
fn value_in(alloc: Global, text: &[u8]) -> Result<Option<Box<NetExpr>>, PhraseFail>
    ensures answers { AnswersWhole value_of fits_option (value_in text.now) result }
    ensures held { IfOk result (λ value. fits_option (value_of value) ≡ true) }
{
    match text {
        [] => Ok(None),
        [_, ..] => present_value(alloc, behind(3, text)),
    }
}

/// Reads a variable, and the value that it begins with where one is written.
#[tactic(auto, using(crate::proofs::Declaring::variable_reads, crate::proofs::Declaring::variable_fails_at_name, crate::proofs::Declaring::variable_fails_at_value))]
pub(crate) fn read_variable(alloc: Global, text: &[u8]) -> Result<NetVariable, PhraseFail>
    ensures answers { AnswersWhole variable_of fits_variable (variable_in text.now) result }
    ensures held { IfOk result (λ v. fits_variable (variable_of v) ≡ true) }
{
    match read_declared(alloc, text) {
        Ok((declared, rest)) => match value_in(alloc, rest) {
            Ok(value) => Ok(NetVariable {
                name: declared.name,
                ty: declared.ty,
                value,
            }),
            Err(e) => Err(e),
        },
        Err(e) => Err(e),
    }
}

/// Reads a constant.
#[tactic(auto, using(crate::proofs::Declaring::constant_reads, crate::proofs::Declaring::constant_fails_at_name, crate::proofs::Declaring::constant_fails_at_value))]
pub(crate) fn read_constant(alloc: Global, text: &[u8]) -> Result<NetConstant, PhraseFail>
    ensures answers { AnswersWhole constant_of fits_constant (constant_in text.now) result }
    ensures held { IfOk result (λ c. fits_constant (constant_of c) ≡ true) }
{
    match read_declared(alloc, text) {
        Ok((declared, rest)) => match boxed(alloc, behind(3, rest)) {
            Ok(value) => Ok(NetConstant {
                name: declared.name,
                ty: declared.ty,
                value,
            }),
            Err(e) => Err(e),
        },
        Err(e) => Err(e),
    }
}

#[tactic(auto, using(crate::proofs::Declaring::local_fails))]
fn local_variable(alloc: Global, text: &[u8]) -> Result<NetDim, PhraseFail>
    ensures answers { AnswersWhole dim_of fits_dim (option_map tree.local (variable_in text.now)) result }
    ensures held { IfOk result (λ d. fits_dim (dim_of d) ≡ true) }
{
    match read_variable(alloc, text) {
        Ok(variable) => Ok(NetDim::Local(variable)),
        Err(e) => Err(e),
    }
}

#[tactic(auto, using(crate::proofs::Declaring::static_fails))]
fn static_variable(alloc: Global, text: &[u8]) -> Result<NetDim, PhraseFail>
    ensures answers { AnswersWhole dim_of fits_dim (option_map tree.static_local (variable_in text.now)) result }
    ensures held { IfOk result (λ d. fits_dim (dim_of d) ≡ true) }
{
    match read_variable(alloc, text) {
        Ok(variable) => Ok(NetDim::Static(variable)),
        Err(e) => Err(e),
    }
}

#[tactic(auto, using(crate::proofs::Declaring::local_constant_fails))]
fn local_constant(alloc: Global, text: &[u8]) -> Result<NetDim, PhraseFail>
    ensures answers { AnswersWhole dim_of fits_dim (option_map tree.constant (constant_in text.now)) result }
    ensures held { IfOk result (λ d. fits_dim (dim_of d) ≡ true) }
{
    match read_constant(alloc, text) {
        Ok(constant) => Ok(NetDim::Const(constant)),
        Err(e) => Err(e),
    }
}

fn dim_by(alloc: Global, word: Option<Word>, text: &[u8]) -> Result<NetDim, PhraseFail>
    ensures answers { AnswersWhole dim_of fits_dim (dim_by (option_map word_of word) text.now) result }
    ensures held { IfOk result (λ d. fits_dim (dim_of d) ≡ true) }
{
    match word {
        Some(Word::Dim) => local_variable(alloc, text),
        Some(Word::Static) => static_variable(alloc, text),
        Some(Word::Const) => local_constant(alloc, text),
        _ => Err(PhraseFail::NotNet),
    }
}

/// Reads a declaration at the head of a procedure.
pub(crate) fn read_dim(alloc: Global, text: &[u8]) -> Result<NetDim, PhraseFail>
    ensures answers { AnswersWhole dim_of fits_dim (dim_at text.now) result }
    ensures held { IfOk result (λ d. fits_dim (dim_of d) ≡ true) }
{
    dim_by(alloc, keyword_at(text), behind(1, behind_word(text)))
}

#[tactic(auto, using(crate::proofs::Declaring::comment_fails))]
fn comment(alloc: Global, text: &[u8]) -> Result<NetField, PhraseFail>
    ensures answers { AnswersWhole field_of fits_field (option_map tree.field_comment (units_in text.now)) result }
    ensures held { IfOk result (λ f. fits_field (field_of f) ≡ true) }
{
    match units(alloc, text) {
        Ok(units) => Ok(NetField::Comment(units)),
        Err(e) => Err(e),
    }
}

#[tactic(auto, using(crate::proofs::Declaring::field_fails))]
fn public_field(alloc: Global, text: &[u8]) -> Result<NetField, PhraseFail>
    ensures answers { AnswersWhole field_of fits_field (public_field text.now) result }
    ensures held { IfOk result (λ f. fits_field (field_of f) ≡ true) }
{
    match read_declared(alloc, text) {
        Ok((declared, _)) => Ok(NetField::Field(declared.name, declared.ty)),
        Err(e) => Err(e),
    }
}

fn field_by(alloc: Global, word: Option<Word>, text: &[u8]) -> Result<NetField, PhraseFail>
    ensures answers { AnswersWhole field_of fits_field (field_by (option_map word_of word) text.now) result }
    ensures held { IfOk result (λ f. fits_field (field_of f) ≡ true) }
{
    match word {
        Some(Word::Public) => public_field(alloc, text),
        _ => Err(PhraseFail::NotNet),
    }
}

/// Reads what stands in a structure: a comment, or a name with its type.
pub(crate) fn read_field(alloc: Global, text: &[u8]) -> Result<NetField, PhraseFail>
    ensures answers { AnswersWhole field_of fits_field (field_at text.now) result }
    ensures held { IfOk result (λ f. fits_field (field_of f) ≡ true) }
{
    if begins_with(b'\'', text) {
        return comment(alloc, behind(1, text));
    }
    field_by(alloc, keyword_at(text), behind(1, behind_word(text)))
}
