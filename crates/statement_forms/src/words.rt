//! Forms that hold no expression.
ghost use Rattle.std.specs.Prelude.{◌≡◌, IfOk};
ghost use Rattle.statement_forms.specs.Answer.{form_seen, tail_now};
ghost use Rattle.statement_forms.specs.Fronts.{behind_error, label_in, end_form, exit_form, one_word, two_words, four_words, words_form, is_zero_label, jump_form, error_form, resume_form, named_next, next_form};

use crate::fronts::behind_key;
use form_parts::{is_key, label, name_of};
use std::alloc::Global;
use up_base::Mem;
use vb_tree::{ExitKind, Form6, Label6, Token};

fn end_form(token: &Token) -> Option<Form6>
    ensures { form_seen result ≡ end_form token.now }
{
    if is_key(token, b"if") {
        Some(Form6::EndIf)
    } else if is_key(token, b"select") {
        Some(Form6::EndSelect)
    } else if is_key(token, b"with") {
        Some(Form6::EndWith)
    } else {
        None
    }
}

fn exit_form(token: &Token) -> Option<Form6>
    ensures { form_seen result ≡ exit_form token.now }
{
    if is_key(token, b"sub") {
        Some(Form6::Exit(ExitKind::Sub))
    } else if is_key(token, b"function") {
        Some(Form6::Exit(ExitKind::Function))
    } else if is_key(token, b"property") {
        Some(Form6::Exit(ExitKind::Property))
    } else if is_key(token, b"for") {
        Some(Form6::Exit(ExitKind::For))
    } else if is_key(token, b"do") {
        Some(Form6::Exit(ExitKind::Do))
    } else {
        None
    }
}

fn one_word(token: &Token) -> Option<Form6>
    ensures { form_seen result ≡ one_word token.now }
{
    if is_key(token, b"else") {
        Some(Form6::Else)
    } else if is_key(token, b"do") {
        Some(Form6::Do)
    } else if is_key(token, b"loop") {
        Some(Form6::Loop)
    } else if is_key(token, b"wend") {
        Some(Form6::Wend)
    } else if is_key(token, b"resume") {
        Some(Form6::Resume)
    } else {
        None
    }
}

fn two_words(first: &Token, second: &Token) -> Option<Form6>
    ensures { form_seen result ≡ two_words first.now second.now }
{
    if is_key(first, b"end") {
        end_form(second)
    } else if is_key(first, b"exit") {
        exit_form(second)
    } else if is_key(first, b"case") && is_key(second, b"else") {
        Some(Form6::CaseElse)
    } else if is_key(first, b"resume") && is_key(second, b"next") {
        Some(Form6::ResumeNext)
    } else {
        None
    }
}

fn four_words(first: &Token, second: &Token, third: &Token, fourth: &Token) -> Option<Form6>
    ensures { form_seen result ≡ four_words first.now second.now third.now fourth.now }
{
    if is_key(first, b"on")
        && is_key(second, b"error")
        && is_key(third, b"resume")
        && is_key(fourth, b"next")
    {
        Some(Form6::OnErrorResumeNext)
    } else {
        None
    }
}

/// The form of a line that is made of words alone.
pub fn words_form(tokens: &[Token]) -> Option<Form6>
    ensures { form_seen result ≡ words_form tokens.now }
{
    match tokens {
        [first] => one_word(first),
        [first, second] => two_words(first, second),
        [first, second, third, fourth] => four_words(first, second, third, fourth),
        _ => None,
    }
}

// The label that the tokens are.
fn label_in(alloc: Global, tokens: &[Token]) -> Result<Option<Label6>, Mem>
    ensures { IfOk result (λ found. found ≡ label_in tokens.now) }
{
    match tokens {
        [token] => label(alloc, token),
        _ => Ok(None),
    }
}

// Whether a label is the number 0.
fn is_zero_label(label: &Label6) -> bool
    ensures { result ≡ is_zero_label label.now }
{
    match label {
        Label6::Word(_) => false,
        Label6::Number(value) => *value == 0,
    }
}

/// `GoTo` and a label.
pub fn jump_form(alloc: Global, tokens: &[Token]) -> Result<Option<Form6>, Mem>
    ensures { IfOk result (λ found. form_seen found ≡ jump_form tokens.now) }
{
    let Some(rest) = behind_key(tokens, b"goto") else {
        return Ok(None);
    };
    match label_in(alloc, rest)? {
        Some(label) => Ok(Some(Form6::GoTo(label))),
        None => Ok(None),
    }
}

// What stands behind `On Error GoTo`.
fn behind_error(tokens: &[Token]) -> Option<&[Token]>
    ensures { tail_now result ≡ behind_error tokens.now }
{
    let error = behind_key(tokens, b"on")?;
    let goto = behind_key(error, b"error")?;
    behind_key(goto, b"goto")
}

/// `On Error GoTo` and a label, or 0.
pub fn error_form(alloc: Global, tokens: &[Token]) -> Result<Option<Form6>, Mem>
    ensures { IfOk result (λ found. form_seen found ≡ error_form tokens.now) }
{
    let Some(rest) = behind_error(tokens) else {
        return Ok(None);
    };
    let Some(label) = label_in(alloc, rest)? else {
        return Ok(None);
    };
    if is_zero_label(&label) {
        Ok(Some(Form6::OnErrorGoToZero))
    } else {
        Ok(Some(Form6::OnErrorGoTo(label)))
    }
}

/// `Resume` and a label, or 0.
pub fn resume_form(alloc: Global, tokens: &[Token]) -> Result<Option<Form6>, Mem>
    ensures { IfOk result (λ found. form_seen found ≡ resume_form tokens.now) }
{
    let Some(rest) = behind_key(tokens, b"resume") else {
        return Ok(None);
    };
    let Some(label) = label_in(alloc, rest)? else {
        return Ok(None);
    };
    if is_zero_label(&label) {
        Ok(Some(Form6::Resume))
    } else {
        Ok(Some(Form6::ResumeAt(label)))
    }
}

fn named_next(alloc: Global, tokens: &[Token]) -> Result<Option<Form6>, Mem>
    ensures { IfOk result (λ found. form_seen found ≡ named_next tokens.now) }
{
    match tokens {
        [] => Ok(Some(Form6::Next(None))),
        [token] => match name_of(token) {
            Some((name, suffix)) => Ok(Some(Form6::Next(Some((name.copy(alloc)?, suffix))))),
            None => Ok(None),
        },
        _ => Ok(None),
    }
}

/// `Next`, with its name or without.
pub fn next_form(alloc: Global, tokens: &[Token]) -> Result<Option<Form6>, Mem>
    ensures { IfOk result (λ found. form_seen found ≡ next_form tokens.now) }
{
    let Some(rest) = behind_key(tokens, b"next") else {
        return Ok(None);
    };
    named_next(alloc, rest)
}
