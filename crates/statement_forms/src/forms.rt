//! Each form by itself.
ghost use Rattle.std.specs.Prelude.{◌≡◌, None, IfOk};
ghost use Rattle.vb_tree.specs.Tree.{opaque};
ghost use Rattle.vb_tree.specs.Tree as tree;
ghost use Rattle.vb_tree.specs.View.{exp_of, args_of, form_of};
ghost use Rattle.statement_forms.specs.LineForms.{Fits, FrontIs, counting_form, print_items, print_kept, replacement, assignment, setting, calling, block_if, else_if, words_alone, select_head, case_items, counting, for_each_item, next_end, do_while_head, do_until_head, loop_while_end, loop_until_end, while_line, with_line, jump, error_jump, resumption, redimming, erasing, kept_words, computed_jump, invocation, drawing};
ghost use Rattle.statement_forms.specs.Answer.{Reads, KeptIf, counting_of};

use crate::drawing::drawn_length;
use crate::fronts::{behind_debug, past_word};
use crate::kept::keeps;
use crate::parts;
use crate::printing::{computed, printing};
use crate::words::{error_form, jump_form, next_form, resume_form, words_form};
use form_parts::{PartFail, callee, copied};
use std::alloc::Global;
use up_base::{Mem, Name, Sequence};
use vb_tree::{Arg6, Counting6, Expr6, Form6, Suffix, Token};

/// `Debug.Print` and items.
#[tactic(auto, using(crate::proofs::Making::made_fails))]
pub fn print_items(alloc: Global, tokens: &[Token]) -> Result<Form6, PartFail>
    ensures { Reads (Fits print_items tokens.now) result }
{
    match printing(alloc, tokens) {
        Ok(printed) => Ok(Form6::DebugPrint(printed.0, printed.1)),
        Err(e) => Err(e),
    }
}

// The line as its tokens.
fn kept(alloc: Global, tokens: &[Token]) -> Result<Form6, Mem>
    ensures { IfOk result (λ f. form_of f ≡ opaque tokens.now) }
{
    Ok(Form6::Opaque(copied(alloc, tokens)?))
}

// The line as its tokens where a part was read.
fn kept_if<T: Drop>(
    alloc: Global,
    tokens: &[Token],
    read: Result<T, PartFail>,
) -> Result<Form6, PartFail>
    ensures { KeptIf read tokens.now result }
{
    match read {
        Ok(_) => match kept(alloc, tokens) {
            Ok(form) => Ok(form),
            Err(_) => Err(PartFail::Mem),
        },
        Err(e) => Err(e),
    }
}

/// Any other line that begins with `Debug.Print`.
pub fn print_kept(alloc: Global, tokens: &[Token]) -> Result<Form6, PartFail>
    ensures { Reads (Fits print_kept tokens.now) result }
{
    let Some(_) = behind_debug(tokens, b"print") else {
        return Err(PartFail::NotFound);
    };
    Ok(kept(alloc, tokens)?)
}

/// Mid as a statement.
#[tactic(auto, using(crate::proofs::Making::made_fails))]
pub fn replacement(alloc: Global, tokens: &[Token]) -> Result<Form6, PartFail>
    ensures { Reads (Fits replacement tokens.now) result }
{
    kept_if(alloc, tokens, parts::replacement(alloc, tokens))
}

fn assigned(alloc: Global, sides: (Expr6, Expr6)) -> Result<Form6, Mem>
    ensures { IfOk result (λ f. form_of f ≡ tree.assign (exp_of sides.0) (exp_of sides.1)) }
{
    let target = Box::new(alloc, sides.0)?;
    let value = Box::new(alloc, sides.1)?;
    Ok(Form6::Assign(target, value))
}

fn set(alloc: Global, sides: (Expr6, Expr6)) -> Result<Form6, Mem>
    ensures { IfOk result (λ f. form_of f ≡ tree.set (exp_of sides.0) (exp_of sides.1)) }
{
    let target = Box::new(alloc, sides.0)?;
    let value = Box::new(alloc, sides.1)?;
    Ok(Form6::Set(target, value))
}

fn counted(alloc: Global, parts: (Expr6, (Expr6, (Expr6, Option<Expr6>)))) -> Result<Form6, Mem>
    ensures { IfOk result (λ f. form_of f ≡ counting_form (counting_of parts)) }
{
    let counting = Counting6 {
        counter: parts.0,
        start: parts.1.0,
        limit: parts.1.1.0,
        step: parts.1.1.1,
    };
    Ok(Form6::For(Box::new(alloc, counting)?))
}

fn gone_over(alloc: Global, parts: ((Name, Suffix), Expr6)) -> Result<Form6, Mem>
    ensures { IfOk result (λ f. form_of f ≡ tree.for_each parts.0.0 parts.0.1 (exp_of parts.1)) }
{
    let items = Box::new(alloc, parts.1)?;
    Ok(Form6::ForEach(parts.0.0, parts.0.1, items))
}

fn invoked(alloc: Global, parts: (Expr6, Sequence<Arg6>)) -> Result<Form6, Mem>
    ensures { IfOk result (λ f. form_of f ≡ tree.invoke (exp_of parts.0) (args_of parts.1)) }
{
    let callee = Box::new(alloc, parts.0)?;
    Ok(Form6::Invoke(callee, parts.1))
}

/// `[Let] l = e`
#[tactic(auto, using(crate::proofs::Making::made_fails))]
pub fn assignment(alloc: Global, tokens: &[Token]) -> Result<Form6, PartFail>
    ensures { Reads (Fits assignment tokens.now) result }
{
    match parts::sides(alloc, past_word(tokens, b"let")) {
        Ok(sides) => Ok(assigned(alloc, sides)?),
        Err(e) => Err(e),
    }
}

/// `Set l = e`
#[tactic(auto, using(crate::proofs::Making::made_fails))]
pub fn setting(alloc: Global, tokens: &[Token]) -> Result<Form6, PartFail>
    ensures { Reads (Fits setting tokens.now) result }
{
    match parts::setting(alloc, tokens) {
        Ok(sides) => Ok(set(alloc, sides)?),
        Err(e) => Err(e),
    }
}

/// `Call l`
#[tactic(auto, using(crate::proofs::Making::made_fails))]
pub fn calling(alloc: Global, tokens: &[Token]) -> Result<Form6, PartFail>
    ensures { Reads (Fits calling tokens.now) result }
{
    match parts::calling(alloc, tokens) {
        Ok(callee) => Ok(Form6::Call(callee)),
        Err(e) => Err(e),
    }
}

/// `If e Then`
#[tactic(auto, using(crate::proofs::Making::made_fails))]
pub fn block_if(alloc: Global, tokens: &[Token]) -> Result<Form6, PartFail>
    ensures { Reads (Fits block_if tokens.now) result }
{
    match parts::enclosed(alloc, tokens, b"if") {
        Ok(condition) => Ok(Form6::If(condition)),
        Err(e) => Err(e),
    }
}

/// `ElseIf e Then`
#[tactic(auto, using(crate::proofs::Making::made_fails))]
pub fn else_if(alloc: Global, tokens: &[Token]) -> Result<Form6, PartFail>
    ensures { Reads (Fits else_if tokens.now) result }
{
    match parts::enclosed(alloc, tokens, b"elseif") {
        Ok(condition) => Ok(Form6::ElseIf(condition)),
        Err(e) => Err(e),
    }
}

/// A line that is made of words alone.
pub fn words_alone(tokens: &[Token]) -> Result<Form6, PartFail>
    ensures { Reads (Fits words_alone tokens.now) result }
{
    match words_form(tokens) {
        Some(form) => Ok(form),
        None => Err(PartFail::NotFound),
    }
}

/// `Select Case e`
#[tactic(auto, using(crate::proofs::Making::made_fails))]
pub fn select_head(alloc: Global, tokens: &[Token]) -> Result<Form6, PartFail>
    ensures { Reads (Fits select_head tokens.now) result }
{
    match parts::headed_twice(alloc, tokens, b"select", b"case") {
        Ok(value) => Ok(Form6::Select(value)),
        Err(e) => Err(e),
    }
}

/// `Case` and items.
#[tactic(auto, using(crate::proofs::Making::made_fails))]
pub fn case_items(alloc: Global, tokens: &[Token]) -> Result<Form6, PartFail>
    ensures { Reads (Fits case_items tokens.now) result }
{
    match parts::cases(alloc, tokens) {
        Ok(items) => Ok(Form6::Case(items)),
        Err(e) => Err(e),
    }
}

/// `For l = e To e [Step e]`
#[tactic(auto, using(crate::proofs::Making::made_fails))]
pub fn counting(alloc: Global, tokens: &[Token]) -> Result<Form6, PartFail>
    ensures { Reads (Fits counting tokens.now) result }
{
    match parts::counting(alloc, tokens) {
        Ok(parts) => Ok(counted(alloc, parts)?),
        Err(e) => Err(e),
    }
}

/// `For Each n In e`
#[tactic(auto, using(crate::proofs::Making::made_fails))]
pub fn for_each_item(alloc: Global, tokens: &[Token]) -> Result<Form6, PartFail>
    ensures { Reads (Fits for_each_item tokens.now) result }
{
    match parts::for_each(alloc, tokens) {
        Ok(parts) => Ok(gone_over(alloc, parts)?),
        Err(e) => Err(e),
    }
}

/// `Next`, with one name or without.
pub fn next_end(alloc: Global, tokens: &[Token]) -> Result<Form6, PartFail>
    ensures { Reads (Fits next_end tokens.now) result }
{
    match next_form(alloc, tokens)? {
        Some(form) => Ok(form),
        None => Err(PartFail::NotFound),
    }
}

/// `Do While e`
#[tactic(auto, using(crate::proofs::Making::made_fails))]
pub fn do_while_head(alloc: Global, tokens: &[Token]) -> Result<Form6, PartFail>
    ensures { Reads (Fits do_while_head tokens.now) result }
{
    match parts::headed_twice(alloc, tokens, b"do", b"while") {
        Ok(condition) => Ok(Form6::DoWhile(condition)),
        Err(e) => Err(e),
    }
}

/// `Do Until e`
#[tactic(auto, using(crate::proofs::Making::made_fails))]
pub fn do_until_head(alloc: Global, tokens: &[Token]) -> Result<Form6, PartFail>
    ensures { Reads (Fits do_until_head tokens.now) result }
{
    match parts::headed_twice(alloc, tokens, b"do", b"until") {
        Ok(condition) => Ok(Form6::DoUntil(condition)),
        Err(e) => Err(e),
    }
}

/// `Loop While e`
#[tactic(auto, using(crate::proofs::Making::made_fails))]
pub fn loop_while_end(alloc: Global, tokens: &[Token]) -> Result<Form6, PartFail>
    ensures { Reads (Fits loop_while_end tokens.now) result }
{
    match parts::headed_twice(alloc, tokens, b"loop", b"while") {
        Ok(condition) => Ok(Form6::LoopWhile(condition)),
        Err(e) => Err(e),
    }
}

/// `Loop Until e`
#[tactic(auto, using(crate::proofs::Making::made_fails))]
pub fn loop_until_end(alloc: Global, tokens: &[Token]) -> Result<Form6, PartFail>
    ensures { Reads (Fits loop_until_end tokens.now) result }
{
    match parts::headed_twice(alloc, tokens, b"loop", b"until") {
        Ok(condition) => Ok(Form6::LoopUntil(condition)),
        Err(e) => Err(e),
    }
}

/// `While e`
#[tactic(auto, using(crate::proofs::Making::made_fails))]
pub fn while_line(alloc: Global, tokens: &[Token]) -> Result<Form6, PartFail>
    ensures { Reads (Fits while_line tokens.now) result }
{
    match parts::headed(alloc, tokens, b"while") {
        Ok(condition) => Ok(Form6::While(condition)),
        Err(e) => Err(e),
    }
}

/// `With e`
#[tactic(auto, using(crate::proofs::Making::made_fails))]
pub fn with_line(alloc: Global, tokens: &[Token]) -> Result<Form6, PartFail>
    ensures { Reads (Fits with_line tokens.now) result }
{
    match parts::headed(alloc, tokens, b"with") {
        Ok(object) => Ok(Form6::With(object)),
        Err(e) => Err(e),
    }
}

/// `GoTo` and a label.
pub fn jump(alloc: Global, tokens: &[Token]) -> Result<Form6, PartFail>
    ensures { Reads (Fits jump tokens.now) result }
{
    match jump_form(alloc, tokens)? {
        Some(form) => Ok(form),
        None => Err(PartFail::NotFound),
    }
}

/// `On Error GoTo` and a label, or 0.
pub fn error_jump(alloc: Global, tokens: &[Token]) -> Result<Form6, PartFail>
    ensures { Reads (Fits error_jump tokens.now) result }
{
    match error_form(alloc, tokens)? {
        Some(form) => Ok(form),
        None => Err(PartFail::NotFound),
    }
}

/// `Resume` and a label, or 0.
pub fn resumption(alloc: Global, tokens: &[Token]) -> Result<Form6, PartFail>
    ensures { Reads (Fits resumption tokens.now) result }
{
    match resume_form(alloc, tokens)? {
        Some(form) => Ok(form),
        None => Err(PartFail::NotFound),
    }
}

/// `ReDim [Preserve]` and arrays.
#[tactic(auto, using(crate::proofs::Making::made_fails))]
pub fn redimming(alloc: Global, tokens: &[Token]) -> Result<Form6, PartFail>
    ensures { Reads (Fits redimming tokens.now) result }
{
    match parts::arrays(alloc, tokens) {
        Ok(arrays) => Ok(Form6::ReDim(arrays.0, arrays.1)),
        Err(e) => Err(e),
    }
}

/// `Erase` and an array.
#[tactic(auto, using(crate::proofs::Making::made_fails))]
pub fn erasing(alloc: Global, tokens: &[Token]) -> Result<Form6, PartFail>
    ensures { Reads (Fits erasing tokens.now) result }
{
    match parts::erasing(alloc, tokens) {
        Ok(array) => Ok(Form6::Erase(array)),
        Err(e) => Err(e),
    }
}

/// A line that is kept for its first words.
pub fn kept_words(alloc: Global, tokens: &[Token]) -> Result<Form6, PartFail>
    ensures { Reads (Fits kept_words tokens.now) result }
{
    if !keeps(tokens) {
        return Err(PartFail::NotFound);
    }
    Ok(kept(alloc, tokens)?)
}

/// `On e GoTo` or `GoSub`.
#[tactic(auto, using(crate::proofs::Making::made_fails))]
pub fn computed_jump(alloc: Global, tokens: &[Token]) -> Result<Form6, PartFail>
    ensures { Reads (Fits computed_jump tokens.now) result }
{
    kept_if(alloc, tokens, computed(alloc, tokens))
}

/// A callee and arguments.
#[tactic(auto, using(crate::proofs::Making::made_fails, crate::proofs::Making::args_viewed))]
pub fn invocation(alloc: Global, tokens: &[Token]) -> Result<Form6, PartFail>
    ensures { Reads (Fits invocation tokens.now) result }
{
    match parts::invocation(alloc, tokens) {
        Ok(parts) => Ok(invoked(alloc, parts)?),
        Err(e) => Err(e),
    }
}

// Whether the tokens are a callee, however deep it is.
fn is_callee_front(alloc: Global, tokens: &[Token]) -> Result<bool, Mem>
    ensures { IfOk result (λ b. FrontIs tokens.now b) }
{
    match callee(alloc, tokens) {
        Ok(_) => Ok(true),
        Err(PartFail::TooDeep) => Ok(true),
        Err(PartFail::NotFound) => Ok(false),
        Err(PartFail::Mem) => Err(Mem),
    }
}

/// A line that begins with a target that ends in a member that draws.
pub fn drawing(alloc: Global, tokens: &[Token]) -> Result<Form6, PartFail>
    ensures { Reads (Fits drawing tokens.now) result }
{
    let Some(len) = drawn_length(tokens) else {
        return Err(PartFail::NotFound);
    };
    let (front, _) = tokens.split_at(len);
    let found = is_callee_front(alloc, front)?;
    if !found {
        return Err(PartFail::NotFound);
    }
    Ok(kept(alloc, tokens)?)
}
