//! The form that is meant.
ghost use Rattle.std.specs.Prelude.{◌≡◌, ℕ, List};
ghost use Rattle.vb_tree.specs.declared.token.Token.{Token};
ghost use Rattle.vb_tree.specs.Tree.{Form};
ghost use Rattle.statement_forms.specs.LineForms.{FirstIn, first_kinds, branch_kinds, loop_kinds, jump_kinds, last_kinds, IsMeant};
ghost use Rattle.statement_forms.specs.Answer.{Reads, first_found, not_found};

use crate::forms;
use form_parts::PartFail;
use std::alloc::Global;
use vb_tree::{Form6, Token};

// The first that finds a form.
fn first_found(
    first: Result<Form6, PartFail>,
    second: Result<Form6, PartFail>,
) -> Result<Form6, PartFail>
    ensures { result ≡ first_found first second }
{
    match first {
        Ok(form) => Ok(form),
        Err(PartFail::NotFound) => second,
        Err(PartFail::TooDeep) => Err(PartFail::TooDeep),
        Err(PartFail::Mem) => Err(PartFail::Mem),
    }
}

fn not_found(read: &Result<Form6, PartFail>) -> bool
    ensures { result ≡ not_found read.now }
{
    matches!(read, Err(PartFail::NotFound))
}

fn first_forms(alloc: Global, tokens: &[Token]) -> Result<Form6, PartFail>
    ensures { Reads (FirstIn first_kinds tokens.now) result }
{
    let last = first_found(forms::setting(alloc, tokens), forms::calling(alloc, tokens));
    let assigned = first_found(forms::assignment(alloc, tokens), last);
    let replaced = first_found(forms::replacement(alloc, tokens), assigned);
    let kept = first_found(forms::print_kept(alloc, tokens), replaced);
    first_found(forms::print_items(alloc, tokens), kept)
}

fn branch_forms(alloc: Global, tokens: &[Token]) -> Result<Form6, PartFail>
    ensures { Reads (FirstIn branch_kinds tokens.now) result }
{
    let last = first_found(
        forms::select_head(alloc, tokens),
        forms::case_items(alloc, tokens),
    );
    let words = first_found(forms::words_alone(tokens), last);
    let parted = first_found(forms::else_if(alloc, tokens), words);
    first_found(forms::block_if(alloc, tokens), parted)
}

fn loop_forms(alloc: Global, tokens: &[Token]) -> Result<Form6, PartFail>
    ensures { Reads (FirstIn loop_kinds tokens.now) result }
{
    let last = first_found(
        forms::while_line(alloc, tokens),
        forms::with_line(alloc, tokens),
    );
    let until_end = first_found(forms::loop_until_end(alloc, tokens), last);
    let while_end = first_found(forms::loop_while_end(alloc, tokens), until_end);
    let until_head = first_found(forms::do_until_head(alloc, tokens), while_end);
    let while_head = first_found(forms::do_while_head(alloc, tokens), until_head);
    let next = first_found(forms::next_end(alloc, tokens), while_head);
    let each = first_found(forms::for_each_item(alloc, tokens), next);
    first_found(forms::counting(alloc, tokens), each)
}

fn jump_forms(alloc: Global, tokens: &[Token]) -> Result<Form6, PartFail>
    ensures { Reads (FirstIn jump_kinds tokens.now) result }
{
    let last = first_found(
        forms::redimming(alloc, tokens),
        forms::erasing(alloc, tokens),
    );
    let resumed = first_found(forms::resumption(alloc, tokens), last);
    let handled = first_found(forms::error_jump(alloc, tokens), resumed);
    first_found(forms::jump(alloc, tokens), handled)
}

fn last_forms(alloc: Global, tokens: &[Token]) -> Result<Form6, PartFail>
    ensures { Reads (FirstIn last_kinds tokens.now) result }
{
    let last = first_found(
        forms::invocation(alloc, tokens),
        forms::drawing(alloc, tokens),
    );
    let computed = first_found(forms::computed_jump(alloc, tokens), last);
    first_found(forms::kept_words(alloc, tokens), computed)
}

/// The form that the tokens of a statement mean.
pub fn statement(alloc: Global, tokens: &[Token]) -> Result<Form6, PartFail>
    ensures { Reads (IsMeant tokens.now) result }
{
    let first = first_forms(alloc, tokens);
    if !not_found(&first) {
        return first;
    }
    let branch = branch_forms(alloc, tokens);
    if !not_found(&branch) {
        return branch;
    }
    let looped = loop_forms(alloc, tokens);
    if !not_found(&looped) {
        return looped;
    }
    let jump = jump_forms(alloc, tokens);
    if !not_found(&jump) {
        return jump;
    }
    last_forms(alloc, tokens)
}

/// A law: a statement means one form at most.
pub fn one_form()
    ensures { (ts : List Token) (f g : Form) (n m : ℕ) → IsMeant ts f n → IsMeant ts g m → (f ≡ g) × (n ≡ m) }
{}
