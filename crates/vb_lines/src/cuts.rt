//! How a logical line is cut into a label, statements and the code lines of Ifs on one line.
ghost use Rattle.std.specs.Prelude.{◌≡◌, ◌≤◌, IfSome, ◌∷◌, ◌++◌, ◌<◌, ◌||◌, ◌&&◌, not, true, false, List, Bool, [], map, reverse, length, take, drop, OnOk, IfOk, codes};
ghost use Rattle.vb_tree.specs.LogicalLines.{is_word, is_colon, is_access, is_line_number};
ghost use Rattle.vb_lines.specs.Statements.{is_else, is_then, begins_if, begins_colon, ends_or_begins_else, are_colons, ends_statement, statement_end, behind_then, line_if_head, is_in_if, ends, else_cuts, behind_else, begins_jump, jumps, past_jump, first_step, statement_step, cut_statements, begins_label, labels, past_label, is_label_word, line_cuts};
ghost use Rattle.vb_lines.specs.Cuts.{cuts_of};

use crate::words::{is_access, is_colon, is_free, is_line_number, is_word};
use std::alloc::Global;
use up_base::Mem;
use vb_tree::{Suffix, Token, TokenKind};

/// A part of a logical line.
#[derive(Clone, Copy)]
pub(crate) enum Cut<'a> {
    /// A first word or number that is a label where labels stand.
    Label(&'a Token),
    /// A statement, with its tokens.
    Statement(&'a [Token]),
    /// The head of an If on one line, with its tokens up to Then.
    Head(&'a [Token]),
    /// A whole number in place of statements, to which control goes.
    Jump(&'a Token),
    /// The Else of an If on one line.
    Else(&'a Token),
    /// An Else on the line of Ifs that have one already.
    Stray(&'a Token),
    /// The end of an If on one line.
    End,
}

fn is_else(token: &Token) -> bool
    ensures { result ≡ is_else token.now }
{
    is_word(&token.kind, b"else")
}

fn is_then(token: &Token) -> bool
    ensures { result ≡ is_then token.now }
{
    is_word(&token.kind, b"then")
}

fn begins_if(tokens: &[Token]) -> bool
    ensures { result ≡ begins_if tokens.now }
{
    match tokens {
        [first, ..] => is_word(&first.kind, b"if"),
        [] => false,
    }
}

fn are_colons(tokens: &[Token]) -> bool
    ensures { result ≡ are_colons tokens.now }
{
    tokens.iter().all(|t| is_colon(&t.kind))
}

// Whether a token ends the statement before it.
fn ends_statement(in_if: bool, behind: bool, token: &Token) -> bool
    ensures { result ≡ ends_statement in_if behind token.now }
{
    is_colon(&token.kind) || (in_if && !behind && is_else(token))
}

// How many tokens stand before the end of the first statement.
fn statement_end(in_if: bool, tokens: &[Token]) -> usize
    ensures within { result ≤ length tokens.now }
    ensures end { result ≡ statement_end 0 in_if false tokens.now }
{
    let mut at = 0;
    let mut behind = false;
    let mut rest = tokens;
    while let [first, after @ ..] = rest {
        if ends_statement(in_if, behind, first) {
            return at;
        }
        at += 1;
        behind = is_access(&first.kind);
        rest = after;
    }
    at
}

// How many tokens a statement has up to its first Then.
fn behind_then(in_if: bool, tokens: &[Token]) -> Option<usize>
    ensures within { IfSome result (λ n. n ≤ length tokens.now) }
    ensures then { result ≡ behind_then 0 in_if false tokens.now }
{
    let mut at = 0;
    let mut behind = false;
    let mut rest = tokens;
    while let [first, after @ ..] = rest {
        if ends_statement(in_if, behind, first) {
            return None;
        }
        if !behind && is_then(first) {
            return Some(at + 1);
        }
        at += 1;
        behind = is_access(&first.kind);
        rest = after;
    }
    None
}

// How many tokens the head of an If on one line has that begins here.
fn line_if_head(in_if: bool, tokens: &[Token]) -> Option<usize>
    ensures within { IfSome result (λ n. n ≤ length tokens.now) }
    ensures head { result ≡ line_if_head in_if tokens.now }
{
    if !begins_if(tokens) {
        return None;
    }
    let n = behind_then(in_if, tokens)?;
    if are_colons(&tokens[n..]) {
        return None;
    }
    Some(n)
}

// Whether an If on one line is open.
fn is_in_if(ifs: &[bool]) -> bool
    ensures { result ≡ is_in_if (reverse ifs.now) }
{
    !ifs.is_empty()
}

// Ends the Ifs inside of the innermost one that has no Else; the token is its Else.
fn cut_else<'a>(cuts: &mut Vec<Cut<'a>>, ifs: &mut Vec<bool>, token: &'a Token) -> Result<(), Mem>
    ensures cuts { OnOk result (cuts_of cuts.new.items ≡ cuts_of cuts.old.items ++ else_cuts (reverse ifs.old.items) token.now) }
    ensures ifs { OnOk result (reverse ifs.new.items ≡ behind_else (reverse ifs.old.items)) }
{
    while let Some(has_else) = ifs.pop() {
        if !has_else {
            cuts.push(Cut::Else(token))?;
            ifs.push(true)?;
            return Ok(());
        }
        cuts.push(Cut::End)?;
    }
    cuts.push(Cut::Stray(token))?;
    Ok(())
}

// Ends all Ifs on the line.
fn cut_ends(cuts: &mut Vec<Cut<'_>>, ifs: &mut Vec<bool>) -> Result<(), Mem>
    ensures { OnOk result (cuts_of cuts.new.items ≡ cuts_of cuts.old.items ++ ends (reverse ifs.old.items)) }
{
    while let Some(_has_else) = ifs.pop() {
        cuts.push(Cut::End)?;
    }
    Ok(())
}

fn ends_or_begins_else(tokens: &[Token]) -> bool
    ensures { result ≡ ends_or_begins_else tokens.now }
{
    match tokens {
        [first, ..] => is_else(first),
        [] => true,
    }
}

fn begins_jump(tokens: &[Token]) -> bool
    ensures { result ≡ begins_jump tokens.now }
{
    match tokens {
        [first, rest @ ..] => is_line_number(&first.kind) && ends_or_begins_else(rest),
        [] => false,
    }
}

// Cuts off a whole number that stands in place of statements.
fn cut_jump<'a>(cuts: &mut Vec<Cut<'a>>, tokens: &'a [Token]) -> Result<&'a [Token], Mem>
    ensures cuts { OnOk result (cuts_of cuts.new.items ≡ cuts_of cuts.old.items ++ jumps tokens.now) }
    ensures rest { IfOk result (λ rest. rest.now ≡ past_jump tokens.now) }
{
    let [first, rest @ ..] = tokens else {
        return Ok(tokens);
    };
    if begins_jump(tokens) {
        cuts.push(Cut::Jump(first))?;
        return Ok(rest);
    }
    Ok(tokens)
}

// Cuts off a statement, or the head of an If on one line.
fn cut_statement<'a>(
    cuts: &mut Vec<Cut<'a>>,
    ifs: &mut Vec<bool>,
    tokens: &'a [Token],
) -> Result<&'a [Token], Mem>
    ensures cuts { OnOk result (cuts_of cuts.new.items ≡ cuts_of cuts.old.items ++ (statement_step (reverse ifs.old.items) tokens.now (line_if_head (is_in_if (reverse ifs.old.items)) tokens.now)).cuts) }
    ensures ifs { OnOk result (reverse ifs.new.items ≡ (statement_step (reverse ifs.old.items) tokens.now (line_if_head (is_in_if (reverse ifs.old.items)) tokens.now)).ifs) }
    ensures rest { IfOk result (λ rest. rest.now ≡ (statement_step (reverse ifs.old.items) tokens.now (line_if_head (is_in_if (reverse ifs.old.items)) tokens.now)).rest) }
{
    let in_if = is_in_if(ifs);
    let Some(n) = line_if_head(in_if, tokens) else {
        let n = statement_end(in_if, tokens);
        cuts.push(Cut::Statement(&tokens[..n]))?;
        return Ok(&tokens[n..]);
    };
    cuts.push(Cut::Head(&tokens[..n]))?;
    ifs.push(false)?;
    Ok(cut_jump(cuts, &tokens[n..])?)
}

// Cuts off what stands first.
fn cut_first<'a>(
    cuts: &mut Vec<Cut<'a>>,
    ifs: &mut Vec<bool>,
    tokens: &'a [Token],
) -> Result<&'a [Token], Mem>
    ensures cuts { OnOk result (cuts_of cuts.new.items ≡ cuts_of cuts.old.items ++ (first_step (reverse ifs.old.items) tokens.now).cuts) }
    ensures ifs { OnOk result (reverse ifs.new.items ≡ (first_step (reverse ifs.old.items) tokens.now).ifs) }
    ensures rest { IfOk result (λ rest. rest.now ≡ (first_step (reverse ifs.old.items) tokens.now).rest) }
{
    let [first, after @ ..] = tokens else {
        return Ok(tokens);
    };
    if is_colon(&first.kind) {
        return Ok(after);
    }
    if is_in_if(ifs) && is_else(first) {
        cut_else(cuts, ifs, first)?;
        return Ok(cut_jump(cuts, after)?);
    }
    Ok(cut_statement(cuts, ifs, tokens)?)
}

// Cuts all statements.
fn cut_statements<'a>(
    alloc: Global,
    cuts: &mut Vec<Cut<'a>>,
    tokens: &'a [Token],
) -> Result<(), Mem>
    ensures { OnOk result (cuts_of cuts.new.items ≡ cuts_of cuts.old.items ++ cut_statements tokens.now) }
{
    let mut ifs = Vec::new(alloc);
    let mut rest = tokens;
    while !rest.is_empty() {
        rest = cut_first(cuts, &mut ifs, rest)?;
    }
    cut_ends(cuts, &mut ifs)?;
    Ok(())
}

fn begins_colon(tokens: &[Token]) -> bool
    ensures { result ≡ begins_colon tokens.now }
{
    match tokens {
        [first, ..] => is_colon(&first.kind),
        [] => false,
    }
}

// Whether a word can be a label: it isn't reserved, or stands in brackets, and has no suffix.
fn is_label_word(kind: &TokenKind) -> bool
    ensures { result ≡ is_label_word kind.now }
{
    match kind {
        TokenKind::Word(name, Suffix::Absent) => is_free(name),
        TokenKind::Bracketed(_, Suffix::Absent) => true,
        _ => false,
    }
}

fn begins_label(tokens: &[Token]) -> bool
    ensures { result ≡ begins_label tokens.now }
{
    match tokens {
        [first, rest @ ..] => {
            is_line_number(&first.kind) || (is_label_word(&first.kind) && begins_colon(rest))
        }
        [] => false,
    }
}

// Cuts off what is a label where labels stand.
fn cut_label<'a>(cuts: &mut Vec<Cut<'a>>, tokens: &'a [Token]) -> Result<&'a [Token], Mem>
    ensures cuts { OnOk result (cuts_of cuts.new.items ≡ cuts_of cuts.old.items ++ labels tokens.now) }
    ensures rest { IfOk result (λ rest. rest.now ≡ past_label tokens.now) }
{
    let [first, rest @ ..] = tokens else {
        return Ok(tokens);
    };
    if begins_label(tokens) {
        cuts.push(Cut::Label(first))?;
        return Ok(rest);
    }
    Ok(tokens)
}

/// The parts of a logical line in order.
pub(crate) fn line_cuts(alloc: Global, tokens: &[Token]) -> Result<Vec<Cut<'_>>, Mem>
    ensures { IfOk result (λ cuts. cuts_of cuts.items ≡ line_cuts tokens.now) }
{
    let mut cuts = Vec::new(alloc);
    let rest = cut_label(&mut cuts, tokens)?;
    cut_statements(alloc, &mut cuts, rest)?;
    Ok(cuts)
}
