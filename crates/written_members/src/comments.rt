//! Comments by their lines, and the comment on a line that breaks rules.
ghost use Rattle.std.specs.Prelude.{◌≡◌, ◌≤◌, ◌++◌, length, nat_le, nat_lt, IfOk, OnOk};
ghost use Rattle.written_trees.specs.Comments.{before, from, past, texts, two_digits, up_to, upgrade_text, upgrade_texts};

use bound_tree::RuleSet;
use std::alloc::Global;
use up_base::{Bytes, Mem, Wide, write_decimal};

/// A comment with the first physical line of its logical line, as UTF-16 units.
pub type Comment = (u32, Wide);

fn is_up_to(comment: &Comment, line: u32) -> bool
    ensures { result ≡ nat_le comment.now.0 line }
{
    comment.0 <= line
}

fn is_before(comment: &Comment, line: u32) -> bool
    ensures { result ≡ nat_lt comment.now.0 line }
{
    comment.0 < line
}

fn count_up_to(comments: &[Comment], line: u32) -> usize
    ensures length { result ≡ length (up_to line comments.now) }
    ensures within { result ≤ length comments.now }
{
    for (i, comment) in comments.iter().enumerate() {
        if !is_up_to(comment, line) {
            return i;
        }
    }
    comments.len()
}

fn count_before(comments: &[Comment], line: u32) -> usize
    ensures length { result ≡ length (before line comments.now) }
    ensures within { result ≤ length comments.now }
{
    for (i, comment) in comments.iter().enumerate() {
        if !is_before(comment, line) {
            return i;
        }
    }
    comments.len()
}

/// The comments up to a line.
#[tactic(auto, using(crate::proofs::CommentCuts::first_up_to))]
pub(crate) fn up_to(comments: &[Comment], line: u32) -> &[Comment]
    ensures { result.now ≡ up_to line comments.now }
{
    &comments[..count_up_to(comments, line)]
}

/// The comments before a line.
#[tactic(auto, using(crate::proofs::CommentCuts::first_before))]
pub(crate) fn before(comments: &[Comment], line: u32) -> &[Comment]
    ensures { result.now ≡ before line comments.now }
{
    &comments[..count_before(comments, line)]
}

/// The comments behind a line.
pub(crate) fn past(comments: &[Comment], line: u32) -> &[Comment]
    ensures { result.now ≡ past line comments.now }
{
    let mut rest = comments;
    while let [comment, others @ ..] = rest {
        if !is_up_to(comment, line) {
            return rest;
        }
        rest = others;
    }
    rest
}

/// The comments from a line on.
pub(crate) fn from(comments: &[Comment], line: u32) -> &[Comment]
    ensures { result.now ≡ from line comments.now }
{
    let mut rest = comments;
    while let [comment, others @ ..] = rest {
        if !is_before(comment, line) {
            return rest;
        }
        rest = others;
    }
    rest
}

/// Copies of the texts of comments.
pub fn texts(alloc: Global, comments: &[Comment]) -> Result<Vec<Wide>, Mem>
    ensures { IfOk result (λ all. all.items ≡ texts comments.now) }
{
    let mut all = Vec::with_capacity(alloc, comments.len())?;
    for comment in comments {
        all.push(Wide::from_slice(alloc, comment.1.as_slice())?)?;
    }
    Ok(all)
}

// Puts ASCII characters behind a text.
fn push_ascii(bytes: &[u8], to: &mut Wide) -> Result<(), Mem>
    ensures { OnOk result (to.new ≡ to.old ++ bytes.now) }
{
    for byte in bytes {
        to.push(u16::from(*byte))?;
    }
    Ok(())
}

// A number in two digits at least.
fn two_digits(alloc: Global, n: u8) -> Result<Bytes, Mem>
    ensures { IfOk result (λ digits. digits ≡ two_digits n) }
{
    let mut digits = Bytes::new(alloc);
    if n < 10 {
        digits.push(48)?;
        write_decimal(&mut digits, u128::from(n))?;
        return Ok(digits);
    }
    write_decimal(&mut digits, u128::from(n))?;
    Ok(digits)
}

// The text that names a rule before a line.
fn upgrade_text(alloc: Global, rule: u8, line: &[u16]) -> Result<Wide, Mem>
    ensures { IfOk result (λ text. text ≡ upgrade_text rule line.now) }
{
    let digits = two_digits(alloc, rule)?;
    let mut text = Wide::new(alloc);
    push_ascii(b"UPGRADE U", &mut text)?;
    push_ascii(digits.as_slice(), &mut text)?;
    push_ascii(b": ", &mut text)?;
    text.extend_from_slice(line)?;
    Ok(text)
}

/// The comment on a line that breaks rules, with the least of them; none where it breaks none.
pub fn upgrade_texts(alloc: Global, rules: RuleSet, line: &[u16]) -> Result<Vec<Wide>, Mem>
    ensures { IfOk result (λ all. all.items ≡ upgrade_texts rules line.now) }
{
    let mut all = Vec::new(alloc);
    match rules.least() {
        None => Ok(all),
        Some(rule) => {
            all.push(upgrade_text(alloc, rule, line)?)?;
            Ok(all)
        }
    }
}
