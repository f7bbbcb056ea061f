//! Lines that are replaced since they break a rule: by a call that tells the rule, and where the line opens, parts or closes
//! a block, by a line that goes on doing so.
ghost use Rattle.std.specs.Prelude.{◌≡◌, IfOk};
ghost use Rattle.vb_tree.specs.View as source;
ghost use Rattle.net_tree.specs.Tree as net;
ghost use Rattle.net_tree.specs.View.{exp_of, exps_of, line_of};
ghost use Rattle.written_trees.specs.Conversions as conversions;
ghost use Rattle.written_trees.specs.Lines as rows;
ghost use Rattle.written_trees.specs.Literals as literals;
ghost use Rattle.written_trees.specs.Names as names;
ghost use Rattle.written_lines.specs.Groups.{flagged_call, flagged_case, flagged_head, flagged_other, flagged_value, head_of, headed};

use crate::blocks::{Head, head_of, headed, plain_line};
use crate::parts::support_line;
use bound_tree::RuleSet;
use net_tree::{NetBin, NetCase, NetCounting, NetExpr, NetLine};
use std::alloc::Global;
use up_base::{Bytes, Mem, Name, Sequence, write_decimal};
use vb_tree::Form6;
use written_rows::{alone, binary, name_of, number, one, support_call};

// The rules that replace a code line.
fn replacing() -> [u8; 14]
    ensures { result ≡ rows.replacing }
{
    [1, 2, 3, 4, 5, 6, 11, 15, 18, 19, 20, 21, 22, 25]
}

/// The least rule that replaces a code line which breaks these rules, and none where its translation stands.
pub(crate) fn replaced_by(rules: RuleSet) -> Option<u8>
    ensures { result ≡ rows.replaced_by rules }
{
    let numbers = replacing();
    for rule in &numbers {
        if rules.has(*rule) {
            return Some(*rule);
        }
    }
    None
}

// A list of the number of a rule.
fn rule_number(alloc: Global, rule: u8) -> Result<Vec<NetExpr>, Mem>
    ensures { IfOk result (λ v. exps_of v.items ≡ conversions.one (literals.number rule)) }
{
    let n = number(u32::from(rule))?;
    Ok(one(alloc, n)?)
}

// What stands for an expression.
fn not_upgraded(alloc: Global, rule: u8) -> Result<NetExpr, Mem>
    ensures { IfOk result (λ e. exp_of e ≡ rows.not_upgraded rule) }
{
    let arguments = rule_number(alloc, rule)?;
    Ok(support_call(alloc, b"NotUpgraded", arguments)?)
}

// What stands for a condition.
fn flagged_condition(alloc: Global, rule: u8) -> Result<NetExpr, Mem>
    ensures { IfOk result (λ e. exp_of e ≡ rows.flagged_condition rule) }
{
    let zero = number(0)?;
    let a = not_upgraded(alloc, rule)?;
    Ok(binary(alloc, NetBin::NotEqual, a, zero)?)
}

/// The name of the counter of the For head with a number, from 1, among those of a procedure that are replaced.
pub fn counter_name(alloc: Global, k: u32) -> Result<Name, Mem>
    ensures { IfOk result (λ name. name ≡ rows.counter_name k) }
{
    let mut name = Bytes::from_slice(alloc, b"_f")?;
    write_decimal(&mut name, u128::from(k))?;
    Ok(name_of(alloc, name.as_slice())?)
}

fn counter(alloc: Global, k: u32) -> Result<NetExpr, Mem>
    ensures { IfOk result (λ e. exp_of e ≡ net.path (names.alone (rows.counter_name k))) }
{
    let name = counter_name(alloc, k)?;
    Ok(NetExpr::Path(alone(alloc, name.as_bytes())?))
}

// The head of a For that is replaced.
fn flagged_for(alloc: Global, rule: u8, k: u32) -> Result<NetLine, Mem>
    ensures { IfOk result (λ l. line_of l ≡ rows.flagged_for rule k) }
{
    let counter = counter(alloc, k)?;
    let start = number(1)?;
    let limit = not_upgraded(alloc, rule)?;
    let counting = NetCounting {
        counter,
        start,
        limit,
        step: None,
    };
    Ok(NetLine::For(Box::new(alloc, counting)?))
}

fn flagged_case(alloc: Global, rule: u8) -> Result<NetLine, Mem>
    ensures { IfOk result (λ l. line_of l ≡ flagged_case rule) }
{
    let value = not_upgraded(alloc, rule)?;
    let mut items = Sequence::new(alloc);
    items.push(NetCase::Value(value))?;
    Ok(NetLine::Case(items))
}

fn flagged_call(alloc: Global, rule: u8) -> Result<NetLine, Mem>
    ensures { IfOk result (λ l. line_of l ≡ flagged_call rule) }
{
    let arguments = rule_number(alloc, rule)?;
    Ok(support_line(alloc, b"NotUpgraded", arguments)?)
}

// What stands for the expression of a line of a block.
fn flagged_value(alloc: Global, rule: u8, head: Head) -> Result<NetExpr, Mem>
    ensures { IfOk result (λ e. exp_of e ≡ flagged_value rule head) }
{
    match head {
        Head::Select => Ok(not_upgraded(alloc, rule)?),
        Head::With => Ok(not_upgraded(alloc, rule)?),
        _ => Ok(flagged_condition(alloc, rule)?),
    }
}

fn flagged_head(alloc: Global, rule: u8, head: Head) -> Result<NetLine, Mem>
    ensures { IfOk result (λ l. line_of l ≡ headed head (flagged_value rule head)) }
{
    let a = flagged_value(alloc, rule, head)?;
    Ok(headed(alloc, head, a)?)
}

// A line that is no line of a block with one expression or without.
fn flagged_other(alloc: Global, rule: u8, k: u32, form: &Form6) -> Result<NetLine, Mem>
    ensures { IfOk result (λ l. line_of l ≡ flagged_other rule k (source.form_of form.now)) }
{
    match form {
        Form6::For(_) => Ok(flagged_for(alloc, rule, k)?),
        Form6::ForEach(_, _, _) => Ok(flagged_for(alloc, rule, k)?),
        Form6::Case(_) => Ok(flagged_case(alloc, rule)?),
        _ => Ok(flagged_call(alloc, rule)?),
    }
}

fn flagged_by_head(alloc: Global, rule: u8, k: u32, form: &Form6) -> Result<NetLine, Mem>
    ensures { IfOk result (λ l. line_of l ≡ flagged_head rule (head_of (source.form_of form.now)) (flagged_other rule k (source.form_of form.now))) }
{
    match head_of(form) {
        Some(head) => Ok(flagged_head(alloc, rule, head)?),
        None => Ok(flagged_other(alloc, rule, k, form)?),
    }
}

/// What is written for a line that a rule replaces; `k` numbers the For heads that are replaced.
#[tactic(auto, using(crate::proofs::Parted::flagged_parted))]
pub(crate) fn flagged_line(alloc: Global, rule: u8, k: u32, form: &Form6) -> Result<NetLine, Mem>
    ensures { IfOk result (λ l. line_of l ≡ rows.flagged_line rule k (source.form_of form.now)) }
{
    match plain_line(form) {
        Some(line) => Ok(line),
        None => Ok(flagged_by_head(alloc, rule, k, form)?),
    }
}

fn is_for(form: &Form6) -> bool
    ensures { result ≡ rows.is_for (source.form_of form.now) }
{
    match form {
        Form6::For(_) => true,
        Form6::ForEach(_, _, _) => true,
        _ => false,
    }
}

/// Whether a line is written as a For with a counter of its own.
pub fn is_flagged_for(rules: RuleSet, form: &Form6) -> bool
    ensures { result ≡ rows.is_flagged_for rules (source.form_of form.now) }
{
    is_for(form) && replaced_by(rules).is_some()
}
