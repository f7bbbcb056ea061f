//! Code lines by their forms.
ghost use Rattle.std.specs.Prelude.{◌≡◌, IfOk, map, option_map};
ghost use Rattle.vb_tree.specs.View as source;
ghost use Rattle.bound_tree.specs.View.{expr_of, shown_line};
ghost use Rattle.net_tree.specs.Tree as net;
ghost use Rattle.net_tree.specs.View.{exp_of, line_of};
ghost use Rattle.written_trees.specs.Exprs as exprs;
ghost use Rattle.written_trees.specs.Lines as rows;
ghost use Rattle.written_rows.specs.View.{scope_of};
ghost use Rattle.written_lines.specs.Groups.{head_of, headed, headed_line, jump_line, or_line, statement_line};
ghost use Rattle.written_lines.specs.View.{shown_labels};

use crate::blocks::{Head, head_of, headed, plain_line};
use crate::cases::{case_line, first_exp};
use crate::flagged::{flagged_line, replaced_by};
use crate::labels::{jump, net_label};
use crate::parts::{assignment, call_line, no_line};
use crate::printing::print_line;
use crate::puts::store_line;
use crate::resizing::{erase_line, redim_line};
use bound_tree::{BoundExpr, LineRef, RuleSet};
use net_tree::{NetCounting, NetExit, NetExpr, NetLine};
use std::alloc::Global;
use up_base::{Mem, Sequence};
use vb_tree::{ExitKind, Form6, Label6};
use written_exprs::{target_exp, written_exp};
use written_rows::Scope;

// ---- lines by their expressions

// A call as a line; a name alone is called without arguments.
#[tactic(auto, using(net_tree::proofs::Views::exps_hidden))]
fn as_call(alloc: Global, e: NetExpr) -> Result<NetLine, Mem>
    ensures { IfOk result (λ l. line_of l ≡ rows.as_call (exp_of e)) }
{
    match e {
        NetExpr::Call(callee, arguments) => Ok(NetLine::Call(
            callee,
            Sequence::from_vec(arguments),
        )),
        other => Ok(call_line(alloc, other, Vec::new(alloc))?),
    }
}

fn invoke_line(alloc: Global, scope: &Scope, exprs: &[BoundExpr]) -> Result<NetLine, Mem>
    ensures { IfOk result (λ l. line_of l ≡ rows.call_line (scope_of scope.now) (map expr_of exprs.now)) }
{
    match exprs {
        [e, ..] => {
            let a = written_exp(alloc, scope, e)?;
            Ok(as_call(alloc, a)?)
        }
        [] => Ok(no_line(alloc)?),
    }
}

fn assign_line(alloc: Global, scope: &Scope, exprs: &[BoundExpr]) -> Result<NetLine, Mem>
    ensures { IfOk result (λ l. line_of l ≡ rows.assign_line (scope_of scope.now) (map expr_of exprs.now)) }
{
    match exprs {
        [target, value, ..] => Ok(store_line(alloc, scope, target, value)?),
        _ => Ok(no_line(alloc)?),
    }
}

fn set_line(alloc: Global, scope: &Scope, exprs: &[BoundExpr]) -> Result<NetLine, Mem>
    ensures { IfOk result (λ l. line_of l ≡ rows.set_line (scope_of scope.now) (map expr_of exprs.now)) }
{
    match exprs {
        [target, value, ..] => {
            let target = target_exp(alloc, scope, target)?;
            let value = written_exp(alloc, scope, value)?;
            Ok(assignment(alloc, target, value)?)
        }
        _ => Ok(no_line(alloc)?),
    }
}

// The step of a For, where one is written.
fn step_exp(alloc: Global, scope: &Scope, exprs: &[BoundExpr]) -> Result<Option<NetExpr>, Mem>
    ensures { IfOk result (λ e. option_map exp_of e ≡ rows.step_exp (scope_of scope.now) (map expr_of exprs.now)) }
{
    match exprs {
        [e, ..] => Ok(Some(written_exp(alloc, scope, e)?)),
        [] => Ok(None),
    }
}

fn for_head(alloc: Global, counting: NetCounting) -> Result<NetLine, Mem>
    ensures { IfOk result (λ l. line_of l ≡ net.for_head (exp_of counting.counter) (exp_of counting.start) (exp_of counting.limit) (option_map exp_of counting.step)) }
{
    Ok(NetLine::For(Box::new(alloc, counting)?))
}

// A For of which all but the counter are written.
fn for_counter(
    alloc: Global,
    scope: &Scope,
    counter: &BoundExpr,
    start: NetExpr,
    limit: NetExpr,
    step: Option<NetExpr>,
) -> Result<NetLine, Mem>
    ensures { IfOk result (λ l. line_of l ≡ net.for_head (exprs.exp_of (scope_of scope.now) (expr_of counter.now)) (exp_of start) (exp_of limit) (option_map exp_of step)) }
{
    match written_exp(alloc, scope, counter) {
        Ok(counter) => {
            let counting = NetCounting {
                counter,
                start,
                limit,
                step,
            };
            Ok(for_head(alloc, counting)?)
        }
        Err(Mem) => {
            drop(start);
            drop(limit);
            drop(step);
            Err(Mem)
        }
    }
}

// A For of which the limit and the step are written.
fn for_start(
    alloc: Global,
    scope: &Scope,
    counter: &BoundExpr,
    start: &BoundExpr,
    limit: NetExpr,
    step: Option<NetExpr>,
) -> Result<NetLine, Mem>
    ensures { IfOk result (λ l. line_of l ≡ net.for_head (exprs.exp_of (scope_of scope.now) (expr_of counter.now)) (exprs.exp_of (scope_of scope.now) (expr_of start.now)) (exp_of limit) (option_map exp_of step)) }
{
    match written_exp(alloc, scope, start) {
        Ok(start) => Ok(for_counter(alloc, scope, counter, start, limit, step)?),
        Err(Mem) => {
            drop(limit);
            drop(step);
            Err(Mem)
        }
    }
}

// A For of which the step is written.
fn for_limit(
    alloc: Global,
    scope: &Scope,
    counter: &BoundExpr,
    start: &BoundExpr,
    limit: &BoundExpr,
    step: Option<NetExpr>,
) -> Result<NetLine, Mem>
    ensures { IfOk result (λ l. line_of l ≡ net.for_head (exprs.exp_of (scope_of scope.now) (expr_of counter.now)) (exprs.exp_of (scope_of scope.now) (expr_of start.now)) (exprs.exp_of (scope_of scope.now) (expr_of limit.now)) (option_map exp_of step)) }
{
    match written_exp(alloc, scope, limit) {
        Ok(limit) => Ok(for_start(alloc, scope, counter, start, limit, step)?),
        Err(Mem) => {
            drop(step);
            Err(Mem)
        }
    }
}

fn for_line(alloc: Global, scope: &Scope, exprs: &[BoundExpr]) -> Result<NetLine, Mem>
    ensures { IfOk result (λ l. line_of l ≡ rows.for_line (scope_of scope.now) (map expr_of exprs.now)) }
{
    match exprs {
        [counter, start, limit, rest @ ..] => {
            let step = step_exp(alloc, scope, rest)?;
            Ok(for_limit(alloc, scope, counter, start, limit, step)?)
        }
        _ => Ok(no_line(alloc)?),
    }
}

// ---- forms

fn exit_of(kind: ExitKind) -> NetExit
    ensures { result ≡ rows.exit_of kind }
{
    match kind {
        ExitKind::Sub => NetExit::Sub,
        ExitKind::Function => NetExit::Function,
        ExitKind::Property => NetExit::Property,
        ExitKind::For => NetExit::For,
        ExitKind::Do => NetExit::Do,
    }
}

// Jumps and labels, and what has to do with the handling of errors.
fn jump_line(
    alloc: Global,
    labels: &[Option<&Label6>],
    form: &Form6,
) -> Result<Option<NetLine>, Mem>
    ensures { IfOk result (λ l. option_map line_of l ≡ jump_line (shown_labels labels.now) (source.form_of form.now)) }
{
    match form {
        Form6::GoTo(l) => Ok(Some(NetLine::GoTo(jump(alloc, labels, l)?))),
        Form6::Label(l) => Ok(Some(NetLine::Label(net_label(alloc, l)?))),
        Form6::OnErrorGoTo(l) => Ok(Some(NetLine::OnErrorGoTo(jump(alloc, labels, l)?))),
        Form6::OnErrorGoToZero => Ok(Some(NetLine::OnErrorGoToZero)),
        Form6::OnErrorResumeNext => Ok(Some(NetLine::OnErrorResumeNext)),
        Form6::Resume => Ok(Some(NetLine::Resume)),
        Form6::ResumeNext => Ok(Some(NetLine::ResumeNext)),
        Form6::ResumeAt(l) => Ok(Some(NetLine::ResumeAt(jump(alloc, labels, l)?))),
        Form6::Exit(kind) => Ok(Some(NetLine::Exit(exit_of(*kind)))),
        _ => Ok(None),
    }
}

// The statements that are neither jumps nor lines of blocks, but for the items of a Case and the head of a For.
fn statement_line(
    alloc: Global,
    scope: &Scope,
    form: &Form6,
    exprs: &[BoundExpr],
) -> Result<NetLine, Mem>
    ensures { IfOk result (λ l. line_of l ≡ statement_line (scope_of scope.now) (source.form_of form.now) (map expr_of exprs.now)) }
{
    match form {
        Form6::Assign(_, _) => Ok(assign_line(alloc, scope, exprs)?),
        Form6::Set(_, _) => Ok(set_line(alloc, scope, exprs)?),
        Form6::Call(_) => Ok(invoke_line(alloc, scope, exprs)?),
        Form6::Invoke(_, _) => Ok(invoke_line(alloc, scope, exprs)?),
        Form6::DebugPrint(_, ended) => Ok(print_line(alloc, scope, exprs, *ended)?),
        Form6::Case(items) => Ok(case_line(alloc, scope, items.as_slice(), exprs)?),
        Form6::For(_) => Ok(for_line(alloc, scope, exprs)?),
        Form6::ReDim(preserve, items) => Ok(redim_line(
            alloc,
            scope,
            *preserve,
            items.as_slice(),
            exprs,
        )?),
        Form6::Erase(_) => Ok(erase_line(alloc, scope, exprs)?),
        _ => Ok(no_line(alloc)?),
    }
}

fn head_line(alloc: Global, scope: &Scope, head: Head, exprs: &[BoundExpr]) -> Result<NetLine, Mem>
    ensures { IfOk result (λ l. line_of l ≡ headed head (rows.first_exp (scope_of scope.now) (map expr_of exprs.now))) }
{
    let a = first_exp(alloc, scope, exprs)?;
    Ok(headed(alloc, head, a)?)
}

// What is no line of a block with one expression or without.
fn other_line(
    alloc: Global,
    scope: &Scope,
    labels: &[Option<&Label6>],
    form: &Form6,
    exprs: &[BoundExpr],
) -> Result<NetLine, Mem>
    ensures { IfOk result (λ l. line_of l ≡ or_line (jump_line (shown_labels labels.now) (source.form_of form.now)) (statement_line (scope_of scope.now) (source.form_of form.now) (map expr_of exprs.now))) }
{
    match jump_line(alloc, labels, form)? {
        Some(line) => Ok(line),
        None => Ok(statement_line(alloc, scope, form, exprs)?),
    }
}

fn line_by_head(
    alloc: Global,
    scope: &Scope,
    labels: &[Option<&Label6>],
    form: &Form6,
    exprs: &[BoundExpr],
) -> Result<NetLine, Mem>
    ensures { IfOk result (λ l. line_of l ≡ or_line (headed_line (head_of (source.form_of form.now)) (rows.first_exp (scope_of scope.now) (map expr_of exprs.now))) (or_line (jump_line (shown_labels labels.now) (source.form_of form.now)) (statement_line (scope_of scope.now) (source.form_of form.now) (map expr_of exprs.now)))) }
{
    match head_of(form) {
        Some(head) => Ok(head_line(alloc, scope, head, exprs)?),
        None => Ok(other_line(alloc, scope, labels, form, exprs)?),
    }
}

// What is written for a form with its expressions, in a procedure with these labels.
#[tactic(auto, using(crate::proofs::Parted::line_parted))]
fn form_line(
    alloc: Global,
    scope: &Scope,
    labels: &[Option<&Label6>],
    form: &Form6,
    exprs: &[BoundExpr],
) -> Result<NetLine, Mem>
    ensures { IfOk result (λ l. line_of l ≡ rows.line_of (scope_of scope.now) (shown_labels labels.now) (source.form_of form.now) (map expr_of exprs.now)) }
{
    match plain_line(form) {
        Some(line) => Ok(line),
        None => Ok(line_by_head(alloc, scope, labels, form, exprs)?),
    }
}

/// What is written for a code line that breaks these rules, in a procedure with these labels; `k` numbers the For heads that
/// are replaced, from 1.
pub fn written_line(
    alloc: Global,
    scope: &Scope,
    labels: &[Option<&Label6>],
    rules: RuleSet,
    k: u32,
    line: &LineRef,
) -> Result<NetLine, Mem>
    ensures { IfOk result (λ l. line_of l ≡ rows.written_line (scope_of scope.now) (shown_labels labels.now) rules k (shown_line line.now)) }
{
    let form = &line.source.form;
    match replaced_by(rules) {
        Some(rule) => Ok(flagged_line(alloc, rule, k, form)?),
        None => Ok(form_line(alloc, scope, labels, form, line.bound.exprs.as_slice())?),
    }
}
