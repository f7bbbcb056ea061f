//! Which lines of procedures can be written.
ghost use Rattle.std.specs.Prelude.{◌≡◌, ◌&&◌, map, option_map};
ghost use Rattle.std.specs.List.{list_all};
ghost use Rattle.net_tree.specs.Expressions.{is_writable_whole};
ghost use Rattle.net_tree.specs.Lines.{is_comparison, is_some_item, is_writable_case, is_writable_line, is_writable_option, is_writable_redim};
ghost use Rattle.net_tree.specs.View.{case_item_of, exp_of, line_of, redim_item_of};

use crate::comments::is_comment;
use crate::expressions::{is_writable_call, is_writable_whole};
use crate::spelling::{is_handler_label, is_label};
use net_tree::{NetBin, NetCase, NetCounting, NetExpr, NetLine, NetReDim};

fn is_comparison(op: NetBin) -> bool
    ensures { result ≡ is_comparison op }
{
    matches!(
        op,
        NetBin::Equal
            | NetBin::NotEqual
            | NetBin::Less
            | NetBin::Greater
            | NetBin::LessEqual
            | NetBin::GreaterEqual
    )
}

fn is_writable_case(item: &NetCase) -> bool
    ensures { result ≡ is_writable_case (case_item_of item.now) }
{
    match item {
        NetCase::Value(e) => is_writable_whole(e),
        NetCase::Range(lower, upper) => is_writable_whole(lower) && is_writable_whole(upper),
        NetCase::Is(op, e) => is_comparison(*op) && is_writable_whole(e),
    }
}

fn are_writable_cases(items: &[NetCase]) -> bool
    ensures { result ≡ list_all is_writable_case (map case_item_of items.now) }
{
    for item in items {
        if !is_writable_case(item) {
            return false;
        }
    }
    true
}

// Whether a Case can have these items.
fn are_items_of_case(items: &[NetCase]) -> bool
    ensures { result ≡ (is_some_item (map case_item_of items.now) && list_all is_writable_case (map case_item_of items.now)) }
{
    !items.is_empty() && are_writable_cases(items)
}

fn is_writable_redim(item: &NetReDim) -> bool
    ensures { result ≡ is_writable_redim (redim_item_of item.now) }
{
    is_writable_call(&item.array, &item.bounds)
}

fn are_writable_redims(items: &[NetReDim]) -> bool
    ensures { result ≡ list_all is_writable_redim (map redim_item_of items.now) }
{
    for item in items {
        if !is_writable_redim(item) {
            return false;
        }
    }
    true
}

// Whether a ReDim can have these items.
fn are_items_of_redim(items: &[NetReDim]) -> bool
    ensures { result ≡ (is_some_item (map redim_item_of items.now) && list_all is_writable_redim (map redim_item_of items.now)) }
{
    !items.is_empty() && are_writable_redims(items)
}

fn is_writable_step(step: &Option<NetExpr>) -> bool
    ensures { result ≡ is_writable_option (option_map exp_of step.now) }
{
    match step {
        None => true,
        Some(e) => is_writable_whole(e),
    }
}

fn is_writable_counting(counting: &NetCounting) -> bool
    ensures { result ≡ (is_writable_whole (exp_of counting.now.counter) && is_writable_whole (exp_of counting.now.start) && is_writable_whole (exp_of counting.now.limit) && is_writable_option (option_map exp_of counting.now.step)) }
{
    is_writable_whole(&counting.counter)
        && is_writable_whole(&counting.start)
        && is_writable_whole(&counting.limit)
        && is_writable_step(&counting.step)
}

/// Whether a line of a procedure can be written.
pub fn is_writable_line(line: &NetLine) -> bool
    ensures { result ≡ is_writable_line (line_of line.now) }
{
    match line {
        NetLine::Comment(units) => is_comment(units.as_slice()),
        NetLine::Assign(target, value) => is_writable_whole(target) && is_writable_whole(value),
        NetLine::Call(callee, arguments) => is_writable_call(callee, arguments.as_slice()),
        NetLine::If(condition) => is_writable_whole(condition),
        NetLine::ElseIf(condition) => is_writable_whole(condition),
        NetLine::Else => true,
        NetLine::EndIf => true,
        NetLine::Select(value) => is_writable_whole(value),
        NetLine::Case(items) => are_items_of_case(items.as_slice()),
        NetLine::CaseElse => true,
        NetLine::EndSelect => true,
        NetLine::For(counting) => is_writable_counting(counting),
        NetLine::Next => true,
        NetLine::Do => true,
        NetLine::DoWhile(condition) => is_writable_whole(condition),
        NetLine::DoUntil(condition) => is_writable_whole(condition),
        NetLine::Loop => true,
        NetLine::LoopWhile(condition) => is_writable_whole(condition),
        NetLine::LoopUntil(condition) => is_writable_whole(condition),
        NetLine::While(condition) => is_writable_whole(condition),
        NetLine::EndWhile => true,
        NetLine::With(object) => is_writable_whole(object),
        NetLine::EndWith => true,
        NetLine::GoTo(label) => is_label(label),
        NetLine::Label(label) => is_label(label),
        NetLine::OnErrorGoTo(label) => is_handler_label(label),
        NetLine::OnErrorGoToZero => true,
        NetLine::OnErrorResumeNext => true,
        NetLine::Resume => true,
        NetLine::ResumeNext => true,
        NetLine::ResumeAt(label) => is_label(label),
        NetLine::Exit(_) => true,
        NetLine::ReDim(_, items) => are_items_of_redim(items.as_slice()),
    }
}
