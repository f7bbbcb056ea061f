//! The lines of procedures.
ghost use Rattle.std.specs.Prelude.{◌≡◌, ◌++◌, ◌<◌, ◌≤◌, ◌+◌, ◌^◌, map, codes, option_map, IfOk, OnOk};
ghost use Rattle.net_tree.specs.View.{exp_of, exps_of, case_item_of, redim_item_of, line_of};
ghost use Rattle.net_tree.specs.Blocks.{role_of, depth_at, depth_behind};
ghost use Rattle.net_tree.specs.Spelling.{separated, label_text, at_depth};
ghost use Rattle.net_tree.specs.Expressions.{exp_text, arguments_text};
ghost use Rattle.net_tree.specs.Lines.{case_item_text, redim_item_text, step_text, preserve_text, exit_text, line_text, lines_text};

use crate::comments::write_comment;
use crate::expressions::{write_arguments, write_expression, write_sign};
use crate::layout::{begin_line, end_line, write_separator};
use crate::names::write_label;
use net_tree::{NetCase, NetCounting, NetExit, NetExpr, NetLabel, NetLine, NetReDim, NetRole};
use up_base::{Bytes, Mem};

// Writes an expression behind a word.
fn write_headed(out: &mut Bytes, word: &[u8], value: &NetExpr) -> Result<(), Mem>
    ensures { OnOk result (out.new ≡ out.old ++ word.now ++ exp_text (exp_of value.now)) }
{
    out.extend_from_slice(word)?;
    write_expression(out, value)
}

// Writes a condition between a word and Then.
fn write_condition(out: &mut Bytes, word: &[u8], condition: &NetExpr) -> Result<(), Mem>
    ensures { OnOk result (out.new ≡ out.old ++ word.now ++ exp_text (exp_of condition.now) ++ codes " Then") }
{
    out.extend_from_slice(word)?;
    write_expression(out, condition)?;
    out.extend_from_slice(b" Then")
}

// Writes a label behind a word.
fn write_jump(out: &mut Bytes, word: &[u8], label: &NetLabel) -> Result<(), Mem>
    ensures { OnOk result (out.new ≡ out.old ++ word.now ++ label_text label.now) }
{
    out.extend_from_slice(word)?;
    write_label(out, label)
}

fn write_assignment(out: &mut Bytes, target: &NetExpr, value: &NetExpr) -> Result<(), Mem>
    ensures { OnOk result (out.new ≡ out.old ++ exp_text (exp_of target.now) ++ codes " = " ++ exp_text (exp_of value.now)) }
{
    write_expression(out, target)?;
    out.extend_from_slice(b" = ")?;
    write_expression(out, value)
}

fn write_call(out: &mut Bytes, callee: &NetExpr, arguments: &[NetExpr]) -> Result<(), Mem>
    ensures { OnOk result (out.new ≡ out.old ++ exp_text (exp_of callee.now) ++ arguments_text (exps_of arguments.now)) }
{
    write_expression(out, callee)?;
    write_arguments(out, arguments)
}

fn write_case_item(out: &mut Bytes, item: &NetCase) -> Result<(), Mem>
    ensures { OnOk result (out.new ≡ out.old ++ case_item_text (case_item_of item.now)) }
{
    match item {
        NetCase::Value(value) => write_expression(out, value),
        NetCase::Range(lower, upper) => {
            write_expression(out, lower)?;
            out.extend_from_slice(b" To ")?;
            write_expression(out, upper)
        }
        NetCase::Is(operator, value) => {
            out.extend_from_slice(b"Is ")?;
            write_sign(out, *operator)?;
            out.push(b' ')?;
            write_expression(out, value)
        }
    }
}

fn write_case(out: &mut Bytes, items: &[NetCase]) -> Result<(), Mem>
    ensures { OnOk result (out.new ≡ out.old ++ codes "Case " ++ separated (codes ", ") (map case_item_text (map case_item_of items.now))) }
{
    out.extend_from_slice(b"Case ")?;
    for (i, item) in items.iter().enumerate() {
        write_separator(out, i, b", ")?;
        write_case_item(out, item)?;
    }
    Ok(())
}

fn write_step(out: &mut Bytes, step: &Option<NetExpr>) -> Result<(), Mem>
    ensures { OnOk result (out.new ≡ out.old ++ step_text (option_map exp_of step.now)) }
{
    match step {
        None => Ok(()),
        Some(value) => write_headed(out, b" Step ", value),
    }
}

fn write_counting(out: &mut Bytes, counting: &NetCounting) -> Result<(), Mem>
    ensures { OnOk result (out.new ≡ out.old ++ codes "For " ++ exp_text (exp_of counting.now.counter) ++ codes " = "
        ++ exp_text (exp_of counting.now.start) ++ codes " To " ++ exp_text (exp_of counting.now.limit)
        ++ step_text (option_map exp_of counting.now.step)) }
{
    write_headed(out, b"For ", &counting.counter)?;
    write_headed(out, b" = ", &counting.start)?;
    write_headed(out, b" To ", &counting.limit)?;
    write_step(out, &counting.step)
}

fn write_redim_item(out: &mut Bytes, item: &NetReDim) -> Result<(), Mem>
    ensures { OnOk result (out.new ≡ out.old ++ redim_item_text (redim_item_of item.now)) }
{
    write_expression(out, &item.array)?;
    write_arguments(out, &item.bounds)
}

fn write_redim_items(out: &mut Bytes, items: &[NetReDim]) -> Result<(), Mem>
    ensures { OnOk result (out.new ≡ out.old ++ separated (codes ", ") (map redim_item_text (map redim_item_of items.now))) }
{
    for (i, item) in items.iter().enumerate() {
        write_separator(out, i, b", ")?;
        write_redim_item(out, item)?;
    }
    Ok(())
}

fn write_redim(out: &mut Bytes, preserve: bool, items: &[NetReDim]) -> Result<(), Mem>
    ensures { OnOk result (out.new ≡ out.old ++ preserve_text preserve
        ++ separated (codes ", ") (map redim_item_text (map redim_item_of items.now))) }
{
    if preserve {
        out.extend_from_slice(b"ReDim Preserve ")?;
        return write_redim_items(out, items);
    }
    out.extend_from_slice(b"ReDim ")?;
    write_redim_items(out, items)
}

fn write_exit(out: &mut Bytes, what: NetExit) -> Result<(), Mem>
    ensures { OnOk result (out.new ≡ out.old ++ exit_text what) }
{
    match what {
        NetExit::Sub => out.extend_from_slice(b"Exit Sub"),
        NetExit::Function => out.extend_from_slice(b"Exit Function"),
        NetExit::Property => out.extend_from_slice(b"Exit Property"),
        NetExit::For => out.extend_from_slice(b"Exit For"),
        NetExit::Do => out.extend_from_slice(b"Exit Do"),
    }
}

fn write_label_line(out: &mut Bytes, label: &NetLabel) -> Result<(), Mem>
    ensures { OnOk result (out.new ≡ out.old ++ label_text label.now ++ codes ":") }
{
    write_label(out, label)?;
    out.push(b':')
}

// Writes a line without its indentation and its end.
fn write_code(out: &mut Bytes, line: &NetLine) -> Result<(), Mem>
    ensures { OnOk result (out.new ≡ out.old ++ line_text (line_of line.now)) }
{
    match line {
        NetLine::Comment(units) => write_comment(out, units.as_slice()),
        NetLine::Assign(target, value) => write_assignment(out, target, value),
        NetLine::Call(callee, arguments) => write_call(out, callee, arguments.as_slice()),
        NetLine::If(condition) => write_condition(out, b"If ", condition),
        NetLine::ElseIf(condition) => write_condition(out, b"ElseIf ", condition),
        NetLine::Else => out.extend_from_slice(b"Else"),
        NetLine::EndIf => out.extend_from_slice(b"End If"),
        NetLine::Select(value) => write_headed(out, b"Select Case ", value),
        NetLine::Case(items) => write_case(out, items.as_slice()),
        NetLine::CaseElse => out.extend_from_slice(b"Case Else"),
        NetLine::EndSelect => out.extend_from_slice(b"End Select"),
        NetLine::For(counting) => write_counting(out, counting),
        NetLine::Next => out.extend_from_slice(b"Next"),
        NetLine::Do => out.extend_from_slice(b"Do"),
        NetLine::DoWhile(condition) => write_headed(out, b"Do While ", condition),
        NetLine::DoUntil(condition) => write_headed(out, b"Do Until ", condition),
        NetLine::Loop => out.extend_from_slice(b"Loop"),
        NetLine::LoopWhile(condition) => write_headed(out, b"Loop While ", condition),
        NetLine::LoopUntil(condition) => write_headed(out, b"Loop Until ", condition),
        NetLine::While(condition) => write_headed(out, b"While ", condition),
        NetLine::EndWhile => out.extend_from_slice(b"End While"),
        NetLine::With(object) => write_headed(out, b"With ", object),
        NetLine::EndWith => out.extend_from_slice(b"End With"),
        NetLine::GoTo(label) => write_jump(out, b"GoTo ", label),
        NetLine::Label(label) => write_label_line(out, label),
        NetLine::OnErrorGoTo(label) => write_jump(out, b"On Error GoTo ", label),
        NetLine::OnErrorGoToZero => out.extend_from_slice(b"On Error GoTo 0"),
        NetLine::OnErrorResumeNext => out.extend_from_slice(b"On Error Resume Next"),
        NetLine::Resume => out.extend_from_slice(b"Resume"),
        NetLine::ResumeNext => out.extend_from_slice(b"Resume Next"),
        NetLine::ResumeAt(label) => write_jump(out, b"Resume ", label),
        NetLine::Exit(what) => write_exit(out, *what),
        NetLine::ReDim(preserve, items) => write_redim(out, *preserve, items.as_slice()),
    }
}

// In how many blocks a line stands, of which so many are open before it.
fn depth_at(role: NetRole, depth: usize) -> usize
    ensures { result ≡ depth_at role depth }
{
    match role {
        NetRole::Plain => depth,
        NetRole::Opens(_) => depth,
        NetRole::Parts(_) => depth.saturating_sub(1),
        NetRole::Closes(_) => depth.saturating_sub(1),
    }
}

// How many blocks are open behind a line.
fn depth_behind(role: NetRole, depth: usize) -> usize
    requires { depth + 1 < 2 ^ 64 }
    ensures { result ≡ depth_behind role depth }
{
    match role {
        NetRole::Plain => depth,
        NetRole::Opens(_) => depth + 1,
        NetRole::Parts(_) => depth,
        NetRole::Closes(_) => depth.saturating_sub(1),
    }
}

/// Writes a line before which so many blocks are open, and gives how many are behind it.
pub fn write_line_of(out: &mut Bytes, depth: usize, line: &NetLine) -> Result<usize, Mem>
    requires { depth + 1 < 2 ^ 64 }
    ensures text { IfOk result (λ d. out.new ≡ out.old ++ at_depth (depth_at (role_of (line_of line.now)) depth) (line_text (line_of line.now))) }
    ensures depth { IfOk result (λ d. d ≡ depth_behind (role_of (line_of line.now)) depth) }
{
    let role = line.role();
    begin_line(out, depth_at(role, depth))?;
    write_code(out, line)?;
    end_line(out)?;
    Ok(depth_behind(role, depth))
}

/// Writes lines of which the first stands at a nesting depth, if it parts and closes no block.
pub fn write_lines(out: &mut Bytes, depth: usize, lines: &[NetLine]) -> Result<(), Mem>
    requires { depth ≤ 3 }
    ensures { OnOk result (out.new ≡ out.old ++ lines_text depth (map line_of lines.now)) }
{
    let mut at = depth;
    for line in lines {
        at = write_line_of(out, at, line)?;
    }
    Ok(())
}
