//! The walk over trees that notes which support functions they use.
ghost use Rattle.std.specs.Prelude.{◌≡◌, map, option_map};
ghost use Rattle.std.specs.List.{fold};
ghost use Rattle.net_tree.specs.Tree as net;
ghost use Rattle.net_tree.specs.View.{exp_of, exps_of, case_item_of, redim_item_of, line_of, variable_of, dim_of, procedure_of, property_of, member_of, module_of};
ghost use Rattle.support_text.specs.Noting.{noted};
ghost use Rattle.support_text.specs.Walk.{walk_exp, walk_exps, walk_option, walk_case, walk_redim, walk_line, walk_dim, walk_procedure, walk_part, walk_member, walk_module};

use crate::used::Used;
use net_tree::{
    NetCase, NetCounting, NetDim, NetExpr, NetLine, NetMember, NetModule, NetProc, NetProperty,
    NetReDim, NetVariable,
};

#[cycle(walk_expression)]
fn walk_expression(used: Used, e: &NetExpr) -> Used
    ensures { result ≡ walk_exp noted used (exp_of e.now) }
{
    match e {
        NetExpr::Lit(_) => used,
        NetExpr::Nothing => used,
        NetExpr::Me => used,
        NetExpr::Path(names) => used.noted(names.as_slice()),
        NetExpr::WithDot(_) => used,
        NetExpr::Dot(object, _) => walk_expression(used, object),
        NetExpr::Call(callee, arguments) => {
            let used = walk_expression(used, callee);
            walk_list(used, arguments)
        }
        NetExpr::Cast(_, operand) => walk_expression(used, operand),
        NetExpr::CType(operand, _) => walk_expression(used, operand),
        NetExpr::Unary(_, operand) => walk_expression(used, operand),
        NetExpr::Binary(_, a, b) => {
            let used = walk_expression(used, a);
            walk_expression(used, b)
        }
        NetExpr::Paren(inner) => walk_expression(used, inner),
        NetExpr::NewObject(_, arguments) => walk_list(used, arguments),
        NetExpr::NewArray(_, bounds) => walk_list(used, bounds),
        NetExpr::TypeOf(operand, _) => walk_expression(used, operand),
    }
}

#[cycle(walk_expression)]
fn walk_list(mut used: Used, list: &[NetExpr]) -> Used
    ensures { result ≡ walk_exps noted used (exps_of list.now) }
{
    for e in list {
        used = walk_expression(used, e);
    }
    used
}

fn walk_option(used: Used, e: &Option<NetExpr>) -> Used
    ensures { result ≡ walk_option noted used (option_map exp_of e.now) }
{
    match e {
        None => used,
        Some(e) => walk_expression(used, e),
    }
}

fn walk_case(used: Used, item: &NetCase) -> Used
    ensures { result ≡ walk_case noted used (case_item_of item.now) }
{
    match item {
        NetCase::Value(e) => walk_expression(used, e),
        NetCase::Range(lower, upper) => {
            let used = walk_expression(used, lower);
            walk_expression(used, upper)
        }
        NetCase::Is(_, e) => walk_expression(used, e),
    }
}

fn walk_cases(mut used: Used, items: &[NetCase]) -> Used
    ensures { result ≡ fold (walk_case noted) used (map case_item_of items.now) }
{
    for item in items {
        used = walk_case(used, item);
    }
    used
}

fn walk_redim(used: Used, item: &NetReDim) -> Used
    ensures { result ≡ walk_redim noted used (redim_item_of item.now) }
{
    let used = walk_expression(used, &item.array);
    walk_list(used, &item.bounds)
}

fn walk_redims(mut used: Used, items: &[NetReDim]) -> Used
    ensures { result ≡ fold (walk_redim noted) used (map redim_item_of items.now) }
{
    for item in items {
        used = walk_redim(used, item);
    }
    used
}

fn walk_counting(used: Used, counting: &NetCounting) -> Used
    ensures { result ≡ walk_option noted (walk_exp noted (walk_exp noted (walk_exp noted used (exp_of counting.now.counter)) (exp_of counting.now.start)) (exp_of counting.now.limit)) (option_map exp_of counting.now.step) }
{
    let used = walk_expression(used, &counting.counter);
    let used = walk_expression(used, &counting.start);
    let used = walk_expression(used, &counting.limit);
    walk_option(used, &counting.step)
}

fn walk_assignment(used: Used, target: &NetExpr, value: &NetExpr) -> Used
    ensures { result ≡ walk_exp noted (walk_exp noted used (exp_of target.now)) (exp_of value.now) }
{
    let used = walk_expression(used, target);
    walk_expression(used, value)
}

fn walk_call(used: Used, callee: &NetExpr, arguments: &[NetExpr]) -> Used
    ensures { result ≡ walk_exps noted (walk_exp noted used (exp_of callee.now)) (exps_of arguments.now) }
{
    let used = walk_expression(used, callee);
    walk_list(used, arguments)
}

fn walk_line(used: Used, line: &NetLine) -> Used
    ensures { result ≡ walk_line noted used (line_of line.now) }
{
    match line {
        NetLine::Comment(_) => used,
        NetLine::Assign(target, value) => walk_assignment(used, target, value),
        NetLine::Call(callee, arguments) => walk_call(used, callee, arguments.as_slice()),
        NetLine::If(condition) => walk_expression(used, condition),
        NetLine::ElseIf(condition) => walk_expression(used, condition),
        NetLine::Else => used,
        NetLine::EndIf => used,
        NetLine::Select(value) => walk_expression(used, value),
        NetLine::Case(items) => walk_cases(used, items.as_slice()),
        NetLine::CaseElse => used,
        NetLine::EndSelect => used,
        NetLine::For(counting) => walk_counting(used, counting),
        NetLine::Next => used,
        NetLine::Do => used,
        NetLine::DoWhile(condition) => walk_expression(used, condition),
        NetLine::DoUntil(condition) => walk_expression(used, condition),
        NetLine::Loop => used,
        NetLine::LoopWhile(condition) => walk_expression(used, condition),
        NetLine::LoopUntil(condition) => walk_expression(used, condition),
        NetLine::While(condition) => walk_expression(used, condition),
        NetLine::EndWhile => used,
        NetLine::With(object) => walk_expression(used, object),
        NetLine::EndWith => used,
        NetLine::GoTo(_) => used,
        NetLine::Label(_) => used,
        NetLine::OnErrorGoTo(_) => used,
        NetLine::OnErrorGoToZero => used,
        NetLine::OnErrorResumeNext => used,
        NetLine::Resume => used,
        NetLine::ResumeNext => used,
        NetLine::ResumeAt(_) => used,
        NetLine::Exit(_) => used,
        NetLine::ReDim(_, items) => walk_redims(used, items.as_slice()),
    }
}

fn walk_lines(mut used: Used, lines: &[NetLine]) -> Used
    ensures { result ≡ fold (walk_line noted) used (map line_of lines.now) }
{
    for line in lines {
        used = walk_line(used, line);
    }
    used
}

fn walk_variable(used: Used, variable: &NetVariable) -> Used
    ensures { result ≡ walk_option noted used (variable_of variable.now).value }
{
    match &variable.value {
        None => used,
        Some(e) => walk_expression(used, e),
    }
}

fn walk_dim(used: Used, dim: &NetDim) -> Used
    ensures { result ≡ walk_dim noted used (dim_of dim.now) }
{
    match dim {
        NetDim::Local(variable) => walk_variable(used, variable),
        NetDim::Static(variable) => walk_variable(used, variable),
        NetDim::Const(constant) => walk_expression(used, &constant.value),
    }
}

fn walk_prologue(mut used: Used, prologue: &[NetDim]) -> Used
    ensures { result ≡ fold (walk_dim noted) used (map dim_of prologue.now) }
{
    for dim in prologue {
        used = walk_dim(used, dim);
    }
    used
}

fn walk_procedure(used: Used, procedure: &NetProc) -> Used
    ensures { result ≡ walk_procedure noted used (procedure_of procedure.now) }
{
    let used = walk_prologue(used, &procedure.prologue);
    walk_lines(used, &procedure.lines)
}

fn walk_part(used: Used, part: &Option<Box<NetProc>>) -> Used
    ensures { result ≡ walk_part noted used (option_map (λ p. procedure_of p.value) part.now) }
{
    match part {
        None => used,
        Some(procedure) => walk_procedure(used, procedure),
    }
}

fn walk_property(used: Used, property: &NetProperty) -> Used
    ensures { result ≡ walk_member noted used (net.property (property_of property.now)) }
{
    let used = walk_part(used, &property.get);
    walk_part(used, &property.set)
}

fn walk_member(used: Used, member: &NetMember) -> Used
    ensures { result ≡ walk_member noted used (member_of member.now) }
{
    match member {
        NetMember::Comment(_) => used,
        NetMember::Variable(_, variable) => walk_variable(used, variable),
        NetMember::Const(_, constant) => walk_expression(used, &constant.value),
        NetMember::Structure(_) => used,
        NetMember::Property(property) => walk_property(used, property),
        NetMember::Proc(procedure) => walk_procedure(used, procedure),
    }
}

fn walk_members(mut used: Used, members: &[NetMember]) -> Used
    ensures { result ≡ fold (walk_member noted) used (map member_of members.now) }
{
    for member in members {
        used = walk_member(used, member);
    }
    used
}

/// The functions that modules use, besides those that were met before.
pub(crate) fn walk_modules(mut used: Used, modules: &[NetModule]) -> Used
    ensures { result ≡ fold (walk_module noted) used (map module_of modules.now) }
{
    for source in modules {
        used = walk_members(used, source.members.as_slice());
    }
    used
}
