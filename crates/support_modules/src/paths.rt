//! The paths in trees, from the left and from the first line on.
ghost use Rattle.std.specs.Prelude.{◌≡◌, ◌++◌, map, option_map, OnOk};
ghost use Rattle.std.specs.List.{flat_map};
ghost use Rattle.net_tree.specs.Tree as net;
ghost use Rattle.net_tree.specs.View.{case_item_of, dim_of, exp_of, exps_of, line_of, member_of, module_of, procedure_of, property_of, redim_item_of, variable_of};
ghost use Rattle.support_modules.specs.Paths.{paths_of_case, paths_of_counting, paths_of_dim, paths_of_exp, paths_of_exps, paths_of_line, paths_of_member, paths_of_module, paths_of_option, paths_of_part, paths_of_procedure, paths_of_redim, shown};

use net_tree::{
    NetCase, NetCounting, NetDim, NetExpr, NetLine, NetMember, NetModule, NetProc, NetProperty,
    NetReDim, NetVariable, Path,
};
use up_base::Mem;

#[cycle(paths)]
fn push_expression<'a>(e: &'a NetExpr, to: &mut Vec<&'a Path>) -> Result<(), Mem>
    ensures { OnOk result (map shown to.new.items ≡ map shown to.old.items ++ paths_of_exp (exp_of e.now)) }
{
    match e {
        NetExpr::Lit(_) => Ok(()),
        NetExpr::Nothing => Ok(()),
        NetExpr::Me => Ok(()),
        NetExpr::Path(names) => Ok(to.push(names)?),
        NetExpr::WithDot(_) => Ok(()),
        NetExpr::Dot(object, _) => Ok(push_expression(object, to)?),
        NetExpr::Call(callee, arguments) => {
            push_expression(callee, to)?;
            push_list(arguments, to)?;
            Ok(())
        }
        NetExpr::Cast(_, operand) => Ok(push_expression(operand, to)?),
        NetExpr::CType(operand, _) => Ok(push_expression(operand, to)?),
        NetExpr::Unary(_, operand) => Ok(push_expression(operand, to)?),
        NetExpr::Binary(_, a, b) => {
            push_expression(a, to)?;
            push_expression(b, to)?;
            Ok(())
        }
        NetExpr::Paren(inner) => Ok(push_expression(inner, to)?),
        NetExpr::NewObject(_, arguments) => Ok(push_list(arguments, to)?),
        NetExpr::NewArray(_, bounds) => Ok(push_list(bounds, to)?),
        NetExpr::TypeOf(operand, _) => Ok(push_expression(operand, to)?),
    }
}

#[cycle(paths)]
fn push_list<'a>(list: &'a [NetExpr], to: &mut Vec<&'a Path>) -> Result<(), Mem>
    ensures { OnOk result (map shown to.new.items ≡ map shown to.old.items ++ paths_of_exps (exps_of list.now)) }
{
    for e in list {
        push_expression(e, to)?;
    }
    Ok(())
}

fn push_option<'a>(e: &'a Option<NetExpr>, to: &mut Vec<&'a Path>) -> Result<(), Mem>
    ensures { OnOk result (map shown to.new.items ≡ map shown to.old.items ++ paths_of_option (option_map exp_of e.now)) }
{
    match e {
        None => Ok(()),
        Some(e) => Ok(push_expression(e, to)?),
    }
}

fn push_two<'a>(a: &'a NetExpr, b: &'a NetExpr, to: &mut Vec<&'a Path>) -> Result<(), Mem>
    ensures { OnOk result (map shown to.new.items ≡ map shown to.old.items ++ (paths_of_exp (exp_of a.now) ++ paths_of_exp (exp_of b.now))) }
{
    push_expression(a, to)?;
    push_expression(b, to)?;
    Ok(())
}

fn push_with_list<'a>(
    e: &'a NetExpr,
    list: &'a [NetExpr],
    to: &mut Vec<&'a Path>,
) -> Result<(), Mem>
    ensures { OnOk result (map shown to.new.items ≡ map shown to.old.items ++ (paths_of_exp (exp_of e.now) ++ paths_of_exps (exps_of list.now))) }
{
    push_expression(e, to)?;
    push_list(list, to)?;
    Ok(())
}

fn push_case<'a>(item: &'a NetCase, to: &mut Vec<&'a Path>) -> Result<(), Mem>
    ensures { OnOk result (map shown to.new.items ≡ map shown to.old.items ++ paths_of_case (case_item_of item.now)) }
{
    match item {
        NetCase::Value(e) => Ok(push_expression(e, to)?),
        NetCase::Range(lower, upper) => Ok(push_two(lower, upper, to)?),
        NetCase::Is(_, e) => Ok(push_expression(e, to)?),
    }
}

fn push_cases<'a>(items: &'a [NetCase], to: &mut Vec<&'a Path>) -> Result<(), Mem>
    ensures { OnOk result (map shown to.new.items ≡ map shown to.old.items ++ flat_map paths_of_case (map case_item_of items.now)) }
{
    for item in items {
        push_case(item, to)?;
    }
    Ok(())
}

fn push_redim<'a>(item: &'a NetReDim, to: &mut Vec<&'a Path>) -> Result<(), Mem>
    ensures { OnOk result (map shown to.new.items ≡ map shown to.old.items ++ paths_of_redim (redim_item_of item.now)) }
{
    Ok(push_with_list(&item.array, &item.bounds, to)?)
}

fn push_redims<'a>(items: &'a [NetReDim], to: &mut Vec<&'a Path>) -> Result<(), Mem>
    ensures { OnOk result (map shown to.new.items ≡ map shown to.old.items ++ flat_map paths_of_redim (map redim_item_of items.now)) }
{
    for item in items {
        push_redim(item, to)?;
    }
    Ok(())
}

fn push_limit<'a>(
    limit: &'a NetExpr,
    step: &'a Option<NetExpr>,
    to: &mut Vec<&'a Path>,
) -> Result<(), Mem>
    ensures { OnOk result (map shown to.new.items ≡ map shown to.old.items ++ (paths_of_exp (exp_of limit.now) ++ paths_of_option (option_map exp_of step.now))) }
{
    push_expression(limit, to)?;
    push_option(step, to)?;
    Ok(())
}

fn push_counting<'a>(counting: &'a NetCounting, to: &mut Vec<&'a Path>) -> Result<(), Mem>
    ensures { OnOk result (map shown to.new.items ≡ map shown to.old.items ++ paths_of_counting (exp_of counting.now.counter) (exp_of counting.now.start) (exp_of counting.now.limit) (option_map exp_of counting.now.step)) }
{
    push_expression(&counting.counter, to)?;
    push_expression(&counting.start, to)?;
    push_limit(&counting.limit, &counting.step, to)?;
    Ok(())
}

fn push_line<'a>(line: &'a NetLine, to: &mut Vec<&'a Path>) -> Result<(), Mem>
    ensures { OnOk result (map shown to.new.items ≡ map shown to.old.items ++ paths_of_line (line_of line.now)) }
{
    match line {
        NetLine::Comment(_) => Ok(()),
        NetLine::Assign(target, value) => Ok(push_two(target, value, to)?),
        NetLine::Call(callee, arguments) => {
            Ok(push_with_list(callee, arguments.as_slice(), to)?)
        }
        NetLine::If(condition) => Ok(push_expression(condition, to)?),
        NetLine::ElseIf(condition) => Ok(push_expression(condition, to)?),
        NetLine::Else => Ok(()),
        NetLine::EndIf => Ok(()),
        NetLine::Select(value) => Ok(push_expression(value, to)?),
        NetLine::Case(items) => Ok(push_cases(items.as_slice(), to)?),
        NetLine::CaseElse => Ok(()),
        NetLine::EndSelect => Ok(()),
        NetLine::For(counting) => Ok(push_counting(counting, to)?),
        NetLine::Next => Ok(()),
        NetLine::Do => Ok(()),
        NetLine::DoWhile(condition) => Ok(push_expression(condition, to)?),
        NetLine::DoUntil(condition) => Ok(push_expression(condition, to)?),
        NetLine::Loop => Ok(()),
        NetLine::LoopWhile(condition) => Ok(push_expression(condition, to)?),
        NetLine::LoopUntil(condition) => Ok(push_expression(condition, to)?),
        NetLine::While(condition) => Ok(push_expression(condition, to)?),
        NetLine::EndWhile => Ok(()),
        NetLine::With(object) => Ok(push_expression(object, to)?),
        NetLine::EndWith => Ok(()),
        NetLine::GoTo(_) => Ok(()),
        NetLine::Label(_) => Ok(()),
        NetLine::OnErrorGoTo(_) => Ok(()),
        NetLine::OnErrorGoToZero => Ok(()),
        NetLine::OnErrorResumeNext => Ok(()),
        NetLine::Resume => Ok(()),
        NetLine::ResumeNext => Ok(()),
        NetLine::ResumeAt(_) => Ok(()),
        NetLine::Exit(_) => Ok(()),
        NetLine::ReDim(_, items) => Ok(push_redims(items.as_slice(), to)?),
    }
}

fn push_lines<'a>(lines: &'a [NetLine], to: &mut Vec<&'a Path>) -> Result<(), Mem>
    ensures { OnOk result (map shown to.new.items ≡ map shown to.old.items ++ flat_map paths_of_line (map line_of lines.now)) }
{
    for line in lines {
        push_line(line, to)?;
    }
    Ok(())
}

fn push_variable<'a>(variable: &'a NetVariable, to: &mut Vec<&'a Path>) -> Result<(), Mem>
    ensures { OnOk result (map shown to.new.items ≡ map shown to.old.items ++ paths_of_option (variable_of variable.now).value) }
{
    match &variable.value {
        None => Ok(()),
        Some(e) => Ok(push_expression(e, to)?),
    }
}

fn push_dim<'a>(dim: &'a NetDim, to: &mut Vec<&'a Path>) -> Result<(), Mem>
    ensures { OnOk result (map shown to.new.items ≡ map shown to.old.items ++ paths_of_dim (dim_of dim.now)) }
{
    match dim {
        NetDim::Local(variable) => Ok(push_variable(variable, to)?),
        NetDim::Static(variable) => Ok(push_variable(variable, to)?),
        NetDim::Const(constant) => Ok(push_expression(&constant.value, to)?),
    }
}

fn push_prologue<'a>(prologue: &'a [NetDim], to: &mut Vec<&'a Path>) -> Result<(), Mem>
    ensures { OnOk result (map shown to.new.items ≡ map shown to.old.items ++ flat_map paths_of_dim (map dim_of prologue.now)) }
{
    for dim in prologue {
        push_dim(dim, to)?;
    }
    Ok(())
}

/// Puts the paths in a procedure behind others.
pub(crate) fn push_procedure<'a>(procedure: &'a NetProc, to: &mut Vec<&'a Path>) -> Result<(), Mem>
    ensures { OnOk result (map shown to.new.items ≡ map shown to.old.items ++ paths_of_procedure (procedure_of procedure.now)) }
{
    push_prologue(&procedure.prologue, to)?;
    push_lines(&procedure.lines, to)?;
    Ok(())
}

fn push_part<'a>(part: &'a Option<Box<NetProc>>, to: &mut Vec<&'a Path>) -> Result<(), Mem>
    ensures { OnOk result (map shown to.new.items ≡ map shown to.old.items ++ paths_of_part (option_map (λ p. procedure_of p.value) part.now)) }
{
    match part {
        None => Ok(()),
        Some(procedure) => Ok(push_procedure(procedure, to)?),
    }
}

fn push_property<'a>(property: &'a NetProperty, to: &mut Vec<&'a Path>) -> Result<(), Mem>
    ensures { OnOk result (map shown to.new.items ≡ map shown to.old.items ++ paths_of_member (net.property (property_of property.now))) }
{
    push_part(&property.get, to)?;
    push_part(&property.set, to)?;
    Ok(())
}

fn push_member<'a>(member: &'a NetMember, to: &mut Vec<&'a Path>) -> Result<(), Mem>
    ensures { OnOk result (map shown to.new.items ≡ map shown to.old.items ++ paths_of_member (member_of member.now)) }
{
    match member {
        NetMember::Comment(_) => Ok(()),
        NetMember::Variable(_, variable) => Ok(push_variable(variable, to)?),
        NetMember::Const(_, constant) => Ok(push_expression(&constant.value, to)?),
        NetMember::Structure(_) => Ok(()),
        NetMember::Property(property) => Ok(push_property(property, to)?),
        NetMember::Proc(procedure) => Ok(push_procedure(procedure, to)?),
    }
}

/// Puts the paths in a module behind others.
pub(crate) fn push_module<'a>(source: &'a NetModule, to: &mut Vec<&'a Path>) -> Result<(), Mem>
    ensures { OnOk result (map shown to.new.items ≡ map shown to.old.items ++ paths_of_module (module_of source.now)) }
{
    for member in source.members.as_slice() {
        push_member(member, to)?;
    }
    Ok(())
}
