//! The declarations at the head of a procedure, and the rules of its code lines.
ghost use Rattle.std.specs.Prelude.{◌≡◌, ◌++◌, [], ◌∷◌, cond, map, suc, IfOk, OnOk};
ghost use Rattle.vb_tree.specs.Blocks.{is_code};
ghost use Rattle.vb_tree.specs.View.{form_of, line_of};
ghost use Rattle.bound_tree.specs.RuleSets.{both};
ghost use Rattle.net_tree.specs.View.{dim_of};
ghost use Rattle.written_trees.specs.Facts.{line_set};
ghost use Rattle.written_trees.specs.Lines.{is_flagged_for};
ghost use Rattle.written_trees.specs.Prologues as rows;
ghost use Rattle.written_trees.specs.Prologues.{declares, dims_from, set_if, statement_dims, statement_set};
ghost use Rattle.written_rows.specs.View.{scope_of};
ghost use Rattle.written_members.specs.Shown.{constant_shown, variable_shown};
ghost use Rattle.written_members.specs.View.{IsSite, code_of, scope_at};

use crate::code_line::Code;
use crate::constants::constant_dim;
use crate::numbers::{next, one_if, sum};
use crate::site::Site;
use crate::statements::{ConstRef, VarRef};
use crate::variables::variable_dim;
use bound_tree::RuleSet;
use net_tree::{NetDim, NetType, NetVariable};
use std::alloc::Global;
use up_base::Mem;
use vb_tree::{CodeLine, Form6};
use written_lines::{counter_name, is_flagged_for};
use written_rows::Scope;

fn push_set_if(test: bool, set: RuleSet, to: &mut Vec<RuleSet>) -> Result<(), Mem>
    ensures { OnOk result (to.new.items ≡ to.old.items ++ set_if test set) }
{
    if !test {
        return Ok(());
    }
    Ok(to.push(set)?)
}

// The rules of the i-th code line of a procedure, which is the statement n.
fn code_set(site: &Site, procedure: u32, n: u32, i: u32) -> RuleSet
    requires { IsSite site.now }
    ensures { result ≡ both (line_set (scope_at site.now).facts procedure i) (statement_set (scope_at site.now).declarations (scope_at site.now).facts (scope_at site.now).file n) }
{
    site.facts.line_set(procedure, i).union(site.rules(n))
}

/// The rules of the code lines among the lines of a procedure, of which the first is the statement `number`.
pub(crate) fn code_sets(
    alloc: Global,
    site: &Site,
    procedure: u32,
    number: u32,
    lines: &[&CodeLine],
) -> Result<Vec<RuleSet>, Mem>
    requires { IsSite site.now }
    ensures { IfOk result (λ sets. sets.items ≡ rows.code_sets (scope_at site.now) procedure number 0 (map (λ l. line_of l.now) lines.now)) }
{
    let mut sets = Vec::new(alloc);
    let mut n = number;
    let mut i = 0;
    for line in lines {
        push_set_if(
            line.form.is_code(),
            code_set(site, procedure, n, i),
            &mut sets,
        )?;
        i = sum(i, one_if(line.form.is_code()))?;
        n = next(n)?;
    }
    Ok(sets)
}

fn declares(form: &Form6) -> bool
    ensures { result ≡ declares (form_of form.now) }
{
    match form {
        Form6::Variables(_, _) => true,
        Form6::Constants(_, _) => true,
        _ => false,
    }
}

fn push_variables(
    alloc: Global,
    scope: &Scope,
    vars: &[VarRef],
    to: &mut Vec<NetDim>,
) -> Result<(), Mem>
    ensures { OnOk result (map dim_of to.new.items ≡ map dim_of to.old.items ++ map (rows.variable_dim (scope_of scope.now)) (map variable_shown vars.now)) }
{
    for v in vars {
        to.push(variable_dim(alloc, scope, v)?)?;
    }
    Ok(())
}

fn push_constants(
    alloc: Global,
    scope: &Scope,
    consts: &[ConstRef],
    to: &mut Vec<NetDim>,
) -> Result<(), Mem>
    ensures { OnOk result (map dim_of to.new.items ≡ map dim_of to.old.items ++ map (rows.constant_dim (scope_of scope.now)) (map constant_shown consts.now)) }
{
    for c in consts {
        to.push(constant_dim(alloc, scope, c)?)?;
    }
    Ok(())
}

// What a statement declares.
fn push_statement(alloc: Global, site: &Site, number: u32, to: &mut Vec<NetDim>) -> Result<(), Mem>
    requires { IsSite site.now }
    ensures { OnOk result (map dim_of to.new.items ≡ map dim_of to.old.items ++ statement_dims (scope_at site.now) number) }
{
    let scope = site.scope();
    push_variables(alloc, &scope, site.variables(number), to)?;
    push_constants(alloc, &scope, site.constants(number), to)?;
    Ok(())
}

fn push_statement_if(
    alloc: Global,
    site: &Site,
    test: bool,
    number: u32,
    to: &mut Vec<NetDim>,
) -> Result<(), Mem>
    requires { IsSite site.now }
    ensures { OnOk result (map dim_of to.new.items ≡ map dim_of to.old.items ++ cond test (statement_dims (scope_at site.now) number) []) }
{
    if !test {
        return Ok(());
    }
    Ok(push_statement(alloc, site, number, to)?)
}

// What declarations among lines declare.
fn push_declared(
    alloc: Global,
    site: &Site,
    number: u32,
    lines: &[&CodeLine],
    to: &mut Vec<NetDim>,
) -> Result<(), Mem>
    requires { IsSite site.now }
    ensures { OnOk result (map dim_of to.new.items ≡ map dim_of to.old.items ++ dims_from (scope_at site.now) declares number (map (λ l. line_of l.now) lines.now)) }
{
    let mut n = number;
    for line in lines {
        push_statement_if(alloc, site, declares(&line.form), n, to)?;
        n = next(n)?;
    }
    Ok(())
}

// The variables of code lines that no line declares.
fn push_used(
    alloc: Global,
    site: &Site,
    number: u32,
    lines: &[&CodeLine],
    to: &mut Vec<NetDim>,
) -> Result<(), Mem>
    requires { IsSite site.now }
    ensures { OnOk result (map dim_of to.new.items ≡ map dim_of to.old.items ++ dims_from (scope_at site.now) is_code number (map (λ l. line_of l.now) lines.now)) }
{
    let mut n = number;
    for line in lines {
        push_statement_if(alloc, site, line.form.is_code(), n, to)?;
        n = next(n)?;
    }
    Ok(())
}

// The counter of the k-th For head that is replaced.
fn counter_dim(alloc: Global, k: u32) -> Result<NetDim, Mem>
    ensures { IfOk result (λ d. dim_of d ≡ rows.counter_dim k) }
{
    let name = counter_name(alloc, k)?;
    Ok(NetDim::Local(NetVariable {
        name,
        ty: NetType::Integer,
        value: None,
    }))
}

fn is_replaced(code: &Code) -> bool
    ensures { result ≡ is_flagged_for (code_of code.now).0 (code_of code.now).1.source.form }
{
    is_flagged_for(code.rules, &code.line.source.form)
}

/// How many heads of For a code line has that are replaced.
pub(crate) fn count_replaced(code: &Code) -> u32
    ensures { result ≡ rows.count_replaced (code_of code.now) }
{
    one_if(is_replaced(code))
}

fn push_counter_if(alloc: Global, test: bool, k: u32, to: &mut Vec<NetDim>) -> Result<(), Mem>
    ensures { OnOk result (map dim_of to.new.items ≡ map dim_of to.old.items ++ cond test (rows.counter_dim (suc k) ∷ []) []) }
{
    if !test {
        return Ok(());
    }
    let k = next(k)?;
    Ok(to.push(counter_dim(alloc, k)?)?)
}

// The counters of code lines.
fn push_counters(alloc: Global, code: &[Code], to: &mut Vec<NetDim>) -> Result<(), Mem>
    ensures { OnOk result (map dim_of to.new.items ≡ map dim_of to.old.items ++ rows.counters_from 0 (map code_of code.now)) }
{
    let mut k = 0;
    for c in code {
        push_counter_if(alloc, is_replaced(c), k, to)?;
        k = sum(k, count_replaced(c))?;
    }
    Ok(())
}

/// The declarations of a procedure, whose lines are numbered from `number`: declared ones in source order, then variables that no
/// line declares in the order of their first use, then the counters of replaced heads.
pub(crate) fn prologue(
    alloc: Global,
    site: &Site,
    number: u32,
    lines: &[&CodeLine],
    code: &[Code],
) -> Result<Vec<NetDim>, Mem>
    requires { IsSite site.now }
    ensures { IfOk result (λ dims. map dim_of dims.items ≡ rows.prologue (scope_at site.now) number (map (λ l. line_of l.now) lines.now) (map code_of code.now)) }
{
    let mut dims = Vec::new(alloc);
    push_declared(alloc, site, number, lines, &mut dims)?;
    push_used(alloc, site, number, lines, &mut dims)?;
    push_counters(alloc, code, &mut dims)?;
    Ok(dims)
}
