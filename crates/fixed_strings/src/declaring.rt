//! Declarations of fixed strings where none may stand.
ghost use Rattle.std.specs.Prelude.{◌≡◌, ◌&&◌, IfOk, map};
ghost use Rattle.reach_table.specs.Chains.{is_marked};
ghost use Rattle.vb_tree.specs.BoundView.{type_of};
ghost use Rattle.vb_tree.specs.View.{module_of};
ghost use Rattle.bound_tree.specs.View.{declarations_of, variable_of};
ghost use Rattle.fixed_strings.specs.Declaring.{breaks_declared, holds_fixed, is_answer, is_barred};
ghost use Rattle.fixed_strings.specs.Lengths.{is_fixed_string};
ghost use Rattle.fixed_strings.specs.Rows.{variable_rules};

use crate::lengths::{is_fixed_array, is_fixed_string};
use crate::statements::is_static_statement;
use bound_tree::{Declared, RuleSet, VarDecl};
use std::alloc::Global;
use up_base::Mem;
use vb_tree::{Module6, Owner, Type6};

fn flag_at(flags: &[bool], n: u32) -> bool
    ensures { result ≡ is_marked flags.now n }
{
    match flags.get(n as usize) {
        Some(flag) => *flag,
        None => false,
    }
}

fn holds_fixed(holders: &[bool], ty: &Type6) -> bool
    ensures { result ≡ holds_fixed (is_marked holders.now) (type_of ty.now) }
{
    match ty {
        Type6::User(t) => flag_at(holders, *t),
        _ => false,
    }
}

fn is_answer(owner: Owner) -> bool
    ensures { result ≡ is_answer owner }
{
    match owner {
        Owner::Answer(_) => true,
        _ => false,
    }
}

// Whether a fixed string may not be declared by this owner.
fn is_barred(alloc: Global, modules: &[Module6], statement: u32, owner: Owner) -> Result<bool, Mem>
    ensures { IfOk result (λ b. b ≡ is_barred (map module_of modules.now) statement owner) }
{
    match owner {
        Owner::Module(file) => Ok(is_static_statement(alloc, modules, file, statement)?),
        Owner::Local(_) => Ok(false),
        Owner::Static(_) => Ok(true),
        Owner::Value(_) => Ok(true),
        Owner::Reference(_) => Ok(true),
        Owner::Answer(_) => Ok(true),
        Owner::Field(_) => Ok(false),
    }
}

fn is_barred_string(alloc: Global, modules: &[Module6], v: &VarDecl) -> Result<bool, Mem>
    ensures { IfOk result (λ b. b ≡ (is_fixed_string (type_of v.now.ty) && is_barred (map module_of modules.now) v.now.statement v.now.owner)) }
{
    if !is_fixed_string(&v.ty) {
        return Ok(false);
    }
    Ok(is_barred(alloc, modules, v.statement, v.owner)?)
}

fn breaks_declared(
    alloc: Global,
    declared: &Declared,
    holders: &[bool],
    v: &VarDecl,
) -> Result<bool, Mem>
    ensures { IfOk result (λ b. b ≡ breaks_declared (declarations_of declared.now) (is_marked holders.now) (variable_of v.now)) }
{
    let barred = is_barred_string(alloc, declared.project.modules.as_slice(), v)?;
    Ok(barred || is_fixed_array(&v.ty) || (is_answer(v.owner) && holds_fixed(holders, &v.ty)))
}

/// The set of each variable.
pub(crate) fn variables_rules(
    alloc: Global,
    declared: &Declared,
    holders: &[bool],
    vars: &[VarDecl],
) -> Result<Vec<RuleSet>, Mem>
    ensures { IfOk result (λ v. v.items ≡ map (variable_rules (declarations_of declared.now) (is_marked holders.now)) (map variable_of vars.now)) }
{
    let mut sets = Vec::new(alloc);
    for v in vars {
        let broken = breaks_declared(alloc, declared, holders, v)?;
        sets.push(RuleSet::new().with_if(12, broken))?;
    }
    Ok(sets)
}
