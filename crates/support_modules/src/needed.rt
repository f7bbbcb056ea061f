//! The functions that modules need.
ghost use Rattle.std.specs.Prelude.{◌≡◌, ◌++◌, ◌∷◌, [], cond, map, IfOk, OnOk};
ghost use Rattle.bound_tree.specs.View.{declarations_of};
ghost use Rattle.net_tree.specs.Tree.{proc};
ghost use Rattle.net_tree.specs.View.{member_of, module_of, procedure_of};
ghost use Rattle.support_modules.specs.Fillings.{all_functions};
ghost use Rattle.support_modules.specs.Flags.{kept, needed};
ghost use Rattle.written_trees.specs.Supports as rows;
ghost use Rattle.written_rows.specs.View.{facts_of};

use crate::flags::needed_flags;
use crate::functions::all_functions;
use bound_tree::Declared;
use net_tree::{NetMember, NetModule, NetProc};
use std::alloc::Global;
use up_base::{Mem, Name, Sequence};
use written_rows::WrittenFacts;

fn push_member_if(
    alloc: Global,
    flag: bool,
    f: NetProc,
    to: &mut Sequence<NetMember>,
) -> Result<(), Mem>
    ensures { OnOk result (map member_of to.new ≡ map member_of to.old ++ cond flag (proc (procedure_of f) ∷ []) []) }
{
    if !flag {
        return Ok(());
    }
    let f = Box::new(alloc, f)?;
    Ok(to.push(NetMember::Proc(f))?)
}

// The functions whose flag holds, as members.
fn members_of(alloc: Global, all: Vec<NetProc>, flags: &[bool]) -> Result<Sequence<NetMember>, Mem>
    ensures { IfOk result (λ members. map member_of members ≡ map proc (kept (map procedure_of all.items) flags.now)) }
{
    let mut members = Sequence::new(alloc);
    let mut rest = flags;
    for f in all {
        match rest {
            [] => return Ok(members),
            [flag, others @ ..] => {
                push_member_if(alloc, *flag, f, &mut members)?;
                rest = others;
            }
        }
    }
    Ok(members)
}

fn needed_members(
    alloc: Global,
    all: Vec<NetProc>,
    modules: &[NetModule],
) -> Result<Sequence<NetMember>, Mem>
    ensures { IfOk result (λ members. map member_of members ≡ map proc (needed (map procedure_of all.items) (map module_of modules.now))) }
{
    let flags = needed_flags(alloc, &all, modules)?;
    Ok(members_of(alloc, all, &flags)?)
}

fn support_members(
    alloc: Global,
    declared: &Declared,
    facts: &WrittenFacts,
    modules: &[NetModule],
) -> Result<Sequence<NetMember>, Mem>
    ensures { IfOk result (λ members. map member_of members ≡ map proc (needed (all_functions (declarations_of declared.now) (facts_of facts.now)) (map module_of modules.now))) }
{
    let all = all_functions(alloc, declared, facts)?;
    Ok(needed_members(alloc, all, modules)?)
}

/// The module of those support functions that modules use, and of those that these use.
pub fn support_module(
    alloc: Global,
    declared: &Declared,
    facts: &WrittenFacts,
    modules: &[NetModule],
) -> Result<NetModule, Mem>
    ensures { IfOk result (λ m. module_of m ≡ rows.support_module (declarations_of declared.now) (facts_of facts.now) (map module_of modules.now)) }
{
    let members = support_members(alloc, declared, facts, modules)?;
    Ok(NetModule {
        name: Name::from_valid(alloc, b"UpgradeSupport")?,
        class: false,
        members,
    })
}
