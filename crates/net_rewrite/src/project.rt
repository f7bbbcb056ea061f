//! What is written for a project.
ghost use Rattle.std.specs.Prelude.{◌≡◌, None, is_none, map, IfOk};
ghost use Rattle.bound_tree.specs.View.{program_of};
ghost use Rattle.net_tree.specs.View.{module_of, project_of};
ghost use Rattle.written_trees.specs.Projects as rows;
ghost use Rattle.written_rows.specs.View.{facts_of};

use crate::modules::written_modules;
use crate::starts::main_of;
use bound_tree::{Bound, bound_lines};
use net_tree::{NetModule, NetProject};
use std::alloc::Global;
use support_modules::support_module;
use up_base::{Mem, Name, Sequence};
use written_members::Statements;
use written_rows::WrittenFacts;

fn modules(alloc: Global, bound: &Bound, facts: &WrittenFacts) -> Result<Vec<NetModule>, Mem>
    ensures { IfOk result (λ all. map module_of all.items ≡ rows.written_modules (program_of bound.now) (facts_of facts.now)) }
{
    let statements = Statements::of(alloc, &bound.declared)?;
    let bodies = bound_lines(alloc, bound)?;
    Ok(written_modules(
        alloc,
        &statements,
        facts,
        &bodies,
        bound.declared.project.modules.as_slice(),
    )?)
}

fn joined(main: Option<Name>, modules: Vec<NetModule>, support: NetModule) -> NetProject
    ensures library { result.library ≡ is_none main }
    ensures main { result.main ≡ main }
    ensures note { result.note ≡ None }
    ensures modules { result.modules ≡ modules.items }
    ensures support { result.support ≡ support }
{
    NetProject {
        library: main.is_none(),
        main,
        note: None,
        modules: Sequence::from_vec(modules),
        support,
    }
}

fn with_support(
    alloc: Global,
    bound: &Bound,
    facts: &WrittenFacts,
    main: Option<Name>,
    modules: Vec<NetModule>,
) -> Result<NetProject, Mem>
    requires main { main ≡ rows.main_of (program_of bound.now).declarations }
    requires modules { map module_of modules.items ≡ rows.written_modules (program_of bound.now) (facts_of facts.now) }
    ensures { IfOk result (λ p. project_of p ≡ rows.written_project (program_of bound.now) (facts_of facts.now)) }
{
    match support_module(alloc, &bound.declared, facts, &modules) {
        Ok(support) => Ok(joined(main, modules, support)),
        Err(Mem) => {
            drop(modules);
            Err(Mem)
        }
    }
}

/// What is written for a project, by what the analyses tell of it. A name that is no name of .NET, or a number that no literal has
/// room for, is answered as want of memory: no project has one.
pub fn rewrite(alloc: Global, bound: &Bound, facts: &WrittenFacts) -> Result<NetProject, Mem>
    ensures { IfOk result (λ p. project_of p ≡ rows.written_project (program_of bound.now) (facts_of facts.now)) }
{
    let main = main_of(alloc, &bound.declared)?;
    let modules = modules(alloc, bound, facts)?;
    Ok(with_support(alloc, bound, facts, main, modules)?)
}
