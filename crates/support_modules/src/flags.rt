//! Which functions of a list are needed, as a flag for each: those that modules use, and those that these call, round by round.
ghost use Rattle.std.specs.Prelude.{◌≡◌, ◌++◌, ◌&&◌, [], true, cond, length, map, not, IfOk, OnOk};
ghost use Rattle.std.specs.List.{fold};
ghost use Rattle.net_tree.specs.View.{module_of, procedure_of};
ghost use Rattle.support_text.specs.Needs.{is_path};
ghost use Rattle.written_trees.specs.Names.{alone, support};
ghost use Rattle.written_trees.specs.Supports.{function_name};
ghost use Rattle.support_modules.specs.Flags.{flags_after, is_support, needed_flags, next_flags, paths_of_kept, used_flags, with_called, with_path, with_paths_of};
ghost use Rattle.support_modules.specs.Paths.{is_among, paths_of_procedure, shown};

use crate::paths::{push_module, push_procedure};
use net_tree::{NetHead, NetModule, NetProc, Path};
use std::alloc::Global;
use up_base::{Mem, Name};

// ---- names and paths

fn function_name(p: &NetProc) -> &[u8]
    ensures { result.now ≡ function_name (procedure_of p.now) }
{
    match &p.head {
        NetHead::Sub(_, name, _) => name.as_bytes(),
        NetHead::Function(_, name, _, _) => name.as_bytes(),
        NetHead::New => &[],
        NetHead::Get => &[],
        NetHead::Set(_, _) => &[],
    }
}

// Whether a path is a name alone.
fn is_alone(path: &[Name], name: &[u8]) -> bool
    ensures { result ≡ is_path path.now (alone name.now) }
{
    match path {
        [only] => only.as_bytes() == name,
        _ => false,
    }
}

// Whether a path is that of the function of the support module with a name.
fn is_support_of(path: &[Name], name: &[u8]) -> bool
    ensures { result ≡ is_path path.now (support name.now) }
{
    match path {
        [outer, inner] => {
            outer.as_bytes() == b"UpgradeSupport".as_slice() && inner.as_bytes() == name
        }
        _ => false,
    }
}

fn is_called(paths: &[&Path], name: &[u8]) -> bool
    ensures { result ≡ is_among (map shown paths.now) (alone name.now) }
{
    for path in paths {
        if is_alone(path.as_slice(), name) {
            return true;
        }
    }
    false
}

fn is_used(paths: &[&Path], name: &[u8]) -> bool
    ensures { result ≡ is_among (map shown paths.now) (support name.now) }
{
    for path in paths {
        if is_support_of(path.as_slice(), name) {
            return true;
        }
    }
    false
}

// ---- the functions that modules use

// Whether a path is that of a function of the support module, and not one of others.
#[tactic(auto, using(crate::proofs::Noted::new_path))]
fn is_new(path: &[Name], paths: &[&Path]) -> bool
    ensures { result ≡ (is_support path.now && not (is_among (map shown paths.now) path.now)) }
{
    match path {
        [outer, inner] => {
            outer.as_bytes() == b"UpgradeSupport".as_slice() && !is_used(paths, inner.as_bytes())
        }
        _ => false,
    }
}

// Puts the paths of functions of the support module behind others, each once.
fn push_support<'a>(paths: &[&'a Path], to: &mut Vec<&'a Path>) -> Result<(), Mem>
    ensures { OnOk result (map shown to.new.items ≡ fold with_path (map shown to.old.items) (map shown paths.now)) }
{
    for path in paths {
        if is_new(path.as_slice(), to) {
            to.push(*path)?;
        }
    }
    Ok(())
}

fn push_support_of<'a>(
    alloc: Global,
    source: &'a NetModule,
    to: &mut Vec<&'a Path>,
) -> Result<(), Mem>
    ensures { OnOk result (map shown to.new.items ≡ with_paths_of (map shown to.old.items) (module_of source.now)) }
{
    let mut paths = Vec::new(alloc);
    push_module(source, &mut paths)?;
    push_support(&paths, to)?;
    Ok(())
}

fn support_paths(alloc: Global, modules: &[NetModule]) -> Result<Vec<&Path>, Mem>
    ensures { IfOk result (λ paths. map shown paths.items ≡ fold with_paths_of [] (map module_of modules.now)) }
{
    let mut paths = Vec::new(alloc);
    for source in modules {
        push_support_of(alloc, source, &mut paths)?;
    }
    Ok(paths)
}

fn used_flags(alloc: Global, paths: &[&Path], all: &[NetProc]) -> Result<Vec<bool>, Mem>
    ensures { IfOk result (λ flags. flags.items ≡ used_flags (map shown paths.now) (map procedure_of all.now)) }
{
    let mut flags = Vec::with_capacity(alloc, all.len())?;
    for f in all {
        flags.push(is_used(paths, function_name(f)))?;
    }
    Ok(flags)
}

fn first_flags(alloc: Global, all: &[NetProc], modules: &[NetModule]) -> Result<Vec<bool>, Mem>
    ensures { IfOk result (λ flags. flags.items ≡ used_flags (fold with_paths_of [] (map module_of modules.now)) (map procedure_of all.now)) }
{
    let paths = support_paths(alloc, modules)?;
    Ok(used_flags(alloc, &paths, all)?)
}

// ---- the functions that these call

// The paths in a function, where its flag holds.
fn push_if<'a>(flag: bool, f: &'a NetProc, to: &mut Vec<&'a Path>) -> Result<(), Mem>
    ensures { OnOk result (map shown to.new.items ≡ map shown to.old.items ++ cond flag (paths_of_procedure (procedure_of f.now)) []) }
{
    if !flag {
        return Ok(());
    }
    Ok(push_procedure(f, to)?)
}

fn push_kept<'a>(all: &'a [NetProc], flags: &[bool], to: &mut Vec<&'a Path>) -> Result<(), Mem>
    ensures { OnOk result (map shown to.new.items ≡ map shown to.old.items ++ paths_of_kept (map procedure_of all.now) flags.now) }
{
    let mut rest = flags;
    for f in all {
        match rest {
            [] => return Ok(()),
            [flag, others @ ..] => {
                push_if(*flag, f, to)?;
                rest = others;
            }
        }
    }
    Ok(())
}

fn with_called(
    alloc: Global,
    paths: &[&Path],
    all: &[NetProc],
    flags: &[bool],
) -> Result<Vec<bool>, Mem>
    ensures { IfOk result (λ next. next.items ≡ with_called (map shown paths.now) (map procedure_of all.now) flags.now) }
{
    let mut next = Vec::with_capacity(alloc, flags.len())?;
    let mut rest = flags;
    for f in all {
        match rest {
            [] => return Ok(next),
            [flag, others @ ..] => {
                next.push(*flag || is_called(paths, function_name(f)))?;
                rest = others;
            }
        }
    }
    Ok(next)
}

fn next_flags(alloc: Global, all: &[NetProc], flags: &[bool]) -> Result<Vec<bool>, Mem>
    ensures { IfOk result (λ next. next.items ≡ next_flags (map procedure_of all.now) flags.now) }
{
    let mut paths = Vec::new(alloc);
    push_kept(all, flags, &mut paths)?;
    Ok(with_called(alloc, &paths, all, flags)?)
}

fn are_same(a: &[bool], b: &[bool]) -> bool
    ensures { result ≡ true → a.now ≡ b.now }
{
    a == b
}

// A round that changes nothing is the last that can.
#[tactic(auto, using(crate::proofs::Settled::next_round, crate::proofs::Settled::settled))]
fn flags_after(
    alloc: Global,
    all: &[NetProc],
    rounds: usize,
    flags: Vec<bool>,
) -> Result<Vec<bool>, Mem>
    ensures { IfOk result (λ after. after.items ≡ flags_after (map procedure_of all.now) rounds flags.items) }
{
    let mut flags = flags;
    let mut left = rounds;
    while left > 0 {
        let next = next_flags(alloc, all, &flags)?;
        if are_same(&next, &flags) {
            return Ok(flags);
        }
        flags = next;
        left -= 1;
    }
    Ok(flags)
}

/// Whether each function of a list is needed where modules are written.
pub(crate) fn needed_flags(
    alloc: Global,
    all: &[NetProc],
    modules: &[NetModule],
) -> Result<Vec<bool>, Mem>
    ensures { IfOk result (λ flags. flags.items ≡ needed_flags (map procedure_of all.now) (map module_of modules.now)) }
{
    let flags = first_flags(alloc, all, modules)?;
    Ok(flags_after(alloc, all, all.len(), flags)?)
}
