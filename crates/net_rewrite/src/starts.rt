//! The Subs by whose names something runs by itself, and the module that a program starts in.
ghost use Rattle.std.specs.Prelude.{◌≡◌, ◌++◌, Bool, List, ℕ, Option, Some, codes, filter, is_some, map, IfOk, OnOk};
ghost use Rattle.up_base.specs.Names.{is_same_name};
ghost use Rattle.vb_tree.specs.Tree.{Module};
ghost use Rattle.vb_tree.specs.View.{module_of, project_of};
ghost use Rattle.bound_tree.specs.View.{declarations_of, procedure_of};
ghost use Rattle.bound_facts.specs.Members.{is_sub, is_sub_named, sub_from};
ghost use Rattle.written_trees.specs.Projects as rows;
ghost use Rattle.net_rewrite.specs.Starts.{mains, only_name, special_name};

use bound_tree::{Declared, ProcDecl};
use std::alloc::Global;
use up_base::{Mem, Name, Wide};
use vb_tree::{Module6, ProcKind, ProjectKind};

/// A Sub that runs by itself.
#[derive(Clone, Copy, Debug, PartialEq, Eq)]
pub(crate) enum Special {
    /// Class_Initialize, where an object of its class is made.
    Initializer,
    /// Main, where a program starts.
    Main,
}

fn is_sub(kind: ProcKind) -> bool
    ensures { result ≡ is_sub kind }
{
    match kind {
        ProcKind::Sub => true,
        _ => false,
    }
}

fn is_named(name: &Name, special: Special) -> bool
    ensures { result ≡ is_same_name name.now (special_name special) }
{
    match special {
        Special::Initializer => name.lower_bytes() == b"class_initialize".as_slice(),
        Special::Main => name.lower_bytes() == b"main".as_slice(),
    }
}

fn is_sub_named(p: &ProcDecl, file: u32, special: Special) -> bool
    ensures { result ≡ is_sub_named file (special_name special) (procedure_of p.now) }
{
    p.module == file && is_sub(p.kind) && is_named(&p.name, special)
}

fn sub_in(procs: &[ProcDecl], file: u32, special: Special) -> Option<usize>
    ensures { result ≡ sub_from file (special_name special) 0 (map procedure_of procs.now) }
{
    for (i, p) in procs.iter().enumerate() {
        if is_sub_named(p, file, special) {
            return Some(i);
        }
    }
    None
}

/// Whether a module has such a Sub.
pub(crate) fn has_sub(declared: &Declared, file: u32, special: Special) -> bool
    ensures { result ≡ is_some (sub_from file (special_name special) 0 (declarations_of declared.now).procs) }
{
    sub_in(declared.procs.as_slice(), file, special).is_some()
}

fn declares_main(declared: &Declared, m: &Module6) -> bool
    ensures { result ≡ rows.declares_main (declarations_of declared.now) (module_of m.now) }
{
    !m.class && has_sub(declared, m.file, Special::Main)
}

// The standard modules that have a Sub Main.
fn mains<'a>(
    alloc: Global,
    declared: &Declared,
    modules: &'a [Module6],
) -> Result<Vec<&'a Module6>, Mem>
    ensures { IfOk result (λ found. map (λ m. module_of m.now) found.items ≡ mains (declarations_of declared.now) (map module_of modules.now)) }
{
    let mut found = Vec::new(alloc);
    for m in modules {
        if declares_main(declared, m) {
            found.push(m)?;
        }
    }
    Ok(found)
}

fn only_name(alloc: Global, found: &[&Module6]) -> Result<Option<Name>, Mem>
    ensures { IfOk result (λ name. name ≡ only_name (map (λ m. module_of m.now) found.now)) }
{
    match found {
        [m] => Ok(Some(m.name.copy(alloc)?)),
        _ => Ok(None),
    }
}

fn only_main(alloc: Global, declared: &Declared) -> Result<Option<Name>, Mem>
    ensures { IfOk result (λ name. name ≡ rows.only_main (declarations_of declared.now)) }
{
    let found = mains(alloc, declared, declared.project.modules.as_slice())?;
    Ok(only_name(alloc, &found)?)
}

/// The name of the module that a program starts in: the one that has Sub Main, where the project is a program and starts with
/// it.
pub(crate) fn main_of(alloc: Global, declared: &Declared) -> Result<Option<Name>, Mem>
    ensures { IfOk result (λ name. name ≡ rows.main_of (declarations_of declared.now)) }
{
    match declared.project.file.kind {
        ProjectKind::OleDll => Ok(None),
        ProjectKind::Exe => match &declared.project.file.startup {
            None => Ok(None),
            Some(_) => Ok(only_main(alloc, declared)?),
        },
    }
}
