//! Names of members that capture others: where a declaration has the name of a module, of the support module or of the run-time
//! library, a path that the written program begins with that name would lead to it. Of each module the first such member is noted.
ghost use Rattle.std.specs.Prelude.{◌≡◌, ◌++◌, [], IfOk, OnOk, map};
ghost use Rattle.vb_tree.specs.ProjectLines.{is_reserved};
ghost use Rattle.vb_tree.specs.View.{module_of};
ghost use Rattle.bound_tree.specs.View.{declarations_of, procedure_of};
ghost use Rattle.bound_facts.specs.Clean.{captures, is_class_name, is_module_name, is_user_type};
ghost use Rattle.clean_procedures.specs.Captured.{first_in, first_of, firsts_of, has_first, member_file, with_member, with_name, with_names};
ghost use Rattle.clean_procedures.specs.Pairs.{captured_pairs, first_pairs, firsts_pairs};

use crate::numbers::{constant_point, index, procedure_point, type_point, variable_point};
use bound_tree::{Declared, Named, NamedEntry, ProcDecl, Scope};
use std::alloc::Global;
use up_base::{Mem, Name};
use vb_tree::Module6;

/// The file of a module and the number of a member's point.
pub(crate) type First = (u32, u32);

// Whether each written project has something of this name beside its modules.
fn is_reserved(name: &Name) -> bool
    ensures { result ≡ is_reserved name.now }
{
    let lower = name.lower_bytes();
    lower == b"upgradesupport".as_slice()
        || lower == b"system".as_slice()
        || lower == b"microsoft".as_slice()
}

// Whether a standard module has this name.
fn is_module_name(modules: &[Module6], name: &Name) -> bool
    ensures { result ≡ is_module_name (map module_of modules.now) name.now }
{
    for module in modules {
        if !module.class && module.name == *name {
            return true;
        }
    }
    false
}

// Whether a class module has this name.
fn is_class_name(modules: &[Module6], name: &Name) -> bool
    ensures { result ≡ is_class_name (map module_of modules.now) name.now }
{
    for module in modules {
        if module.class && module.name == *name {
            return true;
        }
    }
    false
}

fn is_user_type(what: Named) -> bool
    ensures { result ≡ is_user_type what }
{
    match what {
        Named::Type(_) => true,
        _ => false,
    }
}

fn captures(modules: &[Module6], name: &Name, what: Named) -> bool
    ensures { result ≡ captures (map module_of modules.now) name.now what }
{
    is_reserved(name)
        || (is_module_name(modules, name) || (is_user_type(what) && is_class_name(modules, name)))
}

// The point that is noted for a file.
fn first_in(firsts: &[First], file: u32) -> Option<u32>
    ensures { result ≡ first_in file firsts.now }
{
    for first in firsts {
        if first.0 == file {
            return Some(first.1);
        }
    }
    None
}

fn has_first(firsts: &[First], file: u32) -> bool
    ensures { result ≡ has_first file firsts.now }
{
    first_in(firsts, file).is_some()
}

// The file of the module whose member has a scope.
fn member_file(scope: Scope) -> Option<u32>
    ensures { result ≡ member_file scope }
{
    match scope {
        Scope::Public(file) => Some(file),
        Scope::Private(file) => Some(file),
        Scope::Local(_) => None,
    }
}

fn push_first(file: u32, what: Named, to: &mut Vec<First>) -> Result<(), Mem>
    ensures { OnOk result (to.new.items ≡ to.old.items ++ first_of file what) }
{
    match what {
        Named::Var(v) => {
            let point = variable_point(v.0)?;
            Ok(to.push((file, point))?)
        }
        Named::Const(c) => {
            let point = constant_point(c.0)?;
            Ok(to.push((file, point))?)
        }
        Named::Proc(p) => {
            let point = procedure_point(p.0)?;
            Ok(to.push((file, point))?)
        }
        Named::Type(t) => {
            let point = type_point(t.0)?;
            Ok(to.push((file, point))?)
        }
        Named::Enum(_) => Ok(()),
    }
}

fn note_member(
    modules: &[Module6],
    x: &NamedEntry,
    file: u32,
    to: &mut Vec<First>,
) -> Result<(), Mem>
    ensures { OnOk result (to.new.items ≡ with_member (map module_of modules.now) to.old.items x.now file) }
{
    if has_first(to, file) || !captures(modules, &x.name, x.named) {
        return Ok(());
    }
    Ok(push_first(file, x.named, to)?)
}

fn note_name(modules: &[Module6], x: &NamedEntry, to: &mut Vec<First>) -> Result<(), Mem>
    ensures { OnOk result (to.new.items ≡ with_name (map module_of modules.now) to.old.items x.now) }
{
    match member_file(x.scope) {
        None => Ok(()),
        Some(file) => Ok(note_member(modules, x, file, to)?),
    }
}

// Of each module the first member whose name captures others.
fn firsts(alloc: Global, modules: &[Module6], names: &[NamedEntry]) -> Result<Vec<First>, Mem>
    ensures { IfOk result (λ v. v.items ≡ with_names (map module_of modules.now) [] names.now) }
{
    let mut all = Vec::new(alloc);
    for x in names {
        note_name(modules, x, &mut all)?;
    }
    Ok(all)
}

fn firsts_of(alloc: Global, declared: &Declared) -> Result<Vec<First>, Mem>
    ensures { IfOk result (λ v. v.items ≡ firsts_of (declarations_of declared.now)) }
{
    Ok(firsts(
        alloc,
        declared.project.modules.as_slice(),
        declared.names.as_slice(),
    )?)
}

fn push_end(k: u32, end: Option<u32>, to: &mut Vec<(u32, u32)>) -> Result<(), Mem>
    ensures { OnOk result (to.new.items ≡ to.old.items ++ first_pairs k end) }
{
    match end {
        None => Ok(()),
        Some(end) => {
            let from = procedure_point(k)?;
            Ok(to.push((from, end))?)
        }
    }
}

fn push_ends(firsts: &[First], procs: &[ProcDecl], to: &mut Vec<(u32, u32)>) -> Result<(), Mem>
    ensures { OnOk result (to.new.items ≡ to.old.items ++ firsts_pairs firsts.now 0 (map procedure_of procs.now)) }
{
    for (i, p) in procs.iter().enumerate() {
        push_end(index(i)?, first_in(firsts, p.module), to)?;
    }
    Ok(())
}

/// Appends the pairs of procedures with the first member of their module whose name captures others.
pub(crate) fn push_captured(
    alloc: Global,
    declared: &Declared,
    to: &mut Vec<(u32, u32)>,
) -> Result<(), Mem>
    ensures { OnOk result (to.new.items ≡ to.old.items ++ captured_pairs (declarations_of declared.now)) }
{
    let firsts = firsts_of(alloc, declared)?;
    Ok(push_ends(&firsts, declared.procs.as_slice(), to)?)
}
