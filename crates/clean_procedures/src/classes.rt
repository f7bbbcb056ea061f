//! The procedures that begin and end objects, by class.
ghost use Rattle.std.specs.Prelude.{◌≡◌, ◌++◌, IfOk, OnOk, map, slice_get};
ghost use Rattle.up_base.specs.Names.{is_same_name};
ghost use Rattle.vb_tree.specs.View.{module_of};
ghost use Rattle.bound_tree.specs.View.{declarations_of, procedure_of};
ghost use Rattle.bound_facts.specs.Members.{initializer, is_sub, is_sub_named, sub_from, terminator};
ghost use Rattle.clean_procedures.specs.Classes.{IsHome, class_file, class_table, files_of, initializer_in, seen, sub_name, subs_in, terminator_in};
ghost use Rattle.clean_procedures.specs.Pairs.{class_pairs};

use crate::numbers::{index, push_procedure};
use bound_tree::{Declared, ProcDecl};
use std::alloc::Global;
use up_base::{Mem, Name};
use vb_tree::{Module6, ProcKind};

/// The initializer and the terminator of a class, where it has them.
#[derive(Clone, Copy, Debug, PartialEq, Eq)]
pub(crate) struct ClassSubs {
    pub initializer: Option<u32>,
    pub terminator: Option<u32>,
}

/// When a procedure of a class runs by itself: where an object begins, or ends.
#[derive(Clone, Copy, Debug, PartialEq, Eq)]
pub(crate) enum When {
    Begin,
    End,
}

fn is_sub(kind: ProcKind) -> bool
    ensures { result ≡ is_sub kind }
{
    match kind {
        ProcKind::Sub => true,
        _ => false,
    }
}

fn is_named(name: &Name, when: When) -> bool
    ensures { result ≡ is_same_name name.now (sub_name when) }
{
    match when {
        When::Begin => name.lower_bytes() == b"class_initialize".as_slice(),
        When::End => name.lower_bytes() == b"class_terminate".as_slice(),
    }
}

fn is_sub_named(p: &ProcDecl, file: u32, when: When) -> bool
    ensures { result ≡ is_sub_named file (sub_name when) (procedure_of p.now) }
{
    p.module == file && is_sub(p.kind) && is_named(&p.name, when)
}

// The first Sub of a module that runs then.
fn sub_in(procs: &[ProcDecl], file: u32, when: When) -> Result<Option<u32>, Mem>
    ensures { IfOk result (λ p. p ≡ sub_from file (sub_name when) 0 (map procedure_of procs.now)) }
{
    for (i, p) in procs.iter().enumerate() {
        if is_sub_named(p, file, when) {
            let k = index(i)?;
            return Ok(Some(k));
        }
    }
    Ok(None)
}

fn subs_in(declared: &Declared, file: u32) -> Result<ClassSubs, Mem>
    ensures { IfOk result (λ s. s ≡ subs_in (declarations_of declared.now) file) }
{
    let procs = declared.procs.as_slice();
    let initializer = sub_in(procs, file, When::Begin)?;
    let terminator = sub_in(procs, file, When::End)?;
    Ok(ClassSubs {
        initializer,
        terminator,
    })
}

fn push_file(module: &Module6, files: &mut Vec<u32>) -> Result<(), Mem>
    ensures { OnOk result (files.new.items ≡ files.old.items ++ class_file (module_of «module».now)) }
{
    if !module.class {
        return Ok(());
    }
    Ok(files.push(module.file)?)
}

// The files of the class modules.
fn class_files(alloc: Global, modules: &[Module6]) -> Result<Vec<u32>, Mem>
    ensures { IfOk result (λ v. v.items ≡ files_of (map module_of modules.now)) }
{
    let mut files = Vec::new(alloc);
    for module in modules {
        push_file(module, &mut files)?;
    }
    Ok(files)
}

fn table(alloc: Global, declared: &Declared, files: &[u32]) -> Result<Vec<ClassSubs>, Mem>
    ensures { IfOk result (λ v. v.items ≡ map (subs_in (declarations_of declared.now)) files.now) }
{
    let mut all = Vec::new(alloc);
    for file in files {
        all.push(subs_in(declared, *file)?)?;
    }
    Ok(all)
}

/// Those of each class.
#[tactic(auto, using(crate::proofs::Tables::files_are))]
pub(crate) fn class_table(alloc: Global, declared: &Declared) -> Result<Vec<ClassSubs>, Mem>
    ensures { IfOk result (λ v. v.items ≡ class_table (declarations_of declared.now)) }
{
    let files = class_files(alloc, declared.project.modules.as_slice())?;
    Ok(table(alloc, declared, &files)?)
}

fn initializer_in(subs: &[ClassSubs], c: u32) -> Option<u32>
    ensures { result ≡ initializer_in (slice_get subs.now c) }
{
    match subs.get(c as usize) {
        Some(s) => s.initializer,
        None => None,
    }
}

fn terminator_in(subs: &[ClassSubs], c: u32) -> Option<u32>
    ensures { result ≡ terminator_in (slice_get subs.now c) }
{
    match subs.get(c as usize) {
        Some(s) => s.terminator,
        None => None,
    }
}

/// A project's declarations with the table of its classes.
#[derive(Clone, Copy)]
pub(crate) struct Home<'a> {
    pub declared: &'a Declared,
    pub subs: &'a [ClassSubs],
}

/// The initializer of a class.
#[tactic(auto, using(crate::proofs::Tables::initializer_is))]
pub(crate) fn initializer(home: &Home, c: u32) -> Option<u32>
    requires { IsHome home.now }
    ensures { result ≡ initializer (seen home.now) c }
{
    initializer_in(home.subs, c)
}

#[tactic(auto, using(crate::proofs::Tables::terminator_is))]
fn terminator(home: &Home, c: u32) -> Option<u32>
    requires { IsHome home.now }
    ensures { result ≡ terminator (seen home.now) c }
{
    terminator_in(home.subs, c)
}

/// Appends the pairs of a procedure with what begins and what ends the objects of a class.
pub(crate) fn push_class(home: &Home, i: u32, c: u32, to: &mut Vec<(u32, u32)>) -> Result<(), Mem>
    requires { IsHome home.now }
    ensures { OnOk result (to.new.items ≡ to.old.items ++ class_pairs (seen home.now) i c) }
{
    push_procedure(i, initializer(home, c), to)?;
    push_procedure(i, terminator(home, c), to)?;
    Ok(())
}
