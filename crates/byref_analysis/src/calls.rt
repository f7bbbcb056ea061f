//! Which procedure leads directly to which.
ghost use Rattle.std.specs.Prelude.{◌≡◌, ◌++◌, [], IfOk, OnOk, Option, codes, map, slice_get};
ghost use Rattle.std.specs.List.{flat_map};
ghost use Rattle.up_base.specs.Names.{is_same_name};
ghost use Rattle.bound_tree.specs.View.{declarations_of, expr_of, procedure_of, shown, shown_line};
ghost use Rattle.bound_facts.specs.Calls.{initialized, initializer_of, line_calls, node_calls, pair_to};
ghost use Rattle.bound_facts.specs.Members.{class_sub, initializer, is_sub, is_sub_named, sub_from};

use crate::lines::used;
use crate::numbers::index;
use bound_facts::{LineItems, called, created, file_of_class};
use bound_tree::{BoundExpr, Declared, LineRef, ProcDecl};
use up_base::{Mem, Name};
use vb_tree::ProcKind;

fn is_sub(kind: ProcKind) -> bool
    ensures { result ≡ is_sub kind }
{
    match kind {
        ProcKind::Sub => true,
        _ => false,
    }
}

fn is_initializer_name(name: &Name) -> bool
    ensures { result ≡ is_same_name name.now (codes "Class_Initialize") }
{
    name.lower_bytes() == b"class_initialize".as_slice()
}

fn is_initializer(file: u32, p: &ProcDecl) -> bool
    ensures { result ≡ is_sub_named file (codes "Class_Initialize") (procedure_of p.now) }
{
    p.module == file && is_sub(p.kind) && is_initializer_name(&p.name)
}

fn initializer_in(procs: &[ProcDecl], file: u32) -> Option<usize>
    ensures { result ≡ sub_from file (codes "Class_Initialize") 0 (map procedure_of procs.now) }
{
    for (i, p) in procs.iter().enumerate() {
        if is_initializer(file, p) {
            return Some(i);
        }
    }
    None
}

fn initializer_of_file(declared: &Declared, file: Option<u32>) -> Option<usize>
    ensures { result ≡ class_sub (declarations_of declared.now) (codes "Class_Initialize") file }
{
    match file {
        Some(file) => initializer_in(declared.procs.as_slice(), file),
        None => None,
    }
}

fn initializer_of(declared: &Declared, class: Option<u32>) -> Option<usize>
    ensures { result ≡ initializer_of (declarations_of declared.now) class }
{
    match class {
        Some(c) => initializer_of_file(declared, file_of_class(&declared.project, c)),
        None => None,
    }
}

/// The procedure that a node enters by making an object.
pub(crate) fn initialized(declared: &Declared, e: &BoundExpr) -> Option<usize>
    ensures { result ≡ initialized (declarations_of declared.now) (expr_of e.now) }
{
    initializer_of(declared, created(declared, e))
}

fn push_called(i: u32, p: Option<u32>, to: &mut Vec<(u32, u32)>) -> Result<(), Mem>
    ensures { OnOk result (to.new.items ≡ to.old.items ++ pair_to i p []) }
{
    match p {
        Some(p) => Ok(to.push((i, p))?),
        None => Ok(()),
    }
}

fn push_initialized(i: u32, p: Option<usize>, to: &mut Vec<(u32, u32)>) -> Result<(), Mem>
    ensures { OnOk result (to.new.items ≡ to.old.items ++ pair_to i p []) }
{
    match p {
        Some(p) => {
            let p = index(p)?;
            Ok(to.push((i, p))?)
        }
        None => Ok(()),
    }
}

fn push_node_calls(
    declared: &Declared,
    i: u32,
    e: &BoundExpr,
    to: &mut Vec<(u32, u32)>,
) -> Result<(), Mem>
    ensures { OnOk result (to.new.items ≡ to.old.items ++ node_calls (declarations_of declared.now) i (expr_of e.now)) }
{
    push_called(i, called(e), to)?;
    push_initialized(i, initialized(declared, e), to)?;
    Ok(())
}

fn push_calls(
    declared: &Declared,
    i: u32,
    nodes: &[&BoundExpr],
    to: &mut Vec<(u32, u32)>,
) -> Result<(), Mem>
    ensures { OnOk result (to.new.items ≡ to.old.items ++ flat_map (node_calls (declarations_of declared.now) i) (map shown nodes.now)) }
{
    for e in nodes {
        push_node_calls(declared, i, e, to)?;
    }
    Ok(())
}

/// The pairs of procedures of which the first leads directly to the second.
#[derive(Clone, Copy)]
pub(crate) struct Calls<'a> {
    pub declared: &'a Declared,
}

impl LineItems for Calls<'_> {
    type Item = (u32, u32);

    ghost items = { λ s i line. line_calls (declarations_of s.declared.now) i line };

    fn push(
        &self,
        procedure: u32,
        line: &LineRef,
        nodes: &[&BoundExpr],
        to: &mut Vec<(u32, u32)>,
    ) -> Result<(), Mem> {
        Ok(push_calls(self.declared, procedure, used(line, nodes), to)?)
    }
}
