//! The procedures that the making of objects enters.
ghost use Rattle.std.specs.Prelude.{◌≡◌, Option, codes, map, slice_get};
ghost use Rattle.up_base.specs.Names.{is_same_name};
ghost use Rattle.bound_tree.specs.View.{declarations_of, expr_of, procedure_of};
ghost use Rattle.bound_facts.specs.Calls.{initialized, initializer_of};
ghost use Rattle.bound_facts.specs.Members.{class_sub, initializer, is_sub, is_sub_named, sub_from};

use bound_facts::{created, file_of_class};
use bound_tree::{BoundExpr, Declared, ProcDecl};
use up_base::Name;
use vb_tree::ProcKind;

fn is_sub(kind: ProcKind) -> bool
    ensures { result ≡ is_sub kind }
{
    match kind {
        ProcKind::Sub => true,
        _ => false,
    }
}

fn is_initializer_name(name: &Name) -> bool
    ensures { result ≡ is_same_name name.now (codes "Class_Initialize") }
{
    name.lower_bytes() == b"class_initialize".as_slice()
}

fn is_initializer(file: u32, p: &ProcDecl) -> bool
    ensures { result ≡ is_sub_named file (codes "Class_Initialize") (procedure_of p.now) }
{
    p.module == file && is_sub(p.kind) && is_initializer_name(&p.name)
}

fn initializer_in(procs: &[ProcDecl], file: u32) -> Option<usize>
    ensures { result ≡ sub_from file (codes "Class_Initialize") 0 (map procedure_of procs.now) }
{
    for (i, p) in procs.iter().enumerate() {
        if is_initializer(file, p) {
            return Some(i);
        }
    }
    None
}

fn initializer_of_file(declared: &Declared, file: Option<u32>) -> Option<usize>
    ensures { result ≡ class_sub (declarations_of declared.now) (codes "Class_Initialize") file }
{
    match file {
        Some(file) => initializer_in(declared.procs.as_slice(), file),
        None => None,
    }
}

fn initializer_of(declared: &Declared, class: Option<u32>) -> Option<usize>
    ensures { result ≡ initializer_of (declarations_of declared.now) class }
{
    match class {
        Some(c) => initializer_of_file(declared, file_of_class(&declared.project, c)),
        None => None,
    }
}

/// The procedure that a node enters by making an object.
pub(crate) fn initialized(declared: &Declared, e: &BoundExpr) -> Option<usize>
    ensures { result ≡ initialized (declarations_of declared.now) (expr_of e.now) }
{
    initializer_of(declared, created(declared, e))
}
