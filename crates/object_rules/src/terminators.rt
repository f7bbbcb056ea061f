//! The procedures that run when an object ends.
ghost use Rattle.std.specs.Prelude.{◌≡◌, ◌&&◌, codes, map, nat_eq};
ghost use Rattle.std.specs.List.{list_any};
ghost use Rattle.up_base.specs.Names.{is_same_name};
ghost use Rattle.vb_tree.specs.Tree.{Module};
ghost use Rattle.vb_tree.specs.View.{module_of};
ghost use Rattle.bound_facts.specs.Members.{is_sub};
ghost use Rattle.bound_tree.specs.View.{declarations_of, procedure_of};
ghost use Rattle.object_rules.specs.Terminators.{is_terminator};

use bound_tree::{Declared, ProcDecl};
use up_base::Name;
use vb_tree::{Module6, ProcKind};

fn is_sub(kind: ProcKind) -> bool
    ensures { result ≡ is_sub kind }
{
    match kind {
        ProcKind::Sub => true,
        _ => false,
    }
}

fn is_terminator_name(name: &Name) -> bool
    ensures { result ≡ is_same_name name.now (codes "Class_Terminate") }
{
    name.lower_bytes() == b"class_terminate".as_slice()
}

fn is_class_file(modules: &[Module6], file: u32) -> bool
    ensures { result ≡ list_any (λ (m : Module). m.class && nat_eq m.file file) (map module_of modules.now) }
{
    for module in modules {
        if module.class && module.file == file {
            return true;
        }
    }
    false
}

/// Whether a procedure is a Sub Class_Terminate in a class.
pub(crate) fn is_terminator(declared: &Declared, p: &ProcDecl) -> bool
    ensures { result ≡ is_terminator (declarations_of declared.now) (procedure_of p.now) }
{
    is_sub(p.kind)
        && is_terminator_name(&p.name)
        && is_class_file(declared.project.modules.as_slice(), p.module)
}
