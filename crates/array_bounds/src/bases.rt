//! The lower bound of a dimension of which none is written: that of the first Option Base of its module.
ghost use Rattle.std.specs.Prelude.{◌≡◌, Option, map, slice_get};
ghost use Rattle.vb_tree.specs.View.{form_of, member_of, module_of};
ghost use Rattle.bound_tree.specs.View.{declarations_of, procedure_of};
ghost use Rattle.bound_facts.specs.Bounds.{base_in, base_of, first_base, home_base, member_base, option_base_of};

use bound_tree::Declared;
use vb_tree::{Form6, Member6, Module6};

fn base_in(form: &Form6) -> Option<i32>
    ensures { result ≡ base_in (form_of form.now) }
{
    match form {
        Form6::OptionBase(lower) => Some(*lower),
        _ => None,
    }
}

fn member_base(member: &Member6) -> Option<i32>
    ensures { result ≡ member_base (member_of member.now) }
{
    match member {
        Member6::Line(line) => base_in(&line.form),
        _ => None,
    }
}

fn first_base(members: &[Member6]) -> i32
    ensures { result ≡ first_base (map member_of members.now) }
{
    for member in members {
        if let Some(lower) = member_base(member) {
            return lower;
        }
    }
    0
}

fn module_base(module: &Module6) -> i32
    ensures { result ≡ first_base (module_of «module».now).members }
{
    first_base(module.members.as_slice())
}

fn base_of(file: u32, modules: &[Module6]) -> i32
    ensures { result ≡ base_of file (map module_of modules.now) }
{
    for module in modules {
        if module.file == file {
            return module_base(module);
        }
    }
    0
}

/// The lower bound of a dimension of which none is written, in the module of a file.
pub fn option_base_of(declared: &Declared, file: u32) -> i32
    ensures { result ≡ option_base_of (declarations_of declared.now) file }
{
    base_of(file, declared.project.modules.as_slice())
}

/// That of the module in which a procedure stands.
pub(crate) fn home_base(declared: &Declared, procedure: u32) -> i32
    ensures { result ≡ home_base (declarations_of declared.now) (slice_get (map procedure_of declared.now.procs) procedure) }
{
    match declared.procs.get(procedure as usize) {
        Some(p) => option_base_of(declared, p.module),
        None => 0,
    }
}
