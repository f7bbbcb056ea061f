//! The variables that declare the fields of user types and classes, by the numbers that expressions give fields.
ghost use Rattle.std.specs.Prelude.{◌≡◌, Option, filter, map, slice_get};
ghost use Rattle.vb_tree.specs.BoundView.{type_of};
ghost use Rattle.vb_tree.specs.declared.declared.VarId.{VarId};
ghost use Rattle.vb_tree.specs.Tree.{Module};
ghost use Rattle.vb_tree.specs.View.{module_of, project_of};
ghost use Rattle.bound_tree.specs.View.{declarations_of, variable_of};
ghost use Rattle.bound_facts.specs.Members.{at_option, class_files, class_variables, field_of, is_of_module, type_fields, variables_from};

use bound_tree::{Declared, TypeDecl, VarDecl};
use up_base::Sequence;
use vb_tree::{Module6, Owner, Project6, Type6, VarId};

/// The variable that declares the field with a number of a user type or of a class.
pub fn field_of(declared: &Declared, ty: &Type6, k: u32) -> Option<usize>
    ensures { result ≡ field_of (declarations_of declared.now) (type_of ty.now) k }
{
    match ty {
        Type6::User(t) => type_field(&declared.types, *t, k),
        Type6::Class(c) => class_field(declared, *c, k),
        _ => None,
    }
}

fn type_field(types: &Sequence<TypeDecl>, t: u32, k: u32) -> Option<usize>
    ensures { result ≡ at_option (type_fields (slice_get types.now t)) k }
{
    match types.get(t as usize) {
        Some(ty) => field_in(&ty.fields, k),
        None => None,
    }
}

fn field_in(fields: &Sequence<VarId>, k: u32) -> Option<usize>
    ensures { result ≡ slice_get (map (λ (f : VarId). f.0) fields.now) k }
{
    match fields.get(k as usize) {
        Some(f) => Some(f.0 as usize),
        None => None,
    }
}

fn class_field(declared: &Declared, c: u32, k: u32) -> Option<usize>
    ensures { result ≡ at_option (class_variables (declarations_of declared.now) (slice_get (class_files (project_of declared.now.project)) c)) k }
{
    match file_of_class(&declared.project, c) {
        Some(file) => module_variable(&declared.vars, file, k),
        None => None,
    }
}

/// The file number of a class.
pub fn file_of_class(project: &Project6, c: u32) -> Option<u32>
    ensures { result ≡ slice_get (class_files (project_of project.now)) c }
{
    class_file(project.modules.as_slice(), c)
}

// The file number of a class module, by its place among the class modules.
fn class_file(modules: &[Module6], c: u32) -> Option<u32>
    ensures { result ≡ slice_get (map (λ (m : Module). m.file) (filter (λ (m : Module). m.class) (map module_of modules.now))) c }
{
    let mut left = c;
    for module in modules {
        if module.class {
            if left == 0 {
                return Some(module.file);
            }
            left -= 1;
        }
    }
    None
}

fn is_of_module(file: u32, owner: Owner) -> bool
    ensures { result ≡ is_of_module file owner }
{
    match owner {
        Owner::Module(m) => file == m,
        _ => false,
    }
}

fn module_variable(vars: &Sequence<VarDecl>, file: u32, k: u32) -> Option<usize>
    ensures { result ≡ slice_get (variables_from file 0 (map variable_of vars.now)) k }
{
    variable_in(vars.as_slice(), file, k)
}

// A variable of a module, by its place among them.
fn variable_in(vars: &[VarDecl], file: u32, k: u32) -> Option<usize>
    ensures { result ≡ slice_get (variables_from file 0 (map variable_of vars.now)) k }
{
    let mut left = k;
    for (i, v) in vars.iter().enumerate() {
        if is_of_module(file, v.owner) {
            if left == 0 {
                return Some(i);
            }
            left -= 1;
        }
    }
    None
}
