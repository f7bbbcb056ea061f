//! Names and the paths by which they are written.
ghost use Rattle.std.specs.Prelude.{◌≡◌, ◌++◌, suc, nat_eq, find, map, Some, IfOk};
ghost use Rattle.std.specs.Fmt.{decimal};
ghost use Rattle.vb_tree.specs.Tree.{Module};
ghost use Rattle.vb_tree.specs.View.{module_of, project_of};
ghost use Rattle.bound_tree.specs.View.{declarations_of, procedure_of};
ghost use Rattle.written_trees.specs.Names as names;
ghost use Rattle.written_rows.specs.Modules.{module_shown};
ghost use Rattle.written_rows.specs.View.{scope_of};

use crate::Scope;
use crate::parts::{alone, behind};
use bound_facts::file_of_class;
use bound_tree::{Declared, ProcDecl};
use net_tree::Path;
use std::alloc::Global;
use up_base::{Bytes, Mem, Name, NameFail, write_decimal};
use vb_tree::{Module6, Owner};

/// The name of bytes; bytes that make none are answered as want of memory.
pub fn name_of(alloc: Global, bytes: &[u8]) -> Result<Name, Mem>
    ensures { IfOk result (λ name. name ≡ bytes.now) }
{
    match Name::make(alloc, bytes) {
        Ok(name) => Ok(name),
        Err(NameFail::NotName) => Err(Mem),
        Err(NameFail::Mem) => Err(Mem),
    }
}

// The module of a file.
fn module_in(modules: &[Module6], file: u32) -> Option<&Module6>
    ensures { module_shown result ≡ find (λ (m : Module). nat_eq m.file file) (map module_of modules.now) }
{
    for m in modules {
        if m.file == file {
            return Some(m);
        }
    }
    None
}

fn module_at(declared: &Declared, file: u32) -> Option<&Module6>
    ensures { module_shown result ≡ names.module_at (project_of declared.now.project) file }
{
    module_in(declared.project.modules.as_slice(), file)
}

// Its name; no bytes where there is none.
fn module_name(declared: &Declared, file: u32) -> &[u8]
    ensures { result.now ≡ names.module_name (declarations_of declared.now) file }
{
    match module_at(declared, file) {
        Some(m) => m.name.as_bytes(),
        None => &[],
    }
}

/// Whether the module of a file is a standard module.
pub fn is_standard_module(declared: &Declared, file: u32) -> bool
    ensures { result ≡ names.is_standard_module (names.module_at (project_of declared.now.project) file) }
{
    match module_at(declared, file) {
        Some(m) => !m.class,
        None => false,
    }
}

// Whether what a module declares is that of another standard module.
fn is_foreign(declared: &Declared, file: u32, home: u32) -> bool
    ensures { result ≡ names.is_foreign (declarations_of declared.now) file home }
{
    file != home && is_standard_module(declared, home)
}

// The path of what the module of the file `home` declares.
fn declared_path(
    alloc: Global,
    declared: &Declared,
    file: u32,
    qualified: bool,
    home: u32,
    name: &[u8],
) -> Result<Path, Mem>
    ensures { IfOk result (λ path. path ≡ names.declared_path (declarations_of declared.now) file qualified home name.now) }
{
    if qualified || is_foreign(declared, file, home) {
        return Ok(behind(alloc, module_name(declared, home), name)?);
    }
    Ok(alone(alloc, name)?)
}

// The name of a class; no bytes where there is none.
fn class_name(declared: &Declared, class: u32) -> &[u8]
    ensures { result.now ≡ names.class_name (declarations_of declared.now) class }
{
    match file_of_class(&declared.project, class) {
        Some(file) => module_name(declared, file),
        None => &[],
    }
}

/// The path of a class.
pub fn class_path(alloc: Global, declared: &Declared, class: u32) -> Result<Path, Mem>
    ensures { IfOk result (λ path. path ≡ names.class_path (declarations_of declared.now) class) }
{
    Ok(alone(alloc, class_name(declared, class))?)
}

/// The path of a user type in the module of a file.
pub fn type_path(
    alloc: Global,
    declared: &Declared,
    file: u32,
    qualified: bool,
    user_type: u32,
) -> Result<Path, Mem>
    ensures { IfOk result (λ path. path ≡ names.type_path (declarations_of declared.now) file qualified user_type) }
{
    match declared.types.get(user_type as usize) {
        Some(t) => Ok(declared_path(
            alloc,
            declared,
            file,
            qualified,
            t.module,
            t.name.as_bytes(),
        )?),
        None => Ok(Path::new(alloc)),
    }
}

// A word and the number of what is numbered from 0, counted from 1.
fn numbered(alloc: Global, word: &[u8], number: u32) -> Result<Name, Mem>
    ensures { IfOk result (λ name. name ≡ word.now ++ decimal (suc number)) }
{
    let mut bytes = Bytes::from_slice(alloc, word)?;
    write_decimal(&mut bytes, u128::from(number) + 1)?;
    Ok(name_of(alloc, bytes.as_slice())?)
}

/// The name of the function that makes a user type.
pub fn new_name(alloc: Global, user_type: u32) -> Result<Name, Mem>
    ensures { IfOk result (λ name. name ≡ names.new_name user_type) }
{
    Ok(numbered(alloc, b"New", user_type)?)
}

/// The name of the function that copies a user type.
pub fn copy_name(alloc: Global, user_type: u32) -> Result<Name, Mem>
    ensures { IfOk result (λ name. name ≡ names.copy_name user_type) }
{
    Ok(numbered(alloc, b"Copy", user_type)?)
}

/// The name of the function that makes an object of a class where there is none.
pub fn auto_name(alloc: Global, declared: &Declared, class: u32) -> Result<Name, Mem>
    ensures { IfOk result (λ name. name ≡ names.auto_name (declarations_of declared.now) class) }
{
    let mut bytes = Bytes::from_slice(alloc, b"Auto_")?;
    bytes.extend_from_slice(class_name(declared, class))?;
    Ok(name_of(alloc, bytes.as_slice())?)
}

// The path of a variable by what it belongs to.
fn owner_path(
    alloc: Global,
    scope: &Scope,
    qualified: bool,
    name: &[u8],
    owner: Owner,
) -> Result<Path, Mem>
    ensures { IfOk result (λ path. path ≡ names.owner_path (scope_of scope.now) qualified name.now owner) }
{
    match owner {
        Owner::Module(home) => {
            Ok(declared_path(alloc, scope.declared, scope.file, qualified, home, name)?)
        }
        _ => Ok(alone(alloc, name)?),
    }
}

/// The path of a variable.
pub fn variable_path(
    alloc: Global,
    scope: &Scope,
    qualified: bool,
    variable: u32,
) -> Result<Path, Mem>
    ensures { IfOk result (λ path. path ≡ names.variable_path (scope_of scope.now) qualified variable) }
{
    match scope.declared.vars.get(variable as usize) {
        Some(v) => Ok(owner_path(alloc, scope, qualified, v.name.as_bytes(), v.owner)?),
        None => Ok(Path::new(alloc)),
    }
}

fn declared_name(alloc: Global, declared: &Declared, variable: usize) -> Result<Name, Mem>
    ensures { IfOk result (λ name. name ≡ names.variable_name (declarations_of declared.now) (Some variable)) }
{
    match declared.vars.get(variable) {
        Some(v) => Ok(v.name.copy(alloc)?),
        None => Err(Mem),
    }
}

/// The name of a variable or a field. Where there is none it is want of memory.
pub fn variable_name(
    alloc: Global,
    declared: &Declared,
    variable: Option<usize>,
) -> Result<Name, Mem>
    ensures { IfOk result (λ name. name ≡ names.variable_name (declarations_of declared.now) variable) }
{
    match variable {
        Some(v) => Ok(declared_name(alloc, declared, v)?),
        None => Err(Mem),
    }
}

// The name of the first part of a property, and of any other procedure itself; no bytes where there is none.
fn first_name<'a>(declared: &'a Declared, p: &ProcDecl) -> &'a [u8]
    ensures { result.now ≡ names.first_name (declarations_of declared.now) (Some (procedure_of p.now)) }
{
    match declared.procs.get(p.first.0 as usize) {
        Some(first) => first.name.as_bytes(),
        None => &[],
    }
}

fn path_of_procedure(
    alloc: Global,
    scope: &Scope,
    qualified: bool,
    p: &ProcDecl,
) -> Result<Path, Mem>
    ensures { IfOk result (λ path. path ≡ names.procedure_path_of (scope_of scope.now) qualified (Some (procedure_of p.now))) }
{
    let name = first_name(scope.declared, p);
    Ok(declared_path(alloc, scope.declared, scope.file, qualified, p.module, name)?)
}

/// The path of a procedure; the parts of a property have the name of the first.
pub fn procedure_path(
    alloc: Global,
    scope: &Scope,
    qualified: bool,
    procedure: u32,
) -> Result<Path, Mem>
    ensures { IfOk result (λ path. path ≡ names.procedure_path (scope_of scope.now) qualified procedure) }
{
    match scope.declared.procs.get(procedure as usize) {
        Some(p) => Ok(path_of_procedure(alloc, scope, qualified, p)?),
        None => Ok(Path::new(alloc)),
    }
}

/// The name of a procedure; the parts of a property have that of the first.
pub fn procedure_name(alloc: Global, declared: &Declared, procedure: u32) -> Result<Name, Mem>
    ensures { IfOk result (λ name. name ≡ names.procedure_name (declarations_of declared.now) procedure) }
{
    match declared.procs.get(procedure as usize) {
        Some(p) => Ok(name_of(alloc, first_name(declared, p))?),
        None => Err(Mem),
    }
}
