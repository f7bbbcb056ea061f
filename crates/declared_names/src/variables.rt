//! Variables, constants and fields, put behind what is declared so far.
ghost use Rattle.std.specs.Prelude.{◌≡◌, ◌+◌, ◌++◌, ◌∷◌, [], length, map, OnOk, IfOk};
ghost use Rattle.vb_tree.specs.View.{constant_of as source_constant, declarator_of, form_of};
ghost use Rattle.declared_names.specs.Declaring.{a_constant, a_field, a_variable, constant_in, constants_in, entry, field_declares, line_declares, local_declares, variable_in, variables_in, with_declared};
ghost use Rattle.declared_names.specs.View.{constant_of, extents_of, names_of, variable_of};
ghost use Rattle.std.specs.Prelude.{option_map};
ghost use Rattle.vb_tree.specs.View.{bounds_of};

use crate::scopes::{constant_scope, local_owner, word_scope};
use crate::{DeclaredNames, Extents, NamedConst, NamedVar};
use bound_tree::{ConstId, Named, NamedEntry, Scope};
use std::alloc::Global;
use up_base::{Mem, Name, Place, Sequence};
use vb_tree::{Bounds6, Constant6, Declarator6, Field6, Form6, Owner, Passing, ProcId, VarId};

/// A number of a list's next item. It wants memory past the last number that there is.
pub(crate) fn number(len: usize) -> Result<u32, Mem>
    ensures { IfOk result (λ n. n ≡ len) }
{
    match u32::try_from(len) {
        Ok(n) => Ok(n),
        Err(_) => Err(Mem),
    }
}

/// The sum of two numbers. It wants memory past the last number that there is.
pub(crate) fn sum(a: u32, b: u32) -> Result<u32, Mem>
    ensures { IfOk result (λ n. n ≡ a + b) }
{
    match a.checked_add(b) {
        Some(n) => Ok(n),
        None => Err(Mem),
    }
}

/// Puts a declared name.
pub(crate) fn put_name(
    alloc: Global,
    name: &Name,
    scope: Scope,
    named: Named,
    to: &mut Sequence<NamedEntry>,
) -> Result<(), Mem>
    ensures { OnOk result (to.new ≡ to.old ++ entry name.now scope named ∷ []) }
{
    let name = name.copy(alloc)?;
    Ok(to.push(NamedEntry { name, scope, named })?)
}

/// Puts a variable that a name stands for.
#[tactic(auto, using(crate::proofs::Following::variable_behind))]
pub(crate) fn put_variable<'a>(
    alloc: Global,
    scope: Scope,
    variable: NamedVar<'a>,
    to: &mut DeclaredNames<'a>,
) -> Result<(), Mem>
    ensures { OnOk result (names_of to.new ≡ with_declared (a_variable scope (variable_of variable.entry)) (names_of to.old)) }
{
    let id = VarId(number(to.vars.len())?);
    put_name(alloc, variable.name, scope, Named::Var(id), &mut to.names)?;
    to.vars.push(variable)?;
    Ok(())
}

/// Puts a constant that a name stands for.
#[tactic(auto, using(crate::proofs::Following::constant_behind))]
pub(crate) fn put_constant<'a>(
    alloc: Global,
    scope: Scope,
    constant: NamedConst<'a>,
    to: &mut DeclaredNames<'a>,
) -> Result<(), Mem>
    ensures { OnOk result (names_of to.new ≡ with_declared (a_constant scope (constant_of constant.entry)) (names_of to.old)) }
{
    let id = ConstId(number(to.consts.len())?);
    put_name(alloc, constant.name, scope, Named::Const(id), &mut to.names)?;
    to.consts.push(constant)?;
    Ok(())
}

// Puts a field, which no scope looks for.
#[tactic(auto, using(crate::proofs::Following::field_behind))]
fn put_field<'a>(field: NamedVar<'a>, to: &mut DeclaredNames<'a>) -> Result<(), Mem>
    ensures { OnOk result (names_of to.new ≡ with_declared (a_field (variable_of field.entry)) (names_of to.old)) }
{
    to.vars.push(field)?;
    Ok(())
}

fn extents(bounds: &Option<Sequence<Bounds6>>) -> Extents<'_>
    ensures { extents_of result ≡ option_map (map bounds_of) bounds.now }
{
    match bounds {
        Some(bounds) => Extents::Written(bounds),
        None => Extents::Single,
    }
}

fn declared_variable<'a>(
    owner: Owner,
    place: Place,
    statement: u32,
    declarator: &'a Declarator6,
) -> NamedVar<'a>
    ensures { variable_of result ≡ variable_in owner place statement (declarator_of declarator.now) }
{
    NamedVar {
        name: &declarator.name,
        suffix: declarator.suffix,
        place,
        statement,
        owner,
        extents: extents(&declarator.bounds),
        auto: declarator.auto,
        ty: declarator.ty.as_ref(),
        passing: Passing::Unsaid,
        optional: false,
        param_array: false,
        preset: None,
    }
}

fn declared_constant<'a>(
    owner: Owner,
    place: Place,
    statement: u32,
    constant: &'a Constant6,
) -> NamedConst<'a>
    ensures { constant_of result ≡ constant_in owner place statement (source_constant constant.now) }
{
    NamedConst {
        name: &constant.name,
        suffix: constant.suffix,
        place,
        statement,
        owner,
        ty: constant.ty.as_ref(),
        value: Some(&constant.value),
        before: None,
    }
}

// Puts the variables of a line.
#[tactic(auto, using(crate::proofs::Following::behind_follow, crate::proofs::Following::behind_nothing))]
fn put_variables<'a>(
    alloc: Global,
    scope: Scope,
    owner: Owner,
    place: Place,
    statement: u32,
    declarators: &'a [Declarator6],
    to: &mut DeclaredNames<'a>,
) -> Result<(), Mem>
    ensures { OnOk result (names_of to.new ≡ with_declared (variables_in scope owner place statement (map declarator_of declarators.now)) (names_of to.old)) }
{
    for declarator in declarators {
        let variable = declared_variable(owner, place, statement, declarator);
        put_variable(alloc, scope, variable, to)?;
    }
    Ok(())
}

// Puts the constants of a line.
#[tactic(auto, using(crate::proofs::Following::behind_follow, crate::proofs::Following::behind_nothing))]
fn put_constants<'a>(
    alloc: Global,
    scope: Scope,
    owner: Owner,
    place: Place,
    statement: u32,
    constants: &'a [Constant6],
    to: &mut DeclaredNames<'a>,
) -> Result<(), Mem>
    ensures { OnOk result (names_of to.new ≡ with_declared (constants_in scope owner place statement (map source_constant constants.now)) (names_of to.old)) }
{
    for constant in constants {
        let constant = declared_constant(owner, place, statement, constant);
        put_constant(alloc, scope, constant, to)?;
    }
    Ok(())
}

/// Puts what a line of the module of a file declares.
#[tactic(auto, using(crate::proofs::Following::behind_nothing))]
pub(crate) fn put_line<'a>(
    alloc: Global,
    file: u32,
    statement: u32,
    place: Place,
    form: &'a Form6,
    to: &mut DeclaredNames<'a>,
) -> Result<(), Mem>
    ensures { OnOk result (names_of to.new ≡ with_declared (line_declares file statement place (form_of form.now)) (names_of to.old)) }
{
    match form {
        Form6::Variables(word, declarators) => {
            let scope = word_scope(file, *word);
            let owner = Owner::Module(file);
            Ok(put_variables(
                alloc,
                scope,
                owner,
                place,
                statement,
                declarators.as_slice(),
                to,
            )?)
        }
        Form6::Constants(visibility, constants) => {
            let scope = constant_scope(file, *visibility);
            let owner = Owner::Module(file);
            Ok(put_constants(
                alloc,
                scope,
                owner,
                place,
                statement,
                constants.as_slice(),
                to,
            )?)
        }
        _ => Ok(()),
    }
}

/// Puts what a line of a procedure declares.
#[tactic(auto, using(crate::proofs::Following::behind_nothing))]
pub(crate) fn put_local<'a>(
    alloc: Global,
    procedure: ProcId,
    statement: u32,
    place: Place,
    form: &'a Form6,
    to: &mut DeclaredNames<'a>,
) -> Result<(), Mem>
    ensures { OnOk result (names_of to.new ≡ with_declared (local_declares procedure statement place (form_of form.now)) (names_of to.old)) }
{
    let scope = Scope::Local(procedure);
    match form {
        Form6::Variables(word, declarators) => {
            let owner = local_owner(procedure, *word);
            Ok(put_variables(
                alloc,
                scope,
                owner,
                place,
                statement,
                declarators.as_slice(),
                to,
            )?)
        }
        Form6::Constants(_, constants) => {
            let owner = Owner::Local(procedure);
            Ok(put_constants(
                alloc,
                scope,
                owner,
                place,
                statement,
                constants.as_slice(),
                to,
            )?)
        }
        _ => Ok(()),
    }
}

fn declared_field<'a>(owner: Owner, place: Place, statement: u32, field: &'a Field6) -> NamedVar<'a>
    ensures { variable_of result ≡ Rattle.declared_names.specs.Declaring.field_in owner place statement field.now.name field.now.suffix (option_map (map bounds_of) field.now.bounds) (Rattle.vb_tree.specs.View.type_name_of field.now.ty) }
{
    NamedVar {
        name: &field.name,
        suffix: field.suffix,
        place,
        statement,
        owner,
        extents: extents(&field.bounds),
        auto: false,
        ty: Some(&field.ty),
        passing: Passing::Unsaid,
        optional: false,
        param_array: false,
        preset: None,
    }
}

/// Puts the field that a line in a Type declares.
#[tactic(auto, using(crate::proofs::Following::behind_nothing))]
pub(crate) fn put_field_line<'a>(
    owner: Owner,
    statement: u32,
    place: Place,
    form: &'a Form6,
    to: &mut DeclaredNames<'a>,
) -> Result<(), Mem>
    ensures { OnOk result (names_of to.new ≡ with_declared (field_declares owner statement place (form_of form.now)) (names_of to.old)) }
{
    match form {
        Form6::Field(field) => Ok(put_field(declared_field(owner, place, statement, field), to)?),
        _ => Ok(()),
    }
}
