//! What is written for types.
ghost use Rattle.std.specs.Prelude.{◌≡◌, IfOk};
ghost use Rattle.vb_tree.specs.BoundView.{type_of};
ghost use Rattle.bound_tree.specs.View.{declarations_of, variable_of};
ghost use Rattle.net_tree.specs.Types as net;
ghost use Rattle.net_tree.specs.View.{type_name_of};
ghost use Rattle.written_trees.specs.Types as types;
ghost use Rattle.written_rows.specs.View.{facts_of, scope_of};

use crate::names::{class_path, type_path};
use crate::{Scope, WrittenFacts};
use bound_tree::{Declared, VarDecl};
use net_tree::NetType;
use std::alloc::Global;
use up_base::Mem;
use vb_tree::Type6;

fn array_of(alloc: Global, element: NetType, rank: u8) -> Result<NetType, Mem>
    ensures { IfOk result (λ t. type_name_of t ≡ net.array_of (type_name_of element) rank) }
{
    Ok(NetType::ArrayOf(Box::new(alloc, element)?, rank))
}

/// A type in the module of a file; an array of it has a rank.
pub fn type_with(
    alloc: Global,
    declared: &Declared,
    file: u32,
    qualified: bool,
    rank: u8,
    ty: &Type6,
) -> Result<NetType, Mem>
    ensures { IfOk result (λ t. type_name_of t ≡ types.type_with (declarations_of declared.now) file qualified rank (type_of ty.now)) }
{
    match ty {
        Type6::Boolean => Ok(NetType::Boolean),
        Type6::Byte => Ok(NetType::Byte),
        Type6::Integer => Ok(NetType::Short),
        Type6::Long => Ok(NetType::Integer),
        Type6::Currency => Ok(NetType::Decimal),
        Type6::Str => Ok(NetType::Str),
        Type6::Fixed(_) => Ok(NetType::Str),
        Type6::User(t) => Ok(NetType::Named(type_path(alloc, declared, file, qualified, *t)?)),
        Type6::Class(c) => Ok(NetType::Named(class_path(alloc, declared, *c)?)),
        Type6::Object => Ok(NetType::Object),
        Type6::Variant => Ok(NetType::Object),
        Type6::Array(element, _) => {
            let element = type_with(alloc, declared, file, qualified, rank, element)?;
            Ok(array_of(alloc, element, rank)?)
        }
        Type6::Nothing => Ok(NetType::Object),
        Type6::Unknown => Ok(NetType::Object),
    }
}

/// A type that no declaration names there.
pub fn written_type(alloc: Global, scope: &Scope, ty: &Type6) -> Result<NetType, Mem>
    ensures { IfOk result (λ t. type_name_of t ≡ types.written_type (scope_of scope.now) (type_of ty.now)) }
{
    Ok(type_with(alloc, scope.declared, scope.file, false, 1, ty)?)
}

/// The type in the declaration of a variable with its number, in the module of a file.
pub fn variable_type(
    alloc: Global,
    declared: &Declared,
    facts: &WrittenFacts,
    file: u32,
    variable: u32,
    decl: &VarDecl,
) -> Result<NetType, Mem>
    ensures { IfOk result (λ t. type_name_of t ≡ types.variable_type (declarations_of declared.now) (facts_of facts.now) file variable (variable_of decl.now)) }
{
    let rank = facts.rank(variable as usize);
    Ok(type_with(alloc, declared, file, decl.qualified, rank, &decl.ty)?)
}

/// What is written for the element type of an array; for that of anything else Object.
pub fn written_element_type(alloc: Global, scope: &Scope, ty: &Type6) -> Result<NetType, Mem>
    ensures { IfOk result (λ t. type_name_of t ≡ types.written_type (scope_of scope.now) (types.element_type (type_of ty.now))) }
{
    match ty {
        Type6::Array(element, _) => Ok(written_type(alloc, scope, element)?),
        _ => Ok(NetType::Object),
    }
}
