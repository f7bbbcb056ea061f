//! Copies of types and values of declarations.
ghost use Rattle.std.specs.Prelude.{◌≡◌, IfOk};
ghost use Rattle.vb_tree.specs.BoundView.{type_of};

use std::alloc::Global;
use up_base::{Mem, Wide};
use vb_tree::{Type6, Value6};

pub fn copy_type(alloc: Global, ty: &Type6) -> Result<Type6, Mem>
    ensures { IfOk result (λ t. type_of t ≡ type_of ty.now) }
{
    match ty {
        Type6::Boolean => Ok(Type6::Boolean),
        Type6::Byte => Ok(Type6::Byte),
        Type6::Integer => Ok(Type6::Integer),
        Type6::Long => Ok(Type6::Long),
        Type6::Currency => Ok(Type6::Currency),
        Type6::Str => Ok(Type6::Str),
        Type6::Fixed(units) => Ok(Type6::Fixed(*units)),
        Type6::User(number) => Ok(Type6::User(*number)),
        Type6::Class(number) => Ok(Type6::Class(*number)),
        Type6::Object => Ok(Type6::Object),
        Type6::Variant => Ok(Type6::Variant),
        Type6::Array(element, rank) => {
            let element = copy_type(alloc, element)?;
            Ok(Type6::Array(Box::new(alloc, element)?, *rank))
        }
        Type6::Nothing => Ok(Type6::Nothing),
        Type6::Unknown => Ok(Type6::Unknown),
    }
}

pub fn copy_value(alloc: Global, value: &Value6) -> Result<Value6, Mem>
    ensures { IfOk result (λ copy. copy ≡ value.now) }
{
    match value {
        Value6::Boolean(b) => Ok(Value6::Boolean(*b)),
        Value6::Byte(n) => Ok(Value6::Byte(*n)),
        Value6::Int(n) => Ok(Value6::Int(*n)),
        Value6::Long(n) => Ok(Value6::Long(*n)),
        Value6::Cur(n) => Ok(Value6::Cur(*n)),
        Value6::Str(units) => Ok(Value6::Str(Wide::from_slice(alloc, units.as_slice())?)),
        Value6::Nothing => Ok(Value6::Nothing),
        Value6::Object(number) => Ok(Value6::Object(*number)),
        Value6::Empty => Ok(Value6::Empty),
    }
}
