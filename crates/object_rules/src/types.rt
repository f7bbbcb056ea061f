//! Types that are the same.
ghost use Rattle.std.specs.Prelude.{◌≡◌};
ghost use Rattle.vb_tree.specs.BoundView.{type_of};
ghost use Rattle.bound_facts.specs.Locks.{is_same_type};

use vb_tree::Type6;

/// Whether two types are the same; of arrays the element types alone are compared.
pub(crate) fn is_same_type(a: &Type6, b: &Type6) -> bool
    ensures { result ≡ is_same_type (type_of a.now) (type_of b.now) }
{
    match (a, b) {
        (Type6::Boolean, Type6::Boolean) => true,
        (Type6::Byte, Type6::Byte) => true,
        (Type6::Integer, Type6::Integer) => true,
        (Type6::Long, Type6::Long) => true,
        (Type6::Currency, Type6::Currency) => true,
        (Type6::Str, Type6::Str) => true,
        (Type6::Fixed(m), Type6::Fixed(n)) => *m == *n,
        (Type6::User(m), Type6::User(n)) => *m == *n,
        (Type6::Class(m), Type6::Class(n)) => *m == *n,
        (Type6::Object, Type6::Object) => true,
        (Type6::Variant, Type6::Variant) => true,
        (Type6::Array(x, _), Type6::Array(y, _)) => is_same_type(x, y),
        (Type6::Nothing, Type6::Nothing) => true,
        (Type6::Unknown, Type6::Unknown) => true,
        _ => false,
    }
}
