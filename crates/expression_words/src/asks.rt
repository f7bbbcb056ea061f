//! What is wanted of an expression where it stands.
ghost use Rattle.std.specs.Prelude.{◌≡◌};
ghost use Rattle.vb_tree.specs.BoundView.{type_of};
ghost use Rattle.expression_words.specs.Converting.{NamesRule};
ghost use Rattle.expression_words.specs.View.{asks_of};

use typing_rows::{
    CaseType, Conversion, argument, assigned, condition, converts, error_number, index, limit,
    printed, set_to,
};
use vb_tree::{LibCall, Type6};

/// What is wanted of an expression.
#[derive(Clone, Copy)]
pub enum Asks<'a> {
    /// One of this type, as for an argument.
    Type(&'a Type6),
    /// An index of an element, or a bound of a ReDim.
    Index,
    /// The argument of a call of the library at a place, counted from 0.
    Argument(LibCall, usize),
    /// The number that Err.Raise raises.
    ErrorNumber,
    /// A condition.
    Condition,
    /// An item of Debug.Print.
    Printed,
    /// The value of an assignment to a target of this type.
    Assigned(&'a Type6),
    /// The value of a Set of a target of this type.
    SetTo(&'a Type6),
    /// The start, the limit or the step of a For that counts in a variable of this type.
    Limit(&'a Type6),
    /// The expression of a Select Case or of an item, of a common type.
    Case(CaseType),
}

impl<'a> Asks<'a> {
    /// What becomes of an expression of a type.
    pub fn of(self, ty: &Type6) -> Conversion
        ensures answer { result ≡ asks_of self.entry (type_of ty.now) }
        ensures rule { NamesRule result }
    {
        match self {
            Asks::Type(to) => converts(ty, to),
            Asks::Index => index(ty),
            Asks::Argument(call, place) => argument(call, place, ty),
            Asks::ErrorNumber => error_number(ty),
            Asks::Condition => condition(ty),
            Asks::Printed => printed(ty),
            Asks::Assigned(to) => assigned(ty, to),
            Asks::SetTo(to) => set_to(ty, to),
            Asks::Limit(counter) => limit(ty, counter),
            Asks::Case(common) => common.converts(ty),
        }
    }
}
