//! The meaning of Visual Basic 6: its values, conversions and operators.
#![tactic(auto)]

mod answer;
mod arithmetic;
mod bits;
mod comparisons;
mod conversions;
mod fail;
mod laws;
mod number;
mod operators;
mod rounding;
mod texts;
mod values;

pub use conversions::coerce6;
pub use fail::Op6Fail;
pub use laws::{bit_by_bit, nearest_even};
pub use number::{Number, NumberKind};
pub use operators::operate6;
