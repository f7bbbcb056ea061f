//! That what is written gives the same values.
#![tactic(auto)]

mod laws;

pub use laws::{
    constant_is_written, conversion_is_written, same_add, same_and, same_concatenate,
    same_constant, same_conversion, same_divide, same_equal, same_eqv, same_from_variant,
    same_greater, same_greater_equal, same_imp, same_is, same_less, same_less_equal, same_like,
    same_minus, same_modulo, same_multiply, same_not, same_not_equal, same_or, same_power,
    same_quotient, same_subtract, same_xor,
};
