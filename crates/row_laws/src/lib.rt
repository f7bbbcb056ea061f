//! What is computed by what is written for operators, conversions, constants, printed items and calls of the library: the .NET
//! row of each, on the values of its operands from the left. The laws hold in any scope in which the names of the functions
//! aren't captured.
#![tactic(auto)]

mod laws;

pub use laws::{
    box_is_put, constant_is_given, conversion_is_row, converted_is_row, converted_variant_is_row,
    err_number_is_given, extent_is_row, from_variant_is_row, index_is_row, instr_is_row,
    item_gives_text, item_is_row, item_prints_same, items_are_joined, left_is_row, library_is_row,
    literal_fits, literal_is_constant, mid_is_row, middle_is_row, not_upgraded_is_row,
    operator_is_row, question_is_answered, raise_is_row, right_is_row, row_of_one_computes,
    row_of_two_computes, same_absolute_of_currency, same_absolute_of_integer,
    same_absolute_of_long, same_instr, same_left, same_library, same_mid, same_middle,
    same_negative_of_variant, same_not_of_variant, same_of_variants, same_right, text_is_put,
    typed_row_computes, unary_is_row, variant_imp_is_row, variant_is_row, variant_unary_is_row,
};
