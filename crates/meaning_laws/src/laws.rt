//! What is written gives the same values: where an operation of Visual Basic 6 gives a value, its written form on matching
//! operands gives one that matches, and where it raises a number, so does the written form. Where nothing is written for an
//! operator, there is no value to give.
ghost use Rattle.std.specs.Prelude.{◌≡◌, ℕ, Bool, true, is_some};
ghost use Rattle.vb_tree.specs.BoundTree.{Ty, variant};
ghost use Rattle.vb_tree.specs.declared.expression.BinOp.{BinOp};
ghost use Rattle.vb_tree.specs.declared.expression.UnOp.{UnOp};
ghost use Rattle.vb_tree.specs.declared.value.Value6.{Value6};
ghost use Rattle.net_meaning.specs.WrittenLiterals.{is_within, write_constant, IsWrittenConstant};
ghost use Rattle.net_meaning.specs.WrittenRows.{write_conversion, write_from_variant};
ghost use Rattle.net_meaning.specs.SameValues.{is_typed, IsSameOperator, IsSameUnary, IsSameConversion, IsSameFromVariant, IsOneToOne};
ghost use Rattle.meaning_laws.specs.Conversions.{has_conversion, has_literal};

/// What is written for `+`, on numbers and on texts, gives the same.
#[tactic(auto, using(crate::proofs::SameRows::add))]
pub fn same_add()
    ensures { (are_same : ℕ → ℕ → Bool) → IsSameOperator are_same BinOp.Add }
{}

/// What is written for `-` on two numbers gives the same.
#[tactic(auto, using(crate::proofs::SameRows::subtract))]
pub fn same_subtract()
    ensures { (are_same : ℕ → ℕ → Bool) → IsSameOperator are_same BinOp.Sub }
{}

/// What is written for `*` gives the same.
#[tactic(auto, using(crate::proofs::SameRows::multiply))]
pub fn same_multiply()
    ensures { (are_same : ℕ → ℕ → Bool) → IsSameOperator are_same BinOp.Mul }
{}

/// What is written for `\` gives the same.
#[tactic(auto, using(crate::proofs::SameRows::divide))]
pub fn same_divide()
    ensures { (are_same : ℕ → ℕ → Bool) → IsSameOperator are_same BinOp.IntDiv }
{}

/// What is written for `Mod` gives the same.
#[tactic(auto, using(crate::proofs::SameRows::modulo))]
pub fn same_modulo()
    ensures { (are_same : ℕ → ℕ → Bool) → IsSameOperator are_same BinOp.Mod }
{}

/// What is written for `&` gives the same.
#[tactic(auto, using(crate::proofs::SameRows::concatenate))]
pub fn same_concatenate()
    ensures { (are_same : ℕ → ℕ → Bool) → IsSameOperator are_same BinOp.Concat }
{}

/// What is written for `=` gives the same.
#[tactic(auto, using(crate::proofs::SameRows::equal))]
pub fn same_equal()
    ensures { (are_same : ℕ → ℕ → Bool) → IsSameOperator are_same BinOp.Equal }
{}

/// What is written for `<>` gives the same.
#[tactic(auto, using(crate::proofs::SameRows::not_equal))]
pub fn same_not_equal()
    ensures { (are_same : ℕ → ℕ → Bool) → IsSameOperator are_same BinOp.NotEqual }
{}

/// What is written for `<` gives the same.
#[tactic(auto, using(crate::proofs::SameRows::less))]
pub fn same_less()
    ensures { (are_same : ℕ → ℕ → Bool) → IsSameOperator are_same BinOp.Less }
{}

/// What is written for `>` gives the same.
#[tactic(auto, using(crate::proofs::SameRows::greater))]
pub fn same_greater()
    ensures { (are_same : ℕ → ℕ → Bool) → IsSameOperator are_same BinOp.Greater }
{}

/// What is written for `<=` gives the same.
#[tactic(auto, using(crate::proofs::SameRows::less_equal))]
pub fn same_less_equal()
    ensures { (are_same : ℕ → ℕ → Bool) → IsSameOperator are_same BinOp.LessEqual }
{}

/// What is written for `>=` gives the same.
#[tactic(auto, using(crate::proofs::SameRows::greater_equal))]
pub fn same_greater_equal()
    ensures { (are_same : ℕ → ℕ → Bool) → IsSameOperator are_same BinOp.GreaterEqual }
{}

/// What is written for `And` gives the same.
#[tactic(auto, using(crate::proofs::SameRows::both))]
pub fn same_and()
    ensures { (are_same : ℕ → ℕ → Bool) → IsSameOperator are_same BinOp.And }
{}

/// What is written for `Or` gives the same.
#[tactic(auto, using(crate::proofs::SameRows::either))]
pub fn same_or()
    ensures { (are_same : ℕ → ℕ → Bool) → IsSameOperator are_same BinOp.Or }
{}

/// What is written for `Xor` gives the same.
#[tactic(auto, using(crate::proofs::SameRows::one_alone))]
pub fn same_xor()
    ensures { (are_same : ℕ → ℕ → Bool) → IsSameOperator are_same BinOp.Xor }
{}

/// What is written for `Eqv` gives the same.
#[tactic(auto, using(crate::proofs::SameRows::alike))]
pub fn same_eqv()
    ensures { (are_same : ℕ → ℕ → Bool) → IsSameOperator are_same BinOp.Eqv }
{}

/// What is written for `Imp` gives the same.
#[tactic(auto, using(crate::proofs::SameRows::implies))]
pub fn same_imp()
    ensures { (are_same : ℕ → ℕ → Bool) → IsSameOperator are_same BinOp.Imp }
{}

/// `^` is not written, and has no value.
#[tactic(auto, using(crate::proofs::SameRows::pow))]
pub fn same_power()
    ensures { (are_same : ℕ → ℕ → Bool) → IsSameOperator are_same BinOp.Pow }
{}

/// `/` is not written, and has no value.
#[tactic(auto, using(crate::proofs::SameRows::div))]
pub fn same_quotient()
    ensures { (are_same : ℕ → ℕ → Bool) → IsSameOperator are_same BinOp.Div }
{}

/// `Like` is not written, and has no value.
#[tactic(auto, using(crate::proofs::SameRows::like))]
pub fn same_like()
    ensures { (are_same : ℕ → ℕ → Bool) → IsSameOperator are_same BinOp.Like }
{}

/// What is written for `Is` gives the same, where no object is the same as two.
#[tactic(auto, using(crate::proofs::SameRows::is_same_object))]
pub fn same_is()
    ensures { (are_same : ℕ → ℕ → Bool) → IsOneToOne are_same → IsSameOperator are_same BinOp.Is }
{}

/// What is written for a unary minus gives the same.
pub fn same_minus()
    ensures { (are_same : ℕ → ℕ → Bool) → IsSameUnary are_same UnOp.Neg }
{}

/// What is written for `Not` gives the same.
pub fn same_not()
    ensures { (are_same : ℕ → ℕ → Bool) → IsSameUnary are_same UnOp.Not }
{}

/// What is written for a conversion between types gives the same.
#[tactic(auto, using(crate::proofs::ConversionRows::conversion))]
pub fn same_conversion()
    ensures { (are_same : ℕ → ℕ → Bool) (t : Ty) → IsSameConversion are_same t }
{}

/// What is written for a conversion of a Variant, a call of a support function, gives the same.
pub fn same_from_variant()
    ensures { (are_same : ℕ → ℕ → Bool) (t : Ty) → IsSameFromVariant are_same t }
{}

/// What is written for a constant within the limits of its type gives a value that matches it.
pub fn same_constant()
    ensures { (are_same : ℕ → ℕ → Bool) (hexadecimal : Bool) (a : Value6) → is_within a ≡ true
        → IsWrittenConstant are_same a (write_constant hexadecimal a) }
{}

/// Something is written for a conversion between two types exactly where there is one, and so for a conversion of a Variant: where
/// `same_conversion` and `same_from_variant` say nothing, there is none.
#[tactic(auto, using(crate::proofs::WrittenWhere::conversion, crate::proofs::WrittenWhere::from_variant))]
pub fn conversion_is_written()
    ensures conversions { (s t : Ty) → is_typed s ≡ true → is_some (write_conversion s t) ≡ has_conversion s t }
    ensures variants { (t : Ty) → is_some (write_from_variant t) ≡ has_conversion variant t }
{}

/// Each Boolean, number and text has a written constant, and nothing else has one.
#[tactic(auto, using(crate::proofs::WrittenWhere::constant))]
pub fn constant_is_written()
    ensures { (hexadecimal : Bool) (a : Value6) → is_some (write_constant hexadecimal a) ≡ has_literal a }
{}
