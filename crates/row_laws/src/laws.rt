//! The laws.
ghost use Rattle.std.specs.Prelude.{ℕ, ℤ, Bool, List, codes};
ghost use Rattle.vb_tree.specs.BoundTree.{Ty, integer, long, currency, str};
ghost use Rattle.vb_tree.specs.declared.bound.LibCall.{LibCall};
ghost use Rattle.vb_tree.specs.declared.expression.BinOp.{BinOp};
ghost use Rattle.vb_tree.specs.declared.expression.UnOp.{UnOp};
ghost use Rattle.vb_tree.specs.declared.value.Value6.{Value6};
ghost use Rattle.bound_tree.specs.Tree.{Expr};
ghost use Rattle.net_meaning.specs.Library.{left, right, mid_on, place};
ghost use Rattle.row_laws.specs.Follows.{Any};
ghost use Rattle.row_laws.specs.Items.{PrintsSame};
ghost use Rattle.row_laws.specs.Laws.{ConversionIsRow, FromVariantIsRow, ConvertedIsRow, ConvertedVariantIsRow, LiteralIsConstant, LiteralFits, OperatorIsRow, UnaryIsRow, VariantIsRow, VariantImp, VariantUnaryIsRow, RowOfOneComputes, RowOfTwoComputes, ConstantIsGiven, ItemIsRow, ItemGivesText, ItemsAreJoined, TextIsPut, LibraryIsRow, TextCallIsRow, MiddleIsRow, IndexIsRow, ExtentIsRow, QuestionIsAnswered, BoxIsPut, ErrNumberIsGiven, RaiseIsRow};
ghost use Rattle.row_laws.specs.Library.{SameLibrary, SameAbsolute, SameOfTwo, SameMiddle, SameOfVariants, SameNotOfVariant, SameNegativeOfVariant};
ghost use Rattle.row_laws.specs.Rows.{IsOf};

/// What is written for a conversion between types is its row.
#[tactic(auto, using(crate::proofs::Stated::conversion_is_row))]
pub fn conversion_is_row()
    ensures { (from to : Ty) → ConversionIsRow from to }
{}

/// What is written for a conversion of a Variant is its row.
#[tactic(auto, using(crate::proofs::Stated::from_variant_is_row))]
pub fn from_variant_is_row()
    ensures { (to : Ty) → FromVariantIsRow to }
{}

/// A literal in the place of a conversion is the constant that the conversion gives.
#[tactic(auto, using(crate::proofs::Stated::literal_is_constant))]
pub fn literal_is_constant()
    ensures { (to : Ty) → LiteralIsConstant to }
{}

/// A literal in the place of a factor of a product in Currency is what the conversion of the factor gives.
#[tactic(auto, using(crate::proofs::Stated::literal_fits))]
pub fn literal_fits()
    ensures { (e : Expr) → LiteralFits e }
{}

/// What is written for an operator on operands of declared types evaluates them from the left, and is its row.
#[tactic(auto, using(crate::proofs::Stated::operator_is_row))]
pub fn operator_is_row()
    ensures { (o : BinOp) → OperatorIsRow o }
{}

/// What is written for minus or Not of an operand of a declared type is its row.
#[tactic(auto, using(crate::proofs::Stated::unary_is_row))]
pub fn unary_is_row()
    ensures { (o : UnOp) → UnaryIsRow o }
{}

/// What is written for an operator on a Variant evaluates its operands from the left, and is the row of the support function.
#[tactic(auto, using(crate::proofs::Stated::variant_is_row))]
pub fn variant_is_row()
    ensures { (o : BinOp) → VariantIsRow o }
{}

/// What is written for Imp on Variants takes Not of the first operand before the second is evaluated.
#[tactic(auto, using(crate::proofs::Stated::variant_imp))]
pub fn variant_imp_is_row()
    ensures { VariantImp }
{}

/// What is written for minus or Not of a Variant is the row of the support function.
#[tactic(auto, using(crate::proofs::Stated::variant_unary_is_row))]
pub fn variant_unary_is_row()
    ensures { (o : UnOp) → VariantUnaryIsRow o }
{}

/// A row of an operand that gives single values computes the row on them.
#[tactic(auto, using(crate::proofs::Stated::row_of_one_computes))]
pub fn row_of_one_computes()
    ensures { RowOfOneComputes Any }
{}

/// So does a row of two operands.
#[tactic(auto, using(crate::proofs::Stated::row_of_two_computes))]
pub fn row_of_two_computes()
    ensures { RowOfTwoComputes Any }
{}

/// So does one whose first operand gives values of a type.
#[tactic(auto, using(crate::proofs::Stated::typed_row_computes))]
pub fn typed_row_computes()
    ensures { (are_same : ℕ → ℕ → Bool) (s : Ty) → RowOfTwoComputes (IsOf are_same s) }
{}

/// What is written for a constant gives a value that matches it.
#[tactic(auto, using(crate::proofs::Stated::constant_is_given))]
pub fn constant_is_given()
    ensures { (x : Value6) → ConstantIsGiven x }
{}

/// What is written for a printed item is the row of its type.
#[tactic(auto, using(crate::proofs::Stated::item_is_row))]
pub fn item_is_row()
    ensures { (ty : Ty) → ItemIsRow ty }
{}

/// The text of a Debug.Print is that of its items, one behind another, where they give Strings.
#[tactic(auto, using(crate::proofs::Stated::items_are_joined))]
pub fn items_are_joined()
    ensures { (es : List Expr) → ItemsAreJoined es }
{}

/// The call that is written for a Debug.Print puts out its text.
#[tactic(auto, using(crate::proofs::Stated::text_is_put))]
pub fn text_is_put()
    ensures { (ended : Bool) → TextIsPut ended }
{}

/// What is written for a call of the library on one value is its row.
#[tactic(auto, using(crate::proofs::Stated::library_is_row))]
pub fn library_is_row()
    ensures { (f : LibCall) → LibraryIsRow f }
{}

/// So is a call of `Left`.
#[tactic(auto, using(crate::proofs::Stated::left_is_row))]
pub fn left_is_row()
    ensures { TextCallIsRow (codes "Left") left }
{}

/// So is a call of `Right`.
#[tactic(auto, using(crate::proofs::Stated::right_is_row))]
pub fn right_is_row()
    ensures { TextCallIsRow (codes "Right") right }
{}

/// So is a call of `Mid` with two values.
#[tactic(auto, using(crate::proofs::Stated::mid_is_row))]
pub fn mid_is_row()
    ensures { TextCallIsRow (codes "Mid") mid_on }
{}

/// So is a call of `InStr`.
#[tactic(auto, using(crate::proofs::Stated::instr_is_row))]
pub fn instr_is_row()
    ensures { TextCallIsRow (codes "InStr") place }
{}

/// So is a call of `Mid` with three values.
#[tactic(auto, using(crate::proofs::Stated::middle_is_row))]
pub fn middle_is_row()
    ensures { MiddleIsRow }
{}

/// So is what is written for a conversion, where no literal stands in its place.
#[tactic(auto, using(crate::proofs::Stated::converted_is_row))]
pub fn converted_is_row()
    ensures { (to : Ty) → ConvertedIsRow to }
{}

/// So is what is written for a conversion of a Variant.
#[tactic(auto, using(crate::proofs::Stated::converted_variant_is_row))]
pub fn converted_variant_is_row()
    ensures { (to : Ty) → ConvertedVariantIsRow to }
{}

/// A printed item that isn't of type String itself gives a String.
#[tactic(auto, using(crate::proofs::Stated::item_gives_text))]
pub fn item_gives_text()
    ensures { (ty : Ty) → ItemGivesText ty }
{}

/// The row of a printed item gives the text that is printed of its value.
#[tactic(auto, using(crate::proofs::ItemTexts::prints_same))]
pub fn item_prints_same()
    ensures { (are_same : ℕ → ℕ → Bool) (ty : Ty) → PrintsSame are_same ty }
{}

/// The rows of calls of one value give the same values as the calls.
#[tactic(auto, using(crate::proofs::LibraryValues::library_same))]
pub fn same_library()
    ensures { (f : LibCall) → SameLibrary f }
{}

/// So does the row of `Abs` of an Integer.
#[tactic(auto, using(crate::proofs::LibraryValues::absolute_integer))]
pub fn same_absolute_of_integer()
    ensures { SameAbsolute integer }
{}

/// So does the row of `Abs` of a Long.
#[tactic(auto, using(crate::proofs::LibraryValues::absolute_long))]
pub fn same_absolute_of_long()
    ensures { SameAbsolute long }
{}

/// So does the row of `Abs` of a Currency.
#[tactic(auto, using(crate::proofs::LibraryValues::absolute_currency))]
pub fn same_absolute_of_currency()
    ensures { SameAbsolute currency }
{}

/// So does the row of `Left`.
#[tactic(auto, using(crate::proofs::LibraryValues::left_same))]
pub fn same_left()
    ensures { SameOfTwo LibCall.Left str long str left }
{}

/// So does the row of `Right`.
#[tactic(auto, using(crate::proofs::LibraryValues::right_same))]
pub fn same_right()
    ensures { SameOfTwo LibCall.Right str long str right }
{}

/// So does the row of `Mid` with two values.
#[tactic(auto, using(crate::proofs::LibraryValues::rest_same))]
pub fn same_mid()
    ensures { SameOfTwo LibCall.Mid str long str mid_on }
{}

/// So does the row of `Mid` with three values.
#[tactic(auto, using(crate::proofs::LibraryValues::middle_same))]
pub fn same_middle()
    ensures { SameMiddle }
{}

/// So does the row of `InStr`.
#[tactic(auto, using(crate::proofs::LibraryValues::place_same))]
pub fn same_instr()
    ensures { SameOfTwo LibCall.InStr str str long place }
{}

/// What is written for an index is its row.
#[tactic(auto, using(crate::proofs::Stated::index_is_row))]
pub fn index_is_row()
    ensures { (low : ℤ) → IndexIsRow low }
{}

/// So is what is written for an extent.
#[tactic(auto, using(crate::proofs::Stated::extent_is_row))]
pub fn extent_is_row()
    ensures { (low : ℤ) → ExtentIsRow low }
{}

/// What is written for an InputBox puts out its question and gives the next input.
#[tactic(auto, using(crate::proofs::Stated::question_is_answered))]
pub fn question_is_answered()
    ensures { QuestionIsAnswered }
{}

/// What is written for a MsgBox shows its text.
#[tactic(auto, using(crate::proofs::Stated::box_is_put))]
pub fn box_is_put()
    ensures { BoxIsPut }
{}

/// What is written for the Err number gives it.
#[tactic(auto, using(crate::proofs::Stated::err_number_is_given))]
pub fn err_number_is_given()
    ensures { ErrNumberIsGiven }
{}

/// What is written for Err.Raise raises its number.
#[tactic(auto, using(crate::proofs::Stated::raise_is_row))]
pub fn raise_is_row()
    ensures { RaiseIsRow (codes "Raise") 0 }
{}

/// What is written for a broken rule raises its number behind 1000.
#[tactic(auto, using(crate::proofs::Stated::not_upgraded_is_row))]
pub fn not_upgraded_is_row()
    ensures { RaiseIsRow (codes "NotUpgraded") 1000 }
{}

/// What is written for an operator on Variants gives the same.
#[tactic(auto, using(crate::proofs::VariantRows::same_of_variants))]
pub fn same_of_variants()
    ensures { (o : BinOp) → SameOfVariants o }
{}

/// What is written for Not of a Variant gives the same.
#[tactic(auto, using(crate::proofs::VariantNumbers::not_same))]
pub fn same_not_of_variant()
    ensures { SameNotOfVariant }
{}

/// What is written for minus of a Variant gives the same.
#[tactic(auto, using(crate::proofs::VariantSums::negative_same))]
pub fn same_negative_of_variant()
    ensures { SameNegativeOfVariant }
{}
