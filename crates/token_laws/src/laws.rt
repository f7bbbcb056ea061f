//! Laws of the definitions.
ghost use Rattle.std.specs.Prelude.{◌≡◌, ◌≢◌, ◌⊎◌, ℕ, List, [], None, Result, Err};
ghost use Rattle.vb_tree.specs.declared.token.Line.{Line};
ghost use Rattle.std.specs.List.{AllByRecursion};
ghost use Rattle.vb_tree.specs.Tokens.{token_at};
ghost use Rattle.vb_tree.specs.LogicalLines.{AreSpread, IsPlaced, content_from};
ghost use Rattle.vb_tree.specs.TokenClasses.{IsLongest, BeginsNone};
ghost use Rattle.vb_lexer.specs.Answers.{Answers};
ghost use Rattle.vb_lexer.specs.declared.lex_fail.LexFail.{LexFail};

/// A text has one answer, want of memory apart.
pub fn one_answer()
    ensures { (file : ℕ) (text : List ℕ) (a b : Result (List Line) LexFail) → a ≢ Err LexFail.Mem → b ≢ Err LexFail.Mem
        → Answers file text a → Answers file text b → a ≡ b }
{}

/// The token that is read at a place is the longest one that stands there, of all classes; none is read where its number can't
/// be held or its name is too long, and where no token stands.
#[tactic(auto, using(crate::proofs::OtherShapes::longest_or_none))]
pub fn longest_token()
    ensures { (units : List ℕ) → IsLongest units (token_at units) ⊎ ((token_at units ≡ None) × BeginsNone units) }
{}

/// Each token of a line is the one that is read at its place, and has the physical line of that place.
#[tactic(auto, using(crate::proofs::PlacedTokens::placed))]
pub fn placed_tokens()
    ensures { (units : List ℕ) (number : ℕ) → AllByRecursion (IsPlaced units number) (content_from [] number 0 0 units).tokens }
{}

/// The tokens of a line stand in order, with blanks, tabs and continuations alone before and between them.
#[tactic(auto, using(crate::proofs::SpreadTokens::spread))]
pub fn spread_tokens()
    ensures { (units : List ℕ) (number : ℕ) → AreSpread units 0 (content_from [] number 0 0 units).tokens }
{}
