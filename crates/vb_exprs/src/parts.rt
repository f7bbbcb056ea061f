//! The parts of expressions that hold no expression: operands of one token, names, types and marks.
ghost use Rattle.std.specs.Prelude.{◌≡◌, ℕ, List, ◌<◌, ◌≤◌, ◌∷◌, ◌++◌, [], length, IfOk, IfSome, MatchBool, MatchOption, Some, None, true, false};
ghost use Rattle.up_base.specs.Names.{is_name, lower_case};
ghost use Rattle.vb_tree.specs.View.{exp_of};
ghost use Rattle.vb_tree.specs.Expressions.{Symbol, leaf, naming, access, closing, comma, assign, symbols, symbol_of, word_symbol, keyword_of, Naming, name_of, name_in, IsWord, Leaf, leaf_tree, level_of, depth_of, WrittenType, type_spelling, type_in, IsType};
ghost use Rattle.vb_exprs.specs.TokenClass.{class_of};
ghost use Rattle.vb_exprs.specs.Reading.{continues_of, GivesLeaf, GivesType, IsMark, EndsArgument, NoPartAfter};

use crate::token_class::{Class, class_at, word_class};
use std::alloc::Global;
use up_base::{Mem, Name, NameFail, Wide};
use vb_tree::{BinOp, Expr6, Literal6, Suffix, Token, TokenKind};

/// The level of an operator in the precedence list, from the tightest, 1.
pub fn level(op: BinOp) -> u8
    ensures { result ≡ level_of op }
{
    match op {
        BinOp::Pow => 1,
        BinOp::Mul | BinOp::Div => 3,
        BinOp::IntDiv => 4,
        BinOp::Mod => 5,
        BinOp::Add | BinOp::Sub => 6,
        BinOp::Concat => 7,
        BinOp::Equal
        | BinOp::NotEqual
        | BinOp::Less
        | BinOp::Greater
        | BinOp::LessEqual
        | BinOp::GreaterEqual
        | BinOp::Is
        | BinOp::Like => 8,
        BinOp::And => 10,
        BinOp::Or => 11,
        BinOp::Xor => 12,
        BinOp::Eqv => 13,
        BinOp::Imp => 14,
    }
}

/// The first token with what it is, and the others.
pub fn split(tokens: &[Token]) -> Option<(Class, &Token, &[Token])>
    ensures { MatchOption result (tokens.now ≡ [])
        (λ f. (tokens.now ≡ f.1.now ∷ f.2.now) × (f.0 ≡ class_of (symbol_of f.1.now.kind))) }
{
    match tokens {
        [first, rest @ ..] => Some((class_at(first), first, rest)),
        [] => None,
    }
}

/// Whether what comes next takes an operand into what is read below the bound.
pub fn continues(tokens: &[Token], bound: u8) -> bool
    ensures { result ≡ continues_of bound (symbols tokens.now) }
{
    let Some((class, _, _)) = split(tokens) else {
        return false;
    };
    match class {
        Class::Operator(op, _) => level(op) < bound,
        Class::Access(_) => true,
        Class::Opening => true,
        _ => false,
    }
}

/// What follows a closing parenthesis at the front.
#[tactic(auto, using(crate::proofs::Symbols::closing_front, crate::proofs::Symbols::closing_other))]
pub fn after_closing(tokens: &[Token]) -> Option<&[Token]>
    ensures { MatchOption result
        ((rest : List Symbol) → symbols tokens.now ≡ closing ∷ rest → ⊥)
        (λ rest. symbols tokens.now ≡ closing ∷ symbols rest.now) }
{
    let (class, _, rest) = split(tokens)?;
    match class {
        Class::Closing => Some(rest),
        _ => None,
    }
}

/// What follows a comma at the front.
#[tactic(auto, using(crate::proofs::Symbols::comma_front, crate::proofs::Symbols::comma_other))]
pub fn after_comma(tokens: &[Token]) -> Option<&[Token]>
    ensures { MatchOption result
        ((rest : List Symbol) → symbols tokens.now ≡ comma ∷ rest → ⊥)
        (λ rest. symbols tokens.now ≡ comma ∷ symbols rest.now) }
{
    let (class, _, rest) = split(tokens)?;
    match class {
        Class::Comma => Some(rest),
        _ => None,
    }
}

/// What follows `:=` at the front.
#[tactic(auto, using(crate::proofs::Symbols::assign_front, crate::proofs::Symbols::assign_other))]
pub fn after_assign(tokens: &[Token]) -> Option<&[Token]>
    ensures { MatchOption result
        ((rest : List Symbol) → symbols tokens.now ≡ assign ∷ rest → ⊥)
        (λ rest. symbols tokens.now ≡ assign ∷ symbols rest.now) }
{
    let (class, _, rest) = split(tokens)?;
    match class {
        Class::Assign => Some(rest),
        _ => None,
    }
}

/// What follows a full stop at the front.
#[tactic(auto, using(crate::proofs::Symbols::dot_front, crate::proofs::Symbols::dot_other))]
pub fn after_dot(tokens: &[Token]) -> Option<&[Token]>
    ensures { MatchOption result
        ((rest : List Symbol) → symbols tokens.now ≡ access false ∷ rest → ⊥)
        (λ rest. symbols tokens.now ≡ access false ∷ symbols rest.now) }
{
    let (class, _, rest) = split(tokens)?;
    match class {
        Class::Access(false) => Some(rest),
        _ => None,
    }
}

/// The name that a first token is, and the others.

pub fn naming(tokens: &[Token]) -> Option<(&Name, &[Token])>
    ensures { MatchOption result
        ((n : Naming) (rest : List Symbol) → symbols tokens.now ≡ leaf (naming n) ∷ rest → ⊥)
        (λ f. (n : Naming) × (symbols tokens.now ≡ leaf (naming n) ∷ symbols f.1.now) × (name_of n ≡ f.0.now)) }
{
    let (class, first, rest) = split(tokens)?;
    let Class::Naming = class else {
        return None;
    };
    Some((word(first)?, rest))
}

// The letters of a word, in brackets or not.
fn word(token: &Token) -> Option<&Name>
    ensures { MatchOption result (IsWord (symbol_of token.now.kind) → ⊥)
        (λ n. IsWord (symbol_of token.now.kind) × (name_in (symbol_of token.now.kind) ≡ n.now)) }
{
    match &token.kind {
        TokenKind::Word(name, _) => Some(name),
        TokenKind::Bracketed(name, _) => Some(name),
        TokenKind::Lit(_) => None,
        TokenKind::Sign(_) => None,
    }
}

/// The name that a first token is behind `.` or `!`, and the others.
pub fn any_word(tokens: &[Token]) -> Option<(&Name, &[Token])>
    ensures { MatchOption result
        ((w : Symbol) (rest : List Symbol) → IsWord w → symbols tokens.now ≡ w ∷ rest → ⊥)
        (λ f. (w : Symbol) × IsWord w × (symbols tokens.now ≡ w ∷ symbols f.1.now) × (name_in w ≡ f.0.now)) }
{
    let [first, rest @ ..] = tokens else {
        return None;
    };
    Some((word(first)?, rest))
}

// Two names with a full stop between them, unless they are too long for one.
fn joined(alloc: Global, library: &Name, part: &Name) -> Result<Option<Name>, Mem>
    ensures { IfOk result (λ name. MatchOption name (is_name (library.now ++ 46 ∷ part.now) ≡ false)
        (λ n. (n ≡ library.now ++ 46 ∷ part.now) × (is_name (library.now ++ 46 ∷ part.now) ≡ true))) }
{
    let mut bytes = Vec::from_slice(alloc, library.as_bytes())?;
    bytes.push(b'.')?;
    bytes.extend_from_slice(part.as_bytes())?;
    match Name::make(alloc, &bytes) {
        Ok(name) => Ok(Some(name)),
        Err(NameFail::NotName) => Ok(None),
        Err(NameFail::Mem) => Err(Mem),
    }
}

// The name with the full stop and the word that follow it, where they make one name.
fn qualified<'a>(
    alloc: Global,
    library: &Name,
    tokens: &'a [Token],
) -> Result<Option<(Name, &'a [Token])>, Mem>
    ensures { IfOk result (λ found. MatchOption found
        ((w : Symbol) (rest : List Symbol) → IsWord w → symbols tokens.now ≡ access false ∷ w ∷ rest
        → is_name (library.now ++ 46 ∷ name_in w) ≡ false)
        (λ f. (w : Symbol) × IsWord w × (symbols tokens.now ≡ access false ∷ w ∷ symbols f.1.now)
        × (f.0 ≡ library.now ++ 46 ∷ name_in w) × (is_name (library.now ++ 46 ∷ name_in w) ≡ true))) }
{
    let Some(dotted) = after_dot(tokens) else {
        return Ok(None);
    };
    let Some((part, rest)) = any_word(dotted) else {
        return Ok(None);
    };
    let Some(name) = joined(alloc, library, part)? else {
        return Ok(None);
    };
    Ok(Some((name, rest)))
}

/// The type that the tokens begin with, as long as possible.
pub fn type_name(alloc: Global, tokens: &[Token]) -> Result<Option<(Name, &[Token])>, Mem>
    ensures shorter { IfOk result (λ found. IfSome found (λ f. length f.1.now < length tokens.now)) }
    ensures given { (ty : WrittenType) (rest : List Symbol) → symbols tokens.now ≡ type_spelling ty ++ rest
        → IsType ty → NoPartAfter ty rest → IfOk result (λ found. GivesType found (type_in ty) rest) }
{
    let Some((first, rest)) = naming(tokens) else {
        return Ok(None);
    };
    if let Some((name, rest)) = qualified(alloc, first, rest)? {
        return Ok(Some((name, rest)));
    }
    Ok(Some((first.copy(alloc)?, rest)))
}

// The same text again.
fn copy_text(alloc: Global, text: &Wide) -> Result<Wide, Mem>
    ensures { IfOk result (λ copy. copy ≡ text.now) }
{
    Wide::from_slice(alloc, text.as_slice())
}

// The same literal again.
fn copy_literal(alloc: Global, literal: &Literal6) -> Result<Literal6, Mem>
    ensures { IfOk result (λ copy. copy ≡ literal.now) }
{
    Ok(match literal {
        Literal6::Int(value, spelt) => Literal6::Int(*value, *spelt),
        Literal6::Long(value, spelt) => Literal6::Long(*value, *spelt),
        Literal6::Cur(value) => Literal6::Cur(*value),
        Literal6::Plain(value) => Literal6::Plain(*value),
        Literal6::Floating => Literal6::Floating,
        Literal6::Date => Literal6::Date,
        Literal6::Str(text) => Literal6::Str(copy_text(alloc, text)?),
    })
}

// A word that is an operand by itself.
fn word_operand(alloc: Global, name: &Name, suffix: Suffix) -> Result<Option<Expr6>, Mem>
    ensures flat { IfOk result (λ found. IfSome found (λ e. depth_of (exp_of e) ≡ 0)) }
    ensures given { (a : Leaf) → word_symbol (keyword_of (lower_case name.now)) name.now suffix ≡ leaf a
        → IfOk result (λ found. GivesLeaf found (leaf_tree a)) }
{
    match word_class(name, suffix) {
        Class::Naming => Ok(Some(Expr6::Word(name.copy(alloc)?, suffix))),
        Class::Constant => Ok(Some(Expr6::Word(name.copy(alloc)?, suffix))),
        Class::Me => Ok(Some(Expr6::Me)),
        _ => Ok(None),
    }
}

/// A token that is an operand by itself.
pub fn operand(alloc: Global, token: &Token) -> Result<Option<Expr6>, Mem>
    ensures flat { IfOk result (λ found. IfSome found (λ e. depth_of (exp_of e) ≡ 0)) }
    ensures given { (a : Leaf) → symbol_of token.now.kind ≡ leaf a
        → IfOk result (λ found. GivesLeaf found (leaf_tree a)) }
{
    match &token.kind {
        TokenKind::Lit(literal) => Ok(Some(Expr6::Lit(copy_literal(alloc, literal)?))),
        TokenKind::Bracketed(name, suffix) => {
            Ok(Some(Expr6::Bracketed(name.copy(alloc)?, *suffix)))
        }
        TokenKind::Word(name, suffix) => word_operand(alloc, name, *suffix),
        TokenKind::Sign(_) => Ok(None),
    }
}

/// The name before `:=` that the tokens begin with, and what follows it.
pub fn argument_name(tokens: &[Token]) -> Option<(&Name, &[Token])>
    ensures shorter { IfSome result (λ f. length f.1.now ≤ length tokens.now) }
    ensures is { MatchOption result
        ((n : Naming) (rest : List Symbol) → symbols tokens.now ≡ leaf (naming n) ∷ assign ∷ rest → ⊥)
        (λ f. (n : Naming) × (symbols tokens.now ≡ leaf (naming n) ∷ assign ∷ symbols f.1.now) × (name_of n ≡ f.0.now)) }
{
    let (name, rest) = naming(tokens)?;
    let rest = after_assign(rest)?;
    Some((name, rest))
}

/// What follows `ByVal` or `#` at the front.

pub fn after_mark(tokens: &[Token]) -> Option<&[Token]>
    ensures shorter { IfSome result (λ rest. length rest.now ≤ length tokens.now) }
    ensures is { MatchOption result
        ((s : Symbol) (rest : List Symbol) → symbols tokens.now ≡ s ∷ rest → IsMark s → ⊥)
        (λ rest. (s : Symbol) × (symbols tokens.now ≡ s ∷ symbols rest.now) × IsMark s) }
{
    let (class, _, rest) = split(tokens)?;
    match class {
        Class::ByVal => Some(rest),
        Class::Hash => Some(rest),
        _ => None,
    }
}

/// Whether an argument ends before the tokens.
pub fn ends_argument(tokens: &[Token]) -> bool
    ensures { MatchBool result (EndsArgument (symbols tokens.now)) (EndsArgument (symbols tokens.now) → ⊥) }
{
    let Some((class, _, _)) = split(tokens) else {
        return false;
    };
    match class {
        Class::Comma => true,
        Class::Closing => true,
        _ => false,
    }
}
