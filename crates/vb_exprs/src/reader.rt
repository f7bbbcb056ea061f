//! Reads an expression from tokens that are one.
ghost use Rattle.std.specs.Prelude.{◌≡◌, ◌<◌, ◌≤◌, ℕ, List, Option, ◌∷◌, length, is_some, IfOk, MatchBool};
ghost use Rattle.vb_tree.specs.Tree.{binary, index};
ghost use Rattle.vb_tree.specs.View.{exp_of, args_of, given_of};
ghost use Rattle.vb_tree.specs.Expressions.{Symbol, Leaf, leaf, leaf_tree, Written, WrittenArgs, WrittenValue, Naming, Mark, Prefix, prefix_of, prefix_symbol, prefix_level, symbols, symbol_of, access, opening, new_word, type_of_word, address_of_word, tree_of, arg_trees, value_tree, name_before, level_of, depth_of, IsWord, name_in, member_tree};
ghost use Rattle.vb_exprs.specs.Reading.{Stands, Starts, ArgsStand, ArgumentStands, EndsArgument, Link, LinkStands, extended, Gives, GivesArgs, GivesArgument, IsMeasured, AreMeasured, IsArgMeasured, IsOptionalName, IsOptionalMark};

use crate::fail::ExprFail;
use crate::parts::{
    after_closing, after_comma, after_mark, any_word, argument_name, continues, ends_argument,
    level, naming, operand, split, type_name,
};
use crate::token_class::Class;
use std::alloc::Global;
use up_base::{Mem, Name};
use vb_tree::{Arg6, BinOp, Expr6, Token, UnOp};

/// A part of an expression with its depth.
#[derive(Drop)]
pub struct Part {
    pub expr: Expr6,
    pub depth: u8,
}

#[derive(Drop)]
struct Listed {
    args: Vec<Arg6>,
    depth: u8,
}

#[derive(Drop)]
struct ReadArg {
    arg: Arg6,
    depth: u8,
}

/// Reads what the tokens begin with up to an operator of the bound's level or looser. It is exact where an
/// expression stands there, and answers anything elsewhere.
#[cycle(read)]
pub fn read(
    alloc: Global,
    tokens: &[Token],
    bound: u8,
    room: u8,
) -> Result<(Part, &[Token]), ExprFail>
    ensures measured { IfOk result (λ read. IsMeasured room read.0) }
    ensures shorter { IfOk result (λ read. length read.1.now < length tokens.now) }
    ensures given { (t : Written) (rest : List Symbol) → Stands bound t (symbols tokens.now) rest
        → Gives room result (tree_of t) rest }
{
    let (mut left, mut rest) = start(alloc, tokens, room)?;
    'links: while continues(rest, bound) {
        if left.depth >= room {
            return Err(ExprFail::TooDeep);
        }
        let (longer, beyond) = link(alloc, left, rest, room)?;
        left = longer;
        rest = beyond;
    }
    Ok((left, rest))
}

#[cycle(read)]
fn start(alloc: Global, tokens: &[Token], room: u8) -> Result<(Part, &[Token]), ExprFail>
    ensures measured { IfOk result (λ read. IsMeasured room read.0) }
    ensures shorter { IfOk result (λ read. length read.1.now < length tokens.now) }
    ensures given { (t : Written) (rest : List Symbol) → Starts t (symbols tokens.now) rest
        → Gives room result (tree_of t) rest }
{
    let Some((class, first, rest)) = split(tokens) else {
        return Err(ExprFail::NotExpr);
    };
    match class {
        Class::Opening => group(alloc, rest, room),
        Class::Operator(BinOp::Sub, false) => prefixed(alloc, UnOp::Neg, rest, room),
        Class::Not => prefixed(alloc, UnOp::Not, rest, room),
        Class::TypeOf => type_test(alloc, rest, room),
        Class::Access(bang) => implicit(alloc, bang, rest, room),
        Class::New => creation(alloc, rest),
        Class::AddressOf => address(alloc, rest, room),
        _ => simple(alloc, first, rest),
    }
}

// An operand of one token.
fn simple<'a>(
    alloc: Global,
    token: &Token,
    rest: &'a [Token],
) -> Result<(Part, &'a [Token]), ExprFail>
    ensures measured { IfOk result (λ read. IsMeasured 0 read.0) }
    ensures same { IfOk result (λ read. read.1.now ≡ rest.now) }
    ensures given { (a : Leaf) → symbol_of token.now.kind ≡ leaf a
        → Gives 0 result (leaf_tree a) (symbols rest.now) }
{
    let Some(expr) = operand(alloc, token)? else {
        return Err(ExprFail::NotExpr);
    };
    Ok((Part { expr, depth: 0 }, rest))
}

// `.n` or `!n` behind its sign.
fn implicit(
    alloc: Global,
    bang: bool,
    tokens: &[Token],
    room: u8,
) -> Result<(Part, &[Token]), ExprFail>
    ensures measured { IfOk result (λ read. IsMeasured room read.0) }
    ensures shorter { IfOk result (λ read. length read.1.now ≤ length tokens.now) }
    ensures given { (t : Written) (rest : List Symbol) → Starts t (access bang ∷ symbols tokens.now) rest
        → Gives room result (tree_of t) rest }
{
    if room == 0 {
        return Err(ExprFail::TooDeep);
    }
    let Some((name, rest)) = any_word(tokens) else {
        return Err(ExprFail::NotExpr);
    };
    let name = name.copy(alloc)?;
    let expr = if bang {
        Expr6::WithBang(name)
    } else {
        Expr6::WithMember(name)
    };
    Ok((Part { expr, depth: 1 }, rest))
}

// A type behind `New`.
fn creation(alloc: Global, tokens: &[Token]) -> Result<(Part, &[Token]), ExprFail>
    ensures measured { IfOk result (λ read. IsMeasured 0 read.0) }
    ensures shorter { IfOk result (λ read. length read.1.now ≤ length tokens.now) }
    ensures given { (w : List ℕ) (t : Written) (rest : List Symbol) → Starts t (new_word w ∷ symbols tokens.now) rest
        → Gives 0 result (tree_of t) rest }
{
    let Some((name, rest)) = type_name(alloc, tokens)? else {
        return Err(ExprFail::NotExpr);
    };
    let part = Part {
        expr: Expr6::New(name),
        depth: 0,
    };
    Ok((part, rest))
}

// A name behind `AddressOf`.
fn address(alloc: Global, tokens: &[Token], room: u8) -> Result<(Part, &[Token]), ExprFail>
    ensures measured { IfOk result (λ read. IsMeasured room read.0) }
    ensures shorter { IfOk result (λ read. length read.1.now ≤ length tokens.now) }
    ensures given { (w : List ℕ) (t : Written) (rest : List Symbol) → Starts t (address_of_word w ∷ symbols tokens.now) rest
        → Gives room result (tree_of t) rest }
{
    if room == 0 {
        return Err(ExprFail::TooDeep);
    }
    let Some((name, rest)) = naming(tokens) else {
        return Err(ExprFail::NotExpr);
    };
    let part = Part {
        expr: Expr6::AddressOf(name.copy(alloc)?),
        depth: 1,
    };
    Ok((part, rest))
}

// An operand behind an operator of one operand.
#[cycle(read)]
fn prefixed(
    alloc: Global,
    op: UnOp,
    tokens: &[Token],
    room: u8,
) -> Result<(Part, &[Token]), ExprFail>
    ensures measured { IfOk result (λ read. IsMeasured room read.0) }
    ensures shorter { IfOk result (λ read. length read.1.now ≤ length tokens.now) }
    ensures given { (p : Prefix) (t : Written) (rest : List Symbol) → prefix_of p ≡ op
        → Starts t (prefix_symbol p ∷ symbols tokens.now) rest → Gives room result (tree_of t) rest }
{
    if room == 0 {
        return Err(ExprFail::TooDeep);
    }
    let (inner, rest) = read(alloc, tokens, operand_bound(op), room - 1)?;
    let depth = inner.depth + 1;
    let expr = Expr6::Unary(op, Box::new(alloc, inner.expr)?);
    Ok((Part { expr, depth }, rest))
}

// The bound of what an operator of one operand takes.
fn operand_bound(op: UnOp) -> u8
    ensures { (p : Prefix) → prefix_of p ≡ op → result ≡ prefix_level p }
{
    match op {
        UnOp::Neg => 2,
        UnOp::Not => 9,
    }
}

// An expression and a closing parenthesis behind an opening one.
#[cycle(read)]
fn group(alloc: Global, tokens: &[Token], room: u8) -> Result<(Part, &[Token]), ExprFail>
    ensures measured { IfOk result (λ read. IsMeasured room read.0) }
    ensures shorter { IfOk result (λ read. length read.1.now ≤ length tokens.now) }
    ensures given { (t : Written) (rest : List Symbol) → Starts t (opening ∷ symbols tokens.now) rest
        → Gives room result (tree_of t) rest }
{
    if room == 0 {
        return Err(ExprFail::TooDeep);
    }
    let (inner, rest) = read(alloc, tokens, 15, room - 1)?;
    let Some(after) = after_closing(rest) else {
        return Err(ExprFail::NotExpr);
    };
    let depth = inner.depth + 1;
    let expr = Expr6::Paren(Box::new(alloc, inner.expr)?);
    Ok((Part { expr, depth }, after))
}

// An operand, `Is` and a type behind `TypeOf`.
#[cycle(read)]
fn type_test(alloc: Global, tokens: &[Token], room: u8) -> Result<(Part, &[Token]), ExprFail>
    ensures measured { IfOk result (λ read. IsMeasured room read.0) }
    ensures shorter { IfOk result (λ read. length read.1.now ≤ length tokens.now) }
    ensures given { (w : List ℕ) (t : Written) (rest : List Symbol) → Starts t (type_of_word w ∷ symbols tokens.now) rest
        → Gives room result (tree_of t) rest }
{
    if room == 0 {
        return Err(ExprFail::TooDeep);
    }
    let (inner, rest) = read(alloc, tokens, 1, room - 1)?;
    let Some((_, _, behind)) = split(rest) else {
        return Err(ExprFail::NotExpr);
    };
    let Some((name, beyond)) = type_name(alloc, behind)? else {
        return Err(ExprFail::NotExpr);
    };
    let depth = inner.depth + 1;
    let expr = Expr6::TypeOf(Box::new(alloc, inner.expr)?, name);
    Ok((Part { expr, depth }, beyond))
}

// Takes what was read into what its next token makes of it.
#[cycle(read)]
fn link(alloc: Global, left: Part, tokens: &[Token], room: u8) -> Result<(Part, &[Token]), ExprFail>
    requires measured { left.depth ≡ depth_of (exp_of left.expr) }
    requires shallow { left.depth < room }
    ensures measured { IfOk result (λ read. IsMeasured room read.0) }
    ensures shorter { IfOk result (λ read. length read.1.now < length tokens.now) }
    ensures given { (l : Written) (k : Link) (rest : List Symbol) → tree_of l ≡ exp_of left.expr
        → LinkStands k (symbols tokens.now) rest → Gives room result (tree_of (extended l k)) rest }
{
    let Some((class, _, after)) = split(tokens) else {
        return Err(ExprFail::NotExpr);
    };
    match class {
        Class::Operator(op, _) => with_operator(alloc, left, op, after, room),
        Class::Access(bang) => with_member(alloc, left, bang, after, room),
        Class::Opening => with_arguments(alloc, left, after, room),
        _ => Err(ExprFail::NotExpr),
    }
}

// Takes what was read into its member.
fn with_member(
    alloc: Global,
    left: Part,
    bang: bool,
    tokens: &[Token],
    room: u8,
) -> Result<(Part, &[Token]), ExprFail>
    requires measured { left.depth ≡ depth_of (exp_of left.expr) }
    requires shallow { left.depth < room }
    ensures measured { IfOk result (λ read. IsMeasured room read.0) }
    ensures shorter { IfOk result (λ read. length read.1.now ≤ length tokens.now) }
    ensures given { (n : Symbol) (rest : List Symbol) → symbols tokens.now ≡ n ∷ rest → IsWord n
        → Gives room result (member_tree (exp_of left.expr) bang (name_in n)) rest }
{
    let Some((name, rest)) = any_word(tokens) else {
        return Err(ExprFail::NotExpr);
    };
    let name = name.copy(alloc)?;
    let depth = left.depth + 1;
    let object = Box::new(alloc, left.expr)?;
    let expr = if bang {
        Expr6::Bang(object, name)
    } else {
        Expr6::Member(object, name)
    };
    Ok((Part { expr, depth }, rest))
}

// Takes what was read into an operator with its right operand.
#[cycle(read)]
fn with_operator(
    alloc: Global,
    left: Part,
    op: BinOp,
    tokens: &[Token],
    room: u8,
) -> Result<(Part, &[Token]), ExprFail>
    requires measured { left.depth ≡ depth_of (exp_of left.expr) }
    requires shallow { left.depth < room }
    ensures measured { IfOk result (λ read. IsMeasured room read.0) }
    ensures shorter { IfOk result (λ read. length read.1.now ≤ length tokens.now) }
    ensures given { (r : Written) (rest : List Symbol) → Stands (level_of op) r (symbols tokens.now) rest
        → Gives room result (binary op (exp_of left.expr) (tree_of r)) rest }
{
    let (right, rest) = read(alloc, tokens, level(op), room - 1)?;
    let depth = left.depth.max(right.depth) + 1;
    let expr = Expr6::Binary(
        op,
        Box::new(alloc, left.expr)?,
        Box::new(alloc, right.expr)?,
    );
    Ok((Part { expr, depth }, rest))
}

// Takes what was read into an argument list.
#[cycle(read)]
fn with_arguments(
    alloc: Global,
    left: Part,
    tokens: &[Token],
    room: u8,
) -> Result<(Part, &[Token]), ExprFail>
    requires measured { left.depth ≡ depth_of (exp_of left.expr) }
    requires shallow { left.depth < room }
    ensures measured { IfOk result (λ read. IsMeasured room read.0) }
    ensures shorter { IfOk result (λ read. length read.1.now ≤ length tokens.now) }
    ensures given { (args : WrittenArgs) (rest : List Symbol) → ArgsStand args (symbols tokens.now) rest
        → Gives room result (index (exp_of left.expr) (arg_trees args)) rest }
{
    let (listed, rest) = arguments(alloc, tokens, room - 1)?;
    let depth = left.depth.max(listed.depth) + 1;
    let expr = Expr6::Index(Box::new(alloc, left.expr)?, listed.args);
    Ok((Part { expr, depth }, rest))
}

// The arguments behind an opening parenthesis.
#[cycle(read)]
fn arguments(alloc: Global, tokens: &[Token], room: u8) -> Result<(Listed, &[Token]), ExprFail>
    ensures measured { IfOk result (λ read. AreMeasured room read.0) }
    ensures shorter { IfOk result (λ read. length read.1.now ≤ length tokens.now) }
    ensures given { (args : WrittenArgs) (rest : List Symbol) → ArgsStand args (symbols tokens.now) rest
        → GivesArgs room result (arg_trees args) rest }
{
    let mut args = Vec::new(alloc);
    if let Some(after) = after_closing(tokens) {
        return Ok((Listed { args, depth: 0 }, after));
    }
    let mut depth = 0;
    let mut rest = tokens;
    'listed: loop {
        let (read, beyond) = argument(alloc, rest, room)?;
        depth = read.depth.max(depth);
        args.push(read.arg)?;
        if let Some(after) = after_comma(beyond) {
            rest = after;
            continue;
        }
        let Some(after) = after_closing(beyond) else {
            return Err(ExprFail::NotExpr);
        };
        args.shrink_to_fit();
        return Ok((Listed { args, depth }, after));
    }
}

// One argument, before a comma or a closing parenthesis.
#[cycle(read)]
fn argument(alloc: Global, tokens: &[Token], room: u8) -> Result<(ReadArg, &[Token]), ExprFail>
    ensures measured { IfOk result (λ read. IsArgMeasured room read.0) }
    ensures shorter { IfOk result (λ read. length read.1.now ≤ length tokens.now) }
    ensures given { (name : Option Naming) (mark : Option Mark) (value : WrittenValue) (rest : List Symbol)
        → ArgumentStands name mark value (symbols tokens.now) rest
        → GivesArgument room result (name_before name) (is_some mark) (value_tree value) rest }
{
    if ends_argument(tokens) {
        let arg = Arg6 {
            name: None,
            marked: false,
            value: None,
        };
        return Ok((ReadArg { arg, depth: 0 }, tokens));
    }
    let (name, rest) = optional_name(alloc, tokens)?;
    let (marked, rest) = optional_mark(rest);
    let (part, rest) = read(alloc, rest, 15, room)?;
    let arg = Arg6 {
        name,
        marked,
        value: Some(part.expr),
    };
    let depth = part.depth;
    Ok((ReadArg { arg, depth }, rest))
}

// The name before `:=`, if one stands there.
fn optional_name(alloc: Global, tokens: &[Token]) -> Result<(Option<Name>, &[Token]), Mem>
    ensures shorter { IfOk result (λ read. length read.1.now ≤ length tokens.now) }
    ensures given { IfOk result (λ read. IsOptionalName (symbols tokens.now) read.0 (symbols read.1.now)) }
{
    let Some((name, rest)) = argument_name(tokens) else {
        return Ok((None, tokens));
    };
    Ok((Some(name.copy(alloc)?), rest))
}

// Whether `ByVal` or `#` stands there.
fn optional_mark(tokens: &[Token]) -> (bool, &[Token])
    ensures shorter { length result.1.now ≤ length tokens.now }
    ensures given { IsOptionalMark (symbols tokens.now) result.0 (symbols result.1.now) }
{
    match after_mark(tokens) {
        Some(rest) => (true, rest),
        None => (false, tokens),
    }
}
