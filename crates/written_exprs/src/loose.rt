//! What is written for an expression without a type: it stands as it is, without conversions, and parentheses are left out.
ghost use Rattle.std.specs.Prelude.{◌≡◌, IfOk, OnOk};
ghost use Rattle.up_base.specs.Names.{lower_case};
ghost use Rattle.vb_tree.specs.View as source;
ghost use Rattle.net_tree.specs.View.{exp_of, exps_of};
ghost use Rattle.net_tree.specs.Tree as net;
ghost use Rattle.net_tree.specs.Types as types;
ghost use Rattle.written_trees.specs.LooseExprs as rows;
ghost use Rattle.written_trees.specs.Names as names;
ghost use Rattle.written_exprs.specs.Lists.{exps_before};

use crate::parts::{new_object, push_exp};
use net_tree::{NetExpr, NetLit};
use std::alloc::Global;
use up_base::{Mem, Name};
use vb_tree::{Arg6, Expr6, Literal6, Value6};
use written_rows::{alone, call_of, constant_exp, member, signed, text_exp, unsigned};

fn literal_exp(alloc: Global, literal: &Literal6) -> Result<NetExpr, Mem>
    ensures { IfOk result (λ e. exp_of e ≡ rows.literal_exp literal.now) }
{
    match literal {
        Literal6::Int(z, hexadecimal) => Ok(constant_exp(alloc, *hexadecimal, &Value6::Int(*z))?),
        Literal6::Long(z, hexadecimal) => Ok(constant_exp(alloc, *hexadecimal, &Value6::Long(*z))?),
        Literal6::Cur(z) => Ok(constant_exp(alloc, false, &Value6::Cur(*z))?),
        Literal6::Plain(z) => Ok(constant_exp(alloc, false, &Value6::Cur(*z))?),
        Literal6::Floating => Ok(NetExpr::Nothing),
        Literal6::Date => Ok(NetExpr::Nothing),
        Literal6::Str(units) => Ok(text_exp(alloc, units.as_slice())?),
    }
}

// Whether a name is a word, given in small letters.
fn is_word(name: &Name, word: &[u8]) -> bool
    ensures { result ≡ rows.is_word (lower_case name.now) word.now }
{
    name.lower_bytes() == word
}

fn no_value(name: &Name) -> bool
    ensures { result ≡ rows.no_value (lower_case name.now) }
{
    is_word(name, b"nothing") || is_word(name, b"empty") || is_word(name, b"null")
}

// A name by itself.
fn named(alloc: Global, name: &Name) -> Result<NetExpr, Mem>
    ensures { IfOk result (λ e. exp_of e ≡ net.path (names.alone name.now)) }
{
    Ok(NetExpr::Path(alone(alloc, name.as_bytes())?))
}

fn word_exp(alloc: Global, name: &Name) -> Result<NetExpr, Mem>
    ensures { IfOk result (λ e. exp_of e ≡ rows.word_exp name.now) }
{
    if is_word(name, b"true") {
        return Ok(NetExpr::Lit(NetLit::Boolean(true)));
    }
    if is_word(name, b"false") {
        return Ok(NetExpr::Lit(NetLit::Boolean(false)));
    }
    if no_value(name) {
        return Ok(NetExpr::Nothing);
    }
    Ok(named(alloc, name)?)
}

fn new_named(alloc: Global, class: &Name) -> Result<NetExpr, Mem>
    ensures { IfOk result (λ e. exp_of e ≡ net.new_object (types.named (names.alone class.now)) net.no_exps) }
{
    let class = alone(alloc, class.as_bytes())?;
    Ok(new_object(alloc, class))
}

fn with_member(alloc: Global, name: &Name) -> Result<NetExpr, Mem>
    ensures { IfOk result (λ e. exp_of e ≡ net.with_dot name.now) }
{
    Ok(NetExpr::WithDot(name.copy(alloc)?))
}

/// What is written for an expression of the source. What breaks a rule that replaces its line has nothing written for it.
#[cycle(loose)]
pub(crate) fn loose_exp(alloc: Global, e: &Expr6) -> Result<NetExpr, Mem>
    ensures { IfOk result (λ x. exp_of x ≡ rows.loose_exp (source.exp_of e.now)) }
{
    match e {
        Expr6::Lit(literal) => Ok(literal_exp(alloc, literal)?),
        Expr6::Word(name, _) => Ok(word_exp(alloc, name)?),
        Expr6::Bracketed(name, _) => Ok(named(alloc, name)?),
        Expr6::Me => Ok(NetExpr::Me),
        Expr6::Member(of, name) => {
            let a = loose_exp(alloc, of)?;
            Ok(member(alloc, a, name.as_bytes())?)
        }
        Expr6::WithMember(name) => Ok(with_member(alloc, name)?),
        Expr6::WithBang(_) => Ok(NetExpr::Nothing),
        Expr6::Index(of, args) => {
            let a = loose_exp(alloc, of)?;
            let args = loose_args(alloc, args)?;
            Ok(call_of(alloc, a, args)?)
        }
        Expr6::Unary(operator, of) => {
            let a = loose_exp(alloc, of)?;
            Ok(unsigned(alloc, *operator, a)?)
        }
        Expr6::Binary(operator, first, second) => {
            let a = loose_exp(alloc, first)?;
            let b = loose_exp(alloc, second)?;
            Ok(signed(alloc, *operator, a, b)?)
        }
        Expr6::Paren(of) => Ok(loose_exp(alloc, of)?),
        Expr6::New(class) => Ok(new_named(alloc, class)?),
        Expr6::Bang(_, _) => Ok(NetExpr::Nothing),
        Expr6::TypeOf(_, _) => Ok(NetExpr::Nothing),
        Expr6::AddressOf(_) => Ok(NetExpr::Nothing),
    }
}

// Appends an argument, where it has a value.
#[cycle(loose)]
fn push_given(alloc: Global, value: &Option<Expr6>, to: &mut Vec<NetExpr>) -> Result<(), Mem>
    ensures { OnOk result ((more : net.Exps) → exps_before to.new.items more ≡ exps_before to.old.items (rows.loose_given (source.given_of value.now) more)) }
{
    match value {
        Some(e) => {
            let a = loose_exp(alloc, e)?;
            Ok(push_exp(a, to)?)
        }
        None => Ok(()),
    }
}

#[cycle(loose)]
fn loose_args(alloc: Global, args: &[Arg6]) -> Result<Vec<NetExpr>, Mem>
    ensures { IfOk result (λ list. exps_of list.items ≡ rows.loose_args (source.args_of args.now)) }
{
    let mut list = Vec::new(alloc);
    for arg in args {
        push_given(alloc, &arg.value, &mut list)?;
    }
    Ok(list)
}
