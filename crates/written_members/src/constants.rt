//! What is written for declarations of constants.
ghost use Rattle.std.specs.Prelude.{◌≡◌, false, option_map, IfOk};
ghost use Rattle.std.specs.Option.{option_copied};
ghost use Rattle.bound_tree.specs.View.{constant_of};
ghost use Rattle.net_tree.specs.View as net_view;
ghost use Rattle.net_tree.specs.View.{dim_of, exp_of};
ghost use Rattle.written_trees.specs.Literals.{constant_exp};
ghost use Rattle.written_trees.specs.Prologues as rows;
ghost use Rattle.written_rows.specs.View.{facts_of, scope_of};
ghost use Rattle.written_members.specs.Shown.{constant_shown};

use crate::statements::ConstRef;
use crate::variables::object_variable;
use bound_tree::ConstDecl;
use net_tree::{NetConstant, NetDim, NetExpr};
use std::alloc::Global;
use up_base::Mem;
use vb_tree::Value6;
use written_rows::{Scope, WrittenFacts, constant_exp, written_type};

fn boxed_value(alloc: Global, value: &Value6) -> Result<Box<NetExpr>, Mem>
    ensures { IfOk result (λ b. exp_of b.value ≡ constant_exp false value.now) }
{
    let value = constant_exp(alloc, false, value)?;
    Ok(Box::new(alloc, value)?)
}

/// What is written for a constant with a value.
pub(crate) fn written_constant(
    alloc: Global,
    scope: &Scope,
    decl: &ConstDecl,
    value: &Value6,
) -> Result<NetConstant, Mem>
    ensures { IfOk result (λ c. net_view.constant_of c ≡ rows.written_constant (scope_of scope.now) (constant_of decl.now) value.now) }
{
    let name = decl.name.copy(alloc)?;
    let ty = written_type(alloc, scope, &decl.ty)?;
    let value = boxed_value(alloc, value)?;
    Ok(NetConstant { name, ty, value })
}

/// The value of a constant that carries no issue.
pub(crate) fn sound_value<'a>(facts: &WrittenFacts, c: &ConstRef<'a>) -> Option<&'a Value6>
    ensures { option_copied result ≡ rows.sound_value (facts_of facts.now) (constant_shown c.now) }
{
    if facts.is_flagged_constant(c.number) {
        return None;
    }
    c.decl.value.as_ref()
}

/// A constant at the head of a procedure: a variable where it carries an issue.
pub(crate) fn constant_dim(alloc: Global, scope: &Scope, c: &ConstRef) -> Result<NetDim, Mem>
    ensures { IfOk result (λ d. dim_of d ≡ rows.constant_dim (scope_of scope.now) (constant_shown c.now)) }
{
    match sound_value(scope.facts, c) {
        None => Ok(NetDim::Local(object_variable(alloc, &c.decl.name)?)),
        Some(value) => Ok(NetDim::Const(written_constant(alloc, scope, c.decl, value)?)),
    }
}
