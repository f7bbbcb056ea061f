//! How deep expressions are nested.
ghost use Rattle.std.specs.Prelude.{◌≡◌, suc, nat_le};
ghost use Rattle.net_tree.specs.Depth.{depth_exp, depth_exps, is_shallow};
ghost use Rattle.net_tree.specs.Tree.{call_of};
ghost use Rattle.net_tree.specs.View.{exp_of, exps_of};

use net_tree::{MOST_NESTED, NetExpr};

// Whether an expression is nested no deeper than a room of so many levels. Calls are nested no deeper either, whatever is
// asked about.
#[cycle(is_within)]
fn is_within(e: &NetExpr, room: u16) -> bool
    ensures { result ≡ nat_le (depth_exp (exp_of e.now)) room }
{
    room != 0 && are_parts_within(e, room - 1)
}

// Whether the parts of an expression are nested no deeper than the room.
#[cycle(is_within)]
#[tactic(auto, using(crate::proofs::Depths::both_within))]
fn are_parts_within(e: &NetExpr, room: u16) -> bool
    ensures { result ≡ nat_le (depth_exp (exp_of e.now)) (suc room) }
{
    match e {
        NetExpr::Lit(_) => true,
        NetExpr::Nothing => true,
        NetExpr::Me => true,
        NetExpr::Path(_) => true,
        NetExpr::WithDot(_) => true,
        NetExpr::Dot(object, _) => is_within(object, room),
        NetExpr::Call(callee, arguments) => is_within(callee, room) && are_within(arguments, room),
        NetExpr::Cast(_, operand) => is_within(operand, room),
        NetExpr::CType(operand, _) => is_within(operand, room),
        NetExpr::Unary(_, operand) => is_within(operand, room),
        NetExpr::Binary(_, a, b) => is_within(a, room) && is_within(b, room),
        NetExpr::Paren(inner) => is_within(inner, room),
        NetExpr::NewObject(_, arguments) => are_within(arguments, room),
        NetExpr::NewArray(_, bounds) => are_within(bounds, room),
        NetExpr::TypeOf(operand, _) => is_within(operand, room),
    }
}

// Whether each of these is nested no deeper than the room.
#[cycle(is_within)]
fn are_within(list: &[NetExpr], room: u16) -> bool
    ensures { result ≡ nat_le (depth_exps (exps_of list.now)) room }
{
    for e in list {
        if !is_within(e, room) {
            return false;
        }
    }
    true
}

/// Whether an expression is nested no deeper than may be written.
pub(crate) fn is_shallow(e: &NetExpr) -> bool
    ensures { result ≡ is_shallow (exp_of e.now) }
{
    is_within(e, MOST_NESTED)
}

/// Whether an expression with this argument list would be nested no deeper than may be written.
#[tactic(auto, using(crate::proofs::Depths::both_within))]
pub(crate) fn is_shallow_call(callee: &NetExpr, arguments: &[NetExpr]) -> bool
    ensures { result ≡ is_shallow (call_of (exp_of callee.now) (exps_of arguments.now)) }
{
    is_within(callee, MOST_NESTED - 1) && are_within(arguments, MOST_NESTED - 1)
}
