//! The module of support functions.
ghost use Rattle.std.specs.Prelude.{◌≡◌, map, IfOk};
ghost use Rattle.std.specs.List.{filter};
ghost use Rattle.net_tree.specs.View.{member_of, module_of};
ghost use Rattle.net_tree.specs.Tree.{proc};
ghost use Rattle.support_text.specs.Noting.{has};
ghost use Rattle.support_text.specs.Rows.{all_rows, row_procedure};
ghost use Rattle.support_text.specs.Needs.{support_module};

use crate::procedures::procedure;
use crate::row::all_rows;
use crate::used::Used;
use crate::walk::walk_modules;
use net_tree::{NetMember, NetModule};
use std::alloc::Global;
use up_base::{Mem, Name, Sequence};

// The functions of a set, in their order.
fn members_of(alloc: Global, used: Used) -> Result<Sequence<NetMember>, Mem>
    ensures { IfOk result (λ members. map member_of members ≡ map (λ row. proc (row_procedure row)) (filter (has used) all_rows)) }
{
    let rows = all_rows();
    let mut members = Sequence::new(alloc);
    for row in &rows {
        if used.has(*row) {
            let member = Box::new(alloc, procedure(alloc, *row)?)?;
            members.push(NetMember::Proc(member))?;
        }
    }
    Ok(members)
}

/// The module UpgradeSupport that is written beside modules: the functions that they use, and those that these use, in
/// their order. A function is used where an expression or a call has its path as it is spelt here.
pub fn support_module(alloc: Global, modules: &[NetModule]) -> Result<NetModule, Mem>
    ensures { IfOk result (λ tree. module_of tree ≡ support_module (map module_of modules.now)) }
{
    let used = walk_modules(Used::none(), modules).with_called();
    let members = members_of(alloc, used)?;
    Ok(NetModule {
        name: Name::from_valid(alloc, b"UpgradeSupport")?,
        class: false,
        members,
    })
}
