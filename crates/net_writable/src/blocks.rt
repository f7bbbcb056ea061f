//! Which lines nest.
ghost use Rattle.std.specs.Prelude.{◌≡◌, map, reverse, IfOk, OnOk};
ghost use Rattle.net_tree.specs.Blocks.{fits_in, is_innermost, is_same_block, nests, open_behind};
ghost use Rattle.net_tree.specs.View.{line_of};

use net_tree::{NetBlock, NetLine, NetRole};
use std::alloc::Global;
use up_base::Mem;

fn is_same_block(a: NetBlock, b: NetBlock) -> bool
    ensures { result ≡ is_same_block a b }
{
    a == b
}

// Whether the innermost of the blocks that are open is of a kind.
fn is_innermost(kind: NetBlock, around: &Vec<NetBlock>) -> bool
    ensures { result ≡ is_innermost kind (reverse around.now.items) }
{
    match around.last() {
        Some(round) => is_same_block(kind, *round),
        None => false,
    }
}

/// Whether a line fits in the blocks that are open.
pub fn fits_in(role: NetRole, around: &Vec<NetBlock>) -> bool
    ensures { result ≡ fits_in role (reverse around.now.items) }
{
    match role {
        NetRole::Plain => true,
        NetRole::Opens(_) => true,
        NetRole::Parts(kind) => is_innermost(kind, around),
        NetRole::Closes(kind) => is_innermost(kind, around),
    }
}

/// Goes from the blocks that are open before a line to those behind it.
pub fn pass(role: NetRole, around: &mut Vec<NetBlock>) -> Result<(), Mem>
    ensures { OnOk result (reverse around.new.items ≡ open_behind role (reverse around.old.items)) }
{
    match role {
        NetRole::Plain => Ok(()),
        NetRole::Opens(kind) => {
            around.push(kind)?;
            Ok(())
        }
        NetRole::Parts(_) => Ok(()),
        NetRole::Closes(_) => {
            let _innermost = around.pop();
            Ok(())
        }
    }
}

/// Whether each block is closed by a line of its kind, and parted by lines of its kind alone.
pub(crate) fn nests(alloc: Global, lines: &[NetLine]) -> Result<bool, Mem>
    ensures { IfOk result (λ answer. answer ≡ nests (map line_of lines.now)) }
{
    let mut around = Vec::new(alloc);
    for line in lines {
        let role = line.role();
        if !fits_in(role, &around) {
            return Ok(false);
        }
        pass(role, &mut around)?;
    }
    Ok(around.is_empty())
}
