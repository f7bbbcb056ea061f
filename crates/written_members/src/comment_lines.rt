//! Comments among members, fields and lines.
ghost use Rattle.std.specs.Prelude.{◌≡◌, ◌++◌, map, OnOk};
ghost use Rattle.net_tree.specs.View.{field_of, line_of, member_of};
ghost use Rattle.written_trees.specs.Comments.{texts, upgrade_texts};
ghost use Rattle.written_trees.specs.DeclaredMembers.{field_comments, line_comments, member_comments};

use crate::comments::{Comment, texts, upgrade_texts};
use bound_tree::RuleSet;
use net_tree::{NetField, NetLine, NetMember};
use std::alloc::Global;
use up_base::{Mem, Wide};

/// Puts comments behind members.
pub fn push_member_comments(units: Vec<Wide>, to: &mut Vec<NetMember>) -> Result<(), Mem>
    ensures { OnOk result (map member_of to.new.items ≡ map member_of to.old.items ++ member_comments units.items) }
{
    for text in units {
        to.push(NetMember::Comment(text))?;
    }
    Ok(())
}

/// Puts comments behind fields.
pub(crate) fn push_field_comments(units: Vec<Wide>, to: &mut Vec<NetField>) -> Result<(), Mem>
    ensures { OnOk result (map field_of to.new.items ≡ map field_of to.old.items ++ field_comments units.items) }
{
    for text in units {
        to.push(NetField::Comment(text))?;
    }
    Ok(())
}

/// Puts comments behind lines of a procedure.
pub(crate) fn push_line_comments(units: Vec<Wide>, to: &mut Vec<NetLine>) -> Result<(), Mem>
    ensures { OnOk result (map line_of to.new.items ≡ map line_of to.old.items ++ line_comments units.items) }
{
    for text in units {
        to.push(NetLine::Comment(text))?;
    }
    Ok(())
}

/// Puts the texts of comments behind members.
pub fn push_member_texts(
    alloc: Global,
    comments: &[Comment],
    to: &mut Vec<NetMember>,
) -> Result<(), Mem>
    ensures { OnOk result (map member_of to.new.items ≡ map member_of to.old.items ++ member_comments (texts comments.now)) }
{
    let units = texts(alloc, comments)?;
    Ok(push_member_comments(units, to)?)
}

/// Puts the texts of comments behind fields.
pub(crate) fn push_field_texts(
    alloc: Global,
    comments: &[Comment],
    to: &mut Vec<NetField>,
) -> Result<(), Mem>
    ensures { OnOk result (map field_of to.new.items ≡ map field_of to.old.items ++ field_comments (texts comments.now)) }
{
    let units = texts(alloc, comments)?;
    Ok(push_field_comments(units, to)?)
}

/// Puts the texts of comments behind lines of a procedure.
pub(crate) fn push_line_texts(
    alloc: Global,
    comments: &[Comment],
    to: &mut Vec<NetLine>,
) -> Result<(), Mem>
    ensures { OnOk result (map line_of to.new.items ≡ map line_of to.old.items ++ line_comments (texts comments.now)) }
{
    let units = texts(alloc, comments)?;
    Ok(push_line_comments(units, to)?)
}

/// Puts the comment on a line that breaks rules behind members.
pub fn push_member_upgrade(
    alloc: Global,
    rules: RuleSet,
    line: &[u16],
    to: &mut Vec<NetMember>,
) -> Result<(), Mem>
    ensures { OnOk result (map member_of to.new.items ≡ map member_of to.old.items ++ member_comments (upgrade_texts rules line.now)) }
{
    let units = upgrade_texts(alloc, rules, line)?;
    Ok(push_member_comments(units, to)?)
}

/// Puts the comment on a line that breaks rules behind fields.
pub(crate) fn push_field_upgrade(
    alloc: Global,
    rules: RuleSet,
    line: &[u16],
    to: &mut Vec<NetField>,
) -> Result<(), Mem>
    ensures { OnOk result (map field_of to.new.items ≡ map field_of to.old.items ++ field_comments (upgrade_texts rules line.now)) }
{
    let units = upgrade_texts(alloc, rules, line)?;
    Ok(push_field_comments(units, to)?)
}

/// Puts the comment on a line that breaks rules behind lines of a procedure.
pub(crate) fn push_line_upgrade(
    alloc: Global,
    rules: RuleSet,
    line: &[u16],
    to: &mut Vec<NetLine>,
) -> Result<(), Mem>
    ensures { OnOk result (map line_of to.new.items ≡ map line_of to.old.items ++ line_comments (upgrade_texts rules line.now)) }
{
    let units = upgrade_texts(alloc, rules, line)?;
    Ok(push_line_comments(units, to)?)
}
