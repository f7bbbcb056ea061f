//! What the lines of procedures mention, as pairs of numbers of points.
ghost use Rattle.std.specs.Prelude.{◌≡◌, ◌++◌, ◌∷◌, [], OnOk, map};
ghost use Rattle.std.specs.List.{flat_map};
ghost use Rattle.bound_tree.specs.Lines.{lines_of};
ghost use Rattle.bound_tree.specs.View.{expr_of, shown, shown_line};
ghost use Rattle.bound_facts.specs.Calls.{initializer_of};
ghost use Rattle.bound_facts.specs.Clean.{procedure};
ghost use Rattle.bound_facts.specs.Items.{project_items};
ghost use Rattle.clean_procedures.specs.Classes.{IsHome, seen};
ghost use Rattle.clean_procedures.specs.Numbers.{number};
ghost use Rattle.clean_procedures.specs.Pairs.{call_pairs, created_pairs, line_pairs, made_pairs, mention_pairs, uses_pairs};

use crate::classes::{Home, initializer, push_class};
use crate::numbers::{
    constant_point, index, procedure_point, push_procedure, type_point, variable_point,
};
use crate::uses::push_uses;
use bound_facts::{called, created};
use bound_tree::{BoundExpr, LineRef, Mention};
use std::alloc::Global;
use up_base::Mem;

fn initializer_of(home: &Home, c: Option<u32>) -> Option<u32>
    requires { IsHome home.now }
    ensures { result ≡ initializer_of (seen home.now) c }
{
    match c {
        None => None,
        Some(c) => initializer(home, c),
    }
}

fn push_call(home: &Home, i: u32, e: &BoundExpr, to: &mut Vec<(u32, u32)>) -> Result<(), Mem>
    requires { IsHome home.now }
    ensures { OnOk result (to.new.items ≡ to.old.items ++ call_pairs (seen home.now) i (expr_of e.now)) }
{
    push_procedure(i, called(e), to)?;
    push_procedure(i, initializer_of(home, created(home.declared, e)), to)?;
    Ok(())
}

fn push_made(home: &Home, i: u32, c: Option<u32>, to: &mut Vec<(u32, u32)>) -> Result<(), Mem>
    requires { IsHome home.now }
    ensures { OnOk result (to.new.items ≡ to.old.items ++ made_pairs (seen home.now) i c) }
{
    match c {
        None => Ok(()),
        Some(c) => Ok(push_class(home, i, c, to)?),
    }
}

fn push_calls(home: &Home, i: u32, uses: &[&BoundExpr], to: &mut Vec<(u32, u32)>) -> Result<(), Mem>
    requires { IsHome home.now }
    ensures { OnOk result (to.new.items ≡ to.old.items ++ flat_map (call_pairs (seen home.now) i) (map shown uses.now)) }
{
    for e in uses {
        push_call(home, i, e, to)?;
    }
    Ok(())
}

fn push_creations(
    home: &Home,
    i: u32,
    uses: &[&BoundExpr],
    to: &mut Vec<(u32, u32)>,
) -> Result<(), Mem>
    requires { IsHome home.now }
    ensures { OnOk result (to.new.items ≡ to.old.items ++ flat_map (created_pairs (seen home.now) i) (map shown uses.now)) }
{
    for e in uses {
        push_made(home, i, created(home.declared, e), to)?;
    }
    Ok(())
}

fn push_pair(i: u32, end: u32, to: &mut Vec<(u32, u32)>) -> Result<(), Mem>
    ensures { OnOk result (to.new.items ≡ to.old.items ++ (number (procedure i), end) ∷ []) }
{
    let from = procedure_point(i)?;
    Ok(to.push((from, end))?)
}

fn push_mention(home: &Home, i: u32, mention: &Mention, to: &mut Vec<(u32, u32)>) -> Result<(), Mem>
    requires { IsHome home.now }
    ensures { OnOk result (to.new.items ≡ to.old.items ++ mention_pairs (seen home.now) i mention.now) }
{
    match mention {
        Mention::Var(v) => {
            let end = variable_point(v.0)?;
            Ok(push_pair(i, end, to)?)
        }
        Mention::Const(c) => {
            let end = constant_point(c.0)?;
            Ok(push_pair(i, end, to)?)
        }
        Mention::Type(t) => {
            let end = type_point(t.0)?;
            Ok(push_pair(i, end, to)?)
        }
        Mention::Proc(p) => {
            let end = procedure_point(p.0)?;
            Ok(push_pair(i, end, to)?)
        }
        Mention::Class(c) => Ok(push_class(home, i, c.0, to)?),
    }
}

fn push_mentions(
    home: &Home,
    i: u32,
    mentions: &[Mention],
    to: &mut Vec<(u32, u32)>,
) -> Result<(), Mem>
    requires { IsHome home.now }
    ensures { OnOk result (to.new.items ≡ to.old.items ++ flat_map (mention_pairs (seen home.now) i) mentions.now) }
{
    for mention in mentions {
        push_mention(home, i, mention, to)?;
    }
    Ok(())
}

fn push_of_uses(
    home: &Home,
    i: u32,
    uses: &[&BoundExpr],
    to: &mut Vec<(u32, u32)>,
) -> Result<(), Mem>
    requires { IsHome home.now }
    ensures { OnOk result (to.new.items ≡ to.old.items ++ uses_pairs (seen home.now) i (map shown uses.now)) }
{
    push_calls(home, i, uses, to)?;
    push_creations(home, i, uses, to)?;
    Ok(())
}

fn push_line(
    alloc: Global,
    home: &Home,
    i: u32,
    line: &LineRef,
    to: &mut Vec<(u32, u32)>,
) -> Result<(), Mem>
    requires { IsHome home.now }
    ensures { OnOk result (to.new.items ≡ to.old.items ++ line_pairs (seen home.now) i (shown_line line.now)) }
{
    let mut uses = Vec::new(alloc);
    push_uses(line, &mut uses)?;
    push_of_uses(home, i, &uses, to)?;
    push_mentions(home, i, line.bound.mentions.as_slice(), to)?;
    Ok(())
}

fn push_body(
    alloc: Global,
    home: &Home,
    i: u32,
    lines: &[LineRef],
    to: &mut Vec<(u32, u32)>,
) -> Result<(), Mem>
    requires { IsHome home.now }
    ensures { OnOk result (to.new.items ≡ to.old.items ++ flat_map (line_pairs (seen home.now) i) (map shown_line lines.now)) }
{
    for line in lines {
        push_line(alloc, home, i, line, to)?;
    }
    Ok(())
}

/// Appends what the lines of all procedures mention.
pub(crate) fn push_bodies(
    alloc: Global,
    home: &Home,
    lines: &[Vec<LineRef>],
    to: &mut Vec<(u32, u32)>,
) -> Result<(), Mem>
    requires { IsHome home.now }
    ensures { OnOk result (to.new.items ≡ to.old.items ++ project_items (line_pairs (seen home.now)) (map lines_of lines.now)) }
{
    for (i, body) in lines.iter().enumerate() {
        push_body(alloc, home, index(i)?, body, to)?;
    }
    Ok(())
}
