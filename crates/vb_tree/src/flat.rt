//! The lines of procedures in order.
ghost use Rattle.std.specs.Prelude.{◌≡◌, ◌++◌, map, IfOk, OnOk};
ghost use Rattle.vb_tree.specs.FlatLines.{flat_lines, node_lines, middle_lines};
ghost use Rattle.vb_tree.specs.View.{line_of, node_of, nodes_of, block_in, middles_of};

use crate::{Block6, CodeLine, Middle6, Node6};
use std::alloc::Global;
use up_base::Mem;

/// The lines of a body in order, declarations included.
pub fn flat_lines(alloc: Global, body: &[Node6]) -> Result<Vec<&CodeLine>, Mem>
    ensures { IfOk result (λ lines. map (λ l. line_of l.now) lines.items ≡ flat_lines (nodes_of body.now)) }
{
    let mut lines = Vec::new(alloc);
    push_body(&mut lines, body)?;
    Ok(lines)
}

// Puts the lines of a body behind others.
#[cycle(push_lines)]
fn push_body<'a>(lines: &mut Vec<&'a CodeLine>, body: &'a [Node6]) -> Result<(), Mem>
    ensures { OnOk result (map (λ l. line_of l.now) lines.new.items ≡ map (λ l. line_of l.now) lines.old.items ++ flat_lines (nodes_of body.now)) }
{
    for node in body {
        push_node(lines, node)?;
    }
    Ok(())
}

// Puts the lines of a node behind others.
#[cycle(push_lines)]
fn push_node<'a>(lines: &mut Vec<&'a CodeLine>, node: &'a Node6) -> Result<(), Mem>
    ensures { OnOk result (map (λ l. line_of l.now) lines.new.items ≡ map (λ l. line_of l.now) lines.old.items ++ node_lines (node_of node.now)) }
{
    match node {
        Node6::Line(line) => lines.push(line)?,
        Node6::Block(block) => push_block(lines, block)?,
    }
    Ok(())
}

// Puts the lines of a block behind others.
#[cycle(push_lines)]
fn push_block<'a>(lines: &mut Vec<&'a CodeLine>, block: &'a Block6) -> Result<(), Mem>
    ensures { OnOk result (map (λ l. line_of l.now) lines.new.items ≡ map (λ l. line_of l.now) lines.old.items ++ node_lines (block_in block.now)) }
{
    lines.push(&block.head)?;
    push_body(lines, &block.body)?;
    push_middles(lines, &block.middles)?;
    lines.push(&block.close)?;
    Ok(())
}

// Puts the lines that part a block, each with what stands behind it, behind others.
#[cycle(push_lines)]
fn push_middles<'a>(lines: &mut Vec<&'a CodeLine>, middles: &'a [Middle6]) -> Result<(), Mem>
    ensures { OnOk result (map (λ l. line_of l.now) lines.new.items ≡ map (λ l. line_of l.now) lines.old.items ++ middle_lines (middles_of middles.now)) }
{
    for middle in middles {
        lines.push(&middle.line)?;
        push_body(lines, &middle.body)?;
    }
    Ok(())
}
