//! Takes what a line says where the line is exactly what is written for it.
ghost use Rattle.std.specs.Prelude.{◌≡◌, ◌<◌, ◌≤◌, ◌+◌, ◌^◌, ◌&&◌, ◌||◌, ◌++◌, not, true, drop, reverse, IfOk, OnOk, Some};
ghost use Rattle.net_tree.specs.Blocks.{depth_at, fits_in, role_of};
ghost use Rattle.net_tree.specs.Comments.{comment_text, is_comment};
ghost use Rattle.net_tree.specs.Declarations.{close_text, closes, dim_text, field_text, head_text, is_get, is_set, is_writable_dim, is_writable_head, member_text};
ghost use Rattle.net_tree.specs.Lines.{is_writable_line, line_text};
ghost use Rattle.net_tree.specs.Spelling.{at_depth, is_same_text};
ghost use Rattle.net_tree.specs.View.{dim_of, field_of, head_of, line_of, member_of};
ghost use Rattle.net_exprs.specs.Fitting.{fits_name};
ghost use Rattle.net_reader.specs.DeclarationReader.{dim_at, field_at, set_in};
ghost use Rattle.net_reader.specs.FileLines.{text_of_line, units_in};
ghost use Rattle.net_reader.specs.Fits.{fits_dim, fits_field, fits_head, fits_line, fits_member, fits_property, fits_text};
ghost use Rattle.net_reader.specs.LineReader.{line_at};
ghost use Rattle.net_reader.specs.ModuleReader as model;
ghost use Rattle.net_reader.specs.ModuleReader.{has_no_blocks, has_no_lines};
ghost use Rattle.net_reader.specs.Parts.{property_head_of};
ghost use Rattle.net_reader.specs.StateView.{access_of, body_of, promised_of};
ghost use Rattle.net_reader.specs.Steps.{Steps};
ghost use Rattle.net_reader.specs.Takings.{comment_within, dim_within, field_within, head_within, line_within, may_set, member_within, property_within, set_within, structure_within};

use crate::characters::{behind, is};
use crate::declarations::{read_dim, read_field};
use crate::heads::{PropertyHead, read_set};
use crate::lines::read_line;
use crate::margins::text_of_line;
use crate::states::{Access, Body, Promised};
use crate::texts::units;
use net_emitter::{
    begin_line, end_line, write_close, write_comment_line, write_dim_line, write_field_line,
    write_head_line, write_line, write_line_of, write_member, write_promise, write_structure_head,
};
use net_exprs::PhraseFail;
use net_tree::{NetBlock, NetClose, NetDim, NetField, NetHead, NetLine, NetMember};
use net_writable::{
    are_writable_params, can_be_declared, closes, fits_in, is_comment, is_get, is_identifier,
    is_set, is_writable_dim, is_writable_field, is_writable_head, is_writable_line,
    is_writable_member,
};
use std::alloc::Global;
use up_base::{Bytes, Mem, Name, Wide};

/// Whether a line is this text at a depth.
pub(crate) fn is_line(alloc: Global, depth: usize, text: &[u8], line: &[u8]) -> Result<bool, Mem>
    ensures { IfOk result (λ same. same ≡ model.is_line depth text.now line.now) }
{
    let mut written = Bytes::new(alloc);
    write_line(&mut written, depth, text)?;
    Ok(is(written.as_slice(), line))
}

// Whether a line of a procedure is written so where so many blocks are open.
fn is_line_of(alloc: Global, depth: usize, read: &NetLine, line: &[u8]) -> Result<bool, Mem>
    requires { depth + 1 < 2 ^ 64 }
    ensures { IfOk result (λ same. same ≡ is_same_text (at_depth (depth_at (role_of (line_of read.now)) depth) (line_text (line_of read.now))) line.now) }
{
    let mut written = Bytes::new(alloc);
    write_line_of(&mut written, depth, read)?;
    Ok(is(written.as_slice(), line))
}

// Whether a line of a procedure can stand where these blocks are open.
fn can_stand(read: &NetLine, blocks: &Vec<NetBlock>) -> bool
    ensures { result ≡ (is_writable_line (line_of read.now) && fits_in (role_of (line_of read.now)) (reverse blocks.now.items)) }
{
    is_writable_line(read) && fits_in(read.role(), blocks)
}

fn checked_line(
    alloc: Global,
    depth: usize,
    blocks: &Vec<NetBlock>,
    line: &[u8],
    read: NetLine,
) -> Result<NetLine, PhraseFail>
    requires depth { depth ≤ 2 }
    requires held { fits_line (line_of read) ≡ true }
    ensures { Steps line_of (line_within depth (reverse blocks.now.items) line.now (Some (line_of read))) result }
{
    if !can_stand(&read, blocks) {
        return Err(PhraseFail::NotNet);
    }
    let same = is_line_of(alloc, depth + 1 + blocks.len(), &read, line)?;
    if !same {
        return Err(PhraseFail::NotNet);
    }
    Ok(read)
}

/// The line of a procedure whose head stands at a depth, where these blocks are open. It fails with `NotNet` where it is none
/// that is written so there.
#[tactic(auto, using(crate::proofs::Stopping::line_stops))]
pub(crate) fn take_line(
    alloc: Global,
    depth: usize,
    blocks: &Vec<NetBlock>,
    line: &[u8],
) -> Result<NetLine, PhraseFail>
    requires { depth ≤ 2 }
    ensures { Steps line_of (line_within depth (reverse blocks.now.items) line.now (line_at (text_of_line line.now))) result }
{
    match read_line(alloc, text_of_line(line)) {
        Ok(read) => checked_line(alloc, depth, blocks, line, read),
        Err(e) => Err(e),
    }
}

fn is_line_of_dim(alloc: Global, depth: usize, dim: &NetDim, line: &[u8]) -> Result<bool, Mem>
    ensures { IfOk result (λ same. same ≡ is_same_text (at_depth depth (dim_text (dim_of dim.now))) line.now) }
{
    let mut written = Bytes::new(alloc);
    write_dim_line(&mut written, depth, dim)?;
    Ok(is(written.as_slice(), line))
}

// Whether a declaration can stand in a procedure: before all its lines.
fn can_declare(body: &Body, dim: &NetDim) -> bool
    ensures { result ≡ (has_no_lines (body_of body.now).tree.lines && is_writable_dim (dim_of dim.now)) }
{
    body.tree.lines.is_empty() && is_writable_dim(dim)
}

fn checked_dim(
    alloc: Global,
    depth: usize,
    body: &Body,
    line: &[u8],
    dim: NetDim,
) -> Result<NetDim, PhraseFail>
    requires depth { depth ≤ 2 }
    requires held { fits_dim (dim_of dim) ≡ true }
    ensures { Steps dim_of (dim_within depth (body_of body.now) line.now (Some (dim_of dim))) result }
{
    if !can_declare(body, &dim) {
        return Err(PhraseFail::NotNet);
    }
    let same = is_line_of_dim(alloc, depth + 1, &dim, line)?;
    if !same {
        return Err(PhraseFail::NotNet);
    }
    Ok(dim)
}

/// The declaration in a procedure whose head stands at a depth. It fails with `NotNet` where the line is none that is written so
/// there.
#[tactic(auto, using(crate::proofs::Stopping::dim_stops))]
pub(crate) fn take_dim(
    alloc: Global,
    depth: usize,
    body: &Body,
    line: &[u8],
) -> Result<NetDim, PhraseFail>
    requires { depth ≤ 2 }
    ensures { Steps dim_of (dim_within depth (body_of body.now) line.now (dim_at (text_of_line line.now))) result }
{
    match read_dim(alloc, text_of_line(line)) {
        Ok(dim) => checked_dim(alloc, depth, body, line, dim),
        Err(e) => Err(e),
    }
}

fn is_line_of_close(alloc: Global, depth: usize, close: NetClose, line: &[u8]) -> Result<bool, Mem>
    ensures { IfOk result (λ same. same ≡ is_same_text (at_depth depth (close_text close)) line.now) }
{
    let mut written = Bytes::new(alloc);
    write_close(&mut written, depth, close)?;
    Ok(is(written.as_slice(), line))
}

// Whether a closing line can stand in a procedure: it is the one of its head, and no block is open.
fn can_close(body: &Body, close: NetClose) -> bool
    ensures { result ≡ (closes (body_of body.now).tree.head close && has_no_blocks (body_of body.now).blocks) }
{
    closes(&body.tree.head, close) && body.blocks.is_empty()
}

/// Whether a line is this closing line of a procedure whose head stands at a depth.
pub(crate) fn takes_close(
    alloc: Global,
    depth: usize,
    body: &Body,
    line: &[u8],
    close: NetClose,
) -> Result<bool, Mem>
    ensures { IfOk result (λ takes. takes ≡ (closes (body_of body.now).tree.head close && has_no_blocks (body_of body.now).blocks && is_same_text (at_depth depth (close_text close)) line.now)) }
{
    if !can_close(body, close) {
        return Ok(false);
    }
    Ok(is_line_of_close(alloc, depth, close, line)?)
}

fn is_line_of_field(alloc: Global, field: &NetField, line: &[u8]) -> Result<bool, Mem>
    ensures { IfOk result (λ same. same ≡ is_same_text (at_depth 2 (field_text (field_of field.now))) line.now) }
{
    let mut written = Bytes::new(alloc);
    write_field_line(&mut written, field)?;
    Ok(is(written.as_slice(), line))
}

fn checked_field(alloc: Global, line: &[u8], field: NetField) -> Result<NetField, PhraseFail>
    requires { fits_field (field_of field) ≡ true }
    ensures { Steps field_of (field_within line.now (Some (field_of field))) result }
{
    if !is_writable_field(&field) {
        return Err(PhraseFail::NotNet);
    }
    if !is_line_of_field(alloc, &field, line)? {
        return Err(PhraseFail::NotNet);
    }
    Ok(field)
}

/// What stands in a structure. It fails with `NotNet` where the line is none that is written so there.
#[tactic(auto, using(crate::proofs::Stopping::field_stops))]
pub(crate) fn take_field(alloc: Global, line: &[u8]) -> Result<NetField, PhraseFail>
    ensures { Steps field_of (field_within line.now (field_at (text_of_line line.now))) result }
{
    match read_field(alloc, text_of_line(line)) {
        Ok(field) => checked_field(alloc, line, field),
        Err(e) => Err(e),
    }
}

fn is_line_of_head(alloc: Global, depth: usize, head: &NetHead, line: &[u8]) -> Result<bool, Mem>
    ensures { IfOk result (λ same. same ≡ is_same_text (at_depth depth (head_text (head_of head.now))) line.now) }
{
    let mut written = Bytes::new(alloc);
    write_head_line(&mut written, depth, head)?;
    Ok(is(written.as_slice(), line))
}

/// Whether a property has a part that gets.
pub(crate) fn gets(access: Access) -> bool
    ensures { result ≡ model.gets (access_of access) }
{
    match access {
        Access::Both => true,
        Access::ReadOnly => true,
        Access::WriteOnly => false,
    }
}

/// Whether a property has a part that sets.
pub(crate) fn sets(access: Access) -> bool
    ensures { result ≡ model.sets (access_of access) }
{
    match access {
        Access::Both => true,
        Access::ReadOnly => false,
        Access::WriteOnly => true,
    }
}

// Whether the part of a property that sets may stand there, behind the one that gets.
fn may_set(promised: &Promised) -> bool
    ensures { result ≡ may_set (promised_of promised.now) }
{
    sets(promised.access)
        && promised.tree.set.is_none()
        && (!gets(promised.access) || promised.tree.get.is_some())
}

fn is_fine_set(head: &NetHead) -> bool
    ensures { result ≡ (is_set (head_of head.now) && is_writable_head (head_of head.now)) }
{
    is_set(head) && is_writable_head(head)
}

fn checked_set(
    alloc: Global,
    promised: &Promised,
    line: &[u8],
    head: NetHead,
) -> Result<NetHead, PhraseFail>
    requires { fits_head (head_of head) ≡ true }
    ensures { Steps head_of (set_within (promised_of promised.now) line.now (Some (head_of head))) result }
{
    if !may_set(promised) {
        return Err(PhraseFail::NotNet);
    }
    if !is_fine_set(&head) {
        return Err(PhraseFail::NotNet);
    }
    if !is_line_of_head(alloc, 2, &head, line)? {
        return Err(PhraseFail::NotNet);
    }
    Ok(head)
}

/// The head of the part of a property that sets. It fails with `NotNet` where the line is none that is written so there.
pub(crate) fn take_set(
    alloc: Global,
    promised: &Promised,
    line: &[u8],
) -> Result<NetHead, PhraseFail>
    ensures { Steps head_of (set_within (promised_of promised.now) line.now (set_in (drop 3 (text_of_line line.now)))) result }
{
    match read_set(alloc, behind(3, text_of_line(line))) {
        Ok(head) => checked_set(alloc, promised, line, head),
        Err(e) => Err(e),
    }
}

/// Whether a property has the parts that its head asks for.
pub(crate) fn is_kept(promised: &Promised) -> bool
    ensures { result ≡ model.is_kept (promised_of promised.now) }
{
    (promised.tree.get.is_some() || !gets(promised.access))
        && (promised.tree.set.is_some() || !sets(promised.access))
}

fn is_line_of_comment(alloc: Global, units: &Wide, line: &[u8]) -> Result<bool, Mem>
    ensures { IfOk result (λ same. same ≡ is_same_text (at_depth 2 (comment_text units.now)) line.now) }
{
    let mut written = Bytes::new(alloc);
    write_comment_line(&mut written, 2, units.as_slice())?;
    Ok(is(written.as_slice(), line))
}

fn checked_comment(
    alloc: Global,
    promised: &Promised,
    line: &[u8],
    units: Wide,
) -> Result<Wide, PhraseFail>
    requires { fits_text units ≡ true }
    ensures { Steps (λ units. units) (comment_within (promised_of promised.now) line.now (Some units)) result }
{
    if is_kept(promised) {
        return Err(PhraseFail::NotNet);
    }
    if !is_comment(units.as_slice()) {
        return Err(PhraseFail::NotNet);
    }
    if !is_line_of_comment(alloc, &units, line)? {
        return Err(PhraseFail::NotNet);
    }
    Ok(units)
}

/// A comment before a part of a property that is still to come. It fails with `NotNet` where the line is none that is written
/// so there.
#[tactic(auto, using(crate::proofs::Stopping::comment_stops))]
pub(crate) fn take_comment(
    alloc: Global,
    promised: &Promised,
    line: &[u8],
) -> Result<Wide, PhraseFail>
    ensures { Steps (λ units. units) (comment_within (promised_of promised.now) line.now (units_in (drop 1 (text_of_line line.now)))) result }
{
    match units(alloc, behind(1, text_of_line(line))) {
        Ok(units) => checked_comment(alloc, promised, line, units),
        Err(e) => Err(e),
    }
}

// Whether a head is one that a member can have.
fn is_fine_head(head: &NetHead) -> bool
    ensures { result ≡ (not (is_get (head_of head.now) || is_set (head_of head.now)) && is_writable_head (head_of head.now)) }
{
    !(is_get(head) || is_set(head)) && is_writable_head(head)
}

/// The head of a procedure that is a member, where the line is what is written for it, and otherwise `NotNet`.
pub(crate) fn checked_head(alloc: Global, line: &[u8], head: NetHead) -> Result<NetHead, PhraseFail>
    requires { fits_head (head_of head) ≡ true }
    ensures { Steps head_of (head_within line.now (Some (head_of head))) result }
{
    if !is_fine_head(&head) {
        return Err(PhraseFail::NotNet);
    }
    if !is_line_of_head(alloc, 1, &head, line)? {
        return Err(PhraseFail::NotNet);
    }
    Ok(head)
}

fn is_line_of_member(alloc: Global, member: &NetMember, line: &[u8]) -> Result<bool, Mem>
    ensures { IfOk result (λ same. same ≡ is_same_text (member_text (member_of member.now)) line.now) }
{
    let mut written = Bytes::new(alloc);
    write_member(&mut written, member)?;
    Ok(is(written.as_slice(), line))
}

/// A member of one line, where the line is what is written for it, and otherwise `NotNet`.
pub(crate) fn checked_member(
    alloc: Global,
    line: &[u8],
    member: NetMember,
) -> Result<NetMember, PhraseFail>
    requires { fits_member (member_of member) ≡ true }
    ensures { Steps member_of (member_within line.now (Some (member_of member))) result }
{
    if !is_writable_member(alloc, &member)? {
        return Err(PhraseFail::NotNet);
    }
    if !is_line_of_member(alloc, &member, line)? {
        return Err(PhraseFail::NotNet);
    }
    Ok(member)
}

fn write_promised(out: &mut Bytes, access: Access, head: &PropertyHead) -> Result<(), Mem>
    ensures { OnOk result (out.new ≡ out.old ++ model.promised_text (model.promise (access_of access) (property_head_of head.now))) }
{
    write_promise(
        out,
        head.visibility,
        gets(access),
        sets(access),
        &head.name,
        &head.params,
        &head.ty,
    )
}

fn is_line_of_property(
    alloc: Global,
    access: Access,
    head: &PropertyHead,
    line: &[u8],
) -> Result<bool, Mem>
    ensures { IfOk result (λ same. same ≡ is_same_text (at_depth 1 (model.promised_text (model.promise (access_of access) (property_head_of head.now)))) line.now) }
{
    let mut written = Bytes::new(alloc);
    begin_line(&mut written, 1)?;
    write_promised(&mut written, access, head)?;
    end_line(&mut written)?;
    Ok(is(written.as_slice(), line))
}

fn is_fine_property(head: &PropertyHead) -> bool
    requires { fits_property (property_head_of head.now) ≡ true }
    ensures { result ≡ model.is_fine_property (property_head_of head.now) }
{
    can_be_declared(&head.name, &head.ty) && are_writable_params(&head.params)
}

/// The head of a property, where the line is what is written for it, and otherwise `NotNet`.
pub(crate) fn checked_property(
    alloc: Global,
    access: Access,
    line: &[u8],
    head: PropertyHead,
) -> Result<PropertyHead, PhraseFail>
    requires { fits_property (property_head_of head) ≡ true }
    ensures { Steps property_head_of (property_within (access_of access) line.now (Some (property_head_of head))) result }
{
    if !is_fine_property(&head) {
        return Err(PhraseFail::NotNet);
    }
    if !is_line_of_property(alloc, access, &head, line)? {
        return Err(PhraseFail::NotNet);
    }
    Ok(head)
}

fn is_line_of_structure(alloc: Global, name: &Name, line: &[u8]) -> Result<bool, Mem>
    ensures { IfOk result (λ same. same ≡ is_same_text (at_depth 1 (model.structure_head_text name.now)) line.now) }
{
    let mut written = Bytes::new(alloc);
    write_structure_head(&mut written, name)?;
    Ok(is(written.as_slice(), line))
}

/// The name of a structure, where the line is what is written for it, and otherwise `NotNet`.
pub(crate) fn checked_structure(alloc: Global, line: &[u8], name: Name) -> Result<Name, PhraseFail>
    requires { fits_name name ≡ true }
    ensures { Steps (λ name. name) (structure_within line.now (Some name)) result }
{
    if !is_identifier(name.as_bytes()) {
        return Err(PhraseFail::NotNet);
    }
    if !is_line_of_structure(alloc, &name, line)? {
        return Err(PhraseFail::NotNet);
    }
    Ok(name)
}
