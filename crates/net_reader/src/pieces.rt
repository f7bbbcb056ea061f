//! Makes what is read up to a line longer by what the line says.
ghost use Rattle.std.specs.Prelude.{◌≡◌, [], IfOk};
ghost use Rattle.net_tree.specs.View.{dim_of, field_of, head_of, line_of, member_of, procedure_of, property_of, structure_of};
ghost use Rattle.net_reader.specs.ModuleReader as model;
ghost use Rattle.net_reader.specs.Parts.{property_head_of};
ghost use Rattle.net_reader.specs.StateView.{body_of, noted_of, promised_of};

use crate::heads::PropertyHead;
use crate::states::{Body, NotedModule, Promised};
use net_tree::{
    NetClose, NetDim, NetField, NetHead, NetLine, NetMember, NetModule, NetProc, NetProperty,
    NetStructure,
};
use net_writable::{is_get, pass};
use std::alloc::Global;
use up_base::{Bytes, Mem, Name, Sequence, Wide};

/// A module behind its head.
pub(crate) fn opened(alloc: Global, note: Option<Bytes>, name: Name, class: bool) -> NotedModule
    ensures { noted_of result ≡ model.opened note name class }
{
    let members = Sequence::new(alloc);
    NotedModule {
        note,
        tree: NetModule {
            name,
            class,
            members,
        },
    }
}

/// A module with one member more.
pub(crate) fn with_member(noted: NotedModule, member: NetMember) -> Result<NotedModule, Mem>
    ensures { IfOk result (λ longer. noted_of longer ≡ model.with_member (noted_of noted) (member_of member)) }
{
    let mut noted = noted;
    noted.tree.members.push(member)?;
    Ok(noted)
}

/// A structure behind its head.
pub(crate) fn structure(alloc: Global, name: Name) -> NetStructure
    ensures { structure_of result ≡ record { name = name; fields = [] } }
{
    NetStructure {
        name,
        fields: Vec::new(alloc),
    }
}

/// A structure with one field more.
pub(crate) fn with_field(structure: NetStructure, field: NetField) -> Result<NetStructure, Mem>
    ensures { IfOk result (λ longer. structure_of longer ≡ model.with_field (structure_of structure) (field_of field)) }
{
    let mut structure = structure;
    structure.fields.push(field)?;
    Ok(structure)
}

/// A procedure behind its head.
pub(crate) fn headed(alloc: Global, head: NetHead) -> Body
    ensures { body_of result ≡ model.headed (head_of head) }
{
    let tree = NetProc {
        head,
        prologue: Vec::new(alloc),
        lines: Vec::new(alloc),
        close: NetClose::EndSub,
    };
    Body {
        tree,
        blocks: Vec::new(alloc),
    }
}

/// A procedure with one declaration more.
pub(crate) fn with_dim(body: Body, dim: NetDim) -> Result<Body, Mem>
    ensures { IfOk result (λ longer. body_of longer ≡ model.with_dim (body_of body) (dim_of dim)) }
{
    let mut body = body;
    body.tree.prologue.push(dim)?;
    Ok(body)
}

/// A procedure with one line more.
pub(crate) fn with_line(body: Body, line: NetLine) -> Result<Body, Mem>
    ensures { IfOk result (λ longer. body_of longer ≡ model.with_line (body_of body) (line_of line)) }
{
    let mut body = body;
    pass(line.role(), &mut body.blocks)?;
    body.tree.lines.push(line)?;
    Ok(body)
}

/// A procedure with its closing line.
pub(crate) fn closed_by(body: Body, close: NetClose) -> NetProc
    ensures { procedure_of result ≡ model.closed_by (body_of body) close }
{
    let mut tree = body.tree;
    tree.close = close;
    tree
}

/// A property behind its head.
pub(crate) fn property(alloc: Global, head: PropertyHead) -> NetProperty
    ensures { property_of result ≡ property_head_of head }
{
    NetProperty {
        visibility: head.visibility,
        name: head.name,
        params: head.params,
        ty: head.ty,
        get_comments: Vec::new(alloc),
        get: None,
        set_comments: Vec::new(alloc),
        set: None,
    }
}

/// A property with one comment more before the part to come.
pub(crate) fn with_comment(promised: Promised, units: Wide) -> Result<Promised, Mem>
    ensures { IfOk result (λ longer. promised_of longer ≡ model.with_comment (promised_of promised) units) }
{
    let mut promised = promised;
    promised.comments.push(units)?;
    Ok(promised)
}

/// A property with its part, which has the comments before it.
pub(crate) fn with_part(alloc: Global, promised: Promised, part: NetProc) -> Result<Promised, Mem>
    ensures { IfOk result (λ longer. promised_of longer ≡ model.with_part (promised_of promised) (procedure_of part)) }
{
    let Promised {
        access,
        mut tree,
        comments,
    } = promised;
    if is_get(&part.head) {
        tree.get_comments = comments;
        tree.get = Some(Box::new(alloc, part)?);
    } else {
        tree.set_comments = comments;
        tree.set = Some(Box::new(alloc, part)?);
    }
    Ok(Promised {
        access,
        tree,
        comments: Vec::new(alloc),
    })
}
