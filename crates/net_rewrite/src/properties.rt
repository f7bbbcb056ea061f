//! Properties: their parts, and how these stand together.
ghost use Rattle.std.specs.Prelude.{◌≡◌, ◌++◌, ◌&&◌, [], nat_eq, true, Some, map, option_map, position, slice_get, IfOk};
ghost use Rattle.vb_tree.specs.View.{line_of, nodes_of};
ghost use Rattle.vb_tree.specs.View as source;
ghost use Rattle.vb_tree.specs.declared.declared.ProcKind.TheVariants as kind;
ghost use Rattle.bound_tree.specs.View.{declarations_of};
ghost use Rattle.bound_tree.specs.View as bound;
ghost use Rattle.net_tree.specs.Tree as net;
ghost use Rattle.net_tree.specs.View.{member_of, param_of, procedure_of, property_of, type_name_of};
ghost use Rattle.written_trees.specs.Facts.{set_at};
ghost use Rattle.written_trees.specs.Heads as heads;
ghost use Rattle.written_trees.specs.Names as names;
ghost use Rattle.written_trees.specs.Properties as rows;
ghost use Rattle.written_rows.specs.View.{facts_of, scope_of};
ghost use Rattle.written_members.specs.View.{IsSite, placed_of, program_at, scope_at};
ghost use Rattle.net_rewrite.specs.Parts.{comments_if, part_with};
ghost use Rattle.net_rewrite.specs.View.{part_of};

use bound_tree::{Declared, LineRef, ProcDecl, RuleSet};
use net_tree::{
    NetClose, NetHead, NetMember, NetParam, NetProc, NetProperty, NetType, NetVisibility,
};
use std::alloc::Global;
use up_base::{Mem, Name, Wide};
use vb_tree::{CodeLine, Member6, Node6, ProcKind};
use written_members::{
    Placed, Site, index_params, is_function, params_of, procedure_with, property_type, set_head,
    texts, upgrade_texts, written_visibility,
};
use written_rows::{Scope, WrittenFacts, name_of, procedure_name};

// ---- which part a procedure is

fn is_kind(a: ProcKind, b: ProcKind) -> bool
    ensures { result ≡ rows.is_kind a b }
{
    match a {
        ProcKind::Sub => match b {
            ProcKind::Sub => true,
            _ => false,
        },
        ProcKind::Function => match b {
            ProcKind::Function => true,
            _ => false,
        },
        ProcKind::Get => match b {
            ProcKind::Get => true,
            _ => false,
        },
        ProcKind::Let => match b {
            ProcKind::Let => true,
            _ => false,
        },
        ProcKind::Set => match b {
            ProcKind::Set => true,
            _ => false,
        },
    }
}

fn is_part(first: u32, kind: ProcKind, q: &ProcDecl) -> bool
    ensures { result ≡ rows.is_part first kind (bound.procedure_of q.now) }
{
    q.first.0 == first && is_kind(kind, q.kind)
}

// The part of a kind of the property with a first part; of two the first.
fn part_number(declared: &Declared, kind: ProcKind, first: u32) -> Option<usize>
    ensures { result ≡ rows.part_number (declarations_of declared.now) kind first }
{
    part_in(declared.procs.as_slice(), kind, first)
}

#[tactic(auto, using(crate::proofs::Positions::part_position))]
fn part_in(procs: &[ProcDecl], kind: ProcKind, first: u32) -> Option<usize>
    ensures { result ≡ position (rows.is_part first kind) (map bound.procedure_of procs.now) }
{
    place_in(procs, kind, first)
}

fn place_in(procs: &[ProcDecl], kind: ProcKind, first: u32) -> Option<usize>
    ensures { result ≡ position (λ q. rows.is_part first kind (bound.procedure_of q)) procs.now }
{
    procs.iter().position(|q| is_part(first, kind, q))
}

/// The procedure of a number.
pub(crate) fn procedure_at<'a>(site: &Site<'a>, number: usize) -> Option<&'a ProcDecl>
    ensures { option_map (λ d. bound.procedure_of d.now) result ≡ slice_get (scope_at site.now).declarations.procs number }
{
    site.statements.declared().procs.get(number)
}

fn is_number(p: u32, number: Option<usize>) -> bool
    ensures { result ≡ rows.is_number p number }
{
    match number {
        None => false,
        Some(q) => p as usize == q,
    }
}

/// Whether a procedure is the part of its kind of its property.
pub(crate) fn is_counted(declared: &Declared, procedure: u32, q: &ProcDecl) -> bool
    ensures { result ≡ rows.is_counted (declarations_of declared.now) procedure (bound.procedure_of q.now) }
{
    is_number(procedure, part_number(declared, q.kind, q.first.0))
}

// ---- rules of heads

fn head_rules(site: &Site, placed: &Placed) -> RuleSet
    requires { IsSite site.now }
    ensures { result ≡ rows.head_rules (scope_at site.now) (placed_of placed.now) }
{
    site.facts
        .head_set(placed.at.procedure)
        .union(site.rules(placed.at.statement))
}

fn set_at(sets: &[RuleSet], k: usize) -> RuleSet
    ensures { result ≡ set_at sets.now k }
{
    match sets.get(k) {
        None => RuleSet::new(),
        Some(set) => *set,
    }
}

fn carries_shape(facts: &WrittenFacts, first: u32, procs: &[ProcDecl]) -> bool
    ensures { result ≡ rows.carries_shape (facts_of facts.now) first 0 (map bound.procedure_of procs.now) }
{
    let heads = facts.marks.heads.as_slice();
    for (k, q) in procs.iter().enumerate() {
        if q.first.0 == first && set_at(heads, k).has(7) {
            return true;
        }
    }
    false
}

/// Whether the parts of a property stand for themselves, since they don't fit together.
pub(crate) fn is_separate(scope: &Scope, q: &ProcDecl) -> bool
    ensures { result ≡ rows.is_separate (scope_of scope.now) (bound.procedure_of q.now) }
{
    carries_shape(scope.facts, q.first.0, scope.declared.procs.as_slice())
}

fn prefixed(alloc: Global, prefix: &[u8], name: &[u8]) -> Result<Name, Mem>
    ensures { IfOk result (λ n. n ≡ prefix.now ++ name.now) }
{
    let mut bytes = Vec::with_capacity(alloc, 5)?;
    bytes.extend_from_slice(prefix)?;
    bytes.extend_from_slice(name)?;
    Ok(name_of(alloc, &bytes)?)
}

/// The name of a part that stands for itself.
pub(crate) fn separate_name(alloc: Global, kind: ProcKind, name: &[u8]) -> Result<Name, Mem>
    ensures { IfOk result (λ n. n ≡ rows.separate_name kind name.now) }
{
    match kind {
        ProcKind::Get => Ok(prefixed(alloc, b"_Get_", name)?),
        ProcKind::Let => Ok(prefixed(alloc, b"_Let_", name)?),
        ProcKind::Set => Ok(prefixed(alloc, b"_Set_", name)?),
        ProcKind::Sub => Ok(name_of(alloc, name)?),
        ProcKind::Function => Ok(name_of(alloc, name)?),
    }
}

// ---- parts

/// A part with the comments right before it.
#[derive(Drop)]
pub(crate) struct Part {
    pub comments: Vec<Wide>,
    pub procedure: Option<Box<NetProc>>,
}

fn no_part(alloc: Global) -> Part
    ensures { part_of result ≡ rows.no_part }
{
    Part {
        comments: Vec::new(alloc),
        procedure: None,
    }
}

fn part_procedure(
    alloc: Global,
    site: &Site,
    bodies: &[Vec<LineRef>],
    placed: &Placed,
    body: &[Node6],
    q: &ProcDecl,
) -> Result<NetProc, Mem>
    requires { IsSite site.now }
    ensures { IfOk result (λ p. procedure_of p ≡ rows.part_procedure (program_at site.now bodies.now) (scope_at site.now) (placed_of placed.now) (nodes_of body.now) (bound.procedure_of q.now)) }
{
    if is_function(q.kind) {
        return Ok(procedure_with(
            alloc,
            site,
            bodies,
            placed,
            body,
            NetHead::Get,
            NetClose::EndGet,
        )?);
    }
    let head = set_head(alloc, &site.scope(), q)?;
    Ok(procedure_with(alloc, site, bodies, placed, body, head, NetClose::EndSet)?)
}

fn boxed_procedure(alloc: Global, procedure: NetProc) -> Result<Option<Box<NetProc>>, Mem>
    ensures { IfOk result (λ o. option_map (λ b. procedure_of b.value) o ≡ Some (procedure_of procedure)) }
{
    Ok(Some(Box::new(alloc, procedure)?))
}

/// The comments on the head of a procedure: those of its line, and the one that names a rule.
pub(crate) fn head_comments(
    alloc: Global,
    site: &Site,
    placed: &Placed,
    head: &CodeLine,
) -> Result<Vec<Wide>, Mem>
    requires { IsSite site.now }
    ensures { IfOk result (λ units. units.items ≡ rows.head_comments (scope_at site.now) (placed_of placed.now) (line_of head.now)) }
{
    let mut units = texts(alloc, placed.own)?;
    let mut upgrade = upgrade_texts(alloc, head_rules(site, placed), head.text.as_slice())?;
    units.append(&mut upgrade)?;
    Ok(units)
}

fn comments_if(
    alloc: Global,
    site: &Site,
    later: bool,
    placed: &Placed,
    head: &CodeLine,
) -> Result<Vec<Wide>, Mem>
    requires { IsSite site.now }
    ensures { IfOk result (λ units. units.items ≡ comments_if (scope_at site.now) later (placed_of placed.now) (line_of head.now)) }
{
    if later {
        return Ok(head_comments(alloc, site, placed, head)?);
    }
    Ok(Vec::new(alloc))
}

fn own_procedure(
    alloc: Global,
    site: &Site,
    bodies: &[Vec<LineRef>],
    placed: &Placed,
    body: &[Node6],
    q: &ProcDecl,
) -> Result<Option<Box<NetProc>>, Mem>
    requires { IsSite site.now }
    ensures { IfOk result (λ o. option_map (λ b. procedure_of b.value) o ≡ Some (rows.part_procedure (program_at site.now bodies.now) (scope_at site.now) (placed_of placed.now) (nodes_of body.now) (bound.procedure_of q.now))) }
{
    let procedure = part_procedure(alloc, site, bodies, placed, body, q)?;
    Ok(boxed_procedure(alloc, procedure)?)
}

fn part_with(
    alloc: Global,
    site: &Site,
    bodies: &[Vec<LineRef>],
    later: bool,
    placed: &Placed,
    head: &CodeLine,
    body: &[Node6],
    q: &ProcDecl,
) -> Result<Part, Mem>
    requires { IsSite site.now }
    ensures { IfOk result (λ p. part_of p ≡ part_with (program_at site.now bodies.now) (scope_at site.now) later (placed_of placed.now) (line_of head.now) (nodes_of body.now) (bound.procedure_of q.now)) }
{
    let comments = comments_if(alloc, site, later, placed, head)?;
    let procedure = own_procedure(alloc, site, bodies, placed, body, q)?;
    Ok(Part {
        comments,
        procedure,
    })
}

fn part_by(
    alloc: Global,
    site: &Site,
    bodies: &[Vec<LineRef>],
    later: bool,
    placed: &Placed,
    q: Option<&ProcDecl>,
) -> Result<Part, Mem>
    requires { IsSite site.now }
    ensures { IfOk result (λ p. part_of p ≡ rows.part_by (program_at site.now bodies.now) (scope_at site.now) later (placed_of placed.now) (source.member_of placed.now.member.now) (option_map (λ d. bound.procedure_of d.now) q.entry)) }
{
    match placed.member {
        Member6::Line(_) => Ok(no_part(alloc)),
        Member6::Group(_, _, _) => Ok(no_part(alloc)),
        Member6::Proc(head, body, _) => match q {
            None => Ok(no_part(alloc)),
            Some(q) => Ok(part_with(alloc, site, bodies, later, placed, head, body.as_slice(), q)?),
        },
    }
}

fn is_procedure_member(member: &Member6) -> bool
    ensures { result ≡ rows.is_procedure_member (source.member_of member.now) }
{
    match member {
        Member6::Proc(_, _, _) => true,
        _ => false,
    }
}

fn is_procedure(placed: &Placed, number: usize) -> bool
    ensures { result ≡ (rows.is_procedure_member (source.member_of placed.now.member.now) && nat_eq placed.now.at.procedure number) }
{
    is_procedure_member(placed.member) && placed.at.procedure as usize == number
}

// The part that is the procedure of a number, among the members of a module; all parts but the first are later ones.
fn part_among(
    alloc: Global,
    site: &Site,
    bodies: &[Vec<LineRef>],
    first: u32,
    number: usize,
    all: &[Placed],
) -> Result<Part, Mem>
    requires { IsSite site.now }
    ensures { IfOk result (λ p. part_of p ≡ rows.part_among (program_at site.now bodies.now) (scope_at site.now) first number (map placed_of all.now)) }
{
    for placed in all {
        if is_procedure(placed, number) {
            let q = procedure_at(site, number);
            return Ok(part_by(alloc, site, bodies, number != first as usize, placed, q)?);
        }
    }
    Ok(no_part(alloc))
}

fn part_at(
    alloc: Global,
    site: &Site,
    bodies: &[Vec<LineRef>],
    first: u32,
    all: &[Placed],
    number: Option<usize>,
) -> Result<Part, Mem>
    requires { IsSite site.now }
    ensures { IfOk result (λ p. part_of p ≡ rows.part_at (program_at site.now bodies.now) (scope_at site.now) first (map placed_of all.now) number) }
{
    match number {
        None => Ok(no_part(alloc)),
        Some(number) => Ok(part_among(alloc, site, bodies, first, number, all)?),
    }
}

fn or_part(number: Option<usize>, other: Option<usize>) -> Option<usize>
    ensures { result ≡ rows.or_part number other }
{
    match number {
        Some(n) => Some(n),
        None => other,
    }
}

// ---- properties

// What the parts of a property share.
#[derive(Drop)]
struct Shared {
    visibility: NetVisibility,
    name: Name,
    params: Vec<NetParam>,
    ty: NetType,
}

fn shared_by(alloc: Global, scope: &Scope, q: &ProcDecl, name: Name) -> Result<Shared, Mem>
    ensures visibility { IfOk result (λ s. s.visibility ≡ heads.written_visibility (bound.procedure_of q.now).visibility) }
    ensures name { IfOk result (λ s. s.name ≡ name) }
    ensures params { IfOk result (λ s. map param_of s.params.items ≡ heads.params_of (scope_of scope.now) true (heads.index_params (bound.procedure_of q.now))) }
    ensures ty { IfOk result (λ s. type_name_of s.ty ≡ heads.property_type (scope_of scope.now) (bound.procedure_of q.now)) }
{
    let params = params_of(alloc, scope, true, index_params(q))?;
    let ty = property_type(alloc, scope, q)?;
    Ok(Shared {
        visibility: written_visibility(q.visibility),
        name,
        params,
        ty,
    })
}

fn joined(shared: Shared, get: Part, set: Part) -> NetProperty
    ensures visibility { result.visibility ≡ shared.visibility }
    ensures name { result.name ≡ shared.name }
    ensures params { result.params ≡ shared.params }
    ensures ty { result.ty ≡ shared.ty }
    ensures get_comments { result.get_comments ≡ get.comments }
    ensures get { result.get ≡ get.procedure }
    ensures set_comments { result.set_comments ≡ set.comments }
    ensures set { result.set ≡ set.procedure }
{
    NetProperty {
        visibility: shared.visibility,
        name: shared.name,
        params: shared.params,
        ty: shared.ty,
        get_comments: get.comments,
        get: get.procedure,
        set_comments: set.comments,
        set: set.procedure,
    }
}

fn boxed_property(alloc: Global, property: NetProperty) -> Result<NetMember, Mem>
    ensures { IfOk result (λ m. member_of m ≡ net.property (property_of property)) }
{
    Ok(NetMember::Property(Box::new(alloc, property)?))
}

fn joined_property(
    alloc: Global,
    scope: &Scope,
    q: &ProcDecl,
    name: Name,
    get: Part,
    set: Part,
) -> Result<NetMember, Mem>
    ensures { IfOk result (λ m. member_of m ≡ rows.joined_property (scope_of scope.now) (bound.procedure_of q.now) name (part_of get) (part_of set)) }
{
    match shared_by(alloc, scope, q, name) {
        Ok(shared) => Ok(boxed_property(alloc, joined(shared, get, set))?),
        Err(Mem) => {
            drop(set);
            drop(get);
            Err(Mem)
        }
    }
}

fn named_property(
    alloc: Global,
    scope: &Scope,
    q: &ProcDecl,
    procedure: u32,
    get: Part,
    set: Part,
) -> Result<NetMember, Mem>
    ensures { IfOk result (λ m. member_of m ≡ rows.joined_property (scope_of scope.now) (bound.procedure_of q.now) (names.procedure_name (scope_of scope.now).declarations procedure) (part_of get) (part_of set)) }
{
    match procedure_name(alloc, scope.declared, procedure) {
        Ok(name) => Ok(joined_property(alloc, scope, q, name, get, set)?),
        Err(Mem) => {
            drop(set);
            drop(get);
            Err(Mem)
        }
    }
}

fn set_of_property(
    alloc: Global,
    site: &Site,
    bodies: &[Vec<LineRef>],
    all: &[Placed],
    first: u32,
) -> Result<Part, Mem>
    requires { IsSite site.now }
    ensures { IfOk result (λ p. part_of p ≡ rows.part_at (program_at site.now bodies.now) (scope_at site.now) first (map placed_of all.now) (rows.or_part (rows.part_number (scope_at site.now).declarations kind.Let first) (rows.part_number (scope_at site.now).declarations kind.Set first))) }
{
    let declared = site.statements.declared();
    let number = or_part(
        part_number(declared, ProcKind::Let, first),
        part_number(declared, ProcKind::Set, first),
    );
    Ok(part_at(alloc, site, bodies, first, all, number)?)
}

fn get_of_property(
    alloc: Global,
    site: &Site,
    bodies: &[Vec<LineRef>],
    all: &[Placed],
    first: u32,
) -> Result<Part, Mem>
    requires { IsSite site.now }
    ensures { IfOk result (λ p. part_of p ≡ rows.part_at (program_at site.now bodies.now) (scope_at site.now) first (map placed_of all.now) (rows.part_number (scope_at site.now).declarations kind.Get first)) }
{
    let number = part_number(site.statements.declared(), ProcKind::Get, first);
    Ok(part_at(alloc, site, bodies, first, all, number)?)
}

/// The property of which a procedure with a number is the first part.
pub(crate) fn property_of(
    alloc: Global,
    site: &Site,
    bodies: &[Vec<LineRef>],
    all: &[Placed],
    first: u32,
    q: &ProcDecl,
) -> Result<NetMember, Mem>
    requires { IsSite site.now }
    ensures { IfOk result (λ m. member_of m ≡ rows.property_of (program_at site.now bodies.now) (scope_at site.now) (map placed_of all.now) first (bound.procedure_of q.now)) }
{
    let get = get_of_property(alloc, site, bodies, all, first)?;
    match set_of_property(alloc, site, bodies, all, first) {
        Ok(set) => Ok(named_property(alloc, &site.scope(), q, first, get, set)?),
        Err(Mem) => {
            drop(get);
            Err(Mem)
        }
    }
}

fn own_part(
    alloc: Global,
    site: &Site,
    bodies: &[Vec<LineRef>],
    placed: &Placed,
    body: &[Node6],
    q: &ProcDecl,
) -> Result<Part, Mem>
    requires { IsSite site.now }
    ensures { IfOk result (λ p. part_of p ≡ rows.own_part (program_at site.now bodies.now) (scope_at site.now) (placed_of placed.now) (nodes_of body.now) (bound.procedure_of q.now)) }
{
    let procedure = own_procedure(alloc, site, bodies, placed, body, q)?;
    Ok(Part {
        comments: Vec::new(alloc),
        procedure,
    })
}

/// A second part of one kind, which is a property by itself.
pub(crate) fn only_part(
    alloc: Global,
    site: &Site,
    bodies: &[Vec<LineRef>],
    placed: &Placed,
    body: &[Node6],
    q: &ProcDecl,
) -> Result<NetMember, Mem>
    requires { IsSite site.now }
    ensures { IfOk result (λ m. member_of m ≡ rows.only_part (program_at site.now bodies.now) (scope_at site.now) (placed_of placed.now) (nodes_of body.now) (bound.procedure_of q.now)) }
{
    let own = own_part(alloc, site, bodies, placed, body, q)?;
    if is_function(q.kind) {
        return Ok(named_property(
            alloc,
            &site.scope(),
            q,
            placed.at.procedure,
            own,
            no_part(alloc),
        )?);
    }
    Ok(named_property(
        alloc,
        &site.scope(),
        q,
        placed.at.procedure,
        no_part(alloc),
        own,
    )?)
}
