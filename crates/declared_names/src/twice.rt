//! Names that are declared twice in one scope. Each look-up asks tables of first declarations.
ghost use Rattle.std.specs.Prelude.{◌≡◌, map, option_map, slice_get, None};
ghost use Rattle.up_base.specs.Names.{lower_case};
ghost use Rattle.bound_tree.specs.declared.declared.Scope.TheVariants as scope;
ghost use Rattle.name_places.specs.Places.{placed};
ghost use Rattle.declared_names.specs.Rivals.{AreRivals, first_member, in_way, is_elsewhere, is_other, is_other_at, least};
ghost use Rattle.declared_names.specs.Rules.{are_beside, is_same, is_same_part, is_second, part_of, part_of_kind, part_of_procedure};
ghost use Rattle.declared_names.specs.View.{names_of, procedure_of};

use crate::rivals::{MemberPlaces, Rivals};
use crate::{DeclaredNames, NamedProc};
use bound_tree::{Named, NamedEntry};
use name_places::NamePlaces;
use up_base::{Name, Sequence};
use vb_tree::{ProcId, ProcKind};

/// Whether the first declared name that is in the way of a member of the module of a file is another declaration.
pub(crate) fn is_second_member(
    rivals: &Rivals,
    d: &DeclaredNames,
    file: u32,
    name: &Name,
    named: Named,
) -> bool
    requires { AreRivals rivals.now (names_of d.now) }
    ensures { result ≡ is_second (names_of d.now).procs (scope.Private file) name.now named (names_of d.now).names }
{
    let part = part_of(&d.procs, named);
    let first = first_member(&rivals.members, part, file, name.lower_bytes());
    is_other_at(d.names.as_slice(), named, first)
}

/// The same of a name of a procedure's own, which is no part of a property.
pub(crate) fn is_second_local(
    rivals: &Rivals,
    d: &DeclaredNames,
    procedure: ProcId,
    name: &Name,
    named: Named,
) -> bool
    requires tables { AreRivals rivals.now (names_of d.now) }
    requires part { part_of (names_of d.now).procs named ≡ None }
    ensures { result ≡ is_second (names_of d.now).procs (scope.Local procedure) name.now named (names_of d.now).names }
{
    let first = rivals.locals.place(procedure.0, name.lower_bytes());
    is_other_at(d.names.as_slice(), named, first)
}

// The place of the first name of a module that is in the way of a part of a property. The name is given in small letters.
fn first_member(
    members: &MemberPlaces,
    of: Option<ProcKind>,
    file: u32,
    name: &[u8],
) -> Option<usize>
    ensures { result ≡ first_member members.now of file name.now }
{
    let others = in_way(None, of, members.others.place(file, name));
    let gets = in_way(Some(ProcKind::Get), of, members.gets.place(file, name));
    let lets = in_way(Some(ProcKind::Let), of, members.lets.place(file, name));
    let sets = in_way(Some(ProcKind::Set), of, members.sets.place(file, name));
    least(others, least(gets, least(lets, sets)))
}

// A place of a part of a property, where it is in the way of another one.
fn in_way(part: Option<ProcKind>, of: Option<ProcKind>, place: Option<usize>) -> Option<usize>
    ensures { result ≡ in_way part of place }
{
    if are_beside(part, of) {
        return None;
    }
    place
}

// The less of two places that there are.
fn least(a: Option<usize>, b: Option<usize>) -> Option<usize>
    ensures { result ≡ least a b }
{
    match (a, b) {
        (Some(a), Some(b)) => { if a <= b { Some(a) } else { Some(b) } }
        (Some(a), None) => Some(a),
        (None, b) => b,
    }
}

// Whether the name at a place is another declaration.
fn is_other_at(names: &[NamedEntry], named: Named, place: Option<usize>) -> bool
    ensures { result ≡ is_other_at names.now named place }
{
    match place {
        Some(i) => is_other(names, named, i),
        None => false,
    }
}

fn is_other(names: &[NamedEntry], named: Named, i: usize) -> bool
    ensures { result ≡ is_other named (slice_get names.now i) }
{
    match names.get(i) {
        Some(e) => !is_same(e.named, named),
        None => false,
    }
}

// Whether two numbers of declarations are one.
fn is_same(a: Named, b: Named) -> bool
    ensures { result ≡ is_same a b }
{
    match (a, b) {
        (Named::Var(a), Named::Var(b)) => a.0 == b.0,
        (Named::Const(a), Named::Const(b)) => a.0 == b.0,
        (Named::Proc(a), Named::Proc(b)) => a.0 == b.0,
        (Named::Type(a), Named::Type(b)) => a.0 == b.0,
        (Named::Enum(a), Named::Enum(b)) => a.0 == b.0,
        _ => false,
    }
}

/// Which part of a property a declaration is.
pub(crate) fn part_of(procs: &Sequence<NamedProc>, named: Named) -> Option<ProcKind>
    ensures { result ≡ part_of (map procedure_of procs.now) named }
{
    match named {
        Named::Proc(p) => part_of_procedure(procs.get(p.0 as usize)),
        _ => None,
    }
}

fn part_of_procedure(procedure: Option<&NamedProc>) -> Option<ProcKind>
    ensures { result ≡ part_of_procedure (option_map (λ p. procedure_of p.now) procedure.entry) }
{
    match procedure {
        Some(procedure) => part_of_kind(procedure.kind),
        None => None,
    }
}

fn part_of_kind(kind: ProcKind) -> Option<ProcKind>
    ensures { result ≡ part_of_kind kind }
{
    match kind {
        ProcKind::Sub => None,
        ProcKind::Function => None,
        ProcKind::Get => Some(ProcKind::Get),
        ProcKind::Let => Some(ProcKind::Let),
        ProcKind::Set => Some(ProcKind::Set),
    }
}

// Whether they are different parts of a property.
fn are_beside(a: Option<ProcKind>, b: Option<ProcKind>) -> bool
    ensures { result ≡ are_beside a b }
{
    match (a, b) {
        (Some(a), Some(b)) => !is_same_part(a, b),
        _ => false,
    }
}

pub(crate) fn is_same_part(a: ProcKind, b: ProcKind) -> bool
    ensures { result ≡ is_same_part a b }
{
    match (a, b) {
        (ProcKind::Get, ProcKind::Get) => true,
        (ProcKind::Let, ProcKind::Let) => true,
        (ProcKind::Set, ProcKind::Set) => true,
        _ => false,
    }
}

/// Whether a variable isn't the first field of its name in its Type.
pub(crate) fn is_second_field(fields: &NamePlaces, of: u32, name: &Name, own: usize) -> bool
    ensures { result ≡ is_elsewhere own (placed fields.now of (lower_case name.now)) }
{
    match fields.place(of, name.lower_bytes()) {
        Some(i) => i != own,
        None => false,
    }
}
