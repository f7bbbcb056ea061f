//! Which lines stand where, by what they open, part and close.
ghost use Rattle.std.specs.Prelude.{◌≡◌, ◌==◌, ◌||◌, if◌then◌else◌};
ghost use Rattle.vb_tree.specs.Blocks.{is_procedure, is_group};
ghost use Rattle.vb_lines.specs.Nesting.{is_outermost, kind_number, is_same_kind, fault_at_module, fault_in_group, fault_in_procedure, fault_inside};

use vb_tree::{BlockKind, Role};

// The numbers of the faults of lines.
pub(crate) const NO_FORM: u8 = 10;

const NOT_OPEN: u8 = 11;

pub(crate) const NEVER_CLOSED: u8 = 12;

pub(crate) const TOO_DEEP: u8 = 14;

pub(crate) const MALFORMED_HEAD: u8 = 15;

// How many blocks may be open in one another in a procedure.
const BLOCK_LIMIT: usize = 64;

// Whether the block is the body of a procedure.
fn is_procedure(kind: BlockKind) -> bool
    ensures { result ≡ is_procedure kind }
{
    matches!(
        kind,
        BlockKind::Sub | BlockKind::Function | BlockKind::Property
    )
}

/// Whether the block is a Type or an Enum.
pub(crate) fn is_group(kind: BlockKind) -> bool
    ensures { result ≡ is_group kind }
{
    matches!(kind, BlockKind::Type | BlockKind::Enum)
}

fn is_outermost(kind: BlockKind) -> bool
    ensures { result ≡ is_outermost kind }
{
    is_procedure(kind) || is_group(kind)
}

fn kind_number(kind: BlockKind) -> u8
    ensures { result ≡ kind_number kind }
{
    match kind {
        BlockKind::Type => 0,
        BlockKind::Enum => 1,
        BlockKind::Sub => 2,
        BlockKind::Function => 3,
        BlockKind::Property => 4,
        BlockKind::If => 5,
        BlockKind::Select => 6,
        BlockKind::For => 7,
        BlockKind::Do => 8,
        BlockKind::While => 9,
        BlockKind::With => 10,
    }
}

fn is_same_kind(a: BlockKind, b: BlockKind) -> bool
    ensures { result ≡ is_same_kind a b }
{
    kind_number(a) == kind_number(b)
}

fn fault_at_module(role: Role) -> Option<u8>
    ensures { result ≡ fault_at_module role }
{
    match role {
        Role::Plain => None,
        Role::Opens(kind) => {
            if is_outermost(kind) {
                None
            } else {
                Some(NO_FORM)
            }
        }
        Role::Parts(_) => Some(NO_FORM),
        Role::Closes(kind) => {
            if is_outermost(kind) {
                Some(NOT_OPEN)
            } else {
                Some(NO_FORM)
            }
        }
    }
}

// What a line that parts or closes a block has for a fault where another may be the innermost one.
fn unless_same(kind: BlockKind, inner: BlockKind) -> Option<u8>
    ensures { result ≡ (if is_same_kind kind inner then None else Some 11) }
{
    if is_same_kind(kind, inner) {
        None
    } else {
        Some(NOT_OPEN)
    }
}

fn fault_in_group(group: BlockKind, role: Role) -> Option<u8>
    ensures { result ≡ fault_in_group group role }
{
    match role {
        Role::Plain => None,
        Role::Opens(_) => Some(NO_FORM),
        Role::Parts(_) => Some(NO_FORM),
        Role::Closes(kind) => unless_same(kind, group),
    }
}

fn fault_in_procedure(inner: BlockKind, depth: usize, role: Role) -> Option<u8>
    ensures { result ≡ fault_in_procedure inner depth role }
{
    match role {
        Role::Plain => None,
        Role::Opens(kind) => {
            if is_outermost(kind) {
                Some(NO_FORM)
            } else if depth > BLOCK_LIMIT {
                Some(TOO_DEEP)
            } else {
                None
            }
        }
        Role::Parts(kind) => unless_same(kind, inner),
        Role::Closes(kind) => unless_same(kind, inner),
    }
}

/// The fault of a line of this role where this block is the innermost one of so many that are open.
pub(crate) fn fault_inside(inner: Option<BlockKind>, depth: usize, role: Role) -> Option<u8>
    ensures { result ≡ fault_inside inner depth role }
{
    match inner {
        None => fault_at_module(role),
        Some(kind) => {
            if is_group(kind) {
                fault_in_group(kind, role)
            } else {
                fault_in_procedure(kind, depth, role)
            }
        }
    }
}
