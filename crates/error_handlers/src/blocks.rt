//! The heads of the blocks that are open in a walk over code lines: a stack, of which contracts see the innermost first.
ghost use Rattle.std.specs.Prelude.{◌≡◌, OnOk, drop, reverse};
ghost use Rattle.vb_tree.specs.View.{form_of};
ghost use Rattle.bound_tree.specs.Targets.{heads_behind, step_of, is_same_kind};
ghost use Rattle.error_handlers.specs.Walks.{change_by, changed};
ghost use Rattle.error_handlers.specs.Jumps.{is_kept, is_among, is_in_kind, enters};

use up_base::Mem;
use vb_tree::{BlockKind, Form6};

/// The kind of a block and the number of its head among the code lines of its procedure, from 1.
pub(crate) type Head = (BlockKind, usize);

/// What a line does to the open blocks.
#[derive(Clone, Copy, Debug, PartialEq, Eq)]
pub(crate) enum Change {
    Opens(BlockKind),
    Closes,
    Stays,
}

fn change_by(form: &Form6) -> Change
    ensures { result ≡ change_by (step_of (form_of form.now)) }
{
    match form {
        Form6::If(_) => Change::Opens(BlockKind::If),
        Form6::LineIf(_) => Change::Opens(BlockKind::If),
        Form6::EndIf => Change::Closes,
        Form6::Select(_) => Change::Opens(BlockKind::Select),
        Form6::EndSelect => Change::Closes,
        Form6::For(_) => Change::Opens(BlockKind::For),
        Form6::ForEach(_, _, _) => Change::Opens(BlockKind::For),
        Form6::Next(_) => Change::Closes,
        Form6::Do => Change::Opens(BlockKind::Do),
        Form6::DoWhile(_) => Change::Opens(BlockKind::Do),
        Form6::DoUntil(_) => Change::Opens(BlockKind::Do),
        Form6::Loop => Change::Closes,
        Form6::LoopWhile(_) => Change::Closes,
        Form6::LoopUntil(_) => Change::Closes,
        Form6::While(_) => Change::Opens(BlockKind::While),
        Form6::Wend => Change::Closes,
        Form6::With(_) => Change::Opens(BlockKind::With),
        Form6::EndWith => Change::Closes,
        _ => Change::Stays,
    }
}

fn close(heads: &mut Vec<Head>)
    ensures { reverse heads.new.items ≡ drop 1 (reverse heads.old.items) }
{
    heads.pop();
}

fn apply(heads: &mut Vec<Head>, change: Change, n: usize) -> Result<(), Mem>
    ensures { OnOk result (reverse heads.new.items ≡ changed change n (reverse heads.old.items)) }
{
    match change {
        Change::Opens(kind) => Ok(heads.push((kind, n))?),
        Change::Closes => {
            close(heads);
            Ok(())
        }
        Change::Stays => Ok(()),
    }
}

/// Goes past the line with a number.
#[tactic(auto, using(crate::proofs::Laws::changed_is))]
pub(crate) fn pass(heads: &mut Vec<Head>, form: &Form6, n: usize) -> Result<(), Mem>
    ensures { OnOk result (reverse heads.new.items ≡ heads_behind (step_of (form_of form.now)) n (reverse heads.old.items)) }
{
    Ok(apply(heads, change_by(form), n)?)
}

fn is_kept(kind: BlockKind) -> bool
    ensures { result ≡ is_kept kind }
{
    match kind {
        BlockKind::For => true,
        BlockKind::With => true,
        _ => false,
    }
}

fn is_among(heads: &[Head], n: usize) -> bool
    ensures { result ≡ is_among heads.now n }
{
    for h in heads {
        if n == h.1 {
            return true;
        }
    }
    false
}

fn enters_any(from: &[Head], to: &[Head]) -> bool
    ensures { result ≡ enters from.now to.now }
{
    for h in to {
        if is_kept(h.0) && !is_among(from, h.1) {
            return true;
        }
    }
    false
}

/// Whether some second head is that of a For or a With and none of the first.
#[tactic(auto, using(crate::proofs::Laws::enters_turned))]
pub(crate) fn enters(from: &[Head], to: &[Head]) -> bool
    ensures { result ≡ enters (reverse from.now) (reverse to.now) }
{
    enters_any(from, to)
}

fn is_same_kind(a: BlockKind, b: BlockKind) -> bool
    ensures { result ≡ is_same_kind a b }
{
    match (a, b) {
        (BlockKind::If, BlockKind::If) => true,
        (BlockKind::Select, BlockKind::Select) => true,
        (BlockKind::For, BlockKind::For) => true,
        (BlockKind::Do, BlockKind::Do) => true,
        (BlockKind::While, BlockKind::While) => true,
        (BlockKind::With, BlockKind::With) => true,
        _ => false,
    }
}

fn has_kind(kind: BlockKind, heads: &[Head]) -> bool
    ensures { result ≡ is_in_kind kind heads.now }
{
    for h in heads {
        if is_same_kind(kind, h.0) {
            return true;
        }
    }
    false
}

/// Whether a block of a kind is open.
#[tactic(auto, using(crate::proofs::Laws::kind_turned))]
pub(crate) fn is_in_kind(kind: BlockKind, heads: &[Head]) -> bool
    ensures { result ≡ is_in_kind kind (reverse heads.now) }
{
    has_kind(kind, heads)
}
