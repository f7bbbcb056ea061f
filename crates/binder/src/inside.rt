//! Where the lines of a procedure stand.
ghost use Rattle.std.specs.Prelude.{◌≡◌, ◌<◌, slice_get};
ghost use Rattle.expression_words.specs.View.{IsScope, kept_of, scope_of};
ghost use Rattle.binder.specs.Bodies.{or_zero, scope_at};
ghost use Rattle.binder.specs.View.{IsInside, inside_of};

use bound_tree::Declared;
use expression_words::{Context, Kept, Scope, Written};
use name_tables::Site;
use vb_tree::CodeLine;

/// A procedure with the declarations that its lines see.
#[derive(Clone, Copy)]
pub struct Inside<'a> {
    pub declared: &'a Declared,
    pub context: Context<'a>,
    pub written: Written<'a>,
    pub site: Site,
    /// Its code lines.
    pub lines: &'a [&'a CodeLine],
    /// For each of them the first implicit local that is used in later lines alone.
    pub laters: &'a [u32],
}

fn or_zero(n: Option<u32>) -> u32
    ensures { result ≡ or_zero n }
{
    match n {
        Some(n) => n,
        None => 0,
    }
}

/// Where a code line stands, counted from 0.
pub fn scope_at<'a>(inside: Inside<'a>, kept: &'a Kept, n: usize) -> Scope<'a>
    requires { IsInside inside }
    ensures shown { scope_of result ≡ scope_at (inside_of inside.entry) (kept_of kept.now) n }
    ensures names { IsScope result }
    ensures small { result.missing < 32 }
{
    Scope {
        context: inside.context,
        written: inside.written,
        later: or_zero(inside.laters.get(n).copied()),
        site: inside.site,
        kept,
        missing: 3,
    }
}
