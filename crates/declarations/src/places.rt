//! Where a declaration stands, and what the expressions in it see.
ghost use Rattle.std.specs.Prelude.{◌≡◌, ◌<◌, map, option_map, slice_get};
ghost use Rattle.bound_tree.specs.View.{procedure_of};
ghost use Rattle.expression_words.specs.View.{declared_in, IsScope, scope_of};
ghost use Rattle.declarations.specs.Places.{file_of, inside, is_in_procedure, missing_for, module_of_procedure, module_of_type, scope_for};
ghost use Rattle.declarations.specs.View.{IsKnown};

use crate::module_facts::{ModuleFacts, needs_declaration};
use bound_tree::{ProcDecl, TypeDecl};
use expression_words::{Context, Kept, Scope, Written};
use name_tables::Site;
use vb_tree::{Owner, ProcId};

/// A project's declarations as far as they are known, and what its modules say.
#[derive(Clone, Copy)]
pub struct Known<'a> {
    pub context: Context<'a>,
    pub facts: &'a [ModuleFacts<'a>],
    /// Nothing, since no With stands round a declaration.
    pub kept: &'a Kept,
}

fn module_of_type(ty: Option<&TypeDecl>) -> u32
    ensures { result ≡ module_of_type (option_map (λ t. t.now) ty.entry) }
{
    match ty {
        Some(ty) => ty.module,
        None => 0,
    }
}

fn module_of_procedure(procedure: Option<&ProcDecl>) -> u32
    ensures { result ≡ module_of_procedure (option_map (λ p. procedure_of p.now) procedure.entry) }
{
    match procedure {
        Some(p) => p.module,
        None => 0,
    }
}

fn file_of_procedure(context: Context<'_>, p: ProcId) -> u32
    ensures { result ≡ module_of_procedure (slice_get (declared_in context.entry).procs p.0) }
{
    module_of_procedure(context.declared.procs.get(p.0 as usize))
}

/// The file of the module in which it stands.
pub(crate) fn file_of(context: Context<'_>, owner: Owner) -> u32
    ensures { result ≡ file_of (declared_in context.entry) owner }
{
    match owner {
        Owner::Module(file) => file,
        Owner::Field(t) => module_of_type(context.declared.types.get(t.0 as usize)),
        Owner::Local(p) => file_of_procedure(context, p),
        Owner::Static(p) => file_of_procedure(context, p),
        Owner::Value(p) => file_of_procedure(context, p),
        Owner::Reference(p) => file_of_procedure(context, p),
        Owner::Answer(p) => file_of_procedure(context, p),
    }
}

// The procedure whose locals its expressions see: a head sees those of its module alone.
fn inside(owner: Owner) -> Option<ProcId>
    ensures { result ≡ inside owner }
{
    match owner {
        Owner::Local(p) => Some(p),
        Owner::Static(p) => Some(p),
        _ => None,
    }
}

fn is_in_procedure(owner: Owner) -> bool
    ensures { result ≡ is_in_procedure owner }
{
    match owner {
        Owner::Module(_) => false,
        Owner::Field(_) => false,
        _ => true,
    }
}

// The rule that a word breaks that is declared nowhere.
fn missing_for(known: Known<'_>, owner: Owner) -> u8
    requires { IsKnown known }
    ensures rule { result ≡ missing_for (declared_in known.entry.context) owner }
    ensures small { result < 32 }
{
    let explicit = needs_declaration(known.facts, file_of(known.context, owner));
    if is_in_procedure(owner) && !explicit {
        25
    } else {
        3
    }
}

/// What the expressions in a declaration see.
pub(crate) fn scope_for<'a>(known: Known<'a>, owner: Owner) -> Scope<'a>
    requires { IsKnown known }
    ensures shown { scope_of result ≡ scope_for (declared_in known.entry.context) owner }
    ensures names { IsScope result }
    ensures small { result.missing < 32 }
{
    let context = known.context;
    Scope {
        context,
        written: Written {
            declared: context.declared,
            tables: context.tables,
        },
        later: 4294967295,
        site: Site {
            file: file_of(context, owner),
            procedure: inside(owner),
        },
        kept: known.kept,
        missing: missing_for(known, owner),
    }
}
