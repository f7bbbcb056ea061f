//! What is asked of declarations by their numbers.
ghost use Rattle.std.specs.Prelude.{◌≡◌, map, option_map, slice_get, IfOk};
ghost use Rattle.vb_tree.specs.BoundView.{type_of};
ghost use Rattle.bound_tree.specs.View.{procedure_of, variable_of};
ghost use Rattle.expression_words.specs.Members.{class_of_file, count_classes, default_of, is_a_property, is_property, last_type, or_no_default, params_of, part, place_of, result_in, result_of, store_part, taken_by, type_of_variable, value_part, without_last};
ghost use Rattle.expression_words.specs.View.{IsContext, declared_in};

use crate::Context;
use crate::copies::copy_type;
use bound_tree::{ProcDecl, VarDecl};
use std::alloc::Global;
use up_base::Mem;
use vb_tree::{ProcId, ProcKind, Type6, VarId};

fn is_property(kind: ProcKind) -> bool
    ensures { result ≡ is_property kind }
{
    match kind {
        ProcKind::Sub => false,
        ProcKind::Function => false,
        ProcKind::Get => true,
        ProcKind::Let => true,
        ProcKind::Set => true,
    }
}

impl<'a> Context<'a> {
    pub(crate) fn procedure(self, p: u32) -> Option<&'a ProcDecl>
        ensures { option_map (λ q. procedure_of q.now) result ≡ slice_get (declared_in self.entry).procs p }
    {
        self.declared.procs.get(p as usize)
    }

    pub(crate) fn variable(self, v: VarId) -> Option<&'a VarDecl>
        ensures { option_map (λ x. variable_of x.now) result ≡ slice_get (declared_in self.entry).vars v.0 }
    {
        self.declared.vars.get(v.0 as usize)
    }
}

// The part of a kind of the property with this first part.
fn part(context: Context<'_>, kind: ProcKind, first: ProcId) -> Option<u32>
    requires { IsContext context }
    ensures { result ≡ part (declared_in context.entry) kind first.0 }
{
    context.members.part(kind, first.0)
}

/// The procedure that gives the value of a procedure or of a property.
pub(crate) fn value_part(context: Context<'_>, p: u32) -> Option<u32>
    requires { IsContext context }
    ensures { result ≡ value_part (declared_in context.entry) p }
{
    match context.procedure(p) {
        Some(q) => {
            if is_property(q.kind) {
                part(context, ProcKind::Get, q.first)
            } else {
                Some(p)
            }
        }
        None => None,
    }
}

/// The part of a property that is given a value: its Let or its Set.
pub(crate) fn store_part(context: Context<'_>, kind: ProcKind, p: u32) -> Option<u32>
    requires { IsContext context }
    ensures { result ≡ store_part (declared_in context.entry) kind p }
{
    match context.procedure(p) {
        Some(q) => {
            if is_property(q.kind) {
                part(context, kind, q.first)
            } else {
                None
            }
        }
        None => None,
    }
}

pub(crate) fn is_a_property(context: Context<'_>, p: u32) -> bool
    ensures { result ≡ is_a_property (slice_get (declared_in context.entry).procs p) }
{
    match context.procedure(p) {
        Some(q) => is_property(q.kind),
        None => false,
    }
}

/// The type of what a procedure gives.
pub(crate) fn result_of(alloc: Global, context: Context<'_>, p: Option<u32>) -> Result<Type6, Mem>
    ensures { IfOk result (λ t. type_of t ≡ result_of (declared_in context.entry) p) }
{
    match p {
        Some(p) => Ok(result_at(alloc, context, p)?),
        None => Ok(Type6::Nothing),
    }
}

/// The same of a procedure that there is.
pub(crate) fn result_at(alloc: Global, context: Context<'_>, p: u32) -> Result<Type6, Mem>
    ensures { IfOk result (λ t. type_of t ≡ result_in (slice_get (declared_in context.entry).procs p)) }
{
    match context.procedure(p) {
        Some(q) => Ok(copy_type(alloc, &q.result)?),
        None => Ok(Type6::Unknown),
    }
}

pub(crate) fn params_of<'a>(context: Context<'a>, p: u32) -> &'a [VarId]
    ensures { result.now ≡ params_of (declared_in context.entry) p }
{
    match context.procedure(p) {
        Some(q) => q.params.as_slice(),
        None => &[],
    }
}

pub(crate) fn type_of_variable(alloc: Global, context: Context<'_>, v: VarId) -> Result<Type6, Mem>
    ensures { IfOk result (λ t. type_of t ≡ type_of_variable (declared_in context.entry) v) }
{
    match context.variable(v) {
        Some(x) => Ok(copy_type(alloc, &x.ty)?),
        None => Ok(Type6::Unknown),
    }
}

/// All parameters but the last, which is given the value of a Let or a Set.
pub(crate) fn without_last(params: &[VarId]) -> &[VarId]
    ensures { result.now ≡ without_last params.now }
{
    match params.split_last() {
        Some((_, rest)) => rest,
        None => params,
    }
}

/// The type of the value that a Let or a Set takes.
pub(crate) fn taken_by(alloc: Global, context: Context<'_>, p: u32) -> Result<Type6, Mem>
    ensures { IfOk result (λ t. type_of t ≡ taken_by (declared_in context.entry) p) }
{
    match params_of(context, p).split_last() {
        Some((v, _)) => Ok(type_of_variable(alloc, context, *v)?),
        None => Ok(Type6::Unknown),
    }
}

/// How many classes there are.
pub(crate) fn count_classes(context: Context<'_>) -> usize
    requires { IsContext context }
    ensures { result ≡ count_classes (declared_in context.entry) }
{
    context.members.count_classes()
}

/// The number of the class whose module has this file.
pub(crate) fn class_of_file(context: Context<'_>, file: u32) -> Option<u32>
    requires { IsContext context }
    ensures { result ≡ class_of_file (declared_in context.entry) file }
{
    context.members.class_of_file(file)
}

/// The default member of a class.
pub(crate) fn default_of(context: Context<'_>, class: u32) -> Option<u32>
    ensures { result ≡ default_of (declared_in context.entry) class }
{
    match context.declared.defaults.get(class as usize) {
        Some(Some(p)) => Some(p.0),
        Some(None) => None,
        None => None,
    }
}

/// The place of a variable among those of its class.
pub(crate) fn place_of(context: Context<'_>, class: u32, v: u32) -> Option<u32>
    requires { IsContext context }
    ensures { result ≡ place_of (declared_in context.entry) class v }
{
    match context.members.class_file(class) {
        Some(file) => context.members.place(file, v),
        None => None,
    }
}
