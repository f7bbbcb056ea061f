//! What the heads of procedures say.
ghost use Rattle.std.specs.Prelude.{◌≡◌, option_map};
ghost use Rattle.vb_tree.specs.View.{exp_of, form_of, result_of};
ghost use Rattle.declared_names.specs.Declaring.{head_of, takes_value, has_result};
ghost use Rattle.declared_names.specs.View.{head_shown};

use vb_tree::{Expr6, Form6, ProcKind, Result6, Signature6};

/// What the head of a procedure says.
#[derive(Clone, Copy)]
pub struct HeadRef<'a> {
    pub kind: ProcKind,
    /// Whether the word Static stands in it.
    pub is_static: bool,
    pub signature: &'a Signature6,
    /// The type of its result, where one is written.
    pub ty: Option<&'a Result6>,
}

/// What a line says as the head of a procedure, and none where it isn't one.
pub fn head_of(form: &Form6) -> Option<HeadRef<'_>>
    ensures { option_map head_shown result ≡ head_of (form_of form.now) }
{
    match form {
        Form6::SubHead(signature) => Some(HeadRef {
            kind: ProcKind::Sub,
            is_static: false,
            signature,
            ty: None,
        }),
        Form6::FunctionHead(signature, ty) => Some(HeadRef {
            kind: ProcKind::Function,
            is_static: false,
            signature,
            ty: result_in(ty),
        }),
        Form6::GetHead(signature, ty) => Some(HeadRef {
            kind: ProcKind::Get,
            is_static: false,
            signature,
            ty: result_in(ty),
        }),
        Form6::LetHead(signature) => Some(HeadRef {
            kind: ProcKind::Let,
            is_static: false,
            signature,
            ty: None,
        }),
        Form6::SetHead(signature) => Some(HeadRef {
            kind: ProcKind::Set,
            is_static: false,
            signature,
            ty: None,
        }),
        Form6::StaticHead(kind, signature, ty) => Some(HeadRef {
            kind: *kind,
            is_static: true,
            signature,
            ty: result_in(ty),
        }),
        _ => None,
    }
}

fn result_in(ty: &Option<Box<Result6>>) -> Option<&Result6>
    ensures { option_map (λ r. result_of r.now) result ≡ option_map (λ r. result_of r.value) ty.now }
{
    match ty {
        Some(ty) => Some(&**ty),
        None => None,
    }
}

/// An expression that a line can lack.
pub(crate) fn expr_in(value: &Option<Box<Expr6>>) -> Option<&Expr6>
    ensures { option_map (λ e. exp_of e.now) result ≡ option_map (λ e. exp_of e.value) value.now }
{
    match value {
        Some(value) => Some(&**value),
        None => None,
    }
}

/// Whether the last parameter is the value that a property is given.
pub(crate) fn takes_value(kind: ProcKind) -> bool
    ensures { result ≡ takes_value kind }
{
    matches!(kind, ProcKind::Let | ProcKind::Set)
}

/// Whether such a procedure has a result variable.
pub(crate) fn has_result(kind: ProcKind) -> bool
    ensures { result ≡ has_result kind }
{
    matches!(kind, ProcKind::Function | ProcKind::Get)
}
