//! The code lines of procedures. What a line means depends on the blocks round it.
ghost use Rattle.std.specs.Prelude.{◌≡◌, ◌<◌, ◌+◌, ◌++◌, ◌∷◌, [], length, map, IfOk, OnOk};
ghost use Rattle.vb_tree.specs.FlatLines.{flat_lines};
ghost use Rattle.vb_tree.specs.View.{block_in, exp_of, form_of, line_of, middles_of, node_of, nodes_of};
ghost use Rattle.bound_tree.specs.View.{bindings_of, expr_of};
ghost use Rattle.bound_facts.specs.Node as node;
ghost use Rattle.expression_words.specs.View as view;
ghost use Rattle.expression_words.specs.View.{IsScope, scope_of, typed_of};
ghost use Rattle.bound_exprs.specs.Resolved as values;
ghost use Rattle.binder.specs.Bodies.{bound_if, bound_middles, bound_node, bound_nodes, common_type, count, kept_inside, kept_of, with_choice, with_choices, with_line, with_middles, with_type};
ghost use Rattle.binder.specs.View.{IsInside, bound_shown, inside_of, kept_or, part_of, source_of};

use crate::homes::count_code;
use crate::inside::{Inside, scope_at};
use crate::lines::bind_line;
use crate::parts::{Part, Source, Task, parts_of};
use crate::typed_parts::source_value;
use bound_exprs::resolved;
use bound_facts::is_object_type;
use bound_tree::{BoundExpr, BoundLine, BoundNode, Root};
use expression_words::{Kept, Scope, Typed, plain_typed};
use std::alloc::Global;
use typing_rows::CaseType;
use up_base::{Mem, Sequence};
use vb_tree::{Block6, CodeLine, Expr6, Form6, Middle6, Node6};

// ---- what a With keeps

// What an address is a part of.
fn root(e: &BoundExpr) -> Root
    ensures { result ≡ node.root (expr_of e.now) }
{
    match &e.node {
        BoundNode::Var(v, _) => Root::Variable(*v),
        BoundNode::Field(of, _) => {
            if is_object_type(&of.ty) {
                Root::Object
            } else {
                root(of)
            }
        }
        BoundNode::Element(of, _) => root(of),
        BoundNode::Me => Root::Object,
        BoundNode::WithObject(root) => *root,
        _ => Root::Temporary,
    }
}

fn kept_of(t: Typed) -> Kept
    ensures { view.kept_of result ≡ kept_of (typed_of t) }
{
    match t {
        Typed::Known(e) => {
            let of = root(&e);
            Kept::Keeps(e.ty, of)
        }
        Typed::Unknown(flaw) => Kept::Unknown(flaw.cause),
    }
}

fn kept_by(alloc: Global, scope: Scope<'_>, e: &Expr6) -> Result<Kept, Mem>
    requires names { IsScope scope }
    requires rule { scope.missing < 32 }
    ensures { IfOk result (λ k. view.kept_of k ≡ kept_of (values.resolved (scope_of scope.entry) (exp_of e.now))) }
{
    Ok(kept_of(resolved(alloc, scope, e)?))
}

// What the head of a block keeps, which has a number, if it is that of a With.
fn kept_at(
    alloc: Global,
    inside: Inside<'_>,
    kept: &Kept,
    n: usize,
    form: &Form6,
) -> Result<Option<Kept>, Mem>
    requires { IsInside inside }
    ensures { IfOk result (λ own. kept_or own (view.kept_of kept.now) ≡ kept_inside (inside_of inside.entry) (view.kept_of kept.now) n (form_of form.now)) }
{
    match form {
        Form6::With(e) => Ok(Some(kept_by(alloc, scope_at(inside, kept, n), e)?)),
        _ => Ok(None),
    }
}

fn kept_or<'a>(own: &'a Option<Kept>, kept: &'a Kept) -> &'a Kept
    ensures { view.kept_of result.now ≡ kept_or own.now (view.kept_of kept.now) }
{
    match own {
        Some(own) => own,
        None => kept,
    }
}

// ---- the common type of a Select Case

fn with_type(common: CaseType, t: &Typed) -> CaseType
    ensures { result ≡ with_type common (typed_of t.now) }
{
    match t {
        Typed::Known(e) => common.with(&e.ty),
        Typed::Unknown(_) => common,
    }
}

fn with_value(
    alloc: Global,
    scope: Scope<'_>,
    common: CaseType,
    source: Source<'_>,
) -> Result<CaseType, Mem>
    requires names { IsScope scope }
    requires rule { scope.missing < 32 }
    ensures { IfOk result (λ c. c ≡ with_choice (scope_of scope.entry) common Task.Choice (source_of source.entry)) }
{
    let t = source_value(alloc, scope, source)?;
    let t = plain_typed(alloc, scope.context, t)?;
    Ok(with_type(common, &t))
}

fn with_choice(
    alloc: Global,
    scope: Scope<'_>,
    common: CaseType,
    part: &Part<'_>,
) -> Result<CaseType, Mem>
    requires names { IsScope scope }
    requires rule { scope.missing < 32 }
    ensures { IfOk result (λ c. c ≡ with_choice (scope_of scope.entry) common (part_of part.now).task (part_of part.now).exp) }
{
    match part.task {
        Task::Choice => Ok(with_value(alloc, scope, common, part.source)?),
        _ => Ok(common),
    }
}

fn with_choices(
    alloc: Global,
    scope: Scope<'_>,
    common: CaseType,
    parts: &[Part<'_>],
) -> Result<CaseType, Mem>
    requires names { IsScope scope }
    requires rule { scope.missing < 32 }
    ensures { IfOk result (λ c. c ≡ with_choices (scope_of scope.entry) common (map part_of parts.now)) }
{
    let mut found = common;
    for part in parts {
        found = with_choice(alloc, scope, found, part)?;
    }
    Ok(found)
}

// A common type with what a line compares.
fn with_line(
    alloc: Global,
    inside: Inside<'_>,
    kept: &Kept,
    n: usize,
    common: CaseType,
    form: &Form6,
) -> Result<CaseType, Mem>
    requires { IsInside inside }
    ensures { IfOk result (λ c. c ≡ with_line (inside_of inside.entry) (view.kept_of kept.now) n common (form_of form.now)) }
{
    let parts = parts_of(alloc, form)?;
    Ok(with_choices(alloc, scope_at(inside, kept, n), common, &parts)?)
}

fn code_count(line: &CodeLine) -> usize
    ensures { result ≡ count (line_of line.now ∷ []) }
{
    if line.form.is_code() { 1 } else { 0 }
}

// The sum of two numbers of lines. It wants memory past the last number that there is.
fn plus(a: usize, b: usize) -> Result<usize, Mem>
    ensures { IfOk result (λ n. n ≡ a + b) }
{
    match a.checked_add(b) {
        Some(n) => Ok(n),
        None => Err(Mem),
    }
}

// The number of the line behind one that parts a block and what stands behind that.
fn behind_middle(alloc: Global, n: usize, line: &CodeLine, body: &[Node6]) -> Result<usize, Mem>
    ensures { IfOk result (λ m. m ≡ n + count (line_of line.now ∷ []) + count (flat_lines (nodes_of body.now))) }
{
    let at = plus(n, code_count(line))?;
    Ok(plus(at, count_code(alloc, body)?)?)
}

fn with_middles(
    alloc: Global,
    inside: Inside<'_>,
    kept: &Kept,
    n: usize,
    common: CaseType,
    middles: &[Middle6],
) -> Result<CaseType, Mem>
    requires { IsInside inside }
    ensures { IfOk result (λ c. c ≡ with_middles (inside_of inside.entry) (view.kept_of kept.now) n common (middles_of middles.now)) }
{
    let mut found = common;
    let mut at = n;
    for middle in middles {
        found = with_line(alloc, inside, kept, at, found, &middle.line.form)?;
        at = behind_middle(alloc, at, &middle.line, &middle.body)?;
    }
    Ok(found)
}

// The common type of a Select Case whose head has a number.
fn select_type(
    alloc: Global,
    inside: Inside<'_>,
    kept: &Kept,
    n: usize,
    form: &Form6,
    body: &[Node6],
    middles: &[Middle6],
) -> Result<CaseType, Mem>
    requires { IsInside inside }
    ensures { IfOk result (λ c. c ≡ with_middles (inside_of inside.entry) (view.kept_of kept.now) (n + 1 + count (flat_lines (nodes_of body.now))) (with_line (inside_of inside.entry) (view.kept_of kept.now) n CaseType.Open (form_of form.now)) (middles_of middles.now)) }
{
    let common = with_line(alloc, inside, kept, n, CaseType::Open, form)?;
    let behind = plus(plus(n, 1)?, count_code(alloc, body)?)?;
    Ok(with_middles(alloc, inside, kept, behind, common, middles)?)
}

fn common_type(
    alloc: Global,
    inside: Inside<'_>,
    kept: &Kept,
    n: usize,
    form: &Form6,
    body: &[Node6],
    middles: &[Middle6],
) -> Result<CaseType, Mem>
    requires { IsInside inside }
    ensures { IfOk result (λ c. c ≡ common_type (inside_of inside.entry) (view.kept_of kept.now) n (form_of form.now) (nodes_of body.now) (middles_of middles.now)) }
{
    match form {
        Form6::Select(_) => Ok(select_type(alloc, inside, kept, n, form, body, middles)?),
        _ => Ok(CaseType::Open),
    }
}

// ---- lines

// Appends what is bound in a line, where it is a code line. Its number is that of the lines before it.
fn push_line(
    alloc: Global,
    inside: Inside<'_>,
    kept: &Kept,
    cases: CaseType,
    line: &CodeLine,
    to: &mut Sequence<BoundLine>,
) -> Result<(), Mem>
    requires { IsInside inside }
    ensures { OnOk result (map bindings_of to.new ≡ map bindings_of to.old ++ map bound_shown (bound_if (inside_of inside.entry) (view.kept_of kept.now) cases (length to.old) (line_of line.now))) }
{
    if !line.form.is_code() {
        return Ok(());
    }
    let scope = scope_at(inside, kept, to.len());
    let bound = bind_line(alloc, inside, scope, cases, &line.form)?;
    Ok(to.push(bound)?)
}

#[cycle(bodies)]
fn push_nodes(
    alloc: Global,
    inside: Inside<'_>,
    kept: &Kept,
    nodes: &[Node6],
    to: &mut Sequence<BoundLine>,
) -> Result<(), Mem>
    requires { IsInside inside }
    ensures { OnOk result (map bindings_of to.new ≡ map bindings_of to.old ++ map bound_shown (bound_nodes (inside_of inside.entry) (view.kept_of kept.now) (length to.old) (nodes_of nodes.now))) }
{
    for node in nodes {
        push_node(alloc, inside, kept, node, to)?;
    }
    Ok(())
}

#[cycle(bodies)]
fn push_node(
    alloc: Global,
    inside: Inside<'_>,
    kept: &Kept,
    node: &Node6,
    to: &mut Sequence<BoundLine>,
) -> Result<(), Mem>
    requires { IsInside inside }
    ensures { OnOk result (map bindings_of to.new ≡ map bindings_of to.old ++ map bound_shown (bound_node (inside_of inside.entry) (view.kept_of kept.now) (length to.old) (node_of node.now))) }
{
    match node {
        Node6::Line(line) => Ok(push_line(alloc, inside, kept, CaseType::Open, line, to)?),
        Node6::Block(block) => Ok(push_block(alloc, inside, kept, block, to)?),
    }
}

#[cycle(bodies)]
fn push_block(
    alloc: Global,
    inside: Inside<'_>,
    kept: &Kept,
    block: &Block6,
    to: &mut Sequence<BoundLine>,
) -> Result<(), Mem>
    requires { IsInside inside }
    ensures { OnOk result (map bindings_of to.new ≡ map bindings_of to.old ++ map bound_shown (bound_node (inside_of inside.entry) (view.kept_of kept.now) (length to.old) (block_in block.now))) }
{
    let n = to.len();
    let form = &*block.head.form;
    let cases = common_type(alloc, inside, kept, n, form, &block.body, &block.middles)?;
    let own = kept_at(alloc, inside, kept, n, form)?;
    let inner = kept_or(&own, kept);
    push_line(alloc, inside, kept, cases, &block.head, to)?;
    push_nodes(alloc, inside, inner, &block.body, to)?;
    push_middles(alloc, inside, inner, cases, &block.middles, to)?;
    push_line(alloc, inside, kept, CaseType::Open, &block.close, to)?;
    Ok(())
}

#[cycle(bodies)]
fn push_middles(
    alloc: Global,
    inside: Inside<'_>,
    kept: &Kept,
    cases: CaseType,
    middles: &[Middle6],
    to: &mut Sequence<BoundLine>,
) -> Result<(), Mem>
    requires { IsInside inside }
    ensures { OnOk result (map bindings_of to.new ≡ map bindings_of to.old ++ map bound_shown (bound_middles (inside_of inside.entry) (view.kept_of kept.now) cases (length to.old) (middles_of middles.now))) }
{
    for middle in middles {
        push_line(alloc, inside, kept, cases, &middle.line, to)?;
        push_nodes(alloc, inside, kept, &middle.body, to)?;
    }
    Ok(())
}

/// What is bound in each code line of a body.
pub fn bound_body(
    alloc: Global,
    inside: Inside<'_>,
    kept: &Kept,
    body: &[Node6],
) -> Result<Sequence<BoundLine>, Mem>
    requires { IsInside inside }
    ensures { IfOk result (λ s. map bindings_of s ≡ map bound_shown (bound_nodes (inside_of inside.entry) (view.kept_of kept.now) 0 (nodes_of body.now))) }
{
    let mut lines = Sequence::new(alloc);
    push_nodes(alloc, inside, kept, body, &mut lines)?;
    Ok(lines)
}
