//! The expressions of a code line, each with what the line does with it.
ghost use Rattle.std.specs.Prelude.{◌≡◌, ◌++◌, ◌∷◌, [], map, option_map, IfOk, OnOk};
ghost use Rattle.std.specs.List.{flat_map};
ghost use Rattle.vb_tree.specs.Tree as source;
ghost use Rattle.vb_tree.specs.View.{args_of, bounds_of, case_item_of, exp_of, form_of, redim_item_of};
ghost use Rattle.binder.specs.Parts as expected;
ghost use Rattle.binder.specs.Parts.{block_parts, bound_parts, case_parts, optional, parts, redim_parts, lookup_of, statement_parts};
ghost use Rattle.binder.specs.View.{part_of, source_of};

use bound_exprs::{as_callee, as_target, as_value};
use expression_words::Lookup;
use std::alloc::Global;
use up_base::{Mem, Name};
use vb_tree::{Arg6, Bounds6, CaseItem6, Counting6, Expr6, Form6, ReDimItem6, Suffix};

/// What a line does with an expression.
#[derive(Clone, Copy)]
pub enum Task {
    /// It is given a value.
    LetTarget,
    /// An object is put into it.
    SetTarget,
    /// A For counts in it.
    Counter,
    /// An array that is made anew or erased, or what a For Each goes on with.
    Array,
    /// A procedure that is entered.
    Callee,
    /// The value that a target is given.
    LetValue,
    /// The object that is put into a target.
    SetValue,
    /// The start, the limit or the step of a For.
    Limit,
    Condition,
    /// An item of Debug.Print.
    Printed,
    /// A bound of a ReDim.
    Bound,
    /// What a Select Case or one of its Cases compares.
    Choice,
    /// Nothing that asks for a type.
    Whole,
}

/// Where an expression stands in a line.
#[derive(Clone, Copy)]
pub enum Source<'a> {
    Whole(&'a Expr6),
    /// A callee and arguments without parentheses.
    Invoked(&'a Expr6, &'a [Arg6]),
    /// The name in a For Each.
    Word(&'a Name, Suffix),
}

/// An expression of a line.
#[derive(Clone, Copy)]
pub struct Part<'a> {
    pub task: Task,
    pub source: Source<'a>,
}

impl Task {
    /// How the names of such an expression are looked up.
    pub fn lookup(self) -> Lookup
        ensures { result ≡ lookup_of self }
    {
        match self {
            Task::LetTarget => as_target(),
            Task::SetTarget => as_target(),
            Task::Counter => as_target(),
            Task::Array => as_target(),
            Task::Callee => as_callee(),
            _ => as_value(),
        }
    }
}

fn whole(task: Task, e: &Expr6) -> Part<'_>
    ensures { part_of result ≡ expected.part task (exp_of e.now) }
{
    Part {
        task,
        source: Source::Whole(e),
    }
}

fn push<'a>(task: Task, e: &'a Expr6, to: &mut Vec<Part<'a>>) -> Result<(), Mem>
    ensures { OnOk result (map part_of to.new.items ≡ map part_of to.old.items ++ expected.part task (exp_of e.now) ∷ []) }
{
    Ok(to.push(whole(task, e))?)
}

fn push_optional<'a>(task: Task, e: &'a Option<Expr6>, to: &mut Vec<Part<'a>>) -> Result<(), Mem>
    ensures { OnOk result (map part_of to.new.items ≡ map part_of to.old.items ++ optional task (option_map exp_of e.now)) }
{
    match e {
        Some(e) => Ok(push(task, e, to)?),
        None => Ok(()),
    }
}

fn push_two<'a>(
    first: Task,
    x: &'a Expr6,
    second: Task,
    y: &'a Expr6,
    to: &mut Vec<Part<'a>>,
) -> Result<(), Mem>
    ensures { OnOk result (map part_of to.new.items ≡ map part_of to.old.items ++ expected.part first (exp_of x.now) ∷ expected.part second (exp_of y.now) ∷ []) }
{
    push(first, x, to)?;
    push(second, y, to)?;
    Ok(())
}

fn push_item<'a>(item: &'a CaseItem6, to: &mut Vec<Part<'a>>) -> Result<(), Mem>
    ensures { OnOk result (map part_of to.new.items ≡ map part_of to.old.items ++ case_parts (case_item_of item.now)) }
{
    match item {
        CaseItem6::Value(e) => Ok(push(Task::Choice, e, to)?),
        CaseItem6::Range(x, y) => Ok(push_two(Task::Choice, x, Task::Choice, y, to)?),
        CaseItem6::Is(_, e) => Ok(push(Task::Choice, e, to)?),
    }
}

fn push_items<'a>(items: &'a [CaseItem6], to: &mut Vec<Part<'a>>) -> Result<(), Mem>
    ensures { OnOk result (map part_of to.new.items ≡ map part_of to.old.items ++ flat_map case_parts (map case_item_of items.now)) }
{
    for item in items {
        push_item(item, to)?;
    }
    Ok(())
}

fn push_bound<'a>(b: &'a Bounds6, to: &mut Vec<Part<'a>>) -> Result<(), Mem>
    ensures { OnOk result (map part_of to.new.items ≡ map part_of to.old.items ++ bound_parts (bounds_of b.now)) }
{
    push_optional(Task::Bound, &b.lower, to)?;
    push(Task::Bound, &b.upper, to)?;
    Ok(())
}

fn push_bounds<'a>(bounds: &'a [Bounds6], to: &mut Vec<Part<'a>>) -> Result<(), Mem>
    ensures { OnOk result (map part_of to.new.items ≡ map part_of to.old.items ++ flat_map bound_parts (map bounds_of bounds.now)) }
{
    for b in bounds {
        push_bound(b, to)?;
    }
    Ok(())
}

fn push_redim<'a>(item: &'a ReDimItem6, to: &mut Vec<Part<'a>>) -> Result<(), Mem>
    ensures { OnOk result (map part_of to.new.items ≡ map part_of to.old.items ++ redim_parts (redim_item_of item.now)) }
{
    push(Task::Array, &item.array, to)?;
    push_bounds(item.bounds.as_slice(), to)?;
    Ok(())
}

fn push_redims<'a>(items: &'a [ReDimItem6], to: &mut Vec<Part<'a>>) -> Result<(), Mem>
    ensures { OnOk result (map part_of to.new.items ≡ map part_of to.old.items ++ flat_map redim_parts (map redim_item_of items.now)) }
{
    for item in items {
        push_redim(item, to)?;
    }
    Ok(())
}

fn push_printed<'a>(items: &'a [Expr6], to: &mut Vec<Part<'a>>) -> Result<(), Mem>
    ensures { OnOk result (map part_of to.new.items ≡ map part_of to.old.items ++ map (expected.part Task.Printed) (map exp_of items.now)) }
{
    for e in items {
        push(Task::Printed, e, to)?;
    }
    Ok(())
}

fn push_limits<'a>(c: &'a Counting6, to: &mut Vec<Part<'a>>) -> Result<(), Mem>
    ensures { OnOk result (map part_of to.new.items ≡ map part_of to.old.items ++ expected.part Task.Limit (exp_of c.now.start) ∷ expected.part Task.Limit (exp_of c.now.limit) ∷ optional Task.Limit (option_map exp_of c.now.step)) }
{
    push_two(Task::Limit, &c.start, Task::Limit, &c.limit, to)?;
    push_optional(Task::Limit, &c.step, to)?;
    Ok(())
}

fn push_counting<'a>(c: &'a Counting6, to: &mut Vec<Part<'a>>) -> Result<(), Mem>
    ensures { OnOk result (map part_of to.new.items ≡ map part_of to.old.items ++ expected.part Task.Counter (exp_of c.now.counter) ∷ expected.part Task.Limit (exp_of c.now.start) ∷ expected.part Task.Limit (exp_of c.now.limit) ∷ optional Task.Limit (option_map exp_of c.now.step)) }
{
    push(Task::Counter, &c.counter, to)?;
    push_limits(c, to)?;
    Ok(())
}

fn push_word<'a>(name: &'a Name, suffix: Suffix, to: &mut Vec<Part<'a>>) -> Result<(), Mem>
    ensures { OnOk result (map part_of to.new.items ≡ map part_of to.old.items ++ expected.part Task.Array (source.word name.now suffix) ∷ []) }
{
    Ok(to.push(Part {
        task: Task::Array,
        source: Source::Word(name, suffix),
    })?)
}

fn push_each<'a>(
    name: &'a Name,
    suffix: Suffix,
    e: &'a Expr6,
    to: &mut Vec<Part<'a>>,
) -> Result<(), Mem>
    ensures { OnOk result (map part_of to.new.items ≡ map part_of to.old.items ++ expected.part Task.Array (source.word name.now suffix) ∷ expected.part Task.Whole (exp_of e.now) ∷ []) }
{
    push_word(name, suffix, to)?;
    push(Task::Whole, e, to)?;
    Ok(())
}

#[tactic(auto, using(crate::proofs::Invoked::with_arguments))]
fn called<'a>(callee: &'a Expr6, args: &'a [Arg6]) -> Source<'a>
    ensures { source_of result ≡ expected.invoked (exp_of callee.now) (args_of args.now) }
{
    if args.is_empty() {
        Source::Whole(callee)
    } else {
        Source::Invoked(callee, args)
    }
}

fn push_called<'a>(callee: &'a Expr6, args: &'a [Arg6], to: &mut Vec<Part<'a>>) -> Result<(), Mem>
    ensures { OnOk result (map part_of to.new.items ≡ map part_of to.old.items ++ expected.part Task.Callee (expected.invoked (exp_of callee.now) (args_of args.now)) ∷ []) }
{
    Ok(to.push(Part {
        task: Task::Callee,
        source: called(callee, args),
    })?)
}

// Those of a line that opens, parts or closes a block.
fn push_block<'a>(form: &'a Form6, to: &mut Vec<Part<'a>>) -> Result<(), Mem>
    ensures { OnOk result (map part_of to.new.items ≡ map part_of to.old.items ++ block_parts (form_of form.now)) }
{
    match form {
        Form6::If(e) => Ok(push(Task::Condition, e, to)?),
        Form6::ElseIf(e) => Ok(push(Task::Condition, e, to)?),
        Form6::LineIf(e) => Ok(push(Task::Condition, e, to)?),
        Form6::DoWhile(e) => Ok(push(Task::Condition, e, to)?),
        Form6::DoUntil(e) => Ok(push(Task::Condition, e, to)?),
        Form6::LoopWhile(e) => Ok(push(Task::Condition, e, to)?),
        Form6::LoopUntil(e) => Ok(push(Task::Condition, e, to)?),
        Form6::While(e) => Ok(push(Task::Condition, e, to)?),
        Form6::Select(e) => Ok(push(Task::Choice, e, to)?),
        Form6::Case(items) => Ok(push_items(items.as_slice(), to)?),
        Form6::For(c) => Ok(push_counting(c, to)?),
        Form6::ForEach(name, suffix, e) => Ok(push_each(name, *suffix, e, to)?),
        Form6::With(e) => Ok(push(Task::Whole, e, to)?),
        _ => Ok(()),
    }
}

// Those of any other line.
fn push_statement<'a>(form: &'a Form6, to: &mut Vec<Part<'a>>) -> Result<(), Mem>
    ensures { OnOk result (map part_of to.new.items ≡ map part_of to.old.items ++ statement_parts (form_of form.now)) }
{
    match form {
        Form6::Assign(x, y) => Ok(push_two(Task::LetTarget, x, Task::LetValue, y, to)?),
        Form6::Set(x, y) => Ok(push_two(Task::SetTarget, x, Task::SetValue, y, to)?),
        Form6::Call(e) => Ok(push(Task::Callee, e, to)?),
        Form6::Invoke(e, args) => Ok(push_called(e, args.as_slice(), to)?),
        Form6::DebugPrint(items, _) => Ok(push_printed(items.as_slice(), to)?),
        Form6::ReDim(_, items) => Ok(push_redims(items.as_slice(), to)?),
        Form6::Erase(e) => Ok(push(Task::Array, e, to)?),
        _ => Ok(()),
    }
}

/// The expressions of a line in order.
pub fn parts_of(alloc: Global, form: &Form6) -> Result<Vec<Part<'_>>, Mem>
    ensures { IfOk result (λ v. map part_of v.items ≡ parts (form_of form.now)) }
{
    let mut all = Vec::new(alloc);
    push_block(form, &mut all)?;
    push_statement(form, &mut all)?;
    Ok(all)
}
