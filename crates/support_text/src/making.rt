//! The machine that follows steps.
ghost use Rattle.std.specs.Prelude.{◌≡◌, Some, IfOk, OnOk, map, ◌∷◌, [], false};
ghost use Rattle.net_tree.specs.View.{exp_of, exps_of, line_of, dim_of};
ghost use Rattle.net_tree.specs.Tree as net;
ghost use Rattle.support_text.specs.MadeView.{made};
ghost use Rattle.support_text.specs.declared.step.Arguments.TheVariants.{One, Two};
ghost use Rattle.support_text.specs.Steps.{none_made, pushed, with_line, with_dim, Stand, on_one, on_two, line_of_one, called, created, call_line, local_of, next, made_by, simple_type};

use crate::parts;
use crate::step::{Arguments, SimpleType, Step};
use net_tree::{CastWord, NetBin, NetDim, NetExpr, NetLine, NetLit, NetUn};
use std::alloc::Global;
use std::collections::VecDeque;
use up_base::Mem;

/// What is made so far: a stack of expressions from its top, and the parts of a function in their order.
#[derive(Drop)]
pub(crate) struct Making {
    exps: VecDeque<NetExpr>,
    pub(crate) prologue: Vec<NetDim>,
    pub(crate) lines: Vec<NetLine>,
}

impl Making {
    #[tactic(auto, unfolding(crate::specs::MadeView::made))]
    fn new(alloc: Global) -> Making
        ensures { made result ≡ none_made }
    {
        Making {
            exps: VecDeque::new(alloc),
            prologue: Vec::new(alloc),
            lines: Vec::new(alloc),
        }
    }

    #[tactic(auto, unfolding(crate::specs::MadeView::made))]
    fn push(&mut self, e: NetExpr) -> Result<(), Mem>
        ensures { OnOk result (made self.new ≡ pushed (exp_of e) (made self.old)) }
    {
        self.exps.push_front(e)?;
        Ok(())
    }

    // The expression on top. The steps of a table never find none.
    #[tactic(auto, unfolding(crate::specs::MadeView::made))]
    fn pop(&mut self) -> Result<NetExpr, Mem>
        ensures { IfOk result (λ e. made self.old ≡ pushed (exp_of e) (made self.new)) }
    {
        match self.exps.pop_front() {
            Some(e) => Ok(e),
            None => Err(Mem),
        }
    }

    #[tactic(auto, unfolding(crate::specs::MadeView::made))]
    fn add_line(&mut self, line: NetLine) -> Result<(), Mem>
        ensures { OnOk result (made self.new ≡ with_line (line_of line) (made self.old)) }
    {
        self.lines.push(line)?;
        Ok(())
    }

    #[tactic(auto, unfolding(crate::specs::MadeView::made))]
    fn add_dim(&mut self, dim: NetDim) -> Result<(), Mem>
        ensures { OnOk result (made self.new ≡ with_dim (dim_of dim) (made self.old)) }
    {
        self.prologue.push(dim)?;
        Ok(())
    }

    fn push_name(&mut self, alloc: Global, name: &[u8]) -> Result<(), Mem>
        ensures { OnOk result (made self.new ≡ pushed (net.path (name.now ∷ [])) (made self.old)) }
    {
        let e = parts::word(alloc, name)?;
        Ok(self.push(e)?)
    }

    fn push_path(&mut self, alloc: Global, names: &[&[u8]]) -> Result<(), Mem>
        ensures { OnOk result (made self.new ≡ pushed (net.path (map (λ n. n.now) names.now)) (made self.old)) }
    {
        let path = parts::path(alloc, names)?;
        Ok(self.push(NetExpr::Path(path))?)
    }

    fn push_text(&mut self, alloc: Global, ascii: &[u8]) -> Result<(), Mem>
        ensures { OnOk result (made self.new ≡ pushed (net.lit (net.str ascii.now)) (made self.old)) }
    {
        let e = parts::text(alloc, ascii)?;
        Ok(self.push(e)?)
    }

    fn push_number(&mut self, number: i32) -> Result<(), Mem>
        ensures { OnOk result (made self.new ≡ pushed (net.lit (net.integer number false)) (made self.old)) }
    {
        Ok(self.push(NetExpr::Lit(NetLit::Integer(number, false)))?)
    }

    fn push_long(&mut self, number: i64) -> Result<(), Mem>
        ensures { OnOk result (made self.new ≡ pushed (net.lit (net.long number)) (made self.old)) }
    {
        Ok(self.push(NetExpr::Lit(NetLit::Long(number)))?)
    }

    fn push_amount(&mut self, amount: i128) -> Result<(), Mem>
        ensures { OnOk result (made self.new ≡ pushed (net.lit (net.decimal amount)) (made self.old)) }
    {
        Ok(self.push(NetExpr::Lit(NetLit::Decimal(amount)))?)
    }

    fn push_nothing(&mut self) -> Result<(), Mem>
        ensures { OnOk result (made self.new ≡ pushed net.nothing (made self.old)) }
    {
        Ok(self.push(NetExpr::Nothing)?)
    }

    fn dot(&mut self, alloc: Global, name: &[u8]) -> Result<(), Mem>
        ensures { OnOk result (on_one (λ a. net.dot a name.now) (made self.old) ≡ Some (made self.new)) }
    {
        let a = self.pop()?;
        let e = parts::member(alloc, a, name)?;
        Ok(self.push(e)?)
    }

    fn cast(&mut self, alloc: Global, word: CastWord) -> Result<(), Mem>
        ensures { OnOk result (on_one (net.cast word) (made self.old) ≡ Some (made self.new)) }
    {
        let a = self.pop()?;
        let e = parts::cast(alloc, word, a)?;
        Ok(self.push(e)?)
    }

    fn unary(&mut self, alloc: Global, operator: NetUn) -> Result<(), Mem>
        ensures { OnOk result (on_one (net.unary operator) (made self.old) ≡ Some (made self.new)) }
    {
        let a = self.pop()?;
        let e = parts::unary(alloc, operator, a)?;
        Ok(self.push(e)?)
    }

    fn type_of(&mut self, alloc: Global, ty: SimpleType) -> Result<(), Mem>
        ensures { OnOk result (on_one (λ a. net.type_of a (simple_type ty)) (made self.old) ≡ Some (made self.new)) }
    {
        let a = self.pop()?;
        let e = parts::type_of(alloc, a, ty)?;
        Ok(self.push(e)?)
    }

    fn binary(&mut self, alloc: Global, operator: NetBin) -> Result<(), Mem>
        ensures { OnOk result (on_two (net.binary operator) (made self.old) ≡ Some (made self.new)) }
    {
        let b = self.pop()?;
        let a = self.pop()?;
        let e = parts::binary(alloc, operator, a, b)?;
        Ok(self.push(e)?)
    }

    // The arguments on top of the stack, in their order.
    fn arguments(&mut self, alloc: Global, count: Arguments) -> Result<Vec<NetExpr>, Mem>
        ensures { IfOk result (λ list. Stand count (made self.old) (exps_of list.items) (made self.new)) }
    {
        match count {
            Arguments::Zero => Ok(Vec::new(alloc)),
            Arguments::One => Ok(self.one_argument(alloc)?),
            Arguments::Two => Ok(self.two_arguments(alloc)?),
        }
    }

    fn one_argument(&mut self, alloc: Global) -> Result<Vec<NetExpr>, Mem>
        ensures { IfOk result (λ list. Stand One (made self.old) (exps_of list.items) (made self.new)) }
    {
        let a = self.pop()?;
        Ok(parts::one(alloc, a)?)
    }

    fn two_arguments(&mut self, alloc: Global) -> Result<Vec<NetExpr>, Mem>
        ensures { IfOk result (λ list. Stand Two (made self.old) (exps_of list.items) (made self.new)) }
    {
        let b = self.pop()?;
        let a = self.pop()?;
        Ok(parts::both(alloc, a, b)?)
    }

    fn call(&mut self, alloc: Global, count: Arguments) -> Result<(), Mem>
        ensures { OnOk result (called count (made self.old) ≡ Some (made self.new)) }
    {
        let arguments = self.arguments(alloc, count)?;
        let callee = self.pop()?;
        let e = parts::call(alloc, callee, arguments)?;
        Ok(self.push(e)?)
    }

    fn create(&mut self, alloc: Global, class: &[&[u8]], count: Arguments) -> Result<(), Mem>
        ensures { OnOk result (created (map (λ n. n.now) class.now) count (made self.old) ≡ Some (made self.new)) }
    {
        let class = parts::path(alloc, class)?;
        let arguments = self.arguments(alloc, count)?;
        Ok(self.push(parts::new_object(class, arguments))?)
    }

    fn assign(&mut self, alloc: Global, target: &[u8]) -> Result<(), Mem>
        ensures { OnOk result (line_of_one (net.assign (net.path (target.now ∷ []))) (made self.old) ≡ Some (made self.new)) }
    {
        let value = self.pop()?;
        let line = parts::assignment(alloc, target, value)?;
        Ok(self.add_line(line)?)
    }

    fn call_line(&mut self, alloc: Global, count: Arguments) -> Result<(), Mem>
        ensures { OnOk result (call_line count (made self.old) ≡ Some (made self.new)) }
    {
        let arguments = self.arguments(alloc, count)?;
        let callee = self.pop()?;
        let line = parts::call_line(alloc, callee, arguments)?;
        Ok(self.add_line(line)?)
    }

    fn if_line(&mut self, alloc: Global) -> Result<(), Mem>
        ensures { OnOk result (line_of_one net.if_head (made self.old) ≡ Some (made self.new)) }
    {
        let condition = self.pop()?;
        let line = parts::if_line(alloc, condition)?;
        Ok(self.add_line(line)?)
    }

    fn else_if_line(&mut self, alloc: Global) -> Result<(), Mem>
        ensures { OnOk result (line_of_one net.else_if (made self.old) ≡ Some (made self.new)) }
    {
        let condition = self.pop()?;
        let line = parts::else_if_line(alloc, condition)?;
        Ok(self.add_line(line)?)
    }

    fn local(&mut self, alloc: Global, name: &[u8], ty: SimpleType) -> Result<(), Mem>
        ensures { OnOk result (local_of name.now ty (made self.old) ≡ Some (made self.new)) }
    {
        let value = self.pop()?;
        let dim = parts::local(alloc, name, ty, value)?;
        Ok(self.add_dim(dim)?)
    }

    fn follow(&mut self, alloc: Global, step: &Step) -> Result<(), Mem>
        ensures { OnOk result (next step.now (made self.old) ≡ Some (made self.new)) }
    {
        match step {
            Step::Name(name) => Ok(self.push_name(alloc, name)?),
            Step::Path(names) => Ok(self.push_path(alloc, names)?),
            Step::Number(number) => Ok(self.push_number(*number)?),
            Step::LongNumber(number) => Ok(self.push_long(*number)?),
            Step::Amount(amount) => Ok(self.push_amount(*amount)?),
            Step::Text(ascii) => Ok(self.push_text(alloc, ascii)?),
            Step::Nothing => Ok(self.push_nothing()?),
            Step::Dot(name) => Ok(self.dot(alloc, name)?),
            Step::Cast(word) => Ok(self.cast(alloc, *word)?),
            Step::Unary(operator) => Ok(self.unary(alloc, *operator)?),
            Step::Binary(operator) => Ok(self.binary(alloc, *operator)?),
            Step::TypeOf(ty) => Ok(self.type_of(alloc, *ty)?),
            Step::Call(count) => Ok(self.call(alloc, *count)?),
            Step::New(class, count) => Ok(self.create(alloc, class, *count)?),
            Step::Assign(target) => Ok(self.assign(alloc, target)?),
            Step::CallLine(count) => Ok(self.call_line(alloc, *count)?),
            Step::If => Ok(self.if_line(alloc)?),
            Step::ElseIf => Ok(self.else_if_line(alloc)?),
            Step::Else => Ok(self.add_line(NetLine::Else)?),
            Step::EndIf => Ok(self.add_line(NetLine::EndIf)?),
            Step::Local(name, ty) => Ok(self.local(alloc, name, *ty)?),
        }
    }
}

/// What steps make.
pub(crate) fn follow_all(alloc: Global, steps: &[Step]) -> Result<Making, Mem>
    ensures { IfOk result (λ making. made_by steps.now ≡ Some (made making)) }
{
    let mut making = Making::new(alloc);
    for step in steps {
        making.follow(alloc, step)?;
    }
    Ok(making)
}
