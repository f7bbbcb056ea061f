//! Where the longest expression ends. It takes brackets alone, and neither precedence nor a tree.
ghost use Rattle.std.specs.Prelude.{◌≡◌, length, reverse, IfOk, option_map};
ghost use Rattle.vb_tree.specs.Expressions.{symbols};
ghost use Rattle.vb_exprs.specs.Reading.{IsLongestEnd};
ghost use Rattle.vb_exprs.specs.Scan.{step_of, operand_step, after_step, word_step, operator_step, prefix_step, next_argument, closed, ends};

use crate::token_class::{Class, class_at};
use std::alloc::Global;
use up_base::Mem;
use vb_tree::{BinOp, Token};

/// What may come next: an operand, the value of a named argument, an argument, what may follow a word that
/// begins an argument, a word behind `.` or `!`, a name, or what may follow an operand.
#[derive(Clone, Copy)]
pub enum Mode {
    Operand,
    Value,
    Argument,
    Named,
    Word,
    Name,
    After,
}

/// What is open: a parenthesis, an argument list, or a TypeOf that waits for its Is.
#[derive(Clone, Copy)]
pub enum Bracket {
    Group,
    Arguments,
    TypeTest,
}

fn prefix(brackets: &Vec<Bracket>) -> Option<Mode>
    ensures { prefix_step (reverse brackets.now.items)
        ≡ option_map (λ m. (m, reverse brackets.now.items)) result }
{
    match brackets.last() {
        Some(Bracket::TypeTest) => None,
        _ => Some(Mode::Operand),
    }
}

fn comma(brackets: &Vec<Bracket>) -> Option<Mode>
    ensures { next_argument (reverse brackets.now.items)
        ≡ option_map (λ m. (m, reverse brackets.now.items)) result }
{
    match brackets.last() {
        Some(Bracket::Arguments) => Some(Mode::Argument),
        _ => None,
    }
}

fn close(brackets: &mut Vec<Bracket>) -> Option<Mode>
    ensures { closed (reverse brackets.old.items)
        ≡ option_map (λ m. (m, reverse brackets.new.items)) result }
{
    match brackets.pop() {
        Some(Bracket::Group) => Some(Mode::After),
        Some(Bracket::Arguments) => Some(Mode::After),
        _ => None,
    }
}

fn step_operator(brackets: &mut Vec<Bracket>, op: BinOp) -> Option<Mode>
    ensures { operator_step (reverse brackets.old.items) op
        ≡ option_map (λ m. (m, reverse brackets.new.items)) result }
{
    match brackets.last() {
        Some(Bracket::TypeTest) => {
            let BinOp::Is = op else {
                return None;
            };
            brackets.pop();
            Some(Mode::Name)
        }
        _ => Some(Mode::Operand),
    }
}

fn step_operand(brackets: &mut Vec<Bracket>, class: Class) -> Result<Option<Mode>, Mem>
    ensures { IfOk result (λ next. operand_step (reverse brackets.old.items) class
        ≡ option_map (λ m. (m, reverse brackets.new.items)) next) }
{
    match class {
        Class::Literal => Ok(Some(Mode::After)),
        Class::Naming => Ok(Some(Mode::After)),
        Class::Constant => Ok(Some(Mode::After)),
        Class::Me => Ok(Some(Mode::After)),
        Class::New => Ok(Some(Mode::Name)),
        Class::AddressOf => Ok(Some(Mode::Name)),
        Class::TypeOf => {
            brackets.push(Bracket::TypeTest)?;
            Ok(Some(Mode::Operand))
        }
        Class::Not => Ok(prefix(brackets)),
        Class::Operator(BinOp::Sub, false) => Ok(prefix(brackets)),
        Class::Access(_) => Ok(Some(Mode::Word)),
        Class::Opening => {
            brackets.push(Bracket::Group)?;
            Ok(Some(Mode::Operand))
        }
        _ => Ok(None),
    }
}

fn step_after(brackets: &mut Vec<Bracket>, class: Class) -> Result<Option<Mode>, Mem>
    ensures { IfOk result (λ next. after_step (reverse brackets.old.items) class
        ≡ option_map (λ m. (m, reverse brackets.new.items)) next) }
{
    match class {
        Class::Operator(op, _) => Ok(step_operator(brackets, op)),
        Class::Access(_) => Ok(Some(Mode::Word)),
        Class::Opening => {
            brackets.push(Bracket::Arguments)?;
            Ok(Some(Mode::Argument))
        }
        Class::Comma => Ok(comma(brackets)),
        Class::Closing => Ok(close(brackets)),
        _ => Ok(None),
    }
}

fn step_word(brackets: &Vec<Bracket>, class: Class) -> Option<Mode>
    ensures { word_step (reverse brackets.now.items) class
        ≡ option_map (λ m. (m, reverse brackets.now.items)) result }
{
    match class {
        Class::Naming => Some(Mode::After),
        Class::Constant => Some(Mode::After),
        Class::Me => Some(Mode::After),
        Class::New => Some(Mode::After),
        Class::TypeOf => Some(Mode::After),
        Class::AddressOf => Some(Mode::After),
        Class::ByVal => Some(Mode::After),
        Class::Not => Some(Mode::After),
        Class::Operator(_, true) => Some(Mode::After),
        Class::Reserved => Some(Mode::After),
        _ => None,
    }
}

fn step_argument(brackets: &mut Vec<Bracket>, class: Class) -> Result<Option<Mode>, Mem>
    ensures { IfOk result (λ next. step_of Mode.Argument (reverse brackets.old.items) class
        ≡ option_map (λ m. (m, reverse brackets.new.items)) next) }
{
    match class {
        Class::Naming => Ok(Some(Mode::Named)),
        Class::ByVal => Ok(Some(Mode::Operand)),
        Class::Hash => Ok(Some(Mode::Operand)),
        Class::Comma => Ok(comma(brackets)),
        Class::Closing => Ok(close(brackets)),
        _ => step_operand(brackets, class),
    }
}

// The scan's mode after a token, unless no expression goes on so.
fn step(mode: Mode, brackets: &mut Vec<Bracket>, class: Class) -> Result<Option<Mode>, Mem>
    ensures { IfOk result (λ next. step_of mode (reverse brackets.old.items) class
        ≡ option_map (λ m. (m, reverse brackets.new.items)) next) }
{
    match mode {
        Mode::Operand => step_operand(brackets, class),
        Mode::After => step_after(brackets, class),
        Mode::Word => Ok(step_word(brackets, class)),
        Mode::Name => match class {
            Class::Naming => Ok(Some(Mode::After)),
            _ => Ok(None),
        },
        Mode::Value => match class {
            Class::ByVal => Ok(Some(Mode::Operand)),
            Class::Hash => Ok(Some(Mode::Operand)),
            _ => step_operand(brackets, class),
        },
        Mode::Argument => step_argument(brackets, class),
        Mode::Named => match class {
            Class::Assign => Ok(Some(Mode::Value)),
            _ => step_after(brackets, class),
        },
    }
}

// Whether what was read is an expression.
fn is_end(mode: Mode, brackets: &Vec<Bracket>) -> bool
    ensures { result ≡ ends mode (reverse brackets.now.items) }
{
    match mode {
        Mode::After => brackets.is_empty(),
        _ => false,
    }
}

/// The end of the longest front of the tokens that is an expression.
pub fn longest_end(alloc: Global, tokens: &[Token]) -> Result<Option<usize>, Mem>
    ensures { IfOk result (λ end. IsLongestEnd (length tokens.now) (symbols tokens.now) end) }
{
    let mut brackets = Vec::new(alloc);
    let mut mode = Mode::Operand;
    let mut end = None;
    for (i, token) in tokens.iter().enumerate() {
        let Some(next) = step(mode, &mut brackets, class_at(token))? else {
            break;
        };
        mode = next;
        if is_end(mode, &brackets) {
            end = Some(i + 1);
        }
    }
    Ok(end)
}
