//! An expression, and its value.

ghost use Rattle.std.specs.Prelude.{◌≡◌, Option, Some, IfOk, nat_eq};
ghost use Rattle.gettext_plural.specs.PluralExpressions.{joined, negated, chosen};
ghost use Rattle.gettext_plural.specs.PluralValues.{applied, formula_value, if_value, remainder_of, quotient_of, truth};
ghost use Rattle.gettext_plural.specs.PluralViews.{formula_view};
ghost use Rattle.gettext_plural.specs.Inner.FormulaViews.{decided, decided_by};

use crate::token::Operator;
use std::alloc::{AllocError, Global};

// An expression of C over `n`.
#[derive(Drop)]
pub(crate) enum Expression {
    Number(u64),
    N,
    Negated(Box<Expression>),
    Joined(Operator, Box<Expression>, Box<Expression>),
    Chosen(Box<Expression>, Box<Expression>, Box<Expression>),
}

impl Expression {
    // `!operand`
    pub(crate) fn negated(alloc: Global, operand: Expression) -> Result<Expression, AllocError>
        ensures { IfOk result (λ e. formula_view e ≡ negated (formula_view operand)) }
    {
        let operand = Box::new(alloc, operand)?;
        Ok(Expression::Negated(operand))
    }

    // The operator between its operands.
    pub(crate) fn joined(
        alloc: Global,
        operator: Operator,
        left: Expression,
        right: Expression,
    ) -> Result<Expression, AllocError>
        ensures { IfOk result (λ e. formula_view e ≡ joined operator (formula_view left) (formula_view right)) }
    {
        let left = Box::new(alloc, left)?;
        let right = Box::new(alloc, right)?;
        Ok(Expression::Joined(operator, left, right))
    }

    // `condition ? yes : no`
    pub(crate) fn chosen(
        alloc: Global,
        condition: Expression,
        yes: Expression,
        no: Expression,
    ) -> Result<Expression, AllocError>
        ensures { IfOk result (λ e. formula_view e ≡ chosen (formula_view condition) (formula_view yes) (formula_view no)) }
    {
        let condition = Box::new(alloc, condition)?;
        let yes = Box::new(alloc, yes)?;
        let no = Box::new(alloc, no)?;
        Ok(Expression::Chosen(condition, yes, no))
    }

    // Its value at a number; none after a division by 0.
    pub(crate) fn value(&self, n: u64) -> Option<u64>
        ensures { result ≡ formula_value (formula_view self.now) n }
    {
        match self {
            Expression::Number(number) => Some(*number),
            Expression::N => Some(n),
            Expression::Negated(operand) => negation(operand.value(n)),
            Expression::Joined(operator, left, right) => match decided(*operator, left.value(n)) {
                Ok(left) => completed(*operator, left, right.value(n)),
                Err(value) => value,
            },
            Expression::Chosen(condition, yes, no) => match condition.value(n) {
                None => None,
                Some(0) => no.value(n),
                Some(_) => yes.value(n),
            },
        }
    }
}

// 1 for true, 0 for false.
fn truth(is_true: bool) -> u64
    ensures { result ≡ truth is_true }
{
    if is_true { 1 } else { 0 }
}

// The value of a negation of such a value.
fn negation(operand: Option<u64>) -> Option<u64>
    ensures { result ≡ if_value operand (λ x. Some (truth (nat_eq x 0))) }
{
    match operand {
        Some(value) => Some(truth(value == 0)),
        None => None,
    }
}

// The value of the left operand of an operator; else that of both, which it decides.
fn decided(operator: Operator, left: Option<u64>) -> Result<u64, Option<u64>>
    ensures { result ≡ decided operator left }
{
    match left {
        Some(left) => decided_by(operator, left),
        None => Err(None),
    }
}

// The same where the left operand has a value.
fn decided_by(operator: Operator, left: u64) -> Result<u64, Option<u64>>
    ensures { result ≡ decided_by operator left }
{
    match operator {
        Operator::Or => if left == 0 { Ok(left) } else { Err(Some(1)) },
        Operator::And => if left == 0 { Err(Some(0)) } else { Ok(left) },
        Operator::Equal | Operator::Unequal => Ok(left),
        Operator::Below | Operator::Above | Operator::AtMost | Operator::AtLeast => Ok(left),
        Operator::Plus | Operator::Minus => Ok(left),
        Operator::Times | Operator::Over | Operator::Remainder => Ok(left),
    }
}

// The value of an operator whose left operand decides nothing.
fn completed(operator: Operator, left: u64, right: Option<u64>) -> Option<u64>
    ensures { result ≡ if_value right (λ y. applied operator left y) }
{
    match right {
        Some(right) => applied(operator, left, right),
        None => None,
    }
}

// The value of an operator between the values of both operands.
fn applied(operator: Operator, left: u64, right: u64) -> Option<u64>
    ensures { result ≡ applied operator left right }
{
    match operator {
        Operator::Or => Some(truth(left != 0 || right != 0)),
        Operator::And => Some(truth(left != 0 && right != 0)),
        Operator::Equal => Some(truth(left == right)),
        Operator::Unequal => Some(truth(left != right)),
        Operator::Below => Some(truth(left < right)),
        Operator::Above => Some(truth(right < left)),
        Operator::AtMost => Some(truth(left <= right)),
        Operator::AtLeast => Some(truth(right <= left)),
        Operator::Plus => Some(left.wrapping_add(right)),
        Operator::Minus => Some(left.wrapping_sub(right)),
        Operator::Times => Some(left.wrapping_mul(right)),
        Operator::Over => quotient_of(left, right),
        Operator::Remainder => remainder_of(left, right),
    }
}

fn quotient_of(left: u64, right: u64) -> Option<u64>
    ensures { result ≡ quotient_of left right }
{
    if right == 0 { None } else { Some(left / right) }
}

fn remainder_of(left: u64, right: u64) -> Option<u64>
    ensures { result ≡ remainder_of left right }
{
    if right == 0 { None } else { Some(left % right) }
}
