//! What waits for an operand.

ghost use Rattle.std.specs.Prelude.{◌≡◌, option_map, IfOk};
ghost use Rattle.gettext_plural.specs.PluralViews.{formula_view};
ghost use Rattle.gettext_plural.specs.Inner.FormulaViews.{pending_view};
ghost use Rattle.gettext_plural.specs.Inner.PluralMachine.{closes, condition_in, filled, is_bracket};

use crate::expression::Expression;
use crate::token::Operator;
use std::alloc::{AllocError, Global};

// A bracket, or an operator with the operands before it.
#[derive(Drop)]
pub(crate) enum Pending {
    Bracket,
    Negation,
    Left(Operator, Expression),
    Question(Expression),
    Colon(Expression, Expression),
}

impl Pending {
    // Whether it ends before an operator that binds so much: at 0, before `:`, `)` or the end.
    pub(crate) fn closes(&self, binding: u8) -> bool
        ensures { result ≡ closes binding (pending_view self.now) }
    {
        match self {
            Pending::Bracket => false,
            Pending::Negation => true,
            Pending::Left(operator, _) => binding <= operator.binding(),
            Pending::Question(_) => false,
            Pending::Colon(_, _) => binding == 0,
        }
    }

    // The expression with its last operand. A bracket and a `?` leave that as it is.
    pub(crate) fn filled(self, alloc: Global, operand: Expression) -> Result<Expression, AllocError>
        ensures { IfOk result (λ e. formula_view e ≡ filled (pending_view self) (formula_view operand)) }
    {
        match self {
            Pending::Bracket => Ok(operand),
            Pending::Question(_) => Ok(operand),
            Pending::Negation => Expression::negated(alloc, operand),
            Pending::Left(operator, left) => Expression::joined(alloc, operator, left, operand),
            Pending::Colon(condition, yes) => Expression::chosen(alloc, condition, yes, operand),
        }
    }

    // Whether it is a bracket.
    pub(crate) fn is_bracket(&self) -> bool
        ensures { result ≡ is_bracket (pending_view self.now) }
    {
        match self {
            Pending::Bracket => true,
            Pending::Negation => false,
            Pending::Left(_, _) => false,
            Pending::Question(_) => false,
            Pending::Colon(_, _) => false,
        }
    }

    // The condition of a `?`.
    pub(crate) fn condition(self) -> Option<Expression>
        ensures { option_map formula_view result ≡ condition_in (pending_view self) }
    {
        match self {
            Pending::Bracket => None,
            Pending::Negation => None,
            Pending::Left(_, _) => None,
            Pending::Question(condition) => Some(condition),
            Pending::Colon(_, _) => None,
        }
    }
}
