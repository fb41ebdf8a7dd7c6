//! The printed texts of a condition's parts.
#![tactic(auto, using(crate::proofs::printing::Writes::one_call, crate::proofs::printing::Writes::then_writes))]

ghost use Rattle.std.specs.Prelude.{◌≡◌, ◌++◌, codes};
ghost use Rattle.plural_reference.specs.Serializer.{operator_text};

use super::part::{Part, serialize_joined, serialize_prefixed};
use crate::ast;
use std::fmt;

impl Part for ast::AndCondition {
    ghost use Rattle.plural_reference.specs.Serializer.{and_condition_text};

    ghost text = { and_condition_text };

    #[inline(always)]
    fn write_to<W: fmt::Write>(&self, w: &mut W) -> fmt::Result {
        serialize_joined(self.0.as_slice(), " and ", w)
    }
}

impl Part for ast::Relation {
    ghost use Rattle.plural_reference.specs.Serializer.{relation_text};

    ghost text = { relation_text };

    #[inline(always)]
    fn write_to<W: fmt::Write>(&self, w: &mut W) -> fmt::Result {
        self.expression.write_to(w)?;
        w.write_str(spaced(self.operator))?;
        self.range_list.write_to(w)
    }
}

impl Part for ast::Expression {
    ghost use Rattle.plural_reference.specs.Serializer.{expression_text};

    ghost text = { expression_text };

    #[inline(always)]
    fn write_to<W: fmt::Write>(&self, w: &mut W) -> fmt::Result {
        self.operand.write_to(w)?;
        serialize_prefixed(" % ", self.modulus.as_ref(), w)
    }
}

impl Part for ast::Operand {
    ghost use Rattle.plural_operands.specs.Operands.{operand_text};

    ghost text = { operand_text };

    #[inline(always)]
    fn write_to<W: fmt::Write>(&self, w: &mut W) -> fmt::Result {
        w.write_str(self.as_str())
    }
}

// The operator, with a space on each side.
#[inline(always)]
fn spaced(operator: ast::Operator) -> &'static str
    ensures { result.now ≡ codes " " ++ operator_text operator ++ codes " " }
{
    match operator {
        ast::Operator::Eq => " = ",
        ast::Operator::NotEq => " != ",
    }
}

impl Part for ast::RangeList {
    ghost use Rattle.plural_reference.specs.Serializer.{range_list_text};

    ghost text = { range_list_text };

    #[inline(always)]
    fn write_to<W: fmt::Write>(&self, w: &mut W) -> fmt::Result {
        serialize_joined(self.0.as_slice(), ", ", w)
    }
}

impl Part for ast::RangeListItem {
    ghost use Rattle.plural_reference.specs.Serializer.{item_text};

    ghost text = { item_text };

    #[inline(always)]
    fn write_to<W: fmt::Write>(&self, w: &mut W) -> fmt::Result {
        match self {
            ast::RangeListItem::Range(start, end) => {
                start.write_to(w)?;
                w.write_str("..")?;
                end.write_to(w)
            }
            ast::RangeListItem::Value(value) => value.write_to(w),
        }
    }
}

impl Part for ast::Value {
    ghost use Rattle.plural_reference.specs.Serializer.{value_text};

    ghost text = { value_text };

    #[inline(always)]
    fn write_to<W: fmt::Write>(&self, w: &mut W) -> fmt::Result {
        let number = self.0;
        write!(w, "{number}")
    }
}
