//! What is known of the numbers below 128.

ghost use Rattle.std.specs.Prelude.{◌≡◌, ℕ, List, true};
ghost use Rattle.plural_reference.specs.Truth.{remainder};
ghost use Rattle.plural_runtime.specs.RuleKinds.{tree_operand_of};
ghost use Rattle.plural_base.specs.Inner.WholeNumbers.{Fits, is_list_told, whole_value};

use crate::rules::known::{Known, told_list};
use crate::rules::told::NumberClasses;
use crate::rules::told_masks::{Told, under_polarity};
use plural_runtime::{Operand, Relation};

// Each number below 128 by itself, at its own place.
#[derive(Clone, Copy)]
pub(crate) struct LowNumbers;

impl NumberClasses for LowNumbers {
    ghost use Rattle.std.specs.Prelude.{◌≡◌, true};
    ghost use Rattle.plural_operands.specs.Operands.{of_whole};

    ghost has = { λ classes class o. o ≡ of_whole class };

    ghost is_told = { λ classes class relation. true };

    fn told_relation(self, relation: &Relation<'_>) -> Told {
        let known = known_value(relation.operand(), relation.modulo());
        under_polarity(told_list(relation, known), relation.polarity())
    }
}

// What is known of an operand's remainder by a modulus.
#[tactic(auto, using(crate::proofs::integers::Lists::remainder_zero))]
fn known_value(operand: Operand, modulus: u32) -> Known
    ensures fits { (n : ℕ) → Fits result n (remainder modulus (whole_value (tree_operand_of operand) n)) }
    ensures told { (n : ℕ) (ranges : List (ℕ × ℕ)) → is_list_told result n ranges ≡ true }
{
    match operand {
        Operand::N | Operand::I => Known::RemainderBy(modulus),
        Operand::V | Operand::W | Operand::F | Operand::T | Operand::C | Operand::E =>
            Known::IsZero,
    }
}
