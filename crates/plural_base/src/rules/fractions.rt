//! What rules tell of all numbers that show a fraction.

ghost use Rattle.std.specs.Prelude.{◌≡◌, ◌==◌, ◌&&◌, ◌<◌, ℕ, List, nat_lt, option_map, IfSome};
ghost use Rattle.std.specs.List.{list_all};
ghost use Rattle.plural_operands.specs.Operands.{Operands};
ghost use Rattle.plural_reference.specs.Truth.{holds_value, is_in_ranges, remainder};
ghost use Rattle.plural_operands.specs.Operands.{operand_value};
ghost use Rattle.plural_operands.specs.declared.operand.Operand.TheVariants.{N};
ghost use Rattle.plural_runtime.specs.Inner.RuleViews.{lent_relation};
ghost use Rattle.plural_base.specs.Inner.FractionClasses.{FractionsAre, IsInFractionClass, IsOfFractions, is_value_told};
ghost use Rattle.plural_base.specs.Inner.WholeNumbers.{IsToldIf};

use crate::rules::known::{Known, told_list};
use crate::rules::told::NumberClasses;
use crate::rules::told_masks::{Told, told_false, under_polarity, untold};
use plural_reference::{PluralOperands, RawPluralOperands};
use plural_runtime::{Operand, Relation};

// The numbers that show a fraction, or those of them whose fraction isn't 0.
#[derive(Clone, Copy)]
pub(crate) enum Fractions {
    Shown,
    NotZero,
}

// Which of these show a fraction as the operands do.
#[inline]
pub(crate) fn fractions_of(operands: PluralOperands) -> Option<Fractions>
    ensures of { IfSome result (λ fractions. IsOfFractions fractions operands) }
    ensures exact { FractionsAre operands result }
{
    let raw = RawPluralOperands::from(operands);
    if raw.v == 0 {
        return None;
    }
    if raw.w == 0 {
        return Some(Fractions::Shown);
    }
    Some(Fractions::NotZero)
}

// The numbers that show a fraction, as class 0, and those of them whose fraction isn't 0, as
// class 1.
#[derive(Clone, Copy)]
pub(crate) struct FractionClasses;

// The mask of class 1.
const NOT_ZERO: u128 = 1 << 1;

// The mask of both classes.
pub(crate) const ALL_FRACTIONS: u128 = NOT_ZERO | 1;

impl NumberClasses for FractionClasses {
    ghost use Rattle.plural_base.specs.Inner.FractionClasses.{IsInFractionClass, is_told_of_fraction};

    ghost has = { λ classes class o. IsInFractionClass class o };

    ghost is_told = { λ classes class relation. is_told_of_fraction class relation };

    fn told_relation(self, relation: &Relation<'_>) -> Told {
        under_polarity(told_in(relation), relation.polarity())
    }
}

// Whether the list of a relation holds its operand's value, as far as it can be told.
fn told_in(relation: &Relation<'_>) -> Told
    ensures { (class : ℕ) (o : Operands) → class < 128 → IsInFractionClass class o → let meaning = (lent_relation relation.now).meaning in
        IsToldIf class (is_value_told class meaning.operand meaning)
        (holds_value meaning.ranges (option_map (remainder meaning.modulus) (operand_value meaning.operand o))) result }
{
    match relation.operand() {
        Operand::V => told_places(relation),
        Operand::N => told_whole(),
        Operand::I | Operand::W | Operand::F | Operand::T | Operand::C | Operand::E => untold(),
    }
}

// Whether the list holds the count of fraction digits, which is at least 1, if it can be told.
fn told_places(relation: &Relation<'_>) -> Told
    ensures { (class count : ℕ) → class < 128 → 0 < count → let meaning = (lent_relation relation.now).meaning in
        IsToldIf class ((meaning.modulus == 0) && list_all (λ range. nat_lt range.1 1) meaning.ranges)
        (is_in_ranges meaning.ranges (remainder meaning.modulus count)) result }
{
    if relation.modulo() == 0 {
        told_list(relation, Known::From(1))
    } else {
        untold()
    }
}

// Whether a list holds n, if it can be told: a number whose fraction isn't 0 has no value there.
fn told_whole() -> Told
    ensures { (class : ℕ) (o : Operands) (ranges : List (ℕ × ℕ)) (modulus : ℕ) → IsInFractionClass class o
        → IsToldIf class (class == 1) (holds_value ranges (option_map (remainder modulus) (operand_value N o))) result }
{
    told_false(NOT_ZERO)
}
