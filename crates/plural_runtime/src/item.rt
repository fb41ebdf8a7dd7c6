//! Reads the parts of a packed relation in place.

ghost use Rattle.std.specs.Prelude.{◌≡◌, length, IsTrue};
ghost use Rattle.plural_runtime.specs.PackedRelations.{is_relation, is_whole};
ghost use Rattle.plural_runtime.specs.Inner.RuleReading.{relation_in, ranges_in};
ghost use Rattle.plural_runtime.specs.RuleKinds.{operator_of, tree_operand_of};

use crate::first_byte::{and_or_of, operand_numbered, operand_of, polarity_of};
use crate::kinds::{AndOr, Operand, Polarity};

// How many bytes an item has before its ranges: the first byte and the modulus.
pub(crate) const HEAD_LENGTH: usize = 5;

// How many bytes a range has: both its ends.
pub(crate) const RANGE_LENGTH: usize = 8;

// How the relation of an item is joined to the previous one.
#[inline]
#[tactic(auto, unfolding(crate::specs::Inner::RuleReading::relation_in))]
pub(crate) fn and_or_at(item: &[u8]) -> AndOr
    requires { IsTrue (is_relation item.now) }
    ensures { result ≡ (relation_in item.now).and_or }
{
    and_or_of(item[0])
}

// Whether the value has to be in the list of an item.
#[inline]
#[tactic(auto, unfolding(crate::specs::Inner::RuleReading::relation_in))]
pub(crate) fn polarity_at(item: &[u8]) -> Polarity
    requires { IsTrue (is_relation item.now) }
    ensures { operator_of result ≡ (relation_in item.now).meaning.operator }
{
    polarity_of(item[0])
}

// Which operand the relation of an item tests.
#[inline]
#[tactic(auto, unfolding(crate::specs::Inner::RuleReading::relation_in))]
pub(crate) fn operand_at(item: &[u8]) -> Operand
    requires { IsTrue (is_relation item.now) }
    ensures { tree_operand_of result ≡ (relation_in item.now).meaning.operand }
{
    let Some(operand) = operand_of(item[0]) else {
        unreachable!();
    };
    operand
}

// The same by three bits, without a test, for one that goes on with a branch for each operand.
#[inline]
#[tactic(auto, unfolding(crate::specs::Inner::RuleReading::relation_in))]
pub(crate) fn low_operand_at(item: &[u8]) -> Operand
    requires { IsTrue (is_relation item.now) }
    ensures { tree_operand_of result ≡ (relation_in item.now).meaning.operand }
{
    operand_numbered(item[0] % 8)
}

// The modulus of an item, or 0.
#[inline]
#[tactic(auto, unfolding(crate::specs::Inner::RuleReading::relation_in))]
pub(crate) fn modulo_at(item: &[u8]) -> u32
    requires { IsTrue (is_relation item.now) }
    ensures { result ≡ (relation_in item.now).meaning.modulus }
{
    u32::from_le_bytes([item[1], item[2], item[3], item[4]])
}

// The ranges of an item.
#[inline]
#[tactic(auto, unfolding(crate::specs::Inner::RuleReading::relation_in))]
pub(crate) fn ranges_at(item: &[u8]) -> &[u8]
    requires { IsTrue (is_relation item.now) }
    ensures ranges { ranges_in result.now ≡ (relation_in item.now).meaning.ranges }
    ensures whole { IsTrue (is_whole (length result.now)) }
{
    &item[HEAD_LENGTH..]
}
