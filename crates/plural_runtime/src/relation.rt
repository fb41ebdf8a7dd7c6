//! One relation of a packed rule: its checked bytes, and what they say.

ghost use Rattle.std.specs.Prelude.{◌≡◌, ◌↔◌, ◌*◌, ◌/◌, ◌<◌, drop, flat_map, IsTrue, length};
ghost use Rattle.plural_runtime.specs.PackedRelations.{range_bytes, range_length, relation_bytes, is_relation, is_whole};
ghost use Rattle.plural_runtime.specs.Inner.RuleReading.{range_in, ranges_in, relation_in};
ghost use Rattle.plural_runtime.specs.RuleKinds.{range_or_value};

use crate::first_byte::AndOrPolarityOperand;
use crate::item::{RANGE_LENGTH, and_or_at, modulo_at, operand_at, polarity_at, ranges_at};
use crate::kinds::{AndOr, Operand, Polarity};
use crate::range::{RangeOrValue, first_range};
use crate::ranges::Ranges;

/// A relation, as the checked bytes of an item of a rule.
#[derive(Clone, Copy, Debug, PartialEq, Eq)]
pub struct RelationULE<'a> {
    bytes: &'a [u8],
    ghost checked: { IsTrue (is_relation bytes.now) },
}

/// A relation, with its ranges borrowed from the bytes of an item. Relations are equal if their
/// mark, polarity, operand, modulus and ranges are.
///
/// <!-- snippet crates/tests_libraries/src/tests/plural_runtime_examples.rt:
/// example "let relation = item" to "holds!(rt; relation.range(0)" of fn a_simple_rule_is_one_relation -->
/// ```
/// let relation = item.as_relation();
/// assert!(rt; relation.and_or() == AndOr::And);
/// assert!(rt; relation.polarity() == Polarity::Positive);
/// assert!(rt; relation.operand() == Operand::I);
/// assert!(rt; relation.modulo() == 0);
/// assert!(rt; relation.len() == 1);
/// assert!(rt; relation.range(0) == Some(RangeOrValue::Value(1)));
/// ```
#[derive(Clone, Copy, Debug)]
pub struct Relation<'a> {
    kind: AndOrPolarityOperand,
    modulo: u32,
    ranges: &'a [u8],
    ghost whole: { IsTrue (is_whole (length ranges.now)) },
}

impl<'a> RelationULE<'a> {
    ghost use Rattle.std.specs.Prelude.{◌≡◌, IsTrue};
    ghost use Rattle.plural_runtime.specs.PackedRelations.{relation_bytes, is_relation};
    ghost use Rattle.plural_runtime.specs.Inner.RuleReading.{relation_in};
    ghost use Rattle.plural_runtime.specs.Inner.RuleViews.{item_relation, lent_relation};

    // The relation of an item that was checked.
    #[inline]
    pub(crate) fn from_checked(bytes: &'a [u8]) -> RelationULE<'a>
        requires { IsTrue (is_relation bytes.now) }
        ensures { item_relation result ≡ relation_in bytes.now }
    {
        RelationULE { bytes }
    }

    /// Returns the bytes of the item: the first byte, the modulus and the ranges.
    #[inline]
    pub fn as_bytes(&self) -> &'a [u8]
        ensures { result.now ≡ relation_bytes (item_relation self.now) }
    {
        spelled(self.bytes)
    }

    /// Returns the relation that the bytes hold.
    #[inline]
    pub fn as_relation(&self) -> Relation<'a>
        ensures { lent_relation result ≡ item_relation self.now }
    {
        let item = self.bytes;
        Relation {
            kind: AndOrPolarityOperand {
                and_or: and_or_at(item),
                polarity: polarity_at(item),
                operand: operand_at(item),
            },
            modulo: modulo_at(item),
            ranges: ranges_at(item),
        }
    }
}

impl<'a> Relation<'a> {
    ghost use Rattle.std.specs.Prelude.{◌≡◌, ◌==◌, length, map, option_map, slice_get};
    ghost use Rattle.plural_runtime.specs.RuleKinds.{operator_of, range_or_value, tree_operand_of};
    ghost use Rattle.plural_runtime.specs.Inner.RuleViews.{lent_relation};

    /// Returns how it is joined to the previous one.
    #[inline]
    pub fn and_or(&self) -> AndOr
        ensures { result ≡ (lent_relation self.now).and_or }
    {
        self.kind.and_or
    }

    /// Returns whether the value has to be in the list.
    #[inline]
    pub fn polarity(&self) -> Polarity
        ensures { operator_of result ≡ (lent_relation self.now).meaning.operator }
    {
        self.kind.polarity
    }

    /// Returns which operand it tests.
    #[inline]
    pub fn operand(&self) -> Operand
        ensures { tree_operand_of result ≡ (lent_relation self.now).meaning.operand }
    {
        self.kind.operand
    }

    /// Returns the modulus, or 0 if there is none.
    #[inline]
    pub fn modulo(&self) -> u32
        ensures { result ≡ (lent_relation self.now).meaning.modulus }
    {
        self.modulo
    }

    /// Returns the number of ranges.
    #[inline]
    pub fn len(&self) -> usize
        ensures { result ≡ length (lent_relation self.now).meaning.ranges }
    {
        self.ranges.len() / RANGE_LENGTH
    }

    /// Returns whether it has no range.
    #[inline]
    pub fn is_empty(&self) -> bool
        ensures { result ≡ (length (lent_relation self.now).meaning.ranges == 0) }
    {
        self.len() == 0
    }

    /// Returns the range at a place. Equal ends are a value.
    #[inline]
    pub fn range(&self, index: usize) -> Option<RangeOrValue>
        ensures { result ≡ option_map range_or_value (slice_get (lent_relation self.now).meaning.ranges index) }
    {
        if index < self.len() {
            Some(range_at(self.ranges, index))
        } else {
            None
        }
    }

    // The ranges, from the first one on.
    #[inline]
    pub(crate) fn ranges(&self) -> Ranges<'a>
        ensures { result ≡ map range_or_value (lent_relation self.now).meaning.ranges }
    {
        Ranges::of(self.ranges)
    }
}

impl<'a> PartialEq for Relation<'a> {
    ghost use Rattle.std.specs.Prelude.{◌≡◌, ◌↔◌, IsTrue};
    ghost use Rattle.std.specs.Cmp.{on_per, partial_equiv_from_equiv};
    ghost use Rattle.std.specs.Cmp.Lexicographic.{nat_list_eq_equiv};
    ghost use Rattle.plural_runtime.specs.PackedRelations.{is_same_relation, relation_numbers};
    ghost use Rattle.plural_runtime.specs.Inner.RuleViews.{lent_relation};

    ghost eq = { λ relation other. is_same_relation (lent_relation relation) (lent_relation other) };

    ghost laws = { on_per (λ relation. relation_numbers (lent_relation relation)) (partial_equiv_from_equiv nat_list_eq_equiv) };

    fn eq(&self, other: &Self) -> bool
        ensures same { result ≡ is_same_relation (lent_relation self.now) (lent_relation other.now) }
        ensures equal { IsTrue result ↔ (lent_relation self.now ≡ lent_relation other.now) }
    {
        if !same_kind(self.kind, other.kind) {
            return false;
        }
        if self.modulo != other.modulo {
            return false;
        }
        same_ranges(self.ranges, other.ranges)
    }
}

impl<'a> Eq for Relation<'a> {
    ghost use Rattle.std.specs.Cmp.{on_equiv};
    ghost use Rattle.std.specs.Cmp.Lexicographic.{nat_list_eq_equiv};
    ghost use Rattle.plural_runtime.specs.PackedRelations.{relation_numbers};
    ghost use Rattle.plural_runtime.specs.Inner.RuleViews.{lent_relation};

    ghost laws = { on_equiv (λ relation. relation_numbers (lent_relation relation)) nat_list_eq_equiv };
}

// Whether mark, polarity and operand are equal.
fn same_kind(kind: AndOrPolarityOperand, other: AndOrPolarityOperand) -> bool
    ensures { IsTrue result ↔ (kind ≡ other) }
{
    kind == other
}

// Whether two lists of ranges are equal: they are if and only if their bytes are.
fn same_ranges(ranges: &[u8], others: &[u8]) -> bool
    requires ranges { IsTrue (is_whole (length ranges.now)) }
    requires others { IsTrue (is_whole (length others.now)) }
    ensures { IsTrue result ↔ (ranges_in ranges.now ≡ ranges_in others.now) }
{
    spelled_ranges(ranges) == spelled_ranges(others)
}

// The bytes of ranges encode the ranges that they hold.
fn spelled_ranges(ranges: &[u8]) -> &[u8]
    requires { IsTrue (is_whole (length ranges.now)) }
    ensures same { result.now ≡ ranges.now }
    ensures spelled { flat_map range_bytes (ranges_in ranges.now) ≡ ranges.now }
{
    ranges
}

// The range at a place.
fn range_at(ranges: &[u8], index: usize) -> RangeOrValue
    requires { index < length ranges.now / range_length }
    ensures { result ≡ range_or_value (range_in (drop (range_length * index) ranges.now)) }
{
    first_range(&ranges[RANGE_LENGTH * index..])
}

// The bytes of an item encode its relation.
fn spelled(item: &[u8]) -> &[u8]
    requires { IsTrue (is_relation item.now) }
    ensures same { result.now ≡ item.now }
    ensures spelled { item.now ≡ relation_bytes (relation_in item.now) }
{
    item
}
