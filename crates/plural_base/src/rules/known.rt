//! What is known of a value at all numbers of each of 128 classes, and what it tells of ranges.

ghost use Rattle.std.specs.Prelude.{◌≡◌, ◌<◌, ℕ, ◌%◌, Bool, false, true, not, length, slice_index_or};
ghost use Rattle.std.specs.List.{list_any};
ghost use Rattle.plural_reference.specs.Truth.{is_in_ranges, range_holds};
ghost use Rattle.plural_runtime.specs.Inner.RuleViews.{lent_relation};
ghost use Rattle.plural_base.specs.Inner.Masks.{has_bit, IsToldAt};
ghost use Rattle.plural_base.specs.Inner.WholeNumbers.{Fits, IsToldIf, is_list_told, range_or};
ghost use Rattle.plural_base.specs.declared.rules.known.Known.TheVariants as facts;

use crate::rules::masks::{between, repeated};
use crate::rules::range_ends::ends_at;
use crate::rules::told_masks::{Told, either, told_alike, told_exactly, told_false, untold};
use plural_runtime::Relation;

// What is known of a value at all numbers of each class.
#[derive(Clone, Copy)]
pub(crate) enum Known {
    // It is 0.
    IsZero,
    // It is what the place of the class leaves by this modulus; by 0 it is the place.
    RemainderBy(u32),
    // It is this one or a greater one.
    From(u64),
    // It leaves the place of the class by 100.
    Leaves,
    // It may be any.
    Nothing,
}

// Whether the list of a relation holds a value, as far as what is known tells.
pub(crate) fn told_list(relation: &Relation<'_>, known: Known) -> Told
    ensures { (class value : ℕ) → class < 128 → Fits known class value
        → let ranges = (lent_relation relation.now).meaning.ranges in
        IsToldIf class (is_list_told known class ranges) (is_in_ranges ranges value) result }
{
    match known {
        Known::RemainderBy(modulus) => told_exactly(repeated(ranges_mask(relation), modulus)),
        Known::IsZero | Known::From(_) | Known::Leaves | Known::Nothing => {
            told_each(relation, known)
        }
    }
}

// The numbers in the list of a relation.
fn ranges_mask(relation: &Relation<'_>) -> u128
    ensures { (k : ℕ) → k < 128 → has_bit result k ≡ is_in_ranges (lent_relation relation.now).meaning.ranges k }
{
    let mut mask = 0;
    let count = relation.len();
    for place in 0..count {
        mask |= range_mask(relation, place);
    }
    mask
}

// The numbers in the range at a place.
fn range_mask(relation: &Relation<'_>, place: usize) -> u128
    requires { place < length (lent_relation relation.now).meaning.ranges }
    ensures { (k : ℕ) → k < 128 → has_bit result k
        ≡ range_holds k (slice_index_or (lent_relation relation.now).meaning.ranges place (0, 0)) }
{
    let (start, end) = ends_at(relation, place);
    between(start, end)
}

// The same, range by range.
fn told_each(relation: &Relation<'_>, known: Known) -> Told
    ensures { (class value : ℕ) → class < 128 → Fits known class value
        → let ranges = (lent_relation relation.now).meaning.ranges in
        IsToldAt class (list_any (range_or false known class value) ranges) (list_any (range_or true known class value) ranges) result }
{
    let mut told = told_alike(false);
    let count = relation.len();
    for k in 0..count {
        told = either(told, told_at(relation, k, known));
    }
    told
}

// Whether the range at a place holds a value, as far as what is known tells.
fn told_at(relation: &Relation<'_>, place: usize, known: Known) -> Told
    requires { place < length (lent_relation relation.now).meaning.ranges }
    ensures { (class value : ℕ) → class < 128 → Fits known class value
        → let range = slice_index_or (lent_relation relation.now).meaning.ranges place (0, 0) in
        IsToldAt class (range_or false known class value range) (range_or true known class value range) result }
{
    let (start, end) = ends_at(relation, place);
    told_between(start, end, known)
}

// Whether a value is between two ends, as far as what is known tells.
fn told_between(start: u32, end: u32, known: Known) -> Told
    ensures { (class value : ℕ) → class < 128 → Fits known class value
        → IsToldAt class (range_or false known class value (start, end)) (range_or true known class value (start, end)) result }
{
    match known {
        Known::IsZero => told_alike(start == 0),
        Known::RemainderBy(modulus) => told_exactly(repeated(between(start, end), modulus)),
        Known::From(least) => refused_if(u64::from(end) < least),
        Known::Leaves => told_of_residues(start, end),
        Known::Nothing => untold(),
    }
}

// Whether a range holds a value that leaves the place of the class by 100. It isn't told of a range
// of several values, nor of the class of the one value.
fn told_of_residues(start: u32, end: u32) -> Told
    ensures { (class value : ℕ) → class < 128 → value % 100 ≡ class → IsToldAt class
        (range_or false facts.Leaves class value (start, end)) (range_or true facts.Leaves class value (start, end)) result }
{
    if start != end {
        return untold();
    }
    let residue = start % 100;
    told_false(!(1 << residue))
}

// That it is false of each class, if this holds, else nothing.
fn refused_if(is_refused: bool) -> Told
    ensures { (class : ℕ) → class < 128 → IsToldAt class false (not is_refused) result }
{
    if is_refused {
        told_alike(false)
    } else {
        untold()
    }
}
