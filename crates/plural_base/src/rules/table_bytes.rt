//! The tables of prepared rules as bytes.

ghost use Rattle.std.specs.Prelude.{◌≡◌, ◌+◌, ◌<◌, ℕ, length, slice_index, slice_index_or, None};
ghost use Rattle.plural_base.specs.Categories.{place_of};
ghost use Rattle.plural_base.specs.CategoryTables.{EntryTells, table_bound};
ghost use Rattle.plural_base.specs.Inner.RulesSteps.{IsTableByte, entry_number};
ghost use Rattle.plural_base.specs.declared.category.PluralCategory.TheVariants.{Zero};

use crate::category::PluralCategory;

// How many numbers have an entry of their own.
pub(crate) const LOW: u64 = 128;

// The place of the entry of 0, behind the eight bytes of the bound.
pub(crate) const LOW_START: usize = 8;

// The place of the entry of the remainder 0.
pub(crate) const CYCLE_START: usize = 136;

// How many bytes a table has.
pub(crate) const TABLE_LENGTH: usize = 236;

// The entry of a remainder that doesn't tell.
const ASK: u8 = 6;

// The bytes of a bound, of the low categories and of those by remainder.
pub(crate) fn table_bytes(
    bound: u64,
    low: &[PluralCategory; 128],
    cycle: &[Option<PluralCategory>; 100],
) -> [u8; TABLE_LENGTH]
    ensures bound { table_bound result ≡ bound }
    ensures low { (n : ℕ) → n < 128 → slice_index result (8 + n) ≡ place_of (slice_index_or low.now n Zero) }
    ensures cycle { (r : ℕ) → r < 100 → slice_index result (136 + r) ≡ entry_number (slice_index_or cycle.now r None) }
{
    let mut bytes = [ASK; TABLE_LENGTH];
    for place in 0..TABLE_LENGTH {
        bytes[place] = table_byte(bound, low, cycle, place);
    }
    bytes
}

// The byte at a place.
fn table_byte(
    bound: u64,
    low: &[PluralCategory; 128],
    cycle: &[Option<PluralCategory>; 100],
    place: usize,
) -> u8
    requires { place < 236 }
    ensures { IsTableByte bound low.now cycle.now place result }
{
    if place < LOW_START {
        bound.to_le_bytes()[place]
    } else if place < CYCLE_START {
        number_of(low[place - LOW_START])
    } else {
        entry_of(cycle[place - CYCLE_START])
    }
}

// The entry that tells a category, or that the rules are asked.
fn entry_of(told: Option<PluralCategory>) -> u8
    ensures { result ≡ entry_number told }
{
    match told {
        Some(category) => number_of(category),
        None => ASK,
    }
}

// The number of a category.
fn number_of(category: PluralCategory) -> u8
    ensures { result ≡ place_of category }
{
    category as u8
}

// The category that an entry tells, if any.
#[inline(always)]
pub(crate) fn told_by(entry: u8) -> Option<PluralCategory>
    ensures { EntryTells entry result }
{
    match entry {
        0 => Some(PluralCategory::Zero),
        1 => Some(PluralCategory::One),
        2 => Some(PluralCategory::Two),
        3 => Some(PluralCategory::Few),
        4 => Some(PluralCategory::Many),
        5 => Some(PluralCategory::Other),
        _ => None,
    }
}
