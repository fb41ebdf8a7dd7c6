//! The categories of many integers under one block of rules.

ghost use Rattle.std.specs.Prelude.{◌≡◌, ◌≤◌, ◌++◌, drop, length, map, pos};
ghost use Rattle.icu_plurals.specs.CategoryTables.{integer_entry};
ghost use Rattle.icu_plurals.specs.FiveRules.{first_category};
ghost use Rattle.icu_plurals.specs.Operands.{of_whole};
ghost use Rattle.icu_plurals.specs.PackedTruth.{packed_truth};
ghost use Rattle.plural_exports.specs.NumberAnswers.{AreCategoriesOfIntegers};
ghost use Rattle.plural_exports.specs.Results.{Written, filled_buffer};

use crate::given::rules_in;
use crate::ranges::number_of;
use icu_plurals::{AskedRules, PluralCategory};

/// Writes the categories of integers, a byte each, by their numbers: 0 zero, 1 one, 2 two, 3 few, 4
/// many, 5 other. The result is how many they are; if the buffer is shorter, nothing is written. It
/// allocates nothing.
///
/// A fault is negative, and is one of the rules; then nothing is written.
pub fn categories_of_integers(rules: &[u8], numbers: &[u64], out: &mut [u8]) -> i64
    ensures { Written (AreCategoriesOfIntegers rules.now numbers.now) out.old out.new result }
{
    match rules_in(rules) {
        Ok(rules) => put_categories(AskedRules::of(rules), numbers, out),
        Err(fault) => i64::from(fault.number()),
    }
}

// Rules that the categories of many integers are asked of.
trait ManyAsked {
    ghost use Rattle.icu_plurals.specs.FiveRules.{FiveRules};

    ghost rules: { Self → FiveRules };

    // Prepares the rules for so many integers.
    fn prepare(&mut self, count: u64)
        ensures { rules self.new ≡ rules self.old };

    // The category of an integer.
    fn category_for_integer(&self, number: u64) -> PluralCategory
        ensures { result ≡ first_category (packed_truth (of_whole number)) (rules self.now) };
}

impl<'data> ManyAsked for AskedRules<'data> {
    ghost rules = { λ rules. rules };

    #[inline(always)]
    fn prepare(&mut self, count: u64) {
        self.prepare(count)
    }

    #[inline(always)]
    fn category_for_integer(&self, number: u64) -> PluralCategory {
        self.category_for_integer(number)
    }
}

// Writes the categories at the front of the buffer, if they fit, and returns how many they are.
fn put_categories<R: ManyAsked + Drop>(mut rules: R, numbers: &[u64], out: &mut [u8]) -> i64
    ensures told { result ≡ pos (length numbers.now) }
    ensures written { out.new ≡ filled_buffer (map (integer_entry (R.rules rules)) numbers.now) out.old }
{
    let count = numbers.len();
    let room = out.len();
    if room < count {
        return count as i64;
    }
    rules.prepare(count as u64);
    write_categories(&rules, numbers, out);
    count as i64
}

// Writes the categories at the front of a buffer that has room for them.
fn write_categories<R: ManyAsked>(rules: &R, numbers: &[u64], out: &mut [u8])
    requires { length numbers.now ≤ length out.old }
    ensures { out.new ≡ map (integer_entry (R.rules rules.now)) numbers.now ++ drop (length numbers.now) out.old }
{
    for k in 0..numbers.len() {
        out[k] = number_of(rules.category_for_integer(numbers[k]));
    }
}
