//! The categories that rules have.

ghost use Rattle.std.specs.Prelude.{◌≡◌, ◌≤◌, sum_by};
ghost use Rattle.icu_plurals.specs.FiveRules.{categories_of, listed, rules_of};
ghost use Rattle.plural_exports.specs.GivenBytes.{ReadsRules};
ghost use Rattle.plural_exports.specs.Inner.GivenResults.{GivesSeen};
ghost use Rattle.plural_exports.specs.Results.{Answered};
ghost use Rattle.plural_exports.specs.RulesCategories.{AreCategoriesOf, bits_number, category_bit};

use crate::fault::Fault;
use icu_plurals::PluralCategory;
use icu_plurals::provider::PluralRulesData;
use plural_base::for_five;

/// Returns the categories that a number may have, one bit each: 1 zero, 2 one, 4 two, 8 few, 16
/// many, 32 other. They are those that have a rule, and other. It allocates nothing.
///
/// A fault is negative, and is one of the rules.
pub fn categories(rules: &[u8]) -> i32
    ensures { Answered (AreCategoriesOf rules.now) bits_number result }
{
    match data_in(rules) {
        Ok(rules) => i32::from(bits_of(&rules)),
        Err(fault) => fault.number(),
    }
}

// The rules of a block, borrowed from it.
fn data_in(bytes: &[u8]) -> Result<PluralRulesData<'_>, Fault>
    ensures { GivesSeen rules_of (ReadsRules bytes.now) result }
{
    Ok(PluralRulesData::from_bytes(bytes)?)
}

// The bits of the categories that have a rule, and of other.
fn bits_of(rules: &PluralRulesData<'_>) -> u8
    ensures { result ≡ sum_by category_bit (categories_of (rules_of rules.now)) }
{
    let mut bits = 0;
    for_five!(rules, |rule, category| {
        bits += bit_of(category, rule.is_some());
    });
    bits + bit_of(PluralCategory::Other, true)
}

// The bit of a category, if it is there.
fn bit_of(category: PluralCategory, is_there: bool) -> u8
    ensures value { result ≡ sum_by category_bit (listed category is_there) }
    ensures bound { result ≤ category_bit category }
{
    if !is_there {
        return 0;
    }
    match category {
        PluralCategory::Zero => 1,
        PluralCategory::One => 2,
        PluralCategory::Two => 4,
        PluralCategory::Few => 8,
        PluralCategory::Many => 16,
        PluralCategory::Other => 32,
    }
}
