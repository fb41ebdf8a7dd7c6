//! The categories of rules.

ghost use Rattle.std.specs.Prelude.{◌≡◌, ◌≤◌, length, Some, IfSome};
ghost use Rattle.std.specs.Iterator.{YieldsFirst, UpTo, at_most, item_count};
ghost use Rattle.std.specs.Iterator.SizeHint.{IsWithinCount};
ghost use Rattle.plural_base.specs.declared.category.PluralCategory.{PluralCategory as Category};
ghost use Rattle.plural_base.specs.FiveRules.{categories_of, listed};

use crate::category::PluralCategory;
use crate::for_five;
use crate::rules::data::PluralRulesData;
use std::marker::Model;
use std::mem;

/// The categories of [`PluralRules::categories`] that are left.
///
/// [`PluralRules::categories`]: crate::PluralRules::categories
#[derive(Debug, Drop)]
pub struct Categories {
    zero: bool,
    one: bool,
    two: bool,
    few: bool,
    many: bool,
    other: bool,
}

impl Model for Categories {
    ghost use Rattle.std.specs.Prelude.{List};
    ghost use Rattle.plural_base.specs.declared.category.PluralCategory.{PluralCategory};

    ghost Value = { List PluralCategory };

    ghost use Rattle.plural_base.specs.Inner.RulesSteps.{categories_left};

    ghost view = { categories_left };
}

impl Categories {
    ghost use Rattle.plural_base.specs.FiveRules.{rules_of};

    // Those whose rule is present, then other.
    pub(crate) fn of(rules: &PluralRulesData<'_>) -> Categories
        ensures { result ≡ categories_of (rules_of rules.now) }
    {
        Categories {
            zero: rules.zero.is_some(),
            one: rules.one.is_some(),
            two: rules.two.is_some(),
            few: rules.few.is_some(),
            many: rules.many.is_some(),
            other: true,
        }
    }
}

impl Iterator for Categories {
    type Item = PluralCategory;

    ghost next_gives = { YieldsFirst (λ categories. categories) };

    ghost remaining = { item_count (λ categories. categories) };

    fn next(&mut self) -> Option<PluralCategory> {
        if mem::take(&mut self.zero) {
            Some(PluralCategory::Zero)
        } else if mem::take(&mut self.one) {
            Some(PluralCategory::One)
        } else if mem::take(&mut self.two) {
            Some(PluralCategory::Two)
        } else if mem::take(&mut self.few) {
            Some(PluralCategory::Few)
        } else if mem::take(&mut self.many) {
            Some(PluralCategory::Many)
        } else if mem::take(&mut self.other) {
            Some(PluralCategory::Other)
        } else {
            None
        }
    }

    fn size_hint(&self) -> (usize, Option<usize>)
        ensures lower { IsWithinCount result.0 (at_most (length self.now)) }
        ensures upper { IfSome result.1 (UpTo (at_most (length self.now))) }
        // It is exact.
        ensures exact { result ≡ (length self.now, Some (length self.now)) }
    {
        let left = self.len();
        (left, Some(left))
    }
}

impl ExactSizeIterator for Categories {
    fn len(&self) -> usize
        ensures { result ≡ length self.now }
    {
        let mut count = count_of(self.other);
        for_five!(self, |is_there| count += count_of(*is_there));
        count
    }
}

// How many categories a flag adds.
fn count_of(is_there: bool) -> usize
    ensures value { (category : Category) → length (listed category is_there) ≡ result }
    ensures bound { result ≤ 1 }
{
    if is_there { 1 } else { 0 }
}
