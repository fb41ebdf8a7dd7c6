//! The numbers that are known of a language's rules of one type.

ghost use Rattle.std.specs.Prelude.{◌≡◌, ◌↔◌, IsTrue};
ghost use Rattle.icu_plurals.specs.FiveRules.{rules_of};
ghost use Rattle.number_categories.specs.WholeNumbers.{least_at};
ghost use Rattle.message_report.specs.FormFaults.{HasNumbersOf};
ghost use Rattle.message_report.specs.Inner.LanguageViews.{numbers_at, numbers_view};

use crate::category_numbers::CategoryNumbers;
use icu_plurals::provider::PluralRulesData;
use icu_plurals::{Five, PluralCategory, PluralOperands, PluralRules};
use number_categories::{LeastNumbers, TwoNumbers, two_least_of_each};
use plural_base::{at_category, make_five};
use plural_checker::CategorySet;

// The categories that a language has, and what is known of the numbers of each.
#[derive(Clone, Copy)]
pub(crate) struct LanguageNumbers {
    categories: CategorySet,
    numbers: Five<CategoryNumbers>,
    other: CategoryNumbers,
}

impl LanguageNumbers {
    // What is known of a language.
    pub(crate) fn of(given: &PluralRulesData<'_>) -> LanguageNumbers
        ensures { HasNumbersOf (rules_of given.now) (numbers_view result) }
    {
        let rules = PluralRules::from_data(given.as_borrowed());
        let categories = CategorySet::of_rules(given);
        let of_zero = rules.category_for(PluralOperands::from(0u16));
        let of_one = rules.category_for(PluralOperands::from(1u16));
        let least = two_least_of_each(&rules, 2);
        drop(rules);
        LanguageNumbers {
            categories,
            numbers: make_five!(
                Five,
                |category| numbers_of(of_zero, of_one, &least, category)
            ),
            other: numbers_of(of_zero, of_one, &least, PluralCategory::Other),
        }
    }

    // Whether the language has a category.
    pub(crate) fn has(&self, category: PluralCategory) -> bool
        ensures { result ≡ (numbers_view self.now).has category }
    {
        at_category!(self.categories, category, |is_there| *is_there, true)
    }

    // The two least numbers that choose a category's form.
    pub(crate) fn numbers(
        &self,
        category: PluralCategory,
        own_zero: bool,
        own_one: bool,
    ) -> TwoNumbers
        ensures { result ≡ (numbers_view self.now).numbers category own_zero own_one }
    {
        self.numbers_at(category).chosen(own_zero, own_one)
    }

    // What is known of a category's numbers.
    fn numbers_at(&self, category: PluralCategory) -> CategoryNumbers
        ensures { result ≡ numbers_at self.now category }
    {
        at_category!(self.numbers, category, |numbers| *numbers, self.other)
    }
}

// What is known of a category's numbers, given the categories of 0 and of 1.
fn numbers_of(
    of_zero: PluralCategory,
    of_one: PluralCategory,
    least: &LeastNumbers,
    category: PluralCategory,
) -> CategoryNumbers
    ensures zero { IsTrue result.zero ↔ of_zero ≡ category }
    ensures one { IsTrue result.one ↔ of_one ≡ category }
    ensures from_two { result.from_two ≡ least_at least.now category }
{
    CategoryNumbers {
        zero: of_zero == category,
        one: of_one == category,
        from_two: least.at(category),
    }
}
