//! Which least numbers are sought.

ghost use Rattle.std.specs.Prelude.{◌≡◌, Contains, IsTrue};
ghost use Rattle.plural_base.specs.declared.category.PluralCategory.{PluralCategory as Category};
ghost use Rattle.plural_base.specs.FiveRules.{categories_of};
ghost use Rattle.number_categories.specs.Inner.SoughtNumbers.{is_sought};

use plural_base::{Five, PluralCategory, PluralRules, make_five};

// The two least whole numbers from a start of each of some categories, or the least one alone.
#[derive(Clone, Copy)]
pub(crate) struct Sought {
    // Whether each of the five is one of them.
    pub(crate) categories: Five<bool>,
    pub(crate) other: bool,
    pub(crate) start: u16,
    pub(crate) first_alone: bool,
}

impl Sought {
    // Those of a category.
    pub(crate) fn of(category: PluralCategory, start: u16, first_alone: bool) -> Sought
        ensures sought { IsTrue (is_sought result category) }
        ensures start { result.start ≡ start }
        ensures first_alone { result.first_alone ≡ first_alone }
    {
        Sought {
            categories: make_five!(Five, |of_five| of_five == category),
            other: category == PluralCategory::Other,
            start,
            first_alone,
        }
    }

    // Those of each category that rules have.
    pub(crate) fn of_each(rules: &PluralRules<'_>, start: u16, first_alone: bool) -> Sought
        ensures sought { (c : Category) → Contains (categories_of rules.now) c → IsTrue (is_sought result c) }
        ensures start { result.start ≡ start }
        ensures first_alone { result.first_alone ≡ first_alone }
    {
        Sought {
            categories: make_five!(Five, |category| has_category(rules, category)),
            other: true,
            start,
            first_alone,
        }
    }
}

// Whether rules have a category.
fn has_category(rules: &PluralRules<'_>, category: PluralCategory) -> bool
    ensures { Contains (categories_of rules.now) category → IsTrue result }
{
    let mut left = rules.categories();
    while let Some(own) = left.next() {
        if own == category {
            return true;
        }
    }
    false
}
