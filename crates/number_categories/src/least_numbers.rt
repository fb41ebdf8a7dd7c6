//! The least numbers of each category.

ghost use Rattle.std.specs.Prelude.{◌≡◌, ◌≢◌, IsFalse, IsSome, IsTrue};
ghost use Rattle.plural_base.specs.declared.category.PluralCategory.{PluralCategory};
ghost use Rattle.number_categories.specs.WholeNumbers.{least_at};
ghost use Rattle.number_categories.specs.Inner.SoughtNumbers.{AreEnough, no_numbers, with_number};

use crate::sought::Sought;
use crate::two_numbers::TwoNumbers;
use plural_base::{Five, PluralCategory, at_category, for_five, make_five};

/// The least whole numbers of each category, two or one of each.
#[derive(Clone, Copy, Debug)]
pub struct LeastNumbers {
    five: Five<TwoNumbers>,
    other: TwoNumbers,
}

impl LeastNumbers {
    // No numbers.
    pub(crate) fn none() -> LeastNumbers
        ensures { (c : PluralCategory) → least_at result c ≡ no_numbers }
    {
        LeastNumbers {
            five: make_five!(Five, |_category| TwoNumbers::none()),
            other: TwoNumbers::none(),
        }
    }

    /// Returns the numbers of a category.
    pub fn at(&self, category: PluralCategory) -> TwoNumbers
        ensures { result ≡ least_at self.now category }
    {
        at_category!(self.five, category, |numbers| *numbers, self.other)
    }

    // Adds a number above those of its category, unless there are two. Whether there weren't.
    #[inline]
    pub(crate) fn add(&mut self, category: PluralCategory, number: u16) -> bool
        ensures own { least_at self.new category ≡ with_number (least_at self.old category) number }
        ensures full { IsFalse result → IsSome (least_at self.old category).second }
        ensures others { (c : PluralCategory) → c ≢ category → least_at self.new c ≡ least_at self.old c }
    {
        match category {
            PluralCategory::Zero => self.five.zero.add(number),
            PluralCategory::One => self.five.one.add(number),
            PluralCategory::Two => self.five.two.add(number),
            PluralCategory::Few => self.five.few.add(number),
            PluralCategory::Many => self.five.many.add(number),
            PluralCategory::Other => self.other.add(number),
        }
    }

    // Whether they are all that is sought.
    pub(crate) fn are_enough(&self, sought: Sought) -> bool
        ensures { IsTrue result → AreEnough sought self.now }
    {
        let alone = sought.first_alone;
        for_five!(sought.categories, |is_sought, category| {
            if !self.at(category).are_enough(*is_sought, alone) {
                return false;
            }
        });
        self.other.are_enough(sought.other, alone)
    }
}
