//! One value per category.

ghost use Rattle.std.specs.Prelude.{◌≡◌};
ghost use Rattle.plural_base.specs.Ranges.{at, each, put_at};

use crate::at_category;
use crate::category::PluralCategory;
use crate::category::raw::RawPluralCategory;
use std::alloc::AllocError;

// A value for each of the six categories.
#[derive(Copy, Debug, PartialEq)]
pub(crate) struct ByCategory<T> {
    pub(crate) other: T,
    pub(crate) zero: T,
    pub(crate) one: T,
    pub(crate) two: T,
    pub(crate) few: T,
    pub(crate) many: T,
}

impl<T: Copy> Clone for ByCategory<T> {
    ghost use Rattle.std.specs.Prelude.{◌≡◌, ⊤};

    ghost is_clone = { λ values clone. clone ≡ values };

    ghost is_infallible = { λ _. ⊤ };

    fn clone(&self) -> Result<ByCategory<T>, AllocError> {
        Ok(*self)
    }
}

impl<T: Copy> ByCategory<T> {
    // One value for all six.
    pub(crate) fn all(thing: T) -> ByCategory<T>
        ensures { result ≡ each (λ category. thing) }
    {
        ByCategory {
            other: thing,
            zero: thing,
            one: thing,
            two: thing,
            few: thing,
            many: thing,
        }
    }

    // The value of a category.
    #[inline]
    pub(crate) fn get(&self, category: RawPluralCategory) -> T
        ensures { result ≡ at self.now category }
    {
        let category = PluralCategory::from(category);
        at_category!(self, category, |thing| *thing, self.other)
    }

    // Sets the value of a category.
    pub(crate) fn set(&mut self, category: RawPluralCategory, thing: T)
        ensures { self.new ≡ put_at self.old category thing }
    {
        match category {
            RawPluralCategory::Other => self.other = thing,
            RawPluralCategory::Zero => self.zero = thing,
            RawPluralCategory::One => self.one = thing,
            RawPluralCategory::Two => self.two = thing,
            RawPluralCategory::Few => self.few = thing,
            RawPluralCategory::Many => self.many = thing,
        }
    }
}
