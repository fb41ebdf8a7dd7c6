//! A value for each plural category, and for exactly 0 and 1.

ghost use Rattle.std.specs.Prelude.{◌≡◌, IfSome, option_map, unwrap_or};
ghost use Rattle.icu_plurals.specs.Elements.{only_other, each_by, of_category, explicit_at, element_at, has_value_of};

mod for_each;
mod for_each_mut;
mod map;
pub(crate) mod places;
mod try_clone;
mod with_values;

use crate::elements::places::only_other;
use plural_base::{PluralCategory, PluralRules, at_category};
use plural_reference::PluralOperands;
use std::marker::Model;

/// A value for each plural category, and for exactly 0 and exactly 1 (UTS 35 Part 3, Plural Rules
/// and Explicit 0 and 1 Rules). The value of other is always present.
///
/// [`get`] chooses among them by the operands of a number: in English
///
/// <!-- snippet crates/example_calls/src/elements.rt: body of fn print_elements -->
/// ```
/// let texts = PluralElements::new("files")
///     .with_one_value(Some("file"))
///     .with_explicit_zero_value(Some("no files"));
/// for number in [0u8, 1, 2] {
///     let text = texts.get(PluralOperands::from(number), rules);
///     println!(rt; "{number}: {text}")?;
/// }
/// ```
///
/// prints
///
/// <!-- snippet crates/example_calls/stdout: section elements -->
/// ```text
/// 0: no files
/// 1: file
/// 2: files
/// ```
///
/// [`get`]: PluralElements::get
#[derive(Debug, PartialEq, Eq)]
pub struct PluralElements<T> {
    pub(crate) other: T,
    pub(crate) zero: Option<T>,
    pub(crate) one: Option<T>,
    pub(crate) two: Option<T>,
    pub(crate) few: Option<T>,
    pub(crate) many: Option<T>,
    pub(crate) explicit_zero: Option<T>,
    pub(crate) explicit_one: Option<T>,
}

// Written out, so that each end of a value is one call.
impl<T: Drop> Drop for PluralElements<T> {
    fn drop(self) {
        let PluralElements {
            other: _,
            zero: _,
            one: _,
            two: _,
            few: _,
            many: _,
            explicit_zero: _,
            explicit_one: _,
        } = self;
    }
}

impl<T> Model for PluralElements<T> {
    ghost use Rattle.icu_plurals.specs.Elements.{Elements};

    ghost Value = { Elements T };

    ghost view = { λ e. record {
      other = e.other;
      zero = e.zero;
      one = e.one;
      two = e.two;
      few = e.few;
      many = e.many;
      explicit_zero = e.explicit_zero;
      explicit_one = e.explicit_one;
    } };

    ghost inverse = { λ e. record {
      other = e.other;
      zero = e.zero;
      one = e.one;
      two = e.two;
      few = e.few;
      many = e.many;
      explicit_zero = e.explicit_zero;
      explicit_one = e.explicit_one;
    } };
}

impl<T> PluralElements<T> {
    /// Returns elements with the value of other alone.
    pub fn new(other: T) -> PluralElements<T>
        ensures { result ≡ only_other other }
    {
        only_other!(other)
    }

    /// Returns the value of [`PluralCategory::Zero`], or that of other.
    pub fn zero(&self) -> &T
        ensures { result.now ≡ unwrap_or self.now.zero self.now.other }
    {
        self.zero.as_ref().unwrap_or(&self.other)
    }

    /// Returns the value of [`PluralCategory::One`], or that of other.
    pub fn one(&self) -> &T
        ensures { result.now ≡ unwrap_or self.now.one self.now.other }
    {
        self.one.as_ref().unwrap_or(&self.other)
    }

    /// Returns the value of [`PluralCategory::Two`], or that of other.
    pub fn two(&self) -> &T
        ensures { result.now ≡ unwrap_or self.now.two self.now.other }
    {
        self.two.as_ref().unwrap_or(&self.other)
    }

    /// Returns the value of [`PluralCategory::Few`], or that of other.
    pub fn few(&self) -> &T
        ensures { result.now ≡ unwrap_or self.now.few self.now.other }
    {
        self.few.as_ref().unwrap_or(&self.other)
    }

    /// Returns the value of [`PluralCategory::Many`], or that of other.
    pub fn many(&self) -> &T
        ensures { result.now ≡ unwrap_or self.now.many self.now.other }
    {
        self.many.as_ref().unwrap_or(&self.other)
    }

    /// Returns the value of [`PluralCategory::Other`].
    pub fn other(&self) -> &T
        ensures { result.now ≡ self.now.other }
    {
        &self.other
    }

    /// Returns whether the value of a category is present; that of other always is.
    pub fn has_value_of(&self, category: PluralCategory) -> bool
        ensures { result ≡ has_value_of self.now category }
    {
        at_category!(self, category, |value| value.is_some(), true)
    }

    /// Returns the value of other, if no other value is present.
    ///
    /// <!-- snippet crates/tests_libraries/src/tests/icu_plurals_examples.rt: example "let same" to "holds!(rt; another" -->
    /// ```
    /// let same = PluralElements::new("abc").with_one_value(Some("abc"));
    /// assert!(rt; same.try_into_other() == Some("abc"));
    /// let another = PluralElements::new("abc").with_one_value(Some("def"));
    /// assert!(rt; another.try_into_other() == None);
    /// ```
    pub fn try_into_other(self) -> Option<T>
    where
        T: Drop,
        ensures some { IfSome result (λ x. self ≡ only_other x) }
        ensures only { (x : T) → self ≡ only_other x → result ≡ Some x }
    {
        match self {
            only_other!(other) => Some(other),
            _ => None,
        }
    }

    /// Returns the value for exactly 0, if present.
    pub fn explicit_zero(&self) -> Option<&T>
        ensures { option_map (λ x. x.now) result ≡ self.now.explicit_zero }
    {
        self.explicit_zero.as_ref()
    }

    /// Returns the value for exactly 1, if present.
    pub fn explicit_one(&self) -> Option<&T>
        ensures { option_map (λ x. x.now) result ≡ self.now.explicit_one }
    {
        self.explicit_one.as_ref()
    }

    /// Returns the same values, borrowed.
    pub fn as_ref(&self) -> PluralElements<&T>
        ensures { each_by (λ x. x.now) result ≡ self.now }
    {
        PluralElements {
            other: &self.other,
            zero: self.zero.as_ref(),
            one: self.one.as_ref(),
            two: self.two.as_ref(),
            few: self.few.as_ref(),
            many: self.many.as_ref(),
            explicit_zero: self.explicit_zero.as_ref(),
            explicit_one: self.explicit_one.as_ref(),
        }
    }

    /// Returns the value for a number: the explicit one if the operands are exactly 0 or 1 and it
    /// is present, else that of the category that the rules choose, else that of other. It
    /// allocates nothing.
    ///
    /// With the rule `i = 1` for one:
    ///
    /// <!-- snippet crates/tests_libraries/src/tests/icu_plurals_examples.rt:
    ///      example "let elements = PluralElements::new" to "}" of fn explicit_values_come_before_the_category -->
    /// ```
    /// let elements = PluralElements::new("x")
    ///     .with_one_value(Some("y"))
    ///     .with_explicit_zero_value(Some("z"));
    /// for (text, want) in [
    ///     ("0", "z"),
    ///     ("1", "y"),
    ///     ("1.0", "y"),
    ///     ("2", "x"),
    ///     ("0.0", "x"),
    ///     ("0e1", "x"),
    /// ] {
    ///     assert!(rt; elements.get(text.parse()?, &rules) == &want);
    /// }
    /// ```
    pub fn get<'a>(&'a self, op: PluralOperands, rules: &PluralRules<'_>) -> &'a T
        ensures { result.now ≡ element_at self.now op rules.now }
    {
        match self.explicit_at(op) {
            Some(value) => value,
            None => self.of_category(rules.category_for(op)),
        }
    }

    // The explicit value for exactly 0 or 1, if present.
    fn explicit_at(&self, op: PluralOperands) -> Option<&T>
        ensures { option_map (λ x. x.now) result ≡ explicit_at self.now op }
    {
        if op.is_exactly_zero() {
            self.explicit_zero()
        } else if op.is_exactly_one() {
            self.explicit_one()
        } else {
            None
        }
    }

    // The value of a category, or that of other.
    fn of_category(&self, category: PluralCategory) -> &T
        ensures { result.now ≡ of_category self.now category }
    {
        let other = &self.other;
        at_category!(
            self,
            category,
            |value| value.as_ref().unwrap_or(other),
            other
        )
    }
}
