//! Elements with a changed value at a key.

ghost use Rattle.std.specs.Prelude.{◌≡◌};
ghost use Rattle.icu_plurals.specs.Elements.{unless_equal};

use super::PluralElements;

impl<T: PartialEq + Drop> PluralElements<T> {
    /// Returns the same elements with this value of zero; without one, if it is `None` or equals
    /// that of other.
    pub fn with_zero_value(self, zero: Option<T>) -> PluralElements<T>
        ensures { result ≡ record self { zero = unless_equal T.eq self.other zero } }
    {
        let mut elements = self;
        elements.zero = unless_equal(zero, &elements.other);
        elements
    }

    /// Returns the same elements with this value of one; without one, if it is `None` or equals
    /// that of other.
    ///
    /// <!-- snippet crates/tests_libraries/src/tests/icu_plurals_examples.rt: example body of fn a_value_that_equals_others_is_not_kept -->
    /// ```
    /// let same = PluralElements::new("abc").with_one_value(Some("abc"));
    /// assert!(rt; same.try_into_other() == Some("abc"));
    /// let another = PluralElements::new("abc").with_one_value(Some("def"));
    /// assert!(rt; another.try_into_other() == None);
    /// let none = PluralElements::new("abc")
    ///     .with_one_value(Some("def"))
    ///     .with_one_value(None);
    /// assert!(rt; none.try_into_other() == Some("abc"));
    /// ```
    pub fn with_one_value(self, one: Option<T>) -> PluralElements<T>
        ensures { result ≡ record self { one = unless_equal T.eq self.other one } }
    {
        let mut elements = self;
        elements.one = unless_equal(one, &elements.other);
        elements
    }

    /// Returns the same elements with this value of two; without one, if it is `None` or equals
    /// that of other.
    pub fn with_two_value(self, two: Option<T>) -> PluralElements<T>
        ensures { result ≡ record self { two = unless_equal T.eq self.other two } }
    {
        let mut elements = self;
        elements.two = unless_equal(two, &elements.other);
        elements
    }

    /// Returns the same elements with this value of few; without one, if it is `None` or equals
    /// that of other.
    pub fn with_few_value(self, few: Option<T>) -> PluralElements<T>
        ensures { result ≡ record self { few = unless_equal T.eq self.other few } }
    {
        let mut elements = self;
        elements.few = unless_equal(few, &elements.other);
        elements
    }

    /// Returns the same elements with this value of many; without one, if it is `None` or equals
    /// that of other.
    pub fn with_many_value(self, many: Option<T>) -> PluralElements<T>
        ensures { result ≡ record self { many = unless_equal T.eq self.other many } }
    {
        let mut elements = self;
        elements.many = unless_equal(many, &elements.other);
        elements
    }

    /// Returns the same elements with this value for exactly 0, even if it equals that of other;
    /// without one, if it is `None`.
    pub fn with_explicit_zero_value(self, explicit_zero: Option<T>) -> PluralElements<T>
        ensures { result ≡ record self { explicit_zero = explicit_zero } }
    {
        let mut elements = self;
        elements.explicit_zero = explicit_zero;
        elements
    }

    /// Returns the same elements with this value for exactly 1, even if it equals that of other;
    /// without one, if it is `None`.
    ///
    /// <!-- snippet crates/tests_libraries/src/tests/icu_plurals_examples.rt: example body of fn an_explicit_value_is_kept -->
    /// ```
    /// let elements = PluralElements::new(1).with_explicit_one_value(Some(1));
    /// assert!(rt; elements.explicit_one() == Some(&1));
    /// assert!(rt; elements.explicit_zero() == None);
    /// assert!(rt; elements.try_into_other() == None);
    /// ```
    pub fn with_explicit_one_value(self, explicit_one: Option<T>) -> PluralElements<T>
        ensures { result ≡ record self { explicit_one = explicit_one } }
    {
        let mut elements = self;
        elements.explicit_one = explicit_one;
        elements
    }
}

// The value, unless it equals that of other.
fn unless_equal<T: PartialEq + Drop>(value: Option<T>, other: &T) -> Option<T>
    ensures { result ≡ unless_equal T.eq other.now value }
{
    match value {
        Some(value) if value == *other => None,
        value => value,
    }
}
