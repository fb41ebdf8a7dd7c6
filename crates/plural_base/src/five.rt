//! A value for each plural category but other.

ghost use Rattle.std.specs.Prelude.{◌≡◌, None};
ghost use Rattle.plural_base.specs.FiveRules.{five};

/// A value for each plural category but other, which all remaining numbers have. So the texts of a
/// language's rules have names:
///
/// <!-- snippet crates/tests_libraries/src/tests/plural_base_rules.rt:
///      example body of fn five_texts_are_named -->
/// ```
/// let texts = Five {
///     one: Some("i = 1 and v = 0"),
///     ..Five::none()
/// };
/// let rules = PluralRulesData::from_five(alloc, &texts)?;
/// assert!(rt; rules.one.is_some());
/// assert!(rt; rules.many.is_none());
/// ```
#[derive(Clone, Copy, Debug, PartialEq, Eq)]
pub struct Five<T> {
    /// The value of `zero`.
    pub zero: T,
    /// The value of `one`.
    pub one: T,
    /// The value of `two`.
    pub two: T,
    /// The value of `few`.
    pub few: T,
    /// The value of `many`.
    pub many: T,
}

/// Makes a struct with the fields `zero` to `many`: each is what the expression gives for its
/// category or, where a struct with such fields is named, for a reference to its field there, and
/// its category if that is named too. They are made in this order.
#[macro_export]
macro_rules! make_five {
    ($Made:ident, |$category:ident| $value:expr) => {
        $Made {
            zero: {
                let $category = $crate::PluralCategory::Zero;
                $value
            },
            one: {
                let $category = $crate::PluralCategory::One;
                $value
            },
            two: {
                let $category = $crate::PluralCategory::Two;
                $value
            },
            few: {
                let $category = $crate::PluralCategory::Few;
                $value
            },
            many: {
                let $category = $crate::PluralCategory::Many;
                $value
            },
        }
    };
    ($Made:ident, $from:expr, |$field:ident $(, $category:ident)?| $value:expr) => {
        $Made {
            zero: {
                let $field = &$from.zero;
                $(let $category = $crate::PluralCategory::Zero;)?
                $value
            },
            one: {
                let $field = &$from.one;
                $(let $category = $crate::PluralCategory::One;)?
                $value
            },
            two: {
                let $field = &$from.two;
                $(let $category = $crate::PluralCategory::Two;)?
                $value
            },
            few: {
                let $field = &$from.few;
                $(let $category = $crate::PluralCategory::Few;)?
                $value
            },
            many: {
                let $field = &$from.many;
                $(let $category = $crate::PluralCategory::Many;)?
                $value
            },
        }
    };
}

/// Does something for each category from zero to many, in this order, or, where a struct with such
/// fields is named, for a reference to each field, and its category if that is named too.
#[macro_export]
macro_rules! for_five {
    (|$category:ident| $step:expr) => {
        let $category = $crate::PluralCategory::Zero;
        $step;
        let $category = $crate::PluralCategory::One;
        $step;
        let $category = $crate::PluralCategory::Two;
        $step;
        let $category = $crate::PluralCategory::Few;
        $step;
        let $category = $crate::PluralCategory::Many;
        $step;
    };
    ($from:expr, |$field:ident $(, $category:ident)?| $step:expr) => {
        let $field = &$from.zero;
        $(let $category = $crate::PluralCategory::Zero;)?
        $step;
        let $field = &$from.one;
        $(let $category = $crate::PluralCategory::One;)?
        $step;
        let $field = &$from.two;
        $(let $category = $crate::PluralCategory::Two;)?
        $step;
        let $field = &$from.few;
        $(let $category = $crate::PluralCategory::Few;)?
        $step;
        let $field = &$from.many;
        $(let $category = $crate::PluralCategory::Many;)?
        $step;
    };
}

/// Does something for a `&mut` reference to each field of a struct with the fields `zero` to `many`,
/// in this order, and its category if that is named or, where another such struct is named, a
/// reference to its field there, and its category if that is named too.
#[macro_export]
macro_rules! put_five {
    ($into:expr, |$place:ident, $category:ident| $step:expr) => {
        let $place = &mut $into.zero;
        let $category = $crate::PluralCategory::Zero;
        $step;
        let $place = &mut $into.one;
        let $category = $crate::PluralCategory::One;
        $step;
        let $place = &mut $into.two;
        let $category = $crate::PluralCategory::Two;
        $step;
        let $place = &mut $into.few;
        let $category = $crate::PluralCategory::Few;
        $step;
        let $place = &mut $into.many;
        let $category = $crate::PluralCategory::Many;
        $step;
    };
    ($into:expr, $from:expr, |$place:ident, $field:ident $(, $category:ident)?| $step:expr) => {
        let $place = &mut $into.zero;
        let $field = &$from.zero;
        $(let $category = $crate::PluralCategory::Zero;)?
        $step;
        let $place = &mut $into.one;
        let $field = &$from.one;
        $(let $category = $crate::PluralCategory::One;)?
        $step;
        let $place = &mut $into.two;
        let $field = &$from.two;
        $(let $category = $crate::PluralCategory::Two;)?
        $step;
        let $place = &mut $into.few;
        let $field = &$from.few;
        $(let $category = $crate::PluralCategory::Few;)?
        $step;
        let $place = &mut $into.many;
        let $field = &$from.many;
        $(let $category = $crate::PluralCategory::Many;)?
        $step;
    };
}

/// Gives what the expression gives for a reference to the field of a category, of a struct with the
/// fields `zero` to `many`, or the last expression for other.
#[macro_export]
macro_rules! at_category {
    ($from:expr, $category:expr, |$field:ident| $value:expr, $other:expr) => {
        match $category {
            $crate::PluralCategory::Zero => {
                let $field = &$from.zero;
                $value
            }
            $crate::PluralCategory::One => {
                let $field = &$from.one;
                $value
            }
            $crate::PluralCategory::Two => {
                let $field = &$from.two;
                $value
            }
            $crate::PluralCategory::Few => {
                let $field = &$from.few;
                $value
            }
            $crate::PluralCategory::Many => {
                let $field = &$from.many;
                $value
            }
            $crate::PluralCategory::Other => $other,
        }
    };
}

impl<T> Five<Option<T>> {
    /// Returns five absent values.
    pub fn none() -> Five<Option<T>>
        ensures { result ≡ five None None None None None }
    {
        make_five!(Five, |_category| None)
    }
}
