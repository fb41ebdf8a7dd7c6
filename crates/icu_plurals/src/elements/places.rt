//! The eight places of elements, spelled once. The macros take them in this order: other, zero,
//! one, two, few, many, explicit zero, explicit one.

/// Elements with a value of other alone: a value, or a pattern.
macro_rules! only_other {
    ($other:ident) => {
        $crate::PluralElements {
            other: $other,
            zero: None,
            one: None,
            two: None,
            few: None,
            many: None,
            explicit_zero: None,
            explicit_one: None,
        }
    };
}

/// Makes elements in four steps: the first expression gives the value of other, the second one each
/// three of the six next places, and the third one the last place. Each names what stands there in
/// the given elements, which is moved.
macro_rules! make_elements {
    (@each |$value:ident| $first:expr, |$a:ident, $b:ident, $c:ident| $three:expr,
        |$place:ident| $last:expr,
        $other:expr, $zero:expr, $one:expr, $two:expr, $few:expr, $many:expr,
        $explicit_zero:expr, $explicit_one:expr) => {{
        let $value = $other;
        let other = $first;
        let $a = $zero;
        let $b = $one;
        let $c = $two;
        let (zero, one, two) = $three;
        let $a = $few;
        let $b = $many;
        let $c = $explicit_zero;
        let (few, many, explicit_zero) = $three;
        let $place = $explicit_one;
        let explicit_one = $last;
        $crate::PluralElements {
            other,
            zero,
            one,
            two,
            few,
            many,
            explicit_zero,
            explicit_one,
        }
    }};
    ($from:expr, |$value:ident| $first:expr, |$a:ident, $b:ident, $c:ident| $three:expr,
        |$place:ident| $last:expr) => {{
        let $crate::PluralElements {
            other,
            zero,
            one,
            two,
            few,
            many,
            explicit_zero,
            explicit_one,
        } = $from;
        make_elements!(@each |$value| $first, |$a, $b, $c| $three, |$place| $last,
            other, zero, one, two, few, many, explicit_zero, explicit_one)
    }};
}

/// Does the first step for a reference to the value of other, the second one for references to each
/// three of the six next places, and the third one for a reference to the last place. Behind a
/// `&mut` a step may change what it gets.
macro_rules! for_places {
    (@each |$value:ident| $first:expr, |$a:ident, $b:ident, $c:ident| $three:expr,
        |$place:ident| $last:expr,
        $other:expr, $zero:expr, $one:expr, $two:expr, $few:expr, $many:expr,
        $explicit_zero:expr, $explicit_one:expr) => {
        let $value = $other;
        $first;
        let $a = $zero;
        let $b = $one;
        let $c = $two;
        $three;
        let $a = $few;
        let $b = $many;
        let $c = $explicit_zero;
        $three;
        let $place = $explicit_one;
        $last;
    };
    (&mut $from:expr, |$value:ident| $first:expr, |$a:ident, $b:ident, $c:ident| $three:expr,
        |$place:ident| $last:expr) => {
        for_places!(@each |$value| $first, |$a, $b, $c| $three, |$place| $last,
            &mut $from.other, &mut $from.zero, &mut $from.one, &mut $from.two, &mut $from.few,
            &mut $from.many, &mut $from.explicit_zero, &mut $from.explicit_one);
    };
    (&$from:expr, |$value:ident| $first:expr, |$a:ident, $b:ident, $c:ident| $three:expr,
        |$place:ident| $last:expr) => {
        for_places!(@each |$value| $first, |$a, $b, $c| $three, |$place| $last,
            &$from.other, &$from.zero, &$from.one, &$from.two, &$from.few, &$from.many,
            &$from.explicit_zero, &$from.explicit_one);
    };
}

pub(crate) use for_places;
pub(crate) use make_elements;
pub(crate) use only_other;
