//! Numbers with an exponent that isn't written as one of a compact number.

// What is told where a number may be meant to have an exponent.
pub(crate) const EXPONENT: &str = "plural_forms: an exponent is written with c, 1e6 as 1c6";

// Whether one of the numbers may be meant to have an exponent, as 1e6. Those of an input aren't
// known.
pub(crate) fn may_mean_exponents(numbers: &[&str]) -> bool {
    numbers.is_empty() || numbers.iter().any(|number| has_mark(number.as_bytes()))
}

// Whether there is an `e` between two digits.
fn has_mark(number: &[u8]) -> bool {
    number.windows(3).any(|part| is_mark(part))
}

// Whether these are an `e` between two digits.
fn is_mark(part: &[u8]) -> bool {
    match part {
        [first, b'e' | b'E', last] => first.is_ascii_digit() && last.is_ascii_digit(),
        _ => false,
    }
}
