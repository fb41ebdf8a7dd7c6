//! The examples of the pages of `fixed_decimal`.

use crate::tests::assertion::holds;
use fixed_decimal::{CompactDecimal, Decimal, Sign, UnsignedDecimal};
use std::test::Fail;

// Whether a number has these places and digits, the highest first.
fn is_written(number: &UnsignedDecimal, range: (i16, i16), digits: &str) -> bool {
    let mut at = range.1;
    for digit in digits.as_bytes() {
        if number.digit_at(at).wrapping_add(b'0') != *digit {
            return false;
        }
        at = at.saturating_sub(1);
    }
    number.magnitude_range() == range && at == range.0.saturating_sub(1)
}

#[test]
fn a_compact_decimal_has_its_parts(rt: HostRuntime) -> Result<(), Fail> {
    let number = CompactDecimal::from_str(rt.alloc(), "-1.00000020c6")?;
    holds!(rt; number.significand().sign == Sign::Negative);
    holds!(rt; is_written(&number.significand().absolute, (-8, 0), "100000020"));
    let number = CompactDecimal::from_parts(Decimal::from_str(rt.alloc(), "+2.5")?, 255);
    holds!(rt; number.exponent() == 255);
    holds!(rt; number.significand().sign == Sign::Positive);
    holds!(rt; is_written(&number.significand().absolute, (-1, 0), "25"));
    Ok(())
}

#[test]
fn a_shift_reaches_the_last_place(rt: HostRuntime) -> Result<(), Fail> {
    let rows = [
        ("1", 32766, (0, 32766), 32766, 1),
        ("5", -32767, (-32767, 0), -32767, 5),
    ];
    for (text, places, range, magnitude, digit) in rows {
        let mut number = UnsignedDecimal::from_str(rt.alloc(), text)?;
        holds!(rt; number.multiply_pow10(places) == Ok(()), text);
        holds!(rt; number.magnitude_range() == range, text);
        holds!(rt; number.digit_at(magnitude) == digit, text);
        holds!(rt; number.digit_at(magnitude / 2) == 0, text);
        holds!(rt; number.digit_at(0) == 0, text);
    }
    Ok(())
}

#[test]
fn an_exponent_moves_places_to_the_left_of_the_point(rt: HostRuntime) -> Result<(), Fail> {
    let rows = [
        ("12.340", 0, (2, 3)),
        ("12.340", 2, (4, 1)),
        ("12.340", 3, (5, 0)),
        ("12.340", 4, (6, 0)),
        ("0", 255, (256, 0)),
    ];
    for (text, exponent, places) in rows {
        let decimal = UnsignedDecimal::from_str(rt.alloc(), text)?;
        holds!(rt; decimal.places_after(exponent) == places, text);
    }
    Ok(())
}
