//! How many numbers the samples of a text have.

use crate::sample_range::MOST_NUMBERS;
use icu_plurals::provider::rules::reference::ast::{
    DecimalValue, SampleList, SampleRange, Samples,
};

// A longer text doesn't count.
const MOST_BYTES: usize = 16;

// What was read of a number: what its digits write without the point, and if there is a point, how
// many are behind it.
#[derive(Clone, Copy)]
struct PlainNumber {
    digits: u64,
    places: Option<u64>,
}

// How many numbers the samples have. No text is counted that writes no number, that has an exponent
// or more than 16 bytes, nor a range that has none.
pub(crate) fn number_count(samples: &Samples) -> u64 {
    count_in(&samples.integer).saturating_add(count_in(&samples.decimal))
}

// The same of a list, if it is present.
fn count_in(list: &Option<SampleList>) -> u64 {
    let Some(list) = list else {
        return 0;
    };
    let mut count = 0_u64;
    for range in list.sample_ranges.as_slice() {
        count = count.saturating_add(count_of(range).unwrap_or(0));
    }
    count
}

// The same of a range of samples, or `None` if it doesn't count.
fn count_of(range: &SampleRange) -> Option<u64> {
    let first = plain_number(&range.lower_val)?;
    match &range.upper_val {
        Some(upper) => count_between(first, plain_number(upper)?),
        None => Some(1),
    }
}

// How many numbers are from one to another, or `None` if there are none or too many.
fn count_between(first: PlainNumber, last: PlainNumber) -> Option<u64> {
    if first.places != last.places {
        return None;
    }
    let more = last.digits.checked_sub(first.digits)?;
    if more >= MOST_NUMBERS {
        return None;
    }
    more.checked_add(1)
}

// The number of a sample's text, or `None` if it doesn't count.
fn plain_number(sample: &DecimalValue) -> Option<PlainNumber> {
    let text = sample.0.as_str().as_bytes();
    let first = text.first()?;
    if text.len() > MOST_BYTES || !first.is_ascii_digit() {
        return None;
    }
    let mut number = PlainNumber {
        digits: 0,
        places: None,
    };
    for byte in text {
        number = with_byte(number, *byte)?;
    }
    if number.places == Some(0) {
        return None;
    }
    Some(number)
}

// A number with a byte more, or `None` if that is no digit and no first point.
fn with_byte(number: PlainNumber, byte: u8) -> Option<PlainNumber> {
    match byte {
        b'0'..=b'9' => Some(PlainNumber {
            digits: number
                .digits
                .saturating_mul(10)
                .saturating_add(u64::from(byte - b'0')),
            places: match number.places {
                Some(places) => Some(places.saturating_add(1)),
                None => None,
            },
        }),
        b'.' if number.places.is_none() => Some(PlainNumber {
            digits: number.digits,
            places: Some(0),
        }),
        _ => None,
    }
}
