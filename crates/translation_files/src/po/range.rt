//! The numbers that a message is shown for.

use po_catalog::Entry;
use std::str;

// The least and the largest number that a message is shown for.
#[derive(Clone, Copy)]
pub(crate) struct Range {
    pub(crate) low: u64,
    pub(crate) high: u64,
}

// The range that the flags of a message say, as `range: 0..10`.
pub(crate) fn range_of(entry: &Entry) -> Option<Range> {
    let flags = str::from_utf8(entry.flags.as_slice()).unwrap_or("");
    let mut is_next = false;
    for flag in flags.split(',') {
        if is_next && let Some(range) = range_in(flag) {
            return Some(range);
        }
        is_next = flag == "range:";
    }
    None
}

// The range that a flag writes.
fn range_in(flag: &str) -> Option<Range> {
    let (low, high) = flag.split_once("..")?;
    let low = number_in(low)?;
    let high = number_in(high)?;
    if low <= high {
        Some(Range { low, high })
    } else {
        None
    }
}

// The number that digits write.
fn number_in(digits: &str) -> Option<u64> {
    let bytes = digits.as_bytes();
    if bytes.is_empty() {
        return None;
    }
    let mut number = 0u64;
    for digit in bytes {
        if !digit.is_ascii_digit() {
            return None;
        }
        let value = u64::from(digit.saturating_sub(b'0'));
        number = number.saturating_mul(10).saturating_add(value);
    }
    Some(number)
}
