//! Numbers as they are written.

use crate::random::Source;
use std::alloc::{AllocError, Global};

// Appends digits, the first of which isn't 0.
fn push_digits(text: &mut String, source: &mut Source, count: u64) -> Result<(), AllocError> {
    const DIGITS: &[&str] = &["1", "2", "3", "4", "5", "6", "7", "8", "9"];
    text.push_str(source.one_of(DIGITS))?;
    for _ in 1..count {
        text.push_str(if source.one_in(10) {
            "0"
        } else {
            source.one_of(DIGITS)
        })?;
    }
    Ok(())
}

// Appends a number: in 60 of 100 cases a whole number of one to six digits, in 30 a price of one to three fraction digits, in 5
// a compact number, and in 5 a number of 12 to 18 digits.
pub(crate) fn push_number(text: &mut String, source: &mut Source) -> Result<(), AllocError> {
    let kind = source.below(100);
    let places = source.between(1, 6);
    if kind < 60 {
        push_digits(text, source, places)
    } else if kind < 90 {
        push_digits(text, source, places)?;
        text.push_str(".")?;
        let fraction = source.between(1, 3);
        push_digits(text, source, fraction)
    } else if kind < 95 {
        push_digits(text, source, 1)?;
        text.push_str(".")?;
        push_digits(text, source, 1)?;
        text.push_str(source.one_of(&["c3", "c6", "c9"]))
    } else {
        let many = source.between(12, 18);
        push_digits(text, source, many)
    }
}

// So many numbers.
pub(crate) fn numbers(
    alloc: Global,
    source: &mut Source,
    count: u64,
) -> Result<Vec<String>, AllocError> {
    let mut all = Vec::new(alloc);
    for _ in 0..source.some_of(count) {
        let mut text = String::new(alloc);
        push_number(&mut text, source)?;
        all.push(text)?;
    }
    Ok(all)
}

// One of the numbers, or 0 if there are none.
pub(crate) fn one_number<'a>(source: &mut Source, numbers: &'a [String]) -> &'a str {
    let place = source.place(numbers.len());
    match numbers.get(place) {
        Some(text) => text.as_str(),
        None => "0",
    }
}
