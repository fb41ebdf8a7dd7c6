//! The texts of numbers that are given as an integer and a count of fraction digits.

ghost use Rattle.std.specs.Prelude.{◌≡◌, ◌<◌, ◌++◌, IfOk, OnOk, string_bytes};
ghost use Rattle.plural_checker.specs.SampleNumbers.{digit_text, c_and_exponent, number_text, parts_text, point_at};

use icu_plurals::provider::rules::reference::ast::DecimalValue;
use std::alloc::{AllocError, Global};

// The text of `parts / 10^places`, with an exponent.
pub(crate) fn number_text(
    alloc: Global,
    places: usize,
    parts: u128,
    exponent: u8,
) -> Result<DecimalValue, AllocError>
    ensures { IfOk result (λ text. text ≡ number_text places parts exponent) }
{
    let mut text = parts_text(alloc, places, parts)?;
    push_exponent(alloc, &mut text, exponent)?;
    Ok(DecimalValue(text))
}

// The text of `parts / 10^places`: the text of the digits before the last, and then the last digit.
fn parts_text(alloc: Global, places: usize, parts: u128) -> Result<String, AllocError>
    ensures { IfOk result (λ text. string_bytes text ≡ parts_text places parts) }
{
    if places == 0 {
        return parts.to_string(alloc);
    }
    let mut text = parts_text(alloc, places - 1, parts / 10)?;
    text.push_str(point_at(places - 1))?;
    text.push_str(digit_text((parts % 10) as u8))?;
    Ok(text)
}

// The point if this is the first fraction digit, otherwise an empty text.
fn point_at(place: usize) -> &'static str
    ensures { result.now ≡ point_at place }
{
    if place == 0 { "." } else { "" }
}

// The text of a digit.
fn digit_text(digit: u8) -> &'static str
    requires { digit < 10 }
    ensures { result.now ≡ digit_text digit }
{
    match digit {
        0 => "0",
        1 => "1",
        2 => "2",
        3 => "3",
        4 => "4",
        5 => "5",
        6 => "6",
        7 => "7",
        8 => "8",
        _ => "9",
    }
}

// Appends `c` and an exponent that isn't 0.
fn push_exponent(alloc: Global, text: &mut String, exponent: u8) -> Result<(), AllocError>
    ensures { OnOk result (string_bytes text.new ≡ string_bytes text.old ++ c_and_exponent exponent) }
{
    if exponent == 0 {
        return Ok(());
    }
    let digits = exponent.to_string(alloc)?;
    text.push_str("c")?;
    text.push_str(digits.as_str())
}
