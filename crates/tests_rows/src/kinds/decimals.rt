//! Numbers: read from texts, made of integers, shifted, and their digits.

use fixed_decimal::{
    CompactDecimal, Decimal, DecimalError, PlainNumber, RoundingMode, UnsignedDecimal,
};
use row_calls::arguments::is_one_of;
use row_calls::call::Call;
use std::alloc::Global;
use std::fmt::Write;

// Kinds whose first argument is an unsigned decimal.
const OF_UNSIGNED: [&str; 8] = [
    "unsigned_decimal",
    "padded_unsigned",
    "trimmed_unsigned",
    "shifted_digits",
    "digits_at",
    "has_digit_from",
    "number_from",
    "places_after",
];

// Kinds whose first argument is a decimal.
const OF_DECIMAL: [&str; 7] = [
    "decimal",
    "shifted_decimal",
    "padded_decimal",
    "trimmed_decimal",
    "rounding_limit",
    "shown_decimal",
    "magnitudes",
];

// Kinds whose first argument is a compact decimal.
const OF_COMPACT: [&str; 3] = ["compact_decimal", "exponent", "shown_compact"];

/// Makes the call of a kind of this file. Returns whether there is such a kind.
pub fn make(kind: &str, call: &mut Call) -> bool {
    if is_one_of(kind, &OF_UNSIGNED) {
        of_unsigned(kind, call);
    } else if is_one_of(kind, &OF_DECIMAL) {
        of_decimal(kind, call);
    } else if is_one_of(kind, &OF_COMPACT) {
        of_compact(kind, call);
    } else {
        return makes_other(kind, call);
    }
    true
}

// Makes the call of a kind with other arguments.
fn makes_other(kind: &str, call: &mut Call) -> bool {
    match kind {
        "compact_parts" => compact_parts(call),
        "unsigned_integer" | "unsigned_integer_64" => unsigned_integer(kind, call),
        "signed_integer" | "signed_integer_64" => signed_integer(kind, call),
        "rounded_decimal" => rounded_decimal(call),
        "rounded_unsigned" => rounded_unsigned(call),
        "plain_value" => plain_value(call),
        _ => return false,
    }
    true
}

/// Returns the next argument as an unsigned decimal, which its text has to write.
pub fn next_unsigned(call: &mut Call) -> Option<UnsignedDecimal> {
    let text = call.text();
    match UnsignedDecimal::from_str(call.alloc, text.as_str()) {
        Ok(number) => Some(number),
        Err(error) => {
            call.refused("an unsigned decimal", &error);
            None
        }
    }
}

/// Returns the next argument as a decimal, which its text has to write.
pub fn next_decimal(call: &mut Call) -> Option<Decimal> {
    let text = call.text();
    match Decimal::from_str(call.alloc, text.as_str()) {
        Ok(number) => Some(number),
        Err(error) => {
            call.refused("a decimal", &error);
            None
        }
    }
}

// Prints the places of a number and its digits, the highest first: `-2..1 1230`.
fn print_places(call: &mut Call, number: &UnsignedDecimal) {
    let (low, high) = number.magnitude_range();
    print_range(call, number);
    call.print(" ");
    for magnitude in (low..=high).rev() {
        call.print_value(&number.digit_at(magnitude));
    }
}

// Prints the lowest and the highest place of a number.
fn print_range(call: &mut Call, number: &UnsignedDecimal) {
    let (low, high) = number.magnitude_range();
    let _ = write!(call, "{low}..{high}");
}

// Prints the sign, the places and the digits: `Negative -3..0 0050`.
fn print_number(call: &mut Call, number: &Decimal) {
    call.print_name(&number.sign);
    call.print(" ");
    print_places(call, &number.absolute);
}

// Prints the significand's sign, places and digits, and the exponent.
fn print_compact(call: &mut Call, number: &CompactDecimal) {
    print_number(call, number.significand());
    call.print(" c");
    call.print_value(&number.exponent());
}

// Prints what a change of a number gives.
fn print_done(call: &mut Call, done: Result<(), DecimalError>) {
    match done {
        Ok(()) => call.print("ok"),
        Err(error) => call.print_error(&error),
    }
    call.print(", ");
}

// A kind whose first argument is an unsigned decimal.
fn of_unsigned(kind: &str, call: &mut Call) {
    let text = call.text();
    match UnsignedDecimal::from_str(call.alloc, text.as_str()) {
        Ok(mut number) => print_of_unsigned(kind, call, &mut number),
        Err(error) => call.print_error(&error),
    }
}

// Prints an unsigned decimal's places and digits, or what another kind says of it.
fn print_of_unsigned(kind: &str, call: &mut Call, number: &mut UnsignedDecimal) {
    match kind {
        "padded_unsigned" => {
            let done = number.pad_end(call.magnitude());
            print_done(call, done);
            call.print_value(number);
        }
        "trimmed_unsigned" => {
            number.trim_end();
            call.print_value(number);
        }
        "shifted_digits" => match number.multiply_pow10(call.magnitude()) {
            Ok(()) => print_digits(call, number),
            Err(error) => call.print_error(&error),
        },
        "digits_at" => print_digits(call, number),
        "has_digit_from" => {
            let magnitude = call.magnitude();
            call.print_truth(number.has_digit_from(magnitude));
        }
        "number_from" => print_number_from(call, number),
        "places_after" => {
            let (whole, fraction) = number.places_after(call.byte());
            let _ = write!(call, "{whole} {fraction}");
        }
        _ => print_places(call, number),
    }
}

// Prints the lowest and the highest place, and a digit for each magnitude of a list: `-2..1 1 0`.
fn print_digits(call: &mut Call, number: &UnsignedDecimal) {
    print_range(call, number);
    for magnitude in &call.magnitudes() {
        call.print(" ");
        call.print_value(&number.digit_at(*magnitude));
    }
}

// Prints the number that a run of digits writes, and how many zeros follow it.
fn print_number_from(call: &mut Call, number: &UnsignedDecimal) {
    let place = call.size();
    let count = call.size();
    if count > 18 {
        return call.not("at most 18");
    }
    let (value, zeros) = number.number_from(place, count);
    let _ = write!(call, "{value} {zeros}");
}

// A kind whose first argument is a decimal.
fn of_decimal(kind: &str, call: &mut Call) {
    let text = call.text();
    match Decimal::from_str(call.alloc, text.as_str()) {
        Ok(mut number) => print_of_decimal(kind, call, &mut number),
        Err(error) => call.print_error(&error),
    }
}

// Prints a decimal's sign, places and digits, or what another kind says of it.
fn print_of_decimal(kind: &str, call: &mut Call, number: &mut Decimal) {
    match kind {
        "shifted_decimal" => {
            let done = number.multiply_pow10(call.magnitude());
            print_done(call, done);
            print_number(call, number);
        }
        "padded_decimal" => {
            let done = number.pad_end(call.magnitude());
            print_done(call, done);
            call.print_value(number);
        }
        "trimmed_decimal" => {
            number.trim_end();
            call.print_value(number);
        }
        "rounding_limit" => {
            let done = number.round_with_mode(call.magnitude(), next_mode(call));
            print_done(call, done);
            print_range(call, &number.absolute);
        }
        "shown_decimal" => call.print_value(number),
        "magnitudes" => print_range(call, &number.absolute),
        _ => print_number(call, number),
    }
}

// The rounding mode that the next argument names.
fn next_mode(call: &mut Call) -> RoundingMode {
    let name = call.text();
    for mode in MODES {
        if name_of(mode) == name.as_str() {
            return mode;
        }
    }
    call.not("a rounding mode");
    RoundingMode::HalfEven
}

// The name of a mode.
fn name_of(mode: RoundingMode) -> &'static str {
    match mode {
        RoundingMode::HalfEven => "HalfEven",
        RoundingMode::HalfExpand => "HalfExpand",
        RoundingMode::Trunc => "Trunc",
        RoundingMode::Expand => "Expand",
        RoundingMode::Ceil => "Ceil",
        RoundingMode::Floor => "Floor",
    }
}

// A kind whose first argument is a compact decimal.
fn of_compact(kind: &str, call: &mut Call) {
    let text = call.text();
    match CompactDecimal::from_str(call.alloc, text.as_str()) {
        Ok(number) => match kind {
            "exponent" => call.print_value(&number.exponent()),
            "shown_compact" => call.print_value(&number),
            _ => print_compact(call, &number),
        },
        Err(error) => call.print_error(&error),
    }
}

// The compact decimal of a decimal and an exponent.
fn compact_parts(call: &mut Call) {
    let significand = next_decimal(call);
    let exponent = call.byte();
    if let Some(significand) = significand {
        print_compact(call, &CompactDecimal::from_parts(significand, exponent));
    }
}

// An integer of 128 or of 64 bits without a sign.
fn unsigned_integer(kind: &str, call: &mut Call) {
    let made = match kind {
        "unsigned_integer" => UnsignedDecimal::from_u128(call.alloc, next_u128(call)),
        _ => UnsignedDecimal::from_u64(call.alloc, call.number()),
    };
    match made {
        Ok(number) => print_places(call, &number),
        Err(error) => call.print_error(&error),
    }
}

// The integer of 128 bits without a sign that a text writes.
fn next_u128(call: &mut Call) -> u128 {
    let text = call.text();
    match text.as_str().parse::<u128>() {
        Ok(number) => number,
        Err(_) => {
            call.not("an integer");
            0
        }
    }
}

// An integer of 128 or of 64 bits with a sign.
fn signed_integer(kind: &str, call: &mut Call) {
    let number = next_i128(call);
    let made = if kind == "signed_integer" {
        Decimal::from_i128(call.alloc, number)
    } else if let Ok(number) = i64::try_from(number) {
        Decimal::from_i64(call.alloc, number)
    } else {
        return call.not("an integer of 64 bits");
    };
    match made {
        Ok(number) => print_number(call, &number),
        Err(error) => call.print_error(&error),
    }
}

// The integer of 128 bits with a sign that a text writes.
fn next_i128(call: &mut Call) -> i128 {
    let text = call.text();
    match text.as_str().parse::<i128>() {
        Ok(number) => number,
        Err(_) => {
            call.not("an integer");
            0
        }
    }
}

// The modes, in the order in which their results are printed.
const MODES: [RoundingMode; 6] = [
    RoundingMode::HalfEven,
    RoundingMode::HalfExpand,
    RoundingMode::Trunc,
    RoundingMode::Expand,
    RoundingMode::Ceil,
    RoundingMode::Floor,
];

// The texts of a decimal that is rounded in each mode.
fn rounded_decimal(call: &mut Call) {
    let text = call.text();
    let position = call.magnitude();
    for mode in MODES {
        call.separate(" ");
        match read_rounded(call.alloc, text.as_str(), position, mode) {
            Ok(number) => call.print_value(&number),
            Err(error) => call.print_error(&error),
        }
    }
}

fn read_rounded(
    alloc: Global,
    text: &str,
    position: i16,
    mode: RoundingMode,
) -> Result<Decimal, DecimalError> {
    let mut number = Decimal::from_str(alloc, text)?;
    number.round_with_mode(position, mode)?;
    Ok(number)
}

// The texts of an unsigned decimal that is rounded in each mode.
fn rounded_unsigned(call: &mut Call) {
    let text = call.text();
    let position = call.magnitude();
    for mode in MODES {
        call.separate(" ");
        match read_rounded_unsigned(call.alloc, text.as_str(), position, mode) {
            Ok(number) => call.print_value(&number),
            Err(error) => call.print_error(&error),
        }
    }
}

fn read_rounded_unsigned(
    alloc: Global,
    text: &str,
    position: i16,
    mode: RoundingMode,
) -> Result<UnsignedDecimal, DecimalError> {
    let mut number = UnsignedDecimal::from_str(alloc, text)?;
    number.round_with_mode(position, mode)?;
    Ok(number)
}

// Whether an integer has the value of a plain number.
fn plain_value(call: &mut Call) {
    let text = call.text();
    let integer = call.text();
    match PlainNumber::of(text.as_bytes()) {
        Some(number) => match number.same_value(integer.as_bytes()) {
            Some(same) => call.print_truth(same),
            None => call.print("no plain integer"),
        },
        None => call.print("not plain"),
    }
}
