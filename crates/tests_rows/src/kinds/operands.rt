//! The operands of numbers.

use crate::kinds::decimals::{next_decimal, next_unsigned};
use fixed_decimal::CompactDecimal;
use plural_reference::ast::Operand;
use plural_reference::{PluralOperands, RawPluralOperands};
use row_calls::call::Call;
use std::fmt::Write;

/// Makes the call of a kind of this file. Returns whether there is such a kind.
pub fn make(kind: &str, call: &mut Call) -> bool {
    match kind {
        "operands" => operands(call),
        "compact_text_operands" => compact_text_operands(call),
        "decimal_operands" => decimal_operands(call),
        "unsigned_operands" => unsigned_operands(call),
        "significand_operands" => significand_operands(call),
        "shifted_operands" => shifted_operands(call),
        "integer_operands" => integer_operands(call),
        "text_operands" => text_operands(call),
        "default_operands" => print_operands(call, &PluralOperands::default()),
        _ => return makes_of_six(kind, call),
    }
    true
}

// Makes the call of a kind that is about operands themselves.
fn makes_of_six(kind: &str, call: &mut Call) -> bool {
    match kind {
        "raw_operands" => raw_operands(call),
        "text_is_exactly" => text_is_exactly(call),
        "compact_is_exactly" => compact_is_exactly(call),
        "operand_value" => operand_value(call),
        _ => return false,
    }
    true
}

// Prints operands with their letters.
fn print_operands(call: &mut Call, operands: &PluralOperands) {
    let RawPluralOperands { i, v, w, f, t, c } = RawPluralOperands::from(*operands);
    let _ = write!(call, "i={i} v={v} w={w} f={f} t={t} c={c}");
}

// The operands of a compact decimal.
fn operands(call: &mut Call) {
    let text = call.text();
    match CompactDecimal::from_str(call.alloc, text.as_str()) {
        Ok(number) => print_operands(call, &PluralOperands::from(&number)),
        Err(error) => call.print_error(&error),
    }
}

// The operands of the compact decimal that a text writes.
fn compact_text_operands(call: &mut Call) {
    let text = call.text();
    match PluralOperands::from_compact_text(call.alloc, text.as_str()) {
        Ok(operands) => print_operands(call, &operands),
        Err(error) => call.print_error(&error),
    }
}

// The operands of a decimal.
fn decimal_operands(call: &mut Call) {
    if let Some(number) = next_decimal(call) {
        print_operands(call, &PluralOperands::from(&number));
    }
}

// The operands of the absolute value of a decimal.
fn unsigned_operands(call: &mut Call) {
    if let Some(number) = next_decimal(call) {
        print_operands(call, &PluralOperands::from(&number.absolute));
    }
}

// The operands of the significand and the exponent of a compact decimal.
fn significand_operands(call: &mut Call) {
    if let Some(number) = call.compact() {
        let absolute = &number.significand().absolute;
        let exponent = number.exponent();
        let operands = PluralOperands::from_significand_and_exponent(absolute, exponent);
        print_operands(call, &operands);
    }
}

// The operands of an unsigned decimal that was shifted.
fn shifted_operands(call: &mut Call) {
    let Some(mut number) = next_unsigned(call) else {
        return;
    };
    match number.multiply_pow10(call.magnitude()) {
        Ok(()) => print_operands(call, &PluralOperands::from(&number)),
        Err(error) => call.print_error(&error),
    }
}

// The operands of an integer of a type.
fn integer_operands(call: &mut Call) {
    let name = call.text();
    let number = call.text();
    let found = match unsigned_integer(name.as_str(), number.as_str()) {
        Some(operands) => Some(operands),
        None => signed_integer(name.as_str(), number.as_str()),
    };
    match found {
        Some(operands) => print_operands(call, &operands),
        None => call.not("an integer of the type"),
    }
}

// The operands of an integer of an unsigned type.
fn unsigned_integer(name: &str, number: &str) -> Option<PluralOperands> {
    Some(match name {
        "u8" => PluralOperands::from(number.parse::<u8>().ok()?),
        "u16" => PluralOperands::from(number.parse::<u16>().ok()?),
        "u32" => PluralOperands::from(number.parse::<u32>().ok()?),
        "u64" => PluralOperands::from(number.parse::<u64>().ok()?),
        "u128" => PluralOperands::from(number.parse::<u128>().ok()?),
        "usize" => PluralOperands::from(number.parse::<usize>().ok()?),
        _ => return None,
    })
}

// The operands of an integer of a signed type.
fn signed_integer(name: &str, number: &str) -> Option<PluralOperands> {
    Some(match name {
        "i8" => PluralOperands::from(number.parse::<i8>().ok()?),
        "i16" => PluralOperands::from(number.parse::<i16>().ok()?),
        "i32" => PluralOperands::from(number.parse::<i32>().ok()?),
        "i64" => PluralOperands::from(number.parse::<i64>().ok()?),
        "i128" => PluralOperands::from(number.parse::<i128>().ok()?),
        "isize" => PluralOperands::from(number.parse::<isize>().ok()?),
        _ => return None,
    })
}

// The operands that a text writes.
fn text_operands(call: &mut Call) {
    let text = call.text();
    match text.as_str().parse::<PluralOperands>() {
        Ok(operands) => print_operands(call, &operands),
        Err(error) => call.print_error(&error),
    }
}

// Operands, made of raw ones and turned into raw ones again.
fn raw_operands(call: &mut Call) {
    let raw = RawPluralOperands::from(call.operands());
    print_operands(call, &PluralOperands::from(raw));
}

// Prints whether a number is exactly 0 or exactly 1.
fn print_exactly(call: &mut Call, operands: PluralOperands) {
    let zero = operands.is_exactly_zero();
    let one = operands.is_exactly_one();
    let _ = write!(call, "zero={zero} one={one}");
}

// Whether the number that a text of operands writes is exactly 0 or exactly 1.
fn text_is_exactly(call: &mut Call) {
    let text = call.text();
    match text.as_str().parse::<PluralOperands>() {
        Ok(operands) => print_exactly(call, operands),
        Err(error) => call.print_error(&error),
    }
}

// Whether a compact decimal is exactly 0 or exactly 1.
fn compact_is_exactly(call: &mut Call) {
    let text = call.text();
    match CompactDecimal::from_str(call.alloc, text.as_str()) {
        Ok(number) => print_exactly(call, PluralOperands::from(&number)),
        Err(error) => call.print_error(&error),
    }
}

// The value of an operand, if it has one.
fn operand_value(call: &mut Call) {
    let operands = call.operands();
    let operand = next_operand(call);
    match operands.value(operand) {
        Some(value) => call.print_value(&value),
        None => call.print("none"),
    }
}

/// Returns the operand that an argument names by its letter.
pub fn next_operand(call: &mut Call) -> Operand {
    let letter = call.text();
    operand_of(call, letter.as_str())
}

/// Returns the operand of a letter.
pub fn operand_of(call: &mut Call, letter: &str) -> Operand {
    match letter {
        "n" => Operand::N,
        "i" => Operand::I,
        "v" => Operand::V,
        "w" => Operand::W,
        "f" => Operand::F,
        "t" => Operand::T,
        "c" => Operand::C,
        "e" => Operand::E,
        _ => {
            call.not("an operand");
            Operand::N
        }
    }
}
