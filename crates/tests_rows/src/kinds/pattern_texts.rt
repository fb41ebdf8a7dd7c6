//! What patterns say with their arguments.

use message_format::{Argument, FormatError, Rules, Value, format};
use message_pattern::Pattern;
use packed_format::{
    PlacedValues, argument_names, format_by_place, format_packed, format_prepared,
};
use packed_pattern::{PackedPattern, pack};
use plural_base::PreparedRules;
use row_calls::call::Call;
use std::alloc::{AllocError, Global};
use std::fmt::Write;

/// Makes the call of a kind of this file. Returns whether there is such a kind.
pub fn make(kind: &str, call: &mut Call) -> bool {
    match kind {
        "pattern_text" => pattern_text(call),
        _ => return false,
    }
    true
}

// What a pattern says, between quotes, or its fault.
fn pattern_text(call: &mut Call) {
    let text = call.text();
    let numbers = call.texts();
    let texts = call.texts();
    let cardinal = call.plural_rules();
    let ordinal = call.plural_rules();
    let rules = Rules {
        cardinal: &cardinal,
        ordinal: &ordinal,
    };
    let mut arguments = Vec::new(call.alloc);
    add_numbers(call, &mut arguments, &numbers);
    add_texts(call, &mut arguments, &texts);
    match Pattern::parse(call.alloc, text.as_bytes()) {
        Ok(pattern) => print_said(call, &pattern, &arguments, &rules),
        Err(fault) => call.print_error(&fault),
    }
    drop(cardinal);
    drop(ordinal);
}

// Adds numbers under the names before them.
pub fn add_numbers<'a>(call: &mut Call, arguments: &mut Vec<Argument<'a>>, pairs: &'a [String]) {
    for pair in pairs.chunks_exact(2) {
        if let [name, number] = pair {
            let argument = Argument {
                name: name.as_str(),
                value: Value::Number(number.as_str()),
            };
            call.add_item(arguments, argument);
        }
    }
}

// Adds texts under the names before them.
pub fn add_texts<'a>(call: &mut Call, arguments: &mut Vec<Argument<'a>>, pairs: &'a [String]) {
    for pair in pairs.chunks_exact(2) {
        if let [name, text] = pair {
            let argument = Argument {
                name: name.as_str(),
                value: Value::Text(text.as_str()),
            };
            call.add_item(arguments, argument);
        }
    }
}

// Prints what a pattern says, if it says the same when it is packed.
fn print_said(
    call: &mut Call,
    pattern: &Pattern<'_>,
    arguments: &[Argument<'_>],
    rules: &Rules<'_, '_>,
) {
    let said = format(call.alloc, pattern, arguments, rules);
    match pack(call.alloc, pattern) {
        Ok(bytes) => {
            if !is_said_packed(call, &bytes, arguments, rules, &said) {
                call.print("otherwise when packed: ");
            }
        }
        Err(error) => call.print_error(&error),
    }
    print_outcome(call, said);
}

// Whether a block says this outcome, also under prepared rules.
fn is_said_packed(
    call: &mut Call,
    bytes: &[u8],
    arguments: &[Argument<'_>],
    rules: &Rules<'_, '_>,
    said: &Result<Vec<u8>, FormatError<'_>>,
) -> bool {
    let Ok(pattern) = PackedPattern::parse_bytes(bytes) else {
        return false;
    };
    let cardinal = PreparedRules::from_rules(rules.cardinal.as_borrowed());
    let ordinal = PreparedRules::from_rules(rules.ordinal.as_borrowed());
    let packed = format_packed(call.alloc, &pattern, arguments, rules);
    let prepared = format_prepared(call.alloc, &pattern, arguments, &cardinal, &ordinal);
    are_same(call, said, &packed)
        && are_same(call, said, &prepared)
        && is_said_by_place(call, &pattern, arguments, &cardinal, &ordinal)
}

// Whether a block says with values by place what it says with the arguments of these names.
fn is_said_by_place(
    call: &mut Call,
    pattern: &PackedPattern<'_>,
    arguments: &[Argument<'_>],
    cardinal: &PreparedRules<'_>,
    ordinal: &PreparedRules<'_>,
) -> bool {
    let Ok(names) = argument_names(call.alloc, pattern) else {
        call.out_of_memory();
        return false;
    };
    let Ok(given) = arguments_named(call.alloc, &names, arguments) else {
        call.out_of_memory();
        return false;
    };
    let Ok(values) = values_of(call.alloc, &given) else {
        call.out_of_memory();
        return false;
    };
    are_said_alike(call, pattern, &names, &given, &values, cardinal, ordinal)
}

// The first argument of each name, up to a name that has none: it has no value then, and so have
// those behind it.
fn arguments_named<'a>(
    alloc: Global,
    names: &[&[u8]],
    arguments: &[Argument<'a>],
) -> Result<Vec<Argument<'a>>, AllocError> {
    let mut given = Vec::new(alloc);
    for name in names {
        let Some(argument) = argument_named(name, arguments) else {
            break;
        };
        given.push(argument)?;
    }
    Ok(given)
}

// The first argument of a name.
fn argument_named<'a>(name: &[u8], arguments: &[Argument<'a>]) -> Option<Argument<'a>> {
    for argument in arguments {
        if argument.name.as_bytes() == name {
            return Some(*argument);
        }
    }
    None
}

// The values of arguments.
fn values_of<'a>(alloc: Global, arguments: &[Argument<'a>]) -> Result<Vec<Value<'a>>, AllocError> {
    let mut values = Vec::new(alloc);
    for argument in arguments {
        values.push(argument.value)?;
    }
    Ok(values)
}

// Whether a block says with values at the places of names what it says with arguments.
fn are_said_alike<'v>(
    call: &mut Call,
    pattern: &PackedPattern<'_>,
    names: &'v [&'v [u8]],
    given: &[Argument<'_>],
    values: &'v [Value<'v>],
    cardinal: &PreparedRules<'_>,
    ordinal: &PreparedRules<'_>,
) -> bool {
    let placed = PlacedValues { names, values };
    let prepared = format_prepared(call.alloc, pattern, given, cardinal, ordinal);
    let by_place = format_by_place(call.alloc, pattern, placed, cardinal, ordinal);
    are_same(call, &prepared, &by_place)
}

// Whether two outcomes are the same, neither of which is want of memory.
fn are_same(
    call: &mut Call,
    said: &Result<Vec<u8>, FormatError<'_>>,
    other: &Result<Vec<u8>, FormatError<'_>>,
) -> bool {
    match (said, other) {
        (Ok(said), Ok(other)) => said.as_slice() == other.as_slice(),
        (Err(FormatError::Argument(a, name)), Err(FormatError::Argument(b, other))) => {
            a == b && name == other
        }
        (Err(FormatError::Memory), _) | (_, Err(FormatError::Memory)) => {
            call.out_of_memory();
            false
        }
        _ => false,
    }
}

// Prints an outcome.
pub fn print_outcome(call: &mut Call, outcome: Result<Vec<u8>, FormatError<'_>>) {
    match outcome {
        Ok(said) => call.print_quoted(shown(&said)),
        Err(FormatError::Argument(fault, name)) => {
            let _ = write!(call, "error {fault:?} ");
            call.print(shown(name));
        }
        Err(FormatError::Memory) => call.out_of_memory(),
    }
}

// Bytes as a text.
fn shown(bytes: &[u8]) -> &str {
    std::str::from_utf8(bytes).unwrap_or("?")
}
