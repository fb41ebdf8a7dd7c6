//! Arguments of texts by gettext's formats.

use format_arguments::{
    Argument, Arguments, Format, Name, arguments, has_number, number_of, stands_for,
};
use row_calls::call::Call;
use std::fmt::Write;

/// Makes the call of a kind of this file. Returns whether there is such a kind.
pub fn make(kind: &str, call: &mut Call) -> bool {
    match kind {
        "format_flag" => format_flag(call),
        "text_arguments" => text_arguments(call),
        "text_arguments_bytes" => text_arguments_bytes(call),
        "stands_for" => first_stands_for(call),
        "plural_number" => plural_number(call),
        "has_number" => translation_has_number(call),
        _ => return false,
    }
    true
}

// The format of a flag, and its flag.
fn format_flag(call: &mut Call) {
    let flag = call.text();
    match Format::from_flag(flag.as_bytes()) {
        Some(format) => {
            call.print_name(&format);
            call.print(" ");
            call.print(std::str::from_utf8(format.flag()).unwrap_or("?"));
        }
        None => call.print("none"),
    }
}

// The format of the next argument, which is a flag.
fn next_format(call: &mut Call) -> Format {
    let flag = call.text();
    match Format::from_flag(flag.as_bytes()) {
        Some(format) => format,
        None => {
            call.not("a flag");
            Format::C
        }
    }
}

// The arguments of a text, or of an empty one if memory runs out.
fn read<'t>(call: &mut Call, format: Format, text: &'t [u8]) -> Arguments<'t> {
    match arguments(call.alloc, format, text) {
        Ok(told) => told,
        Err(_) => {
            call.out_of_memory();
            Arguments {
                items: Vec::new(call.alloc),
                fault: None,
            }
        }
    }
}

// The arguments and the fault of a text.
fn text_arguments(call: &mut Call) {
    let format = next_format(call);
    let text = call.text();
    let told = read(call, format, text.as_bytes());
    print_arguments(call, &told);
}

// The same of bytes.
fn text_arguments_bytes(call: &mut Call) {
    let format = next_format(call);
    let bytes = call.bytes();
    let told = read(call, format, bytes.as_slice());
    print_arguments(call, &told);
}

fn print_arguments(call: &mut Call, told: &Arguments<'_>) {
    for argument in &told.items {
        call.separate("; ");
        print_argument(call, argument);
    }
    if let Some(place) = told.fault {
        call.separate("; ");
        let _ = write!(call, "fault {place}");
    }
    call.print_none_if_empty();
}

// Prints where an argument stands, its name, what it converts and its size.
fn print_argument(call: &mut Call, argument: &Argument<'_>) {
    let start = argument.start;
    let end = argument.end;
    let kind = argument.kind;
    let _ = write!(call, "{start}..{end} ");
    match argument.name {
        Name::Place(place) => {
            let _ = write!(call, "{place}");
        }
        Name::Word(word) => call.print_quoted(std::str::from_utf8(word).unwrap_or("?")),
    }
    let _ = write!(call, " {kind:?}");
    if !argument.size.is_empty() {
        call.print(" ");
        call.print(std::str::from_utf8(argument.size).unwrap_or("?"));
    }
}

// Whether the first argument of a translation stands for that of its source.
fn first_stands_for(call: &mut Call) {
    let format = next_format(call);
    let source = call.text();
    let translation = call.text();
    let source = read(call, format, source.as_bytes());
    let translation = read(call, format, translation.as_bytes());
    match (source.items.first(), translation.items.first()) {
        (Some(one), Some(other)) => call.print_truth(stands_for(one, other)),
        _ => call.print("none"),
    }
}

// The number of a text with plural forms and its singular.
fn plural_number(call: &mut Call) {
    let format = next_format(call);
    let plural = call.text();
    let singular = call.text();
    let plural = read(call, format, plural.as_bytes());
    let singular = read(call, format, singular.as_bytes());
    match number_of(&plural.items, &singular.items) {
        Some(number) => print_argument(call, &number),
        None => call.print("unclear"),
    }
}

// Whether a translation has the number of a text and its singular.
fn translation_has_number(call: &mut Call) {
    let format = next_format(call);
    let plural = call.text();
    let singular = call.text();
    let translation = call.text();
    let plural = read(call, format, plural.as_bytes());
    let singular = read(call, format, singular.as_bytes());
    let translation = read(call, format, translation.as_bytes());
    match number_of(&plural.items, &singular.items) {
        Some(number) => call.print_truth(has_number(&translation.items, &number)),
        None => call.print("unclear"),
    }
}
