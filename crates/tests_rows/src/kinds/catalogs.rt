//! Catalogs of gettext.

use po_catalog::{Catalog, Entry, Fault, Lines, ReadError, Text, first_flag, read_text};
use row_calls::call::Call;
use std::fmt::Write;

/// Makes the call of a kind of this file. Returns whether there is such a kind.
pub fn make(kind: &str, call: &mut Call) -> bool {
    match kind {
        "catalog" => catalog(call),
        "catalog_bytes" => catalog_bytes(call),
        "catalog_faults" => catalog_faults(call),
        "header_field" => header_field(call),
        "charset" => charset(call),
        "has_flag" => has_flag(call),
        "first_flag" => front_flag(call),
        "quoted_text" => quoted_text(call),
        "quoted_bytes" => quoted_bytes(call),
        "file_lines" => file_lines(call),
        _ => return false,
    }
    true
}

// The messages and the faults of a catalog.
fn catalog(call: &mut Call) {
    let text = call.text();
    print_catalog(call, text.as_bytes());
}

// The same of bytes.
fn catalog_bytes(call: &mut Call) {
    let bytes = call.bytes();
    print_catalog(call, bytes.as_slice());
}

fn print_catalog(call: &mut Call, bytes: &[u8]) {
    match Catalog::read(call.alloc, bytes) {
        Ok(catalog) => {
            for entry in &catalog.entries {
                print_entry(call, entry);
            }
            for fault in &catalog.faults {
                print_fault(call, *fault);
            }
            call.print_none_if_empty();
        }
        Err(_) => call.out_of_memory(),
    }
}

// Prints a message.
fn print_entry(call: &mut Call, entry: &Entry) {
    call.separate("; ");
    let line = entry.line;
    let _ = write!(call, "{line}");
    if entry.is_obsolete {
        call.print(" obsolete");
    }
    if entry.is_faulty {
        call.print(" faulty");
    }
    if entry.is_fuzzy() {
        call.print(" fuzzy");
    }
    if !entry.flags.is_empty() {
        call.print(" ");
        print_bytes(call, &entry.flags);
    }
    print_text(call, "context", &entry.context);
    print_text(call, "id", &entry.id);
    print_text(call, "plural", &entry.plural_id);
    for form in &entry.forms {
        print_field(call, "form", form);
    }
}

// Prints a text of a message, if it has it.
fn print_text(call: &mut Call, name: &str, text: &Option<Text>) {
    if let Some(text) = text {
        print_field(call, name, text);
    }
}

fn print_field(call: &mut Call, name: &str, text: &Text) {
    let line = text.line;
    let _ = write!(call, " {name}@{line} ");
    match text.as_str() {
        Some(text) => call.print_quoted(text),
        None => call.print_digits(&text.bytes),
    }
}

// Prints bytes that are a text.
fn print_bytes(call: &mut Call, bytes: &[u8]) {
    call.print(std::str::from_utf8(bytes).unwrap_or("?"));
}

// Prints the line of a fault, and its cause.
fn print_fault(call: &mut Call, fault: Fault) {
    call.separate("; ");
    let line = fault.line;
    let cause = fault.cause;
    let _ = write!(call, "error {line} {cause:?}");
}

// The texts of the faults of a catalog.
fn catalog_faults(call: &mut Call) {
    let text = call.text();
    match Catalog::read(call.alloc, text.as_bytes()) {
        Ok(catalog) => {
            for fault in &catalog.faults {
                call.separate("; ");
                let line = fault.line;
                let cause = fault.cause;
                let _ = write!(call, "{line}: {cause}");
            }
            call.print_none_if_empty();
        }
        Err(_) => call.out_of_memory(),
    }
}

// The value of a field of the header.
fn header_field(call: &mut Call) {
    let text = call.text();
    let name = call.text();
    match Catalog::read(call.alloc, text.as_bytes()) {
        Ok(catalog) => print_value(call, catalog.header_field(name.as_bytes())),
        Err(_) => call.out_of_memory(),
    }
}

// The charset that the header names.
fn charset(call: &mut Call) {
    let text = call.text();
    match Catalog::read(call.alloc, text.as_bytes()) {
        Ok(catalog) => print_value(call, catalog.charset()),
        Err(_) => call.out_of_memory(),
    }
}

// Prints bytes between quotes, or `none`.
fn print_value(call: &mut Call, value: Option<&[u8]>) {
    match value {
        Some(value) => call.print_quoted(std::str::from_utf8(value).unwrap_or("?")),
        None => call.print("none"),
    }
}

// Whether the first message has a flag.
fn has_flag(call: &mut Call) {
    let text = call.text();
    let name = call.text();
    match Catalog::read(call.alloc, text.as_bytes()) {
        Ok(catalog) => match catalog.entries.first() {
            Some(entry) => call.print_truth(entry.has_flag(name.as_bytes())),
            None => call.print("none"),
        },
        Err(_) => call.out_of_memory(),
    }
}

// The first flag of a text, and what follows it.
fn front_flag(call: &mut Call) {
    let text = call.text();
    let (flag, rest) = first_flag(text.as_bytes());
    print_two(call, flag, rest);
}

// Prints bytes, and what follows them.
fn print_two(call: &mut Call, bytes: &[u8], rest: &[u8]) {
    print_value(call, Some(bytes));
    call.print(" then ");
    print_value(call, Some(rest));
}

// What a text says behind its first quotation mark, and what follows its last one.
fn quoted_text(call: &mut Call) {
    let line = call.text();
    match read_text(call.alloc, line.as_bytes()) {
        Ok((text, rest)) => print_two(call, text.as_slice(), rest),
        Err(ReadError::Fault(cause)) => call.print_error(&cause),
        Err(ReadError::Memory) => call.out_of_memory(),
    }
}

// The bytes that a text says behind its first quotation mark.
fn quoted_bytes(call: &mut Call) {
    let line = call.text();
    match read_text(call.alloc, line.as_bytes()) {
        Ok((text, _)) => call.print_digits(text.as_slice()),
        Err(ReadError::Fault(cause)) => call.print_error(&cause),
        Err(ReadError::Memory) => call.out_of_memory(),
    }
}

// The lines of a file, with their numbers.
fn file_lines(call: &mut Call) {
    let text = call.text();
    let mut lines = Lines::of(text.as_bytes());
    for _ in 0..=text.len() {
        let Some(line) = lines.next_line() else {
            return;
        };
        call.separate(" ");
        let number = line.number;
        let _ = write!(call, "{number}:");
        print_value(call, Some(line.bytes));
    }
}
