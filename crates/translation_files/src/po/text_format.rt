//! The format of a message's texts.

use crate::po::compared::bytes_of;
use crate::po::read_text::{Read, read_text};
use crate::po::source_number::number_in;
use format_arguments::Format;
use po_catalog::Entry;
use std::alloc::{AllocError, Global};
use std::str;

// The format of a message's texts.
#[derive(Clone, Copy)]
pub(crate) enum TextFormat {
    // The one that a flag names.
    Flagged(Format),
    // No flag names one: what looks like an argument of some format may be none.
    Unflagged,
    // A flag names one that isn't read.
    Unread,
}

// The formats by their flags, in the order of these.
const FORMATS: [Format; 11] = [
    Format::Boost,
    Format::C,
    Format::Java,
    Format::JavaScript,
    Format::Kde,
    Format::ObjectiveC,
    Format::PerlBrace,
    Format::PythonBrace,
    Format::Python,
    Format::Qt,
    Format::QtPlural,
];

// Further flags, and the formats whose directives texts of these have.
const ALIKE: [(&str, Format); 3] = [
    ("kde-kuit-format", Format::Kde),
    ("perl-format", Format::C),
    ("tcl-format", Format::C),
];

// The format that a message's flags name: of several the first one in which the number is clear, else
// the first one.
pub(crate) fn format_of(alloc: Global, entry: &Entry) -> Result<TextFormat, AllocError> {
    let found = match flagged(alloc, entry) {
        Ok(found) => found.or(alike(entry)),
        Err(error) => return Err(error),
    };
    Ok(match found {
        Some(format) => TextFormat::Flagged(format),
        None if names_other(entry) => TextFormat::Unread,
        None => TextFormat::Unflagged,
    })
}

// The format that is flagged.
fn flagged(alloc: Global, entry: &Entry) -> Result<Option<Format>, AllocError> {
    let (first, count) = flagged_formats(entry);
    if count < 2 {
        return Ok(first);
    }
    for format in FORMATS {
        if entry.has_flag(format.flag()) {
            let format = with_plurals(format);
            let is_clear = has_number(alloc, format, entry)?;
            if is_clear {
                return Ok(Some(format));
            }
        }
    }
    Ok(first)
}

// The first format that is flagged, and how many are.
fn flagged_formats(entry: &Entry) -> (Option<Format>, usize) {
    let mut first = None;
    let mut count = 0usize;
    for format in FORMATS {
        if entry.has_flag(format.flag()) {
            first = first.or(Some(with_plurals(format)));
            count = count.saturating_add(1);
        }
    }
    (first, count)
}

// Whether the plural of a message has a number in a format, and no fault.
fn has_number(alloc: Global, format: Format, entry: &Entry) -> Result<bool, AllocError> {
    match read_text(alloc, TextFormat::Flagged(format), bytes_of(&entry.id)) {
        Ok(singular) => {
            let has_number = has_number_beside(alloc, format, entry, &singular);
            drop(singular);
            has_number
        }
        Err(error) => Err(error),
    }
}

// The same, given the singular.
fn has_number_beside<'e>(
    alloc: Global,
    format: Format,
    entry: &'e Entry,
    singular: &Read<'e>,
) -> Result<bool, AllocError> {
    match read_text(
        alloc,
        TextFormat::Flagged(format),
        bytes_of(&entry.plural_id),
    ) {
        Ok(plural) => {
            let number = number_in(plural.items.as_slice(), &plural, singular);
            let is_clear = plural.fault.is_none() && number.is_some();
            drop(plural);
            Ok(is_clear)
        }
        Err(error) => Err(error),
    }
}

// The format that is like one that is flagged.
fn alike(entry: &Entry) -> Option<Format> {
    for (flag, format) in ALIKE {
        if entry.has_flag(flag.as_bytes()) {
            return Some(format);
        }
    }
    None
}

// Whether a flag names some format.
fn names_other(entry: &Entry) -> bool {
    let flags = str::from_utf8(entry.flags.as_slice()).unwrap_or("");
    for flag in flags.split(',') {
        if names_format(flag) {
            return true;
        }
    }
    false
}

// A format where texts have plural forms: Qt's tools write one flag for all messages.
fn with_plurals(format: Format) -> Format {
    match format {
        Format::Qt => Format::QtPlural,
        _ => format,
    }
}

// Whether a flag names a format.
fn names_format(flag: &str) -> bool {
    flag.ends_with("-format")
        && !(flag.starts_with("no-")
            || flag.starts_with("possible-")
            || flag.starts_with("impossible-"))
}
