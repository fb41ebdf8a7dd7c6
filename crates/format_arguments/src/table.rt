//! The formats' table: their flags, sizes and conversions.

ghost use Rattle.std.specs.Prelude.{◌≡◌};
ghost use Rattle.format_arguments.specs.DirectiveTables.{boost_kind, c_kind, flags_of, has_macros, has_stars, javascript_kind, kind_of, objective_c_kind, python_kind, silent_conversions, sizes_of, tells_sizes};

use crate::argument::Kind;
use crate::bytes::is_one_of;
use crate::format::Format;

// The bytes that may stand as flags.
pub(crate) fn flags_of(format: Format) -> &'static [u8]
    ensures { result.now ≡ flags_of format }
{
    match format {
        Format::C | Format::ObjectiveC => b"-+ #0'I",
        Format::Boost => b"-+ #0'_=",
        Format::Python => b"-+ #0",
        Format::JavaScript => b"-+ #0I",
        _ => b"",
    }
}

// The letters of which sizes are written.
pub(crate) fn sizes_of(format: Format) -> &'static [u8]
    ensures { result.now ≡ sizes_of format }
{
    match format {
        Format::C | Format::ObjectiveC | Format::Boost => b"hlLqjzZt",
        Format::Python => b"hlL",
        _ => b"",
    }
}

// Whether two sizes are two conversions.
pub(crate) fn tells_sizes(format: Format) -> bool
    ensures { result ≡ tells_sizes format }
{
    match format {
        Format::C | Format::ObjectiveC => true,
        _ => false,
    }
}

// Whether an argument may be a width.
pub(crate) fn has_stars(format: Format) -> bool
    ensures { result ≡ has_stars format }
{
    match format {
        Format::JavaScript => false,
        _ => true,
    }
}

// Whether there are macros for sizes.
pub(crate) fn has_macros(format: Format) -> bool
    ensures { result ≡ has_macros format }
{
    match format {
        Format::C | Format::ObjectiveC => true,
        _ => false,
    }
}

// The conversions that take no argument.
pub(crate) fn silent_conversions(format: Format) -> &'static [u8]
    ensures { result.now ≡ silent_conversions format }
{
    match format {
        Format::C | Format::ObjectiveC => b"%m",
        _ => b"%",
    }
}

// What a letter converts in C.
#[tactic(auto, unfolding(crate::specs::DirectiveTables::c_kind))]
pub(crate) fn c_kind(letter: u8) -> Option<Kind>
    ensures { result ≡ c_kind letter }
{
    if is_one_of(b"di", letter) {
        Some(Kind::Integer)
    } else if is_one_of(b"ouxX", letter) {
        Some(Kind::Unsigned)
    } else if is_one_of(b"eEfFgGaA", letter) {
        Some(Kind::Number)
    } else if is_one_of(b"cC", letter) {
        Some(Kind::Character)
    } else if is_one_of(b"sS", letter) {
        Some(Kind::Text)
    } else if is_one_of(b"pn", letter) {
        Some(Kind::Other(letter))
    } else {
        None
    }
}

// In Objective C.
#[tactic(auto, unfolding(crate::specs::DirectiveTables::objective_c_kind))]
fn objective_c_kind(letter: u8) -> Option<Kind>
    ensures { result ≡ objective_c_kind letter }
{
    if letter == b'@' {
        Some(Kind::Other(letter))
    } else {
        c_kind(letter)
    }
}

// In Python.
#[tactic(auto, unfolding(crate::specs::DirectiveTables::python_kind))]
fn python_kind(letter: u8) -> Option<Kind>
    ensures { result ≡ python_kind letter }
{
    if is_one_of(b"diouxX", letter) {
        Some(Kind::Integer)
    } else if is_one_of(b"eEfFgG", letter) {
        Some(Kind::Number)
    } else if letter == b'c' {
        Some(Kind::Character)
    } else if is_one_of(b"sra", letter) {
        Some(Kind::Text)
    } else {
        None
    }
}

// In JavaScript.
#[tactic(auto, unfolding(crate::specs::DirectiveTables::javascript_kind))]
fn javascript_kind(letter: u8) -> Option<Kind>
    ensures { result ≡ javascript_kind letter }
{
    if is_one_of(b"dboxX", letter) {
        Some(Kind::Integer)
    } else if letter == b'f' {
        Some(Kind::Number)
    } else if letter == b'c' {
        Some(Kind::Character)
    } else if letter == b's' {
        Some(Kind::Text)
    } else if letter == b'j' {
        Some(Kind::Other(letter))
    } else {
        None
    }
}

// In Boost.
#[tactic(auto, unfolding(crate::specs::DirectiveTables::boost_kind))]
fn boost_kind(letter: u8) -> Option<Kind>
    ensures { result ≡ boost_kind letter }
{
    if is_one_of(b"ouxX", letter) {
        Some(Kind::Integer)
    } else {
        c_kind(letter)
    }
}

// What a letter converts in the format.
pub(crate) fn kind_of(format: Format, letter: u8) -> Option<Kind>
    ensures { result ≡ kind_of format letter }
{
    match format {
        Format::ObjectiveC => objective_c_kind(letter),
        Format::Python => python_kind(letter),
        Format::JavaScript => javascript_kind(letter),
        Format::Boost => boost_kind(letter),
        _ => c_kind(letter),
    }
}
