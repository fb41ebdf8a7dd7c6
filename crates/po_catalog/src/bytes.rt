//! White space, words and flags, and what stands before a byte.

ghost use Rattle.std.specs.Prelude.{◌≡◌, ◌≤◌, ◌<◌, ◌+◌, ◌++◌, length, flat_map, IfSome, OnOk};
ghost use Rattle.std.specs.Str.{is_utf8};
ghost use Rattle.po_catalog.specs.Drafts.{with_comma};
ghost use Rattle.po_catalog.specs.FileLines.{cut_at};
ghost use Rattle.po_catalog.specs.PoBytes.{message_flags_of, behind_flag, behind_catalog_run, first_flag, is_between_flags, is_of_keyword, is_white, catalog_run_front};
ghost use Rattle.po_catalog.specs.Inner.LineViews.{is_in_catalog_class, cut_view};

use std::alloc::AllocError;
use std::str;

// A class of bytes.
#[derive(Clone, Copy)]
pub(crate) enum Class {
    White,
    Word,
    BetweenFlags,
    Flag,
}

#[inline(always)]
fn is_white(byte: u8) -> bool
    ensures { result ≡ is_white byte }
{
    byte == b' ' || 9 <= byte && byte <= 13
}

#[inline(always)]
fn is_of_word(byte: u8) -> bool
    ensures { result ≡ is_of_keyword byte }
{
    b'a' <= byte && byte <= b'z'
        || byte == b'_'
        || b'A' <= byte && byte <= b'Z'
        || b'0' <= byte && byte <= b'9'
}

#[inline(always)]
fn is_between_flags(byte: u8) -> bool
    ensures { result ≡ is_between_flags byte }
{
    byte == b',' || is_white(byte)
}

#[inline(always)]
fn is_in(class: Class, byte: u8) -> bool
    ensures { result ≡ is_in_catalog_class class byte }
{
    match class {
        Class::White => is_white(byte),
        Class::Word => is_of_word(byte),
        Class::BetweenFlags => is_between_flags(byte),
        Class::Flag => !is_between_flags(byte),
    }
}

// What follows the longest front of the class.
#[inline(always)]
pub(crate) fn behind_run(class: Class, text: &[u8]) -> &[u8]
    ensures rest { result.now ≡ behind_catalog_run (is_in_catalog_class class) text.now }
    ensures shorter { length result.now ≤ length text.now }
{
    let mut rest = text;
    while let [first, after @ ..] = rest {
        if !is_in(class, *first) {
            return rest;
        }
        rest = after;
    }
    rest
}

// The longest front of the class, and what follows it.
#[inline(always)]
pub(crate) fn split_run(class: Class, text: &[u8]) -> (&[u8], &[u8])
    ensures front { result.0.now ≡ catalog_run_front (is_in_catalog_class class) text.now }
    ensures rest { result.1.now ≡ behind_catalog_run (is_in_catalog_class class) text.now }
    ensures whole { length result.0.now + length result.1.now ≡ length text.now }
{
    text.split_at(text.len() - behind_run(class, text).len())
}

// The bytes after the white space at the front.
#[inline(always)]
pub(crate) fn after_white(text: &[u8]) -> &[u8]
    ensures rest { result.now ≡ behind_catalog_run is_white text.now }
    ensures shorter { length result.now ≤ length text.now }
{
    behind_run(Class::White, text)
}

/// The first flag of [`Entry::flags`](crate::Entry::flags), and what follows it; an empty one if
/// there is none. Flags stand between commas and white space.
pub fn first_flag(flags: &[u8]) -> (&[u8], &[u8])
    ensures flag { result.0.now ≡ first_flag flags.now }
    ensures rest { result.1.now ≡ behind_flag flags.now }
    ensures shorter { length result.0.now + length result.1.now ≤ length flags.now }
{
    split_run(Class::Flag, behind_run(Class::BetweenFlags, flags))
}

// Adds the flags of a comment, with a comma behind each.
pub(crate) fn add_flags(flags: &mut Vec<u8>, comment: &[u8]) -> Result<(), AllocError>
    ensures { OnOk result (flags.new.items ≡ flags.old.items ++ flat_map with_comma (message_flags_of comment.now)) }
{
    let mut rest = comment;
    'words: loop {
        let (flag, after) = first_flag(rest);
        if flag.is_empty() {
            return Ok(());
        }
        flags.extend_from_slice(flag)?;
        flags.push(b',')?;
        rest = after;
    }
}

// What stands before the first such byte, and what stands behind it, if there is one.
#[tactic(auto, using(crate::proofs::Cuts::cut_later, crate::proofs::Cuts::cut_here, crate::proofs::Cuts::cut_nowhere))]
pub(crate) fn cut_at(byte: u8, text: &[u8]) -> (&[u8], Option<&[u8]>)
    ensures cut { cut_view result ≡ cut_at byte text.now }
    ensures shorter { IfSome result.1 (λ rest. length rest.now < length text.now) }
{
    for (place, here) in text.iter().enumerate() {
        if *here == byte {
            return (&text[..place], Some(&text[place + 1..]));
        }
    }
    (text, None)
}

// Whether the bytes are a text in UTF-8.
pub(crate) fn is_utf8(bytes: &[u8]) -> bool
    ensures { result ≡ is_utf8 bytes.now }
{
    str::from_utf8(bytes).is_ok()
}
