//! Apostrophes in patterns: one before a brace quotes what follows, and two are one.

use crate::locale_name::text_of;
use std::alloc::{AllocError, Global};

// Which apostrophes are meant to stand for themselves.
#[derive(Clone, Copy, PartialEq, Eq)]
pub(crate) enum Meant {
    All,
    // Those behind a letter and before an argument, as in `L'{name}`.
    BehindLetters,
}

// A text in which these apostrophes stand twice.
pub(crate) fn with_doubled(alloc: Global, text: &str, meant: Meant) -> Result<String, AllocError> {
    let mut made = String::new(alloc);
    match push_doubled(&mut made, text, meant) {
        Ok(()) => Ok(made),
        Err(error) => Err(error),
    }
}

// Appends a text in which these apostrophes stand twice.
fn push_doubled(made: &mut String, text: &str, meant: Meant) -> Result<(), AllocError> {
    let mut before: Option<&str> = None;
    for piece in text.split('\'') {
        if let Some(before) = before {
            let is_meant = meant == Meant::All || quoted_name(before, piece).is_some();
            made.push_str(if is_meant { "''" } else { "'" })?;
        }
        made.push_str(piece)?;
        before = Some(piece);
    }
    Ok(())
}

// The name of the first argument that an apostrophe behind a letter quotes: `name` of `L'{name}`.
pub(crate) fn first_quoted(text: &str) -> Option<&str> {
    let mut before: Option<&str> = None;
    // Whether what stands before an apostrophe is quoted, and whether it is the second of two.
    let mut is_quoted = false;
    let mut is_second = false;
    for piece in text.split('\'') {
        if is_second || before.is_none() {
            is_second = false;
        } else if piece.is_empty() {
            is_second = true;
        } else if is_quoted {
            is_quoted = false;
        } else {
            let name = quoted_name(before.unwrap_or(""), piece);
            if name.is_some() {
                return name;
            }
            is_quoted = piece.starts_with("{") || piece.starts_with("}");
        }
        before = Some(piece);
    }
    None
}

// The name of the argument that begins a text, if a letter is before the apostrophe before it.
fn quoted_name<'t>(before: &str, text: &'t str) -> Option<&'t str> {
    let last = before.as_bytes().last().copied()?;
    if !last.is_ascii_alphabetic() {
        return None;
    }
    let (argument, _) = text.strip_prefix('{')?.split_once('}')?;
    let (name, _) = argument.split_once(',').unwrap_or((argument, ""));
    let name = name.as_bytes().trim_ascii();
    if name.is_empty() || !are_of_name(name) {
        return None;
    }
    Some(text_of(name))
}

// Whether bytes may name an argument.
fn are_of_name(bytes: &[u8]) -> bool {
    for it in bytes {
        if !it.is_ascii_alphanumeric() && *it != b'_' {
            return false;
        }
    }
    true
}
