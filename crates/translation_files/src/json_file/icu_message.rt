//! Patterns of ICU that are one plural argument with plain forms.

use crate::json_file::form_text::FormText;
use icu_plurals::PluralCategory;
use message_pattern::{ArgumentKind, Part, Piece, Selector};
use message_report::Form;
use std::alloc::{AllocError, Global};

// Such a pattern: whether its numbers are ordinal, the name of its argument, and the parts of its
// forms.
#[derive(Clone, Copy)]
pub(crate) struct IcuMessage<'p, 'a> {
    pub(crate) is_ordinal: bool,
    pub(crate) name: &'a [u8],
    pub(crate) parts: &'p [Part<'a>],
}

// The message of the parts of a pattern that are one plural argument with plain forms, and nothing
// besides; else none.
pub(crate) fn icu_message<'p, 'a>(parts: &'p [Part<'a>]) -> Option<IcuMessage<'p, 'a>> {
    let [first, inner @ .., last] = parts else {
        return None;
    };
    let Piece::End = last.piece else {
        return None;
    };
    match first.piece {
        Piece::Begin(ArgumentKind::Select, _, _) => None,
        Piece::Begin(kind, name, None) if are_plain(inner, name) => Some(IcuMessage {
            is_ordinal: kind == ArgumentKind::Ordinal,
            name,
            parts: inner,
        }),
        _ => None,
    }
}

// Whether parts are those of plain forms, each of which stands once.
fn are_plain(parts: &[Part<'_>], name: &[u8]) -> bool {
    for (index, part) in parts.iter().enumerate() {
        let before = parts.get(..index).unwrap_or(parts);
        if !is_plain(before, part.piece, name) {
            return false;
        }
    }
    true
}

// Whether a piece is of a plain form behind others.
fn is_plain(before: &[Part<'_>], piece: Piece<'_>, name: &[u8]) -> bool {
    match piece {
        Piece::Branch(selector) => match form_of(selector) {
            Some(form) => !has_form(before, form),
            None => false,
        },
        Piece::Text(_) | Piece::Hash => !before.is_empty(),
        Piece::Argument(other) => other == name && !before.is_empty(),
        _ => false,
    }
}

// Whether a form is among parts.
fn has_form(parts: &[Part<'_>], form: Form) -> bool {
    for part in parts {
        if form_begun(part) == Some(form) {
            return true;
        }
    }
    false
}

// The form that a part begins.
pub(crate) fn form_begun(part: &Part<'_>) -> Option<Form> {
    match part.piece {
        Piece::Branch(selector) => form_of(selector),
        _ => None,
    }
}

// The form that a selector names: of exactly 0 or 1, or of a category.
fn form_of(selector: Selector<'_>) -> Option<Form> {
    match selector {
        Selector::Exactly(b"0") => Some(Form::ExplicitZero),
        Selector::Exactly(b"1") => Some(Form::ExplicitOne),
        Selector::Exactly(_) => None,
        Selector::Keyword(name) => match PluralCategory::get_for_cldr_bytes(name) {
            Some(category) => Some(Form::Category(category)),
            None => None,
        },
    }
}

// How the number is written in the forms: as `#`, else as `{n}`; none if no form has it.
#[derive(Clone, Copy, PartialEq, Eq)]
pub(crate) enum Written {
    Hash,
    Argument,
    Nowhere,
}

impl IcuMessage<'_, '_> {
    // How the number is written.
    pub(crate) fn written(&self) -> Written {
        let mut written = Written::Nowhere;
        for part in self.parts {
            match part.piece {
                Piece::Hash => return Written::Hash,
                Piece::Argument(_) => written = Written::Argument,
                _ => (),
            }
        }
        written
    }
}

// The text of the form that begins before these parts.
pub(crate) fn form_text(alloc: Global, parts: &[Part<'_>]) -> Result<String, AllocError> {
    let mut text = FormText::new(alloc);
    match push_form(&mut text, parts) {
        Ok(()) => text.text(alloc),
        Err(error) => Err(error),
    }
}

// Appends the text of the form that begins before these parts.
fn push_form(text: &mut FormText, parts: &[Part<'_>]) -> Result<(), AllocError> {
    for part in parts {
        match part.piece {
            Piece::Text(bytes) => text.push_text(bytes)?,
            Piece::Hash | Piece::Argument(_) => text.push_number()?,
            _ => return Ok(()),
        }
    }
    Ok(())
}
