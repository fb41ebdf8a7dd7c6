//! The message of an ICU pattern: its forms, or the pattern as it is.

use crate::code::NoticeCode;
use crate::counts::Fate;
use crate::gathered::{Gathered, MessageHead};
use crate::json_file::apostrophes::{Meant, first_quoted, with_doubled};
use crate::json_file::arb_text::arb_text;
use crate::json_file::argument_head::{WrongHead, wrong_head};
use crate::json_file::icu_message::{IcuMessage, Written, form_begun, form_text, icu_message};
use crate::json_file::icu_scan::has_plural;
use crate::json_file::spoken_categories::Spoken;
use crate::json_file::texts::JsonText;
use crate::lines::MessageKind;
use crate::locale_name::text_of;
use message_pattern::{Part, Pattern, PatternError};
use plural_documents::printed_name;
use std::alloc::AllocError;

// Adds the message of a pattern in a line, as it is meant: one of ARB as Flutter takes it in the
// language, another one without apostrophes that quote an argument behind a letter, which are told.
// One whose heads of plurals are all written wrong is left out.
pub(crate) fn add_pattern_message(
    gathered: &mut Gathered,
    key: &str,
    text: JsonText<'_>,
    arb: Option<Spoken>,
) {
    if let Some(head) = wrong_head(text.text) {
        tell_head(gathered, key, text.line, head);
        if !has_plural(text.text) {
            return gathered.count(Fate::LeftOut, 1);
        }
    }
    let meant = match arb {
        Some(spoken) => arb_text(gathered.alloc, text.text, spoken),
        None => unquoted_text(gathered, key, text),
    };
    match meant {
        Ok(Some(meant)) => add_meant(gathered, key, meant.as_str(), text.line),
        Ok(None) => add_meant(gathered, key, text.text, text.line),
        Err(_) => gathered.fail(),
    }
}

// Tells the head of an argument that is written wrong.
fn tell_head(gathered: &mut Gathered, key: &str, line: u64, head: WrongHead<'_>) {
    let shown = printed_name(key);
    let written = printed_name(text_of(head.written));
    let (name, meant) = (printed_name(text_of(head.name)), head.meant);
    gathered.tell(
        Some(line),
        NoticeCode::Syntax,
        format_args!("'{shown}' has {written}: write {{{name}, {meant},"),
    );
}

// The text of a pattern without apostrophes that quote an argument behind a letter, which are told;
// none, if there are none.
fn unquoted_text(
    gathered: &mut Gathered,
    key: &str,
    text: JsonText<'_>,
) -> Result<Option<String>, AllocError> {
    let Some(name) = first_quoted(text.text) else {
        return Ok(None);
    };
    let (shown, name) = (printed_name(key), printed_name(name));
    gathered.tell(
        Some(text.line),
        NoticeCode::Arguments,
        format_args!(
            "'{shown}' has an apostrophe before {{{name}}}, which quotes it: write two apostrophes"
        ),
    );
    match with_doubled(gathered.alloc, text.text, Meant::BehindLetters) {
        Ok(doubled) => Ok(Some(doubled)),
        Err(error) => Err(error),
    }
}

// Adds the message of a pattern in a line: its forms, if it is one plural argument with plain forms
// and nothing besides but white space, else the text as it is.
fn add_meant(gathered: &mut Gathered, key: &str, text: &str, line: u64) {
    match Pattern::parse(gathered.alloc, text.as_bytes().trim_ascii()) {
        Ok(pattern) => add_parts(gathered, key, text, line, pattern.parts()),
        Err(PatternError::Memory) => gathered.fail(),
        Err(PatternError::Fault(_, _)) => add_text(gathered, key, text, line),
    }
}

// Adds the message of a pattern that has these parts.
fn add_parts(gathered: &mut Gathered, key: &str, text: &str, line: u64, parts: &[Part<'_>]) {
    match icu_message(parts) {
        Some(found) => add_forms(gathered, key, line, &found),
        None => add_text(gathered, key, text, line),
    }
}

// Adds a pattern as it is.
fn add_text(gathered: &mut Gathered, key: &str, text: &str, line: u64) {
    let kind = MessageKind::Pattern;
    let head = MessageHead { kind, key, line };
    if gathered.is_twice(head) {
        return;
    }
    gathered.add_pattern(head, text);
    gathered.count(Fate::Checked, 1);
}

// Adds the message of one plural argument.
fn add_forms(gathered: &mut Gathered, key: &str, line: u64, found: &IcuMessage<'_, '_>) {
    let kind = if found.is_ordinal {
        MessageKind::Ordinal
    } else {
        MessageKind::Cardinal
    };
    let head = MessageHead { kind, key, line };
    if gathered.is_twice(head) {
        return;
    }
    let written = found.written();
    put_forms(gathered, found.parts);
    put_placeholder(gathered, found.name, written);
    gathered.end(head, written == Written::Nowhere);
    gathered.count(Fate::Checked, 1);
}

// Puts the forms of these parts.
fn put_forms(gathered: &mut Gathered, parts: &[Part<'_>]) {
    for (index, part) in parts.iter().enumerate() {
        if let Some(form) = form_begun(part) {
            let behind = parts.get(index.saturating_add(1)..).unwrap_or(&[]);
            let text = form_text(gathered.alloc, behind);
            gathered.put_form(form, text);
        }
    }
}

// Puts how the number is written: `#`, unless the forms have it as `{n}` alone.
fn put_placeholder(gathered: &mut Gathered, name: &[u8], written: Written) {
    if written != Written::Argument {
        return gathered.put_placeholder("#");
    }
    match String::from_utf8_lossy(gathered.alloc, name) {
        Ok(name) => gathered.put_placeholder(format_args!("{{{name}}}")),
        Err(_) => gathered.fail(),
    }
}
