//! The message of Android's texts.

use crate::code::NoticeCode;
use crate::counts::Fate;
use crate::gathered::{Gathered, MessageHead};
use crate::json_file::android_arguments::{AndroidArgument, AndroidPiece, push_pieces};
use crate::json_file::android_number::{AndroidNumber, android_number, count_arguments};
use crate::json_file::empty_form::{note_empty, put_empty};
use crate::json_file::form_text::FormText;
use crate::locale_name::text_of;
use crate::pushed::push;
use icu_plurals::PluralCategory;
use message_report::Form;
use plural_documents::printed_name;
use std::alloc::{AllocError, Global};

// The most arguments of a text that are read.
const MOST_ARGUMENTS: usize = 100;

// A form of an Android message.
#[derive(Clone, Copy)]
pub(crate) struct AndroidText<'t> {
    pub(crate) category: PluralCategory,
    pub(crate) text: &'t str,
    pub(crate) line: u64,
}

// A form, taken apart.
#[derive(Drop)]
pub(crate) struct AndroidForm<'t> {
    category: PluralCategory,
    line: u64,
    pieces: Vec<AndroidPiece<'t>>,
}

// Appends a text, taken apart.
pub(crate) fn push_form<'t>(
    alloc: Global,
    forms: &mut Vec<AndroidForm<'t>>,
    text: AndroidText<'t>,
) -> Result<(), AllocError> {
    let mut pieces = Vec::new(alloc);
    match push_pieces(&mut pieces, text.text.as_bytes()) {
        Ok(()) => push(
            forms,
            AndroidForm {
                category: text.category,
                line: text.line,
                pieces,
            },
        ),
        Err(error) => Err(error),
    }
}

// Adds the message of forms, unless one has more arguments than are read.
pub(crate) fn add_android_message(
    gathered: &mut Gathered,
    head: MessageHead<'_>,
    forms: &[AndroidForm<'_>],
) {
    if have_too_many(forms) {
        return tell_too_many(gathered, head);
    }
    if gathered.is_twice(head) {
        return;
    }
    if have_no_text(forms) {
        return note_empty(gathered, head.key, head.line);
    }
    let longest = longest_of(forms);
    let singular = singular_of(forms).unwrap_or(longest);
    add_forms(
        gathered,
        head,
        forms,
        longest,
        android_number(longest, singular),
    );
}

// Whether a form has more arguments than are read.
fn have_too_many(forms: &[AndroidForm<'_>]) -> bool {
    for form in forms {
        if count_arguments(&form.pieces) > MOST_ARGUMENTS {
            return true;
        }
    }
    false
}

// Whether there are forms, and none has a text.
fn have_no_text(forms: &[AndroidForm<'_>]) -> bool {
    for form in forms {
        if !form.pieces.is_empty() {
            return false;
        }
    }
    !forms.is_empty()
}

// Tells that a text has more arguments than are read.
fn tell_too_many(gathered: &mut Gathered, head: MessageHead<'_>) {
    let shown = printed_name(head.key);
    gathered.leave_out(
        1,
        Some(head.line),
        NoticeCode::TooMany,
        format_args!("'{shown}' has a text with more than 100 arguments: cut it"),
    );
}

// The pieces of the form with the most arguments: of several, that of the last category.
fn longest_of<'f, 't>(forms: &'f [AndroidForm<'t>]) -> &'f [AndroidPiece<'t>] {
    let mut longest: &'f [AndroidPiece<'t>] = &[];
    let mut most: Option<(usize, PluralCategory)> = None;
    for form in forms {
        let size = (count_arguments(&form.pieces), form.category);
        if most.is_none() || Some(size) > most {
            most = Some(size);
            longest = form.pieces.as_slice();
        }
    }
    longest
}

// The pieces of the form of one.
fn singular_of<'f, 't>(forms: &'f [AndroidForm<'t>]) -> Option<&'f [AndroidPiece<'t>]> {
    for form in forms {
        if form.category == PluralCategory::One {
            return Some(form.pieces.as_slice());
        }
    }
    None
}

// Adds forms whose number is known, or not.
fn add_forms(
    gathered: &mut Gathered,
    head: MessageHead<'_>,
    forms: &[AndroidForm<'_>],
    longest: &[AndroidPiece<'_>],
    number: AndroidNumber<'_>,
) {
    for form in forms {
        if form.pieces.is_empty() {
            put_empty(gathered, head, Form::Category(form.category), form.line);
        } else {
            put_form(gathered, form, number);
        }
    }
    end(gathered, head, longest, number);
    match number {
        AndroidNumber::Unclear => note_unclear(gathered, head.line, longest),
        _ => gathered.count(Fate::Checked, 1),
    }
}

// Puts a form.
fn put_form(gathered: &mut Gathered, form: &AndroidForm<'_>, number: AndroidNumber<'_>) {
    let name = Form::Category(form.category);
    let text = marked(gathered.alloc, &form.pieces, number);
    gathered.put_form(name, text);
    gathered.put_line(name, form.line);
}

// A text with `{}` for its number.
fn marked(
    alloc: Global,
    pieces: &[AndroidPiece<'_>],
    number: AndroidNumber<'_>,
) -> Result<String, AllocError> {
    let mut text = FormText::new(alloc);
    match push_marked(&mut text, pieces, number) {
        Ok(()) => text.text(alloc),
        Err(error) => Err(error),
    }
}

// Appends a text with `{}` for its number.
fn push_marked(
    text: &mut FormText,
    pieces: &[AndroidPiece<'_>],
    number: AndroidNumber<'_>,
) -> Result<(), AllocError> {
    for piece in pieces {
        match *piece {
            AndroidPiece::Argument(argument) if is_number(&argument, number) => {
                text.push_number()?
            }
            AndroidPiece::Argument(argument) => text.push_text(argument.text)?,
            AndroidPiece::Text(bytes) => text.push_text(bytes)?,
        }
    }
    Ok(())
}

// Whether an argument is the number.
fn is_number(argument: &AndroidArgument<'_>, number: AndroidNumber<'_>) -> bool {
    match number {
        AndroidNumber::Known(known) => argument.is_same(&known),
        _ => false,
    }
}

// Ends the message, with what stands for the number, if that is known: then some form has it. Else
// with the arguments of the source.
fn end(
    gathered: &mut Gathered,
    head: MessageHead<'_>,
    longest: &[AndroidPiece<'_>],
    number: AndroidNumber<'_>,
) {
    if let AndroidNumber::Known(known) = number {
        gathered.put_placeholder(text_of(known.text));
        return gathered.end(head, false);
    }
    for piece in longest {
        if let AndroidPiece::Argument(argument) = piece {
            let text = String::from_str(gathered.alloc, text_of(argument.text));
            gathered.put_argument(text);
        }
    }
    gathered.end(head, true);
}

// Notes that it isn't clear which argument is the number, and counts the message.
fn note_unclear(gathered: &mut Gathered, line: u64, longest: &[AndroidPiece<'_>]) {
    let which = if count_arguments(longest) == 1 {
        "whether"
    } else {
        "which of"
    };
    let mut names = String::new(gathered.alloc);
    let pushed = push_names(&mut names, longest);
    gathered.keep(pushed);
    gathered.note(
        Some(line),
        NoticeCode::NumberUnclear,
        format_args!("{which} {names} is the number isn't clear: it isn't checked"),
    );
    gathered.count(Fate::Noted, 1);
}

// Appends the texts of arguments.
fn push_names(names: &mut String, pieces: &[AndroidPiece<'_>]) -> Result<(), AllocError> {
    for piece in pieces {
        if let AndroidPiece::Argument(argument) = piece {
            let comma = if names.is_empty() { "" } else { ", " };
            names.push_str(comma)?;
            names.push_str(text_of(argument.text))?;
        }
    }
    Ok(())
}
