//! The messages of a catalog, compared and put into the document.

use crate::code::NoticeCode;
use crate::counts::Fate;
use crate::gathered::{Gathered, MessageHead};
use crate::lines::MessageKind;
use crate::po::lacking::tell_lacking;
use crate::po::laid::FormIndex;
use crate::po::measure::{Forms, Measure};
use crate::po::sides::{Sides, note_number, put_source};
use message_report::Form;
use po_catalog::{Entry, Text};
use std::alloc::{AllocError, Global};

// Takes a message, given its texts with `{}` for the number: tells the form that is missing, and those
// that lack the number, and puts it into the document, if the rules are known.
pub(crate) fn take_texts(
    gathered: &mut Gathered,
    entry: &Entry,
    sides: &Sides<'_, '_>,
    measure: Measure<'_>,
    texts: &[String],
) {
    if let Some(indices) = measure.indices() {
        tell_missing(
            gathered,
            entry,
            texts,
            indices.times.as_slice(),
            measure.forms(),
        );
    }
    match measure {
        Measure::Rules(forms) => {
            tell_lacking(gathered, entry, sides, measure, texts);
            add(gathered, entry, sides, forms, texts);
        }
        Measure::Range(_) => {
            tell_lacking(gathered, entry, sides, measure, texts);
            count(gathered, entry.line as u64, sides);
        }
        _ => (),
    }
}

// Tells the first form that isn't there, or that numbers have and that has no text. A text that is
// missing and is the form of a category is told by the rules.
fn tell_missing(
    gathered: &mut Gathered,
    entry: &Entry,
    texts: &[String],
    times: &[u64],
    forms: &[FormIndex],
) {
    for (index, count) in times.iter().enumerate() {
        if *count == 0 && index >= entry.forms.len() {
            return tell_no_form(gathered, entry, index, times.len());
        }
        if *count > 0 && is_missing(texts, index as u64, forms) {
            return gathered.tell(
                line_of(entry, index),
                NoticeCode::NotTranslated,
                format_args!("msgstr[{index}] has no text: translate it"),
            );
        }
    }
}

// Tells that a message lacks a form, though no number has it: gettext wants each.
fn tell_no_form(gathered: &mut Gathered, entry: &Entry, index: usize, count: usize) {
    gathered.tell(
        line_of(entry, index),
        NoticeCode::Indices,
        format_args!(
            "it has no msgstr[{index}], and the file's nplurals is {count}: write the form, or correct Plural-Forms"
        ),
    );
}

// Whether the text at an index is missing, and is the form of no category.
fn is_missing(texts: &[String], index: u64, forms: &[FormIndex]) -> bool {
    text_at(texts, index).is_empty() && !has_category(forms, index)
}

// Whether one of these forms is that of a category, and has this index.
fn has_category(forms: &[FormIndex], index: u64) -> bool {
    for it in forms {
        if it.index == index && is_category(it.form) {
            return true;
        }
    }
    false
}

// Whether a form is that of a category.
fn is_category(form: Form) -> bool {
    match form {
        Form::Category(_) => true,
        _ => false,
    }
}

// The line of a form, else that of its message.
pub(crate) fn line_of(entry: &Entry, index: usize) -> Option<u64> {
    match entry.forms.get(index) {
        Some(form) => Some(form.line as u64),
        None => Some(entry.line as u64),
    }
}

// Adds a message to the document.
fn add(
    gathered: &mut Gathered,
    entry: &Entry,
    sides: &Sides<'_, '_>,
    forms: Forms<'_>,
    texts: &[String],
) {
    match key_of(gathered.alloc, entry) {
        Ok(key) => {
            let head = MessageHead {
                kind: MessageKind::Cardinal,
                key: key.as_str(),
                line: entry.line as u64,
            };
            add_under(gathered, head, entry, sides, forms, texts);
            drop(key);
        }
        Err(_) => gathered.fail(),
    }
}

// Adds a message under its key, unless there is one.
fn add_under(
    gathered: &mut Gathered,
    head: MessageHead<'_>,
    entry: &Entry,
    sides: &Sides<'_, '_>,
    forms: Forms<'_>,
    texts: &[String],
) {
    if gathered.is_twice(head) {
        return;
    }
    put_forms(gathered, forms, texts, sides.number.is_some());
    put_lines(gathered, entry, forms);
    put_source(gathered, sides);
    gathered.end(head, true);
    count(gathered, head.line, sides);
}

// Counts a message, and notes what of it isn't checked.
fn count(gathered: &mut Gathered, line: u64, sides: &Sides<'_, '_>) {
    let is_noted = note_number(gathered, line, sides);
    gathered.count(if is_noted { Fate::Noted } else { Fate::Checked }, 1);
}

// The key of a message: its context and its id, with a bar between them. A bar in a context is
// doubled, and one in an id without a context has one before the id, so that messages of two
// contexts have two keys.
pub(crate) fn key_of(alloc: Global, entry: &Entry) -> Result<String, AllocError> {
    let mut key = String::new(alloc);
    match push_key(&mut key, entry) {
        Ok(()) => Ok(key),
        Err(error) => Err(error),
    }
}

// Appends the key of a message.
fn push_key(key: &mut String, entry: &Entry) -> Result<(), AllocError> {
    let id = match &entry.id {
        Some(id) => str_of(id),
        None => "",
    };
    if let Some(context) = &entry.context {
        push_context(key, str_of(context))?;
        key.push('|')?;
    } else if id.contains('|') {
        key.push('|')?;
    }
    key.push_str(id)
}

// Appends a context.
fn push_context(key: &mut String, context: &str) -> Result<(), AllocError> {
    for letter in context.chars() {
        if letter == '|' {
            key.push('|')?;
        }
        key.push(letter)?;
    }
    Ok(())
}

// A text as it is, empty if it is none.
fn str_of(text: &Text) -> &str {
    text.as_str().unwrap_or("")
}

// Puts the texts of a message, which has a number or none, under the names of their forms. Where
// exactly 0 or 1 has a form of its own without a text, none is shown. A category that no number has
// takes the last text: gettext's numbers are whole.
fn put_forms(gathered: &mut Gathered, forms: Forms<'_>, texts: &[String], has_number: bool) {
    for it in forms.laid.forms.iter() {
        let text = text_of_form(texts, it, has_number);
        if it.is_second || !text.is_empty() || !is_category(it.form) {
            put_form(gathered, it.form, text);
        }
    }
    let last = last_text(texts);
    for category in forms.laid.unused.iter() {
        put_form(gathered, Form::Category(*category), last);
    }
}

// Puts a form with a text.
fn put_form(gathered: &mut Gathered, form: Form, text: &str) {
    let text = String::from_str(gathered.alloc, text);
    gathered.put_form(form, text);
}

// The text of a form. Of one whose index a larger category has, nothing is told: it has the number.
fn text_of_form<'a>(texts: &'a [String], form: &FormIndex, has_number: bool) -> &'a str {
    let text = text_at(texts, form.index);
    if form.is_second && has_number && !text.contains("{}") {
        "{}"
    } else {
        text
    }
}

// The text at an index, empty if there is none.
fn text_at(texts: &[String], index: u64) -> &str {
    match texts.get(index as usize) {
        Some(text) => text.as_str(),
        None => "",
    }
}

// The last text that isn't empty.
fn last_text(texts: &[String]) -> &str {
    let mut last = "";
    for it in texts {
        if !it.is_empty() {
            last = it.as_str();
        }
    }
    last
}

// Puts the lines of the forms of a message.
fn put_lines(gathered: &mut Gathered, entry: &Entry, forms: Forms<'_>) {
    for it in forms.laid.forms.iter() {
        if let Some(text) = entry.forms.get(it.index as usize) {
            gathered.put_line(it.form, text.line as u64);
        }
    }
}
