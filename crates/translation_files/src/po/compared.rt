//! The texts of a message beside its source.

use crate::code::NoticeCode;
use crate::gathered::Gathered;
use crate::po::measure::Measure;
use crate::po::message::{line_of, take_texts};
use crate::po::mistakes::{Compared, push_mistakes};
use crate::po::range::range_of;
use crate::po::read_text::{Read, has_too_many, read_text};
use crate::po::seconds::tell_seconds;
use crate::po::sides::{Sides, Texts, push_texts};
use crate::po::source_number::{is_same_name, number_in};
use crate::po::standing::{Standing, standing_of};
use crate::po::text_format::{TextFormat, format_of};
use crate::pushed::push;
use format_arguments::Argument;
use po_catalog::{Catalog, Entry, Text};
use std::alloc::{AllocError, Global};

// Takes the messages of a catalog that are whole, and tells those that stand twice.
pub(crate) fn take_messages(gathered: &mut Gathered, catalog: &Catalog, measure: Measure<'_>) {
    tell_seconds(gathered, catalog, measure.has_rules());
    for entry in catalog.entries.iter() {
        if let Standing::Whole = standing_of(entry) {
            take_in_range(gathered, entry, measure);
        }
    }
}

// Takes a message. If its flags have a range, no other number is shown in it, so that the rules of all
// numbers aren't its rules.
fn take_in_range(gathered: &mut Gathered, entry: &Entry, measure: Measure<'_>) {
    match (measure, range_of(entry)) {
        (Measure::Rules(forms), Some(range)) => {
            match forms.indices.within(gathered.alloc, range) {
                Ok(indices) => {
                    take_message(gathered, entry, Measure::Range(&indices));
                    drop(indices);
                }
                Err(_) => gathered.fail(),
            }
        }
        _ => take_message(gathered, entry, measure),
    }
}

// Takes a message, or tells why it is left out.
fn take_message(gathered: &mut Gathered, entry: &Entry, measure: Measure<'_>) {
    if let Some(indices) = measure.indices() {
        tell_too_many_forms(gathered, entry, indices.count);
    }
    if has_too_many_signs(entry) {
        return tell_too_many(gathered, entry, measure);
    }
    let mut reads = Vec::new(gathered.alloc);
    compare(gathered, entry, measure, &mut reads);
    drop(reads);
}

// Tells that a message has more forms than its catalog.
fn tell_too_many_forms(gathered: &mut Gathered, entry: &Entry, count: u64) {
    if entry.forms.len() as u64 <= count {
        return;
    }
    gathered.tell(
        line_of(entry, count as usize),
        NoticeCode::Indices,
        format_args!(
            "it has msgstr[{count}], and the file's nplurals is {count}: remove the form, or correct Plural-Forms"
        ),
    );
}

// Whether a text has more arguments than are read.
fn has_too_many_signs(entry: &Entry) -> bool {
    for it in entry.forms.iter() {
        if has_too_many(it.bytes.as_slice()) {
            return true;
        }
    }
    has_too_many(bytes_of(&entry.id)) || has_too_many(bytes_of(&entry.plural_id))
}

// The bytes of a text.
pub(crate) fn bytes_of(text: &Option<Text>) -> &[u8] {
    match text {
        Some(text) => text.bytes.as_slice(),
        None => b"",
    }
}

// Tells that a text has more arguments than are read. The message is left out, if it isn't counted
// already.
fn tell_too_many(gathered: &mut Gathered, entry: &Entry, measure: Measure<'_>) {
    let count = if measure.has_rules() { 1 } else { 0 };
    let text = "a text has more than 64 arguments: cut it";
    gathered.leave_out(count, Some(entry.line as u64), NoticeCode::TooMany, text);
}

// Reads the texts of a message, and compares the arguments of its forms with those of its source.
fn compare<'e>(
    gathered: &mut Gathered,
    entry: &'e Entry,
    measure: Measure<'_>,
    reads: &mut Vec<Read<'e>>,
) {
    let Ok(format) = format_of(gathered.alloc, entry) else {
        return gathered.fail();
    };
    let read = push_reads(gathered.alloc, reads, entry, format);
    gathered.keep(read);
    match reads.as_slice() {
        [singular, plural, forms @ ..] => {
            let texts = Texts {
                format,
                singular,
                plural,
                forms,
            };
            compare_texts(gathered, entry, measure, texts)
        }
        _ => (),
    }
}

// Reads the singular, the plural and the forms of a message.
fn push_reads<'e>(
    alloc: Global,
    reads: &mut Vec<Read<'e>>,
    entry: &'e Entry,
    format: TextFormat,
) -> Result<(), AllocError> {
    push_read(alloc, reads, bytes_of(&entry.id), format)?;
    push_read(alloc, reads, bytes_of(&entry.plural_id), format)?;
    for it in entry.forms.iter() {
        push_read(alloc, reads, it.bytes.as_slice(), format)?;
    }
    Ok(())
}

// Reads a text.
fn push_read<'e>(
    alloc: Global,
    reads: &mut Vec<Read<'e>>,
    text: &'e [u8],
    format: TextFormat,
) -> Result<(), AllocError> {
    match read_text(alloc, format, text) {
        Ok(read) => push(reads, read),
        Err(error) => Err(error),
    }
}

// Compares the texts of a message.
fn compare_texts(
    gathered: &mut Gathered,
    entry: &Entry,
    measure: Measure<'_>,
    texts: Texts<'_, '_>,
) {
    let mut kept = Vec::new(gathered.alloc);
    let pushed = push_kept(&mut kept, &texts);
    gathered.keep(pushed);
    compare_kept(gathered, entry, measure, texts, kept.as_slice());
    drop(kept);
}

// Appends the arguments of the plural that are some: without a flag, those that forms have, too.
// Others may be no arguments.
fn push_kept<'e>(kept: &mut Vec<Argument<'e>>, texts: &Texts<'_, 'e>) -> Result<(), AllocError> {
    let is_flagged = !matches!(texts.format, TextFormat::Unflagged);
    for it in texts.plural.items.iter() {
        if is_flagged || have_alike(texts.forms, it) {
            push(kept, *it)?;
        }
    }
    Ok(())
}

// Whether a form has an argument of this name that converts the same.
fn have_alike(forms: &[Read<'_>], argument: &Argument<'_>) -> bool {
    for form in forms {
        if has_alike(form, argument) {
            return true;
        }
    }
    false
}

// Whether this form has one.
fn has_alike(form: &Read<'_>, argument: &Argument<'_>) -> bool {
    for it in form.items.iter() {
        if is_same_name(&it.name, &argument.name) && it.kind == argument.kind {
            return true;
        }
    }
    false
}

// Compares the texts of a message, given the arguments of the plural that are some. A form needs the
// number, too, if that isn't checked by rules.
fn compare_kept<'e>(
    gathered: &mut Gathered,
    entry: &Entry,
    measure: Measure<'_>,
    texts: Texts<'_, 'e>,
    kept: &[Argument<'e>],
) {
    let number = number_in(kept, texts.plural, texts.singular);
    if texts.are_told() {
        let compared = Compared {
            singular: texts.singular,
            plural: texts.plural,
            number: if measure.has_rules() { number } else { None },
            needs_places: texts.need_places(),
        };
        tell_mistakes(gathered, entry, measure, &compared, texts.forms);
    }
    let sides = Sides {
        texts,
        kept,
        number,
    };
    take_sides(gathered, entry, measure, &sides);
}

// Tells what is wrong with the arguments of forms that have a text.
fn tell_mistakes(
    gathered: &mut Gathered,
    entry: &Entry,
    measure: Measure<'_>,
    compared: &Compared<'_, '_>,
    forms: &[Read<'_>],
) {
    for (index, form) in forms.iter().enumerate() {
        if !form.text.is_empty() {
            let mut wrong = String::new(gathered.alloc);
            let pushed = push_mistakes(&mut wrong, compared, form, measure.extent(index));
            gathered.keep(pushed);
            tell_wrong(gathered, entry, index, wrong.as_str());
        }
    }
}

// Tells what is wrong with a form, if something is.
fn tell_wrong(gathered: &mut Gathered, entry: &Entry, index: usize, wrong: &str) {
    if wrong.is_empty() {
        return;
    }
    gathered.tell(
        line_of(entry, index),
        NoticeCode::Arguments,
        format_args!("msgstr[{index}] {wrong}: write the arguments of msgid_plural"),
    );
}

// Takes what was found of a message.
fn take_sides(gathered: &mut Gathered, entry: &Entry, measure: Measure<'_>, sides: &Sides<'_, '_>) {
    let mut texts = Vec::new(gathered.alloc);
    let pushed = push_texts(gathered.alloc, &mut texts, sides);
    gathered.keep(pushed);
    take_texts(gathered, entry, sides, measure, texts.as_slice());
    drop(texts);
}
