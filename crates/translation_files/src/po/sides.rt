//! What was found of a message: its texts, and which argument is the number.

use crate::code::NoticeCode;
use crate::gathered::Gathered;
use crate::po::marked::{push_marked, push_plain};
use crate::po::mistakes::{argument_text, shown_argument};
use crate::po::read_text::Read;
use crate::po::source_number::{count_names, find_name, is_first, is_same_name};
use crate::po::text_format::TextFormat;
use crate::pushed::push;
use format_arguments::{Argument, Format, Name, stands_for};
use std::alloc::{AllocError, Global};
use std::fmt::Write;

// The texts of a message, and their arguments.
#[derive(Clone, Copy)]
pub(crate) struct Texts<'a, 'e> {
    pub(crate) format: TextFormat,
    pub(crate) singular: &'a Read<'e>,
    pub(crate) plural: &'a Read<'e>,
    pub(crate) forms: &'a [Read<'e>],
}

impl Texts<'_, '_> {
    // Whether mistakes are told: a flag names the format, and no sign in the source begins an argument
    // and is none.
    pub(crate) fn are_told(&self) -> bool {
        match self.format {
            TextFormat::Flagged(_) => {
                self.singular.fault.is_none() && self.plural.fault.is_none()
            }
            _ => false,
        }
    }

    // Whether each form has to have all arguments that have no name: Python fails where a text hasn't
    // as many as it is given. If the singular has others, the program gives it others.
    pub(crate) fn need_places(&self) -> bool {
        let is_python = matches!(self.format, TextFormat::Flagged(Format::Python));
        is_python && self.singular.items.len() == self.plural.items.len()
    }
}

// What was found of a message.
#[derive(Clone, Copy)]
pub(crate) struct Sides<'a, 'e> {
    pub(crate) texts: Texts<'a, 'e>,
    // The arguments of the plural that are some.
    pub(crate) kept: &'a [Argument<'e>],
    pub(crate) number: Option<Name<'e>>,
}

impl Sides<'_, '_> {
    // Whether an argument is the number.
    fn is_number(&self, argument: &Argument<'_>) -> bool {
        match &self.number {
            Some(number) => is_same_name(&argument.name, number),
            None => false,
        }
    }

    // Whether `{}` is put for an argument of a form: it is the number, and stands for that of the
    // source, or its other conversion is told.
    pub(crate) fn is_marked(&self, argument: &Argument<'_>) -> bool {
        self.is_number(argument) && (self.texts.are_told() || self.has(argument))
    }

    // Whether the source has an argument of a form.
    fn has(&self, argument: &Argument<'_>) -> bool {
        match find_name(self.kept, &argument.name) {
            Some(known) => stands_for(known, argument),
            None => false,
        }
    }
}

// Appends the texts of the forms, with `{}` for the number.
pub(crate) fn push_texts(
    alloc: Global,
    texts: &mut Vec<String>,
    sides: &Sides<'_, '_>,
) -> Result<(), AllocError> {
    for form in sides.texts.forms {
        push(texts, marked(alloc, form, sides)?)?;
    }
    Ok(())
}

// The text of a form, with `{}` for the number.
fn marked(alloc: Global, form: &Read<'_>, sides: &Sides<'_, '_>) -> Result<String, AllocError> {
    let mut text = String::new(alloc);
    match push_marked(&mut text, form, sides) {
        Ok(()) => Ok(text),
        Err(error) => Err(error),
    }
}

// Puts the arguments of the source, `{}` for the number, and what stands for the number there.
pub(crate) fn put_source(gathered: &mut Gathered, sides: &Sides<'_, '_>) {
    for it in sides.kept {
        let text = source_text(gathered.alloc, sides, it);
        gathered.put_argument(text);
    }
    let Some(number) = sides.number else {
        return;
    };
    if let Some(it) = find_name(sides.kept, &number) {
        gathered.put_placeholder(argument_text(sides.texts.plural, it));
    }
}

// The text of an argument of the source.
fn source_text(
    alloc: Global,
    sides: &Sides<'_, '_>,
    argument: &Argument<'_>,
) -> Result<String, AllocError> {
    if sides.is_number(argument) {
        return String::from_str(alloc, "{}");
    }
    let mut text = String::new(alloc);
    match push_plain(
        &mut text,
        argument_text(sides.texts.plural, argument).as_bytes(),
    ) {
        Ok(()) => Ok(text),
        Err(error) => Err(error),
    }
}

// Notes why the number isn't checked, if it isn't. Returns whether it isn't.
pub(crate) fn note_number(gathered: &mut Gathered, line: u64, sides: &Sides<'_, '_>) -> bool {
    let plural = sides.texts.plural;
    if let TextFormat::Unread = sides.texts.format {
        let text = "its format isn't read: the number isn't checked";
        gathered.note(Some(line), NoticeCode::FormatUnknown, text);
        return true;
    }
    if sides.number.is_some() || plural.items.is_empty() {
        return false;
    }
    if sides.kept.is_empty() {
        note_doubtful(gathered, line, plural);
    } else {
        note_unclear(gathered, line, plural, sides.kept);
    }
    true
}

// Notes that no form has the arguments of the plural, which may be none.
fn note_doubtful(gathered: &mut Gathered, line: u64, plural: &Read<'_>) {
    match texts_of(gathered.alloc, plural, plural.items.as_slice()) {
        Ok(texts) => gathered.note(
            Some(line),
            NoticeCode::NumberUnclear,
            format_args!(
                "no form has {texts}, and no flag says whether that is an argument: the number isn't checked"
            ),
        ),
        Err(_) => gathered.fail(),
    }
}

// Notes that it isn't clear which argument is the number.
fn note_unclear(gathered: &mut Gathered, line: u64, plural: &Read<'_>, kept: &[Argument<'_>]) {
    let which = if count_names(kept) == 1 {
        "whether"
    } else {
        "which of"
    };
    match texts_of(gathered.alloc, plural, kept) {
        Ok(texts) => gathered.note(
            Some(line),
            NoticeCode::NumberUnclear,
            format_args!("{which} {texts} is the number isn't clear: it isn't checked"),
        ),
        Err(_) => gathered.fail(),
    }
}

// The texts of arguments, of each name once.
fn texts_of(alloc: Global, read: &Read<'_>, items: &[Argument<'_>]) -> Result<String, AllocError> {
    let mut texts = String::new(alloc);
    match push_names(&mut texts, read, items) {
        Ok(()) => Ok(texts),
        Err(error) => Err(error),
    }
}

// Appends the texts of arguments, of each name once.
fn push_names(
    texts: &mut String,
    read: &Read<'_>,
    items: &[Argument<'_>],
) -> Result<(), AllocError> {
    for (index, it) in items.iter().enumerate() {
        if is_first(items, index, it) {
            let comma = if texts.is_empty() { "" } else { ", " };
            let shown = shown_argument(read, it);
            write!(texts, "{comma}{shown}")?;
        }
    }
    Ok(())
}
