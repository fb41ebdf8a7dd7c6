//! What is wrong with the arguments of a form.

use crate::po::measure::Extent;
use crate::po::read_text::{Read, directive};
use crate::po::source_number::{find_name, is_first, is_same_name};
use format_arguments::{Argument, Name, stands_for};
use plural_documents::{PrintedKey, printed_name};
use std::alloc::AllocError;
use std::fmt::Write;
use std::str;

// What a form is compared with.
#[derive(Clone, Copy)]
pub(crate) struct Compared<'a, 't> {
    pub(crate) singular: &'a Read<'t>,
    pub(crate) plural: &'a Read<'t>,
    // The number, if the rules tell whether a form needs it.
    pub(crate) number: Option<Name<'t>>,
    // Whether each form has to have all arguments that have no name, as Python's.
    pub(crate) needs_places: bool,
}

// The text of an argument, as it is written.
pub(crate) fn argument_text<'t>(read: &Read<'t>, argument: &Argument<'_>) -> &'t str {
    str::from_utf8(directive(read.text, argument)).unwrap_or("?")
}

// The text of an argument, as it is printed.
pub(crate) fn shown_argument<'t>(read: &Read<'t>, argument: &Argument<'_>) -> PrintedKey<'t> {
    printed_name(argument_text(read, argument))
}

impl<'a, 't> Compared<'a, 't> {
    // The argument of this name in the plural, else in the singular, and its text.
    fn known(&self, name: &Name<'_>) -> Option<(&'a Argument<'t>, &'a Read<'t>)> {
        if let Some(it) = find_name(self.plural.items.as_slice(), name) {
            return Some((it, self.plural));
        }
        let it = find_name(self.singular.items.as_slice(), name)?;
        Some((it, self.singular))
    }

    // Whether an argument is the number.
    fn is_number(&self, argument: &Argument<'_>) -> bool {
        match &self.number {
            Some(number) => is_same_name(number, &argument.name),
            None => false,
        }
    }

    // Whether a form of so many numbers has to have an argument. That of the number is the rules'
    // matter, but for a form of one number.
    fn is_needed(&self, argument: &Argument<'_>, extent: Extent) -> bool {
        let is_number = self.is_number(argument);
        if extent == Extent::Many {
            return !is_number;
        }
        match argument.name {
            Name::Place(_) => self.needs_places && (extent == Extent::One || !is_number),
            Name::Word(_) => false,
        }
    }
}

// Appends what is wrong with the arguments of a form of so many numbers. Nothing if all is right.
pub(crate) fn push_mistakes(
    wrong: &mut String,
    compared: &Compared<'_, '_>,
    form: &Read<'_>,
    extent: Extent,
) -> Result<(), AllocError> {
    if let Some(fault) = form.fault {
        wrong.push_str(fault_text(form.text.get(fault).copied()))?;
    }
    let items = form.items.as_slice();
    for (index, it) in items.iter().enumerate() {
        if is_first(items, index, it) {
            push_foreign(wrong, compared, form, it)?;
        }
    }
    push_all_lacking(wrong, compared, form, extent)
}

// Appends which arguments of the source the form lacks, of those that it has to have.
fn push_all_lacking(
    wrong: &mut String,
    compared: &Compared<'_, '_>,
    form: &Read<'_>,
    extent: Extent,
) -> Result<(), AllocError> {
    let items = compared.plural.items.as_slice();
    for (index, it) in items.iter().enumerate() {
        if is_first(items, index, it) && compared.is_needed(it, extent) {
            push_lacking(wrong, compared, form, it)?;
        }
    }
    Ok(())
}

// What stands before the next thing that is wrong.
fn joint(wrong: &str) -> &'static str {
    if wrong.is_empty() { "" } else { " and " }
}

// What is wrong with a sign that begins no argument.
fn fault_text(byte: Option<u8>) -> &'static str {
    match byte {
        Some(b'{') => "has a { that begins no argument",
        Some(b'}') => "has a } that ends no argument",
        _ => "has a % that begins no argument (the sign itself is %%)",
    }
}

// Appends that the source hasn't an argument of the form, or has another one.
fn push_foreign(
    wrong: &mut String,
    compared: &Compared<'_, '_>,
    form: &Read<'_>,
    argument: &Argument<'_>,
) -> Result<(), AllocError> {
    let and = joint(wrong.as_str());
    let text = shown_argument(form, argument);
    match compared.known(&argument.name) {
        None => write!(wrong, "{and}has {text}, which msgid_plural hasn't"),
        Some((known, source)) if !stands_for(known, argument) => {
            let other = shown_argument(source, known);
            write!(wrong, "{and}has {text} where msgid_plural has {other}")
        }
        Some(_) => Ok(()),
    }
}

// Appends that the form lacks an argument of the source.
fn push_lacking(
    wrong: &mut String,
    compared: &Compared<'_, '_>,
    form: &Read<'_>,
    argument: &Argument<'_>,
) -> Result<(), AllocError> {
    if find_name(form.items.as_slice(), &argument.name).is_some() {
        return Ok(());
    }
    let and = joint(wrong.as_str());
    let text = shown_argument(compared.plural, argument);
    write!(wrong, "{and}lacks {text}")
}
