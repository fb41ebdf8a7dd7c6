//! The message of a number.

ghost use Rattle.plural_exports.specs.Inner.GivenResults.{GivesWritten};
ghost use Rattle.plural_exports.specs.Inner.UnderRules.{IsMessageUnder};
ghost use Rattle.plural_exports.specs.NumberAnswers.{IsMessageFor};
ghost use Rattle.plural_exports.specs.Results.{Written};

use crate::fault::Fault;
use crate::given::{elements_in, number_of, rules_in, text_in};
use icu_plurals::PluralRules;
use plural_message::Message;
use std::alloc::Global;

// The longest message whose length an export can tell. No block of memory is longer.
const MOST_BYTES: usize = 9_223_372_036_854_775_807;

/// Writes the text of the element that a number chooses under the rules, with the number's text in
/// the place of each `{}`. The result is how many bytes the message has; if the buffer is shorter,
/// nothing is written. The number is a text that writes a decimal, with a compact exponent or not.
///
/// A fault is negative, and then nothing is written: one of the rules, else of the elements, else
/// of the number. It allocates for a number of more than 16 bytes alone: the message is written in
/// place. One of 2^63 bytes or more, which needs elements that no memory holds, is told as out of
/// memory.
pub fn message(alloc: Global, rules: &[u8], elements: &[u8], number: &[u8], out: &mut [u8]) -> i64
    ensures { Written (IsMessageFor rules.now elements.now number.now) out.old out.new result }
{
    match write_message(alloc, rules, elements, number, out) {
        Ok(length) => length,
        Err(fault) => i64::from(fault.number()),
    }
}

// Writes the message of the number, if it fits, and returns its length.
fn write_message(
    alloc: Global,
    rules: &[u8],
    elements: &[u8],
    number: &[u8],
    out: &mut [u8],
) -> Result<i64, Fault>
    ensures { GivesWritten (IsMessageFor rules.now elements.now number.now) out.old out.new result }
{
    match rules_in(rules) {
        Ok(rules) => write_under(alloc, &rules, elements, number, out),
        Err(fault) => Err(fault),
    }
}

// Writes the message that the number has under the rules, if it fits, and returns its length.
fn write_under(
    alloc: Global,
    rules: &PluralRules<'_>,
    elements: &[u8],
    number: &[u8],
    out: &mut [u8],
) -> Result<i64, Fault>
    ensures { GivesWritten (IsMessageUnder rules.now elements.now number.now) out.old out.new result }
{
    let message = Message::new(elements_in(elements)?);
    let text = text_in(number)?;
    let number = number_of(alloc, text)?;
    let length = message.format_number_into(&number, text, rules, out);
    if length <= MOST_BYTES {
        Ok(length as i64)
    } else {
        Err(Fault::Memory)
    }
}
