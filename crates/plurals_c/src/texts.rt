//! Elements and messages, and whether a text is a rule.

ghost use Rattle.plural_exports.specs.GivenDocuments.{AreElementsIn};
ghost use Rattle.plural_exports.specs.GivenElements.{AreElementsFrom, eight};
ghost use Rattle.plural_exports.specs.NumberAnswers.{IsElementOf, IsMessageFor, truth_number};
ghost use Rattle.plural_exports.specs.Results.{Answered, Written};
ghost use Rattle.plural_exports.specs.GivenTexts.{IsWholeness};

use std::alloc::Global;

/// Returns 1 if a text is a rule as a whole, as CLDR writes it, samples included, else 0: then a
/// part of it isn't read, or it is no rule ([`plurals_rules_from_texts`] tells why). A text that
/// people wrote is asked here first: of `n = 1 x` the others read `n = 1`, and leave the rest.
///
/// The only fault is out of memory, -1. It allocates for the rule.
#[unsafe(no_mangle)]
pub extern "C" fn plurals_is_read_whole(alloc: Global, text: &[u8]) -> i32
    ensures { Answered (IsWholeness text.now) truth_number result }
{
    plural_exports::is_read_whole(alloc, text)
}

/// Writes the packed bytes of the elements of a JSON text. The result is how many they are; if the
/// buffer is shorter, nothing is written.
///
/// A fault is negative, and then nothing is written: no JSON text, else no elements, or elements
/// that can't be packed. It allocates.
#[unsafe(no_mangle)]
pub extern "C" fn plurals_elements_from_json(alloc: Global, json: &[u8], out: &mut [u8]) -> i64
    ensures { Written (AreElementsIn json.now) out.old out.new result }
{
    plural_exports::elements_from_json(alloc, json, out)
}

/// Writes the packed bytes of the elements of eight texts; of these only that of other is an
/// element if it is empty. The result is how many bytes there are; if the buffer is shorter,
/// nothing is written.
///
/// A fault is negative, and then nothing is written: a text isn't UTF-8, else the elements can't be
/// packed. It allocates.
#[unsafe(no_mangle)]
pub extern "C" fn plurals_elements_from_texts(
    alloc: Global,
    other: &[u8],
    zero: &[u8],
    one: &[u8],
    two: &[u8],
    few: &[u8],
    many: &[u8],
    explicit_zero: &[u8],
    explicit_one: &[u8],
    out: &mut [u8],
) -> i64
    ensures { Written (AreElementsFrom (eight other.now zero.now one.now two.now few.now many.now explicit_zero.now explicit_one.now)) out.old out.new result }
{
    plural_exports::elements_from_texts(
        alloc,
        other,
        zero,
        one,
        two,
        few,
        many,
        explicit_zero,
        explicit_one,
        out,
    )
}

/// Writes the text of the element that a number chooses under the rules. The result is how many
/// bytes it has; if the buffer is shorter, nothing is written. The number is a text that writes a
/// decimal, with a compact exponent or not.
///
/// A fault is negative, and then nothing is written: one of the rules, else of the elements, else
/// of the number. It allocates for a number of more than 16 bytes.
#[unsafe(no_mangle)]
pub extern "C" fn plurals_element(
    alloc: Global,
    rules: &[u8],
    elements: &[u8],
    number: &[u8],
    out: &mut [u8],
) -> i64
    ensures { Written (IsElementOf rules.now elements.now number.now) out.old out.new result }
{
    plural_exports::element(alloc, rules, elements, number, out)
}

/// Writes the text of the element that a number chooses under the rules, with the number's text in
/// the place of each `{}`. The result is how many bytes the message has; if the buffer is shorter,
/// nothing is written. The number is a text that writes a decimal, with a compact exponent or not.
///
/// A fault is negative, and then nothing is written: one of the rules, else of the elements, else
/// of the number. It allocates for a number of more than 16 bytes alone: the message is written in
/// place. One of 2^63 bytes or more, which needs elements that no memory holds, is told as out of
/// memory.
#[unsafe(no_mangle)]
pub extern "C" fn plurals_message(
    alloc: Global,
    rules: &[u8],
    elements: &[u8],
    number: &[u8],
    out: &mut [u8],
) -> i64
    ensures { Written (IsMessageFor rules.now elements.now number.now) out.old out.new result }
{
    plural_exports::message(alloc, rules, elements, number, out)
}
