//! Packed elements from eight texts.

ghost use Rattle.std.specs.Prelude.{◌≡◌};
ghost use Rattle.icu_plurals.specs.Elements.{each_by};
ghost use Rattle.icu_plurals.specs.PackedElements.{packed_of, plain_value};
ghost use Rattle.plural_exports.specs.GivenElements.{AreElementsFrom, ArePackedAs, CanBePacked, HasElementsFrom, eight};
ghost use Rattle.plural_exports.specs.Inner.GivenResults.{lent_eight, GivesSeen, kept_texts};
ghost use Rattle.plural_exports.specs.Results.{Written};

use crate::buffer::put;
use crate::fault::Fault;
use crate::given::text_in;
use crate::rules::{given, given_texts};
use icu_plurals::provider::PluralElementsPackedCow;
use icu_plurals::{ElementsPackError, Five, JsonError, PluralElements};
use std::alloc::Global;

/// Writes the packed bytes of the elements of eight texts; of these only that of other is an
/// element if it is empty. The result is how many bytes there are; if the buffer is shorter,
/// nothing is written.
///
/// A fault is negative, and then nothing is written: a text isn't UTF-8, else the elements can't be
/// packed. It allocates.
pub fn elements_from_texts(
    alloc: Global,
    other: &[u8],
    zero: &[u8],
    one: &[u8],
    two: &[u8],
    few: &[u8],
    many: &[u8],
    explicit_zero: &[u8],
    explicit_one: &[u8],
    out: &mut [u8],
) -> i64
    ensures { Written (AreElementsFrom (eight other.now zero.now one.now two.now few.now many.now explicit_zero.now explicit_one.now)) out.old out.new result }
{
    let five = Five {
        zero,
        one,
        two,
        few,
        many,
    };
    let texts = EightTexts {
        other,
        five,
        explicit_zero,
        explicit_one,
    };
    match elements_of_texts(alloc, &texts) {
        Ok(elements) => put(elements.as_packed().as_bytes(), out),
        Err(fault) => i64::from(fault.number()),
    }
}

// The bytes of eight texts, by key.
#[derive(Clone, Copy)]
struct EightTexts<'a> {
    other: &'a [u8],
    five: Five<&'a [u8]>,
    explicit_zero: &'a [u8],
    explicit_one: &'a [u8],
}

// The packed elements of eight texts.
fn elements_of_texts(
    alloc: Global,
    texts: &EightTexts<'_>,
) -> Result<PluralElementsPackedCow<'static>, Fault>
    ensures { HasElementsFrom (lent_eight texts.now) result }
{
    let texts = texts_in(texts)?;
    packed(alloc, &texts)
}

// The texts by key.
fn texts_in<'a>(texts: &EightTexts<'a>) -> Result<PluralElements<&'a str>, Fault>
    ensures { GivesSeen (λ texts. packed_of (each_by plain_value texts)) (ArePackedAs (lent_eight texts.now)) result }
{
    let other = text_in(texts.other)?;
    let five = given_texts(&texts.five)?;
    let explicit_zero = given(texts.explicit_zero)?;
    let explicit_one = given(texts.explicit_one)?;
    Ok(elements_with(other, &five, explicit_zero, explicit_one))
}

// The elements with these texts.
fn elements_with<'a>(
    other: &'a str,
    five: &Five<Option<&'a str>>,
    explicit_zero: Option<&'a str>,
    explicit_one: Option<&'a str>,
) -> PluralElements<&'a str>
    ensures { result ≡ kept_texts other.entry five.now explicit_zero.entry explicit_one.entry }
{
    PluralElements::new(other)
        .with_zero_value(five.zero)
        .with_one_value(five.one)
        .with_two_value(five.two)
        .with_few_value(five.few)
        .with_many_value(five.many)
        .with_explicit_zero_value(explicit_zero)
        .with_explicit_one_value(explicit_one)
}

// The texts as packed elements.
fn packed(
    alloc: Global,
    texts: &PluralElements<&str>,
) -> Result<PluralElementsPackedCow<'static>, Fault>
    ensures { CanBePacked (packed_of (each_by plain_value texts.now)) result }
{
    match PluralElementsPackedCow::from_elements(alloc, texts) {
        Ok(elements) => Ok(elements),
        Err(ElementsPackError::Memory) => Err(Fault::Memory),
        Err(fault) => Err(Fault::Document(JsonError::Pack(fault))),
    }
}
