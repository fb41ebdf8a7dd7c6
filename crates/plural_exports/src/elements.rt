//! Packed elements: from JSON, and the one that a number chooses.

ghost use Rattle.serde_json.specs.View.{view};
ghost use Rattle.plural_exports.specs.GivenDocuments.{AreElementsIn, HasElements, MeansElements};
ghost use Rattle.plural_exports.specs.Inner.GivenResults.{GivesSeen};
ghost use Rattle.plural_exports.specs.Inner.UnderRules.{IsElementUnder};
ghost use Rattle.plural_exports.specs.NumberAnswers.{IsElementOf};
ghost use Rattle.plural_exports.specs.Results.{Written};

use crate::buffer::put;
use crate::document::value_in;
use crate::fault::Fault;
use crate::given::{elements_in, number_in, rules_in};
use icu_plurals::laws::kept_element_is_exact;
use icu_plurals::provider::PluralElementsPackedCow;
use icu_plurals::{PluralOperands, PluralRules};
use serde_json::Value;
use std::alloc::Global;

/// Writes the packed bytes of the elements of a JSON text. The result is how many they are; if the
/// buffer is shorter, nothing is written.
///
/// A fault is negative, and then nothing is written: no JSON text, else no elements, or elements
/// that can't be packed. It allocates.
pub fn elements_from_json(alloc: Global, json: &[u8], out: &mut [u8]) -> i64
    ensures { Written (AreElementsIn json.now) out.old out.new result }
{
    match elements_of(alloc, json) {
        Ok(elements) => put(elements.as_packed().as_bytes(), out),
        Err(fault) => i64::from(fault.number()),
    }
}

/// Writes the text of the element that a number chooses under the rules. The result is how many
/// bytes it has; if the buffer is shorter, nothing is written. The number is a text that writes a
/// decimal, with a compact exponent or not.
///
/// A fault is negative, and then nothing is written: one of the rules, else of the elements, else
/// of the number. It allocates for a number of more than 16 bytes.
pub fn element(alloc: Global, rules: &[u8], elements: &[u8], number: &[u8], out: &mut [u8]) -> i64
    ensures { Written (IsElementOf rules.now elements.now number.now) out.old out.new result }
{
    match element_of(alloc, rules, elements, number) {
        Ok(text) => put(text.as_bytes(), out),
        Err(fault) => i64::from(fault.number()),
    }
}

// The elements of a JSON text.
fn elements_of(alloc: Global, json: &[u8]) -> Result<PluralElementsPackedCow<'static>, Fault>
    ensures { HasElements json.now result }
{
    let value = value_in(alloc, json)?;
    packed_elements(alloc, &value)
}

// The elements of a JSON value.
fn packed_elements(alloc: Global, value: &Value) -> Result<PluralElementsPackedCow<'static>, Fault>
    ensures { MeansElements (view value.now) result }
{
    Ok(PluralElementsPackedCow::from_json(alloc, value)?)
}

// The text of the element that the number chooses.
fn element_of<'a>(
    alloc: Global,
    rules: &[u8],
    elements: &'a [u8],
    number: &[u8],
) -> Result<&'a str, Fault>
    ensures { GivesSeen (λ text. text.now) (IsElementOf rules.now elements.now number.now) result }
{
    match rules_in(rules) {
        Ok(rules) => element_under(alloc, &rules, elements, number),
        Err(fault) => Err(fault),
    }
}

// The text of the element that the number chooses under the rules.
fn element_under<'a>(
    alloc: Global,
    rules: &PluralRules<'_>,
    elements: &'a [u8],
    number: &[u8],
) -> Result<&'a str, Fault>
    ensures { GivesSeen (λ text. text.now) (IsElementUnder rules.now elements.now number.now) result }
{
    // Within the exactness bound the element is that of the number itself.
    kept_element_is_exact();
    let elements = elements_in(elements)?;
    let number = number_in(alloc, number)?;
    let (_, text) = elements.get(PluralOperands::from(&number), rules);
    Ok(text)
}
