//! What the bytes that are passed mean.

ghost use Rattle.icu_plurals.specs.Inner.ElementsViews.{lent_elements};
ghost use Rattle.plural_exports.specs.GivenBytes.{ReadsElements, ReadsNumberBytes, ReadsRules, ReadsTextBytes, WritesNumber};
ghost use Rattle.plural_exports.specs.Inner.GivenResults.{GivesSeen};

use crate::fault::Fault;
use icu_plurals::provider::{PluralElementsPackedULE, PluralRulesData};
use icu_plurals::{CompactDecimal, PluralRules};
use std::alloc::Global;

// The rules of a block, borrowed from it.
#[inline(always)]
pub(crate) fn rules_in(bytes: &[u8]) -> Result<PluralRules<'_>, Fault>
    ensures { ReadsRules bytes.now result }
{
    let data = PluralRulesData::from_bytes(bytes)?;
    Ok(PluralRules::from_data(data))
}

// The packed elements, borrowed from their bytes.
pub(crate) fn elements_in(bytes: &[u8]) -> Result<PluralElementsPackedULE<'_>, Fault>
    ensures { GivesSeen lent_elements (ReadsElements bytes.now) result }
{
    Ok(PluralElementsPackedULE::parse_bytes(bytes)?)
}

// The text.
pub(crate) fn text_in(bytes: &[u8]) -> Result<&str, Fault>
    ensures { GivesSeen (λ text. text.now) (ReadsTextBytes bytes.now) result }
{
    match std::str::from_utf8(bytes) {
        Ok(text) => Ok(text),
        Err(_) => Err(Fault::Utf8),
    }
}

// The number that a text writes.
pub(crate) fn number_in(alloc: Global, bytes: &[u8]) -> Result<CompactDecimal, Fault>
    ensures { ReadsNumberBytes bytes.now result }
{
    let text = text_in(bytes)?;
    number_of(alloc, text)
}

// The number that a text writes.
pub(crate) fn number_of(alloc: Global, text: &str) -> Result<CompactDecimal, Fault>
    ensures { WritesNumber text.now result }
{
    Ok(CompactDecimal::from_str(alloc, text)?)
}
