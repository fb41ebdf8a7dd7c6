//! Where the parts of packed elements are, and whether they are good.

ghost use Rattle.std.specs.Prelude.{◌≡◌, MatchResult, IsOk, Err};
ghost use Rattle.icu_plurals.specs.ElementsFaults.{ArePartsOf, HasPartsFault};
ghost use Rattle.icu_plurals.specs.Inner.ElementsReading.{AreGoodParts, HasPlaceFault};
ghost use Rattle.icu_plurals.specs.Inner.ElementsViews.{lent_parts};

use crate::packed::error::ElementsBytesError;
use crate::packed::items::{check_items, is_text};

// The first byte, the default's text, and what is left after it if bit 7 of the first byte says
// that items follow.
#[derive(Clone, Copy)]
pub(crate) struct Parts<'a> {
    pub(crate) first: u8,
    pub(crate) text: &'a [u8],
    pub(crate) rest: Option<&'a [u8]>,
}

// The parts of bytes.
pub(crate) fn parts_of(bytes: &[u8]) -> Result<Parts<'_>, ElementsBytesError>
    ensures { MatchResult result (λ parts. ArePartsOf (lent_parts parts) bytes.now) (λ fault. HasPlaceFault bytes.now fault) }
{
    let Some((first, behind)) = bytes.split_first() else {
        return Err(ElementsBytesError::Empty);
    };
    if *first < 128 {
        return Ok(Parts {
            first: *first,
            text: behind,
            rest: None,
        });
    }
    let Some((len, behind)) = behind.split_first() else {
        return Err(ElementsBytesError::Short);
    };
    let Some((text, rest)) = behind.split_at_checked(usize::from(*len)) else {
        return Err(ElementsBytesError::Short);
    };
    Ok(Parts {
        first: *first,
        text,
        rest: Some(rest),
    })
}

// What is wrong with parts.
pub(crate) fn check_parts(parts: &Parts<'_>) -> Result<(), ElementsBytesError>
    ensures sound { MatchResult result (λ _. AreGoodParts (lent_parts parts.now)) (λ fault. HasPartsFault (lent_parts parts.now) fault) }
    ensures only { (fault : ElementsBytesError) → HasPartsFault (lent_parts parts.now) fault → result ≡ Err fault }
    ensures good { AreGoodParts (lent_parts parts.now) → IsOk result }
{
    if parts.first % 128 > 15 {
        return Err(ElementsBytesError::Padding);
    }
    if !is_text(parts.text) {
        return Err(ElementsBytesError::DefaultText);
    }
    match parts.rest {
        Some(rest) => check_items(rest),
        None => Ok(()),
    }
}
