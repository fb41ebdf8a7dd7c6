//! Whether a text is a rule from its first byte to its last.

ghost use Rattle.std.specs.Prelude.{◌≡◌};
ghost use Rattle.plural_exports.specs.NumberAnswers.{truth_number};
ghost use Rattle.plural_exports.specs.Results.{Answered};
ghost use Rattle.plural_exports.specs.GivenTexts.{IsWholeness};

use crate::fault::Fault;
use icu_plurals::provider::rules::reference;
use std::alloc::{AllocError, Global};

/// Returns 1 if a text is a rule as a whole, as CLDR writes it, samples included, else 0: then a
/// part of it isn't read, or it is no rule ([`rules_from_texts`] tells why). A text that
/// people wrote is asked here first: of `n = 1 x` the others read `n = 1`, and leave the rest.
///
/// The only fault is out of memory, -1. It allocates for the rule.
pub fn is_read_whole(alloc: Global, text: &[u8]) -> i32
    ensures { Answered (IsWholeness text.now) truth_number result }
{
    match wholeness_of(alloc, text) {
        Ok(whole) => i32::from(whole),
        Err(fault) => fault.number(),
    }
}

// Whether the text is a rule.
fn wholeness_of(alloc: Global, text: &[u8]) -> Result<bool, Fault>
    ensures { IsWholeness text.now result }
{
    match reference::is_read_whole(alloc, text) {
        Ok(whole) => Ok(whole),
        Err(AllocError) => Err(Fault::Memory),
    }
}
