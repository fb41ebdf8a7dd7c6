//! What a pattern says.

ghost use Rattle.message_format.specs.Inner.FormatViews.{two_rules};
ghost use Rattle.plural_exports.specs.FormattedPatterns.{IsPatternFormatted};
ghost use Rattle.plural_exports.specs.GivenPatterns.{ReadsPatternText};
ghost use Rattle.plural_exports.specs.Inner.GivenResults.{GivesSeen};
ghost use Rattle.plural_exports.specs.Inner.UnderRules.{IsSaidUnder, IsSaidWith};
ghost use Rattle.plural_exports.specs.Results.{Written};

use crate::arguments::{GivenArgument, arguments_in};
use crate::buffer::put;
use crate::fault::Fault;
use crate::given::rules_in;
use icu_plurals::PluralRules;
use message_format::{Rules, format};
use message_pattern::Pattern;
use std::alloc::Global;

/// Writes what a pattern of ICU's MessageFormat says with its arguments under the rules of a
/// language, in UTF-8 if the pattern is. The first rules are those of `plural`, the second those of
/// `selectordinal`. The result is how many bytes it is; if the buffer is shorter, nothing is
/// written.
///
/// A fault is negative, and then nothing is written: one of the first rules, else of the second,
/// else the first of the pattern, else the first of an argument in itself, else the first that an
/// argument has where the pattern uses it. It allocates.
pub fn pattern_format(
    alloc: Global,
    cardinal: &[u8],
    ordinal: &[u8],
    pattern: &[u8],
    arguments: &[GivenArgument<'_>],
    out: &mut [u8],
) -> i64
    ensures { Written (IsPatternFormatted cardinal.now ordinal.now pattern.now arguments.now) out.old out.new result }
{
    match formatted(alloc, cardinal, ordinal, pattern, arguments) {
        Ok(text) => put(&text, out),
        Err(fault) => i64::from(fault.number()),
    }
}

// What the pattern says.
fn formatted(
    alloc: Global,
    cardinal: &[u8],
    ordinal: &[u8],
    pattern: &[u8],
    arguments: &[GivenArgument<'_>],
) -> Result<Vec<u8>, Fault>
    ensures { GivesSeen (λ text. text.items) (IsPatternFormatted cardinal.now ordinal.now pattern.now arguments.now) result }
{
    match rules_in(cardinal) {
        Ok(cardinal) => formatted_with(alloc, &cardinal, ordinal, pattern, arguments),
        Err(fault) => Err(fault),
    }
}

// What the pattern says, with these rules for cardinal numbers.
fn formatted_with(
    alloc: Global,
    cardinal: &PluralRules<'_>,
    ordinal: &[u8],
    pattern: &[u8],
    arguments: &[GivenArgument<'_>],
) -> Result<Vec<u8>, Fault>
    ensures { GivesSeen (λ text. text.items) (IsSaidWith (ReadsPatternText pattern.now) cardinal.now ordinal.now arguments.now) result }
{
    match rules_in(ordinal) {
        Ok(ordinal) => {
            let rules = Rules {
                cardinal,
                ordinal: &ordinal,
            };
            said(alloc, &rules, pattern, arguments)
        }
        Err(fault) => Err(fault),
    }
}

// What the pattern says under both rules.
fn said(
    alloc: Global,
    rules: &Rules<'_, '_>,
    pattern: &[u8],
    arguments: &[GivenArgument<'_>],
) -> Result<Vec<u8>, Fault>
    ensures { GivesSeen (λ text. text.items) (IsSaidUnder (ReadsPatternText pattern.now) (two_rules rules.now) arguments.now) result }
{
    let pattern = pattern_in(alloc, pattern)?;
    let arguments = arguments_in(alloc, arguments)?;
    Ok(format(alloc, &pattern, arguments.as_slice(), rules)?)
}

// The pattern that a text is.
pub(crate) fn pattern_in<'p>(alloc: Global, text: &'p [u8]) -> Result<Pattern<'p>, Fault>
    ensures { ReadsPatternText text.now result }
{
    Ok(Pattern::parse(alloc, text)?)
}
