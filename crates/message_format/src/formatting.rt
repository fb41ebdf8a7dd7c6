//! What a pattern says.

ghost use Rattle.message_format.specs.FormatArguments.{named_values_view};
ghost use Rattle.message_format.specs.FormatMeaning.{SaysExactly};
ghost use Rattle.message_format.specs.Inner.FormatViews.{outcome_of, two_rules};

use crate::arguments::Argument;
use crate::error::FormatError;
use crate::saying::say;
use crate::steps::Rules;
use fixed_decimal::laws::texts_write_one_number;
use message_pattern::Pattern;
use std::alloc::Global;

// How many bytes of the text there is room for at first.
const ROOM: usize = 64;

/// Returns what a pattern says with its arguments (ICU MessageFormat), under the rules of a
/// language, as bytes: UTF-8, if the pattern and the arguments are. It allocates the text, and the
/// digits of long numbers.
///
/// A plural takes the first branch whose selector is `=` and a number of the same value, else the
/// one of the number's category, else `other`; a select the one of the text, else `other`. `{name}`
/// and `#` are said as the caller writes them. With an offset the category is that of the number
/// less the offset, and `#` says this difference with the fraction digits of the number: `1.50`
/// less `1` is `0.50`. Its text and digits are allocated, too.
///
/// The errors: [`FormatError::Argument`] with the first fault, in the order of the parts that are
/// formatted, and the name of its argument: `Missing`, `WrongKind`, `NotANumber`, `OverLimit`, and
/// `CompactOffset` for a number with a compact exponent where there is an offset;
/// [`FormatError::Memory`] if memory ran out.
pub fn format<'p>(
    alloc: Global,
    pattern: &Pattern<'p>,
    arguments: &[Argument<'_>],
    rules: &Rules<'_, '_>,
) -> Result<Vec<u8>, FormatError<'p>>
    ensures { SaysExactly (named_values_view arguments.now) (two_rules rules.now) pattern.now (outcome_of result) }
{
    // A text writes one number at most, so it has one category.
    texts_write_one_number();
    let mut said = match Vec::with_capacity(alloc, ROOM) {
        Ok(said) => said,
        Err(_) => return Err(FormatError::Memory),
    };
    say(
        alloc,
        &arguments,
        rules.cardinal,
        rules.ordinal,
        b"",
        pattern.parts(),
        &mut said,
    )?;
    Ok(said)
}
