//! Blocks of patterns, and what they say.

ghost use Rattle.std.specs.Prelude.{pos};
ghost use Rattle.message_format.specs.FormatArguments.{named_values_view};
ghost use Rattle.message_format.specs.Inner.FormatViews.{two_rules};
ghost use Rattle.plural_exports.specs.FormattedPatterns.{IsPackedFormatted, IsPatternSaid};
ghost use Rattle.plural_exports.specs.GivenPatterns.{IsPatternPacked, ReadsPatternBlock};
ghost use Rattle.plural_exports.specs.Inner.GivenResults.{GivesSeen, GivesWritten};
ghost use Rattle.plural_exports.specs.Inner.UnderRules.{IsSaidUnder, IsSaidWith};
ghost use Rattle.plural_exports.specs.Results.{Answered, Written};

use crate::arguments::{GivenArgument, arguments_in};
use crate::buffer::put;
use crate::fault::Fault;
use crate::given::rules_in;
use crate::patterns::pattern_in;
use arrayvec::ArrayVec;
use icu_plurals::PluralRules;
use message_format::{Argument, FormatError, Rules};
use packed_format::say_packed;
use packed_pattern::{PackedPattern, pack};
use std::alloc::Global;

// How many bytes a text has at most that isn't allocated.
const SHORT: usize = 240;

/// Writes the block of a pattern of ICU's MessageFormat. The result is how many bytes the block
/// has; if the buffer is shorter, nothing is written.
///
/// A fault is negative, and then nothing is written: the first of the pattern, else why it can't be
/// packed. It allocates.
pub fn pattern_pack(alloc: Global, pattern: &[u8], out: &mut [u8]) -> i64
    ensures { Written (IsPatternPacked pattern.now) out.old out.new result }
{
    match packed(alloc, pattern) {
        Ok(block) => put(&block, out),
        Err(fault) => i64::from(fault.number()),
    }
}

/// Returns 0 if the bytes are the block of a pattern, else their fault. It allocates nothing.
pub fn pattern_check(block: &[u8]) -> i32
    ensures { Answered (ReadsPatternBlock block.now) (λ _. pos 0) result }
{
    match block_in(block) {
        Ok(_) => 0,
        Err(fault) => fault.number(),
    }
}

/// Writes what the block of a pattern says with its arguments under the rules of a language, as
/// [`pattern_format`](crate::pattern_format) does of the pattern. The block is checked, and read in
/// place. The result is how many bytes the text has; if the buffer is shorter, nothing is written.
///
/// A fault is negative, and then nothing is written: one of the first rules, else of the second,
/// else of the block, else the first of an argument in itself, else the first that an argument has
/// where the pattern uses it. It allocates.
pub fn packed_format(
    alloc: Global,
    cardinal: &[u8],
    ordinal: &[u8],
    block: &[u8],
    arguments: &[GivenArgument<'_>],
    out: &mut [u8],
) -> i64
    ensures { Written (IsPackedFormatted cardinal.now ordinal.now block.now arguments.now) out.old out.new result }
{
    match write_formatted(alloc, cardinal, ordinal, block, arguments, out) {
        Ok(length) => length,
        Err(fault) => i64::from(fault.number()),
    }
}

// The block of a text's pattern.
fn packed(alloc: Global, pattern: &[u8]) -> Result<Vec<u8>, Fault>
    ensures { GivesSeen (λ block. block.items) (IsPatternPacked pattern.now) result }
{
    let pattern = pattern_in(alloc, pattern)?;
    Ok(pack(alloc, &pattern)?)
}

// The pattern of a block, borrowed from it.
fn block_in(bytes: &[u8]) -> Result<PackedPattern<'_>, Fault>
    ensures { ReadsPatternBlock bytes.now result }
{
    Ok(PackedPattern::parse_bytes(bytes)?)
}

// Writes what the block of a pattern says, if it fits, and returns its length.
pub(crate) fn write_formatted(
    alloc: Global,
    cardinal: &[u8],
    ordinal: &[u8],
    block: &[u8],
    arguments: &[GivenArgument<'_>],
    out: &mut [u8],
) -> Result<i64, Fault>
    ensures { GivesWritten (IsPackedFormatted cardinal.now ordinal.now block.now arguments.now) out.old out.new result }
{
    match rules_in(cardinal) {
        Ok(cardinal) => write_with(alloc, &cardinal, ordinal, block, arguments, out),
        Err(fault) => Err(fault),
    }
}

// Writes what the block of a pattern says, with these rules for cardinal numbers.
fn write_with(
    alloc: Global,
    cardinal: &PluralRules<'_>,
    ordinal: &[u8],
    block: &[u8],
    arguments: &[GivenArgument<'_>],
    out: &mut [u8],
) -> Result<i64, Fault>
    ensures { GivesWritten (IsSaidWith (ReadsPatternBlock block.now) cardinal.now ordinal.now arguments.now) out.old out.new result }
{
    match rules_in(ordinal) {
        Ok(ordinal) => {
            let rules = Rules {
                cardinal,
                ordinal: &ordinal,
            };
            write_said(alloc, &rules, block, arguments, out)
        }
        Err(fault) => Err(fault),
    }
}

// Writes what the block of a pattern says under both rules.
fn write_said(
    alloc: Global,
    rules: &Rules<'_, '_>,
    block: &[u8],
    arguments: &[GivenArgument<'_>],
    out: &mut [u8],
) -> Result<i64, Fault>
    ensures { GivesWritten (IsSaidUnder (ReadsPatternBlock block.now) (two_rules rules.now) arguments.now) out.old out.new result }
{
    let pattern = block_in(block)?;
    let arguments = arguments_in(alloc, arguments)?;
    write_text(alloc, &pattern, arguments.as_slice(), rules, out)
}

// Writes what the pattern says. A short text isn't allocated.
fn write_text(
    alloc: Global,
    pattern: &PackedPattern<'_>,
    arguments: &[Argument<'_>],
    rules: &Rules<'_, '_>,
    out: &mut [u8],
) -> Result<i64, Fault>
    ensures { GivesWritten (IsPatternSaid (two_rules rules.now) pattern.now (named_values_view arguments.now)) out.old out.new result }
{
    let mut short = ArrayVec::<u8, SHORT>::new();
    match say_packed(alloc, pattern, arguments, rules, &mut short) {
        Ok(()) => Ok(put(short.as_slice(), out)),
        Err(FormatError::Memory) => write_long(alloc, pattern, arguments, rules, out),
        Err(fault) => Err(Fault::from(fault)),
    }
}

// The same of a text that may be long.
#[inline(never)]
fn write_long(
    alloc: Global,
    pattern: &PackedPattern<'_>,
    arguments: &[Argument<'_>],
    rules: &Rules<'_, '_>,
    out: &mut [u8],
) -> Result<i64, Fault>
    ensures { GivesWritten (IsPatternSaid (two_rules rules.now) pattern.now (named_values_view arguments.now)) out.old out.new result }
{
    let mut text = Vec::new(alloc);
    say_packed(alloc, pattern, arguments, rules, &mut text)?;
    Ok(put(text.as_slice(), out))
}
