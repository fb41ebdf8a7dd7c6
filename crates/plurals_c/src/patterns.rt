//! What patterns say, and their blocks.

ghost use Rattle.std.specs.Prelude.{pos};
ghost use Rattle.plural_exports.specs.FormattedPatterns.{IsPackedFormatted, IsPatternFormatted};
ghost use Rattle.plural_exports.specs.GivenPatterns.{IsPatternPacked, ReadsPatternBlock};
ghost use Rattle.plural_exports.specs.Results.{Answered, Written};

use plural_exports::GivenArgument;
use std::alloc::Global;

/// Writes what a pattern of ICU's MessageFormat says with its arguments under the rules of a
/// language, in UTF-8 if the pattern is. The first rules are those of `plural`, the second those of
/// `selectordinal`. The result is how many bytes it is; if the buffer is shorter, nothing is
/// written.
///
/// A fault is negative, and then nothing is written: one of the first rules, else of the second,
/// else the first of the pattern, else the first of an argument in itself, else the first that an
/// argument has where the pattern uses it. It allocates.
#[unsafe(no_mangle)]
pub extern "C" fn plurals_pattern_format(
    alloc: Global,
    cardinal: &[u8],
    ordinal: &[u8],
    pattern: &[u8],
    arguments: &[GivenArgument<'_>],
    out: &mut [u8],
) -> i64
    ensures { Written (IsPatternFormatted cardinal.now ordinal.now pattern.now arguments.now) out.old out.new result }
{
    plural_exports::pattern_format(alloc, cardinal, ordinal, pattern, arguments, out)
}

/// Writes the block of a pattern of ICU's MessageFormat. The result is how many bytes the block
/// has; if the buffer is shorter, nothing is written.
///
/// A fault is negative, and then nothing is written: the first of the pattern, else why it can't be
/// packed. It allocates.
#[unsafe(no_mangle)]
pub extern "C" fn plurals_pattern_pack(alloc: Global, pattern: &[u8], out: &mut [u8]) -> i64
    ensures { Written (IsPatternPacked pattern.now) out.old out.new result }
{
    plural_exports::pattern_pack(alloc, pattern, out)
}

/// Returns 0 if the bytes are the block of a pattern, else their fault. It allocates nothing.
#[unsafe(no_mangle)]
pub extern "C" fn plurals_pattern_check(block: &[u8]) -> i32
    ensures { Answered (ReadsPatternBlock block.now) (λ _. pos 0) result }
{
    plural_exports::pattern_check(block)
}

/// Writes what the block of a pattern says with its arguments under the rules of a language, as
/// [`plurals_pattern_format`] does of the pattern. The block is checked, and read in place. The
/// result is how many bytes the text has; if the buffer is shorter, nothing is written.
///
/// A fault is negative, and then nothing is written: one of the first rules, else of the second,
/// else of the block, else the first of an argument in itself, else the first that an argument has
/// where the pattern uses it. It allocates.
#[unsafe(no_mangle)]
pub extern "C" fn plurals_packed_format(
    alloc: Global,
    cardinal: &[u8],
    ordinal: &[u8],
    block: &[u8],
    arguments: &[GivenArgument<'_>],
    out: &mut [u8],
) -> i64
    ensures { Written (IsPackedFormatted cardinal.now ordinal.now block.now arguments.now) out.old out.new result }
{
    plural_exports::packed_format(alloc, cardinal, ordinal, block, arguments, out)
}
