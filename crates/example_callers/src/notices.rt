//! Notices of a count: `You have 3 new messages`.

ghost use Rattle.std.specs.Prelude.{IfOk, IfErr};
ghost use Rattle.message_format.specs.Inner.FormatViews.{two_rules};
ghost use Rattle.example_callers.specs.Notice.{IsNotice, IsNoticeFault};

use message_format::{Argument, FormatError, Rules, Value, format};
use message_pattern::{Pattern, PatternError};
use std::alloc::Global;

/// Why there is no notice.
#[derive(Clone, Copy, Debug)]
pub enum NoticeError<'p> {
    /// The text isn't a pattern, or memory ran out.
    Pattern(PatternError),
    /// The count isn't a number, another argument is missing, or memory ran out.
    Format(FormatError<'p>),
}

/// Returns what a pattern of ICU's MessageFormat says of a count, under the name `count` and the
/// rules of a language, as bytes in UTF-8. It allocates the parts of the pattern and the text.
pub fn notice<'p>(
    alloc: Global,
    pattern: &'p str,
    count: &str,
    rules: &Rules<'_, '_>,
) -> Result<Vec<u8>, NoticeError<'p>>
    ensures said { IfOk result (λ said. IsNotice (two_rules rules.now) pattern.now count.now said.items) }
    ensures refused { IfErr result (λ error. IsNoticeFault (two_rules rules.now) pattern.now count.now error) }
{
    let pattern = match Pattern::parse(alloc, pattern.as_bytes()) {
        Ok(pattern) => pattern,
        Err(error) => return Err(NoticeError::Pattern(error)),
    };
    let count = Argument {
        name: "count",
        value: Value::Number(count),
    };
    match format(alloc, &pattern, &[count], rules) {
        Ok(said) => Ok(said),
        Err(error) => Err(NoticeError::Format(error)),
    }
}
