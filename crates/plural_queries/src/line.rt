//! A line of the output.

ghost use Rattle.std.specs.Prelude.{◌≡◌, IfOk, Ok, string_bytes};
ghost use Rattle.std.specs.Cow.{cow_str_bytes};
ghost use Rattle.plural_queries.specs.CallAnswers.{GivesValue};
ghost use Rattle.plural_queries.specs.Lines.{line};

use crate::error::RunError;
use std::alloc::{AllocError, Global};
use std::borrow::CowStr;

// The text and a newline.
pub(crate) fn line(alloc: Global, text: &str) -> Result<CowStr<'static>, RunError>
    ensures { GivesValue cow_str_bytes (Ok (line text.now)) result }
{
    match copied(alloc, text) {
        Ok(line) => ended(line),
        Err(_) => Err(RunError::Memory),
    }
}

// The text, with room for a newline.
fn copied(alloc: Global, text: &str) -> Result<String, AllocError>
    ensures { IfOk result (λ copy. string_bytes copy ≡ text.now) }
{
    let mut copy = String::with_capacity(alloc, text.len() + 1)?;
    copy.push_str(text)?;
    Ok(copy)
}

// An owned text and a newline.
pub(crate) fn ended(mut text: String) -> Result<CowStr<'static>, RunError>
    ensures { GivesValue cow_str_bytes (Ok (line (string_bytes text))) result }
{
    match text.push_str("\n") {
        Ok(()) => Ok(CowStr::Owned(text)),
        Err(_) => Err(RunError::Memory),
    }
}
