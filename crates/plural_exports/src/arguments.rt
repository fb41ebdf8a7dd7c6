//! The arguments of a pattern.

ghost use Rattle.message_format.specs.FormatArguments.{named_value_view, named_values_view, value_view};
ghost use Rattle.plural_exports.specs.GivenArguments.{AreArguments, HasKind, ReadsArgument};
ghost use Rattle.plural_exports.specs.Inner.GivenResults.{GivesSeen};

use crate::fault::Fault;
use crate::given::text_in;
use message_format::{Argument, Value};
use std::alloc::Global;

/// A value under a name.
#[repr(C)]
#[derive(Clone, Copy)]
pub struct GivenArgument<'a> {
    /// The name, as it stands in the pattern.
    pub name: &'a [u8],
    /// The number, as it is written, or the text.
    pub value: &'a [u8],
    /// What the value is: 0 for a number, 1 for a text.
    pub kind: u32,
}

// The arguments, in their order.
pub(crate) fn arguments_in<'a>(
    alloc: Global,
    given: &[GivenArgument<'a>],
) -> Result<Vec<Argument<'a>>, Fault>
    ensures { GivesSeen (λ arguments. named_values_view arguments.items) (AreArguments given.now) result }
{
    let mut arguments = Vec::new(alloc);
    let mut left = given;
    while let [first, rest @ ..] = left {
        let argument = argument_in(first)?;
        match arguments.push(argument) {
            Ok(()) => left = rest,
            Err(_) => return Err(Fault::Memory),
        }
    }
    Ok(arguments)
}

// The argument.
fn argument_in<'a>(given: &GivenArgument<'a>) -> Result<Argument<'a>, Fault>
    ensures { GivesSeen named_value_view (ReadsArgument given.now) result }
{
    let name = text_in(given.name)?;
    let text = text_in(given.value)?;
    let value = value_in(given.kind, text)?;
    Ok(Argument { name, value })
}

// A text as the value of a kind.
fn value_in<'a>(kind: u32, text: &'a str) -> Result<Value<'a>, Fault>
    ensures { GivesSeen value_view (HasKind kind text.now) result }
{
    match kind {
        0 => Ok(Value::Number(text)),
        1 => Ok(Value::Text(text)),
        _ => Err(Fault::ArgumentKind),
    }
}
