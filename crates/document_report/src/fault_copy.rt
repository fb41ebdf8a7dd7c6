//! Copies of the faults of texts.

ghost use Rattle.std.specs.Prelude.{◌≡◌, IfOk};

use plural_checker::{PrintedRule, SampleFault, TextFault};
use std::alloc::{AllocError, Global};

// A copy of the fault of a text.
pub(crate) fn fault_copy(alloc: Global, fault: &TextFault) -> Result<TextFault, AllocError>
    ensures { IfOk result (λ copy. copy ≡ fault.now) }
{
    match fault {
        TextFault::TooLong(bytes) => Ok(TextFault::TooLong(*bytes)),
        TextFault::Unread(kind, byte) => Ok(TextFault::Unread(*kind, *byte)),
        TextFault::Partly(printed) => Ok(TextFault::Partly(rule_copy(alloc, printed)?)),
        TextFault::Order => Ok(TextFault::Order),
        TextFault::Condition => Ok(TextFault::Condition),
        TextFault::Sample(sample_type, fault) => {
            Ok(TextFault::Sample(*sample_type, sample_copy(fault)?))
        }
    }
}

// A copy of the text of a rule.
fn rule_copy(alloc: Global, printed: &PrintedRule) -> Result<PrintedRule, AllocError>
    ensures { IfOk result (λ copy. copy ≡ printed.now) }
{
    let text = String::from_str(alloc, printed.0.as_str())?;
    Ok(PrintedRule(text))
}

// A copy of the fault of a sample.
fn sample_copy(fault: &SampleFault) -> Result<SampleFault, AllocError>
    ensures { IfOk result (λ copy. copy ≡ fault.now) }
{
    match fault {
        SampleFault::Range(range, fault) => Ok(SampleFault::Range(range.try_clone()?, *fault)),
        SampleFault::Number(number, fault) => Ok(SampleFault::Number(number.try_clone()?, *fault)),
    }
}
