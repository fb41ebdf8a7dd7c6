//! Printing rules (UTS 35 Part 3, Plural Rules Syntax and Samples).
//!
//! Each call writes the text of one part to any writer, piece by piece and without an allocation of
//! its own.
#![tactic(auto, using(crate::proofs::printing::Writes::one_call, crate::proofs::printing::Writes::then_writes))]

ghost use Rattle.std.specs.Prelude.{◌≡◌, OnOk};
ghost use Rattle.std.specs.Fmt.{WritesInCalls};
ghost use Rattle.plural_reference.specs.Serializer.{rule_text, condition_text, samples_text, sample_list_text, sample_range_text, sample_text};

mod condition;
mod part;
mod samples;

use crate::ast;
use part::{serialize_joined, serialize_prefixed};
use std::fmt;

/// Writes a rule: its condition, then its samples if it has any, as `i = 1 and v = 0 @integer 1`.
/// A rule without a condition and without samples has the empty text.
///
/// It allocates nothing. `Err` is the writer's first error: nothing more is written, and what was
/// written stays.
///
/// <!-- snippet crates/tests_libraries/src/tests/plural_reference_printing.rt:
/// example "let text" to "let rule" of fn stops_at_the_first_fault_in_a_rule; example fn printed_rule -->
/// ```
/// let text = "i = 0 or n = 1 @integer 0, 1 @decimal 0.0~1.0, 0.00~0.04, …";
/// let rule = parse(alloc, text.as_bytes())?;
///
/// fn printed_rule(alloc: Global, rule: &Rule) -> anyhow::Result<String> {
///     let mut text = String::new(alloc);
///     serialize(rule, &mut text)?;
///     Ok(text)
/// }
/// ```
pub fn serialize<W: fmt::Write>(rule: &ast::Rule, w: &mut W) -> fmt::Result
    ensures { OnOk result (WritesInCalls W.write_str_gives w.old (rule_text rule.now) w.new) }
{
    serialize_condition(&rule.condition, w)?;
    match &rule.samples {
        Some(samples) => serialize_samples(samples, w),
        None => Ok(()),
    }
}

/// Writes a condition: its and-conditions with ` or ` between them, the relations of each with
/// ` and ` between them, as `n % 10 = 3..4, 9 and n % 100 != 10..19`. The condition without
/// and-conditions has the empty text.
///
/// It allocates nothing. `Err` is the writer's first error: nothing more is written, and what was
/// written stays.
#[inline(always)]
pub fn serialize_condition<W: fmt::Write>(condition: &ast::Condition, w: &mut W) -> fmt::Result
    ensures { OnOk result (WritesInCalls W.write_str_gives w.old (condition_text condition.now) w.new) }
{
    serialize_joined(condition.0.as_slice(), " or ", w)
}

/// Writes samples: ` @integer ` and its list, if there is one, then ` @decimal ` and its list, if
/// there is one. The text begins with a space, so that it may follow a condition.
///
/// It allocates nothing. `Err` is the writer's first error: nothing more is written, and what was
/// written stays.
#[inline(always)]
pub fn serialize_samples<W: fmt::Write>(samples: &ast::Samples, w: &mut W) -> fmt::Result
    ensures { OnOk result (WritesInCalls W.write_str_gives w.old (samples_text samples.now) w.new) }
{
    serialize_prefixed(" @integer ", samples.integer.as_ref(), w)?;
    serialize_prefixed(" @decimal ", samples.decimal.as_ref(), w)
}

/// Writes a list of samples: its ranges with `, ` between them, then `, …` if the list has an
/// ellipsis, as `0, 2~16, …`.
///
/// It allocates nothing. `Err` is the writer's first error: nothing more is written, and what was
/// written stays.
#[inline(always)]
pub fn serialize_sample_list<W: fmt::Write>(samples: &ast::SampleList, w: &mut W) -> fmt::Result
    ensures { OnOk result (WritesInCalls W.write_str_gives w.old (sample_list_text samples.now) w.new) }
{
    serialize_joined(samples.sample_ranges.as_slice(), ", ", w)?;
    if samples.ellipsis {
        w.write_str(", …")?;
    }
    Ok(())
}

/// Writes a range of samples: one sample, or two with `~` between them, as `0.1~1.6`.
///
/// It allocates nothing. `Err` is the writer's first error: nothing more is written, and what was
/// written stays.
#[inline(always)]
pub fn serialize_sample_range<W: fmt::Write>(range: &ast::SampleRange, w: &mut W) -> fmt::Result
    ensures { OnOk result (WritesInCalls W.write_str_gives w.old (sample_range_text range.now) w.new) }
{
    serialize_decimal_value(&range.lower_val, w)?;
    serialize_prefixed("~", range.upper_val.as_ref(), w)
}

/// Writes a sample: its text as it is, in one piece.
///
/// It allocates nothing. `Err` is the writer's first error: nothing more is written, and what was
/// written stays.
#[inline(always)]
pub fn serialize_decimal_value<W: fmt::Write>(value: &ast::DecimalValue, w: &mut W) -> fmt::Result
    ensures { OnOk result (WritesInCalls W.write_str_gives w.old (sample_text value.now) w.new) }
{
    w.write_str(value.0.as_str())
}
