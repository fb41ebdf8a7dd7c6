//! What is wrong with a language's texts.

ghost use Rattle.std.specs.Prelude.{Some, ◌++◌, codes};
ghost use Rattle.std.specs.Fmt.{DisplaysOnOk};
ghost use Rattle.icu_plurals.specs.Serializer.{sample_range_text, sample_text};
ghost use Rattle.plural_checker.specs.PluralCheckerErrors.{fault_text, range_fault_text, sample_fault_text, rule_text_fault_text};

use crate::printed_rule::PrintedRule;
use icu_plurals::provider::RawPluralCategory;
use icu_plurals::provider::rules::reference::ParseError;
use icu_plurals::provider::rules::reference::ast::{DecimalValue, SampleRange};
use icu_plurals::{DecimalError, PluralCategory};
use number_categories::NumberFault;
use std::error::Error;
use std::fmt;

/// A fault of a category's text. It prints as `few: sample 1.5 is other`.
#[derive(Debug, Drop)]
pub struct Fault {
    /// The category whose text it is.
    pub category: PluralCategory,
    /// What is wrong.
    pub kind: TextFault,
}

/// What is wrong with a text.
#[derive(Debug, Drop)]
pub enum TextFault {
    /// It has this many bytes, more than [`MOST_TEXT_BYTES`](crate::MOST_TEXT_BYTES).
    TooLong(usize),
    /// It can't be read as a rule, for this reason, from this byte on, counted from 0.
    Unread(ParseError, usize),
    /// Part of it isn't read: it has other tokens than the printed text of the rule that was read,
    /// which is kept here.
    Partly(PrintedRule),
    /// All of it is read, but its lists of samples are others than one of integers at most and then
    /// one of decimals at most: a list comes before one that it should follow, or replaces an
    /// earlier one of its type.
    Order,
    /// It is the text of other, and has a condition.
    Condition,
    /// Something is wrong with a sample in the list of this type.
    Sample(SampleType, SampleFault),
}

/// The type of a list of samples (UTS 35 Part 3, Samples).
#[derive(Clone, Copy, Debug, PartialEq, Eq)]
pub enum SampleType {
    /// `@integer`.
    Integer,
    /// `@decimal`.
    Decimal,
}

/// What is wrong with a sample or a range of samples.
#[derive(Debug, Drop)]
pub enum SampleFault {
    /// The range has no numbers.
    Range(SampleRange, RangeFault),
    /// This number, the first wrong one of its range, is wrong.
    Number(DecimalValue, NumberFault),
}

/// Why a range of samples has no numbers.
#[derive(Clone, Copy, Debug, PartialEq, Eq)]
pub enum RangeFault {
    /// An end writes no number, or one over a limit. The error is never out of memory.
    End(DecimalError),
    /// The ends have different counts of fraction digits, or different exponents.
    Uneven,
    /// An end has more than 18 digits, counting the 0 of an absent integer part.
    Long,
    /// The second end is less than the first.
    Down,
    /// It would have more than 100 numbers.
    Wide,
}

impl fmt::Display for Fault {
    ghost output = { λ fault. Some (fault_text fault) };

    fn fmt<W: fmt::Write>(&self, f: &mut fmt::Formatter<W>) -> fmt::Result {
        let name = RawPluralCategory::from(self.category).as_str();
        write!(f, "{}: {}", name, self.kind)
    }
}

impl Error for Fault {}

impl fmt::Display for TextFault {
    ghost output = { λ fault. Some (rule_text_fault_text fault) };

    fn fmt<W: fmt::Write>(&self, f: &mut fmt::Formatter<W>) -> fmt::Result {
        match self {
            TextFault::TooLong(bytes) => write!(f, "text of {bytes} bytes"),
            TextFault::Unread(kind, byte) => write!(f, "{kind} at byte {byte}"),
            TextFault::Partly(printed) => write!(f, "read as {printed}"),
            TextFault::Order => f.write_str("samples out of order"),
            TextFault::Condition => f.write_str("has a condition"),
            TextFault::Sample(_, fault) => write!(f, "sample {fault}"),
        }
    }
}

impl fmt::Display for SampleFault {
    ghost output = { λ fault. Some (sample_fault_text fault) };

    fn fmt<W: fmt::Write>(&self, f: &mut fmt::Formatter<W>) -> fmt::Result {
        match self {
            SampleFault::Range(range, fault) => {
                write_range(range, f)?;
                write!(f, "{fault}")
            }
            SampleFault::Number(number, fault) => {
                f.write_str(number.0.as_str())?;
                write!(f, "{fault}")
            }
        }
    }
}

// Prints a sample, or two with `~` between them.
fn write_range<W: fmt::Write>(range: &SampleRange, f: &mut fmt::Formatter<W>) -> fmt::Result
    ensures { DisplaysOnOk W.write_str_gives f.old result (Some (sample_range_text range.now)) f.new }
{
    let lower = &range.lower_val;
    f.write_str(lower.0.as_str())?;
    match &range.upper_val {
        Some(upper) => write_upper(upper, f),
        None => Ok(()),
    }
}

// Prints `~` and a sample.
fn write_upper<W: fmt::Write>(upper: &DecimalValue, f: &mut fmt::Formatter<W>) -> fmt::Result
    ensures { DisplaysOnOk W.write_str_gives f.old result (Some (codes "~" ++ sample_text upper.now)) f.new }
{
    f.write_str("~")?;
    f.write_str(upper.0.as_str())
}

impl fmt::Display for RangeFault {
    ghost output = { λ fault. Some (range_fault_text fault) };

    fn fmt<W: fmt::Write>(&self, f: &mut fmt::Formatter<W>) -> fmt::Result {
        match self {
            RangeFault::End(error) => write!(f, ": {error}"),
            RangeFault::Uneven => f.write_str(" has ends of different forms"),
            RangeFault::Long => f.write_str(" has more than 18 digits"),
            RangeFault::Down => f.write_str(" goes down"),
            RangeFault::Wide => f.write_str(" has more than 100 numbers"),
        }
    }
}
