//! The numbers of a sample, or of a range of samples.

ghost use Rattle.std.specs.Prelude.{◌≡◌, IfOk, List, Ok, ℕ};
ghost use Rattle.plural_checker.specs.SampleNumbers.{AreNumbersBetween, AreNumbersOfRange, GivesSampleNumber, count_of, numbers_between, number_at, text_with_c};

use crate::fault::RangeFault;
use crate::number_text::number_text;
use crate::reading::{compact_text, parts_of, places_of, read_sample};
use icu_plurals::CompactDecimal;
use icu_plurals::provider::rules::reference::ast::{DecimalValue, SampleRange};
use std::alloc::{AllocError, Global};

// The most numbers that a range may have.
pub(crate) const MOST_NUMBERS: u64 = 100;

/// The numbers of a range of samples: a first number and a count. Each number after the first is
/// `1 / 10^places` more than the number before it.
#[derive(Clone, Copy, Debug, PartialEq, Eq)]
pub struct Steps {
    /// How many fraction digits each number shows.
    pub places: usize,
    /// The first number, times `10^places`.
    pub first: u64,
    /// How many numbers there are.
    pub count: u64,
    /// The compact exponent of each.
    pub exponent: u8,
}

/// The numbers of a sample or of a range of samples (UTS 35 Part 3, Samples).
#[derive(Debug, Drop)]
pub enum SampleNumbers {
    /// The text of a single sample, with `c` in place of an `e`.
    Single(DecimalValue),
    /// The numbers of a range.
    Stepped(Steps),
}

impl SampleNumbers {
    /// Returns the numbers of a range: for a single sample its own text, for `a~b` those from a to
    /// b in steps of the last visible digit.
    ///
    /// The inner error says why `a~b` has none; the first of these that applies:
    /// [`RangeFault::End`] if an end writes no number, or one over a limit; [`RangeFault::Uneven`]
    /// if the ends have different counts of fraction digits, or different exponents;
    /// [`RangeFault::Long`] if one has more than 18 digits, counting the 0 of an absent integer
    /// part; [`RangeFault::Down`] if b is less than a; [`RangeFault::Wide`] if there would be more
    /// than 100. Signs are ignored: no sample that is read from a text has one. The outer error is
    /// out of memory.
    pub fn of(
        alloc: Global,
        range: &SampleRange,
    ) -> Result<Result<SampleNumbers, RangeFault>, AllocError>
        ensures { IfOk result (λ answer. AreNumbersOfRange range.now answer) }
    {
        match &range.upper_val {
            Some(upper) => between(alloc, &range.lower_val, upper),
            None => {
                let text = compact_text(alloc, &range.lower_val)?;
                Ok(Ok(SampleNumbers::Single(text)))
            }
        }
    }

    /// Returns how many numbers there are: 1 to 100 for a range that was read.
    pub fn count(&self) -> u64
        ensures { result ≡ count_of self.now }
    {
        match self {
            SampleNumbers::Single(_) => 1,
            SampleNumbers::Stepped(steps) => steps.count,
        }
    }

    /// Returns the text of a number, counted from 0. It allocates; the only error is out of memory.
    pub fn text(&self, alloc: Global, index: u64) -> Result<DecimalValue, AllocError>
        ensures { IfOk result (λ text. text ≡ number_at self.now index) }
    {
        match self {
            SampleNumbers::Single(text) => text.try_clone(),
            SampleNumbers::Stepped(steps) => {
                let parts = u128::from(steps.first) + u128::from(index);
                number_text(alloc, steps.places, parts, steps.exponent)
            }
        }
    }
}

// The numbers from one sample to another.
fn between(
    alloc: Global,
    lower: &DecimalValue,
    upper: &DecimalValue,
) -> Result<Result<SampleNumbers, RangeFault>, AllocError>
    ensures { IfOk result (λ answer. AreNumbersBetween lower.now upper.now answer) }
{
    match read_sample(alloc, lower) {
        Ok(Ok(first)) => numbers_to(alloc, &first, upper),
        Ok(Err(fault)) => Ok(Err(RangeFault::End(fault))),
        Err(error) => Err(error),
    }
}

// The numbers from one number, which a sample writes, to another sample.
fn numbers_to(
    alloc: Global,
    first: &CompactDecimal,
    upper: &DecimalValue,
) -> Result<Result<SampleNumbers, RangeFault>, AllocError>
    ensures { (lower : List ℕ) → GivesSampleNumber (text_with_c lower) (Ok first.now)
        → IfOk result (λ answer. AreNumbersBetween lower upper.now answer) }
{
    match read_sample(alloc, upper) {
        Ok(Ok(last)) => Ok(stepped(first, &last)),
        Ok(Err(last_fault)) => Ok(Err(RangeFault::End(last_fault))),
        Err(error) => Err(error),
    }
}

// The numbers from one number to another.
fn stepped(first: &CompactDecimal, last: &CompactDecimal) -> Result<SampleNumbers, RangeFault>
    ensures { result ≡ numbers_between first.now last.now }
{
    let (places, exponent) = (places_of(first), first.exponent());
    if places != places_of(last) {
        return Err(RangeFault::Uneven);
    }
    if exponent != last.exponent() {
        return Err(RangeFault::Uneven);
    }
    let Some(low) = parts_of(first) else {
        return Err(RangeFault::Long);
    };
    let Some(high) = parts_of(last) else {
        return Err(RangeFault::Long);
    };
    let Some(more) = high.checked_sub(low) else {
        return Err(RangeFault::Down);
    };
    if more >= MOST_NUMBERS {
        return Err(RangeFault::Wide);
    }
    Ok(SampleNumbers::Stepped(Steps {
        places,
        first: low,
        count: more + 1,
        exponent,
    }))
}
