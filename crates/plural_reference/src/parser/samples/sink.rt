//! What is done with samples as they are read (UTS 35 Part 3, Samples).

ghost use Rattle.std.specs.Prelude.{◌≡◌, ◌∷◌, ◌++◌, [], true, false, IfOk, OnOk, string_bytes};
ghost use Rattle.std.specs.Fmt.{decimal};
ghost use Rattle.plural_reference.specs.Inner.SampleReading.SampleReader.{IsStored};

use crate::ast::SampleRange;
use itoa::Buffer;
use std::alloc::{AllocError, Global};

// Room for the text of a sample: CLDR's have at most 12 bytes.
const TEXT_ROOM: usize = 16;

// Room for the ranges of a list: CLDR's have 8 in the mean.
const LIST_ROOM: usize = 8;

// Takes the texts and ranges of samples, and stores them or leaves them out: then the texts and
// lists that it gets stay empty.
pub(crate) trait Sink {
    ghost use Rattle.std.specs.Prelude.{Bool};

    ghost keeps: { Bool };

    // The text of a sample that begins.
    fn begin(alloc: Global) -> Result<String, AllocError>
        ensures { IfOk result (λ text. string_bytes text ≡ []) };

    // Digits join the text.
    fn push_number(text: &mut String, number: u32) -> Result<(), AllocError>
        ensures { OnOk result (IsStored keeps (string_bytes text.new) (string_bytes text.old ++ decimal number)) };

    // A point or the mark of an exponent joins the text.
    fn push_mark(text: &mut String, mark: &str) -> Result<(), AllocError>
        ensures { OnOk result (IsStored keeps (string_bytes text.new) (string_bytes text.old ++ mark.now)) };

    // The ranges of a list that begins.
    fn begin_list(alloc: Global) -> Result<Vec<SampleRange>, AllocError>
        ensures { IfOk result (λ ranges. ranges.items ≡ []) };

    // A range joins a list.
    fn push_range(ranges: &mut Vec<SampleRange>, range: SampleRange) -> Result<(), AllocError>
        ensures { OnOk result (IsStored keeps ranges.new.items (ranges.old.items ++ range ∷ [])) };
}

// Stores the samples.
pub(crate) struct Kept;

impl Sink for Kept {
    ghost keeps = { true };

    fn begin(alloc: Global) -> Result<String, AllocError> {
        String::with_capacity(alloc, TEXT_ROOM)
    }

    // Most numbers have one digit, which is written without a buffer and a copy.
    #[inline]
    #[tactic(auto, using(std::proofs::lemmas::Fmt::decimal_digit, std::proofs::lemmas::Str::Ascii::encode_ascii))]
    fn push_number(text: &mut String, number: u32) -> Result<(), AllocError> {
        if number < 10 {
            return text.push(char::from(b'0' + number as u8));
        }
        push_digits(text, number)
    }

    fn push_mark(text: &mut String, mark: &str) -> Result<(), AllocError> {
        text.push_str(mark)
    }

    fn begin_list(alloc: Global) -> Result<Vec<SampleRange>, AllocError> {
        Vec::with_capacity(alloc, LIST_ROOM)
    }

    fn push_range(ranges: &mut Vec<SampleRange>, range: SampleRange) -> Result<(), AllocError> {
        Ok(ranges.push(range)?)
    }
}

// The digits of a number join the text. A function of its own, so that a number of one digit is
// written without a call.
#[inline(never)]
fn push_digits(text: &mut String, number: u32) -> Result<(), AllocError>
    ensures { OnOk result (string_bytes text.new ≡ string_bytes text.old ++ decimal number) }
{
    let mut digits = Buffer::new();
    text.push_str(digits.format(number))
}

// Leaves the samples out, and allocates nothing.
pub(crate) struct LeftOut;

impl Sink for LeftOut {
    ghost keeps = { false };

    #[inline]
    fn begin(alloc: Global) -> Result<String, AllocError> {
        Ok(String::new(alloc))
    }

    #[inline]
    fn push_number(_text: &mut String, _number: u32) -> Result<(), AllocError> {
        Ok(())
    }

    #[inline]
    fn push_mark(_text: &mut String, _mark: &str) -> Result<(), AllocError> {
        Ok(())
    }

    #[inline]
    fn begin_list(alloc: Global) -> Result<Vec<SampleRange>, AllocError> {
        Ok(Vec::new(alloc))
    }

    #[inline]
    fn push_range(_ranges: &mut Vec<SampleRange>, _range: SampleRange) -> Result<(), AllocError> {
        Ok(())
    }
}
