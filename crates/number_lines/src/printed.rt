//! What is printed for numbers.

ghost use Rattle.std.specs.Prelude.{◌≡◌, OnOk, string_bytes};
ghost use Rattle.number_lines.specs.AnsweredInputs.{WritesPrinted};
ghost use Rattle.number_lines.specs.NumberAnswers.{category_answer, fault_answer};
ghost use Rattle.number_lines.specs.PrintedTexts.{both_printed, nothing_printed, only_text, without_text};

use crate::error::LinesError;
use icu_plurals::PluralCategory;
use plural_documents::write_output;
use std::alloc::{AllocError, Global};
use std::fmt;
use std::io::Write;
use std::marker::Model;

/// A text, and whether a line of it tells why a number has no category.
#[derive(Drop)]
pub struct Printed {
    text: String,
    has_fault: bool,
}

impl Model for Printed {
    ghost use Rattle.std.specs.Prelude.{string_bytes};
    ghost use Rattle.number_lines.specs.PrintedTexts.{PrintedText};

    ghost Value = { PrintedText };

    ghost view = { λ printed. record { text = string_bytes printed.text; has_fault = printed.has_fault } };
}

/// Where a number stands, from 1 on.
#[derive(Clone, Copy, Debug, PartialEq, Eq)]
pub enum Place {
    /// The line of the input.
    Line(u64),
    /// The number among the words of the command line.
    Number(u64),
}

/// Why a text has no category.
#[derive(Clone, Copy, Debug, PartialEq, Eq)]
pub enum NumberFault {
    /// It has more than 65540 bytes, as no number within the limits has.
    TooLong,
    /// It isn't UTF-8.
    NotText,
    /// It isn't a number.
    Syntax,
    /// It has more than 32767 digits on a side, or an exponent above 255.
    Limit,
}

impl fmt::Display for Place {
    ghost use Rattle.std.specs.Prelude.{Some};
    ghost use Rattle.number_lines.specs.NumberAnswers.{number_place_text};

    ghost output = { λ place. Some (number_place_text place) };

    fn fmt<W: fmt::Write>(&self, f: &mut fmt::Formatter<W>) -> fmt::Result {
        match self {
            Place::Line(place) => write!(f, "line {place}"),
            Place::Number(place) => write!(f, "number {place}"),
        }
    }
}

impl fmt::Display for NumberFault {
    ghost use Rattle.std.specs.Prelude.{Some};
    ghost use Rattle.number_lines.specs.NumberAnswers.{number_fault_text};

    ghost output = { λ fault. Some (number_fault_text fault) };

    fn fmt<W: fmt::Write>(&self, f: &mut fmt::Formatter<W>) -> fmt::Result {
        match self {
            NumberFault::TooLong => f.write_str("more than 65540 bytes"),
            NumberFault::NotText => f.write_str("not UTF-8"),
            NumberFault::Syntax => f.write_str("bad number"),
            NumberFault::Limit => f.write_str("number out of limits"),
        }
    }
}

impl Printed {
    // Nothing.
    pub(crate) fn new(alloc: Global) -> Printed
        ensures { result ≡ nothing_printed }
    {
        Printed {
            text: String::new(alloc),
            has_fault: false,
        }
    }

    /// Returns a text of which no line tells that.
    pub fn of(text: String) -> Printed
        ensures { result ≡ only_text (string_bytes text) }
    {
        Printed {
            text,
            has_fault: false,
        }
    }

    // The text.
    pub(crate) fn as_bytes(&self) -> &[u8]
        ensures { result.now ≡ self.now.text }
    {
        self.text.as_str().as_bytes()
    }

    // Forgets the text, which has been written.
    pub(crate) fn clear(&mut self)
        ensures { self.new ≡ without_text self.old }
    {
        self.text.clear();
    }

    /// Writes the text, and returns whether a line of it tells why a number has no category.
    ///
    /// The error is [`LinesError::Write`]: the writer failed, and took a beginning of the text.
    pub fn write_to<W: Write>(&self, writer: &mut W) -> Result<bool, LinesError>
        ensures { WritesPrinted self.now (W.contents writer.old) (W.contents writer.new) result }
    {
        match write_output(writer, self.as_bytes()) {
            Ok(()) => Ok(self.has_fault),
            Err(_) => Err(LinesError::Write),
        }
    }

    // Whether a line tells why a number has no category.
    pub(crate) fn has_fault(&self) -> bool
        ensures { result ≡ self.now.has_fault }
    {
        self.has_fault
    }

    // Appends the line of a category: in each case by a length that is known.
    #[inline]
    pub(crate) fn push_category(&mut self, category: PluralCategory) -> Result<(), AllocError>
        ensures { OnOk result (self.new ≡ both_printed self.old (category_answer category)) }
    {
        match category {
            PluralCategory::Zero => self.text.push_str("zero\n"),
            PluralCategory::One => self.text.push_str("one\n"),
            PluralCategory::Two => self.text.push_str("two\n"),
            PluralCategory::Few => self.text.push_str("few\n"),
            PluralCategory::Many => self.text.push_str("many\n"),
            PluralCategory::Other => self.text.push_str("other\n"),
        }
    }

    // Appends the line of a fault.
    pub(crate) fn push_fault(
        &mut self,
        alloc: Global,
        place: Place,
        fault: NumberFault,
    ) -> Result<(), AllocError>
        ensures { OnOk result (self.new ≡ both_printed self.old (fault_answer place fault)) }
    {
        let line = format!(in alloc; "{place}: {fault}\n")?;
        self.text.push_str(line.as_str())?;
        self.has_fault = true;
        Ok(())
    }
}
