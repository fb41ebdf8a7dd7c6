//! What is wrong in a catalog.

use std::alloc::{AllocError, AllocFailed};
use std::fmt;

/// What is wrong in a line of a catalog. It prints what is wrong, and what to do.
#[derive(Clone, Copy, Debug)]
pub enum Cause {
    /// The line has bytes that are no UTF-8.
    NotUtf8,
    /// A text isn't closed in its line.
    UnclosedText,
    /// A backslash begins no escape, or one whose code is above 255.
    UnknownEscape,
    /// A text is no UTF-8 with its escapes, each of which is a byte.
    TextNotUtf8,
    /// There is a word that is no keyword, or a character that begins nothing.
    UnknownWord,
    /// No index of one or two digits and `]` stand behind `msgstr[`.
    BadIndex,
    /// A text has no keyword before it.
    StrayText,
    /// A keyword has no text behind it.
    NoText,
    /// `msgid_plural` doesn't stand behind its `msgid`, or stands twice.
    StrayPluralId,
    /// `msgstr` has no `msgid` before it.
    FormWithoutId,
    /// `msgstr` has no index, and its message has a `msgid_plural`.
    FormWithoutIndex,
    /// `msgstr` has an index, and its message has no `msgid_plural`.
    IndexWithoutPluralId,
    /// `msgstr` has an index that isn't the next one from 0 on.
    WrongIndex,
    /// `msgstr` stands twice.
    SecondForm,
    /// The message that begins here has no `msgstr`.
    NoForm,
}

impl fmt::Display for Cause {
    ghost use Rattle.std.specs.Prelude.{Some};
    ghost use Rattle.po_catalog.specs.Catalogs.{cause_text};

    ghost output = { λ cause. Some (cause_text cause) };

    fn fmt<W: fmt::Write>(&self, f: &mut fmt::Formatter<W>) -> fmt::Result {
        f.write_str(match self {
            Cause::NotUtf8 => "it has bytes that are no UTF-8: save the file as UTF-8",
            Cause::UnclosedText => "a text isn't closed: end it with a quotation mark in its line",
            Cause::UnknownEscape =>
                "a backslash begins no known escape: write two for the character itself",
            Cause::TextNotUtf8 =>
                "with its escapes the text is no UTF-8: write its characters themselves",
            Cause::UnknownWord => "it is no line of a .po file: correct it",
            Cause::BadIndex => "msgstr[ has no index below 100 and ]: write msgstr[0] and so on",
            Cause::StrayText => "a text has no keyword before it: write msgid or msgstr",
            Cause::NoText => "a keyword has no text behind it: write one in quotation marks",
            Cause::StrayPluralId => "msgid_plural doesn't stand behind its msgid: move it there",
            Cause::FormWithoutId => "msgstr has no msgid before it: write one",
            Cause::FormWithoutIndex =>
                "msgstr has no index beside msgid_plural: write msgstr[0] and so on",
            Cause::IndexWithoutPluralId =>
                "msgstr has an index, and no msgid_plural is before it: write one, or msgstr alone",
            Cause::WrongIndex =>
                "the index isn't the next one: number the forms from 0 on, each once",
            Cause::SecondForm => "msgstr stands twice: remove one of them",
            Cause::NoForm => "the message has no msgstr: write one",
        })
    }
}

/// What is wrong, and the line where it is, from 1 on.
#[derive(Clone, Copy, Debug)]
pub struct Fault {
    pub line: usize,
    pub cause: Cause,
}

/// Why [`read_text`](crate::read_text) returns no text.
#[derive(Clone, Copy, Debug)]
pub enum ReadError {
    /// What is wrong in the text: `UnclosedText` or `UnknownEscape`.
    Fault(Cause),
    /// Out of memory.
    Memory,
}

impl From<Cause> for ReadError {
    ghost use Rattle.std.specs.Prelude.{◌≡◌};
    ghost use Rattle.po_catalog.specs.declared.fault.ReadError.TheVariants as read;

    ghost from_gives = { λ cause error. error ≡ read.Fault cause };

    fn from(cause: Cause) -> Self {
        ReadError::Fault(cause)
    }
}

impl From<AllocError> for ReadError {
    ghost use Rattle.std.specs.Prelude.{◌≡◌};
    ghost use Rattle.po_catalog.specs.declared.fault.ReadError.TheVariants as read;

    ghost from_gives = { λ _ error. error ≡ read.Memory };

    fn from(_error: AllocError) -> Self {
        ReadError::Memory
    }
}

impl<T: Drop> From<AllocFailed<T>> for ReadError {
    ghost use Rattle.std.specs.Prelude.{◌≡◌};
    ghost use Rattle.po_catalog.specs.declared.fault.ReadError.TheVariants as read;

    ghost from_gives = { λ _ error. error ≡ read.Memory };

    fn from(_error: AllocFailed<T>) -> Self {
        ReadError::Memory
    }
}
