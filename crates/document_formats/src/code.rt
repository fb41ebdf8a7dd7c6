//! The codes of causes.

ghost use Rattle.std.specs.Prelude.{◌≡◌};
ghost use Rattle.document_formats.specs.DocumentCodes.{document_code_meaning, document_code_name, document_code_of, code_of_entry, code_of_text, document_code_place};

use document_report::{Cause, EntryFault};
use plural_checker::TextFault;

/// What is wrong in a finding, in a word that stays the same from version to version.
#[derive(Clone, Copy, Debug, PartialEq, Eq)]
pub enum Code {
    /// `not-a-part`: a key of the document names no part.
    NotAPart,
    /// `no-object`: the parents aren't an object.
    NoObject,
    /// `long-key`: the key of a locale has more than 255 bytes.
    LongKey,
    /// `key-with-underscore`: the key of a locale has `_`.
    KeyWithUnderscore,
    /// `no-other`: the rules of a locale have no text of other.
    NoOther,
    /// `no-text`: the value of a category, a range or a parent isn't a text.
    NoText,
    /// `long-text`: the text of a rule has too many bytes.
    LongText,
    /// `unread`: the text can't be read as a rule.
    Unread,
    /// `partly-read`: part of the text isn't read.
    PartlyRead,
    /// `sample-order`: the lists of samples are out of order.
    SampleOrder,
    /// `condition`: the text of other has a condition.
    Condition,
    /// `wrong-sample`: something is wrong with a sample.
    WrongSample,
    /// `not-a-category`: a key of a locale's rules names no category.
    NotACategory,
    /// `no-rules`: a locale has ranges and no cardinal rules.
    NoRules,
    /// `range-key`: a key of a locale's ranges names no range.
    RangeKey,
    /// `range-value`: the value of a range names no category.
    RangeValue,
    /// `no-rule`: a category of a range has no cardinal rule.
    NoRule,
    /// `long-parent`: the parent of a locale has more than 255 bytes.
    LongParent,
    /// `endless-chain`: the chain of a locale's parents doesn't end.
    EndlessChain,
    /// `no-locale`: the document has no locale.
    NoLocale,
    /// `more`: further faults of a text are only counted.
    More,
}

// All codes, in the order of the list of rules.
pub(crate) const ALL_CODES: &[Code] = &[
    Code::NotAPart,
    Code::NoObject,
    Code::LongKey,
    Code::KeyWithUnderscore,
    Code::NoOther,
    Code::NoText,
    Code::LongText,
    Code::Unread,
    Code::PartlyRead,
    Code::SampleOrder,
    Code::Condition,
    Code::WrongSample,
    Code::NotACategory,
    Code::NoRules,
    Code::RangeKey,
    Code::RangeValue,
    Code::NoRule,
    Code::LongParent,
    Code::EndlessChain,
    Code::NoLocale,
    Code::More,
];

impl Code {
    /// Returns the code of a cause.
    pub fn of(cause: &Cause) -> Code
        ensures { result ≡ document_code_of cause.now }
    {
        match cause {
            Cause::NotAPart => Code::NotAPart,
            Cause::NoObject => Code::NoObject,
            Cause::LongKey => Code::LongKey,
            Cause::KeyWithUnderscore => Code::KeyWithUnderscore,
            Cause::NoOther => Code::NoOther,
            Cause::NoText => Code::NoText,
            Cause::Text(fault) => of_text(fault),
            Cause::NotACategory => Code::NotACategory,
            Cause::NoCardinalRules => Code::NoRules,
            Cause::Entry(fault) => of_entry(*fault),
            Cause::LongParent => Code::LongParent,
            Cause::EndlessChain => Code::EndlessChain,
            Cause::NoLocale => Code::NoLocale,
            Cause::More(_) => Code::More,
        }
    }

    /// Returns its word.
    pub fn as_str(self) -> &'static str
        ensures { result.now ≡ document_code_name self }
    {
        match self {
            Code::NotAPart => "not-a-part",
            Code::NoObject => "no-object",
            Code::LongKey => "long-key",
            Code::KeyWithUnderscore => "key-with-underscore",
            Code::NoOther => "no-other",
            Code::NoText => "no-text",
            Code::LongText => "long-text",
            Code::Unread => "unread",
            Code::PartlyRead => "partly-read",
            Code::SampleOrder => "sample-order",
            Code::Condition => "condition",
            Code::WrongSample => "wrong-sample",
            Code::NotACategory => "not-a-category",
            Code::NoRules => "no-rules",
            Code::RangeKey => "range-key",
            Code::RangeValue => "range-value",
            Code::NoRule => "no-rule",
            Code::LongParent => "long-parent",
            Code::EndlessChain => "endless-chain",
            Code::NoLocale => "no-locale",
            Code::More => "more",
        }
    }

    // What it means, in a sentence.
    pub(crate) fn meaning(self) -> &'static str
        ensures { result.now ≡ document_code_meaning self }
    {
        match self {
            Code::NotAPart => "A key of the document names no part.",
            Code::NoObject => "The parents aren't an object.",
            Code::LongKey => "The key of a locale has more than 255 bytes.",
            Code::KeyWithUnderscore => "The key of a locale has an underscore.",
            Code::NoOther => "The rules of a locale have no text of other.",
            Code::NoText => "The value of a category, a range or a parent isn't a text.",
            Code::LongText => "The text of a rule has too many bytes.",
            Code::Unread => "The text can't be read as a rule.",
            Code::PartlyRead => "Part of the text of a rule isn't read.",
            Code::SampleOrder => "The lists of samples are out of order.",
            Code::Condition => "The text of other has a condition.",
            Code::WrongSample => "Something is wrong with a sample.",
            Code::NotACategory => "A key of a locale's rules names no category.",
            Code::NoRules => "A locale has ranges and no cardinal rules.",
            Code::RangeKey => "A key of a locale's ranges names no range.",
            Code::RangeValue => "The value of a range names no category.",
            Code::NoRule => "A category of a range has no cardinal rule.",
            Code::LongParent => "The parent of a locale has more than 255 bytes.",
            Code::EndlessChain => "The chain of a locale's parents doesn't end.",
            Code::NoLocale => "The document has no locale.",
            Code::More => "Further faults of a text are only counted.",
        }
    }

    // Its place in the list of rules.
    pub(crate) fn place(self) -> u8
        ensures { result ≡ document_code_place self }
    {
        match self {
            Code::NotAPart => 0,
            Code::NoObject => 1,
            Code::LongKey => 2,
            Code::KeyWithUnderscore => 3,
            Code::NoOther => 4,
            Code::NoText => 5,
            Code::LongText => 6,
            Code::Unread => 7,
            Code::PartlyRead => 8,
            Code::SampleOrder => 9,
            Code::Condition => 10,
            Code::WrongSample => 11,
            Code::NotACategory => 12,
            Code::NoRules => 13,
            Code::RangeKey => 14,
            Code::RangeValue => 15,
            Code::NoRule => 16,
            Code::LongParent => 17,
            Code::EndlessChain => 18,
            Code::NoLocale => 19,
            Code::More => 20,
        }
    }
}

// The code of a text's fault.
fn of_text(fault: &TextFault) -> Code
    ensures { result ≡ code_of_text fault.now }
{
    match fault {
        TextFault::TooLong(_) => Code::LongText,
        TextFault::Unread(..) => Code::Unread,
        TextFault::Partly(_) => Code::PartlyRead,
        TextFault::Order => Code::SampleOrder,
        TextFault::Condition => Code::Condition,
        TextFault::Sample(..) => Code::WrongSample,
    }
}

// The code of the fault of a range's entry.
fn of_entry(fault: EntryFault) -> Code
    ensures { result ≡ code_of_entry fault }
{
    match fault {
        EntryFault::RangeKey => Code::RangeKey,
        EntryFault::NoText => Code::NoText,
        EntryFault::RangeValue => Code::RangeValue,
        EntryFault::NoRule(_) => Code::NoRule,
    }
}
