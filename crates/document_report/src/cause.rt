//! What is wrong at a place.

ghost use Rattle.std.specs.Prelude.{Some};
ghost use Rattle.document_report.specs.DocumentFindings.{document_cause_text};

use crate::entry::EntryFault;
use plural_checker::TextFault;
use std::fmt;

/// What is wrong at a place.
#[derive(Debug, Drop)]
pub enum Cause {
    /// A key of the document names no part.
    NotAPart,
    /// The parents should be an object.
    NoObject,
    /// The key of a locale has more than 255 bytes.
    LongKey,
    /// The key of a locale has `_`.
    KeyWithUnderscore,
    /// The rules of a locale have no text of other.
    NoOther,
    /// The value of a category or a parent should be a text.
    NoText,
    /// The fault of a category's text.
    Text(TextFault),
    /// A key of a locale's rules names no category.
    NotACategory,
    /// A locale has ranges and no cardinal rules.
    NoCardinalRules,
    /// The fault of an entry of a locale's ranges.
    Entry(EntryFault),
    /// The parent of a locale has more than 255 bytes.
    LongParent,
    /// The chain of a locale's parents doesn't end.
    EndlessChain,
    /// The document has no locale.
    NoLocale,
    /// So many more faults of the text aren't told.
    More(u64),
}

impl fmt::Display for Cause {
    ghost output = { λ cause. Some (document_cause_text cause) };

    fn fmt<W: fmt::Write>(&self, f: &mut fmt::Formatter<W>) -> fmt::Result {
        match self {
            Cause::NotAPart => f.write_str("not a part"),
            Cause::NoObject => f.write_str("no object"),
            Cause::LongKey => f.write_str("key too long"),
            Cause::KeyWithUnderscore => f.write_str("key with _"),
            Cause::NoOther => f.write_str("no other"),
            Cause::NoText => f.write_str("no text"),
            Cause::Text(fault) => write!(f, "{fault}"),
            Cause::NotACategory => f.write_str("not a category"),
            Cause::NoCardinalRules => f.write_str("no cardinal rules"),
            Cause::Entry(fault) => write!(f, "{fault}"),
            Cause::LongParent => f.write_str("parent too long"),
            Cause::EndlessChain => f.write_str("the chain of parents doesn't end"),
            Cause::NoLocale => f.write_str("no locale"),
            Cause::More(count) => write!(f, "and {count} more"),
        }
    }
}
