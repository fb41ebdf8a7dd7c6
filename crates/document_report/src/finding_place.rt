//! The places in a document where something is wrong.

ghost use Rattle.std.specs.Prelude.{◌≡◌, IfOk, Some, string_bytes};
ghost use Rattle.std.specs.Bool.{OnTrue};
ghost use Rattle.document_report.specs.DocumentPlaces.{finding_place_text, finding_place_view, locale_place_text, locale_place_view};

use icu_plurals::PluralCategory;
use plural_documents::{PrintedPlace, printed_name};
use plural_fallback::Part;
use std::alloc::{AllocError, Global};
use std::fmt;
use std::fmt::Write;

/// A locale, in a part.
#[derive(Clone, Copy, Debug)]
pub struct LocalePlace<'a> {
    /// The part.
    pub part: Part,
    /// The locale: its key in the part.
    pub locale: &'a str,
}

/// A place in a document where something is wrong.
#[derive(Clone, Copy, Debug)]
pub enum FindingPlace<'a> {
    /// The document: `document`.
    Document,
    /// A key of the document: `cardinals`.
    Part(&'a str),
    /// The parents: `parents`.
    Parents,
    /// The parent of a locale, by the locale's key: `parents pt-AO`.
    Parent(&'a str),
    /// A locale: `cardinal ru`.
    Locale(LocalePlace<'a>),
    /// The text of a category: `cardinal ru few`.
    Text(LocalePlace<'a>, PluralCategory),
    /// A key of a locale, of its rules or its ranges: `cardinal ru feew`, `ranges ru one--few`.
    Key(LocalePlace<'a>, &'a str),
}

impl FindingPlace<'_> {
    /// Returns what is printed for the place. It allocates; the only error is out of memory.
    pub fn text(&self, alloc: Global) -> Result<String, AllocError>
        ensures { IfOk result (λ text. string_bytes text ≡ finding_place_text (finding_place_view self.now)) }
    {
        self.to_string(alloc)
    }
}

/// What is printed for the place: `cardinal ru few`.
impl fmt::Display for FindingPlace<'_> {
    ghost output = { λ place. Some (finding_place_text (finding_place_view place)) };

    fn fmt<W: fmt::Write>(&self, f: &mut fmt::Formatter<W>) -> fmt::Result {
        match *self {
            FindingPlace::Document => f.write_str("document"),
            FindingPlace::Part(key) => write!(f, "{}", printed_name(key)),
            FindingPlace::Parents => f.write_str("parents"),
            FindingPlace::Parent(locale) => write!(f, "parents {}", printed_name(locale)),
            FindingPlace::Locale(locale) => write!(f, "{locale}"),
            FindingPlace::Text(locale, category) => write!(f, "{locale} {category}"),
            FindingPlace::Key(locale, key) => write!(f, "{locale} {}", printed_name(key)),
        }
    }
}

/// The part and the locale: `cardinal ru`.
impl fmt::Display for LocalePlace<'_> {
    ghost output = { λ place. Some (locale_place_text (locale_place_view place)) };

    fn fmt<W: fmt::Write>(&self, f: &mut fmt::Formatter<W>) -> fmt::Result {
        write!(f, "{} {}", self.part.as_str(), printed_name(self.locale))
    }
}

impl<'a> PrintedPlace for FindingPlace<'a> {
    ghost use Rattle.document_report.specs.DocumentPlaces.{finding_place_text, finding_place_view};

    ghost text_of = { λ place. finding_place_text (finding_place_view place) };

    fn push(&self, text: &mut String) -> Result<(), AllocError> {
        match write!(text, "{self}") {
            Ok(()) => Ok(()),
            Err(_) => Err(AllocError),
        }
    }

    // Of other places than a category's text most have one finding.
    fn is_same(&self, other: &FindingPlace<'a>) -> bool {
        match (*self, *other) {
            (FindingPlace::Text(first, category), FindingPlace::Text(second, other)) => {
                category == other && is_same_locale(first, second)
            }
            _ => false,
        }
    }
}

// Whether both are one locale of a part.
fn is_same_locale(first: LocalePlace<'_>, second: LocalePlace<'_>) -> bool
    ensures { OnTrue result (locale_place_view first.entry ≡ locale_place_view second.entry) }
{
    first.part == second.part && first.locale == second.locale
}
