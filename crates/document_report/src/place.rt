//! The places where an object is expected in a document.

ghost use Rattle.std.specs.Prelude.{◌≡◌, Some, IfOk};
ghost use Rattle.plural_documents.specs.PrintedKeys.{name_text};
ghost use Rattle.document_report.specs.CheckedDocument.{place_text};

use plural_documents::name_text;
use plural_fallback::Part;
use std::alloc::{AllocError, Global};
use std::fmt;
use std::marker::Model;

/// The printed text of a locale's key: control characters of ASCII and the backslash as `\x` and
/// two hexadecimal digits, and `\(300 bytes)` in place of a key that would print more than 64
/// bytes.
#[derive(Debug)]
pub struct Locale {
    text: String,
}

// Written out, so that each end of a value is one call.
impl Drop for Locale {
    fn drop(self) {
        let Locale { text: _ } = self;
    }
}

impl Model for Locale {
    ghost use Rattle.std.specs.Prelude.{List, ℕ, string_bytes};

    ghost Value = { List ℕ };

    ghost view = { λ locale. string_bytes locale.text };
}

impl Locale {
    /// Returns the printed text of a key. It takes memory; the only error is out of memory.
    pub fn from_str(alloc: Global, key: &str) -> Result<Locale, AllocError>
        ensures { IfOk result (λ locale. locale ≡ name_text key.now) }
    {
        Ok(Locale {
            text: name_text(alloc, key)?,
        })
    }

    /// Returns the text.
    pub fn as_str(&self) -> &str
        ensures { result.now ≡ self.now }
    {
        self.text.as_str()
    }
}

/// A place where an object is expected.
#[derive(Debug, Drop)]
pub enum Place {
    /// The document itself.
    Document,
    /// The value of a part.
    Part(Part),
    /// The value of a locale in a part.
    Locale(Part, Locale),
}

impl fmt::Display for Place {
    ghost output = { λ place. Some (place_text place) };

    fn fmt<W: fmt::Write>(&self, f: &mut fmt::Formatter<W>) -> fmt::Result {
        match self {
            Place::Document => f.write_str("document"),
            Place::Part(part) => f.write_str(part.as_str()),
            Place::Locale(part, locale) => write!(f, "{} {}", part.as_str(), locale.as_str()),
        }
    }
}
