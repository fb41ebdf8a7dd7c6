//! The keys and the parents of locales.

ghost use Rattle.std.specs.Prelude.{◌≡◌};

/// A part of a document of rules and ranges.
#[derive(Clone, Copy, Debug, PartialEq, Eq)]
pub enum Part {
    /// The rules for cardinal numbers.
    Cardinal,
    /// The rules for ordinal numbers.
    Ordinal,
    /// The categories of ranges.
    Ranges,
}

impl Part {
    ghost use Rattle.plural_fallback.specs.LocalesJson.{part_name};

    /// Returns the key of the part in a document, such as `cardinal`.
    pub fn as_str(self) -> &'static str
        ensures { result.now ≡ part_name self }
    {
        match self {
            Part::Cardinal => "cardinal",
            Part::Ordinal => "ordinal",
            Part::Ranges => "ranges",
        }
    }
}

/// The keys of each part, and the parents of locales.
pub trait Locales {
    ghost use Rattle.std.specs.Prelude.{Option, List, ℕ};
    ghost use Rattle.std.specs.Option.{option_copied};
    ghost use Rattle.plural_fallback.specs.declared.locales.Part.{Part as PartOf};
    ghost use Rattle.plural_fallback.specs.LocaleNames.{key_of};

    // The keys of a part, in the order of their bytes.
    ghost keys: { Self → PartOf → List (List ℕ) };

    // The parent that is named for a locale.
    ghost parent: { Self → List ℕ → Option (List ℕ) };

    /// Returns the key of a locale in a part: the locale itself, else the first key, in the order
    /// of their bytes, that is the same but for ASCII case and `_` in place of `-`. It allocates
    /// nothing.
    fn find_key(&self, part: Part, locale: &[u8]) -> Option<&str>
        ensures { option_copied result ≡ key_of (keys self.now part) locale.now };

    /// Returns the parent that is named for a locale, whether or not a chain goes there. It
    /// allocates nothing.
    fn find_parent(&self, locale: &[u8]) -> Option<&str>
        ensures { option_copied result ≡ parent self.now locale.now };
}
