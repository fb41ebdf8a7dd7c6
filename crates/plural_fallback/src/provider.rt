//! A provider over another one, which falls back.

ghost use Rattle.std.specs.Prelude.{◌≡◌, IfOk, IfErr, IsErr, Ok};
ghost use Rattle.plural_base.specs.FiveRules.{rules_of};
ghost use Rattle.plural_fallback.specs.Chain.{next_of};
ghost use Rattle.plural_fallback.specs.FirstKeys.{LoadsFirst};
ghost use Rattle.plural_fallback.specs.declared.error.FallbackError.TheVariants.{NotLoaded};

use crate::error::FallbackError;
use crate::first_key::{MOST_LOCALES, find_first};
use crate::locales::{Locales, Part};
use plural_base::{DataError, PluralRanges, PluralRulesData, PluralsProvider};

/// A provider, and the keys and parents by which a locale falls back.
#[derive(Debug, Drop)]
pub struct FallbackProvider<'a, P, L> {
    /// The provider of rules and ranges.
    pub provider: &'a P,
    /// The keys that it has, and the parents of locales.
    pub locales: &'a L,
}

/// What was loaded, and under which key.
#[derive(Debug, Drop)]
pub struct Loaded<'a, R> {
    /// The key: the first along the chain of the locale.
    pub key: &'a str,
    /// What the provider has under the key.
    pub value: R,
}

impl<'a, P: PluralsProvider, L: Locales> FallbackProvider<'a, P, L> {
    /// Returns the rules for cardinal numbers of the first locale of the chain that has a key, and
    /// the key. The errors are those of [`find_first`], and [`FallbackError::NotLoaded`] if the
    /// provider has no rules under the key. It allocates nothing.
    pub fn load_cardinal(
        &self,
        locale: &str,
    ) -> Result<Loaded<'a, PluralRulesData<'a>>, FallbackError>
        ensures { LoadsFirst MOST_LOCALES (L.keys self.now.locales.now Part.Cardinal) (next_of (L.parent self.now.locales.now))
            locale.now (P.cardinal self.now.provider.now) rules_of result }
    {
        let key = find_first(self.locales, Part::Cardinal, locale)?;
        with_key(key, self.provider.load_cardinal(key))
    }

    /// Returns the rules for ordinal numbers; otherwise as [`FallbackProvider::load_cardinal`].
    pub fn load_ordinal(
        &self,
        locale: &str,
    ) -> Result<Loaded<'a, PluralRulesData<'a>>, FallbackError>
        ensures { LoadsFirst MOST_LOCALES (L.keys self.now.locales.now Part.Ordinal) (next_of (L.parent self.now.locales.now))
            locale.now (P.ordinal self.now.provider.now) rules_of result }
    {
        let key = find_first(self.locales, Part::Ordinal, locale)?;
        with_key(key, self.provider.load_ordinal(key))
    }

    /// Returns the categories of ranges; otherwise as [`FallbackProvider::load_cardinal`].
    pub fn load_ranges(&self, locale: &str) -> Result<Loaded<'a, PluralRanges>, FallbackError>
        ensures { LoadsFirst MOST_LOCALES (L.keys self.now.locales.now Part.Ranges) (next_of (L.parent self.now.locales.now))
            locale.now (P.ranges self.now.provider.now) (λ ranges. ranges) result }
    {
        let key = find_first(self.locales, Part::Ranges, locale)?;
        with_key(key, self.provider.load_ranges(key))
    }
}

// What was loaded, with its key.
fn with_key<'a, R: Drop>(
    key: &'a str,
    value: Result<R, DataError>,
) -> Result<Loaded<'a, R>, FallbackError>
    ensures ok { IfOk result (λ loaded. (loaded.key.now ≡ key.now) × (value ≡ Ok loaded.value)) }
    ensures err { IfErr result (λ error. (error ≡ NotLoaded) × IsErr value) }
{
    match value {
        Ok(value) => Ok(Loaded { key, value }),
        Err(_) => Err(FallbackError::NotLoaded),
    }
}
