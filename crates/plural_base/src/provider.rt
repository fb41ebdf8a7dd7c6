//! Providers of rules and ranges.

pub(crate) mod options;
mod rules;

use crate::ranges::PluralRanges;
use crate::rules::data::PluralRulesData;
use std::error::Error;
use std::fmt;

/// Why a provider has no rules or ranges.
#[derive(Clone, Copy, Debug, PartialEq, Eq)]
pub enum DataError {
    /// The provider has no rules of this type, or no ranges, for the locale.
    NotFound,
}

impl fmt::Display for DataError {
    ghost use Rattle.std.specs.Prelude.{Some, codes};

    ghost output = { λ _. Some (codes "locale not found") };

    fn fmt<W: fmt::Write>(&self, f: &mut fmt::Formatter<W>) -> fmt::Result {
        f.write_str("locale not found")
    }
}

impl Error for DataError {}

/// Rules and ranges by locale: a map for cardinal numbers, one for ordinal numbers and one for
/// ranges. A locale is a text, compared byte by byte; no other locale stands in for one that is
/// absent.
///
/// An implementation names its maps by three ghost members, `cardinal`, `ordinal` and `ranges`:
/// functions from the provider and a locale's bytes to the five rules or the ranges, or `None`.
/// Each call returns what the map of its name says. So a provider of English alone, with no ordinal
/// numbers and no ranges, is
///
/// <!-- snippet crates/example_calls/src/english.rt: struct English; impl PluralsProvider for English -->
/// ```
/// #[derive(Drop)]
/// pub struct English {
///     pub cardinal: PluralRulesData<'static>,
/// }
///
/// impl PluralsProvider for English {
///     ghost use Rattle.std.specs.Prelude.{Some, None, codes, if◌then◌else◌};
///     ghost use Rattle.std.specs.Str.{bytes_eq};
///     ghost use Rattle.icu_plurals.specs.FiveRules.{rules_of};
///
///     ghost cardinal = { λ english locale. if bytes_eq locale (codes "en") then Some (rules_of english.cardinal) else None };
///
///     ghost ordinal = { λ english locale. None };
///
///     ghost ranges = { λ english locale. None };
///
///     fn load_cardinal(&self, locale: &str) -> Result<PluralRulesData<'_>, DataError> {
///         if locale == "en" {
///             Ok(self.cardinal.as_borrowed())
///         } else {
///             Err(DataError::NotFound)
///         }
///     }
///
///     fn load_ordinal(&self, _locale: &str) -> Result<PluralRulesData<'_>, DataError> {
///         Err(DataError::NotFound)
///     }
///
///     fn load_ranges(&self, _locale: &str) -> Result<PluralRanges, DataError> {
///         Err(DataError::NotFound)
///     }
/// }
/// ```
pub trait PluralsProvider {
    ghost use Rattle.std.specs.Prelude.{Option, List, ℕ};
    ghost use Rattle.plural_base.specs.declared.ranges.PluralRanges.{PluralRanges as Ranges};
    ghost use Rattle.plural_base.specs.FiveRules.{FiveRules};
    ghost use Rattle.plural_base.specs.Providers.{Loads, LoadsRanges};

    // The rules for cardinal numbers of a locale.
    ghost cardinal: { Self → List ℕ → Option FiveRules };

    // The rules for ordinal numbers of a locale.
    ghost ordinal: { Self → List ℕ → Option FiveRules };

    // The categories of ranges of a locale.
    ghost ranges: { Self → List ℕ → Option Ranges };

    /// Returns the locale's rules for cardinal numbers, borrowed; [`DataError::NotFound`] if and
    /// only if there are none. It allocates nothing.
    fn load_cardinal(&self, locale: &str) -> Result<PluralRulesData<'_>, DataError>
        ensures { Loads (cardinal self.now locale.now) result };

    /// Returns the locale's rules for ordinal numbers, borrowed; [`DataError::NotFound`] if and
    /// only if there are none. It allocates nothing.
    fn load_ordinal(&self, locale: &str) -> Result<PluralRulesData<'_>, DataError>
        ensures { Loads (ordinal self.now locale.now) result };

    /// Returns the locale's categories of ranges; [`DataError::NotFound`] if and only if there are
    /// none. It allocates nothing.
    fn load_ranges(&self, locale: &str) -> Result<PluralRanges, DataError>
        ensures { LoadsRanges (ranges self.now locale.now) result };
}
