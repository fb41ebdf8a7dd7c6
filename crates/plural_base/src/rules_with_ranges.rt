//! Rules with the categories of ranges.

ghost use Rattle.std.specs.Prelude.{◌≡◌};
ghost use Rattle.plural_runtime.specs.PackedTruth.{packed_truth};
ghost use Rattle.plural_base.specs.FiveRules.{first_category};
ghost use Rattle.plural_base.specs.Providers.{value_for_type, MakesBoth, MakesWith};
ghost use Rattle.plural_base.specs.Ranges.{resolved};

use crate::category::PluralCategory;
use crate::category::raw::RawPluralCategory;
use crate::provider::options::PluralRulesOptions;
use crate::provider::{DataError, PluralsProvider};
use crate::ranges::PluralRanges;
use crate::rules::PluralRules;
use crate::rules::as_plural_rules::AsPluralRules;
use plural_reference::PluralOperands;
use std::marker::Model;

/// Rules and the categories of ranges, which choose a range's category by those of its start and
/// its end (UTS 35 Part 3, Plural Ranges). The order of start and end isn't checked, nor that both
/// are positive.
///
/// <!-- snippet crates/example_calls/src/ranges.rt: "let english" to "let english" of fn show_ranges; body of fn print_ranges -->
/// ```
/// let english = PluralRulesWithRanges::try_new_cardinal_unstable(provider, "en")?;
///
/// for (start, end) in [(0u8, 1u8), (1, 2)] {
///     let start = PluralOperands::from(start);
///     let end = PluralOperands::from(end);
///     println!(rt; "{:?}", english.category_for_range(start, end))?;
/// }
/// ```
///
/// The ranges from 0 to 1 and from 1 to 2 have the categories
///
/// <!-- snippet crates/example_calls/stdout: section ranges -->
/// ```text
/// Other
/// Other
/// ```
#[derive(Debug, Drop)]
pub struct PluralRulesWithRanges<R> {
    rules: R,
    ranges: PluralRanges,
}

impl<R> Model for PluralRulesWithRanges<R> {
    ghost use Rattle.plural_base.specs.Providers.{WithRanges};

    ghost Value = { WithRanges R };

    ghost view = { λ r. record { rules = r.rules; ranges = r.ranges } };
}

impl<'data, R: AsPluralRules<'data>> PluralRulesWithRanges<R> {
    /// Returns the rules.
    pub fn rules(&self) -> &PluralRules<'data>
        ensures { result.now ≡ R.rules self.now.rules }
    {
        self.rules.as_plural_rules()
    }

    /// Returns the category of a range of numbers, by the operands of its start and its end. It
    /// allocates nothing.
    ///
    /// <!-- snippet crates/tests_libraries/src/tests/plural_base_ranges.rt: example fn cardinal -->
    /// ```
    /// fn cardinal(
    ///     provider: &JsonProvider,
    ///     locale: &str,
    ///     start: u64,
    ///     end: u64,
    /// ) -> Result<PluralCategory, DataError> {
    ///     let rules = PluralRulesWithRanges::try_new_cardinal_unstable(provider, locale)?;
    ///     Ok(rules.category_for_range(PluralOperands::from(start), PluralOperands::from(end)))
    /// }
    /// ```
    pub fn category_for_range(&self, start: PluralOperands, end: PluralOperands) -> PluralCategory
        ensures { result ≡ resolved self.now.ranges
            (first_category (packed_truth start) (R.rules self.now.rules))
            (first_category (packed_truth end) (R.rules self.now.rules)) }
    {
        let rules = self.rules();
        let start = rules.category_for(start);
        let end = rules.category_for(end);
        self.resolve_range(start, end)
    }

    /// Returns the category of a range, by those of its start and its end: the pair's, if it has
    /// one, else the end's.
    ///
    /// <!-- snippet crates/tests_libraries/src/tests/plural_base_ranges.rt:
    ///      example "let resolved = ranges.resolve_range(PluralCategory::Other" to "holds!" -->
    /// ```
    /// let resolved = ranges.resolve_range(PluralCategory::Other, PluralCategory::One);
    /// assert!(rt; resolved == PluralCategory::Few);
    /// ```
    pub fn resolve_range(&self, start: PluralCategory, end: PluralCategory) -> PluralCategory
        ensures { result ≡ resolved self.now.ranges start end }
    {
        let found = self.ranges.get(RawPluralCategory::from(start), RawPluralCategory::from(end));
        match found {
            Some(category) => PluralCategory::from(category),
            None => end,
        }
    }
}

impl<'data> PluralRulesWithRanges<PluralRules<'data>> {
    /// Returns the rules of a locale, of the type of the options, and its ranges; no type means
    /// cardinal. The rules are borrowed from the provider. [`DataError::NotFound`] if and only if
    /// the provider has no such rules or no ranges. It allocates nothing.
    ///
    /// <!-- snippet crates/tests_libraries/src/tests/plural_base_ranges.rt: example fn zero_to_one -->
    /// ```
    /// fn zero_to_one(
    ///     provider: &JsonProvider,
    ///     options: PluralRulesOptions,
    /// ) -> Result<PluralCategory, DataError> {
    ///     let rules = PluralRulesWithRanges::try_new_unstable(provider, "a", options)?;
    ///     Ok(rules.category_for_range(PluralOperands::from(0u64), PluralOperands::from(1u64)))
    /// }
    /// ```
    pub fn try_new_unstable<P: PluralsProvider>(
        provider: &'data P,
        locale: &str,
        options: PluralRulesOptions,
    ) -> Result<PluralRulesWithRanges<PluralRules<'data>>, DataError>
        ensures { MakesBoth (value_for_type options.rule_type (P.cardinal provider.now locale.now) (P.ordinal provider.now locale.now))
            (P.ranges provider.now locale.now) result }
    {
        let rules = PluralRules::try_new_unstable(provider, locale, options)?;
        PluralRulesWithRanges::try_new_with_rules_unstable(provider, locale, rules)
    }

    /// Returns the rules of a locale for cardinal numbers, and its ranges; otherwise as
    /// [`PluralRulesWithRanges::try_new_unstable`].
    pub fn try_new_cardinal_unstable<P: PluralsProvider>(
        provider: &'data P,
        locale: &str,
    ) -> Result<PluralRulesWithRanges<PluralRules<'data>>, DataError>
        ensures { MakesBoth (P.cardinal provider.now locale.now) (P.ranges provider.now locale.now) result }
    {
        let rules = PluralRules::try_new_cardinal_unstable(provider, locale)?;
        PluralRulesWithRanges::try_new_with_rules_unstable(provider, locale, rules)
    }

    /// Returns the rules of a locale for ordinal numbers, and its ranges; otherwise as
    /// [`PluralRulesWithRanges::try_new_unstable`].
    pub fn try_new_ordinal_unstable<P: PluralsProvider>(
        provider: &'data P,
        locale: &str,
    ) -> Result<PluralRulesWithRanges<PluralRules<'data>>, DataError>
        ensures { MakesBoth (P.ordinal provider.now locale.now) (P.ranges provider.now locale.now) result }
    {
        let rules = PluralRules::try_new_ordinal_unstable(provider, locale)?;
        PluralRulesWithRanges::try_new_with_rules_unstable(provider, locale, rules)
    }
}

impl<R: Drop> PluralRulesWithRanges<R> {
    /// Returns these rules, and the ranges of a locale. Whether the rules are those of the locale
    /// isn't checked. [`DataError::NotFound`] if and only if the provider has no ranges. It
    /// allocates nothing.
    ///
    /// <!-- snippet crates/example_calls/src/named.rt: "let named" to "let ranges" of fn show_named_range; body of fn print_named_range -->
    /// ```
    /// let named = Named {
    ///     name: "English",
    ///     rules: PluralRules::try_new_cardinal_unstable(provider, "en")?,
    /// };
    /// let name = named.name;
    /// let ranges = PluralRulesWithRanges::try_new_with_rules_unstable(provider, "en", named)?;
    ///
    /// let category = ranges.resolve_range(PluralCategory::Other, PluralCategory::One);
    /// println!(rt; "{name}: {category:?}")?;
    /// ```
    pub fn try_new_with_rules_unstable<P: PluralsProvider>(
        provider: &P,
        locale: &str,
        rules: R,
    ) -> Result<PluralRulesWithRanges<R>, DataError>
        ensures { MakesWith rules (P.ranges provider.now locale.now) result }
    {
        let ranges = provider.load_ranges(locale)?;
        Ok(PluralRulesWithRanges { rules, ranges })
    }
}
