//! The rules of a locale from a provider.

use crate::provider::options::{PluralRuleType, PluralRulesOptions};
use crate::provider::{DataError, PluralsProvider};
use crate::rules::PluralRules;

impl<'data> PluralRules<'data> {
    ghost use Rattle.plural_base.specs.Providers.{Makes, value_for_type};

    /// Returns the rules of a locale, of the type of the options; no type means cardinal. They are
    /// borrowed from the provider. [`DataError::NotFound`] if and only if it has none. It allocates
    /// nothing.
    ///
    /// <!-- snippet crates/example_calls/src/calls/rules.rt: body of fn print_types -->
    /// ```
    /// for rule_type in [PluralRuleType::Cardinal, PluralRuleType::Ordinal] {
    ///     let options = PluralRulesOptions::from(rule_type);
    ///     let category = PluralRules::try_new_unstable(provider, "en", options)?.category_for(
    ///         PluralOperands::from(2u8),
    ///     );
    ///     println!(rt; "{category:?}")?;
    /// }
    /// ```
    ///
    /// With a provider of the rules of English, this prints
    ///
    /// <!-- snippet crates/example_calls/stdout: section options -->
    /// ```text
    /// Other
    /// Two
    /// ```
    pub fn try_new_unstable<P: PluralsProvider>(
        provider: &'data P,
        locale: &str,
        options: PluralRulesOptions,
    ) -> Result<PluralRules<'data>, DataError>
        ensures { Makes (value_for_type options.rule_type (P.cardinal provider.now locale.now) (P.ordinal provider.now locale.now)) result }
    {
        match options.rule_type {
            Some(PluralRuleType::Ordinal) => PluralRules::try_new_ordinal_unstable(
                provider, locale,
            ),
            Some(PluralRuleType::Cardinal) | None => {
                PluralRules::try_new_cardinal_unstable(provider, locale)
            }
        }
    }

    /// Returns the rules of a locale for cardinal numbers, borrowed from the provider.
    /// [`DataError::NotFound`] if and only if it has none. It allocates nothing.
    ///
    /// <!-- snippet crates/example_calls/src/english.rt: fn category_in; body of fn print_english -->
    /// ```
    /// fn category_in(english: &English, locale: &str) -> Result<PluralCategory, DataError> {
    ///     let rules = PluralRules::try_new_cardinal_unstable(english, locale)?;
    ///     Ok(rules.category_for(PluralOperands::from(1u8)))
    /// }
    ///
    /// for locale in ["en", "en-GB"] {
    ///     match category_in(english, locale) {
    ///         Ok(category) => println!(rt; "{category:?}")?,
    ///         Err(error) => println!(rt; "{error}")?,
    ///     }
    /// }
    /// ```
    ///
    /// With a provider of `"en"` alone, this prints
    ///
    /// <!-- snippet crates/example_calls/stdout: section english -->
    /// ```text
    /// One
    /// locale not found
    /// ```
    pub fn try_new_cardinal_unstable<P: PluralsProvider>(
        provider: &'data P,
        locale: &str,
    ) -> Result<PluralRules<'data>, DataError>
        ensures { Makes (P.cardinal provider.now locale.now) result }
    {
        Ok(PluralRules::from_data(provider.load_cardinal(locale)?))
    }

    /// Returns the rules of a locale for ordinal numbers, borrowed from the provider.
    /// [`DataError::NotFound`] if and only if it has none. It allocates nothing.
    ///
    /// <!-- snippet crates/example_calls/src/json.rt: "let ordinal" to "let ordinal" of fn show_places; body of fn print_places -->
    /// ```
    /// let ordinal = PluralRules::try_new_ordinal_unstable(provider, "en")?;
    ///
    /// for place in [1u32, 2, 3, 11, 22] {
    ///     let category = ordinal.category_for(PluralOperands::from(place));
    ///     println!(rt; "{place}: {category:?}")?;
    /// }
    /// ```
    ///
    /// In English this prints
    ///
    /// <!-- snippet crates/example_calls/stdout: section json -->
    /// ```text
    /// 1: One
    /// 2: Two
    /// 3: Few
    /// 11: Other
    /// 22: Two
    /// ```
    pub fn try_new_ordinal_unstable<P: PluralsProvider>(
        provider: &'data P,
        locale: &str,
    ) -> Result<PluralRules<'data>, DataError>
        ensures { Makes (P.ordinal provider.now locale.now) result }
    {
        Ok(PluralRules::from_data(provider.load_ordinal(locale)?))
    }
}
