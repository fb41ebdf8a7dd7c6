//! The rules of locales.

ghost use Rattle.std.specs.Prelude.{◌≡◌, option_map};
ghost use Rattle.icu_plurals.specs.FiveRules.{rules_of};
ghost use Rattle.message_report.specs.Inner.LanguageViews.{GivesKnown};
ghost use Rattle.message_report.specs.RulesSource.{part_of};
ghost use Rattle.plural_fallback.specs.Chain.{next_of};

use crate::rule_texts::RuleTexts;
use icu_plurals::provider::PluralRulesData;
use icu_plurals::{PluralCategory, PluralRuleType, PluralsProvider};
use plural_fallback::{FallbackProvider, Loaded, Locales, Part, find_first, is_known, is_unknown};

/// The rules of locales, each by its chain.
pub trait RulesOfLocales {
    ghost use Rattle.std.specs.Prelude.{option_map};
    ghost use Rattle.std.specs.Option.{option_copied};
    ghost use Rattle.icu_plurals.specs.FiveRules.{rules_of};
    ghost use Rattle.message_report.specs.RulesSource.{HasRules, HasText, RulesSource};

    // The rules and texts under keys, the keys, and the parents of locales.
    ghost source: { Self → RulesSource };

    /// Returns the rules of a type of the first key of a locale's chain; `None` if there is no key
    /// among the first locales, or no rules under it, or if the language is unknown: the first key
    /// is `root`, though that wasn't asked for, and the other type has no other one ([`is_known`]).
    fn rules_of(&self, rule_type: PluralRuleType, locale: &str) -> Option<PluralRulesData<'_>>
        ensures { HasRules (source self.now) rule_type locale.now (option_map rules_of result) };

    /// Returns the text of a category's rule under that key, with its samples, if there is one.
    fn text_of(
        &self,
        rule_type: PluralRuleType,
        locale: &str,
        category: PluralCategory,
    ) -> Option<&str>
        ensures { HasText (source self.now) rule_type locale.now category (option_copied result) };
}

impl<'a, P: PluralsProvider, L: Locales + RuleTexts> RulesOfLocales for FallbackProvider<'a, P, L> {
    ghost use Rattle.message_report.specs.RulesSource.{source_of};

    ghost source = { λ fallback. source_of (P.cardinal fallback.provider.now) (P.ordinal fallback.provider.now)
        (L.texts fallback.locales.now) (L.keys fallback.locales.now) (L.parent fallback.locales.now) };

    fn rules_of(&self, rule_type: PluralRuleType, locale: &str) -> Option<PluralRulesData<'_>> {
        match rule_type {
            PluralRuleType::Cardinal => match self.load_cardinal(locale) {
                Ok(loaded) => known(self.locales, locale, loaded),
                Err(_) => None,
            },
            PluralRuleType::Ordinal => match self.load_ordinal(locale) {
                Ok(loaded) => known(self.locales, locale, loaded),
                Err(_) => None,
            },
        }
    }

    fn text_of(
        &self,
        rule_type: PluralRuleType,
        locale: &str,
        category: PluralCategory,
    ) -> Option<&str> {
        let part = part_of(rule_type);
        match find_first(self.locales, part, locale) {
            Ok(key) => self.locales.rule_text(part, key, category),
            Err(_) => None,
        }
    }
}

// The part of a type.
fn part_of(rule_type: PluralRuleType) -> Part
    ensures { result ≡ part_of rule_type }
{
    match rule_type {
        PluralRuleType::Cardinal => Part::Cardinal,
        PluralRuleType::Ordinal => Part::Ordinal,
    }
}

// What was loaded for a locale, unless its language is unknown.
fn known<'a, L: Locales>(
    locales: &L,
    locale: &str,
    loaded: Loaded<'a, PluralRulesData<'a>>,
) -> Option<PluralRulesData<'a>>
    ensures { GivesKnown (L.keys locales.now) (next_of (L.parent locales.now)) locale.now loaded.entry.key.now (rules_of loaded.entry.value)
        (option_map rules_of result) }
{
    if is_unknown(locale, loaded.key) && !is_known(locales, locale) {
        drop(loaded);
        return None;
    }
    Some(loaded.value)
}
