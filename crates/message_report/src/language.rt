//! What is known of a language's rules of one type.

ghost use Rattle.std.specs.Prelude.{◌≡◌, IsTrue, false};
ghost use Rattle.icu_plurals.specs.FiveRules.{rules_of};
ghost use Rattle.message_report.specs.FormFaults.{AreRareSamples, IsLanguageOf};
ghost use Rattle.message_report.specs.Inner.LanguageViews.{language_view, numbers_view};
ghost use Rattle.message_report.specs.RulesSource.{HasText};

use crate::language_numbers::LanguageNumbers;
use crate::rare_samples::{TwoSamples, rare_samples};
use crate::source::RulesOfLocales;
use icu_plurals::provider::PluralRulesData;
use icu_plurals::{Five, PluralCategory, PluralRuleType, PluralRules};
use number_categories::TwoNumbers;
use plural_base::{at_category, make_five};
use std::alloc::Global;

// The categories that a language has, what is known of the numbers of each, and the samples of those
// that no whole number has.
#[derive(Clone, Copy)]
pub(crate) struct Language {
    numbers: LanguageNumbers,
    samples: Five<TwoSamples>,
    samples_of_other: TwoSamples,
}

impl Language {
    // What is known of the language of a locale's rules.
    pub(crate) fn of<S: RulesOfLocales>(
        alloc: Global,
        source: &S,
        rule_type: PluralRuleType,
        locale: &str,
        given: &PluralRulesData<'_>,
    ) -> Language
        ensures { IsLanguageOf (rules_of given.now) (HasText (S.source source.now) rule_type locale.now) (language_view result) }
    {
        let numbers = LanguageNumbers::of(given);
        let rules = PluralRules::from_data(given.as_borrowed());
        let language = Language {
            numbers,
            samples: make_five!(
                Five,
                |category| samples_of(alloc, source, rule_type, locale, &rules, &numbers, category)
            ),
            samples_of_other: samples_of(
                alloc,
                source,
                rule_type,
                locale,
                &rules,
                &numbers,
                PluralCategory::Other,
            ),
        };
        drop(rules);
        language
    }

    // Whether the language has a category.
    pub(crate) fn has(&self, category: PluralCategory) -> bool
        ensures { result ≡ (language_view self.now).has category }
    {
        self.numbers.has(category)
    }

    // The two least numbers that choose a category's form.
    pub(crate) fn numbers(
        &self,
        category: PluralCategory,
        own_zero: bool,
        own_one: bool,
    ) -> TwoNumbers
        ensures { result ≡ (language_view self.now).numbers category own_zero own_one }
    {
        self.numbers.numbers(category, own_zero, own_one)
    }

    // The samples of a category that no whole number has.
    pub(crate) fn samples(&self, category: PluralCategory) -> TwoSamples
        ensures { result ≡ (language_view self.now).samples category }
    {
        at_category!(
            self.samples,
            category,
            |samples| *samples,
            self.samples_of_other
        )
    }
}

// The samples of a category that the language has, and no whole number.
fn samples_of<S: RulesOfLocales>(
    alloc: Global,
    source: &S,
    rule_type: PluralRuleType,
    locale: &str,
    rules: &PluralRules<'_>,
    numbers: &LanguageNumbers,
    category: PluralCategory,
) -> TwoSamples
    ensures { IsTrue ((numbers_view numbers.now).has category)
        → AreRareSamples rules.now (HasText (S.source source.now) rule_type locale.now) category
        ((numbers_view numbers.now).numbers category false false).first result }
{
    if !numbers.has(category) {
        return TwoSamples::none();
    }
    let least = numbers.numbers(category, false, false).first;
    rare_samples(alloc, source, rule_type, locale, rules, category, least)
}
