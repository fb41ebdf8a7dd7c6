//! The samples of a category that no whole number has.

ghost use Rattle.std.specs.Prelude.{◌≡◌};
ghost use Rattle.std.specs.Option.{option_copied};
ghost use Rattle.message_report.specs.FormFaults.{AreRareSamples, AreSamplesIn, no_samples};
ghost use Rattle.message_report.specs.RulesSource.{HasText};

use crate::source::RulesOfLocales;
use icu_plurals::{PluralCategory, PluralRuleType, PluralRules};
use plural_checker::{Sample, first_samples};
use std::alloc::Global;

// The first two samples of a text, as far as there are two.
#[derive(Clone, Copy)]
pub(crate) struct TwoSamples {
    pub(crate) first: Option<Sample>,
    pub(crate) second: Option<Sample>,
}

impl TwoSamples {
    // No samples.
    pub(crate) fn none() -> TwoSamples
        ensures { result ≡ no_samples }
    {
        TwoSamples {
            first: None,
            second: None,
        }
    }
}

// The samples of a category by its least whole number: none, if there is one.
pub(crate) fn rare_samples<S: RulesOfLocales>(
    alloc: Global,
    source: &S,
    rule_type: PluralRuleType,
    locale: &str,
    rules: &PluralRules<'_>,
    category: PluralCategory,
    least: Option<u16>,
) -> TwoSamples
    ensures { AreRareSamples rules.now (HasText (S.source source.now) rule_type locale.now) category least result }
{
    match least {
        Some(_) => TwoSamples::none(),
        None => {
            let text = source.text_of(rule_type, locale, category);
            samples_in(alloc, rules, category, text)
        }
    }
}

// The samples of a category in its text, if there is one.
fn samples_in(
    alloc: Global,
    rules: &PluralRules<'_>,
    category: PluralCategory,
    text: Option<&str>,
) -> TwoSamples
    ensures { AreSamplesIn rules.now category (option_copied text.entry) result }
{
    let Some(text) = text else {
        return TwoSamples::none();
    };
    let (first, second) = first_samples(alloc, rules, category, text);
    TwoSamples { first, second }
}
