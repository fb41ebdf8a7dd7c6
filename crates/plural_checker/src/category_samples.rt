//! The first samples of a rule's text that have a category.

ghost use Rattle.plural_checker.specs.FirstSamples.{AreFirstSamples, IsNextSample};
ghost use Rattle.plural_checker.specs.Inner.SampleSteps.{IsSampleIn};

use crate::sample::Sample;
use crate::sample_words::SampleWords;
use icu_plurals::{PluralCategory, PluralRules};
use std::alloc::Global;

/// Returns the first two samples of a rule's text that have the category under these rules: single
/// numbers and the starts of ranges, integers and decimals as they stand. Where there is one alone,
/// the second is absent; where there is none, both are. A sample with an `e`, or of more than 16
/// bytes, is passed over. It allocates nothing.
pub fn first_samples(
    alloc: Global,
    rules: &PluralRules<'_>,
    category: PluralCategory,
    text: &str,
) -> (Option<Sample>, Option<Sample>)
    ensures { AreFirstSamples rules.now category text.now result.0 result.1 }
{
    let mut words = SampleWords::of(text.as_bytes());
    let first = next_sample(alloc, rules, category, &mut words);
    let second = next_sample(alloc, rules, category, &mut words);
    (first, second)
}

// Takes words up to the first that has the category, and returns it.
fn next_sample(
    alloc: Global,
    rules: &PluralRules<'_>,
    category: PluralCategory,
    words: &mut SampleWords<'_>,
) -> Option<Sample>
    ensures { IsNextSample rules.now category words.old result words.new }
{
    while let Some(word) = words.next_word() {
        let found = sample_in(alloc, rules, category, word);
        if found.is_some() {
            return found;
        }
    }
    None
}

// A word, if it has the category.
fn sample_in(
    alloc: Global,
    rules: &PluralRules<'_>,
    category: PluralCategory,
    word: &[u8],
) -> Option<Sample>
    ensures { IsSampleIn rules.now category word.now result }
{
    let Some(sample) = Sample::of(word) else {
        return None;
    };
    let Ok(chosen) = rules.category_for_text(alloc, sample.as_str()) else {
        return None;
    };
    if chosen == category {
        Some(sample)
    } else {
        None
    }
}
