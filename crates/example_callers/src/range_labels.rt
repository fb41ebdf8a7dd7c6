//! Labels of ranges: `1 to 3 items`.

ghost use Rattle.std.specs.Prelude.{◌≡◌, IfOk, string_bytes};
ghost use Rattle.icu_plurals.specs.DecimalChoice.{IsExactChoice, IsKeptChoice};
ghost use Rattle.icu_plurals.specs.Elements.{of_category};

use icu_plurals::{
    CompactDecimal, PluralCategory, PluralElements, PluralRules, PluralRulesWithRanges,
};
use std::alloc::{AllocError, Global};

/// A number, and the text that it is shown as.
#[derive(Clone, Copy, Debug)]
pub struct ShownNumber<'a> {
    pub number: &'a CompactDecimal,
    pub text: &'a str,
}

/// The rules of a language with its ranges, and a noun for each category.
#[derive(Debug, Drop)]
pub struct RangeLabels<'a> {
    pub rules: PluralRulesWithRanges<PluralRules<'a>>,
    pub nouns: PluralElements<&'a str>,
}

impl<'a> RangeLabels<'a> {
    ghost use Rattle.example_callers.specs.RangeLabels.{IsRangeLabel};

    /// Returns the label of a range. That the end is after the start isn't checked. The only error
    /// is out of memory.
    pub fn label(
        &self,
        alloc: Global,
        start: ShownNumber<'_>,
        end: ShownNumber<'_>,
    ) -> Result<String, AllocError>
        ensures kept { IfOk result (λ label. IsRangeLabel IsKeptChoice self.now start.entry end.entry (string_bytes label)) }
        ensures exact { IfOk result (λ label. IsRangeLabel IsExactChoice self.now start.entry end.entry (string_bytes label)) }
    {
        let rules = self.rules.rules();
        let first = rules.category_for_compact(start.number);
        let last = rules.category_for_compact(end.number);
        let noun = self.noun(self.rules.resolve_range(first, last));
        format!(in alloc; "{} to {} {noun}", start.text, end.text)
    }

    // Returns the noun of a category.
    fn noun(&self, category: PluralCategory) -> &'a str
        ensures { result.now ≡ (of_category self.now.nouns category).now }
    {
        match category {
            PluralCategory::Zero => *self.nouns.zero(),
            PluralCategory::One => *self.nouns.one(),
            PluralCategory::Two => *self.nouns.two(),
            PluralCategory::Few => *self.nouns.few(),
            PluralCategory::Many => *self.nouns.many(),
            PluralCategory::Other => *self.nouns.other(),
        }
    }
}
