//! Rules that the categories of a message's numbers are asked of.

ghost use Rattle.plural_base.specs.DecimalChoice.{IsExactChoice, IsKeptChoice, IsTextAnswer};

use fixed_decimal::{CompactDecimal, DecimalError};
use plural_base::{PluralCategory, PluralRules, PreparedRules};
use std::alloc::Global;

/// Rules that the categories of a message's numbers are asked of, as they are or with tables.
pub trait TextRules {
    ghost use Rattle.plural_base.specs.FiveRules.{FiveRules};

    ghost rules: { Self → FiveRules };

    /// Returns the category of the number that a text writes.
    fn category_for_text(&self, alloc: Global, number: &str) -> Result<PluralCategory, DecimalError>
        ensures { IsTextAnswer (rules self.now) number.now result };

    /// Returns the category of a number.
    fn category_for_compact(&self, number: &CompactDecimal) -> PluralCategory
        ensures kept { IsKeptChoice (rules self.now) number.now.significand.absolute number.now.exponent result }
        ensures exact { IsExactChoice (rules self.now) number.now.significand.absolute number.now.exponent result };
}

impl<'data> TextRules for PluralRules<'data> {
    ghost rules = { λ rules. rules };

    #[inline(always)]
    fn category_for_text(
        &self,
        alloc: Global,
        number: &str,
    ) -> Result<PluralCategory, DecimalError> {
        self.category_for_text(alloc, number)
    }

    fn category_for_compact(&self, number: &CompactDecimal) -> PluralCategory {
        self.category_for_compact(number)
    }
}

impl<'data> TextRules for PreparedRules<'data> {
    ghost rules = { λ rules. rules };

    #[inline(always)]
    fn category_for_text(
        &self,
        alloc: Global,
        number: &str,
    ) -> Result<PluralCategory, DecimalError> {
        self.category_for_text(alloc, number)
    }

    fn category_for_compact(&self, number: &CompactDecimal) -> PluralCategory {
        self.rules().category_for_compact(number)
    }
}
