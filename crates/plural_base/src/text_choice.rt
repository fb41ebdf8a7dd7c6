//! The categories of texts.

ghost use Rattle.plural_base.specs.DecimalChoice.{IsTextAnswer};

use crate::category::PluralCategory;
use crate::laws::kept_choice_is_exact;
use crate::rules::PluralRules;
use fixed_decimal::DecimalError;
use plural_reference::PluralOperands;
use std::alloc::Global;

impl<'data> PluralRules<'data> {
    /// Returns the category of the number that a text writes, as
    /// [`PluralRules::category_for_compact`] does for the number that
    /// [`CompactDecimal::from_str`](fixed_decimal::CompactDecimal::from_str) reads, whose errors
    /// these are: `Syntax` if the text isn't of this form, `Limit` if it has more than 32767 places
    /// on a side or an exponent above 255, and `Memory` if the digits can't be allocated, never of
    /// a text of at most 16 bytes. A text of at most 18 digits on each side of the point, with no
    /// exponent or one of at most two digits that leaves at most 18 integer places, is read in one
    /// walk, and allocates nothing.
    #[inline]
    pub fn category_for_text(
        &self,
        alloc: Global,
        number: &str,
    ) -> Result<PluralCategory, DecimalError>
        ensures { IsTextAnswer self.now number.now result }
    {
        kept_choice_is_exact();
        match PluralOperands::from_compact_text(alloc, number) {
            Ok(operands) => Ok(self.category_for(operands)),
            Err(error) => Err(error),
        }
    }
}
