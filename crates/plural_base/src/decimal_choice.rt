//! The categories of decimals.

ghost use Rattle.plural_base.specs.DecimalChoice.{IsExactChoice, IsKeptChoice};

use crate::category::PluralCategory;
use crate::rules::PluralRules;
use fixed_decimal::{CompactDecimal, Decimal};
use plural_reference::PluralOperands;
use plural_reference::laws::exactness::kept_operands_agree;
use plural_runtime::laws::texts_give_one_answer;

impl<'data> PluralRules<'data> {
    /// Returns the category of a decimal by its kept operands. If
    /// [`PluralRules::is_exact_for_decimal`] holds and the rules come from texts, it is the
    /// category of the number itself, whatever its length. It allocates nothing.
    ///
    /// <!-- snippet crates/example_calls/src/calls/rules.rt: fn by_three; "let rules" to "let rules" of fn show_by_three; body of fn print_decimals -->
    /// ```
    /// fn by_three(alloc: Global) -> anyhow::Result<PluralRules<'static>> {
    ///     let data = PluralRulesData::from_texts(alloc, None, Some("i % 3 = 2"), None, None, None)?;
    ///     Ok(PluralRules::from_data(data))
    /// }
    ///
    /// let rules = by_three(alloc)?;
    ///
    /// for text in ["5.0", "2000000000000000000"] {
    ///     let number = Decimal::from_str(alloc, text)?;
    ///     let category = rules.category_for_decimal(&number);
    ///     let is_exact = rules.is_exact_for_decimal(&number);
    ///     println!(rt; "{text}: {category:?}, exact: {is_exact}")?;
    /// }
    /// ```
    ///
    /// This prints
    ///
    /// <!-- snippet crates/example_calls/stdout: section category_for_decimal -->
    /// ```text
    /// 5.0: One, exact: true
    /// 2000000000000000000: Other, exact: false
    /// ```
    pub fn category_for_decimal(&self, number: &Decimal) -> PluralCategory
        ensures kept { IsKeptChoice self.now number.now.absolute 0 result }
        ensures exact { IsExactChoice self.now number.now.absolute 0 result }
    {
        kept_operands_agree();
        texts_give_one_answer();
        self.category_for(PluralOperands::from(number))
    }

    /// Returns the category of a compact decimal by its kept operands, after the point has moved by
    /// the exponent. If [`PluralRules::is_exact_for`] holds and the rules come from texts, it is
    /// the category of the number itself, whatever its length. It allocates nothing.
    ///
    /// In French
    ///
    /// <!-- snippet crates/example_calls/src/numbers.rt: fn french; "let french" to "let french" of fn show_numbers; body of fn print_numbers -->
    /// ```
    /// fn french(alloc: Global) -> anyhow::Result<PluralRules<'static>> {
    ///     let one = Some("i = 0,1");
    ///     let many = Some("e = 0 and i != 0 and i % 1000000 = 0 and v = 0 or e != 0..5");
    ///     let data = PluralRulesData::from_texts(alloc, None, one, None, None, many)?;
    ///     Ok(PluralRules::from_data(data))
    /// }
    ///
    /// let french = french(alloc)?;
    ///
    /// for text in ["1", "1.50", "1000000", "1000000.0", "1.2c6", "-2"] {
    ///     let number = CompactDecimal::from_str(alloc, text)?;
    ///     let category = french.category_for_compact(&number);
    ///     println!(rt; "{text}: {category:?}")?;
    /// }
    /// ```
    ///
    /// prints
    ///
    /// <!-- snippet crates/example_calls/stdout: section numbers -->
    /// ```text
    /// 1: One
    /// 1.50: One
    /// 1000000: Many
    /// 1000000.0: Other
    /// 1.2c6: Many
    /// -2: Other
    /// ```
    pub fn category_for_compact(&self, number: &CompactDecimal) -> PluralCategory
        ensures kept { let digits = number.now.significand.absolute in
            IsKeptChoice self.now digits number.now.exponent result }
        ensures exact { let digits = number.now.significand.absolute in
            IsExactChoice self.now digits number.now.exponent result }
    {
        kept_operands_agree();
        texts_give_one_answer();
        let operands = PluralOperands::from(number);
        self.category_for(operands)
    }
}
