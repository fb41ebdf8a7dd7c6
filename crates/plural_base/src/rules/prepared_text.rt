//! The categories of operands and of texts by prepared rules.

ghost use Rattle.std.specs.Prelude.{◌≡◌, ◌≤◌, Contains, IfSome};
ghost use Rattle.fixed_decimal.specs.Places.{IsWithinLimit};
ghost use Rattle.fixed_decimal.specs.Written.{CompactNumber, WritesCompact, IsCompactOverLimit};
ghost use Rattle.plural_operands.specs.Operands.{AreKept, of_whole};
ghost use Rattle.plural_base.specs.DecimalChoice.{IsTextAnswer};
ghost use Rattle.plural_base.specs.FiveRules.{first_category, categories_of};
ghost use Rattle.plural_runtime.specs.PackedTruth.{packed_truth};

use crate::category::PluralCategory;
use crate::laws::kept_choice_is_exact;
use crate::rules::PluralRules;
use crate::rules::prepared::PreparedRules;
use fixed_decimal::DecimalError;
use plural_operands::integer_of_text;
use plural_reference::{PluralOperands, RawPluralOperands};
use std::alloc::Global;

impl<'data> PreparedRules<'data> {
    /// Returns the category of a number by its operands, as
    /// [`PluralRules::category_for`] does. It allocates nothing.
    #[inline]
    pub fn category_for(&self, operands: PluralOperands) -> PluralCategory
        ensures first { result ≡ first_category (packed_truth operands) self.now }
        ensures member { Contains (categories_of self.now) result }
    {
        self.by_operands(operands)
    }

    // The category by the tables or the fraction where they tell it, else by the rules.
    #[inline]
    fn by_operands(&self, operands: PluralOperands) -> PluralCategory
        ensures { result ≡ first_category (packed_truth operands) self.now }
    {
        if let Some(number) = operands.as_integer() {
            return self.by_tables(number);
        }
        if let Some(category) = self.told_of_fraction(operands) {
            return category;
        }
        asked_operands(self.rules(), operands)
    }

    /// Returns the category of the number that a text writes, as
    /// [`PluralRules::category_for_text`] does, and its
    /// errors. A whole number of at most 18 digits is looked up in the tables, and where the rules
    /// have one category for all fractions, as in English and Russian, none of them is asked.
    #[inline(always)]
    pub fn category_for_text(
        &self,
        alloc: Global,
        number: &str,
    ) -> Result<PluralCategory, DecimalError>
        ensures { IsTextAnswer self.now number.now result }
    {
        kept_choice_is_exact();
        match few_digits(number) {
            Some(integer) => Ok(self.category_for_integer(integer)),
            None => self.by_text_operands(alloc, number),
        }
    }

    // The same by the operands of the text.
    #[inline(never)]
    fn by_text_operands(&self, alloc: Global, number: &str) -> Result<PluralCategory, DecimalError>
        ensures { IsTextAnswer self.now number.now result }
    {
        kept_choice_is_exact();
        match PluralOperands::from_compact_text(alloc, number) {
            Ok(operands) => Ok(self.category_for(operands)),
            Err(error) => Err(error),
        }
    }
}

// The integer that a text of at most eight digits writes. A longer text often has a point behind
// many digits, which would be read twice.
#[inline(always)]
fn few_digits(text: &str) -> Option<u64>
    ensures kept { IfSome result (λ n. (x : CompactNumber) × WritesCompact text.now x
        × IsWithinLimit x.significand.absolute × (x.exponent ≤ 255)
        × AreKept x.significand.absolute x.exponent (of_whole n)) }
    ensures limit { IfSome result (λ n.
        ¬ ((x : CompactNumber) × WritesCompact text.now x × IsCompactOverLimit x)) }
{
    if text.len() > 8 {
        return None;
    }
    integer_of_text(text)
}

// The category of operands by the rules themselves. They are handed on one by one: handed on in one
// piece, they would be stored there whether or not the rules are asked.
#[inline(always)]
fn asked_operands(rules: &PluralRules<'_>, operands: PluralOperands) -> PluralCategory
    ensures { result ≡ first_category (packed_truth operands) rules.now }
{
    let raw = RawPluralOperands::from(operands);
    asked_each(rules, raw.i, raw.v, raw.w, raw.f, raw.t, raw.c)
}

// The same of six operands.
#[inline(never)]
fn asked_each(
    rules: &PluralRules<'_>,
    i: u64,
    v: usize,
    w: usize,
    f: u64,
    t: u64,
    c: usize,
) -> PluralCategory
    ensures { result ≡ first_category (packed_truth (record { i = i; v = v; w = w; f = f; t = t; c = c })) rules.now }
{
    rules.category_for(PluralOperands::from(RawPluralOperands { i, v, w, f, t, c }))
}
