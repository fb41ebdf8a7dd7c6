//! Categories that are sure to be those of the number itself.

ghost use Rattle.std.specs.Prelude.{◌≡◌, ◌↔◌, ◌≢◌, ℕ, List, Option, IfOk, IfErr, IfSome, IsSome, MatchResult, Some, ◌⊎◌};
ghost use Rattle.plural_reference.specs.Exactness.{IsWithinBound};
ghost use Rattle.plural_base.specs.DecimalChoice.{IsExactChoice};
ghost use Rattle.plural_base.specs.FiveRules.{moduli_of};
ghost use Rattle.plural_base.specs.declared.five.Five.{Five};
ghost use Rattle.plural_base.specs.PluralBaseErrors.{sure_category_error_text};
ghost use Rattle.plural_base.specs.RuleTexts.{AreRulesOf, texts_of};
ghost use Rattle.plural_base.specs.SureChoice.{IsBounded, IsSureCategory, IsSure, HasSureFault, IsOutOfMemory};

use crate::category::PluralCategory;
use crate::laws::{rules_have_every_reading, texts_give_one_answer};
use crate::rules::PluralRules;
use crate::rules::data::PluralRulesData;
use crate::rules::text::RulesTextError;
use fixed_decimal::laws::texts_write_one_number;
use fixed_decimal::{CompactDecimal, DecimalError};
use std::alloc::Global;
use std::error::Error;
use std::fmt;

/// Why [`sure_category`] returns no category.
#[derive(Clone, Copy, Debug, PartialEq, Eq)]
pub enum SureCategoryError {
    /// A text gives no rule.
    Rules(RulesTextError),
    /// The number's text is refused.
    Number(DecimalError),
    /// The number is outside the exactness bound of the rules.
    OutsideBound,
}

impl fmt::Display for SureCategoryError {
    ghost output = { λ error. Some (sure_category_error_text error) };

    fn fmt<W: fmt::Write>(&self, f: &mut fmt::Formatter<W>) -> fmt::Result {
        match self {
            SureCategoryError::Rules(error) => error.fmt(f),
            SureCategoryError::Number(error) => error.fmt(f),
            SureCategoryError::OutsideBound => f.write_str("outside the exactness bound"),
        }
    }
}

impl Error for SureCategoryError {}

/// Returns the category that a number's text has under the texts of five rules (UTS 35 Part 3,
/// Language Plural Rules), where it is sure to be that of the number itself, whatever its length.
///
/// The texts are as CLDR writes them, samples included; an absent text is no rule. Of each the
/// longest beginning that is a condition counts: of `i = 1 adn v = 0` this is `i = 1`, and the
/// category is sure by that; [`is_read_whole`](plural_reference::is_read_whole) tells such a text.
///
/// The errors, in this order: `Rules` names the first text that gives no rule, as
/// [`PluralRulesData::from_texts`] does; `Number` tells why the number's text is refused, as
/// [`CompactDecimal::from_str`] does; `OutsideBound` that the number isn't within the exactness
/// bound of the rules ([`PluralRules::is_exact_for`]). It allocates for each rule, and for a number
/// of more than 16 bytes; if memory runs out, `Rules` or `Number` says so.
pub fn sure_category(
    alloc: Global,
    zero: Option<&str>,
    one: Option<&str>,
    two: Option<&str>,
    few: Option<&str>,
    many: Option<&str>,
    number: &str,
) -> Result<PluralCategory, SureCategoryError>
    ensures exact { let texts = texts_of zero.entry one.entry two.entry few.entry many.entry in
        IfOk result (λ category. IsSureCategory texts number.now category) }
    ensures sure { let texts = texts_of zero.entry one.entry two.entry few.entry many.entry in
        IfOk result (λ _. IsSure texts number.now) }
    ensures refused { let texts = texts_of zero.entry one.entry two.entry few.entry many.entry in
        IfErr result (λ error. HasSureFault texts number.now error) }
    // The fault that there is comes, but for memory.
    ensures told { let texts = texts_of zero.entry one.entry two.entry few.entry many.entry in
        (error : SureCategoryError) → HasSureFault texts number.now error → ¬ (IsOutOfMemory error)
        → MatchResult result (λ _. ⊥) (λ found. (found ≡ error) ⊎ IsOutOfMemory found) }
    // If there is none, there is a category, but for memory.
    ensures given { let texts = texts_of zero.entry one.entry two.entry few.entry many.entry in
        IsSure texts number.now → IfErr result (λ found. IsOutOfMemory found) }
{
    texts_give_one_answer();
    texts_write_one_number();
    match PluralRulesData::from_texts(alloc, zero, one, two, few, many) {
        Ok(data) => {
            let rules = PluralRules::from_data(data);
            let sure = sure_by_rules(alloc, &rules, number);
            drop(rules);
            sure
        }
        Err(error) => Err(SureCategoryError::Rules(error)),
    }
}

// The category that a number's text has under the rules of any texts, where it is sure.
fn sure_by_rules(
    alloc: Global,
    rules: &PluralRules<'_>,
    number: &str,
) -> Result<PluralCategory, SureCategoryError>
    ensures exact { (texts : Five (Option (List ℕ))) → AreRulesOf texts rules.now → IfOk result (λ category. IsSureCategory texts number.now category) }
    ensures sure { (texts : Five (Option (List ℕ))) → AreRulesOf texts rules.now → IfOk result (λ _. IsSure texts number.now) }
    ensures refused { (texts : Five (Option (List ℕ))) → AreRulesOf texts rules.now → IfErr result (λ error. HasSureFault texts number.now error) }
{
    rules_have_every_reading();
    match CompactDecimal::from_str(alloc, number) {
        Ok(number) => sure_or_outside(rules, &number),
        Err(error) => Err(SureCategoryError::Number(error)),
    }
}

// The category of a number within the bound of the rules.
fn sure_or_outside(
    rules: &PluralRules<'_>,
    number: &CompactDecimal,
) -> Result<PluralCategory, SureCategoryError>
    ensures exact { let digits = number.now.significand.absolute in
        IfOk result (λ category. IsBounded rules.now number.now × IsExactChoice rules.now digits number.now.exponent category) }
    ensures outside { IfErr result (λ error. (error ≡ SureCategoryError.OutsideBound) × ¬ (IsBounded rules.now number.now)) }
{
    match rules.sure_category_for(number) {
        Some(category) => Ok(category),
        None => Err(SureCategoryError::OutsideBound),
    }
}

impl<'data> PluralRules<'data> {
    /// Returns the category of a number within the exactness bound of the rules, and `None` outside
    /// it. If the rules come from texts, it is the category of the number itself, whatever its
    /// length. It allocates nothing.
    pub fn sure_category_for(&self, number: &CompactDecimal) -> Option<PluralCategory>
        ensures bound { let digits = number.now.significand.absolute in
            IsSome result ↔ IsWithinBound digits number.now.exponent (moduli_of self.now) }
        ensures exact { let digits = number.now.significand.absolute in
            IfSome result (λ category.
            IsExactChoice self.now digits number.now.exponent category) }
    {
        if !self.is_exact_for(number) {
            return None;
        }
        Some(self.category_for_compact(number))
    }
}
