//! Whether a number is within the exactness bound of rules.

ghost use Rattle.std.specs.Prelude.{◌≡◌, ◌↔◌, ◌^◌, ◌≤◌, Some, pos, ◌-ℤ◌, IsTrue};
ghost use Rattle.std.specs.List.{list_all};
ghost use Rattle.fixed_decimal.specs.Digits.{value_of};
ghost use Rattle.fixed_decimal.specs.Places.{IsWritten, shift_right};
ghost use Rattle.plural_reference.specs.Exactness.{IsWithinBound};
ghost use Rattle.plural_runtime.specs.Inner.RuleViews.{lent_relation};
ghost use Rattle.plural_base.specs.Inner.RulesSteps.{divides_ten_to_18};
ghost use Rattle.plural_base.specs.FiveRules.{moduli_of, moduli_of_rule, moduli_of_relation};

use crate::for_five;
use crate::rules::PluralRules;
use fixed_decimal::{CompactDecimal, Decimal, UnsignedDecimal};
use plural_reference::laws::exactness::bound_before_the_shift;
use plural_reference::{KEPT_LIMIT, KEPT_PLACES};
use plural_runtime::{Operand, Relation, Rule};

impl<'data> PluralRules<'data> {
    /// Returns whether the number is within the exactness bound of the rules. If they are read from
    /// texts, its category is then that of the number itself, and not only of what is kept of it.
    ///
    /// This holds if, after the point has moved by the exponent, the number has at most 18 fraction
    /// places; and either at most 18 integer places, or an integer part of at least `10^18` under
    /// rules whose moduli on `n` and `i` all divide `10^18`. Places count as they are written, with
    /// leading and trailing zeros. It allocates nothing.
    ///
    /// <!-- snippet crates/example_calls/src/numbers.rt: fn french; "let french" to "let french" of fn show_exactness; body of fn print_exactness -->
    /// ```
    /// fn french(alloc: Global) -> anyhow::Result<PluralRules<'static>> {
    ///     let one = Some("i = 0,1");
    ///     let many = Some("e = 0 and i != 0 and i % 1000000 = 0 and v = 0 or e != 0..5");
    ///     let data = PluralRulesData::from_texts(alloc, None, one, None, None, many)?;
    ///     Ok(PluralRules::from_data(data))
    /// }
    ///
    /// let french = french(alloc)?;
    ///
    /// for text in [
    ///     "100000000000000000000000000000",
    ///     "0.000000000000000001",
    ///     "0.0000000000000000001",
    /// ] {
    ///     let number = CompactDecimal::from_str(alloc, text)?;
    ///     let category = french.category_for_compact(&number);
    ///     let is_exact = french.is_exact_for(&number);
    ///     println!(rt; "{text}: {category:?}, exact: {is_exact}")?;
    /// }
    /// ```
    ///
    /// This prints
    ///
    /// <!-- snippet crates/example_calls/stdout: section exact -->
    /// ```text
    /// 100000000000000000000000000000: Many, exact: true
    /// 0.000000000000000001: One, exact: true
    /// 0.0000000000000000001: One, exact: false
    /// ```
    pub fn is_exact_for(&self, number: &CompactDecimal) -> bool
        ensures { let digits = number.now.significand.absolute in
            IsTrue result ↔ IsWithinBound digits number.now.exponent (moduli_of self.now) }
    {
        self.is_within_bound(&number.significand().absolute, number.exponent())
    }

    /// As [`PluralRules::is_exact_for`], for a number without an exponent.
    ///
    /// <!-- snippet crates/example_calls/src/calls/rules.rt: fn by_three; "let rules" to "let rules" of fn show_by_three; body of fn print_decimals -->
    /// ```
    /// fn by_three(alloc: Global) -> anyhow::Result<PluralRules<'static>> {
    ///     let data = PluralRulesData::from_texts(alloc, None, Some("i % 3 = 2"), None, None, None)?;
    ///     Ok(PluralRules::from_data(data))
    /// }
    ///
    /// let rules = by_three(alloc)?;
    ///
    /// for text in ["5.0", "2000000000000000000"] {
    ///     let number = Decimal::from_str(alloc, text)?;
    ///     let category = rules.category_for_decimal(&number);
    ///     let is_exact = rules.is_exact_for_decimal(&number);
    ///     println!(rt; "{text}: {category:?}, exact: {is_exact}")?;
    /// }
    /// ```
    ///
    /// This prints
    ///
    /// <!-- snippet crates/example_calls/stdout: section category_for_decimal -->
    /// ```text
    /// 5.0: One, exact: true
    /// 2000000000000000000: Other, exact: false
    /// ```
    pub fn is_exact_for_decimal(&self, number: &Decimal) -> bool
        ensures { IsTrue result ↔ IsWithinBound number.now.absolute 0 (moduli_of self.now) }
    {
        self.is_within_bound(&number.absolute, 0)
    }

    // Whether the digits, moved by the exponent, are within the bound of the rules.
    fn is_within_bound(&self, digits: &UnsignedDecimal, exponent: u8) -> bool
        ensures { IsTrue result ↔ IsWithinBound digits.now exponent (moduli_of self.now) }
    {
        let (whole, fraction) = digits.places_after(exponent);
        if fraction > KEPT_PLACES {
            return false;
        }
        if whole <= KEPT_PLACES {
            return true;
        }
        is_long_after(digits, exponent) && self.all_moduli_divide()
    }

    // Whether each modulus on n and i in the five rules divides 10 to the power 18.
    #[tactic(auto, using(crate::proofs::bound::Moduli::tests_of_both))]
    fn all_moduli_divide(&self) -> bool
        ensures { result ≡ list_all divides_ten_to_18 (moduli_of self.now) }
    {
        for_five!(self.data, |rule| {
            if !moduli_of_rule_divide(rule) {
                return false;
            }
        });
        true
    }
}

// Whether the integer part is at least 10 to the power 18 once the point has moved.
fn is_long_after(digits: &UnsignedDecimal, exponent: u8) -> bool
    requires { IsWritten digits.now }
    ensures { IsTrue result ↔ (10 ^ 18 ≤ value_of (shift_right exponent digits.now).whole) }
{
    bound_before_the_shift();
    digits.has_digit_from(first_place_above(exponent))
}

// The power of ten that the point's move turns into 10 to the power 18.
fn first_place_above(exponent: u8) -> i16
    ensures { result ≡ pos 18 -ℤ pos exponent }
{
    KEPT_PLACES as i16 - i16::from(exponent)
}

// Whether each modulus on n and i in a rule, if present, divides 10 to the power 18.
fn moduli_of_rule_divide(rule: &Option<Rule<'_>>) -> bool
    ensures { result ≡ list_all divides_ten_to_18 (moduli_of_rule rule.now) }
{
    match rule {
        Some(rule) => moduli_divide(rule),
        None => true,
    }
}

// Whether each modulus on n and i in this rule divides 10 to the power 18.
#[tactic(auto, using(crate::proofs::bound::Moduli::tests_of_both))]
fn moduli_divide(rule: &Rule<'_>) -> bool
    ensures { result ≡ list_all divides_ten_to_18 (moduli_of_rule (Some rule.now)) }
{
    for item in rule.iter() {
        if !relation_divides(item.as_relation()) {
            return false;
        }
    }
    true
}

// Whether a relation's modulus, if it is on n or i, divides 10 to the power 18.
fn relation_divides(relation: Relation<'_>) -> bool
    ensures { result ≡
        list_all divides_ten_to_18 (moduli_of_relation (lent_relation relation.entry)) }
{
    match relation.operand() {
        Operand::N | Operand::I => divides_ten_to_18(relation.modulo()),
        Operand::V | Operand::W | Operand::F | Operand::T | Operand::C | Operand::E => true,
    }
}

// Whether a modulus is 0, which doesn't count, or divides 10 to the power 18.
fn divides_ten_to_18(modulus: u32) -> bool
    ensures { result ≡ divides_ten_to_18 modulus }
{
    modulus == 0 || KEPT_LIMIT % u64::from(modulus) == 0
}
