//! Numbers of rules among those that are looked at.

ghost use Rattle.std.specs.Prelude.{◌≡◌, ◌^◌, ◌<◌, ◌≤◌, MatchBool};
ghost use Rattle.rule_notes.specs.Inner.OwnNumbers.{HasOwn, HasOwnDecimal, HasOwnWhole, AreDigitsLeft, has_all, is_own, is_taken_at};
ghost use Rattle.rule_notes.specs.LookedAtNumbers.{HasDecimal};

use crate::category_rule::CategoryRule;
use plural_reference::{PluralOperands, RawPluralOperands, test_condition};

// Whether the rule is true of a number that is looked at, of which no earlier one is. Small numbers
// come first: most rules have one.
pub(crate) fn has_own(earlier: &[CategoryRule], rule: &CategoryRule) -> bool
    ensures { MatchBool result (HasOwn earlier.now rule.now) (¬ (HasOwn earlier.now rule.now)) }
{
    if has_all(earlier) {
        return false;
    }
    if has_whole(earlier, rule, 0, 100) {
        return true;
    }
    if has_decimal(earlier, rule, 1) {
        return true;
    }
    if has_decimal(earlier, rule, 2) {
        return true;
    }
    has_whole(earlier, rule, 100, 10_000)
}

// Whether an earlier rule has no relation: it is true of all numbers.
fn has_all(earlier: &[CategoryRule]) -> bool
    ensures { result ≡ has_all earlier.now }
{
    earlier
        .iter()
        .any(|rule| rule.condition.0.as_slice().is_empty())
}

// Whether there is one among the whole numbers from a start on and before an end.
fn has_whole(earlier: &[CategoryRule], rule: &CategoryRule, start: u64, end: u64) -> bool
    ensures { MatchBool result (HasOwnWhole earlier.now rule.now start end) (¬ (HasOwnWhole earlier.now rule.now start end)) }
{
    for number in start..end {
        if is_own(earlier, rule, PluralOperands::from(number)) {
            return true;
        }
    }
    false
}

// Whether there is one among the decimals below 100 with so many places.
fn has_decimal(earlier: &[CategoryRule], rule: &CategoryRule, places: usize) -> bool
    requires { places ≤ 2 }
    ensures { MatchBool result (HasOwnDecimal earlier.now rule.now places) (¬ (HasOwnDecimal earlier.now rule.now places)) }
{
    let unit = 10_u64.pow(places as u32);
    for parts in 0..100 * unit {
        if is_own(earlier, rule, operands_of(places, unit, parts)) {
            return true;
        }
    }
    false
}

// The operands of `parts / unit`, where the unit is 10^places.
fn operands_of(places: usize, unit: u64, parts: u64) -> PluralOperands
    requires places { places ≤ 2 }
    requires unit { unit ≡ 10 ^ places }
    ensures { HasDecimal places parts result }
{
    let written = parts % unit;
    let (w, t) = without_zeros(places, written);
    PluralOperands::from(RawPluralOperands {
        i: parts / unit,
        v: places,
        w,
        f: written,
        t,
        c: 0,
    })
}

// How many of at most two digits are left without the zeros at their end, and what these write.
fn without_zeros(places: usize, written: u64) -> (usize, u64)
    requires places { places ≤ 2 }
    requires written { written < 10 ^ places }
    ensures { AreDigitsLeft places written result.0 result.1 }
{
    if written == 0 {
        (0, 0)
    } else if written % 10 == 0 {
        (1, written / 10)
    } else {
        (places, written)
    }
}

// Whether the rule is true of a number, and no earlier one is.
fn is_own(earlier: &[CategoryRule], rule: &CategoryRule, number: PluralOperands) -> bool
    ensures { result ≡ is_own earlier.now rule.now number }
{
    test_condition(&rule.condition, &number) && !is_taken_at(earlier, &number)
}

// Whether an earlier rule is true of a number.
fn is_taken_at(earlier: &[CategoryRule], number: &PluralOperands) -> bool
    ensures { result ≡ is_taken_at earlier.now number.now }
{
    earlier
        .iter()
        .any(|rule| test_condition(&rule.condition, number))
}
