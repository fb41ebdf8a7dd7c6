//! Tells whether a rule is true, by its bytes alone.

ghost use Rattle.std.specs.Prelude.{◌≡◌, ◌≤◌, ◌+◌, ◌<◌, ◌∷◌, ◌++◌, ℕ, List, min, length, option_map, IsFalse, IsTrue};
ghost use Rattle.std.specs.Fn.{iterate};
ghost use Rattle.plural_reference.specs.Truth.{holds_value, is_in_ranges, range_holds, remainder};
ghost use Rattle.plural_operands.specs.Operands.{operand_value};
ghost use Rattle.std.specs.List.{AllByRecursion, list_all};
ghost use Rattle.plural_runtime.specs.declared.kinds.AndOr.TheVariants.{And, Or};
ghost use Rattle.plural_runtime.specs.PackedRelations.{is_relation, is_whole, range_length};
ghost use Rattle.plural_runtime.specs.Inner.RuleReading.{relation_in, range_in, ranges_in};
ghost use Rattle.plural_runtime.specs.PackedTruth.{packed_truth, is_true_at, needed_ranges, range_count, needed_of_relation, needed_of_list};

use crate::item::{RANGE_LENGTH, and_or_at, low_operand_at, modulo_at, polarity_at, ranges_at};
use crate::kinds::{AndOr, Polarity};
use crate::laws::at_most_all;
use crate::rule::Rule;
use crate::steps::{Counter, Steps, Uncounted};
use packed_list::Cursor;
use plural_reference::{PluralOperands, ast};

/// Returns whether the rule is true of the operands: all relations of one of its groups are (UTS 35
/// Part 3, Plural Rules Syntax). A rule without relations is true, and so is one whose first
/// relation is marked Or.
///
/// A relation on `n` at a fraction that isn't zero is in no list: false under `=`, true under `!=`.
/// A modulus 0 is none. It allocates nothing.
///
/// <!-- snippet crates/tests_libraries/src/tests/plural_runtime_examples.rt:
/// example "let rule" to "let rule" of fn a_simple_rule_is_one_relation; example "holds!(rt; test_rule"
/// to "holds!(rt; test_rule" of fn a_simple_rule_is_one_relation -->
/// ```
/// let rule = Rule::from_str(alloc, "i = 1")?;
///
/// assert!(rt; test_rule(&rule, &PluralOperands::from(1u8)));
/// ```
// Inlined, it keeps the operands of an integer constants where a category is chosen.
#[inline(always)]
pub fn test_rule(rule: &Rule<'_>, operands: &PluralOperands) -> bool
    ensures { result ≡ packed_truth operands.now rule.now }
{
    is_true(rule, operands, &mut Uncounted)
}

/// [`test_rule`], with exactly one step for each range that is needed to tell.
///
/// A range is needed if no earlier group is true, all earlier relations of its group are, its
/// operand isn't `n` at a fraction that isn't zero, and no earlier range of its list holds the
/// value.
///
/// <!-- snippet crates/tests_libraries/src/tests/plural_runtime_examples.rt: example "let rule" to "}" of fn a_count_goes_on -->
/// ```
/// let rule = Rule::from_str(alloc, "i = 1..2, 4")?;
/// let mut steps = Steps::new();
/// for (number, count) in [(4u8, 2), (1, 3), (9, 5)] {
///     let _answer = test_rule_counted(&rule, &PluralOperands::from(number), &mut steps);
///     assert!(rt; steps.count() == count);
/// }
/// ```
pub fn test_rule_counted(rule: &Rule<'_>, operands: &PluralOperands, steps: &mut Steps) -> bool
    ensures answer { result ≡ packed_truth operands.now rule.now }
    ensures count { steps.new ≡ min (steps.old + needed_ranges operands.now rule.now) 18446744073709551615 }
    ensures at_most { steps.new ≤ steps.old + range_count rule.now }
{
    // Only for the proof: shows that the count so far fits 64 bits.
    let _before = steps.count();
    at_most_all();
    is_true(rule, operands, steps)
}

// Whether the rule is true. Each range that is needed is counted.
#[inline(always)]
fn is_true<C: Counter>(rule: &Rule<'_>, operands: &PluralOperands, counter: &mut C) -> bool
    ensures answer { result ≡ packed_truth operands.now rule.now }
    ensures count { counter.new ≡ iterate C.after_one (needed_ranges operands.now rule.now) counter.old }
{
    let Some(mut cursor) = rule.list().cursor() else {
        return true;
    };
    let AndOr::And = and_or_at(cursor.item()) else {
        return true;
    };
    // All relations before the item in its group are true, and no earlier group is, so no other
    // state is needed.
    'relations: loop {
        if relation_holds(cursor.item(), operands, counter) {
            if !next_of_group(&mut cursor) {
                return true;
            }
        } else if !first_of_next_group(&mut cursor) {
            return false;
        }
    }
}

// Moves to the next relation. Returns whether it is of the same group; at its end there is none.
#[inline]
fn next_of_group(cursor: &mut Cursor<'_>) -> bool
    requires { IsTrue (list_all is_relation cursor.old.rest) }
    ensures found { IsTrue result → (cursor.old.rest ≡ cursor.new.item ∷ cursor.new.rest) × ((relation_in cursor.new.item).and_or ≡ And) }
    ensures none { IsFalse result → (item : List ℕ) (rest : List (List ℕ)) → cursor.old.rest ≡ item ∷ rest → (relation_in item).and_or ≡ Or }
{
    if !cursor.advance() {
        return false;
    }
    match and_or_at(cursor.item()) {
        AndOr::And => true,
        AndOr::Or => false,
    }
}

// Moves to the relation that begins the next group. Returns whether there is a further group.
#[inline]
fn first_of_next_group(cursor: &mut Cursor<'_>) -> bool
    requires { IsTrue (list_all is_relation cursor.old.rest) }
    ensures found { IsTrue result → (skipped : List (List ℕ)) × AllByRecursion (λ item. (relation_in item).and_or ≡ And) skipped
        × (cursor.old.rest ≡ skipped ++ cursor.new.item ∷ cursor.new.rest) × ((relation_in cursor.new.item).and_or ≡ Or) }
    ensures none { IsFalse result → AllByRecursion (λ item. (relation_in item).and_or ≡ And) cursor.old.rest }
{
    while cursor.advance() {
        match and_or_at(cursor.item()) {
            AndOr::Or => return true,
            AndOr::And => {}
        }
    }
    false
}

// Whether the relation of an item is true.
#[inline]
fn relation_holds<C: Counter>(item: &[u8], operands: &PluralOperands, counter: &mut C) -> bool
    requires { IsTrue (is_relation item.now) }
    ensures answer { result ≡ is_true_at operands.now (relation_in item.now) }
    ensures count { counter.new ≡ iterate C.after_one (needed_of_relation operands.now (relation_in item.now).meaning) counter.old }
{
    let is_in = is_in_list(item, operands, counter);
    match polarity_at(item) {
        Polarity::Positive => is_in,
        Polarity::Negative => !is_in,
    }
}

// Whether the value of an item's operand is in the item's list.
#[inline]
fn is_in_list<C: Counter>(item: &[u8], operands: &PluralOperands, counter: &mut C) -> bool
    requires { IsTrue (is_relation item.now) }
    ensures answer { let relation = (relation_in item.now).meaning in
        result ≡ holds_value relation.ranges (option_map (remainder relation.modulus) (operand_value relation.operand operands.now)) }
    ensures count { counter.new ≡ iterate C.after_one (needed_of_relation operands.now (relation_in item.now).meaning) counter.old }
{
    match value_at(item, operands) {
        None => false,
        Some(value) => any_holds(reduced(modulo_at(item), value), ranges_at(item), counter),
    }
}

// The value of an item's operand: none of n if the fraction isn't zero.
#[inline]
fn value_at(item: &[u8], operands: &PluralOperands) -> Option<u64>
    requires { IsTrue (is_relation item.now) }
    ensures { result ≡ operand_value (relation_in item.now).meaning.operand operands.now }
{
    operands.value(ast::Operand::from(low_operand_at(item)))
}

// The remainder of a value by a modulus.
#[inline]
fn reduced(modulo: u32, value: u64) -> u64
    ensures { result ≡ remainder modulo value }
{
    if modulo == 0 {
        value
    } else {
        value % u64::from(modulo)
    }
}

// Whether some range holds the value. None after the first that does is read.
#[inline]
fn any_holds<C: Counter>(value: u64, ranges: &[u8], counter: &mut C) -> bool
    requires { IsTrue (is_whole (length ranges.now)) }
    ensures answer { result ≡ is_in_ranges (ranges_in ranges.now) value }
    ensures count { counter.new ≡ iterate C.after_one (needed_of_list (ranges_in ranges.now) value) counter.old }
{
    if ranges.is_empty() {
        return false;
    }
    let mut rest = ranges;
    loop {
        let (range, others) = rest.split_at(RANGE_LENGTH);
        if holds(value, range, counter) {
            return true;
        }
        if others.is_empty() {
            return false;
        }
        rest = others;
    }
}

// Reads the ends of a range and counts it: whether it holds the value.
#[inline]
fn holds<C: Counter>(value: u64, range: &[u8], counter: &mut C) -> bool
    requires { length range.now ≡ range_length }
    ensures answer { result ≡ range_holds value (range_in range.now) }
    ensures count { counter.new ≡ C.after_one counter.old }
{
    counter.step();
    let start = u32::from_le_bytes([range[0], range[1], range[2], range[3]]);
    if value < u64::from(start) {
        return false;
    }
    let end = u32::from_le_bytes([range[4], range[5], range[6], range[7]]);
    value <= u64::from(end)
}
