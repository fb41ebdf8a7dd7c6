//! Blocks of rules, and what they have.

ghost use Rattle.std.specs.Prelude.{pos};
ghost use Rattle.icu_plurals.specs.FiveRules.{five};
ghost use Rattle.plural_exports.specs.FoundLocales.{IsKeyIn};
ghost use Rattle.plural_exports.specs.GivenBytes.{ReadsRules};
ghost use Rattle.plural_exports.specs.GivenDocuments.{AreRulesIn};
ghost use Rattle.plural_exports.specs.GivenRanges.{AreRangesIn};
ghost use Rattle.plural_exports.specs.GivenTexts.{AreRulesFrom};
ghost use Rattle.plural_exports.specs.Results.{Answered, Written};
ghost use Rattle.plural_exports.specs.RulesCategories.{AreCategoriesOf, bits_number};

use std::alloc::Global;

/// Writes the block of the rules that a JSON document has for a locale: of cardinal rules if the
/// type is 0, of ordinal rules if it is 1. The result is how many bytes the block has; if the
/// buffer is shorter, nothing is written.
///
/// A fault is negative, and then nothing is written. Faults are looked for in this order: the type,
/// the locale's text isn't UTF-8, no JSON text, no document, the locale isn't present, rules too
/// long for a block. It allocates.
#[unsafe(no_mangle)]
pub extern "C" fn plurals_rules_from_document(
    alloc: Global,
    json: &[u8],
    locale: &[u8],
    rule_type: u8,
    out: &mut [u8],
) -> i64
    ensures { Written (AreRulesIn json.now locale.now rule_type) out.old out.new result }
{
    plural_exports::rules_from_document(alloc, json, locale, rule_type, out)
}

/// Writes the block of the rules of five texts as CLDR writes them (UTS 35 Part 3, Plural Rules
/// Syntax); an empty text isn't a rule. The result is how many bytes the block has; if the buffer
/// is shorter, nothing is written.
///
/// A fault is negative, and then nothing is written. Faults are looked for in this order: a text
/// isn't UTF-8, the first text that gives no rule, rules too long for a block. It allocates.
#[unsafe(no_mangle)]
pub extern "C" fn plurals_rules_from_texts(
    alloc: Global,
    zero: &[u8],
    one: &[u8],
    two: &[u8],
    few: &[u8],
    many: &[u8],
    out: &mut [u8],
) -> i64
    ensures { Written (AreRulesFrom (five zero.now one.now two.now few.now many.now)) out.old out.new result }
{
    plural_exports::rules_from_texts(alloc, zero, one, two, few, many, out)
}

/// Returns 0 if the bytes are a block of rules, else their fault. It allocates nothing.
#[unsafe(no_mangle)]
pub extern "C" fn plurals_check_rules(rules: &[u8]) -> i32
    ensures { Answered (ReadsRules rules.now) (λ _. pos 0) result }
{
    plural_exports::check_rules(rules)
}

/// Returns the categories that a number may have, one bit each: 1 zero, 2 one, 4 two, 8 few, 16
/// many, 32 other. They are those that have a rule, and other. It allocates nothing.
///
/// A fault is negative, and is one of the rules.
#[unsafe(no_mangle)]
pub extern "C" fn plurals_categories(rules: &[u8]) -> i32
    ensures { Answered (AreCategoriesOf rules.now) bits_number result }
{
    plural_exports::categories(rules)
}

/// Writes the categories of ranges that a JSON document has for a locale (UTS 35 Part 3, Plural
/// Ranges), as 36 bytes: at 6 times the number of the start's category plus that of the end's is
/// the number of the range's. The result is 36; if the buffer is shorter, nothing is written.
///
/// A fault is negative, and then nothing is written. Faults are looked for in this order: the
/// locale's text isn't UTF-8, no JSON text, no document, the document has no ranges for the locale.
/// It allocates.
#[unsafe(no_mangle)]
pub extern "C" fn plurals_ranges_from_document(
    alloc: Global,
    json: &[u8],
    locale: &[u8],
    out: &mut [u8],
) -> i64
    ensures { Written (AreRangesIn json.now locale.now) out.old out.new result }
{
    plural_exports::ranges_from_document(alloc, json, locale, out)
}

/// Writes the key by which a JSON document has a locale: the first of the locale's chain that has
/// one in a part, which is 0 for cardinal rules, 1 for ordinal rules and 2 for ranges. The result is
/// how many bytes the key has; if the buffer is shorter, nothing is written. The calls that read a
/// document take the key as their locale. It is `root` for an unknown language too, if the document
/// has that.
///
/// A fault is negative, and then nothing is written. Faults are looked for in this order: the part,
/// the locale's text isn't UTF-8, no JSON text, no key among the first 32 of the chain, as in a
/// value that is no document. It allocates.
#[unsafe(no_mangle)]
pub extern "C" fn plurals_find_locale(
    alloc: Global,
    json: &[u8],
    locale: &[u8],
    part: u8,
    out: &mut [u8],
) -> i64
    ensures { Written (IsKeyIn json.now locale.now part) out.old out.new result }
{
    plural_exports::find_locale(alloc, json, locale, part, out)
}
