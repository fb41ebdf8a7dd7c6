//! Blocks of rules: from a document, from texts, and whether bytes are one.

ghost use Rattle.std.specs.Prelude.{pos};
ghost use Rattle.std.specs.Option.{option_copied};
ghost use Rattle.icu_plurals.specs.FiveRules.{five, rules_of};
ghost use Rattle.plural_exports.specs.GivenBytes.{ReadsRules};
ghost use Rattle.icu_plurals.specs.DocumentJson.{rows_for};
ghost use Rattle.plural_documents.specs.Steps.{Then};
ghost use Rattle.plural_exports.specs.GivenDocuments.{AreRulesIn, HasRulesAt};
ghost use Rattle.icu_plurals.specs.RuleTexts.{lent_texts};
ghost use Rattle.plural_exports.specs.GivenTexts.{AreRulesFrom, GiveRules, PackRules, ReadsGiven, ReadsTexts};
ghost use Rattle.plural_exports.specs.Inner.GivenResults.{GivesSeen, lent_five};
ghost use Rattle.plural_exports.specs.Results.{Answered, Written};

use crate::buffer::put;
use crate::document::{maps_in, rule_type_of, rules_for};
use crate::fault::Fault;
use crate::given::{rules_in, text_in};
use icu_plurals::provider::PluralRulesData;
use icu_plurals::{Five, JsonProvider, PluralRuleType};
use plural_base::make_five;
use std::alloc::Global;

/// Writes the block of the rules that a JSON document has for a locale: of cardinal rules if the
/// type is 0, of ordinal rules if it is 1. The result is how many bytes the block has; if the
/// buffer is shorter, nothing is written.
///
/// A fault is negative, and then nothing is written. Faults are looked for in this order: the type,
/// the locale's text isn't UTF-8, no JSON text, no document, the locale isn't present, rules too
/// long for a block. It allocates.
pub fn rules_from_document(
    alloc: Global,
    json: &[u8],
    locale: &[u8],
    rule_type: u8,
    out: &mut [u8],
) -> i64
    ensures { Written (AreRulesIn json.now locale.now rule_type) out.old out.new result }
{
    match rules_of_document(alloc, json, locale, rule_type) {
        Ok(block) => put(block.as_slice(), out),
        Err(fault) => i64::from(fault.number()),
    }
}

/// Writes the block of the rules of five texts as CLDR writes them (UTS 35 Part 3, Plural Rules
/// Syntax); an empty text isn't a rule. The result is how many bytes the block has; if the buffer
/// is shorter, nothing is written.
///
/// A fault is negative, and then nothing is written. Faults are looked for in this order: a text
/// isn't UTF-8, the first text that gives no rule, rules too long for a block. It allocates.
pub fn rules_from_texts(
    alloc: Global,
    zero: &[u8],
    one: &[u8],
    two: &[u8],
    few: &[u8],
    many: &[u8],
    out: &mut [u8],
) -> i64
    ensures { Written (AreRulesFrom (five zero.now one.now two.now few.now many.now)) out.old out.new result }
{
    let texts = Five {
        zero,
        one,
        two,
        few,
        many,
    };
    match rules_of_texts(alloc, &texts) {
        Ok(block) => put(block.as_slice(), out),
        Err(fault) => i64::from(fault.number()),
    }
}

/// Returns 0 if the bytes are a block of rules, else their fault. It allocates nothing.
pub fn check_rules(rules: &[u8]) -> i32
    ensures { Answered (ReadsRules rules.now) (λ _. pos 0) result }
{
    match rules_in(rules) {
        Ok(_) => 0,
        Err(fault) => fault.number(),
    }
}

// The block of the rules that a document has.
fn rules_of_document(
    alloc: Global,
    json: &[u8],
    locale: &[u8],
    rule_type: u8,
) -> Result<Vec<u8>, Fault>
    ensures { GivesSeen (λ block. block.items) (AreRulesIn json.now locale.now rule_type) result }
{
    let rule_type = rule_type_of(rule_type)?;
    let locale = text_in(locale)?;
    match maps_in(alloc, json, locale) {
        Ok(maps) => packed_for(alloc, &maps, locale, rule_type),
        Err(fault) => Err(fault),
    }
}

// The block of the rules of a type that the maps have for a locale.
fn packed_for(
    alloc: Global,
    maps: &JsonProvider,
    locale: &str,
    rule_type: PluralRuleType,
) -> Result<Vec<u8>, Fault>
    ensures { GivesSeen (λ block. block.items) (Then (HasRulesAt locale.now (rows_for rule_type maps.now)) PackRules) result }
{
    match rules_for(maps, locale, rule_type) {
        Ok(rules) => packed(alloc, &rules),
        Err(fault) => Err(fault),
    }
}

// The block of the rules of five texts.
fn rules_of_texts(alloc: Global, texts: &Five<&[u8]>) -> Result<Vec<u8>, Fault>
    ensures { GivesSeen (λ block. block.items) (AreRulesFrom (lent_five texts.now)) result }
{
    match given_texts(texts) {
        Ok(given) => packed_texts(alloc, &given),
        Err(fault) => Err(fault),
    }
}

// The block of the rules of the texts that have any byte.
fn packed_texts(alloc: Global, texts: &Five<Option<&str>>) -> Result<Vec<u8>, Fault>
    ensures { GivesSeen (λ block. block.items) (Then (GiveRules (lent_texts texts.now)) PackRules) result }
{
    match read(alloc, texts) {
        Ok(rules) => packed(alloc, &rules),
        Err(fault) => Err(fault),
    }
}

// The texts that have any byte.
pub(crate) fn given_texts<'a>(texts: &Five<&'a [u8]>) -> Result<Five<Option<&'a str>>, Fault>
    ensures { GivesSeen lent_texts (ReadsTexts (lent_five texts.now)) result }
{
    Ok(make_five!(Five, texts, |text| given(*text)?))
}

// The text, if it has any byte.
pub(crate) fn given(bytes: &[u8]) -> Result<Option<&str>, Fault>
    ensures { GivesSeen option_copied (ReadsGiven bytes.now) result }
{
    if bytes.is_empty() {
        return Ok(None);
    }
    Ok(Some(text_in(bytes)?))
}

// The rules of the texts.
fn read(alloc: Global, texts: &Five<Option<&str>>) -> Result<PluralRulesData<'static>, Fault>
    ensures { GivesSeen rules_of (GiveRules (lent_texts texts.now)) result }
{
    match PluralRulesData::from_five(alloc, texts) {
        Ok(rules) => Ok(rules),
        Err(refusal) => Err(Fault::from(refusal.error)),
    }
}

// The block of the rules.
fn packed(alloc: Global, rules: &PluralRulesData<'_>) -> Result<Vec<u8>, Fault>
    ensures { GivesSeen (λ block. block.items) (PackRules (rules_of rules.now)) result }
{
    Ok(rules.to_bytes(alloc)?)
}
