//! A text that has been read once, as a tree.

ghost use Rattle.std.specs.Prelude.{◌≡◌, Ok, IfErr, IfOk, IsSomeAnd, Some};
ghost use Rattle.std.specs.Option.{option_copied};
ghost use Rattle.icu_plurals.specs.PackedTree.{Packs};
ghost use Rattle.plural_reference.specs.FaultPlaces.{TextFaultyAt, TextIsRead};
ghost use Rattle.plural_checker.specs.Inner.TextReadings.{HasNoRule, IfRefused, IsRuleReading, IsShortRuleOf};

use crate::texts::is_long;
use icu_plurals::provider::rules::reference::ast::Rule;
use icu_plurals::provider::rules::reference::{Lexer, ReadError, parse};
use icu_plurals::provider::rules::runtime::ast::Rule as PackedRule;
use plural_reference::laws::printing::conditions_of_texts_are_spellable;
use plural_reference::{RuleFault, fault_of};
use std::alloc::{AllocError, Global};
use std::marker::Model;

// What a text is read as. A rule that is read can be packed.
#[derive(Drop)]
pub(crate) enum Reading {
    // Nothing: the text is too long.
    Long,
    // No rule.
    Refused(RuleFault),
    // This rule.
    Rule(Rule),
}

// A text, and what it is read as. Contracts see the text.
#[derive(Drop)]
pub(crate) struct ReadText<'a> {
    text: &'a str,
    reading: Reading,
}

impl<'a> Model for ReadText<'a> {
    ghost use Rattle.std.specs.Prelude.{List, ℕ};
    ghost use Rattle.plural_checker.specs.Inner.TextReadings.{IsRuleReading};

    ghost Value = { List ℕ };

    ghost view = { λ read. read.text.now };

    ghost invariant = { λ read. IsRuleReading read.text.now read.reading };
}

impl<'a> ReadText<'a> {
    // The text, read.
    fn of(alloc: Global, text: &'a str) -> Result<ReadText<'a>, AllocError>
        ensures { IfOk result (λ read. read ≡ text.now) }
    {
        let reading = reading_of(alloc, text)?;
        Ok(ReadText { text, reading })
    }

    // The text.
    pub(crate) fn as_str(&self) -> &'a str
        ensures { result.now ≡ self.now }
    {
        self.text
    }

    // What the text is read as.
    pub(crate) fn reading(&self) -> &Reading
        ensures { IsRuleReading self.now result.now }
    {
        &self.reading
    }

    // The packed rule of the text.
    fn packed(&self, alloc: Global) -> Result<PackedRule<'static>, NoRule>
        ensures ok { IfOk result (λ rule. IsShortRuleOf (Some self.now) (Some rule)) }
        ensures refused { IfErr result (λ why. IfRefused why (HasNoRule self.now)) }
    {
        match self.reading() {
            Reading::Long => Err(NoRule::Refused),
            Reading::Refused(_) => Err(NoRule::Refused),
            Reading::Rule(rule) => pack(alloc, rule),
        }
    }
}

// Why a text has no packed rule.
#[derive(Drop)]
pub(crate) enum NoRule {
    // The text is too long, or gives none.
    Refused,
    // Out of memory.
    Memory,
}

// A text, read if it is present.
pub(crate) fn read_if_there<'a>(
    alloc: Global,
    text: Option<&'a str>,
) -> Result<Option<ReadText<'a>>, AllocError>
    ensures { IfOk result (λ read. read ≡ option_copied text.entry) }
{
    match text {
        Some(text) => Ok(Some(ReadText::of(alloc, text)?)),
        None => Ok(None),
    }
}

// The packed rule of a text that is present.
pub(crate) fn packed_if_there(
    alloc: Global,
    text: &Option<ReadText<'_>>,
) -> Result<Option<PackedRule<'static>>, NoRule>
    ensures ok { IfOk result (λ rule. IsShortRuleOf text.now rule) }
    ensures refused { IfErr result (λ why. IfRefused why (IsSomeAnd text.now HasNoRule)) }
{
    match text {
        Some(text) => Ok(Some(text.packed(alloc)?)),
        None => Ok(None),
    }
}

// The packed form of a rule that can be packed: the only error is out of memory.
fn pack(alloc: Global, rule: &Rule) -> Result<PackedRule<'static>, NoRule>
    ensures packs { IfOk result (λ relations. Packs rule.now.condition (Ok relations)) }
    ensures memory { IfErr result (λ why. why ≡ NoRule.Memory) }
{
    match PackedRule::try_from(alloc, rule) {
        Ok(packed) => Ok(packed),
        Err(_) => Err(NoRule::Memory),
    }
}

// What a text is read as.
fn reading_of(alloc: Global, text: &str) -> Result<Reading, AllocError>
    ensures { IfOk result (λ reading. IsRuleReading text.now reading) }
{
    if is_long(text) {
        return Ok(Reading::Long);
    }
    let bytes = text.as_bytes();
    // Only for the proof: a text of so few bytes has few tokens, and a rule of few tokens can be
    // packed.
    let _tokens = Lexer::new(bytes);
    conditions_of_texts_are_spellable();
    match parse(alloc, bytes) {
        Ok(rule) => Ok(Reading::Rule(rule)),
        Err(ReadError::Parse(_)) => Ok(Reading::Refused(fault_in(alloc, bytes)?)),
        Err(ReadError::Memory) => Err(AllocError),
    }
}

// The fault of a text that isn't read.
fn fault_in(alloc: Global, text: &[u8]) -> Result<RuleFault, AllocError>
    requires { ¬ (TextIsRead text.now) }
    ensures { IfOk result (λ fault. TextFaultyAt text.now fault.kind fault.byte) }
{
    Ok(fault_of(alloc, text)?.unwrap())
}
