//! Reads texts as rules.

ghost use Rattle.std.specs.Prelude.{◌≡◌, ◌≢◌, ◌⊎◌, [], Err};
ghost use Rattle.plural_reference.specs.RelationSinks.{nothing};
ghost use Rattle.plural_runtime.specs.Inner.TextItems.{HoldsPacked};
ghost use Rattle.plural_runtime.specs.RuleOfText.{TextGives};

use crate::error::RuleError;
use crate::rule::Rule;
use crate::text_bytes::TextRelations;
use plural_reference::laws::printing::conditions_of_texts_are_spellable;
use plural_reference::laws::reading::one_list_of_tokens;
use plural_reference::{ParseError, ReadError, read_relations};
use std::alloc::Global;

impl Rule<'static> {
    /// Reads a text as a rule, and packs its condition (UTS 35 Part 3, Plural Rules Syntax).
    ///
    /// The samples are checked and left out: a fault in them refuses the text too. The error is
    /// [`RuleError::Parse`] with the fault that `parse` finds, or [`RuleError::StartLimit`] or
    /// [`RuleError::Memory`] as of [`Rule::try_from`].
    ///
    /// <!-- snippet crates/tests_libraries/src/tests/plural_runtime_examples.rt:
    /// example "let rule" to "holds!" of fn a_simple_rule_is_one_relation -->
    /// ```
    /// let rule = Rule::from_str(alloc, "i = 1")?;
    /// assert!(rt; rule.len() == 1);
    /// ```
    pub fn from_str(alloc: Global, text: &str) -> Result<Rule<'static>, RuleError>
        ensures gives { TextGives text.now result ⊎ (result ≡ Err RuleError.Memory) }
        // The values of a text fit: only trees made by hand have this fault.
        ensures fits { result ≢ Err (RuleError.Parse ParseError.ValueTooLarge) }
    {
        let mut relations = TextRelations::new(alloc);
        Rule::of_text(alloc, text, &mut relations)
    }

    // Reads a text as a rule: its relations are added to none.
    fn of_text(
        alloc: Global,
        text: &str,
        relations: &mut TextRelations,
    ) -> Result<Rule<'static>, RuleError>
        requires { HoldsPacked relations.now nothing [] }
        ensures gives { TextGives text.now result ⊎ (result ≡ Err RuleError.Memory) }
        ensures fits { result ≢ Err (RuleError.Parse ParseError.ValueTooLarge) }
    {
        one_list_of_tokens();
        conditions_of_texts_are_spellable();
        match read_relations(alloc, text.as_bytes(), relations) {
            Ok(()) => Rule::of_items(alloc, relations.items()),
            Err(ReadError::Parse(fault)) => Err(RuleError::Parse(fault)),
            Err(ReadError::Memory) => Err(RuleError::Memory),
        }
    }
}
