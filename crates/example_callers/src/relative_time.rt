//! Relative times: `in 1 day`, `in 5 days`, `1.5 days ago`.

ghost use Rattle.std.specs.Prelude.{◌≡◌, ◌↔◌, IfOk, Err, string_bytes};
ghost use Rattle.icu_plurals.specs.Elements.{IsExactElement, IsKeptElement};
ghost use Rattle.icu_plurals.specs.Written.{CompactNumber, WritesCompact, IsCompactOverLimit};

use icu_plurals::{CompactDecimal, DecimalError, PluralRules};
use plural_message::{Message, MessageError};
use std::alloc::Global;

/// The texts of a unit of time.
#[derive(Debug, Drop)]
pub struct RelativeTime<'a> {
    /// The texts for the future, such as `in {} day` and `in {} days`.
    pub future: Message<'a>,
    /// The texts for the past, such as `{} day ago` and `{} days ago`.
    pub past: Message<'a>,
}

impl<'a> RelativeTime<'a> {
    ghost use Rattle.example_callers.specs.RelativeTime.{IsRelativeTime, IsSaidBy};

    /// Returns the text for an amount: with a leading `-` it is past, otherwise future. The errors
    /// are those of [`Message::format`].
    pub fn format(
        &self,
        alloc: Global,
        amount: &str,
        rules: &PluralRules<'_>,
    ) -> Result<String, MessageError>
        ensures kept { IfOk result (λ text. IsRelativeTime IsKeptElement rules.now self.now amount.now (string_bytes text)) }
        ensures exact { IfOk result (λ text. IsRelativeTime IsExactElement rules.now self.now amount.now (string_bytes text)) }
        ensures syntax { (result ≡ Err (MessageError.Number DecimalError.Syntax))
            ↔ ((x : CompactNumber) → ¬ (WritesCompact amount.now x)) }
        ensures limit { (result ≡ Err (MessageError.Number DecimalError.Limit))
            ↔ ((x : CompactNumber) × WritesCompact amount.now x × IsCompactOverLimit x) }
        ensures memory { ¬ (result ≡ Err (MessageError.Number DecimalError.Memory)) }
    {
        let number = CompactDecimal::from_str(alloc, amount)?;
        let (texts, shown) = self.said_by(amount);
        Ok(texts.format_number(alloc, &number, shown, rules)?)
    }

    // Returns the texts for an amount, and the text that they show for it.
    fn said_by<'b>(&'b self, amount: &'b str) -> (&'b Message<'a>, &'b str)
        ensures { IsSaidBy self.now amount.now result.0.now result.1.now }
    {
        match amount.strip_prefix('-') {
            Some(rest) => (&self.past, rest),
            None => (&self.future, amount),
        }
    }
}
