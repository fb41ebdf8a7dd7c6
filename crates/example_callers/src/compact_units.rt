//! Compact numbers with their units: `1.2c6` is `1.2 million`.

ghost use Rattle.std.specs.Prelude.{◌≡◌, ◌↔◌, IfOk, Err, string_bytes};
ghost use Rattle.icu_plurals.specs.Elements.{IsExactElement, IsKeptElement};
ghost use Rattle.icu_plurals.specs.Written.{CompactNumber, WritesCompact, IsCompactOverLimit};

use icu_plurals::{CompactDecimal, DecimalError, PluralRules};
use plural_message::{Message, MessageError};
use std::alloc::Global;

/// The texts for the units thousand and million, and those for a number without a unit.
#[derive(Debug, Drop)]
pub struct CompactUnits<'a> {
    pub thousand: Message<'a>,
    pub million: Message<'a>,
    pub plain: Message<'a>,
}

impl<'a> CompactUnits<'a> {
    ghost use Rattle.example_callers.specs.CompactUnits.{IsCompactText, shown_of, unit_of};

    /// Returns the text for a number whose compact exponent names its unit. The errors are as for
    /// [`Message::format`].
    pub fn format(
        &self,
        alloc: Global,
        number: &str,
        rules: &PluralRules<'_>,
    ) -> Result<String, MessageError>
        ensures kept { IfOk result (λ text. IsCompactText IsKeptElement rules.now self.now number.now (string_bytes text)) }
        ensures exact { IfOk result (λ text. IsCompactText IsExactElement rules.now self.now number.now (string_bytes text)) }
        ensures syntax { (result ≡ Err (MessageError.Number DecimalError.Syntax))
            ↔ ((x : CompactNumber) → ¬ (WritesCompact number.now x)) }
        ensures limit { (result ≡ Err (MessageError.Number DecimalError.Limit))
            ↔ ((x : CompactNumber) × WritesCompact number.now x × IsCompactOverLimit x) }
        ensures memory { ¬ (result ≡ Err (MessageError.Number DecimalError.Memory)) }
    {
        let compact = CompactDecimal::from_str(alloc, number)?;
        let (texts, shown) = self.said_by(compact.exponent(), number);
        Ok(texts.format_number(alloc, &compact, shown, rules)?)
    }

    // Returns the texts for an exponent, and the text that they show for the number.
    fn said_by<'b>(&'b self, exponent: u8, number: &'b str) -> (&'b Message<'a>, &'b str)
        ensures texts { result.0.now ≡ unit_of self.now exponent }
        ensures shown { result.1.now ≡ shown_of exponent number.now }
    {
        let (before, _) = number.split_once('c').unwrap_or((number, ""));
        match exponent {
            3 => (&self.thousand, before),
            6 => (&self.million, before),
            _ => (&self.plain, number),
        }
    }
}
