//! A formatter that owns its rules and its texts.

ghost use Rattle.std.specs.Prelude.{◌≡◌, ◌↔◌, IfOk, Err, string_bytes};
ghost use Rattle.icu_plurals.specs.Elements.{IsExactElement, IsKeptElement};
ghost use Rattle.icu_plurals.specs.Written.{CompactNumber, WritesCompact, IsCompactOverLimit};

use icu_plurals::laws::{kept_element_is_exact, packed_elements_answer};
use icu_plurals::provider::PluralElementsPackedCow;
use icu_plurals::{DecimalError, PluralRules};
use plural_message::{Message, MessageError};
use std::alloc::Global;

/// The rules of a language, and the texts of a message in that language, such as `{} item` and
/// `{} items`.
#[derive(Debug, Drop)]
pub struct Formatter {
    pub rules: PluralRules<'static>,
    pub texts: PluralElementsPackedCow<'static>,
}

impl Formatter {
    ghost use Rattle.example_callers.specs.PackedTexts.{IsFormatted};

    /// Returns the message for a number: the text for its category, with the number as it was
    /// written in place of each `{}`. The errors are as for [`Message::format`].
    pub fn format(&self, alloc: Global, number: &str) -> Result<String, MessageError>
        ensures kept { IfOk result (λ text. IsFormatted IsKeptElement self.now number.now (string_bytes text)) }
        ensures exact { IfOk result (λ text. IsFormatted IsExactElement self.now number.now (string_bytes text)) }
        ensures syntax { (result ≡ Err (MessageError.Number DecimalError.Syntax))
            ↔ ((x : CompactNumber) → ¬ (WritesCompact number.now x)) }
        ensures limit { (result ≡ Err (MessageError.Number DecimalError.Limit))
            ↔ ((x : CompactNumber) × WritesCompact number.now x × IsCompactOverLimit x) }
        ensures memory { ¬ (result ≡ Err (MessageError.Number DecimalError.Memory)) }
    {
        packed_elements_answer();
        kept_element_is_exact();
        let message = Message::new(self.texts.as_packed());
        message.format(alloc, number, &self.rules)
    }
}
