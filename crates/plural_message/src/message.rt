//! Messages by the plural category of a number.

ghost use Rattle.std.specs.Prelude.{◌≡◌, List, ℕ, IfOk, string_bytes};
ghost use Rattle.icu_plurals.specs.Elements.{IsExactElement, IsKeptElement};
ghost use Rattle.icu_plurals.specs.Inner.ElementsViews.{lent_elements};
ghost use Rattle.icu_plurals.specs.PackedElements.{elements_of};
ghost use Rattle.plural_message.specs.Messages.{GivesMessage, IsMessageWith, IsWrittenTo};

use crate::error::MessageError;
use crate::fill::fill;
use crate::fill_into::fill_into;
use fixed_decimal::CompactDecimal;
use icu_plurals::laws::kept_element_is_exact;
use icu_plurals::provider::PluralElementsPackedULE;
use icu_plurals::{PluralOperands, PluralRules, PreparedRules};
use std::alloc::{AllocError, Global};
use std::marker::Model;

/// A text for each plural category, and for exactly 0 and exactly 1, in which `{}` marks the
/// number's place.
///
/// <!-- snippet crates/example_calls/src/messages.rt: "let texts" to "let message" of fn show_messages; body of fn print_messages -->
/// ```
/// let texts = PluralElements::new("{} files were copied")
///     .with_one_value(Some("{} file was copied"))
///     .with_explicit_zero_value(Some("no file was copied"));
/// let packed = PluralElementsPackedCow::from_elements(alloc, &texts)?;
/// let message = Message::new(packed.as_packed());
///
/// for number in ["0", "1", "1.5"] {
///     let text = message.format(alloc, number, rules)?;
///     println!(rt; "{text}")?;
/// }
/// ```
///
/// In English this prints
///
/// <!-- snippet crates/example_calls/stdout: section messages -->
/// ```text
/// no file was copied
/// 1 file was copied
/// 1.5 files were copied
/// ```
#[derive(Debug, Drop)]
pub struct Message<'a> {
    elements: PluralElementsPackedULE<'a>,
}

impl<'a> Model for Message<'a> {
    ghost use Rattle.icu_plurals.specs.Elements.{Elements};
    ghost use Rattle.icu_plurals.specs.Inner.ElementsViews.{lent_elements};
    ghost use Rattle.icu_plurals.specs.PackedElements.{PackedValue, elements_of};

    ghost Value = { Elements PackedValue };

    ghost view = { λ message. elements_of (lent_elements message.elements) };
}

impl<'a> Message<'a> {
    /// Returns the message with these texts. Their metadata isn't used.
    pub fn new(elements: PluralElementsPackedULE<'a>) -> Message<'a>
        ensures { result ≡ elements_of (lent_elements elements.entry) }
    {
        Message { elements }
    }

    /// Returns the message for a number, which is given as a text: a decimal, with a compact
    /// exponent or not. Its operands and the rules choose an element (UTS 35 Part 3, Language
    /// Plural Rules), and in the element's text each `{}`, from the left, is replaced by the
    /// number's text as it was given. There is no escape for `{}`. It allocates the message; a
    /// number of at most 18 digits on each side of the point, with no exponent or one of at most
    /// two digits that leaves at most 18 integer places, is read in one walk, and allocates
    /// nothing.
    ///
    /// For example:
    ///
    /// <!-- snippet crates/example_calls/src/calls/messages.rt: "let texts" to "let message" of fn show_all; body of fn print_written -->
    /// ```
    /// let texts = PluralElements::new("{} items").with_one_value(Some("{} item"));
    /// let packed = PluralElementsPackedCow::from_elements(alloc, &texts)?;
    /// let message = Message::new(packed.as_packed());
    ///
    /// for number in ["1", "1.0", "1c6", "-1"] {
    ///     println!(rt; "{}", message.format(alloc, number, rules)?)?;
    /// }
    /// ```
    ///
    /// With the rules of English, this prints
    ///
    /// <!-- snippet crates/example_calls/stdout: section format -->
    /// ```text
    /// 1 item
    /// 1.0 items
    /// 1c6 items
    /// -1 item
    /// ```
    ///
    /// The errors: [`MessageError::Number`] with `Syntax` if the text isn't a number, and with
    /// `Limit` if it is over a limit; [`MessageError::Memory`] if memory ran out.
    pub fn format(
        &self,
        alloc: Global,
        number: &str,
        rules: &PluralRules<'_>,
    ) -> Result<String, MessageError>
        ensures { GivesMessage self.now rules.now number.now result }
    {
        // Within the exactness bound the element is that of the number itself.
        kept_element_is_exact();
        let written = PluralOperands::from_compact_text(alloc, number)?;
        let (_, shown) = self.elements.get(written, rules);
        Ok(fill(alloc, shown, number)?)
    }

    /// Returns the message for a number as [`Message::format`] does, with the same errors, under
    /// prepared rules: for an integer no rule is tested, where the tables have its category. It
    /// allocates the message.
    pub fn format_prepared(
        &self,
        alloc: Global,
        number: &str,
        rules: &PreparedRules<'_>,
    ) -> Result<String, MessageError>
        ensures { GivesMessage self.now rules.now number.now result }
    {
        // Within the exactness bound the element is that of the number itself.
        kept_element_is_exact();
        let op = PluralOperands::from_compact_text(alloc, number)?;
        let (_, found) = self.elements.get_prepared(op, rules);
        Ok(fill(alloc, found, number)?)
    }

    /// Returns the message for a number that was read already, with a text to show for it: as it
    /// was written, or in the digits and marks of a locale. The number's operands and the rules
    /// choose an element, as for [`Message::format`], and in the element's text each `{}`, from the
    /// left, is replaced by the given text. Whether the text writes the number isn't checked. It
    /// allocates the message; the only error is out of memory.
    ///
    /// <!-- snippet crates/example_calls/src/messages.rt: "let number" to "println" of fn print_marks -->
    /// ```
    /// let number = CompactDecimal::from_str(alloc, "1234567")?;
    /// let text = message.format_number(alloc, &number, "1,234,567", rules)?;
    /// println!(rt; "{text}")?;
    /// ```
    ///
    /// With the text `{} files` this prints
    ///
    /// <!-- snippet crates/example_calls/stdout: section marks -->
    /// ```text
    /// 1,234,567 files
    /// ```
    pub fn format_number(
        &self,
        alloc: Global,
        number: &CompactDecimal,
        text: &str,
        rules: &PluralRules<'_>,
    ) -> Result<String, AllocError>
        ensures kept { IfOk result (λ filled.
            IsMessageWith (IsKeptElement self.now rules.now) number.now text.now (string_bytes filled)) }
        ensures exact { IfOk result (λ filled.
            IsMessageWith (IsExactElement self.now rules.now) number.now text.now (string_bytes filled)) }
    {
        // Within the exactness bound the element is that of the number itself.
        kept_element_is_exact();
        let operands = PluralOperands::from(number);
        let (_, element) = self.elements.get(operands, rules);
        fill(alloc, element, text)
    }

    /// Writes the message of [`Message::format_number`] to the front of a buffer, if it has room
    /// for it, and returns how many bytes the message has. If there is no room, the buffer is
    /// unchanged: so an empty one asks for the length. What follows the message in the buffer is
    /// unchanged too. It allocates nothing, and has no error. A message of more than `usize::MAX`
    /// bytes, for which no buffer has room, is told as `usize::MAX`.
    ///
    /// <!-- snippet crates/example_calls/src/messages.rt: "let mut room" to "}" of fn print_in_place -->
    /// ```
    /// let mut room = [0u8; 32];
    /// let length = message.format_number_into(number, "1,234,567", rules, &mut room);
    /// if let Some(written) = room.get(..length) {
    ///     println!(rt; "{length} bytes: {}", std::str::from_utf8(written)?)?;
    /// }
    /// ```
    ///
    /// With the text `{} files` this prints
    ///
    /// <!-- snippet crates/example_calls/stdout: section in place -->
    /// ```text
    /// 15 bytes: 1,234,567 files
    /// ```
    pub fn format_number_into(
        &self,
        number: &CompactDecimal,
        text: &str,
        rules: &PluralRules<'_>,
        out: &mut [u8],
    ) -> usize
        ensures { (message : List ℕ) × IsWrittenTo out.old out.new result message
            × IsMessageWith (IsKeptElement self.now rules.now) number.now text.now message
            × IsMessageWith (IsExactElement self.now rules.now) number.now text.now message }
    {
        // Within the exactness bound the element is that of the number itself.
        kept_element_is_exact();
        let kept = PluralOperands::from(number);
        let (_, chosen) = self.elements.get(kept, rules);
        fill_into(chosen, text, out)
    }
}
