//! Directives of a percent sign and a number.

ghost use Rattle.std.specs.Prelude.{◌≡◌, ◌≤◌, ◌+◌, length, true, false, IfSome, IfNone};
ghost use Rattle.format_arguments.specs.DirectiveBytes.{behind_first_byte};
ghost use Rattle.format_arguments.specs.Directives.{behind_letter, number_front, numbered_front, is_the_number};
ghost use Rattle.format_arguments.specs.Inner.DirectiveViews.{LeavesLess, piece_front_view};

use crate::bytes::{Class, after_byte, split_run};
use crate::directive::{Front, Which, place_of};
use crate::format::Format;
use crate::printf::takes;

// What follows the letter that may stand before a number.
fn behind_letter(format: Format, text: &[u8]) -> &[u8]
    ensures rest { result.now ≡ behind_letter format text.now }
    ensures shorter { length result.now ≤ length text.now }
{
    match format {
        Format::Kde => text,
        _ => after_byte(b'L', text).unwrap_or(text),
    }
}

// The digits of a number.
fn number_front(format: Format, text: &[u8]) -> &[u8]
    ensures digits { result.now ≡ number_front format text.now }
    ensures shorter { length result.now ≤ length text.now }
{
    let (digits, _) = split_run(Class::Digit, text);
    match format {
        Format::Kde if after_byte(b'0', text).is_some() => b"",
        Format::Kde => digits,
        _ => &digits[..digits.len().min(2)],
    }
}

// What follows the letter of the number itself.
fn behind_the_number(format: Format, text: &[u8]) -> Option<&[u8]>
    ensures none { IfNone result (is_the_number format text.now ≡ false) }
    ensures some { IfSome result (λ rest. (is_the_number format text.now ≡ true) × (rest.now ≡ behind_first_byte text.now)) }
    ensures shorter { IfSome result (λ rest. length rest.now + 1 ≡ length text.now) }
{
    match format {
        Format::QtPlural => after_byte(b'n', text),
        _ => None,
    }
}

// A directive behind its percent sign, which without a number stands for itself.
#[tactic(auto, unfolding(crate::specs::Directives::numbered_front))]
pub(crate) fn numbered_front(format: Format, text: &[u8]) -> Front<'_>
    ensures front { piece_front_view result ≡ numbered_front format text.now }
    ensures shorter { LeavesLess result (length text.now) }
{
    let behind = behind_letter(format, text);
    if let Some(rest) = behind_the_number(format, behind) {
        return takes(Which::Named(b"n"), rest);
    }
    let digits = number_front(format, behind);
    if digits.is_empty() {
        Front::Takes(None, text)
    } else {
        takes(Which::At(place_of(digits)), &behind[digits.len()..])
    }
}
