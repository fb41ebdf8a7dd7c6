//! The number of forms, and where the expression begins.

ghost use Rattle.std.specs.Prelude.{◌≡◌, ℕ, true, false, None, Some, Ok, Err, MatchBool, MatchOption, MatchResult, min};
ghost use Rattle.gettext_plural.specs.PluralHeaders.{after_header_word, behind_first_word, behind_word, count_front, fault_at, header, is_count};

use crate::error::{Fault, FaultKind};
use crate::lexer::{after_blanks, digits, is_digit};

/// How many forms a language has at most.
pub const FORMS_LIMIT: u64 = 100;

// Returns how many forms there are, and what follows `plural=`.
pub(crate) fn header(text: &[u8]) -> Result<(u64, &[u8]), Fault>
    ensures { MatchResult result (λ it. header text.now ≡ Ok (it.0, it.1.now)) (λ fault. header text.now ≡ Err fault) }
{
    let number = behind_word(b"nplurals=", FaultKind::NoCount, text)?;
    let count = count_front(after_blanks(number))?;
    let expression = behind_word(b"plural=", FaultKind::NoExpression, text)?;
    Ok((count, expression))
}

// Returns what follows the first such word of a text.
fn behind_word<'a>(word: &[u8], kind: FaultKind, text: &'a [u8]) -> Result<&'a [u8], Fault>
    ensures { MatchResult result (λ rest. behind_word word.now kind text.now ≡ Ok rest.now) (λ fault. behind_word word.now kind text.now ≡ Err fault) }
{
    match behind_first(word, text) {
        Some(rest) => Ok(rest),
        None => Err(fault_at(kind, text)),
    }
}

// Returns what follows the first such word of a text, if it has one.
fn behind_first<'a>(word: &[u8], text: &'a [u8]) -> Option<&'a [u8]>
    ensures { MatchOption result (behind_first_word word.now text.now ≡ None) (λ rest. behind_first_word word.now text.now ≡ Some rest.now) }
{
    let mut from = text;
    while let [_, next @ ..] = from {
        if let Some(rest) = after_word(word, from) {
            return Some(rest);
        }
        from = next;
    }
    None
}

// Returns what follows a word, if it is at the front.
fn after_word<'a>(word: &[u8], text: &'a [u8]) -> Option<&'a [u8]>
    ensures { MatchOption result (after_header_word word.now text.now ≡ None) (λ rest. after_header_word word.now text.now ≡ Some rest.now) }
{
    let mut rest = text;
    for byte in word {
        let [next, after @ ..] = rest else {
            return None;
        };
        if byte != next {
            return None;
        }
        rest = after;
    }
    Some(rest)
}

// Returns the number of forms at the front.
fn count_front(text: &[u8]) -> Result<u64, Fault>
    ensures { MatchResult result (λ count. count_front text.now ≡ Ok count) (λ fault. count_front text.now ≡ Err fault) }
{
    let [first, rest @ ..] = text else {
        return Err(fault_at(FaultKind::BadCount, text));
    };
    if !is_digit(*first) {
        return Err(fault_at(FaultKind::BadCount, text));
    }
    let (count, _) = digits(u64::from(*first - b'0'), rest);
    if is_count(count) {
        Ok(count)
    } else {
        Err(fault_at(FaultKind::BadCount, text))
    }
}

// Returns whether a language may have so many forms.
fn is_count(count: u64) -> bool
    ensures { (n : ℕ) → count ≡ min n 4294967296 → MatchBool result ((is_count n ≡ true) × (count ≡ n)) (is_count n ≡ false) }
{
    1 <= count && count <= FORMS_LIMIT
}

// A fault at the front of a text.
fn fault_at(kind: FaultKind, text: &[u8]) -> Fault
    ensures { result ≡ fault_at kind text.now }
{
    Fault {
        kind,
        left: text.len(),
    }
}
