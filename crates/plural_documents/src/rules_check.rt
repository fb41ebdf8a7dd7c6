//! A document of rules that is read for its faults alone: nothing of it is built.

ghost use Rattle.std.specs.Bool.{OnTrue};
ghost use Rattle.std.specs.List.{list_any};
ghost use Rattle.std.specs.Prelude.{◌≡◌, ◌∷◌, ◌≤◌, IfOk, OnOk, Some, length, map};
ghost use Rattle.document_tokens.specs.HeldTokens.{held_token};
ghost use Rattle.plural_documents.specs.Inner.RulesPlaces.{AreRightParts, TextGivesRule, IsFaultless, IsRightPart, IsRightText, is_float};

use crate::json_tokens::JsonTokens;
use crate::rules_place::RulesPlace;
use crate::tokens_left::TokensLeft;
use document_tokens::HeldToken;
use plural_base::PluralCategory;
use plural_runtime::laws::texts_give_one_answer;
use plural_runtime::{Rule, RuleError};
use std::alloc::{AllocError, Global};

// Whether the document that is held has no fault, as far as it is told: a value that another one
// under its key replaces counts too.
pub(crate) fn is_faultless(alloc: Global, text: &JsonTokens<'_>) -> Result<bool, AllocError>
    ensures { IfOk result (λ is. OnTrue is (IsFaultless text.now)) }
{
    if has_float(text.tokens.as_slice()) {
        return Ok(false);
    }
    let mut left = TokensLeft::of(text.tokens.as_slice());
    is_right_below(alloc, Some(RulesPlace::Document), &mut left)
}

// Whether a token is a float.
fn has_float(tokens: &[HeldToken<'_>]) -> bool
    ensures { result ≡ list_any is_float (map held_token tokens.now) }
{
    let mut rest = tokens;
    while let [token, after @ ..] = rest {
        if is_float(*token) {
            return true;
        }
        rest = after;
    }
    false
}

// Whether it is one.
#[inline(always)]
fn is_float(token: HeldToken<'_>) -> bool
    ensures { result ≡ is_float (held_token token.entry) }
{
    match token {
        HeldToken::Number(number) => number.is_f64(),
        _ => false,
    }
}

// Whether the next value is right at a place, or isn't read; then it is passed.
#[cycle(check)]
fn is_right_below(
    alloc: Global,
    place: Option<RulesPlace>,
    left: &mut TokensLeft<'_, '_>,
) -> Result<bool, AllocError>
    ensures right { IfOk result (λ is. OnTrue is (IsRightPart place left.old left.new)) }
    ensures shorter { OnOk result (length left.new ≤ length left.old) }
{
    let Some(first) = left.next() else {
        return Ok(false);
    };
    match place {
        Some(place) => is_right(alloc, place, first, left),
        None => {
            left.pass_value(first);
            Ok(true)
        }
    }
}

// Whether the value that begins with this token is right at a place; then it is passed.
#[cycle(check)]
fn is_right(
    alloc: Global,
    place: RulesPlace,
    first: HeldToken<'_>,
    left: &mut TokensLeft<'_, '_>,
) -> Result<bool, AllocError>
    ensures right { IfOk result (λ is. OnTrue is (IsRightPart (Some place) (held_token first.entry ∷ left.old) left.new)) }
    ensures shorter { OnOk result (length left.new ≤ length left.old) }
{
    match first {
        HeldToken::BeginObject => are_right(alloc, place, left),
        HeldToken::String(text) => is_right_text(alloc, place, text),
        HeldToken::Null => Ok(place.allows_null()),
        _ => Ok(false),
    }
}

// Whether an object with these members is right at a place; then it is passed.
#[cycle(check)]
fn are_right(
    alloc: Global,
    place: RulesPlace,
    left: &mut TokensLeft<'_, '_>,
) -> Result<bool, AllocError>
    ensures right { IfOk result (λ are. OnTrue are (AreRightParts place left.old left.new)) }
    ensures shorter { OnOk result (length left.new ≤ length left.old) }
{
    let mut is_any_read = false;
    while let Some(first) = left.next() {
        let HeldToken::Key(key) = first else {
            break;
        };
        let below = place.below(key);
        if !is_right_below(alloc, below, left)? {
            return Ok(false);
        }
        is_any_read = is_any_read || below.is_some();
    }
    Ok(place.allows_object(is_any_read))
}

// Whether a text is right at a place.
fn is_right_text(alloc: Global, place: RulesPlace, text: &str) -> Result<bool, AllocError>
    ensures { IfOk result (λ is. OnTrue is (IsRightText place text.now)) }
{
    match place {
        RulesPlace::Rule => gives_rule(alloc, text),
        RulesPlace::Category => Ok(PluralCategory::get_for_cldr_string(text).is_some()),
        _ => Ok(false),
    }
}

// Whether a text gives a rule.
fn gives_rule(alloc: Global, text: &str) -> Result<bool, AllocError>
    ensures { IfOk result (λ given. OnTrue given (TextGivesRule text.now)) }
{
    texts_give_one_answer();
    match Rule::from_str(alloc, text) {
        Ok(_) => Ok(true),
        Err(RuleError::Memory) => Err(AllocError),
        Err(_) => Ok(false),
    }
}
