//! Where the text of a rule that is refused has its fault.

ghost use Rattle.std.specs.Prelude.{◌≡◌, ◌↔◌, IfOk, Some, option_map, ℕ};
ghost use Rattle.form_commands.specs.Languages.{HasFaultAt, IsFaultByte};
ghost use Rattle.icu_plurals.specs.RulesJson.{text_under};
ghost use Rattle.plural_reference.specs.FaultPlaces.{TextFaultyAt};
ghost use Rattle.serde_json.specs.View.{view};

use icu_plurals::provider::RawPluralCategory;
use icu_plurals::provider::rules::reference::ParseError;
use icu_plurals::provider::rules::runtime::ast::RuleError;
use icu_plurals::{JsonError, PluralCategory};
use plural_reference::fault_of;
use serde_json::Value;
use std::alloc::{AllocError, Global};

// The byte at which the text of a rule can't be read on, if that is why this value is refused.
pub(crate) fn fault_byte(
    alloc: Global,
    value: &Value,
    reason: JsonError,
) -> Result<Option<usize>, AllocError>
    ensures { IfOk result (IsFaultByte (Some (view value.now)) reason) }
{
    match reason {
        JsonError::Rule(Some(category), RuleError::Parse(kind)) => {
            byte_under(alloc, value, category, kind)
        }
        _ => Ok(None),
    }
}

// The byte at which the text of a category has this fault.
fn byte_under(
    alloc: Global,
    value: &Value,
    category: PluralCategory,
    kind: ParseError,
) -> Result<Option<usize>, AllocError>
    ensures { IfOk result (λ found. (byte : ℕ) → (found ≡ Some byte) ↔ HasFaultAt (Some (view value.now)) category kind byte) }
{
    match text_under(category, value) {
        Some(text) => byte_in(alloc, text, kind),
        None => Ok(None),
    }
}

// The text of a category.
fn text_under<'a>(category: PluralCategory, value: &'a Value) -> Option<&'a str>
    ensures { option_map (λ text. text.now) result ≡ text_under category (view value.now) }
{
    value
        .get(RawPluralCategory::from(category).as_str())?
        .as_str()
}

// The byte at which a text has this fault.
fn byte_in(alloc: Global, text: &str, kind: ParseError) -> Result<Option<usize>, AllocError>
    ensures { IfOk result (λ found. (byte : ℕ) → (found ≡ Some byte) ↔ TextFaultyAt text.now kind byte) }
{
    match fault_of(alloc, text.as_bytes())? {
        Some(fault) if fault.kind == kind => Ok(Some(fault.byte)),
        Some(_) => Ok(None),
        None => Ok(None),
    }
}
