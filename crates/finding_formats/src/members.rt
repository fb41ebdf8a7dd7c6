//! Members of JSON objects.

ghost use Rattle.std.specs.Prelude.{◌≡◌, IfOk, OnOk, string_bytes};
ghost use Rattle.finding_formats.specs.FindingObjects.{shown_bytes, with_number_under, with_text_under};
ghost use Rattle.plural_documents.specs.PrintedKeys.{length_text};
ghost use Rattle.serde_json.specs.View.{members_view};

use serde_json::{Map, Value, put};
use std::alloc::{AllocError, Global};

// Puts a text under a key.
pub(crate) fn put_text(
    alloc: Global,
    members: &mut Map<String, Value>,
    key: &str,
    text: &str,
) -> Result<(), AllocError>
    ensures { OnOk result (members_view members.new.entries ≡ with_text_under key.now text.now (members_view members.old.entries)) }
{
    let value = Value::try_from_str(alloc, text)?;
    put(members, alloc, key, value)
}

// Puts a number under a key.
pub(crate) fn put_number(
    alloc: Global,
    members: &mut Map<String, Value>,
    key: &str,
    number: u64,
) -> Result<(), AllocError>
    ensures { OnOk result (members_view members.new.entries ≡ with_number_under key.now number (members_view members.old.entries)) }
{
    put(members, alloc, key, Value::from(number))
}

// Puts bytes of a pattern under a key.
pub(crate) fn put_bytes(
    alloc: Global,
    members: &mut Map<String, Value>,
    key: &str,
    bytes: &[u8],
) -> Result<(), AllocError>
    ensures { OnOk result (members_view members.new.entries ≡ with_text_under key.now (shown_bytes bytes.now) (members_view members.old.entries)) }
{
    match std::str::from_utf8(bytes) {
        Ok(text) => put_text(alloc, members, key, text),
        Err(_) => put_text(alloc, members, key, cut_text(alloc, bytes)?.as_str()),
    }
}

// What is printed in place of bytes that are no text.
fn cut_text(alloc: Global, bytes: &[u8]) -> Result<String, AllocError>
    ensures { IfOk result (λ text. string_bytes text ≡ length_text bytes.now) }
{
    format!(in alloc; "\\({} bytes)", bytes.len())
}
