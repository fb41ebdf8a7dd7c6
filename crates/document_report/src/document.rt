//! The JSON value of an input, and the members of a document.

ghost use Rattle.std.specs.Prelude.{◌≡◌, OnOk, option_map};
ghost use Rattle.std.specs.Option.{option_and_then};
ghost use Rattle.serde_json.specs.Find.{as_object, get};
ghost use Rattle.serde_json.specs.View.{members_view, view};
ghost use Rattle.document_report.specs.CheckAnswer.{check_origin};
ghost use Rattle.document_report.specs.CheckedDocument.{members_or_none, document_of_bytes};
ghost use Rattle.document_report.specs.FoundInDocuments.{HasGrownInDocument, IsFoundInDocumentMembers};
ghost use Rattle.plural_documents.specs.Steps.{value_or_fault};
ghost use Rattle.document_report.specs.Inner.CheckCalls.{GivesOnly};
ghost use Rattle.plural_fallback.specs.LocalesJson.{part_name};
ghost use Rattle.document_report.specs.declared.error.CheckError.TheVariants.{Json};
ghost use Rattle.plural_documents.specs.Inputs.{GivesBy, json_of};

use crate::error::CheckError;
use crate::form::check_document;
use crate::found::Found;
use plural_documents::{JsonTextError, MemberCheck, add_members, json_value};
use plural_fallback::Part;
use serde_json::{Map, Value};
use std::alloc::{AllocError, Global};

/// Returns the document that bytes write: a JSON value whose parts and locales are objects. It
/// allocates.
///
/// The errors are those of [`run`](crate::run::run) from [`CheckError::Json`] on, but of a writer.
pub fn value_of(alloc: Global, bytes: &[u8]) -> Result<Value, CheckError>
    ensures { GivesBy check_origin view (λ answer. document_of_bytes bytes.now ≡ answer) result }
{
    match json_of(alloc, bytes) {
        Ok(value) => check_document(alloc, &value).and(Ok(value)),
        Err(error) => Err(error),
    }
}

// The JSON value that the bytes write.
fn json_of(alloc: Global, bytes: &[u8]) -> Result<Value, CheckError>
    ensures { GivesOnly view (value_or_fault Json (json_of bytes.now)) result }
{
    match json_value(alloc, bytes) {
        Ok(value) => Ok(value),
        Err(JsonTextError::Json) => Err(CheckError::Json),
        Err(JsonTextError::Memory) => Err(CheckError::Memory),
    }
}

/// Returns the members of a part of a document, by locale; none if the part is no object. It allocates
/// nothing.
pub fn members_of(document: &Value, part: Part) -> Option<&Map<String, Value>>
    ensures { option_map (λ m. members_view m.now.entries) result
        ≡ option_and_then as_object (get (part_name part) (view document.now)) }
{
    document.get(part.as_str())?.as_object()
}

// The value of a locale in a part of a document.
pub(crate) fn value_at<'a>(document: &'a Value, part: Part, locale: &str) -> Option<&'a Value>
    ensures { option_map (λ v. view v.now) result ≡ option_and_then (get locale.now) (get (part_name part) (view document.now)) }
{
    document.get(part.as_str())?.get(locale)
}

// Adds what is found in each member, if there are any.
pub(crate) fn add_members_of<'a, C: MemberCheck<'a, Found<'a>>>(
    alloc: Global,
    check: &C,
    members: Option<&'a Map<String, Value>>,
    found: &mut Found<'a>,
) -> Result<(), AllocError>
    ensures { OnOk result (HasGrownInDocument
        (IsFoundInDocumentMembers (C.finds check.now) (members_or_none (option_map (λ m. members_view m.now.entries) members.entry)))
        found.old found.new) }
{
    match members {
        Some(members) => add_members(alloc, check, members, found),
        None => Ok(()),
    }
}
