//! Findings as JSON objects.

ghost use Rattle.std.specs.Prelude.{◌≡◌, ◌++◌, codes, IfOk, string_bytes};
ghost use Rattle.finding_formats.specs.FindingObjects.{counts_data, finding_data, finding_members, finding_text};
ghost use Rattle.message_report.specs.FindingCauses.{message_cause_text};
ghost use Rattle.message_report.specs.MessageFindings.{message_finding_view};
ghost use Rattle.serde_json.specs.View.{members_view, view};

use crate::cause_object::cause_value;
use crate::members::put_text;
use crate::place_object::place_value;
use crate::severity::severity_word;
use message_report::{Cause, Counts, Finding};
use serde_json::{Map, Value, json, put};
use std::alloc::{AllocError, Global};

// The object of a finding.
pub(crate) fn finding_value(alloc: Global, finding: &Finding<'_>) -> Result<Value, AllocError>
    ensures { IfOk result (λ value. view value ≡ finding_data (message_finding_view finding.now)) }
{
    let text = finding_text(alloc, finding)?;
    let members = finding_members(alloc, finding, text.as_str())?;
    Ok(Value::Object(members))
}

// The members of the object of a finding, given what is printed of it.
pub(crate) fn finding_members(
    alloc: Global,
    finding: &Finding<'_>,
    text: &str,
) -> Result<Map<String, Value>, AllocError>
    ensures { IfOk result (λ members. members_view members.entries ≡ finding_members (message_finding_view finding.now) text.now) }
{
    let mut members = Map::new(alloc);
    let cause = cause_value(alloc, finding.cause)?;
    put(&mut members, alloc, "cause", cause)?;
    put_text(alloc, &mut members, "file", finding.place.file())?;
    let place = place_value(alloc, finding.place)?;
    put(&mut members, alloc, "place", place)?;
    let severity = severity_word(finding.cause.severity());
    put_text(alloc, &mut members, "severity", severity)?;
    put_text(alloc, &mut members, "text", text)?;
    Ok(members)
}

// What is printed of a finding, after the name of its file.
pub(crate) fn finding_text(alloc: Global, finding: &Finding<'_>) -> Result<String, AllocError>
    ensures { IfOk result (λ text. string_bytes text ≡ finding_text (message_finding_view finding.now)) }
{
    let place = finding.place.text(alloc)?;
    text_of(alloc, place.as_str(), finding.cause)
}

// The text of a cause, behind what is printed for its place.
pub(crate) fn text_of(alloc: Global, place: &str, cause: Cause) -> Result<String, AllocError>
    ensures { IfOk result (λ text. string_bytes text ≡ place.now ++ (codes ": " ++ message_cause_text cause)) }
{
    format!(in alloc; "{place}: {cause}")
}

// The object of counts.
pub(crate) fn counts_value(alloc: Global, counts: Counts) -> Result<Value, AllocError>
    ensures { IfOk result (λ value. view value ≡ counts_data counts) }
{
    json!(in alloc; {"counts": {
        "faults": counts.faults,
        "forms": counts.forms,
        "messages": counts.messages,
        "notes": counts.notes
    }})
}
