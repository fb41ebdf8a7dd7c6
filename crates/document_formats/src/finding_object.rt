//! Findings as JSON objects.

ghost use Rattle.std.specs.Prelude.{◌≡◌, IfOk, string_bytes};
ghost use Rattle.document_formats.specs.DocumentObjects.{document_cause_data, document_counts_data, counts_data_in, finding_data_in, numbers_data};
ghost use Rattle.document_report.specs.DocumentFindings.{document_cause_text, finding_view};
ghost use Rattle.serde_json.specs.View.{view};

use crate::code::Code;
use crate::place_object::place_value;
use document_report::{Cause, Counts, Finding};
use serde_json::{Value, json};
use std::alloc::{AllocError, Global};

// The name of the document, standard input.
pub(crate) const INPUT_NAME: &str = "-";

// The object of a finding in a file.
pub(crate) fn finding_value(
    alloc: Global,
    file: &str,
    finding: &Finding<'_>,
) -> Result<Value, AllocError>
    ensures { IfOk result (λ value. view value ≡ finding_data_in file.now (finding_view finding.now)) }
{
    let cause = cause_value(alloc, &finding.cause)?;
    let place = place_value(alloc, finding.place)?;
    let text = finding.line(alloc)?;
    json!(in alloc; {
        "cause": cause,
        "file": file,
        "place": place,
        "severity": "fault",
        "text": &text
    })
}

// The object of a cause.
fn cause_value(alloc: Global, cause: &Cause) -> Result<Value, AllocError>
    ensures { IfOk result (λ value. view value ≡ document_cause_data cause.now) }
{
    let text = cause_text(alloc, cause)?;
    json!(in alloc; {"code": Code::of(cause).as_str(), "text": &text})
}

// What is printed for a cause.
fn cause_text(alloc: Global, cause: &Cause) -> Result<String, AllocError>
    ensures { IfOk result (λ text. string_bytes text ≡ document_cause_text cause.now) }
{
    format!(in alloc; "{cause}")
}

// The object of the line with the counts.
pub(crate) fn counts_value(alloc: Global, counts: Counts) -> Result<Value, AllocError>
    ensures { IfOk result (λ value. view value ≡ document_counts_data counts) }
{
    let counts = numbers_value(alloc, counts)?;
    json!(in alloc; {"counts": counts})
}

// The same of a file.
pub(crate) fn file_counts_value(
    alloc: Global,
    file: &str,
    counts: Counts,
) -> Result<Value, AllocError>
    ensures { IfOk result (λ value. view value ≡ counts_data_in file.now counts) }
{
    let counts = numbers_value(alloc, counts)?;
    json!(in alloc; {"counts": counts, "file": file})
}

// The object of counts.
fn numbers_value(alloc: Global, counts: Counts) -> Result<Value, AllocError>
    ensures { IfOk result (λ value. view value ≡ numbers_data counts) }
{
    json!(in alloc; {
        "faults": counts.faults,
        "locales": counts.locales,
        "numbers": counts.numbers,
        "rules": counts.rules
    })
}
