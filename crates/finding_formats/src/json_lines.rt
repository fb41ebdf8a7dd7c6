//! Lines of JSON.

ghost use Rattle.std.specs.Prelude.{◌≡◌, ◌++◌, false, IfOk, OnErr, OnOk, string_bytes};
ghost use Rattle.finding_formats.specs.FindingObjects.{finding_data};
ghost use Rattle.finding_formats.specs.JsonLines.{json_line, json_lines};
ghost use Rattle.message_report.specs.MessageFindings.{message_finding_view};
ghost use Rattle.message_report.specs.MessageFindings as listed;
ghost use Rattle.serde_json.specs.View.{view};
ghost use Rattle.serde_json.specs.Written.{has_float};

use crate::finding_object::{counts_value, finding_value};
use message_report::{Finding, Found};
use plural_documents::{LinePrinter, push_lines};
use serde_json::Value;
use std::alloc::{AllocError, Global};

// A line for each finding, and one with the counts.
pub(crate) fn json_lines(alloc: Global, found: &Found<'_>) -> Result<String, AllocError>
    ensures { IfOk result (λ text. string_bytes text ≡ json_lines found.now) }
{
    let mut text = String::new(alloc);
    push_lines(alloc, &mut FindingObjects, found.findings(), &mut text)?;
    let counts = counts_value(alloc, found.counts())?;
    push_value(alloc, &mut text, &counts)?;
    Ok(text)
}

// The objects of findings.
#[derive(Drop)]
struct FindingObjects;

impl<'a> LinePrinter<Finding<'a>> for FindingObjects {
    ghost Seen = { listed.MessageFinding };

    ghost seen = { message_finding_view };

    ghost line_of = { λ objects f. json_line (finding_data f) };

    fn push(
        &mut self,
        alloc: Global,
        finding: &Finding<'a>,
        text: &mut String,
    ) -> Result<(), AllocError> {
        let value = finding_value(alloc, finding)?;
        push_value(alloc, text, &value)
    }
}

/// Appends a value without floats, and a newline. It allocates; the only error is out of memory,
/// and then nothing is appended.
pub fn push_value(alloc: Global, text: &mut String, value: &Value) -> Result<(), AllocError>
    requires { has_float (view value.now) ≡ false }
    ensures ok { OnOk result (string_bytes text.new ≡ string_bytes text.old ++ json_line (view value.now)) }
    ensures err { OnErr result (string_bytes text.new ≡ string_bytes text.old) }
{
    let mut line = value.to_string(alloc)?;
    line.push_str("\n")?;
    text.push_str(line.as_str())
}
