//! Logs of SARIF of findings.

ghost use Rattle.std.specs.Prelude.{◌≡◌, false, IfOk, map, string_bytes};
ghost use Rattle.finding_formats.specs.FindingCodes.{code_meaning, code_name};
ghost use Rattle.finding_formats.specs.Logs.{rule_data};
ghost use Rattle.finding_formats.specs.SarifLog.{finding_result, forms_log, result_of, sarif_text};
ghost use Rattle.finding_formats.specs.declared.code.Code as of_codes;
ghost use Rattle.message_report.specs.MessageFindings.{message_finding_view};
ghost use Rattle.message_report.specs.MessageFindings as listed;
ghost use Rattle.serde_json.specs.View.{items_of, view};
ghost use Rattle.serde_json.specs.Written.{items_have_float};

use crate::code::{ALL_CODES, Code};
use crate::finding_object::finding_text;
use crate::log::{ValueMaker, location_value, log_text, result_value, rule_value, values_of};
use crate::severity::level;
use message_report::{Finding, Found};
use serde_json::Value;
use std::alloc::{AllocError, Global};

// The log.
pub(crate) fn sarif_text(alloc: Global, found: &Found<'_>) -> Result<String, AllocError>
    ensures { IfOk result (λ text. string_bytes text ≡ sarif_text found.now) }
{
    let results = values_of(alloc, &FindingResults, found.findings())?;
    forms_log(alloc, results)
}

// The log of results.
pub(crate) fn forms_log(alloc: Global, results: Vec<Value>) -> Result<String, AllocError>
    requires { items_have_float (items_of (map view results.items)) ≡ false }
    ensures { IfOk result (λ text. string_bytes text ≡ forms_log (map view results.items)) }
{
    let rules = values_of(alloc, &CodeRules, ALL_CODES)?;
    log_text(alloc, "plural_forms", rules, results)
}

// The rules of codes.
#[derive(Drop)]
struct CodeRules;

impl ValueMaker<Code> for CodeRules {
    ghost Seen = { of_codes.Code };

    ghost seen = { λ code. code };

    ghost data_of = { λ rules code. rule_data (code_name code) (code_meaning code) };

    fn value(&self, alloc: Global, code: &Code) -> Result<Value, AllocError> {
        rule_value(alloc, code.as_str(), code.meaning())
    }
}

// The results of findings.
#[derive(Drop)]
struct FindingResults;

impl<'a> ValueMaker<Finding<'a>> for FindingResults {
    ghost Seen = { listed.MessageFinding };

    ghost seen = { message_finding_view };

    ghost data_of = { λ results. result_of };

    fn value(&self, alloc: Global, finding: &Finding<'a>) -> Result<Value, AllocError> {
        let text = finding_text(alloc, finding)?;
        finding_result(alloc, finding, None, text.as_str())
    }
}

// The result of a finding, given its line, if it is known, and what is printed of it.
pub(crate) fn finding_result(
    alloc: Global,
    finding: &Finding<'_>,
    line: Option<u64>,
    text: &str,
) -> Result<Value, AllocError>
    ensures { IfOk result (λ value. view value ≡ finding_result line (message_finding_view finding.now) text.now) }
{
    let name = finding.place.text(alloc)?;
    let location = location_value(alloc, finding.place.file(), line, name.as_str())?;
    let code = Code::of(finding.cause);
    result_value(
        alloc,
        level(finding.cause.severity()),
        location,
        text,
        code.as_str(),
        code.place(),
    )
}
