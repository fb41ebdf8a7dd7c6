//! Logs of SARIF.

ghost use Rattle.std.specs.Prelude.{◌≡◌, IfOk, string_bytes};
ghost use Rattle.document_formats.specs.DocumentCodes.{document_code_meaning, document_code_name};
ghost use Rattle.document_formats.specs.DocumentLog.{file_report_log, report_log, result_in};
ghost use Rattle.document_formats.specs.declared.code.Code as of_codes;
ghost use Rattle.document_report.specs.DocumentFindings.{finding_view};
ghost use Rattle.document_report.specs.DocumentFindings as listed;
ghost use Rattle.finding_formats.specs.Logs.{rule_data};

use crate::code::{ALL_CODES, Code};
use crate::finding_object::INPUT_NAME;
use document_report::{Finding, Report};
use finding_formats::log::{
    ValueMaker, location_value, log_text, result_value, rule_value, values_of,
};
use serde_json::Value;
use std::alloc::{AllocError, Global};

// The log.
pub(crate) fn report_log(alloc: Global, report: &Report<'_>) -> Result<String, AllocError>
    ensures { IfOk result (λ text. string_bytes text ≡ report_log report.now) }
{
    file_log(alloc, INPUT_NAME, report)
}

// The log of a file.
pub(crate) fn file_log(alloc: Global, file: &str, report: &Report<'_>) -> Result<String, AllocError>
    ensures { IfOk result (λ text. string_bytes text ≡ file_report_log file.now report.now) }
{
    let results = values_of(alloc, &FileResults { file }, report.findings())?;
    let rules = values_of(alloc, &CodeRules, ALL_CODES)?;
    log_text(alloc, "plurals_check", rules, results)
}

// The rules of codes.
#[derive(Drop)]
pub(crate) struct CodeRules;

impl ValueMaker<Code> for CodeRules {
    ghost Seen = { of_codes.Code };

    ghost seen = { λ code. code };

    ghost data_of = { λ rules code. rule_data (document_code_name code) (document_code_meaning code) };

    fn value(&self, alloc: Global, code: &Code) -> Result<Value, AllocError> {
        rule_value(alloc, code.as_str(), code.meaning())
    }
}

// The results of findings in a file.
#[derive(Drop)]
pub(crate) struct FileResults<'f> {
    pub(crate) file: &'f str,
}

impl<'f, 'a> ValueMaker<Finding<'a>> for FileResults<'f> {
    ghost Seen = { listed.Finding };

    ghost seen = { finding_view };

    ghost data_of = { λ results. result_in results.file.now };

    fn value(&self, alloc: Global, finding: &Finding<'a>) -> Result<Value, AllocError> {
        let name = finding.place.text(alloc)?;
        let location = location_value(alloc, self.file, None, name.as_str())?;
        let text = finding.line(alloc)?;
        let code = Code::of(&finding.cause);
        result_value(
            alloc,
            "error",
            location,
            text.as_str(),
            code.as_str(),
            code.place(),
        )
    }
}
