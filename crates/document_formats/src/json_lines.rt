//! Lines of JSON.

ghost use Rattle.std.specs.Prelude.{◌≡◌, IfOk, string_bytes};
ghost use Rattle.document_formats.specs.DocumentLines.{file_report_lines, report_lines};
ghost use Rattle.document_formats.specs.DocumentObjects.{finding_data_in};
ghost use Rattle.document_report.specs.DocumentFindings.{finding_view};
ghost use Rattle.document_report.specs.DocumentFindings as listed;
ghost use Rattle.finding_formats.specs.JsonLines.{json_line};

use crate::finding_object::{INPUT_NAME, counts_value, file_counts_value, finding_value};
use document_report::{Finding, Report};
use finding_formats::push_value;
use plural_documents::{LinePrinter, push_lines};
use std::alloc::{AllocError, Global};

// A line for each finding, and one with the counts.
pub(crate) fn json_lines(alloc: Global, report: &Report<'_>) -> Result<String, AllocError>
    ensures { IfOk result (λ text. string_bytes text ≡ report_lines report.now) }
{
    let mut text = String::new(alloc);
    let mut objects = FileObjects { file: INPUT_NAME };
    push_lines(alloc, &mut objects, report.findings(), &mut text)?;
    let counts = counts_value(alloc, report.counts())?;
    push_value(alloc, &mut text, &counts)?;
    Ok(text)
}

// The same of a file.
pub(crate) fn file_lines(
    alloc: Global,
    file: &str,
    report: &Report<'_>,
) -> Result<String, AllocError>
    ensures { IfOk result (λ text. string_bytes text ≡ file_report_lines file.now report.now) }
{
    let mut text = String::new(alloc);
    push_lines(
        alloc,
        &mut FileObjects { file },
        report.findings(),
        &mut text,
    )?;
    let last = file_counts_value(alloc, file, report.counts())?;
    push_value(alloc, &mut text, &last)?;
    Ok(text)
}

// The objects of findings in a file.
#[derive(Drop)]
pub(crate) struct FileObjects<'f> {
    pub(crate) file: &'f str,
}

impl<'f, 'a> LinePrinter<Finding<'a>> for FileObjects<'f> {
    ghost Seen = { listed.Finding };

    ghost seen = { finding_view };

    ghost line_of = { λ objects f. json_line (finding_data_in objects.file.now f) };

    fn push(
        &mut self,
        alloc: Global,
        finding: &Finding<'a>,
        text: &mut String,
    ) -> Result<(), AllocError> {
        let value = finding_value(alloc, self.file, finding)?;
        push_value(alloc, text, &value)
    }
}
