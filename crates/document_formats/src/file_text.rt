//! The text of the report of a file.

ghost use Rattle.std.specs.Prelude.{◌≡◌, IfOk, string_bytes};
ghost use Rattle.document_formats.specs.FileText.{counts_line_in, file_report_text, finding_line_in};
ghost use Rattle.document_report.specs.DocumentFindings.{finding_view};
ghost use Rattle.document_report.specs.DocumentFindings as listed;
ghost use Rattle.document_report.specs.ReportText.{counts_line};

use document_report::{Counts, Finding, Report};
use plural_documents::{LinePrinter, push_lines};
use std::alloc::{AllocError, Global};

// A line for each finding, and one with the counts, each after the file's name.
pub(crate) fn file_text(
    alloc: Global,
    file: &str,
    report: &Report<'_>,
) -> Result<String, AllocError>
    ensures { IfOk result (λ text. string_bytes text ≡ file_report_text file.now report.now) }
{
    let mut text = String::new(alloc);
    push_lines(alloc, &mut FileLines { file }, report.findings(), &mut text)?;
    text.push_str(file_counts_line(alloc, file, report.counts())?.as_str())?;
    Ok(text)
}

// The lines of findings in a file.
#[derive(Drop)]
struct FileLines<'f> {
    file: &'f str,
}

impl<'f, 'a> LinePrinter<Finding<'a>> for FileLines<'f> {
    ghost Seen = { listed.Finding };

    ghost seen = { finding_view };

    ghost line_of = { λ lines. finding_line_in lines.file.now };

    fn push(
        &mut self,
        alloc: Global,
        finding: &Finding<'a>,
        text: &mut String,
    ) -> Result<(), AllocError> {
        let line = finding_line(alloc, self.file, finding)?;
        text.push_str(line.as_str())
    }
}

// The line of a finding, with a newline.
fn finding_line(alloc: Global, file: &str, finding: &Finding<'_>) -> Result<String, AllocError>
    ensures { IfOk result (λ line. string_bytes line ≡ finding_line_in file.now (finding_view finding.now)) }
{
    let text = finding.line(alloc)?;
    format!(in alloc; "{file}: {text}\n")
}

// The line with the counts.
fn file_counts_line(alloc: Global, file: &str, counts: Counts) -> Result<String, AllocError>
    ensures { IfOk result (λ line. string_bytes line ≡ counts_line_in file.now counts) }
{
    let text = counts_line(alloc, counts)?;
    format!(in alloc; "{file}: {text}")
}

// Counts, with a newline.
fn counts_line(alloc: Global, counts: Counts) -> Result<String, AllocError>
    ensures { IfOk result (λ text. string_bytes text ≡ counts_line counts.locales counts.rules counts.numbers counts.faults) }
{
    let Counts {
        locales,
        rules,
        numbers,
        faults,
    } = counts;
    format!(in alloc; "locales: {locales}, rules: {rules}, numbers: {numbers}, faults: {faults}\n")
}
