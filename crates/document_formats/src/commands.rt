//! Commands of a workflow of GitHub Actions.

ghost use Rattle.std.specs.Prelude.{◌≡◌, IfOk, string_bytes};
ghost use Rattle.document_formats.specs.DocumentCommands.{file_command, file_located, file_report_commands, finding_command_in, report_commands};
ghost use Rattle.document_report.specs.DocumentFindings.{finding_view};
ghost use Rattle.document_report.specs.DocumentFindings as listed;
ghost use Rattle.finding_formats.specs.LocatedFindings.{located_view};

use crate::code::Code;
use crate::finding_object::INPUT_NAME;
use document_report::{Finding, Report};
use finding_formats::{Format, Located, Notice, Told, Totals, print_located};
use message_report::Severity;
use plural_documents::{LinePrinter, push_lines};
use std::alloc::{AllocError, Global};

// What commands don't tell.
pub(crate) const NO_TOTALS: Totals = Totals {
    messages: 0,
    forms: 0,
    faults: 0,
    notes: 0,
    left_out: 0,
};

// A command for each finding.
pub(crate) fn report_commands(alloc: Global, report: &Report<'_>) -> Result<String, AllocError>
    ensures { IfOk result (λ text. string_bytes text ≡ report_commands report.now) }
{
    file_commands(alloc, INPUT_NAME, report)
}

// A command for each finding in a file.
pub(crate) fn file_commands(
    alloc: Global,
    file: &str,
    report: &Report<'_>,
) -> Result<String, AllocError>
    ensures { IfOk result (λ text. string_bytes text ≡ file_report_commands file.now report.now) }
{
    let mut text = String::new(alloc);
    push_lines(
        alloc,
        &mut FileCommands { file },
        report.findings(),
        &mut text,
    )?;
    Ok(text)
}

// The commands of findings in a file.
#[derive(Drop)]
struct FileCommands<'f> {
    file: &'f str,
}

impl<'f, 'a> LinePrinter<Finding<'a>> for FileCommands<'f> {
    ghost Seen = { listed.Finding };

    ghost seen = { finding_view };

    ghost line_of = { λ commands. finding_command_in commands.file.now };

    fn push(
        &mut self,
        alloc: Global,
        finding: &Finding<'a>,
        text: &mut String,
    ) -> Result<(), AllocError> {
        let line = finding.line(alloc)?;
        let code = Code::of(&finding.cause).as_str();
        let command = file_command(alloc, self.file, code, line.as_str())?;
        text.push_str(command.as_str())
    }
}

// The command of a text with a code, told of a file.
fn file_command(alloc: Global, file: &str, code: &str, text: &str) -> Result<String, AllocError>
    ensures { IfOk result (λ command. string_bytes command ≡ file_command file.now code.now text.now) }
{
    let located = file_located(file, code, text);
    print_located(alloc, Format::GitHub, &[located], NO_TOTALS)
}

// A text with a code, told of a file.
fn file_located<'a>(file: &'a str, code: &'a str, text: &'a str) -> Located<'a>
    ensures { located_view result ≡ file_located file.now code.now text.now }
{
    Located {
        line: None,
        placeholder: None,
        told: Told::Notice(Notice {
            file,
            severity: Severity::Error,
            code,
            text,
        }),
    }
}
