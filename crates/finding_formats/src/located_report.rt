//! The report of what is told, as text.

ghost use Rattle.std.specs.Prelude.{◌≡◌, ◌++◌, codes, IfOk, map, string_bytes};
ghost use Rattle.finding_formats.specs.LocatedFindings.{located_view};
ghost use Rattle.finding_formats.specs.LocatedFindings as listed;
ghost use Rattle.finding_formats.specs.LocatedReport.{located_report, report_line, totals_line};

use crate::line_mark::line_mark;
use crate::located::Located;
use crate::located_words::located_words;
use crate::totals::Totals;
use plural_documents::{LinePrinter, push_lines};
use std::alloc::{AllocError, Global};

// A line for each, and one with the totals.
pub(crate) fn located_report(
    alloc: Global,
    located: &[Located<'_>],
    totals: Totals,
) -> Result<String, AllocError>
    ensures { IfOk result (λ text. string_bytes text ≡ located_report (map located_view located.now) totals) }
{
    let mut text = String::new(alloc);
    push_lines(alloc, &mut ReportLines, located, &mut text)?;
    text.push_str(totals_line(alloc, totals)?.as_str())?;
    Ok(text)
}

// The lines of what is told.
#[derive(Drop)]
struct ReportLines;

impl<'a> LinePrinter<Located<'a>> for ReportLines {
    ghost Seen = { listed.Located };

    ghost seen = { located_view };

    ghost line_of = { λ lines. report_line };

    fn push(
        &mut self,
        alloc: Global,
        one: &Located<'a>,
        text: &mut String,
    ) -> Result<(), AllocError> {
        let line = report_line(alloc, one)?;
        text.push_str(line.as_str())
    }
}

// The line of one, with a newline.
fn report_line(alloc: Global, one: &Located<'_>) -> Result<String, AllocError>
    ensures { IfOk result (λ line. string_bytes line ≡ report_line (located_view one.now)) }
{
    let told = one.told;
    let mark = line_mark(alloc, ":", one.known_line())?;
    let words = located_words(alloc, one)?;
    line_of(
        alloc,
        told.file(),
        mark.as_str(),
        told.severity().as_str(),
        told.code(),
        words.as_str(),
    )
}

// A line, with a newline.
fn line_of(
    alloc: Global,
    file: &str,
    mark: &str,
    severity: &str,
    code: &str,
    words: &str,
) -> Result<String, AllocError>
    ensures { IfOk result (λ line. string_bytes line ≡ file.now ++ (mark.now ++ (codes ": " ++ (severity.now ++ (codes " ["
        ++ (code.now ++ (codes "] " ++ (words.now ++ codes "\n")))))))) }
{
    format!(in alloc; "{file}{mark}: {severity} [{code}] {words}\n")
}

// The line with the totals.
fn totals_line(alloc: Global, totals: Totals) -> Result<String, AllocError>
    ensures { IfOk result (λ line. string_bytes line ≡ totals_line totals) }
{
    let (messages, forms, faults) = (totals.messages, totals.forms, totals.faults);
    let (notes, left_out) = (totals.notes, totals.left_out);
    format!(in alloc;
        "messages: {messages}, forms: {forms}, faults: {faults}, notes: {notes}, left out: {left_out}, numbers tried: 0 to 9999\n"
    )
}
