//! Reports of documents of plural rules and ranges.

use crate::kinds::message_reports::print_lines;
use document_report::run::run;
use document_report::{CheckError, Counts, Finding, FindingPlace, Report, report_of};
use row_calls::call::Call;

/// Makes the call of a kind of this file. Returns whether there is such a kind.
pub fn make(kind: &str, call: &mut Call) -> bool {
    match kind {
        "document_findings" => of_document(call, Printed::Findings),
        "document_report" => of_document(call, Printed::Report),
        "checked_document" => checked_document(call),
        _ => return false,
    }
    true
}

// What is printed of a document.
#[derive(Clone, Copy)]
enum Printed {
    Findings,
    Report,
}

// Prints the findings of a document, or the lines of its report.
fn of_document(call: &mut Call, printed: Printed) {
    let document = call.value();
    match report_of(call.alloc, &document) {
        Ok(report) => print_report(call, &report, printed),
        Err(_) => call.out_of_memory(),
    }
}

// The lines of the report of a text and the status of its verdict, or the status and the text of the
// fault.
fn checked_document(call: &mut Call) {
    let text = call.text();
    let mut report = call.writer();
    match run(call.alloc, false, &mut text.as_bytes(), &mut report) {
        Ok(verdict) => {
            print_lines(call, report.as_slice());
            call.print(" | status ");
            call.print_value(&verdict.status());
        }
        Err(CheckError::Memory) if report.is_empty() => call.out_of_memory(),
        Err(fault) => {
            print_lines(call, report.as_slice());
            call.print_value(&fault.status());
            call.print(": ");
            call.print_value(&fault);
        }
    }
}

// Prints the findings or the lines of a report.
fn print_report(call: &mut Call, report: &Report<'_>, printed: Printed) {
    match printed {
        Printed::Findings => {
            for finding in report.findings() {
                print_finding(call, finding);
            }
            print_counts(call, report.counts());
        }
        Printed::Report => {
            let text = report.text(call.alloc);
            let text = call.made(text);
            print_lines(call, text.as_bytes());
            call.print(" | status ");
            call.print_value(&report.verdict().status());
        }
    }
}

// Prints what is at the place of a finding, the place, and the cause.
fn print_finding(call: &mut Call, finding: &Finding<'_>) {
    let place = finding.place.text(call.alloc);
    let place = call.made(place);
    call.separate(" | ");
    call.print(kind_of(finding.place));
    call.print("; ");
    call.print(place.as_str());
    call.print("; ");
    call.print_value(&finding.cause);
}

// What is at a place.
fn kind_of(place: FindingPlace<'_>) -> &'static str {
    match place {
        FindingPlace::Document => "document",
        FindingPlace::Part(_) => "part",
        FindingPlace::Parents => "parents",
        FindingPlace::Parent(_) => "parent",
        FindingPlace::Locale(_) => "locale",
        FindingPlace::Text(..) => "text",
        FindingPlace::Key(..) => "key",
    }
}

// Prints the counts: locales, rules, numbers and faults.
fn print_counts(call: &mut Call, counts: Counts) {
    call.separate(" | ");
    for count in [counts.locales, counts.rules, counts.numbers] {
        call.print_value(&count);
        call.print(" ");
    }
    call.print_value(&counts.faults);
}
