//! Reports of messages.

use icu_plurals::JsonProvider;
use message_report::run::run;
use message_report::{Finding, MessageFile, found_in_files};
use plural_fallback::FallbackProvider;
use row_calls::call::Call;

/// Makes the call of a kind of this file. Returns whether there is such a kind.
pub fn make(kind: &str, call: &mut Call) -> bool {
    match kind {
        "messages_report" => of_messages(call, Printed::Report),
        "messages_findings" => of_messages(call, Printed::Findings),
        _ => return false,
    }
    true
}

// What is printed of a document of messages.
#[derive(Clone, Copy)]
enum Printed {
    Report,
    Findings,
}

// Prints the lines of the report of a document of messages, or its findings, under a document of
// rules.
fn of_messages(call: &mut Call, printed: Printed) {
    let rules = call.value();
    let messages = call.value();
    let provider = match JsonProvider::from_value(call.alloc, &rules) {
        Ok(provider) => provider,
        Err(error) => return call.refused("rules", &error),
    };
    let source = FallbackProvider {
        provider: &provider,
        locales: &rules,
    };
    let file = MessageFile {
        name: "m.json",
        document: &messages,
    };
    match printed {
        Printed::Report => {
            let mut report = call.writer();
            match run(call.alloc, &source, &[file], &mut report) {
                Ok(_) => print_lines(call, report.as_slice()),
                Err(error) => call.print_error(&error),
            }
        }
        Printed::Findings => match found_in_files(call.alloc, &source, &[file]) {
            Ok(found) => print_findings(call, found.findings()),
            Err(_) => call.out_of_memory(),
        },
    }
}

// Prints the file, the place and the cause of each finding.
fn print_findings(call: &mut Call, findings: &[Finding<'_>]) {
    for finding in findings {
        print_finding(call, finding);
    }
}

// Prints the file, the place and the cause of a finding.
fn print_finding(call: &mut Call, finding: &Finding<'_>) {
    let place = finding.place.text(call.alloc);
    let place = call.made(place);
    call.separate(" | ");
    call.print(finding.place.file());
    call.print("; ");
    call.print(place.as_str());
    call.print("; ");
    call.print_value(&finding.cause);
}

// Prints the lines of a report.
pub(crate) fn print_lines(call: &mut Call, report: &[u8]) {
    match std::str::from_utf8(report) {
        Ok(text) => {
            for line in text.lines() {
                call.separate(" | ");
                call.print(line);
            }
        }
        Err(_) => call.not("a text"),
    }
}
