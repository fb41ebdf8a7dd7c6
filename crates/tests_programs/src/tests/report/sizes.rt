//! A long document and a long report, read and written in pieces; and more than a thousand parents.

use crate::tests::assertion::holds;
use crate::tests::pieces::Pieces;
use crate::tests::report::answers::gives;
use document_report::run::run;
use std::alloc::{AllocError, Global};
use std::test::Fail;

// Returns a document of a locale and 2000 members that are no part of it, and its report, which has
// a line of 64 bytes for each of them.
fn document_and_report(alloc: Global) -> Result<(String, String), AllocError> {
    let mut document = String::from_str(alloc, r#"{"cardinal":{"a":{"other":""}}"#)?;
    let mut report = String::new(alloc);
    for number in 1000u16..3000 {
        let name = format!(in alloc; "a_part_that_no_document_of_plural_rules_has_no_{number}")?;
        document.push_str(",\"")?;
        document.push_str(name.as_str())?;
        document.push_str("\":0")?;
        report.push_str(name.as_str())?;
        report.push_str(": not a part\n")?;
    }
    document.push_str("}")?;
    report.push_str("locales: 1, rules: 1, numbers: 0, faults: 2000\n")?;
    Ok((document, report))
}

#[test]
fn a_report_of_128000_bytes_is_written_whole(rt: HostRuntime) -> Result<(), Fail> {
    let (document, report) = document_and_report(rt.alloc())?;
    let (document, report) = (document.as_str().as_bytes(), report.as_str().as_bytes());
    holds!(rt; report.len() == 128_000 + 47);
    for most in [1usize, 4095, 4096, 1_000_000] {
        let mut reader = Pieces::of(document, most);
        let mut writer = Pieces::of(report, most);
        let verdict = run(rt.alloc(), false, &mut reader, &mut writer);
        let has_faults = match verdict {
            Ok(verdict) => verdict.status() == 1,
            Err(_) => false,
        };
        holds!(rt; has_faults && reader.is_done() && writer.is_done(), at most);
    }
    Ok(())
}

// Returns a document of a locale and 1025 parents, each locale of which has the next one as its
// parent, and its report: the chains of all but the last 30 go on after 32 locales.
fn parents_and_report(alloc: Global) -> Result<(String, String), AllocError> {
    let mut document = String::from_str(alloc, r#"{"cardinal":{"a":{"other":""}},"parents":{"#)?;
    let mut report = String::new(alloc);
    for number in 1000u16..2025 {
        let next = number + 1;
        let separator = if number == 1000 { "" } else { "," };
        write!(document, "{separator}\"a{number}\":\"a{next}\"")?;
        if number < 1995 {
            writeln!(
                report,
                "parents a{number}: the chain of parents doesn't end"
            )?;
        }
    }
    document.push_str("}}")?;
    report.push_str("locales: 1, rules: 1, numbers: 0, faults: 995\n")?;
    Ok((document, report))
}

#[test]
fn the_chains_of_1025_parents_are_told(rt: HostRuntime) -> Result<(), Fail> {
    let (document, report) = parents_and_report(rt.alloc())?;
    let mut reader = document.as_str().as_bytes();
    holds!(rt; gives(rt.alloc(), false, &mut reader, report.as_str()) == Some(true));
    Ok(())
}
