//! Reports on a language's texts: the example of the page.

use crate::tests::assertion::holds;
use plural_checker::{LanguageTexts, Report, check_texts};
use std::alloc::{AllocError, Global};
use std::test::Fail;

// Returns the faults of a report, one per line.
fn lines(alloc: Global, report: &Report) -> Result<String, AllocError> {
    let mut text = String::new(alloc);
    for fault in report.faults.iter() {
        let line = fault.to_string(alloc)?;
        text.push_str(line.as_str())?;
        text.push_str("\n")?;
    }
    Ok(text)
}

// Returns a language with texts for one and other, and this one for few.
fn with_few(few: &str) -> LanguageTexts<'_> {
    LanguageTexts {
        zero: None,
        one: Some("i = 1 and v = 0 @integer 1"),
        two: None,
        few: Some(few),
        many: None,
        other: Some(" @integer 0"),
    }
}

#[test]
fn faults_are_printed(rt: HostRuntime) -> Result<(), Fail> {
    let report = check_texts(rt.alloc(), &with_few("v = 0 adn i % 10 = 2..4"))?;
    let faults = "few: read as v = 0\nother: sample 0 is few\n";
    holds!(rt; lines(rt.alloc(), &report)?.as_str() == faults);
    holds!(rt; report.numbers == 2);
    Ok(())
}
