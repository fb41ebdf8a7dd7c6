//! Writers that fail.

use crate::tests::assertion::holds;
use crate::tests::taking::Taking;
use document_report::CheckError;
use document_report::run::run;
use std::alloc::Global;

// Returns whether the report of a document without locales is told as a writer that takes this many
// bytes lets it.
fn stops_after(alloc: Global, left: usize, refuses: bool, succeeds: bool) -> bool {
    let mut input: &[u8] = b"{}";
    let mut writer = Taking::some(left, refuses);
    let answer = run(alloc, false, &mut input, &mut writer);
    let is_told = match &answer {
        Ok(_) => succeeds,
        Err(fault) => !succeeds && matches!(fault, CheckError::Write),
    };
    is_told && writer.left == 0 && writer.is_left_alone()
}

#[test]
fn a_refused_write_is_a_fault_and_nothing_is_flushed(rt: HostRuntime) {
    // The length of `document: no locale` and `locales: 0, rules: 0, numbers: 0, faults: 1`, with
    // their newlines.
    let length = 64;
    for count in 0..length {
        holds!(rt; stops_after(rt.alloc(), count, true, false), at count);
    }
    holds!(rt; stops_after(rt.alloc(), 0, false, false));
    holds!(rt; stops_after(rt.alloc(), length, true, true));
}

#[test]
fn a_fault_touches_no_writer(rt: HostRuntime) {
    for (has_words, document) in [(true, "{}"), (false, "["), (false, "[]")] {
        let mut input = document.as_bytes();
        let mut writer = Taking::some(0, true);
        holds!(rt; run(rt.alloc(), has_words, &mut input, &mut writer).is_err(), document);
        holds!(rt; writer.is_untouched(), document);
    }
}
