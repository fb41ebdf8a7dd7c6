//! Long inputs, and readers that fail.

use crate::tests::assertion::holds;
use crate::tests::input::{Input, MOST};
use crate::tests::report::answers::gives;

// A document without faults, and its report.
const DOCUMENT: &[u8] =
    br#"{"cardinal":{"a":{"one":"i = 1 and v = 0 @integer 1","other":"@integer 0, 2~16"}}}"#;

const REPORT: &str = "locales: 1, rules: 2, numbers: 17, faults: 0\n";

// Returns the document with spaces up to a length.
fn document_up_to(length: usize, fails: bool) -> Input<'static> {
    Input::up_to(DOCUMENT, length, fails)
}

#[test]
fn the_longest_input_is_read(rt: HostRuntime) {
    let mut longest = document_up_to(MOST, false);
    holds!(rt; gives(rt.alloc(), false, &mut longest, REPORT) == Some(true));
}

#[test]
fn what_is_too_long_is_not_read_on(rt: HostRuntime) {
    let too_long = "2: input too long\n";
    let mut reader = document_up_to(MOST + 100, false);
    holds!(rt; gives(rt.alloc(), false, &mut reader, too_long) == Some(true));
    holds!(rt; reader.spaces == 99);
    let mut failing = document_up_to(MOST + 1, true);
    holds!(rt; gives(rt.alloc(), false, &mut failing, too_long) == Some(true));
}

#[test]
fn an_interrupted_read_is_repeated(rt: HostRuntime) {
    let mut reader = document_up_to(5000, false);
    reader.interrupts = 3;
    holds!(rt; gives(rt.alloc(), false, &mut reader, REPORT) == Some(true));
}

#[test]
fn a_failing_reader_is_a_fault(rt: HostRuntime) {
    for length in [0, 5000, MOST] {
        let mut reader = document_up_to(length, true);
        holds!(rt; gives(rt.alloc(), false, &mut reader, "2: cannot read input\n") == Some(true), at length);
        holds!(rt; reader.failures == 1, at length);
    }
}
