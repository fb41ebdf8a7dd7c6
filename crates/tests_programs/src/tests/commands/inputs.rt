//! Long inputs, and readers that fail.

use crate::tests::assertion::holds;
use crate::tests::commands::answers::gives;
use crate::tests::commands::documents::DOCUMENT;
use crate::tests::input::{Input, MOST};

// The document with spaces up to a length.
fn document_up_to(length: usize, fails: bool) -> Input<'static> {
    Input::up_to(DOCUMENT, length, fails)
}

#[test]
fn the_longest_input_is_read(rt: HostRuntime) {
    let words = ["category", "a", "cardinal", "1"];
    let mut longest = document_up_to(MOST, false);
    holds!(rt; gives(rt.alloc(), &words, &mut longest, "one\n") == Some(true));
    let mut longer = document_up_to(MOST + 1, false);
    holds!(rt; gives(rt.alloc(), &words, &mut longer, "1: input too long\n") == Some(true));
}

#[test]
fn what_is_too_long_is_not_read_on(rt: HostRuntime) {
    let words = ["print", "b", "cardinal"];
    let too_long = "1: input too long\n";
    let mut reader = document_up_to(MOST + 100, false);
    holds!(rt; gives(rt.alloc(), &words, &mut reader, too_long) == Some(true));
    holds!(rt; reader.spaces == 99);
    let mut failing = document_up_to(MOST + 1, true);
    holds!(rt; gives(rt.alloc(), &words, &mut failing, too_long) == Some(true));
}

#[test]
fn an_interrupted_read_is_repeated(rt: HostRuntime) {
    let words = ["category", "a", "cardinal", "1"];
    let mut reader = document_up_to(5000, false);
    reader.interrupts = 3;
    holds!(rt; gives(rt.alloc(), &words, &mut reader, "one\n") == Some(true));
}

#[test]
fn a_failing_reader_is_a_fault(rt: HostRuntime) {
    let words = ["category", "a", "cardinal", "1"];
    let cannot = "1: cannot read input\n";
    for length in [0, 5000, MOST - 1, MOST] {
        let mut reader = document_up_to(length, true);
        holds!(rt; gives(rt.alloc(), &words, &mut reader, cannot) == Some(true), at length);
        holds!(rt; reader.failures == 1, at length);
    }
    let mut reader = Input::up_to(b"{", 0, true);
    holds!(rt; gives(rt.alloc(), &words, &mut reader, cannot) == Some(true));
}
