//! Writers that fail.

use crate::tests::assertion::holds;
use crate::tests::commands::documents::DOCUMENT;
use crate::tests::taking::Taking;
use plural_commands::RunError;
use plural_commands::run::run;
use std::alloc::Global;

// Returns whether the words over the document are answered as a writer that takes this many bytes
// lets them.
fn stops_after(alloc: Global, words: &[&str], left: usize, refuses: bool, succeeds: bool) -> bool {
    let mut input = DOCUMENT;
    let mut writer = Taking::some(left, refuses);
    let answer = run(alloc, words, &mut input, &mut writer);
    let is_told = match &answer {
        Ok(()) => succeeds,
        Err(fault) => !succeeds && matches!(fault, RunError::Write),
    };
    is_told && writer.left == 0 && writer.is_left_alone()
}

#[test]
fn a_refused_write_is_a_fault_and_nothing_is_flushed(rt: HostRuntime) {
    let rows: [(&[&str], usize); 6] = [
        (&["test", "i = 1", "1"], 5),
        (&["category", "a", "cardinal", "1"], 4),
        (&["range", "a", "cardinal", "0", "1"], 4),
        (&["print", "b", "cardinal"], 11),
        (&["select", "a", "cardinal", "1"], 5),
        (&["message", "a", "cardinal", "0"], 5),
    ];
    for (words, length) in rows {
        for count in 0..length {
            holds!(rt; stops_after(rt.alloc(), words, count, true, false), at count);
        }
        holds!(rt; stops_after(rt.alloc(), words, 0, false, false), at words);
        holds!(rt; stops_after(rt.alloc(), words, length, true, true), at words);
    }
}

#[test]
fn a_fault_touches_no_writer(rt: HostRuntime) {
    let rows: [&[&str]; 4] = [
        &["test", "i = 1", "x"],
        &["category", "a", "cardinal", "x"],
        &["category", "z", "cardinal", "1"],
        &["print"],
    ];
    for words in rows {
        let mut input = DOCUMENT;
        let mut writer = Taking::some(0, true);
        holds!(rt; run(rt.alloc(), words, &mut input, &mut writer).is_err(), at words.len());
        holds!(rt; writer.is_untouched(), at words.len());
    }
}
