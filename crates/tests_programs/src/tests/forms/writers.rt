//! Writers of answers and of notes that fail.

use crate::tests::assertion::holds;
use crate::tests::awaits::awaiting;
use crate::tests::forms::asked::{ASKED, Asked, LINES, RULES, answer};
use crate::tests::taking::Taking;
use form_commands::{FormsError, Verdict};
use std::alloc::Global;

// Returns whether a write failed.
pub(crate) fn is_failed_write(answer: &Result<Verdict, FormsError>) -> bool {
    match answer {
        Ok(_) => false,
        Err(fault) => matches!(fault, FormsError::Write),
    }
}

// Returns whether a writer that takes this many bytes is left alone then, and no note is written.
fn stops_after(alloc: Global, asked: Asked, left: usize, refuses: bool) -> bool {
    let (mut rules, mut lines) = (RULES, LINES);
    let (mut writer, mut notes) = (Taking::some(left, refuses), Taking::some(0, true));
    let answer = answer(
        alloc,
        asked,
        &mut rules,
        &mut lines,
        &mut writer,
        &mut notes,
    );
    let is_stopped = writer.left == 0 && writer.is_left_alone();
    is_failed_write(&answer) && is_stopped && notes.is_untouched()
}

// Returns whether the whole answer is written before notes of which this many bytes are taken, and
// whether those are left alone then.
fn notes_stop_after(alloc: Global, asked: Asked, left: usize, succeeds: bool) -> bool {
    let (mut rules, mut lines) = (RULES, LINES);
    let (mut writer, mut notes) = (awaiting(asked.text()), Taking::some(left, true));
    let answer = answer(
        alloc,
        asked,
        &mut rules,
        &mut lines,
        &mut writer,
        &mut notes,
    );
    let is_told = if succeeds {
        answer.is_ok()
    } else {
        is_failed_write(&answer)
    };
    is_told && writer.is_done() && notes.left == 0 && notes.is_left_alone()
}

#[test]
fn a_refused_write_is_a_fault_and_notes_follow_the_whole_answer(rt: HostRuntime) {
    for asked in ASKED {
        for count in 0..asked.text().len() {
            holds!(rt; stops_after(rt.alloc(), asked, count, true), at count);
        }
        holds!(rt; stops_after(rt.alloc(), asked, 0, false), at asked);
        let length = asked.notes().len();
        for count in 0..length {
            holds!(rt; notes_stop_after(rt.alloc(), asked, count, false), at count);
        }
        holds!(rt; notes_stop_after(rt.alloc(), asked, length, true), at asked);
    }
}
