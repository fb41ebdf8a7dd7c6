//! Readers of rules that fail, and long rules.

use crate::tests::assertion::holds;
use crate::tests::awaits::{awaiting, awaits_fault};
use crate::tests::forms::asked::{ASKED, Asked, LINES, RULES, answer};
use crate::tests::input::{Input, MOST};
use crate::tests::taking::Taking;
use std::alloc::Global;

// Rules at fault: a text with spaces up to a length, whether the reader fails after them, how many
// spaces are left then, and the status and the text of the fault.
type Row = (&'static [u8], usize, bool, usize, &'static str);

// Returns whether the rules are read so far and refused, and nothing else is touched: no number is
// read, and nothing is written.
fn is_refused(alloc: Global, asked: Asked, row: Row) -> bool {
    let (text, length, fails, left, line) = row;
    let mut rules = Input::up_to(text, length, fails);
    let mut lines = Input::failing();
    let (mut writer, mut notes) = (Taking::some(0, true), Taking::some(0, true));
    let is_told = match answer(
        alloc,
        asked,
        &mut rules,
        &mut lines,
        &mut writer,
        &mut notes,
    ) {
        Ok(_) => false,
        Err(fault) => awaits_fault(awaiting(line), fault.status(), &fault),
    };
    let is_read = rules.spaces == left && rules.failures == usize::from(fails);
    is_told && is_read && lines.failures == 0 && writer.is_untouched() && notes.is_untouched()
}

// Returns whether the whole answer and its notes are written though reads are interrupted.
fn is_answered(alloc: Global, asked: Asked) -> bool {
    let (mut rules, mut lines) = (Input::up_to(RULES, 5000, false), Input::of(Some(LINES)));
    rules.interrupts = 3;
    lines.interrupts = 3;
    let (mut writer, mut notes) = (awaiting(asked.text()), awaiting(asked.notes()));
    let answer = answer(
        alloc,
        asked,
        &mut rules,
        &mut lines,
        &mut writer,
        &mut notes,
    );
    answer.is_ok() && writer.is_done() && notes.is_done()
}

#[test]
fn faults_of_rules_touch_nothing_else_and_interrupts_are_none(rt: HostRuntime) {
    let rows: [Row; 5] = [
        (RULES, 0, true, 0, "2: cannot read rules\n"),
        (RULES, 5000, true, 0, "2: cannot read rules\n"),
        (RULES, MOST, true, 0, "2: cannot read rules\n"),
        (RULES, MOST + 100, false, 99, "2: rules too long\n"),
        (b"[", 0, false, 0, "2: rules are not JSON\n"),
    ];
    for asked in ASKED {
        for row in rows {
            holds!(rt; is_refused(rt.alloc(), asked, row), row.4);
        }
        let row: Row = match asked {
            Asked::Check | Asked::WrongCheck => (b"[]", 0, false, 0, "2: shape\n"),
            Asked::List | Asked::Numbers | Asked::Lines | Asked::Gettext => (
                br#"{"cardinal":{}}"#,
                0,
                false,
                0,
                "1: cardinal en-GB: no locale of the chain is found\n",
            ),
        };
        holds!(rt; is_refused(rt.alloc(), asked, row), at asked);
        holds!(rt; is_answered(rt.alloc(), asked), at asked);
    }
}
